//! The end of a page: what is left out, the counts, and what its words mean.
ghost use Rattle.std.specs.Prelude.{◌≡◌, ◌++◌, [], List, ℕ, OnOk};
ghost use Rattle.race_page.specs.Pages.{IsEnd, IsPiece};

use crate::counting::append_counts;
use crate::leftovers::write_unlisted;
use crate::meanings::write_meanings;
use crate::own::Part;
use crate::piece::{Item, Piece};
use event_index::Indexed;
use race_triage::{Chosen, Verdicts};
use rapid_text::OutOfMemory;

/// Appends the end of the page: what is left out, the counts, and what its words mean.
pub(crate) fn append_end(
    out: &mut Vec<u8>,
    indexed: &Indexed,
    verdicts: &Verdicts,
    chosen: &Chosen,
    apart: bool,
    are_followed: bool,
) -> Result<(), OutOfMemory>
    requires { out.old.items ≡ [] }
    ensures { OnOk result (IsEnd indexed.now verdicts.now.verdicts.items out.new.items) }
{
    let mut piece = Piece::new(*out.allocator());
    write_unlisted(&mut piece, chosen, apart)?;
    out.extend_from_slice(piece.bytes())?;
    append_counts(out, &verdicts.totals(indexed))?;
    append_foot(out, &mut piece, are_followed)?;
    Ok(())
}

/// Appends what the page's words mean, and the foot, as one piece.
fn append_foot(out: &mut Vec<u8>, piece: &mut Piece, are_followed: bool) -> Result<(), OutOfMemory>
    ensures { OnOk result ((foot : List ℕ) × IsPiece foot × (out.new.items ≡ out.old.items ++ foot)) }
{
    piece.clear();
    write_meanings(piece, are_followed)?;
    piece.write(&[Item::Part(Part::Foot)])?;
    out.extend_from_slice(piece.bytes())?;
    Ok(())
}
