//! The lines of the calls that led to an access.
ghost use Rattle.std.specs.Prelude.{◌≡◌};
ghost use Rattle.rapid_text.specs.Appended.{Appended};
ghost use Rattle.triage_report.specs.lines.Lines.{call_line, location_lines, place_or, said_of};

use crate::folder::{Folder, place_in};
use explain_report::places::{MAX_CALLS, call_of, cut_at_arrow};
use rapid_text::OutOfMemory;
use report::{Piece, append_pieces};

/// Appends a line for each call of the location, 64 at most. `place` is that of the access. If memory runs out, part of
/// the lines may be there.
pub fn append_calls(
    out: &mut Vec<u8>,
    folder: &Folder,
    place: &[u8],
    location: &[u8],
) -> Result<(), OutOfMemory>
    ensures { Appended result out.old out.new (location_lines folder.now place.now location.now) }
{
    let (_, mut rest) = cut_at_arrow(location);
    for done in 0..MAX_CALLS {
        match rest {
            Some(text) => {
                let (call, more) = cut_at_arrow(text);
                append_call(out, folder, place, call)?;
                rest = more;
            }
            None => return Ok(()),
        }
    }
    Ok(())
}

/// Appends the line of a call. `place` is that of the access.
fn append_call(
    out: &mut Vec<u8>,
    folder: &Folder,
    place: &[u8],
    call: &[u8],
) -> Result<(), OutOfMemory>
    ensures { Appended result out.old out.new (call_line folder.now place.now call.now) }
{
    let call = call_of(call);
    let own = place_in(*out.allocator(), folder, call.place)?;
    append_said(out, place_or(place, own.as_slice()), call.function)
}

/// Appends the line of a call of this function, at this place.
fn append_said<'a>(
    out: &mut Vec<u8>,
    place: &'a [u8],
    function: &'a [u8],
) -> Result<(), OutOfMemory>
    ensures { Appended result out.old out.new (said_of place.now function.now) }
{
    if function.is_empty() {
        append_pieces(
            out,
            &[
                Piece::Words(place),
                Piece::Words(b": note: called from here\n"),
            ],
        )
    } else {
        append_pieces(
            out,
            &[
                Piece::Words(place),
                Piece::Words(b": note: in "),
                Piece::Words(function),
                Piece::Words(b"\n"),
            ],
        )
    }
}

/// The call's own place, or `place` if it has none.
fn place_or<'a>(place: &'a [u8], own: &'a [u8]) -> &'a [u8]
    ensures { result.now ≡ place_or place.now own.now }
{
    if own.is_empty() { place } else { own }
}
