//! Prints pairs of events that are candidates.
ghost use Rattle.std.specs.Prelude.{◌≡◌, ◌<◌, length, All, OnErr};
ghost use Rattle.event_index.specs.Relations.{IsConflicting};
ghost use Rattle.rapid_text.specs.Appended.{Appended};
ghost use Rattle.report.specs.Candidates.{candidates_text, candidate_line, candidate_lines, variable_words};

use crate::pieces::{Piece, append_count, append_pieces};
use event_index::{Indexed, Pairs};
use rapid_text::{Op, OutOfMemory};

/// Appends the number of pairs, and a line for each with its two events and the name of their variable. If memory
/// runs out, `out` stays as it was.
pub fn candidates(indexed: &Indexed, pairs: &Pairs, out: &mut Vec<u8>) -> Result<(), OutOfMemory>
    requires { All (λ pair. IsConflicting indexed.now.events pair.0 pair.1) pairs.now }
    ensures ok { Appended result out.old out.new (candidates_text indexed.now pairs.now) }
    ensures err { OnErr result (out.new.items ≡ out.old.items) }
{
    let mut text = Vec::new(*out.allocator());
    append_candidates(&mut text, indexed, pairs.items())?;
    out.extend_from_slice(&text)?;
    Ok(())
}

/// Appends the number of pairs and their lines.
fn append_candidates(
    out: &mut Vec<u8>,
    indexed: &Indexed,
    pairs: &[(u32, u32)],
) -> Result<(), OutOfMemory>
    requires { All (λ pair. IsConflicting indexed.now.events pair.0 pair.1) pairs.now }
    ensures { Appended result out.old out.new (candidates_text indexed.now pairs.now) }
{
    append_count(out, b"candidates", pairs.len() as u64)?;
    for pair in pairs {
        let (first, second) = *pair;
        append_candidate(out, indexed, first, second)?;
    }
    Ok(())
}

/// Appends the line of a pair.
fn append_candidate(
    out: &mut Vec<u8>,
    indexed: &Indexed,
    first: u32,
    second: u32,
) -> Result<(), OutOfMemory>
    requires { first < length indexed.now.events }
    ensures { Appended result out.old out.new (candidate_line indexed.now (first, second)) }
{
    append_pieces(
        out,
        &[
            Piece::Words(b"candidate "),
            Piece::Number(u64::from(first)),
            Piece::Words(b" "),
            Piece::Number(u64::from(second)),
            Piece::Words(b" "),
            Piece::Words(variable_of(indexed, first)),
            Piece::Words(b"\n"),
        ],
    )?;
    Ok(())
}

/// The name of the variable that the event accesses; empty if the event is not an access.
fn variable_of(indexed: &Indexed, event: u32) -> &[u8]
    requires { event < length indexed.now.events }
    ensures { result.now ≡ variable_words indexed.now event }
{
    match indexed.event(event).op {
        Op::Read(variable) | Op::Write(variable) => indexed.variable_name(variable),
        Op::Acquire(_) | Op::Release(_) | Op::Fork(_) | Op::Join(_) => &[],
    }
}
