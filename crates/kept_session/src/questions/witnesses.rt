//! Answers with a schedule that shows a pair of events.
ghost use Rattle.std.specs.Prelude.{◌≡◌, ◌<◌, length, IfOk, OnOk};
ghost use Rattle.explain_report.specs.findings.Findings.{IsFinding, IsNeverShown};
ghost use Rattle.kept_session.specs.QuestionWitnesses.{AppendsFound, found_line, how_words, IsWitnessLine};
ghost use Rattle.rapid_text.specs.Appended.{Appended, AppendedOne};

use event_index::Indexed;
use explain_report::How;
use explain_report::findings::{Finding, find, pair_of};
use must_order::Analysis;
use rapid_text::OutOfMemory;
use report::{Piece, append_pieces};

/// The text for how a race was found.
fn how_words(how: How) -> &'static [u8]
    ensures { result.now ≡ how_words how }
{
    match how {
        How::Candidate => b"witness candidate",
        How::Beyond => b"witness beyond",
        How::Turned => b"witness turned",
    }
}

/// Appends what was found for a pair.
fn append_found(out: &mut Vec<u8>, finding: &Finding) -> Result<(), OutOfMemory>
    ensures { Appended result out.old out.new (found_line finding.now) }
{
    match finding {
        Finding::Race { how, events } => append_pieces(
            out,
            &[
                Piece::Words(how_words(*how)),
                Piece::Numbers(events.items()),
                Piece::Words(b"\n"),
            ],
        ),
        Finding::Forced { chains: _ } => {
            append_pieces(out, &[Piece::Words(b"refused 99 not shown: forced\n")])
        }
        Finding::Guarded { lock: _ } => {
            append_pieces(out, &[Piece::Words(b"refused 99 not shown: guarded\n")])
        }
        Finding::Contradicted { steps: _ } => {
            append_pieces(out, &[Piece::Words(b"refused 99 not shown: open\n")])
        }
        Finding::Undecided { events: _ } => {
            append_pieces(out, &[Piece::Words(b"refused 99 not shown: open\n")])
        }
    }
}

/// Finds a schedule for a pair, or the reason why none was found.
fn found_of(
    out: &Vec<u8>,
    indexed: &Indexed,
    first: u32,
    second: u32,
) -> Result<Finding, OutOfMemory>
    requires first { first < length indexed.now.events }
    requires second { second < length indexed.now.events }
    ensures finding { IfOk result (IsFinding indexed.now first second) }
    ensures never { IfOk result (IsNeverShown indexed.now.events first second) }
{
    match Analysis::new(*out.allocator(), indexed) {
        Ok(analysis) => {
            let found = find(*out.allocator(), &analysis, first, second);
            drop(analysis);
            found
        }
        Err(refused) => Err(refused),
    }
}

/// Appends the answer about two events that conflict.
fn append_pair(
    out: &mut Vec<u8>,
    indexed: &Indexed,
    first: u32,
    second: u32,
) -> Result<(), OutOfMemory>
    requires first { first < length indexed.now.events }
    requires second { second < length indexed.now.events }
    ensures { OnOk result (AppendsFound indexed.now first second out.old.items out.new.items) }
{
    match found_of(out, indexed, first, second) {
        Ok(finding) => append_found(out, &finding),
        Err(refused) => Err(refused),
    }
}

/// Appends the answer about two events, in either order.
pub(crate) fn append_witness(
    out: &mut Vec<u8>,
    indexed: &Indexed,
    one: u32,
    other: u32,
) -> Result<(), OutOfMemory>
    ensures { AppendedOne result out.old out.new (IsWitnessLine indexed.now one other) }
{
    match pair_of(indexed, one, other) {
        Some((first, second)) => append_pair(out, indexed, first, second),
        None => append_pieces(out, &[Piece::Words(b"refused 98 no such pair\n")]),
    }
}
