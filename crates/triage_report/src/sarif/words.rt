//! The text about an access, and about a pair. A rank is 0 for a race, 1 for what is undecided, 2 for what is apart.
ghost use Rattle.std.specs.Prelude.{◌≡◌};
ghost use Rattle.rapid_text.specs.Appended.{Appended};
ghost use Rattle.triage_report.specs.lines.Accesses.{spot};
ghost use Rattle.triage_report.specs.sarif.Accesses.{access_told};
ghost use Rattle.triage_report.specs.sarif.Words.{access_words, both_words, found_words, kind_word, level_word, message_words, more_words, outcome_rank, reason_words, rule_number, rule_word, title_words};

use crate::lines::{append_apart, append_race, append_undecided, spot};
use crate::sarif::accesses::{Access, access_at};
use event_index::Indexed;
use race_triage::{Outcome, Verdict};
use rapid_text::OutOfMemory;
use report::{Piece, append_pieces};

/// The rank of an outcome.
pub(crate) fn outcome_rank(outcome: Outcome) -> u8
    ensures { result ≡ outcome_rank outcome }
{
    match outcome {
        Outcome::Race {
            how: _,
            events: _,
            threads: _,
        } => 0,
        Outcome::Undecided { tried: _ } => 1,
        Outcome::Apart => 2,
    }
}

/// The `kind` of a result: whether the rule is broken.
pub(crate) fn kind_word(rank: u8) -> &'static str
    ensures { result.now ≡ kind_word rank }
{
    match rank {
        0 => "fail",
        1 => "fail",
        _ => "pass",
    }
}

/// The `level` of a result: how serious it is.
pub(crate) fn level_word(rank: u8) -> &'static str
    ensures { result.now ≡ level_word rank }
{
    match rank {
        0 => "error",
        1 => "warning",
        _ => "none",
    }
}

/// The name of the rule.
pub(crate) fn rule_word(rank: u8) -> &'static str
    ensures { result.now ≡ rule_word rank }
{
    match rank {
        0 => "data-race",
        1 => "undecided-pair",
        _ => "apart",
    }
}

/// The index of the rule among the rules, from 0.
pub(crate) fn rule_number(rank: u8) -> u64
    ensures { result ≡ rule_number rank }
{
    match rank {
        0 => 0,
        1 => 1,
        _ => 2,
    }
}

/// Appends what the thread of an access does, and where.
pub(crate) fn append_access(out: &mut Vec<u8>, access: Access<'_>) -> Result<(), OutOfMemory>
    ensures { Appended result out.old out.new (access_words (access_told access.entry)) }
{
    append_pieces(
        out,
        &[
            Piece::Words(access.thread),
            Piece::Words(b" "),
            Piece::Words(access.verb),
            Piece::Words(b" "),
            Piece::Words(access.variable),
            Piece::Words(b" at "),
            Piece::Words(spot(access.location)),
        ],
    )
}

/// Appends the message on a verdict.
pub(crate) fn append_message(
    out: &mut Vec<u8>,
    indexed: &Indexed,
    verdict: &Verdict,
) -> Result<(), OutOfMemory>
    ensures { Appended result out.old out.new (message_words indexed.now verdict.now) }
{
    let first = access_at(indexed, verdict.first);
    let second = access_at(indexed, verdict.second);
    append_title(out, outcome_rank(verdict.outcome), second)?;
    append_both(out, first, second)?;
    append_reason(out, verdict.outcome)?;
    append_more(out, verdict)?;
    Ok(())
}

/// Appends both accesses, the later first.
pub(crate) fn append_both(
    out: &mut Vec<u8>,
    first: Access<'_>,
    second: Access<'_>,
) -> Result<(), OutOfMemory>
    ensures { Appended result out.old out.new (both_words (access_told first.entry) (access_told second.entry)) }
{
    append_access(out, second)?;
    append_pieces(out, &[Piece::Words(b", and ")])?;
    append_access(out, first)?;
    append_pieces(out, &[Piece::Words(b"; ")])?;
    Ok(())
}

/// Appends what was found, and on which variable.
pub(crate) fn append_title(
    out: &mut Vec<u8>,
    rank: u8,
    second: Access<'_>,
) -> Result<(), OutOfMemory>
    ensures { Appended result out.old out.new (title_words rank (access_told second.entry)) }
{
    append_pieces(
        out,
        &[
            Piece::Words(found_words(rank)),
            Piece::Words(b" on "),
            Piece::Words(second.variable),
            Piece::Words(b": "),
        ],
    )
}

/// The text for what was found.
fn found_words(rank: u8) -> &'static [u8]
    ensures { result.now ≡ found_words rank }
{
    match rank {
        0 => b"Data race",
        1 => b"Undecided pair",
        _ => b"No race",
    }
}

/// Appends the reason for the outcome.
fn append_reason(out: &mut Vec<u8>, outcome: Outcome) -> Result<(), OutOfMemory>
    ensures { Appended result out.old out.new (reason_words outcome) }
{
    match outcome {
        Outcome::Race {
            how: _,
            events,
            threads,
        } => append_race(out, u64::from(events), u64::from(threads)),
        Outcome::Undecided { tried } => append_undecided(out, u64::from(tried)),
        Outcome::Apart => append_apart(out),
    }
}

/// Appends the command that explains the pair.
fn append_more(out: &mut Vec<u8>, verdict: &Verdict) -> Result<(), OutOfMemory>
    ensures { Appended result out.old out.new (more_words verdict.now) }
{
    append_pieces(
        out,
        &[
            Piece::Words(b". More: racebench explain TRACE "),
            Piece::Number(u64::from(verdict.first)),
            Piece::Words(b" "),
            Piece::Number(u64::from(verdict.second)),
        ],
    )
}
