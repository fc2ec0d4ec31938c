//! The rows of a page, section by section.
ghost use Rattle.std.specs.Prelude.{◌≡◌, ◌++◌, ◌∷◌, [], OnOk};
ghost use Rattle.race_page.specs.Items.{Written};
ghost use Rattle.race_page.specs.Pages.{AddedRow, AddedRows};
ghost use Rattle.race_page.specs.Rows.{row_about, rows_about};
ghost use Rattle.race_page.specs.Told.{IsSummary, IsTold, events_text, facts_text, how_text, opening_text, outcome_text, race_text, undecided_words};

use crate::about::About;
use crate::accesses::write_accesses;
use crate::followed::write_followed;
use crate::own::Tag;
use crate::page::Page;
use crate::piece::{Item, Piece};
use crate::reasons::write_reason;
use crate::schedules::{write_plain, write_with_schedule};
use crate::selecting::shown_of;
use crate::shown::{Shown, Sort};
use crate::titles::write_title;
use explain_report::How;
use must_order::Analysis;
use race_triage::{Outcome, Verdict};
use rapid_text::OutOfMemory;

/// The most rows of each sort.
pub const MOST_ROWS: usize = 2_000;

/// The most pictures on a page. The first races have them.
pub const MOST_PICTURES: usize = 200;

/// Writes a row for each of the first `MOST_ROWS` verdicts. The first `MOST_PICTURES` rows get a picture if they are
/// races.
pub(crate) fn write_rows(
    page: &mut Page<'_>,
    piece: &mut Piece,
    about: About<'_>,
    kept: &[Verdict],
) -> Result<(), OutOfMemory>
    ensures trace { page.new.trace ≡ page.old.trace }
    ensures rows { AddedRows result page.old page.new (rows_about about.entry kept.now) }
{
    for at in 0..MOST_ROWS.min(kept.len()) {
        write_row(page, piece, about, kept[at])?;
    }
    Ok(())
}

/// Writes the row of a verdict.
fn write_row(
    page: &mut Page<'_>,
    piece: &mut Piece,
    about: About<'_>,
    verdict: Verdict,
) -> Result<(), OutOfMemory>
    ensures trace { page.new.trace ≡ page.old.trace }
    ensures rows { AddedRow result page.old page.new (row_about about.entry verdict) }
{
    let shown = shown_of(about, page.indexed(), verdict);
    write_told(piece, page.analysis(), verdict)?;
    let mut rest = Piece::new(page.allocator());
    write_rest(page, piece, &mut rest, about, shown)
}

/// Writes the row of which `told` is the beginning. `rest` is empty.
fn write_rest(
    page: &mut Page<'_>,
    told: &Piece,
    rest: &mut Piece,
    about: About<'_>,
    shown: Shown,
) -> Result<(), OutOfMemory>
    requires told { IsTold page.old.trace shown.verdict told.now }
    ensures trace { page.new.trace ≡ page.old.trace }
    ensures rows { OnOk result (page.new.rows ≡ page.old.rows ++ shown ∷ []) }
{
    write_followed(rest, page.indexed(), about, shown)?;
    match shown.sort {
        Sort::Race => write_race_row(page, told, rest, about.name, shown),
        Sort::Undecided => write_plain(page, told, rest, about.name, shown),
        Sort::Apart => write_plain(page, told, rest, about.name, shown),
    }
}

/// Writes the row of a race, with a picture if fewer than `MOST_PICTURES` rows come before it.
fn write_race_row(
    page: &mut Page<'_>,
    told: &Piece,
    rest: &mut Piece,
    word: &[u8],
    shown: Shown,
) -> Result<(), OutOfMemory>
    requires told { IsTold page.old.trace shown.verdict told.now }
    ensures trace { page.new.trace ≡ page.old.trace }
    ensures rows { OnOk result (page.new.rows ≡ page.old.rows ++ shown ∷ []) }
{
    if page.count() < MOST_PICTURES {
        write_with_schedule(page, told, rest, word, shown)
    } else {
        write_plain(page, told, rest, word, shown)
    }
}

/// Writes what a row says of its verdict: the summary that a reader sees of a closed row, and the two accesses.
fn write_told(
    piece: &mut Piece,
    analysis: &Analysis<'_>,
    verdict: Verdict,
) -> Result<(), OutOfMemory>
    ensures { OnOk result (IsTold analysis.now verdict piece.new) }
{
    let mut title = Piece::new(piece.allocator());
    write_title(&mut title, analysis.indexed(), verdict)?;
    write_titled(piece, &title, analysis, verdict)
}

/// Writes the same, with this title.
fn write_titled(
    piece: &mut Piece,
    title: &Piece,
    analysis: &Analysis<'_>,
    verdict: Verdict,
) -> Result<(), OutOfMemory>
    ensures { OnOk result (IsTold analysis.now verdict piece.new) }
{
    write_summary(piece, title, analysis, verdict)?;
    write_accesses(piece, analysis, verdict.first, verdict.second)?;
    Ok(())
}

/// Writes what a reader sees of a closed row, after the word beside it.
fn write_summary(
    piece: &mut Piece,
    title: &Piece,
    analysis: &Analysis<'_>,
    verdict: Verdict,
) -> Result<(), OutOfMemory>
    ensures { OnOk result (IsSummary analysis.now verdict piece.new) }
{
    begin_summary(piece, title, verdict)?;
    write_reason(piece, analysis, verdict)?;
    piece.write(&[Item::End(Tag::Summary)])?;
    Ok(())
}

/// Clears the piece, and writes the title and the facts.
fn begin_summary(piece: &mut Piece, title: &Piece, verdict: Verdict) -> Result<(), OutOfMemory>
    ensures { OnOk result (piece.new ≡ opening_text title.now verdict) }
{
    piece.clear();
    piece.write(&[Item::Begin(Tag::RowHeading)])?;
    piece.append(title)?;
    write_facts(piece, verdict)
}

/// Ends the heading, and writes a short summary of what was found.
fn write_facts(piece: &mut Piece, verdict: Verdict) -> Result<(), OutOfMemory>
    ensures { Written result piece.old piece.new (facts_text verdict) }
{
    write_events(piece, u64::from(verdict.first), u64::from(verdict.second))?;
    write_outcome(piece, verdict)?;
    piece.write(&[Item::End(Tag::Facts)])
}

/// Ends the heading, and writes the two events.
fn write_events(piece: &mut Piece, first: u64, second: u64) -> Result<(), OutOfMemory>
    ensures { Written result piece.old piece.new (events_text first second) }
{
    piece.write(&[
        Item::End(Tag::RowHeading),
        Item::Begin(Tag::Facts),
        Item::Text(b"Events "),
        Item::Number(first),
        Item::Text(b" and "),
        Item::Number(second),
        Item::Text(b": "),
    ])
}

/// Writes how many pairs of events there are, and the outcome.
fn write_outcome(piece: &mut Piece, verdict: Verdict) -> Result<(), OutOfMemory>
    ensures { Written result piece.old piece.new (outcome_text verdict) }
{
    match verdict.outcome {
        Outcome::Race {
            how,
            events,
            threads,
        } => write_race(piece, verdict, how, events, threads),
        Outcome::Undecided { tried } => write_undecided(
            piece,
            verdict.pairs(),
            u64::from(verdict.variables),
            u64::from(tried),
        ),
        Outcome::Apart => piece.write(&[
            Item::Text(b"apart, "),
            Item::Count(verdict.pairs(), b"pair"),
        ]),
    }
}

/// Writes how a race was found, its pairs and variables, and the size of its schedule.
fn write_race(
    piece: &mut Piece,
    verdict: Verdict,
    how: How,
    events: u32,
    threads: u32,
) -> Result<(), OutOfMemory>
    ensures { Written result piece.old piece.new (race_text how events threads verdict) }
{
    piece.write(&[
        Item::Text(how_words(how)),
        Item::Count(verdict.pairs(), b"pair"),
        Item::Text(b" of "),
        Item::Count(u64::from(verdict.variables), b"variable"),
        Item::Text(b", a schedule of "),
        Item::Count(u64::from(events), b"event"),
        Item::Text(b" of "),
        Item::Count(u64::from(threads), b"thread"),
    ])
}

/// Writes the pairs and variables of an undecided verdict, and how many pairs were tried.
fn write_undecided(
    piece: &mut Piece,
    pairs: u64,
    variables: u64,
    tried: u64,
) -> Result<(), OutOfMemory>
    ensures { Written result piece.old piece.new (undecided_words pairs variables tried) }
{
    piece.write(&[
        Item::Text(b"undecided, "),
        Item::Count(pairs, b"pair"),
        Item::Text(b" of "),
        Item::Count(variables, b"variable"),
        Item::Text(b", "),
        Item::Number(tried),
        Item::Text(b" tried"),
    ])
}

/// How the schedule of a race was found.
fn how_words(how: How) -> &'static [u8]
    ensures { result.now ≡ how_text how }
{
    match how {
        How::Candidate => b"candidate, ",
        How::Beyond => b"beyond, ",
        How::Turned => b"turned, ",
    }
}
