//! The row of a race with its schedule: a picture, and the runs in words.
ghost use Rattle.std.specs.Prelude.{◌≡◌, ◌<◌, ◌++◌, ◌∷◌, [], OnOk, length};
ghost use Rattle.explain_report.specs.findings.Findings.{IsFinding, IsNeverShown};
ghost use Rattle.race_page.specs.Pages.{MayBePlain};
ghost use Rattle.race_page.specs.Told.{IsTold};
ghost use Rattle.schedule.specs.Reordering.{IsCorrectReordering};
ghost use Rattle.schedule.specs.Shows.{Shows};

use crate::commands::write_commands;
use crate::own::Tag;
use crate::page::Page;
use crate::piece::{Item, Piece};
use crate::run_words::Words;
use crate::shown::Shown;
use crate::words::lines;
use explain_report::How;
use explain_report::findings::{Finding, find};
use rapid_text::OutOfMemory;

const PICTURE: &[u8] =
    b". A column is a thread, a box is a run of its events, and time goes downwards. Of a long schedule the picture has \
the last runs, and the last of those that they waited for.";

const ALL_TOLD: &[u8] = b" All runs are listed in words below.";

const LAST_TOLD: &[u8] =
    b" The last runs are listed in words below, and the command under them prints all.";

/// Writes a row of which `told` is the beginning, with the schedule that shows its pair if there is one.
pub(crate) fn write_with_schedule(
    page: &mut Page<'_>,
    told: &Piece,
    rest: &mut Piece,
    word: &[u8],
    shown: Shown,
) -> Result<(), OutOfMemory>
    requires told { IsTold page.old.trace shown.verdict told.now }
    ensures trace { page.new.trace ≡ page.old.trace }
    ensures rows { OnOk result (page.new.rows ≡ page.old.rows ++ shown ∷ []) }
{
    let events = page.indexed().len();
    if shown.first >= events {
        write_plain(page, told, rest, word, shown)
    } else if shown.second >= events {
        write_plain(page, told, rest, word, shown)
    } else {
        write_found(page, told, rest, word, shown)
    }
}

/// Writes the same of two events of the trace.
fn write_found(
    page: &mut Page<'_>,
    told: &Piece,
    rest: &mut Piece,
    word: &[u8],
    shown: Shown,
) -> Result<(), OutOfMemory>
    requires first { shown.first < length page.old.trace.events }
    requires second { shown.second < length page.old.trace.events }
    requires told { IsTold page.old.trace shown.verdict told.now }
    ensures trace { page.new.trace ≡ page.old.trace }
    ensures rows { OnOk result (page.new.rows ≡ page.old.rows ++ shown ∷ []) }
{
    match find(page.allocator(), page.analysis(), shown.first, shown.second) {
        Ok(finding) => write_finding(page, told, rest, word, &finding, shown),
        Err(refused) => Err(refused),
    }
}

/// Writes a row without a schedule, of which `told` is the beginning.
pub(crate) fn write_plain(
    page: &mut Page<'_>,
    told: &Piece,
    rest: &mut Piece,
    word: &[u8],
    shown: Shown,
) -> Result<(), OutOfMemory>
    requires told { IsTold page.old.trace shown.verdict told.now }
    requires plain { MayBePlain page.old.trace shown (length page.old.rows) }
    ensures trace { page.new.trace ≡ page.old.trace }
    ensures rows { OnOk result (page.new.rows ≡ page.old.rows ++ shown ∷ []) }
{
    write_commands(rest, word, shown)?;
    page.row(shown, told, rest)
}

/// Writes the row with its schedule, if the finding has one.
fn write_finding(
    page: &mut Page<'_>,
    told: &Piece,
    rest: &mut Piece,
    word: &[u8],
    finding: &Finding,
    shown: Shown,
) -> Result<(), OutOfMemory>
    requires finding { IsFinding page.old.trace shown.first shown.second finding.now }
    requires never { IsNeverShown page.old.trace.events shown.first shown.second finding.now }
    requires told { IsTold page.old.trace shown.verdict told.now }
    ensures trace { page.new.trace ≡ page.old.trace }
    ensures rows { OnOk result (page.new.rows ≡ page.old.rows ++ shown ∷ []) }
{
    match finding {
        Finding::Race { how, events } => {
            write_race(page, told, rest, word, (*how, events.items()), shown)
        }
        Finding::Forced { chains: _ } => write_plain(page, told, rest, word, shown),
        Finding::Guarded { lock: _ } => write_plain(page, told, rest, word, shown),
        Finding::Contradicted { steps: _ } => write_plain(page, told, rest, word, shown),
        Finding::Undecided { events: _ } => write_plain(page, told, rest, word, shown),
    }
}

/// Writes the row with this schedule: how it was found, and its events.
fn write_race(
    page: &mut Page<'_>,
    told: &Piece,
    rest: &mut Piece,
    word: &[u8],
    schedule: (How, &[u32]),
    shown: Shown,
) -> Result<(), OutOfMemory>
    requires reordering { IsCorrectReordering page.old.trace.events schedule.1.now }
    requires shows { Shows page.old.trace.events schedule.1.now shown.first shown.second }
    requires told { IsTold page.old.trace shown.verdict told.now }
    ensures trace { page.new.trace ≡ page.old.trace }
    ensures rows { OnOk result (page.new.rows ≡ page.old.rows ++ shown ∷ []) }
{
    let (how, events) = schedule;
    let mut words = Words::new(page.allocator());
    words.fill(page, how, events, shown)?;
    write_caption(rest, events.len() as u64, words.is_all(), shown)?;
    let mut after = Piece::new(page.allocator());
    write_after(&mut after, words.text(), word, shown)?;
    page.drawn_row(events, shown, told, rest, &after)
}

/// Writes what comes before the picture, with a caption that says what the picture shows.
fn write_caption(
    piece: &mut Piece,
    events: u64,
    all: bool,
    shown: Shown,
) -> Result<(), OutOfMemory> {
    piece.write(&[
        Item::Element(Tag::PartHeading, b"A schedule that shows them"),
        Item::Begin(Tag::Figure),
        Item::Begin(Tag::Caption),
        Item::Text(b"After "),
        Item::Count(events, b"event"),
        Item::Text(b" both are next: "),
        Item::Number(u64::from(shown.first)),
        Item::Text(b" and "),
        Item::Number(u64::from(shown.second)),
        Item::Text(PICTURE),
        Item::Text(if all { ALL_TOLD } else { LAST_TOLD }),
        Item::End(Tag::Caption),
        Item::Begin(Tag::Wide),
    ])
}

/// Writes what comes after the picture: the runs in words, and the commands.
fn write_after(
    piece: &mut Piece,
    words: &[u8],
    word: &[u8],
    shown: Shown,
) -> Result<(), OutOfMemory> {
    piece.write(&[
        Item::End(Tag::Wide),
        Item::End(Tag::Figure),
        Item::Element(Tag::PartHeading, b"Its runs in words"),
    ])?;
    lines(piece, words)?;
    write_commands(piece, word, shown)
}
