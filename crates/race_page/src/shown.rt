//! The rows of a page.
ghost use Rattle.std.specs.Prelude.{◌≡◌};
ghost use Rattle.race_page.specs.Own.{row_begin, seen_text};

use race_triage::Verdict;

/// The sort of a row.
#[derive(Clone, Copy, PartialEq, Eq, Debug)]
pub enum Sort {
    /// A race.
    Race,
    /// A pair of locations that is undecided.
    Undecided,
    /// A pair of locations that is apart.
    Apart,
}

/// The word beside a race: what was found when it was followed on the real program. That was seen in a run, and is not
/// proved.
#[derive(Clone, Copy, PartialEq, Eq, Debug)]
pub enum Seen {
    /// No word: there is no file of followed races, or the row is no race.
    Unasked,
    /// `not followed`: the file has no line on the race.
    NotFollowed,
    /// `departed`: the run went another way than the schedule.
    Departed,
    /// `other memory`: both threads were at their accesses, but on different memory.
    OtherMemory,
    /// `order matters`: it matters which access comes first.
    Matters,
    /// `same in both orders`: the program ended the same with either access first.
    Same,
    /// `order not known`: it is not known whether it matters.
    Unknown,
}

/// A row of a page.
#[derive(Clone, Copy, PartialEq, Eq, Debug)]
pub struct Shown {
    /// The sort of the row.
    pub sort: Sort,
    /// The earlier event, by its number in the trace.
    pub first: u32,
    /// The later event, by its number in the trace.
    pub second: u32,
    /// The word beside the row.
    pub seen: Seen,
    /// The verdict of which the row says what was found.
    pub verdict: Verdict,
}

/// The beginning of a row of the sort, up to its numbers.
pub(crate) fn row_begin_of(sort: Sort) -> &'static [u8]
    ensures { result.now ≡ row_begin sort }
{
    match sort {
        Sort::Race => b"<details id=\"race-",
        Sort::Undecided => b"<details id=\"undecided-",
        Sort::Apart => b"<details id=\"apart-",
    }
}

/// The word beside a row, with its markup.
pub(crate) fn seen_of(seen: Seen) -> &'static [u8]
    ensures { result.now ≡ seen_text seen }
{
    match seen {
        Seen::Unasked => b"",
        Seen::NotFollowed => b"<span class=\"seen\">not followed</span> ",
        Seen::Departed => b"<span class=\"seen\">departed</span> ",
        Seen::OtherMemory => b"<span class=\"seen\">other memory</span> ",
        Seen::Matters => b"<span class=\"seen matters\">order matters</span> ",
        Seen::Same => b"<span class=\"seen\">same in both orders</span> ",
        Seen::Unknown => b"<span class=\"seen\">order not known</span> ",
    }
}
