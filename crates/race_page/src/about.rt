//! What a page is about, besides the verdicts.

use followed_races::Followed;

/// The trace's name, and what was found when its races were followed on the real program.
#[derive(Clone, Copy)]
pub struct About<'a> {
    /// The name or path of the trace's file. The commands on the page have it as one word of a shell.
    pub name: &'a [u8],
    /// The entries of a file of followed races, if there is one (docs/FORMATS.md, "Followed races").
    pub followed: Option<&'a [Followed]>,
}
