//! The text that was read, which only clauses see.
ghost use Rattle.std.specs.Prelude.{◌≡◌, ◌++◌};

use boxcar::tag::{Names, Tag};

// What was read, and a piece after it.
#[derive(Drop)]
struct Grown<'a> {
    read: Tag,
    more: &'a [u8],
}

struct Both;

impl<'a> Names<Grown<'a>> for Both {
    ghost numbers = { λ grown. grown.read.numbers ++ grown.more.now };
}

struct Same;

impl Names<Tag> for Same {
    ghost numbers = { λ tag. tag.numbers };
}

/// What was read, with this piece after it.
pub(crate) fn with_piece(read: &Tag, more: &[u8]) -> Tag
    ensures { result.numbers ≡ read.now.numbers ++ more.now }
{
    let read = Tag::of::<Tag, Same>(read);
    Tag::of::<Grown<'_>, Both>(&Grown { read, more })
}
