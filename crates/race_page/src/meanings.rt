//! What the terms on a page mean.
use crate::own::Tag;
use crate::piece::{Item, Piece};
use rapid_text::OutOfMemory;

const RACE: &[u8] =
    b"A place is the location of an access in the source. Two places are a race if a schedule brings an access at each of them \
next in its thread. A schedule is an order of events of this trace that the program could have taken too.";

const NEXT: &[u8] =
    b"An access is next in its thread if all that comes before it there has happened, and it has not. If two accesses of one \
variable are both next and one of them writes, nothing keeps the two threads from making them at once. That is a data race.";

const APART: &[u8] =
    b"Two places are apart if no schedule of this trace shows a race of them, and undecided if the search found neither. \
A read keeps the write that it saw, so places that are apart here may race in another run.";

const FOLLOWED: &[u8] =
    b"Beside a race: order matters, if the program ended or printed otherwise with the other access first; same in both orders; \
order not known, if its output varies by itself; other memory, if the two accesses were on different memory; departed, if the run went \
another way than the schedule; not followed, if the file has no line on it. This is what runs showed, and no proof rests on it.";

/// Writes the meaning of the terms. If there are followed races, writes also what the text beside a race means.
pub(crate) fn write_meanings(piece: &mut Piece, are_followed: bool) -> Result<(), OutOfMemory> {
    piece.write(&[
        Item::Begin(Tag::Section),
        Item::Element(Tag::SectionHeading, b"What the words mean"),
        Item::Element(Tag::Paragraph, RACE),
        Item::Element(Tag::Paragraph, NEXT),
        Item::Element(Tag::Paragraph, APART),
    ])?;
    if are_followed {
        piece.write(&[Item::Element(Tag::Paragraph, FOLLOWED)])?;
    }
    piece.write(&[Item::End(Tag::Section)])
}
