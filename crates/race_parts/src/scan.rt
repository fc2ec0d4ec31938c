//! Reads a row in the form that `triage` prints, without making a JSON value of it. `serde_json` reads all other
//! forms.
ghost use Rattle.std.specs.Prelude.{◌≡◌, ◌<◌, ◌+◌, ◌^◌, ◌++◌, ◌∷◌, [], decimal, IfSome, Some, length, slice_index, true};
ghost use Rattle.json.specs.Print.{quoted};
ghost use Rattle.serde_json.specs.Data.{Data};
ghost use Rattle.serde_json.specs.Read.{read};
ghost use Rattle.serde_json.specs.Written.{comma_if};
ghost use Rattle.race_parts.specs.Facts.{IsKnown};
ghost use Rattle.race_parts.specs.Lines.{Tells};
ghost use Rattle.race_parts.specs.Printed.{AreAccessesOn, AreNamesOn, HasOutcome, IsAccessEndOn, IsAccessOn};

use crate::quotes::plain_end;
use crate::rows::is_how;

/// The most locks of one access that this module reads.
const MAX_HOLDS: u8 = 16;

/// The facts about a row that its sort key needs.
#[derive(Clone, Copy)]
pub struct Known<'a> {
    /// The location of the earlier access.
    pub one: &'a [u8],
    /// The location of the later access.
    pub other: &'a [u8],
    /// 0 for a race, 1 for an undecided row, 2 for an apart row.
    pub rank: u8,
    /// How many events the schedule of a race has; 0 for other rows.
    pub size: u64,
    /// The event number of the later access.
    pub later: u64,
    /// The event number of the earlier access.
    pub earlier: u64,
}

/// The facts about a row. `one_left` and `other_left` are the distances in bytes from the two locations to the end of
/// the line.
#[derive(Clone, Copy)]
pub(crate) struct Told<'a> {
    pub(crate) known: Known<'a>,
    pub(crate) one_left: usize,
    pub(crate) other_left: usize,
}

/// The event and the location of an access. `left` is the number of bytes from the location to the end of the text.
#[derive(Clone, Copy)]
struct Access<'a> {
    event: u64,
    location: &'a [u8],
    left: usize,
}

/// The text after `words`, if the text begins with it. `words` is constant, so each call compiles to a compare or two.
#[inline(always)]
fn strip<'a>(text: &'a [u8], words: &[u8]) -> Option<&'a [u8]>
    ensures { IfSome result (λ behind. text.now ≡ words.now ++ behind.now) }
{
    text.strip_prefix(words)
}

/// A number below this can take one more digit and still fit in 64 bits.
const TENTH: u64 = 1_000_000_000_000_000_000;

/// The digit at this index, if there is one.
#[inline(always)]
fn digit_at(text: &[u8], at: usize) -> Option<u64>
    ensures inside { IfSome result (λ digit. at < length text.now) }
    ensures digit { IfSome result (λ digit. (digit < 10) × (slice_index text.now at ≡ 48 + digit)) }
{
    if at >= text.len() {
        return None;
    }
    let byte = text[at];
    if byte < 48 || byte > 57 {
        return None;
    }
    Some((byte - 48) as u64)
}

/// The digit at this index, if `number`, which was read before it, can take one more. It cannot if it is 0, or is
/// 10^18 or more.
#[inline(always)]
fn next_digit(text: &[u8], at: usize, number: u64) -> Option<u64>
    ensures number { IfSome result (λ digit. (0 < number) × (number < 1000000000000000000)) }
    ensures inside { IfSome result (λ digit. at < length text.now) }
    ensures digit { IfSome result (λ digit. (digit < 10) × (slice_index text.now at ≡ 48 + digit)) }
{
    if number == 0 || number >= TENTH {
        return None;
    }
    digit_at(text, at)
}

/// The decimal number at the beginning of the text, and the text after it. Reads at most 19 digits.
#[inline(always)]
fn number_at(text: &[u8]) -> Option<(u64, &[u8])>
    ensures digits { IfSome result (λ read. text.now ≡ decimal read.0 ++ read.1.now) }
    ensures fits { IfSome result (λ read. read.0 < 2 ^ 64) }
{
    let mut number = digit_at(text, 0)?;
    let mut at = 1;
    'digits: while let Some(digit) = next_digit(text, at, number) {
        number = number * 10 + digit;
        at += 1;
    }
    let (_, behind) = text.split_at(at);
    Some((number, behind))
}

/// The quoted text at the beginning, and the text after it. Returns None if it has an escape.
#[inline(always)]
fn text_at(text: &[u8]) -> Option<(&[u8], &[u8])>
    ensures { IfSome result (λ read. text.now ≡ quoted read.0.now ++ read.1.now) }
{
    let inside = strip(text, b"\"")?;
    let (plain, rest) = inside.split_at(plain_end(inside));
    Some((plain, strip(rest, b"\"")?))
}

/// The text after a comma. If `is_later` is false, there is no comma, and the whole text is returned.
#[inline(always)]
fn comma_at(text: &[u8], is_later: bool) -> Option<&[u8]>
    ensures { IfSome result (λ behind. text.now ≡ comma_if is_later ++ behind.now) }
{
    if !is_later {
        return Some(text);
    }
    strip(text, b",")
}

/// Whether the text is exactly the end of an object.
fn is_end(text: &[u8]) -> bool
    ensures { result ≡ true → text.now ≡ 125 ∷ [] }
{
    text == b"}".as_slice()
}

/// The text after the rest of a list of at most `most` texts. Returns None if the list has more.
fn holds_at(text: &[u8], is_later: bool, most: u8) -> Option<&[u8]>
    ensures { IfSome result (λ behind. AreNamesOn is_later text.now behind.now) }
{
    if let Some(behind) = strip(text, b"]") {
        return Some(behind);
    }
    if most == 0 {
        return None;
    }
    let (_, behind) = text_at(comma_at(text, is_later)?)?;
    holds_at(behind, true, most - 1)
}

/// The number after these words, and the text after it.
#[inline(always)]
fn field_at<'a>(text: &'a [u8], words: &[u8]) -> Option<(u64, &'a [u8])>
    ensures digits { IfSome result (λ read. text.now ≡ words.now ++ (decimal read.0 ++ read.1.now)) }
    ensures fits { IfSome result (λ read. read.0 < 2 ^ 64) }
{
    number_at(strip(text, words)?)
}

/// The quoted text after these words, and the text after it.
#[inline(always)]
fn named_at<'a>(text: &'a [u8], words: &[u8]) -> Option<(&'a [u8], &'a [u8])>
    ensures { IfSome result (λ read. text.now ≡ words.now ++ (quoted read.0.now ++ read.1.now)) }
{
    text_at(strip(text, words)?)
}

/// The text after the last three members of an access.
fn names_at(text: &[u8]) -> Option<&[u8]>
    ensures { IfSome result (λ behind. IsAccessEndOn text.now behind.now) }
{
    let (_, text) = named_at(text, b",\"operation\":")?;
    let (_, text) = named_at(text, b",\"thread\":")?;
    let (_, text) = named_at(text, b",\"variable\":")?;
    strip(text, b"}")
}

/// The access at the beginning, and the text after it.
fn access_at(text: &[u8]) -> Option<(Access<'_>, &[u8])>
    ensures { IfSome result (λ read. IsAccessOn text.now read.0 read.1.now) }
{
    let (event, text) = field_at(text, b"{\"event\":")?;
    let text = holds_at(strip(text, b",\"holds\":[")?, false, MAX_HOLDS)?;
    let (location, text) = named_at(text, b",\"location\":")?;
    let left = text.len().saturating_add(location.len()).saturating_add(1);
    let access = Access {
        event,
        location,
        left,
    };
    Some((access, names_at(text)?))
}

/// The two accesses at the beginning of a row, and the text after them.
fn accesses_at(line: &[u8]) -> Option<(Access<'_>, Access<'_>, &[u8])>
    ensures { IfSome result (λ read. AreAccessesOn line.now read.0 read.1 read.2.now) }
{
    let (one, text) = access_at(strip(line, b"{\"accesses\":[")?)?;
    let (other, text) = access_at(strip(text, b",")?)?;
    Some((one, other, strip(text, b"]")?))
}

/// How many events the schedule of a race has. Returns None if the rest of the row is not a race's.
fn race_at(text: &[u8]) -> Option<u64>
    ensures { IfSome result (HasOutcome text.now 0) }
{
    let (events, text) = field_at(text, b",\"events\":")?;
    let (how, text) = named_at(text, b",\"how\":")?;
    if !is_how(how) {
        return None;
    }
    let text = strip(text, b",\"kind\":\"race\"")?;
    let (_, text) = field_at(text, b",\"pairs\":")?;
    let (_, text) = field_at(text, b",\"threads\":")?;
    let (_, text) = field_at(text, b",\"variables\":")?;
    if is_end(text) { Some(events) } else { None }
}

/// 0. Returns None if the rest of the row is not an undecided row's.
fn undecided_at(text: &[u8]) -> Option<u64>
    ensures { IfSome result (HasOutcome text.now 1) }
{
    let text = strip(text, b",\"kind\":\"undecided\"")?;
    let (_, text) = field_at(text, b",\"pairs\":")?;
    let (_, text) = field_at(text, b",\"tried\":")?;
    let (_, text) = field_at(text, b",\"variables\":")?;
    if is_end(text) { Some(0) } else { None }
}

/// 0. Returns None if the rest of the row is not an apart row's.
fn apart_at(text: &[u8]) -> Option<u64>
    ensures { IfSome result (HasOutcome text.now 2) }
{
    let text = strip(text, b",\"kind\":\"apart\"")?;
    let (_, text) = field_at(text, b",\"pairs\":")?;
    if is_end(text) { Some(0) } else { None }
}

/// The rank and the schedule size, read from the rest of the row.
fn outcome_at(text: &[u8]) -> Option<(u8, u64)>
    ensures { IfSome result (λ read. HasOutcome text.now read.0 read.1) }
{
    if let Some(events) = race_at(text) {
        return Some((0, events));
    }
    if let Some(size) = undecided_at(text) {
        return Some((1, size));
    }
    Some((2, apart_at(text)?))
}

/// The facts about a row in the form that `triage` prints. Returns None for any other line.
pub(crate) fn told_in(line: &[u8]) -> Option<Told<'_>>
    ensures { IfSome result (λ told. (d : Data) × Tells line.now d × IsKnown told.known d) }
{
    match std::str::from_utf8(line) {
        Ok(_) => known_in(line),
        Err(_) => None,
    }
}

/// The same for a line that is known to be UTF-8.
fn known_in(line: &[u8]) -> Option<Told<'_>>
    ensures { IfSome result (λ told. (d : Data) × (read line.now ≡ Some d) × IsKnown told.known d) }
{
    let (one, other, text) = accesses_at(line)?;
    let (rank, size) = outcome_at(text)?;
    let known = Known {
        one: one.location,
        other: other.location,
        rank,
        size,
        later: other.event,
        earlier: one.event,
    };
    Some(Told {
        known,
        one_left: one.left,
        other_left: other.left,
    })
}
