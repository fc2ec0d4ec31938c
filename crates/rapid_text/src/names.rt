//! Numbers names in the order of their first uses.
ghost use Rattle.std.specs.Prelude.{◌≡◌, ◌<◌, ◌≤◌, [], length, OnOk, IfOk, IsTrue};
ghost use Rattle.rapid_text.specs.Growth.{names_of, with_name, IsNumber};
ghost use Rattle.rapid_text.specs.Limits.{name_count_limit};

use crate::memory::OutOfMemory;
use crate::recent::{Recent, mix_of};
use indexmap::IndexSet;
use memchr::memchr;
use std::alloc::Global;
use std::hash::{BuildHasher, DefaultHasher, Hasher};

/// From this line length on, finding the names of a line is quicker than hashing the whole line.
const LONG_LINE: usize = 128;

/// The names of threads, variables or locks. A name's number is its position.
pub(crate) type Names = IndexSet<Vec<u8>, TextKeyed>;

/// The names of one kind while a text is read, with guesses at their numbers.
#[derive(Drop)]
pub(crate) struct NameTable {
    pub(crate) names: Names,
    recent: Recent,
    // Whether the name that was last looked up by its hash was new. If so, the next name is treated as new too, which
    // hashes it once. A name that is searched for and not found is hashed twice.
    was_new: bool,
}

impl NameTable {
    /// A table without names, which uses these hashers.
    pub(crate) fn new(alloc: Global, hashers: TextKeyed) -> NameTable
        ensures { names_of result.names ≡ [] }
    {
        NameTable {
            names: IndexSet::with_hasher(alloc, hashers),
            recent: Recent::new(),
            was_new: false,
        }
    }

    /// The number of the name. If the name is new, the call appends it.
    pub(crate) fn number(&mut self, alloc: Global, name: &[u8]) -> Result<u32, OutOfMemory>
        requires { length (names_of self.old.names) < name_count_limit }
        ensures names { OnOk result
            (names_of self.new.names ≡ with_name (names_of self.old.names) name.now) }
        ensures number { IfOk result (IsNumber (names_of self.new.names) name.now) }
    {
        let mix = mix_of(name);
        if let Some(guess) = self.recent.guess(mix) {
            if is_at(&self.names, guess, name) {
                return Ok(guess);
            }
        }
        self.look_up(alloc, name, mix)
    }

    // The number of the name by its hash. The call notes it as the guess for the name's mix. It is not inlined, so
    // that the guesses stay fast.
    #[inline(never)]
    fn look_up(&mut self, alloc: Global, name: &[u8], mix: u64) -> Result<u32, OutOfMemory>
        requires { length (names_of self.old.names) < name_count_limit }
        ensures names { OnOk result
            (names_of self.new.names ≡ with_name (names_of self.old.names) name.now) }
        ensures number { IfOk result (IsNumber (names_of self.new.names) name.now) }
    {
        let count = self.names.len();
        let number = if self.was_new {
            put(&mut self.names, alloc, name)?
        } else {
            number(&mut self.names, alloc, name)?
        };
        self.was_new = self.names.len() > count;
        self.recent.note(mix, number);
        Ok(number)
    }
}

/// Makes hashers for tables of names that a stranger chose. They compute SipHash-1-3; its key is a hash of the text
/// with those names. So names that were chosen ahead do not collide. Somebody who searches over many texts can still
/// find names that do. Contracts say nothing about the hashes.
#[derive(Clone, Copy)]
pub struct TextKeyed {
    // a hasher that was given only the key
    keyed: DefaultHasher,
}

impl TextKeyed {
    /// The hashers that are keyed by this text.
    pub fn of(text: &[u8]) -> TextKeyed {
        let mut whole = DefaultHasher::new();
        whole.write(text);
        TextKeyed::from_hash(whole.finish())
    }

    /// The hashers that are keyed by this trace text. If its first line is long, most locations are long. The key is
    /// then made of the part of each line before its second bar, which has all names.
    pub(crate) fn of_trace(text: &[u8]) -> TextKeyed {
        if text.is_empty() || line_len(text) < LONG_LINE {
            return TextKeyed::of(text);
        }
        let mut whole = DefaultHasher::new();
        let mut left = text;
        while !left.is_empty() {
            let (named, line) = first_extent(left);
            whole.write(&left[..named]);
            left = &left[line..];
        }
        TextKeyed::from_hash(whole.finish())
    }

    /// The hashers that are keyed by these bytes as well.
    pub(crate) fn with(&self, bytes: &[u8]) -> TextKeyed {
        let mut whole = self.keyed;
        whole.write(bytes);
        TextKeyed::from_hash(whole.finish())
    }

    // The hashers that are keyed by this hash.
    fn from_hash(hash: u64) -> TextKeyed {
        let mut keyed = DefaultHasher::new();
        keyed.write_u64(hash);
        TextKeyed { keyed }
    }
}

impl BuildHasher for TextKeyed {
    type Hasher = DefaultHasher;

    ghost build_hasher = { λ s. s.keyed };

    fn build_hasher(&self) -> DefaultHasher {
        self.keyed
    }
}

/// The number of bytes, in whole words, that hold the names of the text's first line; and the length of that line
/// with its line feed.
fn first_extent(text: &[u8]) -> (usize, usize)
    requires { 0 < length text.now }
    ensures named { result.0 ≤ length text.now }
    ensures line { (0 < result.1) × (result.1 ≤ length text.now) }
{
    let line = line_len(text);
    (whole_words(bars_len(&text[..line]), text), line)
}

/// The number of bytes before the second bar of a line; without a second bar, the length of the line.
fn bars_len(line: &[u8]) -> usize {
    let Some(first) = memchr(b'|', line) else {
        return line.len();
    };
    match memchr(b'|', &line[first + 1..]) {
        Some(second) => first + 1 + second,
        None => line.len(),
    }
}

/// The length of the text's first line, with its line feed.
fn line_len(text: &[u8]) -> usize
    requires { 0 < length text.now }
    ensures { (0 < result) × (result ≤ length text.now) }
{
    match memchr(b'\n', text) {
        Some(at) => at + 1,
        None => text.len(),
    }
}

/// `count` bytes and up to seven more, since a hasher takes whole words at once; at most the whole text.
fn whole_words(count: usize, text: &[u8]) -> usize
    ensures { result ≤ length text.now }
{
    (count.saturating_add(7) & !7).min(text.len())
}

/// Whether the name at this position is `name`.
fn is_at(names: &Names, place: u32, name: &[u8]) -> bool
    ensures { IsTrue result → IsNumber (names_of names.now) name.now place }
{
    let place = place as usize;
    if place >= names.len() {
        return false;
    }
    names[place].as_slice() == name
}

// The number of the name by its hash. If the name is new, the function appends it.
fn number(names: &mut Names, alloc: Global, name: &[u8]) -> Result<u32, OutOfMemory>
    requires { length (names_of names.old) < name_count_limit }
    ensures names { OnOk result (names_of names.new ≡ with_name (names_of names.old) name.now) }
    ensures number { IfOk result (IsNumber (names_of names.new) name.now) }
{
    if let Some(at) = names.get_index_of(name) {
        return Ok(at as u32);
    }
    put(names, alloc, name)
}

// The number of the name. If the name is new, the function appends it; it is fastest for new names.
fn put(names: &mut Names, alloc: Global, name: &[u8]) -> Result<u32, OutOfMemory>
    requires { length (names_of names.old) < name_count_limit }
    ensures names { OnOk result (names_of names.new ≡ with_name (names_of names.old) name.now) }
    ensures number { IfOk result (IsNumber (names_of names.new) name.now) }
{
    let owned = Vec::from_slice(alloc, name)?;
    let (at, _) = names.insert_full(owned)?;
    Ok(at as u32)
}
