//! Reads calls that own no memory from their lines, without making them: it borrows their names.
ghost use Rattle.std.specs.Prelude.{◌≡◌, ◌≤◌, true, length, IfSome, Ok, Some};
ghost use Rattle.dependence.specs.Limits.{client_limit};
ghost use Rattle.moves.specs.Names.{is_name};
ghost use Rattle.script_language.specs.Scripts.{one_name_reading, name_and_number_reading, call_reading, words_reading, script_line_reading};
ghost use Rattle.script_language.specs.Simple.{AsksCall, AsksLine, AsksWords, IsSimple, ReadsAs};

use crate::calls::{MAX_SCRIPT_LINE, read_client, read_number};
use crate::kept::Form;
use crate::lines::Words;
use crate::verb::{CommandVerb, Verb, verb_with};
use moves::is_name;
use rapid_text::trim;

/// The most bytes of a name.
const MAX_NAME: usize = 64;

/// A call that owns no memory, with its names borrowed from its line.
#[derive(Clone, Copy)]
pub(crate) struct Simple<'a> {
    /// What kind of call it is.
    pub(crate) form: Form,
    /// The number among its arguments.
    pub(crate) number: u32,
    /// Its name; empty if it has none.
    pub(crate) name: &'a [u8],
    /// The second name of a branch.
    pub(crate) to: &'a [u8],
}

/// What a script line has.
#[derive(Drop)]
pub(crate) enum Found<'a> {
    /// A call that owns no memory.
    Simple(Simple<'a>),
    /// A batch, not read yet.
    Batch(Words<'a>),
}

/// A name alone.
fn one_name<'a>(words: &mut Words<'a>) -> Option<&'a [u8]>
    ensures read { IfSome result (λ name. one_name_reading words.old ≡ Ok name.now) }
    ensures name { IfSome result (λ name. is_name name.now ≡ true) }
    ensures short { IfSome result (λ name. length name.now ≤ 64) }
{
    let name = words.next()?;
    if words.next().is_some() || name.len() > MAX_NAME || !is_name(name) {
        return None;
    }
    Some(name)
}

/// A name and a number.
fn name_and_number<'a>(words: &mut Words<'a>) -> Option<(&'a [u8], u32)>
    ensures read { IfSome result (λ pair. name_and_number_reading words.old ≡ Ok (pair.0.now, pair.1)) }
    ensures name { IfSome result (λ pair. is_name pair.0.now ≡ true) }
    ensures short { IfSome result (λ pair. length pair.0.now ≤ 64) }
{
    let name = words.next()?;
    let number = words.next()?;
    if words.next().is_some() || name.len() > MAX_NAME || !is_name(name) {
        return None;
    }
    match read_number(number) {
        Ok(number) => Some((name, number)),
        Err(_) => None,
    }
}

/// A call with one name.
fn with_name<'a>(form: Form, name: &'a [u8]) -> Simple<'a>
    ensures form { result.form ≡ form }
    ensures name { result.name.now ≡ name.now }
    ensures to { length result.to.now ≡ 0 }
{
    Simple {
        form,
        number: 0,
        name,
        to: &[],
    }
}

/// A call with one name and a number.
fn with_number<'a>(form: Form, pair: (&'a [u8], u32)) -> Simple<'a>
    ensures form { result.form ≡ form }
    ensures name { result.name.now ≡ pair.entry.0.now }
    ensures number { result.number ≡ pair.entry.1 }
    ensures to { length result.to.now ≡ 0 }
{
    Simple {
        form,
        number: pair.1,
        name: pair.0,
        to: &[],
    }
}

/// The arguments of `branch`.
fn branch<'a>(words: &mut Words<'a>) -> Option<Simple<'a>>
    ensures read { IfSome result (ReadsAs (Some (Verb.Do CommandVerb.Branch)) words.old) }
    ensures simple { IfSome result (λ s. IsSimple s) }
{
    let name = words.next()?;
    let number = words.next()?;
    let to = words.next()?;
    if words.next().is_some() || name.len() > MAX_NAME || to.len() > MAX_NAME {
        return None;
    }
    if !is_name(name) || !is_name(to) {
        return None;
    }
    match read_number(number) {
        Ok(number) => Some(Simple {
            form: Form::Branch,
            number,
            name,
            to,
        }),
        Err(_) => None,
    }
}

/// The arguments of a command of this kind.
fn command<'a>(verb: CommandVerb, words: &mut Words<'a>) -> Option<Simple<'a>>
    ensures read { IfSome result (ReadsAs (Some (Verb.Do verb)) words.old) }
    ensures simple { IfSome result (λ s. IsSimple s) }
{
    match verb {
        CommandVerb::New => Some(with_name(Form::Fresh, one_name(words)?)),
        CommandVerb::Add => Some(with_number(Form::Add, name_and_number(words)?)),
        CommandVerb::Back => Some(with_name(Form::Back, one_name(words)?)),
        CommandVerb::Swap => Some(with_number(Form::Swap, name_and_number(words)?)),
        CommandVerb::Branch => branch(words),
        CommandVerb::Drop => Some(with_name(Form::Drop, one_name(words)?)),
        CommandVerb::Adopt => Some(with_number(Form::Adopt, name_and_number(words)?)),
    }
}

/// A call of this form without a name.
fn nameless<'a>(form: Form, number: u32) -> Simple<'a>
    ensures form { result.form ≡ form }
    ensures number { result.number ≡ number }
    ensures name { length result.name.now ≡ 0 }
    ensures to { length result.to.now ≡ 0 }
{
    Simple {
        form,
        number,
        name: &[],
        to: &[],
    }
}

/// The argument of `undo`, if it has one.
fn undo<'a>(words: &mut Words<'a>) -> Option<Simple<'a>>
    ensures read { IfSome result (ReadsAs (Some Verb.Undo) words.old) }
    ensures simple { IfSome result (λ s. IsSimple s) }
{
    let Some(entry) = words.next() else {
        return Some(nameless(Form::Undo, 0));
    };
    if words.next().is_some() {
        return None;
    }
    match read_number(entry) {
        Ok(number) => Some(nameless(Form::UndoAt, number)),
        Err(_) => None,
    }
}

/// The arguments of a call of this kind.
fn arguments<'a>(verb: Verb, words: &mut Words<'a>) -> Option<Simple<'a>>
    ensures read { IfSome result (ReadsAs (Some verb) words.old) }
    ensures simple { IfSome result (λ s. IsSimple s) }
{
    match verb {
        Verb::Do(verb) => command(verb, words),
        Verb::Undo => undo(words),
        Verb::Show => Some(with_name(Form::Show, one_name(words)?)),
        Verb::Races => Some(with_name(Form::Races, one_name(words)?)),
        _ => None,
    }
}

/// Reads what follows the client's number.
fn call<'a>(words: &mut Words<'a>) -> Option<Found<'a>>
    ensures { IfSome result (λ found. AsksCall found (call_reading words.old)) }
{
    let word = words.next()?;
    let verb = verb_with(word)?;
    if let Verb::Batch = verb {
        return Some(Found::Batch(words.again()));
    }
    let simple = arguments(verb, words)?;
    Some(Found::Simple(simple))
}

/// Reads a line.
fn words_of<'a>(words: &mut Words<'a>) -> Option<(u32, Found<'a>)>
    ensures asks { IfSome result (λ pair. AsksWords pair.0 pair.1 (words_reading words.old)) }
    ensures client { IfSome result (λ pair. (1 ≤ pair.0) × (pair.0 ≤ client_limit)) }
{
    let client = read_client(words.next()?).ok()?;
    let call = call(words)?;
    Some((client, call))
}

/// The client of a line, and what the line has. Returns None unless it has a batch, or a call without faults that
/// owns no memory.
pub(crate) fn found_on(raw: &[u8]) -> Option<(u32, Found<'_>)>
    ensures asks { IfSome result (λ pair. AsksLine pair.0 pair.1 (script_line_reading raw.now)) }
    ensures client { IfSome result (λ pair. (1 ≤ pair.0) × (pair.0 ≤ client_limit)) }
{
    let line = trim(raw);
    if line.is_empty() || line.len() > MAX_SCRIPT_LINE {
        return None;
    }
    words_of(&mut Words::of(line))
}
