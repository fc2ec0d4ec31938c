//! How a script keeps a call: in few bytes, with its names in one text for all calls. A call that owns memory is kept
//! as it is.
ghost use Rattle.std.specs.Prelude.{◌≡◌, ◌≢◌, ◌+◌, ◌<◌, ◌≤◌, true, List, length, take, drop, get_or, IfOk};
ghost use Rattle.inverse_log.specs.declared.call.Call.{Call};
ghost use Rattle.inverse_log.specs.declared.call.Call.TheVariants.{Do, Undo as UndoCall};
ghost use Rattle.moves.specs.Names.{is_name};
ghost use Rattle.dependence.specs.Limits.{client_limit};
ghost use Rattle.script_language.specs.Kept.{name_in, to_in, call_in, call_of, asked_of, kept_call, HasNames, IsNamedIn, IsWithin, IsKept, KeepsCall, Begins};
ghost use Rattle.script_language.specs.Scripts.{asked};
ghost use Rattle.script_language.specs.Simple.{IsSimple, KeepsSimple};
ghost use Rattle.script_language.specs.declared.kept.Form.TheVariants.{Owned};

use crate::simple::Simple;
use inverse_log::Call;
use moves::{Command, Name};
use rapid_text::OutOfMemory;

/// What kind of call is kept.
#[derive(Clone, Copy)]
pub(crate) enum Form {
    /// `new`
    Fresh,
    /// `add`
    Add,
    /// `back`
    Back,
    /// `swap`
    Swap,
    /// `branch`
    Branch,
    /// `drop`
    Drop,
    /// `adopt`
    Adopt,
    /// `undo`
    Undo,
    /// `undo` with the number of an entry
    UndoAt,
    /// `show`
    Show,
    /// `list`
    List,
    /// `races`
    Races,
    /// A call that owns memory, or that has a number which no script can write. It is kept as it was read.
    Owned,
}

/// A call of a script, its line and its client. A whole call would take some 150 bytes, twenty times the line `1
/// list`.
#[derive(Clone, Copy)]
pub(crate) struct Kept {
    /// The line, counted from 1.
    pub(crate) line: u64,
    /// The index of its names in the bytes of all names. For a call that owns memory, the index among these calls.
    pub(crate) at: usize,
    /// The number among its arguments.
    pub(crate) number: u32,
    /// The kind of call.
    pub(crate) form: Form,
    /// The client.
    pub(crate) client: u8,
    /// How many bytes its name has.
    pub(crate) name: u8,
    /// How many bytes its second name has. It comes after the first name.
    pub(crate) to: u8,
}

/// Keeps a call of this form with these names. A name that the form does not have is empty.
pub(crate) fn keep_names(
    names: &mut Vec<u8>,
    form: Form,
    number: u32,
    name: &[u8],
    to: &[u8],
) -> Result<Kept, OutOfMemory>
    requires form { form ≢ Owned }
    requires short { (length name.now ≤ 64) × (length to.now ≤ 64) }
    requires named { HasNames form name.now to.now }
    ensures grown { Begins names.old.items names.new.items }
    ensures form { IfOk result (λ kept. kept.form ≡ form) }
    ensures within { IfOk result (λ kept. kept.at + kept.name + kept.to ≤ length names.new.items) }
    ensures named { IfOk result (λ kept. IsNamedIn names.new.items kept) }
    ensures call { IfOk result (λ kept. KeepsCall names.new.items kept (call_in form name.now to.now number)) }
{
    let at = names.len();
    if !name.is_empty() {
        names.extend_from_slice(name)?;
    }
    if !to.is_empty() {
        names.extend_from_slice(to)?;
    }
    Ok(Kept {
        line: 0,
        at,
        number,
        form,
        client: 0,
        name: name.len() as u8,
        to: to.len() as u8,
    })
}

/// Keeps a command.
fn keep_command(names: &mut Vec<u8>, command: &Command) -> Result<Kept, OutOfMemory>
    ensures grown { Begins names.old.items names.new.items }
    ensures form { IfOk result (λ kept. kept.form ≢ Owned) }
    ensures within { IfOk result (λ kept. kept.at + kept.name + kept.to ≤ length names.new.items) }
    ensures named { IfOk result (λ kept. IsNamedIn names.new.items kept) }
    ensures call { IfOk result (λ kept. KeepsCall names.new.items kept (λ _. Do command.now)) }
{
    match command {
        Command::Fresh { name } => keep_names(names, Form::Fresh, 0, name.bytes(), &[]),
        Command::Add { name, event } => keep_names(names, Form::Add, *event, name.bytes(), &[]),
        Command::Back { name } => keep_names(names, Form::Back, 0, name.bytes(), &[]),
        Command::Swap { name, at } => keep_names(names, Form::Swap, *at, name.bytes(), &[]),
        Command::Branch { name, length, to } => {
            keep_names(names, Form::Branch, *length, name.bytes(), to.bytes())
        }
        Command::Drop { name } => keep_names(names, Form::Drop, 0, name.bytes(), &[]),
        Command::Adopt { name, proposal } => {
            keep_names(names, Form::Adopt, *proposal, name.bytes(), &[])
        }
    }
}

/// Keeps a call that owns memory.
fn keep_owned(owned: &mut Vec<Call>, call: Call) -> Result<Kept, OutOfMemory>
    ensures grown { Begins owned.old.items owned.new.items }
    ensures form { IfOk result (λ kept. kept.form ≡ Owned) }
    ensures within { IfOk result (λ kept. kept.at < length owned.new.items) }
    ensures call { IfOk result (λ kept. get_or owned.new.items kept.at UndoCall ≡ call) }
{
    let at = owned.len();
    owned.push(call)?;
    Ok(Kept {
        line: 0,
        at,
        number: 0,
        form: Form::Owned,
        client: 0,
        name: 0,
        to: 0,
    })
}

/// Keeps a call.
fn keep_call(names: &mut Vec<u8>, owned: &mut Vec<Call>, call: Call) -> Result<Kept, OutOfMemory>
    ensures names { Begins names.old.items names.new.items }
    ensures owned { Begins owned.old.items owned.new.items }
    ensures within { IfOk result (λ kept. IsWithin kept.form names.new.items owned.new.items kept) }
    ensures named { IfOk result (λ kept. IsNamedIn names.new.items kept) }
    ensures call { IfOk result (λ kept. call_of names.new.items owned.new.items kept ≡ call) }
{
    match call {
        Call::Do(command) => keep_command(names, &command),
        Call::Undo => keep_names(names, Form::Undo, 0, &[], &[]),
        Call::UndoAt { entry } => match u32::try_from(entry) {
            Ok(number) => keep_names(names, Form::UndoAt, number, &[], &[]),
            Err(_) => keep_owned(owned, call),
        },
        Call::Show(name) => keep_names(names, Form::Show, 0, name.bytes(), &[]),
        Call::List => keep_names(names, Form::List, 0, &[], &[]),
        Call::Races(name) => keep_names(names, Form::Races, 0, name.bytes(), &[]),
        _ => keep_owned(owned, call),
    }
}

/// Keeps a call that owns no memory with its line and its client.
pub(crate) fn keep_simple(
    names: &mut Vec<u8>,
    line: u64,
    client: u32,
    simple: &Simple<'_>,
) -> Result<Kept, OutOfMemory>
    requires client { (1 ≤ client) × (client ≤ client_limit) }
    requires simple { IsSimple simple.now }
    ensures names { Begins names.old.items names.new.items }
    ensures kept { IfOk result (λ kept. (owned : List Call) → IsKept names.new.items owned kept) }
    ensures asked { IfOk result (λ kept. KeepsSimple names.new.items kept line client simple.now) }
{
    let kept = keep_names(names, simple.form, simple.number, simple.name, simple.to)?;
    Ok(Kept {
        line,
        client: client as u8,
        ..kept
    })
}

/// Keeps a call with its line and its client.
pub(crate) fn keep(
    names: &mut Vec<u8>,
    owned: &mut Vec<Call>,
    line: u64,
    client: u32,
    call: Call,
) -> Result<Kept, OutOfMemory>
    requires client { (1 ≤ client) × (client ≤ client_limit) }
    ensures names { Begins names.old.items names.new.items }
    ensures owned { Begins owned.old.items owned.new.items }
    ensures kept { IfOk result (λ kept. IsKept names.new.items owned.new.items kept) }
    ensures asked { IfOk result (λ k. asked_of names.new.items owned.new.items k ≡ asked line client call) }
{
    let kept = keep_call(names, owned, call)?;
    Ok(Kept {
        line,
        client: client as u8,
        ..kept
    })
}

/// The name with this number of bytes that begins at this index.
fn name_at(names: &[u8], at: usize, len: u8) -> Name
    requires within { at + len ≤ length names.now }
    requires name { is_name (take len (drop at names.now)) ≡ true }
    ensures { result ≡ take len (drop at names.now) }
{
    match Name::new(&names[at..at + len as usize]) {
        Ok(name) => name,
        Err(_) => unreachable!(),
    }
}

/// The name of a kept call.
pub(crate) fn first_name(names: &[u8], kept: &Kept) -> Name
    requires within { kept.now.at + kept.now.name ≤ length names.now }
    requires named { is_name (name_in names.now kept.now) ≡ true }
    ensures { result ≡ name_in names.now kept.now }
{
    name_at(names, kept.at, kept.name)
}

/// The second name of a kept call.
fn second_name(names: &[u8], kept: &Kept) -> Name
    requires within { kept.now.at + kept.now.name + kept.now.to ≤ length names.now }
    requires named { is_name (to_in names.now kept.now) ≡ true }
    ensures { result ≡ to_in names.now kept.now }
{
    name_at(names, kept.at + kept.name as usize, kept.to)
}

/// Makes a kept call that owns no memory.
#[inline(always)]
pub(crate) fn made(names: &[u8], kept: &Kept) -> Call
    requires form { kept.now.form ≢ Owned }
    requires within { kept.now.at + kept.now.name + kept.now.to ≤ length names.now }
    requires named { IsNamedIn names.now kept.now }
    ensures { (own : Call) → result ≡ kept_call names.now kept.now own }
{
    match kept.form {
        Form::Fresh => Call::Do(Command::Fresh {
            name: first_name(names, kept),
        }),
        Form::Add => Call::Do(Command::Add {
            name: first_name(names, kept),
            event: kept.number,
        }),
        Form::Back => Call::Do(Command::Back {
            name: first_name(names, kept),
        }),
        Form::Swap => Call::Do(Command::Swap {
            name: first_name(names, kept),
            at: kept.number,
        }),
        Form::Branch => Call::Do(Command::Branch {
            name: first_name(names, kept),
            length: kept.number,
            to: second_name(names, kept),
        }),
        Form::Drop => Call::Do(Command::Drop {
            name: first_name(names, kept),
        }),
        Form::Adopt => Call::Do(Command::Adopt {
            name: first_name(names, kept),
            proposal: kept.number,
        }),
        Form::Undo => Call::Undo,
        Form::UndoAt => Call::UndoAt {
            entry: u64::from(kept.number),
        },
        Form::Show => Call::Show(first_name(names, kept)),
        Form::List => Call::List,
        Form::Races => Call::Races(first_name(names, kept)),
        Form::Owned => unreachable!(),
    }
}
