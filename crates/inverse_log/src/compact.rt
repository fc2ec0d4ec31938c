//! A command as the log keeps it: in few bytes, because a log has up to a million commands.
ghost use Rattle.std.specs.Prelude.{◌≡◌, ◌≤◌, ◌++◌, ◌-◌, length, replicate, IfOk, IfSome};
ghost use Rattle.inverse_log.specs.Compact.{command_in, command_of};

use moves::{Command, Name};
use rapid_text::OutOfMemory;
use std::alloc::Global;
use std::marker::Model;

/// The most bytes of a short name.
const SHORT: usize = 23;

/// The most bytes of each of two names that are kept in the space of a short one.
const TINY: usize = 11;

/// A name of at most 23 bytes.
#[derive(Drop)]
struct ShortName {
    len: u8,
    // the bytes of the name, and then zeros
    padded: [u8; SHORT],
}

impl Model for ShortName {
    ghost use Rattle.std.specs.Prelude.{List, ℕ};

    ghost Value = { List ℕ };

    ghost use Rattle.inverse_log.specs.ShortNames.{short_of, IsShortName};

    ghost view = { short_of };

    ghost invariant = { IsShortName };
}

impl ShortName {
    /// The name, if it is that short.
    fn of(name: &Name) -> Option<ShortName>
        ensures { IfSome result (λ short. short ≡ name.now) }
    {
        let bytes = name.bytes();
        if bytes.len() > SHORT {
            return None;
        }
        Some(ShortName {
            len: bytes.len() as u8,
            padded: short_padded(bytes),
        })
    }

    /// The name.
    fn name(&self) -> Name
        ensures { result ≡ self.now }
    {
        match Name::new(&self.padded[..self.len as usize]) {
            Ok(name) => name,
            Err(_) => unreachable!(),
        }
    }
}

/// The bytes, and then zeros.
fn short_padded(bytes: &[u8]) -> [u8; SHORT]
    requires { length bytes.now ≤ 23 }
    ensures { result ≡ bytes.now ++ replicate (23 - length bytes.now) 0 }
{
    let mut padded = [0; SHORT];
    padded[..bytes.len()].copy_from_slice(bytes);
    padded
}

/// A name of at most 11 bytes.
#[derive(Drop)]
struct TinyName {
    len: u8,
    // the bytes of the name, and then zeros
    padded: [u8; TINY],
}

impl Model for TinyName {
    ghost use Rattle.std.specs.Prelude.{List, ℕ};

    ghost Value = { List ℕ };

    ghost use Rattle.inverse_log.specs.ShortNames.{tiny_of, IsTinyName};

    ghost view = { tiny_of };

    ghost invariant = { IsTinyName };
}

impl TinyName {
    /// The name, if it is that short.
    fn of(name: &Name) -> Option<TinyName>
        ensures { IfSome result (λ tiny. tiny ≡ name.now) }
    {
        let bytes = name.bytes();
        if bytes.len() > TINY {
            return None;
        }
        Some(TinyName {
            len: bytes.len() as u8,
            padded: tiny_padded(bytes),
        })
    }

    /// The name.
    fn name(&self) -> Name
        ensures { result ≡ self.now }
    {
        match Name::new(&self.padded[..self.len as usize]) {
            Ok(name) => name,
            Err(_) => unreachable!(),
        }
    }
}

/// The bytes, and then zeros.
fn tiny_padded(bytes: &[u8]) -> [u8; TINY]
    requires { length bytes.now ≤ 11 }
    ensures { result ≡ bytes.now ++ replicate (11 - length bytes.now) 0 }
{
    let mut padded = [0; TINY];
    padded[..bytes.len()].copy_from_slice(bytes);
    padded
}

/// The kind of a command with one name.
#[derive(Clone, Copy)]
enum Kind {
    Fresh,
    Add,
    Back,
    Swap,
    Drop,
    Adopt,
}

/// The command of this kind, with its name, and with its number if it has one.
fn command_of(kind: Kind, name: Name, number: u32) -> Command
    ensures { result ≡ command_of kind name number }
{
    match kind {
        Kind::Fresh => Command::Fresh { name },
        Kind::Add => Command::Add {
            name,
            event: number,
        },
        Kind::Back => Command::Back { name },
        Kind::Swap => Command::Swap { name, at: number },
        Kind::Drop => Command::Drop { name },
        Kind::Adopt => Command::Adopt {
            name,
            proposal: number,
        },
    }
}

/// A command in 32 bytes. A command with a long name is in a box. Contracts see it as the command.
#[derive(Drop)]
pub struct CompactCommand {
    form: Form,
}

#[derive(Drop)]
enum Form {
    Short(Kind, u32, ShortName),
    Branch(u32, TinyName, TinyName),
    Apart(Box<Command>),
}

impl Model for CompactCommand {
    ghost use Rattle.moves.specs.declared.command.Command.{Command};
    ghost use Rattle.inverse_log.specs.Compact.{command_in};

    ghost Value = { Command };

    ghost view = { λ c. command_in c.form };
}

impl CompactCommand {
    /// The command in few bytes. Only a long name takes memory.
    pub(crate) fn of(alloc: Global, command: &Command) -> Result<CompactCommand, OutOfMemory>
        ensures { IfOk result (λ compact. compact ≡ command.now) }
    {
        if let Some(form) = in_place(command) {
            return Ok(CompactCommand { form });
        }
        let Ok(apart) = Box::new(alloc, *command) else {
            return Err(OutOfMemory);
        };
        Ok(CompactCommand {
            form: Form::Apart(apart),
        })
    }

    /// The command.
    pub fn command(&self) -> Command
        ensures { result ≡ self.now }
    {
        match &self.form {
            Form::Short(kind, number, name) => command_of(*kind, name.name(), *number),
            Form::Branch(length, name, to) => Command::Branch {
                name: name.name(),
                length: *length,
                to: to.name(),
            },
            Form::Apart(command) => **command,
        }
    }
}

/// The form of a command whose names are short.
fn in_place(command: &Command) -> Option<Form>
    ensures { IfSome result (λ form. command_in form ≡ command.now) }
{
    match command {
        Command::Fresh { name } => short(Kind::Fresh, 0, name),
        Command::Add { name, event } => short(Kind::Add, *event, name),
        Command::Back { name } => short(Kind::Back, 0, name),
        Command::Swap { name, at } => short(Kind::Swap, *at, name),
        Command::Branch { name, length, to } => branch(*length, name, to),
        Command::Drop { name } => short(Kind::Drop, 0, name),
        Command::Adopt { name, proposal } => short(Kind::Adopt, *proposal, name),
    }
}

/// The form of a command with one name, if that is short.
fn short(kind: Kind, number: u32, name: &Name) -> Option<Form>
    ensures { IfSome result (λ form. command_in form ≡ command_of kind name.now number) }
{
    let name = ShortName::of(name)?;
    Some(Form::Short(kind, number, name))
}

/// The form of a branch, if its names are short.
fn branch(length: u32, name: &Name, to: &Name) -> Option<Form>
    ensures { IfSome result (λ form. command_in form ≡ Command.Branch name.now length to.now) }
{
    let name = TinyName::of(name)?;
    let to = TinyName::of(to)?;
    Some(Form::Branch(length, name, to))
}
