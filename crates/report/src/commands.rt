//! Prints commands and batches in the form in which scripts have them.
ghost use Rattle.std.specs.Prelude.{◌≡◌, ◌++◌, OnErr, codes, decimal};
ghost use Rattle.rapid_text.specs.Appended.{Appended};
ghost use Rattle.report.specs.Commands.{command_words, separated, commands_words};

use crate::pieces::{Piece, append_pieces};
use moves::{Command, Name};
use rapid_text::OutOfMemory;

/// Appends the command's word and its schedule. If memory runs out, `out` stays as it was.
fn append_named<'a>(out: &mut Vec<u8>, word: &'a [u8], name: &'a Name) -> Result<(), OutOfMemory>
    ensures ok { Appended result out.old out.new (word.now ++ name.now) }
    ensures err { OnErr result (out.new.items ≡ out.old.items) }
{
    append_pieces(out, &[Piece::Words(word), Piece::Words(name.bytes())])?;
    Ok(())
}

/// Appends the command's word, its schedule and a number. If memory runs out, `out` stays as it was.
fn append_numbered<'a>(
    out: &mut Vec<u8>,
    word: &'a [u8],
    name: &'a Name,
    number: u32,
) -> Result<(), OutOfMemory>
    ensures ok { Appended result out.old out.new (word.now ++ name.now ++ codes " " ++ decimal number) }
    ensures err { OnErr result (out.new.items ≡ out.old.items) }
{
    append_pieces(
        out,
        &[
            Piece::Words(word),
            Piece::Words(name.bytes()),
            Piece::Words(b" "),
            Piece::Number(u64::from(number)),
        ],
    )?;
    Ok(())
}

/// Appends the text of a branch. If memory runs out, `out` stays as it was.
fn append_branch<'a>(
    out: &mut Vec<u8>,
    name: &'a Name,
    length: u32,
    to: &'a Name,
) -> Result<(), OutOfMemory>
    ensures ok { Appended result out.old out.new (command_words (Command.Branch name.now length to.now)) }
    ensures err { OnErr result (out.new.items ≡ out.old.items) }
{
    append_pieces(
        out,
        &[
            Piece::Words(b"branch "),
            Piece::Words(name.bytes()),
            Piece::Words(b" "),
            Piece::Number(u64::from(length)),
            Piece::Words(b" "),
            Piece::Words(to.bytes()),
        ],
    )?;
    Ok(())
}

/// Appends the script line for the command, without the client. If memory runs out, `out` stays as it was.
pub(crate) fn append_command(out: &mut Vec<u8>, command: &Command) -> Result<(), OutOfMemory>
    ensures ok { Appended result out.old out.new (command_words command.now) }
    ensures err { OnErr result (out.new.items ≡ out.old.items) }
{
    match *command {
        Command::Fresh { name } => append_named(out, b"new ", &name),
        Command::Add { name, event } => append_numbered(out, b"add ", &name, event),
        Command::Back { name } => append_named(out, b"back ", &name),
        Command::Swap { name, at } => append_numbered(out, b"swap ", &name, at),
        Command::Branch { name, length, to } => append_branch(out, &name, length, &to),
        Command::Drop { name } => append_named(out, b"drop ", &name),
        Command::Adopt { name, proposal } => append_numbered(out, b"adopt ", &name, proposal),
    }
}

/// Appends ` ; ` and the command.
fn append_separated(out: &mut Vec<u8>, command: &Command) -> Result<(), OutOfMemory>
    ensures ok { Appended result out.old out.new (codes " ; " ++ command_words command.now) }
    ensures err { OnErr result (out.new.items ≡ out.old.items) }
{
    let start = out.len();
    out.extend_from_slice(b" ; ")?;
    if let Err(refused) = append_command(out, command) {
        out.truncate(start);
        return Err(refused);
    }
    Ok(())
}

/// Appends each command after ` ; `.
fn append_all_separated(out: &mut Vec<u8>, commands: &[Command]) -> Result<(), OutOfMemory>
    ensures ok { Appended result out.old out.new (separated commands.now) }
    ensures err { OnErr result (out.new.items ≡ out.old.items) }
{
    let start = out.len();
    for command in commands {
        if let Err(refused) = append_separated(out, command) {
            out.truncate(start);
            return Err(refused);
        }
    }
    Ok(())
}

/// Appends the commands, with ` ; ` between two.
fn append_commands(out: &mut Vec<u8>, commands: &[Command]) -> Result<(), OutOfMemory>
    ensures ok { Appended result out.old out.new (commands_words commands.now) }
    ensures err { OnErr result (out.new.items ≡ out.old.items) }
{
    let Some((first, others)) = commands.split_first() else {
        return Ok(());
    };
    let start = out.len();
    append_command(out, first)?;
    if let Err(refused) = append_all_separated(out, others) {
        out.truncate(start);
        return Err(refused);
    }
    Ok(())
}

/// Appends the script line for the batch, without the client. If memory runs out, `out` stays as it was.
pub(crate) fn append_batch(out: &mut Vec<u8>, commands: &[Command]) -> Result<(), OutOfMemory>
    ensures ok { Appended result out.old out.new (codes "batch " ++ commands_words commands.now) }
    ensures err { OnErr result (out.new.items ≡ out.old.items) }
{
    let start = out.len();
    out.extend_from_slice(b"batch ")?;
    if let Err(refused) = append_commands(out, commands) {
        out.truncate(start);
        return Err(refused);
    }
    Ok(())
}
