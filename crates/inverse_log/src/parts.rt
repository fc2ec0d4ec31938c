//! Helpers for the parts of a bench.
ghost use Rattle.std.specs.Prelude.{◌≡◌, ℕ, ◌+◌, ◌++◌, ◌∷◌, [], ◌<◌, ◌≤◌, All, OnOk, OnErr, IfErr, IsSome, Some, vec_len, vec_capacity, slice_get, slice_set, map};
ghost use Rattle.dependence.specs.Limits.{client_limit};
ghost use Rattle.dependence.specs.Lists.{AllBelow, Entered, Left, of_client, PushedAll, RemovedAll, Same};
ghost use Rattle.moves.specs.Commands.{writes};
ghost use Rattle.inverse_log.specs.declared.kept.Held.TheVariants as held;
ghost use Rattle.inverse_log.specs.Answer.{is_batch};
ghost use Rattle.inverse_log.specs.Log.{commands_at, is_own};
ghost use Rattle.inverse_log.specs.Steps.{single_at, batch_at};
ghost use Rattle.inverse_log.specs.Nearest.{nearer, nearest};
ghost use Rattle.inverse_log.specs.Kept.{CanPush, refused_as};

use crate::entry::Entry;
use crate::kept::{Held, Kept, Spare};
use crate::refusal::Refusal;
use dependence::{Clients, Touches};
use moves::{BatchRefusal, Command, Name};
use rapid_text::OutOfMemory;
use std::alloc::Global;
use std::slice;

/// The most commands of a batch.
const MAX_COMMANDS: usize = 64;

/// Makes room for one more entry and for what takes it back.
pub(crate) fn make_room(
    alloc: Global,
    log: &mut Vec<Entry>,
    steps: &mut Vec<Kept>,
    spare: &mut Spare,
) -> Result<(), OutOfMemory>
    ensures log { log.new.items ≡ log.old.items }
    ensures steps { steps.new.items ≡ steps.old.items }
    ensures log_len { vec_len log.new ≡ vec_len log.old }
    ensures steps_len { vec_len steps.new ≡ vec_len steps.old }
    ensures room { OnOk result (CanPush log.new × CanPush steps.new) }
    ensures spare { OnOk result (IsSome spare.new) }
{
    if spare.is_none() {
        let Ok(apart) = Box::new(alloc, Held::Nothing) else {
            return Err(OutOfMemory);
        };
        *spare = Some(apart);
    }
    let Ok(()) = log.reserve(1) else {
        return Err(OutOfMemory);
    };
    let Ok(()) = steps.reserve(1) else {
        return Err(OutOfMemory);
    };
    Ok(())
}

/// Appends an entry. There is room for it.
pub(crate) fn add_entry(log: &mut Vec<Entry>, entry: Entry)
    requires { CanPush log.old }
    ensures { log.new.items ≡ log.old.items ++ entry ∷ [] }
{
    let _ = log.push(entry);
}

/// Appends what takes the next entry back. There is room for it.
pub(crate) fn add_held(steps: &mut Vec<Kept>, spare: &mut Spare, held: Held)
    requires room { CanPush steps.old }
    requires spare { IsSome spare.old }
    ensures { steps.new.items ≡ steps.old.items ++ held ∷ [] }
{
    let _ = steps.push(Kept::of(held, spare));
}

/// Appends that nothing takes the next entry back. There is room for that.
pub(crate) fn add_nothing(steps: &mut Vec<Kept>)
    requires { CanPush steps.old }
    ensures { steps.new.items ≡ steps.old.items ++ held.Nothing ∷ [] }
{
    let _ = steps.push(Kept::nothing());
}

/// Removes and returns what takes the entry back.
pub(crate) fn take_out(steps: &mut Vec<Kept>, entry: u64) -> Held
    requires { entry < vec_len steps.old }
    ensures taken { slice_get steps.old.items entry ≡ Some result }
    ensures items { steps.new.items ≡ slice_set steps.old.items entry held.Nothing }
    ensures room { vec_capacity steps.new ≡ vec_capacity steps.old }
    ensures len { vec_len steps.new ≡ vec_len steps.old }
{
    steps[entry as usize].take()
}

/// Puts back what takes the entry back.
pub(crate) fn put_back(steps: &mut Vec<Kept>, spare: &mut Spare, entry: u64, held: Held)
    requires entry { entry < vec_len steps.old }
    requires spare { IsSome spare.old }
    ensures { steps.new.items ≡ slice_set steps.old.items entry held }
{
    steps[entry as usize] = Kept::of(held, spare);
}

/// Adds a live entry to the lists of its commands' names and of its client. If memory runs out, changes nothing.
pub(crate) fn enter(
    touches: &mut Touches,
    clients: &mut Clients,
    client: u32,
    commands: &[Command],
    entry: u64,
) -> Result<(), OutOfMemory>
    requires client { client ≤ client_limit }
    requires names { AllBelow entry touches.old }
    requires clients { All (λ k. k < entry) (of_client clients.old client) }
    ensures ok { OnOk result
        (PushedAll entry commands.now touches.old touches.new × Entered client entry clients.old clients.new) }
    ensures err { OnErr result (Same touches.old touches.new × (clients.new ≡ clients.old)) }
{
    let Ok(()) = touches.push_all(entry, commands) else {
        return Err(OutOfMemory);
    };
    let Ok(()) = clients.push(client, entry) else {
        touches.remove_all(entry, commands);
        return Err(OutOfMemory);
    };
    Ok(())
}

/// Removes an entry of these commands from the lists.
pub(crate) fn leave(
    touches: &mut Touches,
    clients: &mut Clients,
    client: u32,
    commands: &[Command],
    undone: u64,
)
    requires client { client ≤ client_limit }
    ensures names { RemovedAll undone commands.now touches.old touches.new }
    ensures clients { Left client undone clients.old clients.new }
{
    touches.remove_all(undone, commands);
    clients.remove(client, undone);
}

/// The command of an entry that did a single one.
pub(crate) fn single_at(log: &[Entry], entry: u64) -> Option<Command>
    ensures { result ≡ single_at log.now entry }
{
    let entry = entry as usize;
    if entry >= log.len() {
        return None;
    }
    match &log[entry] {
        Entry::Did { client: _, command } => Some(command.command()),
        _ => None,
    }
}

/// The commands of a batch, or none if the entry is no batch.
fn batch_at(log: &[Entry], entry: u64) -> &[Command]
    ensures { result.now ≡ batch_at log.now entry }
{
    let entry = entry as usize;
    if entry >= log.len() {
        return &[];
    }
    match &log[entry] {
        Entry::Batch {
            client: _,
            commands,
        } => commands.items(),
        _ => &[],
    }
}

/// The commands that an entry did, or none. `single` is the command of an entry that did a single one, which the log
/// keeps in few bytes.
pub(crate) fn commands_at<'a>(
    log: &'a [Entry],
    entry: u64,
    single: &'a Option<Command>,
) -> &'a [Command]
    requires { single.now ≡ single_at log.now entry }
    ensures { result.now ≡ commands_at log.now entry }
{
    match single {
        Some(command) => slice::from_ref(command),
        None => batch_at(log, entry),
    }
}

/// Whether an entry is there, and did commands of this client.
pub(crate) fn is_own(log: &[Entry], client: u32, entry: u64) -> bool
    ensures { result ≡ is_own client (slice_get log.now entry) }
{
    let entry = entry as usize;
    if entry >= log.len() {
        return false;
    }
    match &log[entry] {
        Entry::Did {
            client: of,
            command: _,
        } => *of == client,
        Entry::Batch {
            client: owner,
            commands: _,
        } => *owner == client,
        _ => false,
    }
}

/// The least entry after this one that touches a name that the commands write, with the first such name.
pub(crate) fn first_blocker(
    touches: &Touches,
    entry: u64,
    commands: &[Command],
) -> Option<(u64, Name)>
    ensures { result ≡ nearest entry touches.now (map writes commands.now) }
{
    let mut found = None;
    for command in commands {
        let name = command.writes();
        found = nearer(found, touches.first_after(entry, &name), name);
    }
    found
}

/// What was found, or this entry under this name if it is less.
fn nearer(found: Option<(u64, Name)>, next: Option<u64>, name: Name) -> Option<(u64, Name)>
    ensures { result ≡ nearer found next name }
{
    match (found, next) {
        (found, None) => found,
        (None, Some(next)) => Some((next, name)),
        (Some((least, first)), Some(next)) => {
            if next < least {
                Some((next, name))
            } else {
                Some((least, first))
            }
        }
    }
}

/// Whether a batch may have this number of commands: 1 to 64.
pub(crate) fn is_batch(commands: &[Command]) -> bool
    ensures { result ≡ is_batch commands.now }
{
    1 <= commands.len() && commands.len() <= MAX_COMMANDS
}

/// The refusal of a call whose batch is refused.
pub(crate) fn refused(why: BatchRefusal) -> Refusal
    ensures { result ≡ refused_as why }
{
    match why {
        BatchRefusal::InBatch { place, cause } => Refusal::InBatch { place, cause },
        BatchRefusal::OutOfMemory => Refusal::OutOfMemory,
    }
}
