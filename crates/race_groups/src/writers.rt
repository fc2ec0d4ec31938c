//! The classes with which an operation conflicts: a read forms no pair with another read, and no event with one of
//! its thread. What follows from the classes of a trace alone is computed once, and lent to all workers.
ghost use Rattle.std.specs.Prelude.{◌≡◌, ◌<◌, ◌≤◌, All, IfOk, filter, length, slice_get};
ghost use Rattle.event_index.specs.Relations.{is_access};
ghost use Rattle.race_groups.specs.ClassTables.{HaveMembers};
ghost use Rattle.race_groups.specs.Classes.{AreConflicting, AreMembers, AreWriters, is_writing, is_writing_op};
ghost use Rattle.race_groups.specs.Owners.{AreRuns, AreRunsOf, AreClassConflicts, AreOwning, AreTallied};

use crate::class::Class;
use crate::classes::Classes;
use crate::owners::owners_of;
use crate::runs::runs_of;
use crate::spread::{Spread, spread_of};
use crate::totals::totals_of;
use event_index::Indexed;
use rapid_text::{Op, OutOfMemory};
use std::alloc::Global;
use std::thread;
use std::thread::Threads;

/// For each variable the classes that write it; tables to skip the classes of one thread; and the number of events of
/// each class. All workers read the same tables.
#[derive(Drop)]
pub(crate) struct Conflicts {
    pub(crate) writers: Vec<Vec<u32>>,
    /// For each class the thread that has all its events.
    pub(crate) owners: Vec<u32>,
    /// The ends of the runs of classes with one owner, among those that access each variable.
    pub(crate) runs: Vec<Vec<usize>>,
    /// The same among those that write the variable.
    pub(crate) writer_runs: Vec<Vec<usize>>,
    /// The number of events of each class.
    pub(crate) totals: Vec<u64>,
    /// The threads of the events of each class.
    pub(crate) spread: Spread,
}

/// The classes with which an operation conflicts, and the ends of the runs with one owner among them.
#[derive(Clone, Copy)]
pub(crate) struct Walk<'a> {
    pub(crate) members: &'a [u32],
    pub(crate) owners: &'a [u32],
    pub(crate) runs: &'a [usize],
}

/// The tables of `Conflicts` that need no number of events.
#[derive(Drop)]
struct Owning {
    writers: Vec<Vec<u32>>,
    owners: Vec<u32>,
    runs: Vec<Vec<usize>>,
    writer_runs: Vec<Vec<usize>>,
}

/// The numbers of events of `Conflicts`.
#[derive(Drop)]
struct Tally {
    totals: Vec<u64>,
    spread: Spread,
}

impl Conflicts {
    /// The tables for a trace's classes. Fails if memory runs out.
    pub(crate) fn of(
        alloc: Global,
        indexed: &Indexed,
        classes: &Classes,
    ) -> Result<Conflicts, OutOfMemory>
        requires numbers { length classes.now.numbers.items ≡ length indexed.now.events }
        requires classes { All (λ c. c < length classes.now.infos.items) classes.now.numbers.items }
        requires members { HaveMembers classes.now }
        ensures { IfOk result (AreClassConflicts indexed.now classes.now) }
    {
        let Owning {
            writers,
            owners,
            runs,
            writer_runs,
        } = owning_of(alloc, indexed, classes)?;
        let Tally { totals, spread } = tally_of(alloc, indexed, classes)?;
        Ok(Conflicts {
            writers,
            owners,
            runs,
            writer_runs,
            totals,
            spread,
        })
    }

    /// The same, in two threads if a thread can be started.
    pub(crate) fn at_once<R: Threads>(
        rt: &R,
        alloc: Global,
        indexed: &Indexed,
        classes: &Classes,
    ) -> Result<Conflicts, OutOfMemory>
        requires numbers { length classes.now.numbers.items ≡ length indexed.now.events }
        requires classes { All (λ c. c < length classes.now.infos.items) classes.now.numbers.items }
        requires members { HaveMembers classes.now }
        ensures { IfOk result (AreClassConflicts indexed.now classes.now) }
    {
        let (owning, tally) = thread::join(
            rt,
            move || -> Result<Owning, OutOfMemory>
                requires numbers { length classes.now.numbers.items ≡ length indexed.now.events }
                requires classes { All (λ c. c < length classes.now.infos.items) classes.now.numbers.items }
                requires members { HaveMembers classes.now }
                ensures { IfOk result (AreOwning indexed.entry.now classes.entry.now) }
            { owning_of(alloc, indexed, classes) },
            move || -> Result<Tally, OutOfMemory>
                requires numbers { length classes.now.numbers.items ≡ length indexed.now.events }
                requires classes { All (λ c. c < length classes.now.infos.items) classes.now.numbers.items }
                ensures { IfOk result (AreTallied indexed.entry.now classes.entry.now) }
            { tally_of(alloc, indexed, classes) },
        );
        let Owning {
            writers,
            owners,
            runs,
            writer_runs,
        } = owning?;
        let Tally { totals, spread } = tally?;
        Ok(Conflicts {
            writers,
            owners,
            runs,
            writer_runs,
            totals,
            spread,
        })
    }
}

// The tables that need no number of events.
fn owning_of(alloc: Global, indexed: &Indexed, classes: &Classes) -> Result<Owning, OutOfMemory>
    requires numbers { length classes.now.numbers.items ≡ length indexed.now.events }
    requires classes { All (λ c. c < length classes.now.infos.items) classes.now.numbers.items }
    requires members { HaveMembers classes.now }
    ensures { IfOk result (AreOwning indexed.now classes.now) }
{
    let members = classes.members.as_slice();
    let writers = writers_of(alloc, classes.infos.as_slice(), members)?;
    let owners = owners_of(alloc, indexed, classes)?;
    let runs = runs_of(alloc, owners.as_slice(), members)?;
    let writer_runs = runs_of(alloc, owners.as_slice(), writers.as_slice())?;
    Ok(Owning {
        writers,
        owners,
        runs,
        writer_runs,
    })
}

// The numbers of events.
fn tally_of(alloc: Global, indexed: &Indexed, classes: &Classes) -> Result<Tally, OutOfMemory>
    requires numbers { length classes.now.numbers.items ≡ length indexed.now.events }
    requires classes { All (λ c. c < length classes.now.infos.items) classes.now.numbers.items }
    ensures { IfOk result (AreTallied indexed.now classes.now) }
{
    let totals = totals_of(alloc, indexed, classes)?;
    let spread = spread_of(alloc, indexed, classes, totals.as_slice())?;
    Ok(Tally { totals, spread })
}

// For each variable, the classes that write it.
fn writers_of(
    alloc: Global,
    infos: &[Class],
    members: &[Vec<u32>],
) -> Result<Vec<Vec<u32>>, OutOfMemory>
    requires members { AreMembers infos.now members.now }
    ensures { IfOk result (λ writers. AreWriters infos.now members.now writers.items) }
{
    let mut writers = Vec::with_capacity(alloc, members.len())?;
    for variable in 0..members.len() {
        let found = writing(alloc, infos, members[variable].as_slice())?;
        writers.push(found)?;
    }
    Ok(writers)
}

// The classes that write, among these.
fn writing(alloc: Global, infos: &[Class], members: &[u32]) -> Result<Vec<u32>, OutOfMemory>
    requires { All (λ c. c < length infos.now) members.now }
    ensures { IfOk result (λ writers. writers.items ≡ filter (λ c. is_writing (slice_get infos.now c)) members.now) }
{
    let mut writers = Vec::new(alloc);
    for member in members {
        if writes(infos, *member) {
            writers.push(*member)?;
        }
    }
    Ok(writers)
}

// Whether the class writes.
fn writes(infos: &[Class], class: u32) -> bool
    requires { class < length infos.now }
    ensures { result ≡ is_writing (slice_get infos.now class) }
{
    is_write(infos[class as usize].op)
}

fn is_write(op: Op) -> bool
    ensures { result ≡ is_writing_op op }
{
    match op {
        Op::Write(_) => true,
        _ => false,
    }
}

/// The classes of the variable with which the operation conflicts.
pub(crate) fn conflicting<'a>(
    classes: &'a Classes,
    conflicts: &'a Conflicts,
    variable: u32,
    op: Op,
) -> Walk<'a>
    requires variable { variable < length classes.now.members.items }
    requires members { HaveMembers classes.now }
    requires writers { AreWriters classes.now.infos.items classes.now.members.items conflicts.now.writers.items }
    requires runs { AreRunsOf conflicts.now.owners.items classes.now.members.items conflicts.now.runs.items }
    requires writer_runs { AreRunsOf conflicts.now.owners.items conflicts.now.writers.items conflicts.now.writer_runs.items }
    ensures members { AreConflicting classes.now.infos.items variable op result.members.now }
    ensures owners { result.owners.now ≡ conflicts.now.owners.items }
    ensures runs { AreRuns result.owners.now result.members.now result.runs.now }
{
    let owners = conflicts.owners.as_slice();
    if is_write(op) {
        return Walk {
            members: classes.members[variable as usize].as_slice(),
            owners,
            runs: conflicts.runs[variable as usize].as_slice(),
        };
    }
    Walk {
        members: conflicts.writers[variable as usize].as_slice(),
        owners,
        runs: conflicts.writer_runs[variable as usize].as_slice(),
    }
}
