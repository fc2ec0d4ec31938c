//! The tables of a trace.
ghost use Rattle.std.specs.Prelude.{IfOk};
ghost use Rattle.trace_rules.specs.Rules.{IsDisciplined};
ghost use Rattle.event_index.specs.Layout.{AreTables};

use crate::grouping::{grouped_of, starts_of};
use crate::scans::{bases_of, forks_of, places_of, writers_of};
use crate::sections::sections_of;
use rapid_text::{OutOfMemory, RawTrace};
use std::alloc::Global;

/// The tables that the look-ups read.
#[derive(Drop)]
pub(crate) struct Tables {
    // For each event its place in its thread, its base, the write that it sees, and the end of its section.
    pub(crate) places: Vec<u32>,
    pub(crate) bases: Vec<Option<u32>>,
    pub(crate) writers: Vec<Option<u32>>,
    pub(crate) sections: Vec<Option<u32>>,
    // For each thread the event that forks it.
    pub(crate) forks: Vec<Option<u32>>,
    // The events of all threads, thread by thread, and the index at which those of each thread begin; last, their
    // number.
    pub(crate) grouped: Vec<u32>,
    pub(crate) starts: Vec<u32>,
}

/// Makes all tables, each in one pass over the events.
pub(crate) fn tables_of(alloc: Global, raw: &RawTrace) -> Result<Tables, OutOfMemory>
    requires { IsDisciplined raw.now.events }
    ensures { IfOk result (λ tables. AreTables raw.now tables) }
{
    let (places, counts) = places_of(alloc, raw)?;
    let forks = forks_of(alloc, raw)?;
    let bases = bases_of(alloc, raw, forks.as_slice())?;
    let writers = writers_of(alloc, raw)?;
    let sections = sections_of(alloc, raw)?;
    let starts = starts_of(alloc, raw, counts.as_slice())?;
    let grouped = grouped_of(alloc, raw, places.as_slice(), starts.as_slice())?;
    Ok(Tables {
        places,
        bases,
        writers,
        sections,
        forks,
        grouped,
        starts,
    })
}
