//! The tables of a trace that verdicts need.
use event_index::Indexed;
use must_order::Must;
use race_groups::Classes;
use shb_clocks::Clocks;
use std::alloc::Global;
use witness_search::trace_order::Acquires;

/// The tables of a trace, the number of each event's location, and the allocator.
#[derive(Clone, Copy)]
pub(crate) struct Tables<'a> {
    pub(crate) alloc: Global,
    pub(crate) indexed: &'a Indexed,
    pub(crate) clocks: &'a Clocks,
    pub(crate) must: &'a Must,
    pub(crate) acquires: &'a Acquires,
    pub(crate) classes: &'a Classes,
    pub(crate) places: &'a [u32],
}
