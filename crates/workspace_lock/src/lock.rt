//! The lock that the seats share: its rule, and the steps that a place makes at it.
ghost use Rattle.std.specs.Prelude.{List, []};
ghost use Rattle.inverse_log.specs.declared.entry.Entry.{Entry};

use crate::bells::Bells;
use crate::boxed::BoxedBench;
use crate::door::Door;
use atomic_table::{Join, Play, Seat, Split, Table, TableRule};
use std::alloc::Global;
use std::marker::{Brand, Model, PhantomData};
use std::snapshot::Snapshot;

/// The most clients. So this is also the most seats, and the most tickets that can wait at one time.
pub const MAX_CLIENTS: u32 = 32;

/// The knowledge of a place. No value of it is ever made.
pub struct View {
    nothing: (),
}

impl Model for View {
    ghost use Rattle.workspace_lock.specs.Places.{PlaceView, blank};

    ghost Value = { PlaceView };

    ghost view = { λ _. blank };
}

/// The values that the lock gets when it is made: the bench, and the number of seats.
#[derive(Drop)]
pub struct Opening {
    pub bench: Snapshot<BoxedBench>,
    pub clients: u32,
}

/// The rule that the three words, the slot and all places keep.
pub struct Order;

impl TableRule<Option<BoxedBench>, View, Opening> for Order {
    ghost use Rattle.workspace_lock.specs.Rule.{Kept, opened};

    ghost holds = { λ key. Kept key.bench.value key.clients };

    ghost first = { λ key. opened key.bench.value key.clients };
}

/// Three words, TICKET, SERVING and FRONT, and a slot for the boxed bench.
pub type Lock = Table<Option<BoxedBench>, View, Opening, Order, Global>;

/// What all seats share.
#[derive(Drop)]
pub struct Hall {
    pub lock: Lock,
    pub bells: Bells,
    pub door: Door,
}

/// One client's place at the lock.
pub type Place = Seat<Option<BoxedBench>, View>;

/// The step that draws a ticket.
pub struct Draw;

impl Play<Option<BoxedBench>, View> for Draw {
    ghost use Rattle.workspace_lock.specs.Steps.{drew};

    ghost then = { drew };
}

/// The step that reads SERVING.
pub struct Watch;

impl Play<Option<BoxedBench>, View> for Watch {
    ghost use Rattle.workspace_lock.specs.Steps.{watched};

    ghost then = { watched };
}

/// The log to publish. Each call chooses it.
pub trait Named {
    ghost log: { List Entry };
}

impl Named for Brand {
    ghost log = { [] };
}

/// The step that adds 1 to FRONT.
pub struct Publish<N: Named> {
    of: PhantomData<N>,
}

impl<N: Named> Play<Option<BoxedBench>, View> for Publish<N> {
    ghost use Rattle.workspace_lock.specs.Steps.{published};

    ghost then = { published N.log };
}

/// The step that reads FRONT.
pub struct Look;

impl Play<Option<BoxedBench>, View> for Look {
    ghost use Rattle.workspace_lock.specs.Steps.{fronted};

    ghost then = { fronted };
}

/// The step that adds 1 to SERVING.
pub struct PassOn;

impl Play<Option<BoxedBench>, View> for PassOn {
    ghost use Rattle.workspace_lock.specs.Steps.{passed};

    ghost then = { passed };
}

/// The step with which the place that has all marks reads SERVING for the last time.
pub struct Finish;

impl Play<Option<BoxedBench>, View> for Finish {
    ghost use Rattle.workspace_lock.specs.Steps.{ended};

    ghost then = { ended };
}

/// The step that cuts off a place for a client.
pub struct Deal;

impl Split<View> for Deal {
    ghost use Rattle.workspace_lock.specs.Steps.{stays, goes_off};

    ghost left = { stays };

    ghost right = { goes_off };
}

/// The step that joins a client's place to another place.
pub struct Gather;

impl Join<View> for Gather {
    ghost use Rattle.workspace_lock.specs.Places.{blank};
    ghost use Rattle.workspace_lock.specs.Steps.{joined};

    ghost both = { joined };

    ghost spent = { blank };
}
