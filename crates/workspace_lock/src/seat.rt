//! A client's seat, and a call through it.
ghost use Rattle.std.specs.Prelude.{◌≡◌, ℕ, ◌+◌, ◌*◌, ◌<◌, ◌≤◌, [], ◌∷◌, Some, Err, length};
ghost use Rattle.std.specs.Io.KnownBytes.{Appends};
ghost use Rattle.std.specs.Arc.{arc_value};
ghost use Rattle.inverse_log.specs.Answer.{IsLegal, Grown};
ghost use Rattle.dependence.specs.Limits.{client_limit};
ghost use Rattle.workspace_lock.specs.Limits.{turn_limit};
ghost use Rattle.workspace_lock.specs.Runs.{Ran, Fronted, Passes, Hears};
ghost use Rattle.workspace_lock.specs.Places.{idle, mark_of, solo, seat_view};
ghost use Rattle.workspace_lock.specs.Places.{IsSized, IsResting, IsWaiting, IsBusy, IsRested, IsPlaceOfSeat, KeepsPlace, GotTurn, TookBench, HasPublished, Looked};
ghost use Rattle.inverse_log.specs.declared.refusal.SeatRefusal.TheVariants.{SeatSpent};

use crate::boxed::BoxedBench;
use crate::lock::{Draw, Hall, Lock, Look, Named, PassOn, Place, Publish, Watch};
use inverse_log::{Call, Refusal, Reply, SeatRefusal};
use std::alloc::Global;
use std::marker::{Brand, Model};
use std::sync::{Arc, Wait};

/// The bench's answer, if it has answered. A value of this type has no bytes: each pass of a gate names the answer
/// for clauses only.
pub trait Told {
    ghost use Rattle.inverse_log.specs.declared.refusal.Refusal.{Refusal};
    ghost use Rattle.inverse_log.specs.declared.reply.Reply.{Reply};
    ghost use Rattle.std.specs.Prelude.{Option, Result};

    ghost answer: { Option (Result Reply Refusal) };
}

impl Told for Brand {
    ghost use Rattle.std.specs.Prelude.{None};

    ghost answer = { None };
}

// The bench has not answered yet.
struct Unanswered;

impl Told for Unanswered {
    ghost use Rattle.std.specs.Prelude.{None};

    ghost answer = { None };
}

/// A gate that a call passes while it has its turn. While a gate does not let its call pass, all later calls wait,
/// those of other seats too.
pub trait Gate {
    ghost use Rattle.inverse_log.specs.declared.refusal.Refusal.{Refusal};
    ghost use Rattle.inverse_log.specs.declared.reply.Reply.{Reply};
    ghost use Rattle.std.specs.Prelude.{List, None, ℕ, Option, Result, ⊤};

    // The steps that the gate has passed, in order, if its type records them.
    ghost passed: { Self → Option (List ℕ) } = { λ _. None };

    // Passing `step` changed the gate from `old` to `new`, and `answer` was the bench's answer then, if there was
    // one.
    ghost heard: { Self → Self → ℕ → Option (Result Reply Refusal) → Type 0 } = { λ old new step answer. ⊤ };

    /// Passes a step. Step 1 comes when the call has the turn. Step 2 comes after the bench has answered, and before
    /// the turn is passed on.
    fn pass<R: Wait, N: Told>(&mut self, rt: &R, step: u32)
        ensures passed { Appends (passed self.old) (passed self.new) (step ∷ []) }
        ensures heard { heard self.old self.new step N.answer };
}

// A gate that is always open.
#[derive(Clone, Copy)]
struct Open;

impl Gate for Open {
    fn pass<R: Wait, N: Told>(&mut self, _rt: &R, _step: u32) {}
}

// Passes step 2, with the answer that the caller has.
fn pass_answered<R: Wait, G: Gate, N: Told>(rt: &R, gate: &mut G, answered: &Result<Reply, Refusal>)
    requires { N.answer ≡ Some answered.now }
    ensures passed { Appends (G.passed gate.old) (G.passed gate.new) (2 ∷ []) }
    ensures heard { G.heard gate.old gate.new 2 (Some answered.now) }
{
    let _ = answered;
    gate.pass::<R, N>(rt, 2);
}

// Sleeps until it is the ticket's turn. The load that sees the turn also takes the bench.
fn watch<R: Wait>(rt: &R, hall: &Hall, place: &mut Place, ticket: u64)
    requires { (place.old.table_id ≡ hall.now.lock.shared.table_id) × IsSized place.old.table_id × IsWaiting ticket place.old.me }
    ensures { KeepsPlace place.old place.new (GotTurn ticket place.old.me place.new.me) }
{
    for _ in rt.forever() {
        if hall.lock.shared.load::<Watch>(place, 1) == ticket {
            return;
        }
        hall.bells.wait(rt, ticket);
    }
    unreachable!()
}

// Passes the door, draws a ticket, waits for the turn and takes the bench.
fn take_bench<R: Wait>(rt: &R, hall: &Hall, place: &mut Place) -> BoxedBench
    requires { (place.old.table_id ≡ hall.now.lock.shared.table_id) × IsSized place.old.table_id
        × IsResting place.old.me × (place.old.me.0.turns < turn_limit) }
    ensures { KeepsPlace place.old place.new (TookBench place.old.me result place.new.me) }
{
    hall.door.enter(rt);
    let ticket = hall.lock.shared.fetch_add::<Draw>(place, 0, 1);
    watch(rt, hall, place, ticket);
    hall.lock.shared.exchange(place, 0, None).unwrap()
}

// Adds 1 to FRONT, because the log is one entry longer than what the place has seen.
fn publish<N: Named>(lock: &Lock, place: &mut Place, bench: &BoxedBench)
    requires place { (place.old.table_id ≡ lock.now.shared.table_id) × IsSized place.old.table_id × IsBusy place.old.me }
    requires log { bench.now.log ≡ N.log }
    requires bench { IsLegal (mark_of place.old.me.0).start.trace bench.now.log
        × Grown (mark_of place.old.me.0).seen (mark_of place.old.me.0).number bench.now.log
        × (length (mark_of place.old.me.0).seen < length bench.now.log) }
    ensures { KeepsPlace place.old place.new (HasPublished place.old.me bench.now.log place.new.me) }
{
    let _ = bench.log_len();
    lock.shared.fetch_add::<Publish<N>>(place, 2, 1);
}

// Publishes a new log entry, if there is one, puts the bench back and passes the turn on. Then wakes the thread whose
// turn it is, and leaves the door.
fn give_back(hall: &Hall, place: &mut Place, bench: BoxedBench, before: u64)
    requires place { (place.old.table_id ≡ hall.now.lock.shared.table_id) × IsSized place.old.table_id × IsBusy place.old.me }
    requires bench { IsLegal (mark_of place.old.me.0).start.trace bench.log
        × Grown (mark_of place.old.me.0).seen (mark_of place.old.me.0).number bench.log
        × (bench.trace ≡ (mark_of place.old.me.0).start.trace) }
    requires before { before ≡ length (mark_of place.old.me.0).seen }
    ensures { KeepsPlace place.old place.new (IsRested place.old.me bench.log place.new.me) }
{
    if before < bench.log_len() {
        publish::<Brand>(&hall.lock, place, &bench);
    }
    drop(hall.lock.shared.exchange(place, 0, Some(bench)));
    let served = hall.lock.shared.fetch_add::<PassOn>(place, 1, 1);
    hall.bells.ring(served.wrapping_add(1));
    hall.door.leave();
}

// Reads FRONT with one load.
fn look(lock: &Lock, place: &mut Place) -> u64
    requires { (place.old.table_id ≡ lock.now.shared.table_id) × IsSized place.old.table_id × IsResting place.old.me }
    ensures { KeepsPlace place.old place.new (Looked place.old.me result place.new.me) }
{
    lock.shared.load::<Look>(place, 2)
}

/// A client's seat. The client's thread makes its calls on the shared bench through it.
#[derive(Drop)]
pub struct Seat {
    hall: Arc<Hall, Global>,
    place: Place,
    number: u32,
    turns: u32,
}

impl Model for Seat {
    ghost use Rattle.std.specs.Prelude.{◌≡◌};
    ghost use Rattle.std.specs.Arc.{arc_value};
    ghost use Rattle.workspace_lock.specs.Seating.{SeatView};
    ghost use Rattle.workspace_lock.specs.Places.{IsSeatOf, seat_view};

    ghost Value = { SeatView };

    ghost view = { λ s. seat_view s.place.table_id s.place.me };

    ghost invariant = { λ s. (s.place.table_id ≡ (arc_value s.hall).lock.shared.table_id) × IsSeatOf s.place.table_id s.place.me s.number s.turns };
}

impl Seat {
    /// Returns the client's number, 1 to 32.
    pub fn number(&self) -> u32
        ensures { result ≡ self.now.number }
    {
        self.number
    }

    // The index of the seat's row.
    pub(crate) fn row(&self) -> usize
        ensures { (result + 1 ≡ self.now.number) × (result < self.now.site.clients) }
    {
        self.number as usize - 1
    }

    /// Returns how many calls were made through this seat, at most 4,294,967,295. Calls that the bench refused count
    /// too.
    pub fn turns(&self) -> u32
        ensures { result ≡ self.now.turns }
    {
        self.turns
    }

    // A seat with a place that has made no call.
    pub(crate) fn at(hall: Arc<Hall, Global>, place: Place, number: u32) -> Seat
        requires lock { (place.table_id ≡ (arc_value hall).lock.shared.table_id) × IsSized place.table_id }
        requires number { (0 < number) × (number ≤ client_limit) × (number ≤ (mark_of place.me.0).clients) }
        requires place { (place.me ≡ (solo (mark_of place.me.0) 0 idle, [])) × ((mark_of place.me.0).number ≡ number) }
        ensures { result ≡ seat_view place.table_id place.me }
    {
        Seat {
            hall,
            place,
            number,
            turns: 0,
        }
    }

    // Takes the place out of the seat, for good.
    pub(crate) fn into_place(self) -> Place
        ensures { IsPlaceOfSeat self result }
    {
        let Seat {
            hall: _,
            place,
            number: _,
            turns: _,
        } = self;
        place
    }

    /// Waits for its turn, and makes the call with the seat's number. Fails with `SeatSpent` if the seat has made
    /// 4,294,967,295 calls. Never returns if an earlier call never passes its turn on.
    pub fn run<R: Wait>(&mut self, rt: &R, call: &Call) -> Result<Reply, SeatRefusal>
        ensures run { Ran self.old call.now result self.new }
        ensures seat { (self.new.site ≡ self.old.site) × (self.new.number ≡ self.old.number) }
    {
        self.run_gated(rt, call, &mut Open)
    }

    /// The same with a gate, which the call passes while it has the turn: step 1 before the call, step 2 after it.
    pub fn run_gated<R: Wait, G: Gate>(
        &mut self,
        rt: &R,
        call: &Call,
        gate: &mut G,
    ) -> Result<Reply, SeatRefusal>
        ensures run { Ran self.old call.now result self.new }
        ensures seat { (self.new.site ≡ self.old.site) × (self.new.number ≡ self.old.number) }
        // The gate has passed step 1 and then step 2, once each. If the seat is spent, the gate has passed nothing.
        ensures gate { Passes result (G.passed gate.old) (G.passed gate.new) }
        ensures spent { result ≡ Err SeatSpent → gate.new ≡ gate.old }
        // The call passes step 2 after the bench has answered, and with that answer.
        ensures heard { Hears G.heard result gate.old gate.new }
    {
        if self.turns == u32::MAX {
            return Err(SeatRefusal::SeatSpent);
        }
        let mut bench = take_bench(rt, &self.hall, &mut self.place);
        self.turns += 1;
        let before = bench.log_len();
        gate.pass::<R, Unanswered>(rt, 1);
        let answered = bench.call(self.number, call);
        pass_answered::<R, G, Brand>(rt, gate, &answered);
        give_back(&self.hall, &mut self.place, bench, before);
        match answered {
            Ok(reply) => Ok(reply),
            Err(refusal) => Err(SeatRefusal::Bench(refusal)),
        }
    }

    /// Returns the length of the log, read by one load. Waits for nobody.
    pub fn front(&mut self) -> u64
        ensures front { Fronted self.old result self.new }
        ensures seat { (self.new.site ≡ self.old.site) × (self.new.number ≡ self.old.number) }
    {
        look(&self.hall.lock, &mut self.place)
    }
}
