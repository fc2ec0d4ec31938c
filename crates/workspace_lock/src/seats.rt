//! All seats of a shared bench.
ghost use Rattle.std.specs.Prelude.{◌≡◌, ◌+◌, ◌*◌, ◌<◌, ◌≤◌, [], ◌++◌, length, true, false};
ghost use Rattle.std.specs.Prelude.{IfSome, IfNone, IfErr, IfOk, OnOk, MatchBool, vec_capacity};
ghost use Rattle.std.specs.Arc.{arc_value};
ghost use Rattle.dependence.specs.Limits.{client_limit};
ghost use Rattle.workspace_lock.specs.Seating.{AreAllIn, Closes, HasOneOut, IsFirstIn, IsIn, NoneIn, Opened, PutsBack, TakesFirst, fresh_rows, site_at};
ghost use Rattle.workspace_lock.specs.Counts.{IsBadCount};
ghost use Rattle.workspace_lock.specs.Places.{idle, mark_of, saw, solo, IsSized};
ghost use Rattle.workspace_lock.specs.Rows.{IsEnd, Gathers, GathersOn, JoinsSeat, marks_in, AllSeated, HasAll, dealt};

use crate::bells::Bells;
use crate::boxed::BoxedBench;
use crate::door::{BEST_ROOM, Door};
use crate::lock::{Deal, Draw, Finish, Gather, Hall, Lock, MAX_CLIENTS, Opening, Place};
use crate::seat::Seat;
use atomic_table::{Refused, Table};
use inverse_log::Bench;
use std::alloc::{AllocFailed, Global};
use std::marker::Model;
use std::snapshot::Snapshot;
use std::sync::Arc;

// Takes the bench out for good. The place has all marks, so its ticket has its turn at once.
fn finish(lock: &Lock, place: &mut Place) -> Bench
    requires place { (place.old.table_id ≡ lock.now.shared.table_id) × IsSized place.old.table_id × Gathers place.old.me }
    requires all { (0 < length place.old.me.0.marks) × (length place.old.me.0.marks ≡ lock.now.shared.key.clients) }
    ensures { IsEnd (mark_of place.old.me.0).start.trace place.old.me.0.marks result }
{
    lock.shared.fetch_add::<Draw>(place, 0, 1);
    lock.shared.load::<Finish>(place, 1);
    lock.shared.exchange(place, 0, None).unwrap().into_bench()
}

// Joins the seat's place to this place.
fn join_in(lock: &Lock, place: &mut Place, seat: Seat)
    requires place { (place.old.table_id ≡ lock.now.shared.table_id) × IsSized place.old.table_id × Gathers place.old.me }
    requires seat { seat.site.table ≡ lock.now.shared.table_id }
    ensures { JoinsSeat place.old seat place.new }
{
    let other = seat.into_place();
    lock.shared.join_seat::<Gather>(place, other);
}

// Joins the places of all seats to this place.
fn gather(lock: &Lock, place: &mut Place, mut rows: Vec<Option<Seat>>)
    requires place { (place.old.table_id ≡ lock.now.shared.table_id) × IsSized place.old.table_id × Gathers place.old.me }
    requires rows { AllSeated lock.now.shared.table_id rows.items }
    requires first { 0 < length place.old.me.0.marks }
    ensures place { GathersOn place.old place.new (mark_of place.new.me.0 ≡ mark_of place.old.me.0) }
    ensures count { length place.new.me.0.marks ≡ length place.old.me.0.marks + length rows.items }
    ensures marks { HasAll (place.old.me.0.marks ++ marks_in rows.items) place.new.me.0.marks }
{
    while let Some(row) = rows.pop() {
        let Some(seat) = row else { unreachable!() };
        join_in(lock, place, seat);
    }
}

/// All seats of a shared bench. The seats that are in have the order of their numbers.
#[derive(Drop)]
pub struct Seats {
    hall: Arc<Hall, Global>,
    rows: Vec<Option<Seat>>,
}

/// The reason why the seats were not closed.
#[derive(Clone, Copy, PartialEq, Eq)]
pub enum CloseRefusal {
    /// 74: a seat is out.
    NotAll,
    /// 75: out of memory. It is never returned, because closing needs no memory.
    OutOfMemory,
}

impl Model for Seats {
    ghost use Rattle.std.specs.Arc.{arc_value};
    ghost use Rattle.workspace_lock.specs.Seating.{SeatsView, site_at};
    ghost use Rattle.workspace_lock.specs.Rows.{IsSeatsView};

    ghost Value = { SeatsView };

    ghost view = { λ s. record {
      site = site_at (arc_value s.hall).lock.shared.table_id (arc_value s.hall).lock.shared.key.bench.value (arc_value s.hall).lock.shared.key.clients;
      rows = s.rows.items;
    } };

    ghost invariant = { λ s. IsSeatsView
        (site_at (arc_value s.hall).lock.shared.table_id (arc_value s.hall).lock.shared.key.bench.value (arc_value s.hall).lock.shared.key.clients)
        s.rows.items };
}

// The index of the first row that has a seat.
fn first_in(rows: &[Option<Seat>]) -> Option<usize>
    ensures some { IfSome result (IsFirstIn rows.now) }
    ensures none { IfNone result (NoneIn rows.now) }
{
    for (i, row) in rows.iter().enumerate() {
        if row.is_some() {
            return Some(i);
        }
    }
    None
}

// Whether a row has no seat.
fn is_one_out(rows: &[Option<Seat>]) -> bool
    ensures { MatchBool result (HasOneOut rows.now) (AreAllIn rows.now) }
{
    for row in rows {
        if row.is_none() {
            return true;
        }
    }
    false
}

impl Seats {
    /// Takes out the seat with the least number that is in. Returns None if all seats are out.
    pub fn take(&mut self) -> Option<Seat>
        ensures some { IfSome result (λ c. TakesFirst self.old c self.new) }
        ensures none { IfNone result ((self.new ≡ self.old) × NoneIn self.old.rows) }
    {
        let i = first_in(self.rows.as_slice())?;
        let row = &mut self.rows[i];
        row.take()
    }

    /// Takes a seat back. Returns it as the error if a seat with its number is in already.
    pub fn give(&mut self, seat: Seat) -> Result<(), Seat>
        requires { seat.site ≡ self.old.site }
        ensures ok { OnOk result (PutsBack self.old seat self.new) }
        ensures err { IfErr result (λ s. (s ≡ seat) × (self.new ≡ self.old) × IsIn self.old seat.number) }
    {
        let i = seat.row();
        let is_in = self.rows[i].is_some();
        if is_in {
            return Err(seat);
        }
        self.rows[i] = Some(seat);
        Ok(())
    }

    /// Returns the bench, if all seats are in. Otherwise returns the seats as part of the error. Needs no memory and
    /// waits for nobody.
    pub fn close(self) -> Result<Bench, (Seats, CloseRefusal)>
        ensures ok { IfOk result (λ b. Closes self b × AreAllIn self.rows) }
        ensures err { IfErr result (λ e. (e.0 ≡ self) × (e.1 ≡ CloseRefusal.NotAll) × HasOneOut self.rows) }
    {
        if is_one_out(self.rows.as_slice()) {
            return Err((self, CloseRefusal::NotAll));
        }
        let Seats { hall, mut rows } = self;
        let Some(Some(first)) = rows.pop() else {
            unreachable!()
        };
        let mut place = first.into_place();
        gather(&hall.lock, &mut place, rows);
        Ok(finish(&hall.lock, &mut place))
    }
}

/// The reason why a bench was not shared.
#[derive(Clone, Copy, PartialEq, Eq)]
pub enum OpenRefusal {
    /// 71: the number of clients is not from 1 to 32.
    BadCount,
    /// 72: out of memory.
    OutOfMemory,
}

// Makes a seat for each client from the first place, and uses that place up.
fn deal(
    hall: Arc<Hall, Global>,
    mut place: Place,
    mut rows: Vec<Option<Seat>>,
    clients: u32,
) -> Result<Seats, (Bench, OpenRefusal)>
    requires place { (place.table_id ≡ (arc_value hall).lock.shared.table_id) × IsSized place.table_id
        × (place.me ≡ dealt (arc_value hall).lock.shared.key.bench.value clients 0) }
    requires clients { (clients ≡ (arc_value hall).lock.shared.key.clients) × (0 < clients) × (clients ≤ client_limit) }
    requires rows { (rows.items ≡ []) × (clients ≤ vec_capacity rows) }
    ensures ok { IfOk result (λ s. Opened (arc_value hall).lock.shared.key.bench.value clients s) }
    ensures err { IfErr result (λ e. e.0 ≡ (arc_value hall).lock.shared.key.bench.value) }
    ensures memory { IfErr result (λ e. e.1 ≡ OpenRefusal.OutOfMemory) }
{
    for i in 0..clients {
        let Ok(own) = Arc::try_clone(&hall) else {
            gather(&hall.lock, &mut place, rows);
            return Err((finish(&hall.lock, &mut place), OpenRefusal::OutOfMemory));
        };
        let other = hall.lock.shared.split_seat::<Deal>(&mut place);
        rows.push_reserved(Some(Seat::at(own, other, i + 1)));
    }
    Ok(Seats { hall, rows })
}

// Puts the lock, its bells and its door where all seats can reach them.
fn share(
    alloc: Global,
    lock: Lock,
    mut place: Place,
    rows: Vec<Option<Seat>>,
    clients: u32,
    room: u32,
) -> Result<Seats, (Bench, OpenRefusal)>
    requires place { (place.table_id ≡ lock.shared.table_id) × IsSized place.table_id × (place.me ≡ dealt lock.shared.key.bench.value clients 0) }
    requires clients { (clients ≡ lock.shared.key.clients) × (0 < clients) × (clients ≤ client_limit) }
    requires rows { (rows.items ≡ []) × (clients ≤ vec_capacity rows) }
    ensures ok { IfOk result (λ s. Opened lock.shared.key.bench.value clients s) }
    ensures err { IfErr result (λ e. e.0 ≡ lock.shared.key.bench.value) }
    ensures memory { IfErr result (λ e. e.1 ≡ OpenRefusal.OutOfMemory) }
{
    let hall = Hall {
        lock,
        bells: Bells::new(),
        door: Door::new(room),
    };
    match Arc::new(alloc, hall) {
        Ok(shared) => deal(shared, place, rows, clients),
        Err(AllocFailed { value: hall }) => {
            Err((finish(&hall.lock, &mut place), OpenRefusal::OutOfMemory))
        }
    }
}

// Puts the bench into the lock's slot, and makes the seats.
fn open_boxed(
    alloc: Global,
    boxed: BoxedBench,
    clients: u32,
    room: u32,
) -> Result<Seats, (Bench, OpenRefusal)>
    requires { (0 < clients) × (clients ≤ client_limit) }
    ensures ok { IfOk result (λ s. Opened boxed clients s) }
    ensures err { IfErr result (λ e. e.0 ≡ boxed) }
    ensures memory { IfErr result (λ e. e.1 ≡ OpenRefusal.OutOfMemory) }
{
    let Ok(rows) = Vec::with_capacity(alloc, clients as usize) else {
        return Err((boxed.into_bench(), OpenRefusal::OutOfMemory));
    };
    let Ok(mut slots) = Vec::with_capacity(alloc, 1) else {
        return Err((boxed.into_bench(), OpenRefusal::OutOfMemory));
    };
    let opening = Opening {
        bench: Snapshot::of(&boxed),
        clients,
    };
    let length = boxed.log_len();
    slots.push_reserved(Some(boxed));
    match Table::new(alloc, &[0, 0, length], slots, &opening) {
        Ok((lock, place)) => share(alloc, lock, place, rows, clients, room),
        Err(Refused { mut slots }) => match slots.pop() {
            Some(Some(boxed)) => Err((boxed.into_bench(), OpenRefusal::OutOfMemory)),
            _ => unreachable!(),
        },
    }
}

/// Seats for the clients 1 to `clients`, each of which has seen the bench's log.
/// There may be 1 to 32 clients. If the call fails, it returns the bench as part of the error.
pub fn open(alloc: Global, bench: Bench, clients: u32) -> Result<Seats, (Bench, OpenRefusal)>
    ensures ok { IfOk result (λ s. (0 < clients) × (clients ≤ client_limit) × Opened bench clients s) }
    ensures err { IfErr result (λ e. e.0 ≡ bench) }
    // The error is `BadCount` exactly if the count is not from 1 to 32, and otherwise `OutOfMemory`.
    ensures count { IfErr result (λ e. IsBadCount clients e.1) }
{
    open_with_room(alloc, bench, clients, BEST_ROOM)
}

/// The same, with room for this many seats to queue for a turn at a time. With less room, threads change less often,
/// so a client makes more calls in a row. 0 counts as 1; with room for 32 there is no door. No answer depends on the
/// room.
pub fn open_with_room(
    alloc: Global,
    bench: Bench,
    clients: u32,
    room: u32,
) -> Result<Seats, (Bench, OpenRefusal)>
    ensures ok { IfOk result (λ s. (0 < clients) × (clients ≤ client_limit) × Opened bench clients s) }
    ensures err { IfErr result (λ e. e.0 ≡ bench) }
    ensures count { IfErr result (λ e. IsBadCount clients e.1) }
{
    if clients == 0 || clients > MAX_CLIENTS {
        return Err((bench, OpenRefusal::BadCount));
    }
    match BoxedBench::try_new(alloc, bench) {
        Ok(boxed) => open_boxed(alloc, boxed, clients, room),
        Err(bench) => Err((bench, OpenRefusal::OutOfMemory)),
    }
}
