//! Makes the rows of counts in one pass over the events.
ghost use Rattle.std.specs.Prelude.{◌≡◌, ◌↔◌, ◌+◌, ◌<◌, ◌≤◌, length, IfOk, OnOk, IfSome, IsTrue, true, false, None};
ghost use Rattle.rapid_text.specs.Recording.{IsWellFormed};
ghost use Rattle.trace_rules.specs.Rules.{IsDisciplined};
ghost use Rattle.shb_clocks.specs.SharedRows.{len_of, rows_in, thread_of};
ghost use Rattle.must_order.specs.Joins.{AreJoinsOf, AreAllJoins, AreLed};
ghost use Rattle.must_order.specs.Layout.{IsRow, IsBegun, IsClosed, IsFresh, LearnsNothing, source_of, row_in, AreCountsOf, AreAllThreads, IsAlike, IsCopied, IsRaised};
ghost use Rattle.must_order.specs.Sections.{AreSections, IsOwed};

use crate::joins::Joins;
use crate::sections::Sections;
use event_index::Indexed;
use rapid_text::{Op, OutOfMemory};
use shb_clocks::SharedRows;
use std::alloc::Global;

/// The thread of each event.
pub(crate) fn threads_of(alloc: Global, indexed: &Indexed) -> Result<Vec<u32>, OutOfMemory>
    ensures threads { IfOk result (λ threads. AreAllThreads indexed.now.events threads.items) }
    ensures well_formed { IsWellFormed indexed.now }
    ensures disciplined { IsDisciplined indexed.now.events }
{
    let raw = indexed.trace().raw();
    let mut threads = Vec::with_capacity(alloc, raw.len() as usize)?;
    for event in 0..raw.len() {
        threads.push(raw.event(event).thread)?;
    }
    Ok(threads)
}

/// The counts of each event, the joins that made them, and the acquires that begin sections.
#[derive(Drop)]
pub(crate) struct Rows {
    pub(crate) counts: SharedRows,
    pub(crate) joins: Joins,
    pub(crate) sections: Sections,
}

/// The rows of all events. Fails if memory runs out.
pub(crate) fn rows_of(alloc: Global, indexed: &Indexed) -> Result<Rows, OutOfMemory>
    ensures width { IfOk result (λ rows. rows.counts.width ≡ length indexed.now.threads) }
    ensures len { IfOk result (λ rows. len_of rows.counts ≡ length indexed.now.events) }
    ensures counts { IfOk result (λ rows. AreCountsOf indexed.now rows.counts) }
    ensures joins { IfOk result (λ rows. AreAllJoins indexed.now.events rows.joins) }
    ensures known { IfOk result (λ rows. AreSections indexed.now (length indexed.now.events) rows.sections) }
{
    let mut rows = Rows::new(alloc, indexed)?;
    match rows.add_all(alloc, indexed) {
        Ok(()) => Ok(rows),
        Err(refused) => Err(refused),
    }
}

impl Rows {
    // The state before the first event.
    fn new(alloc: Global, indexed: &Indexed) -> Result<Rows, OutOfMemory>
        ensures width { IfOk result (λ rows. rows.counts.width ≡ length indexed.now.threads) }
        ensures len { IfOk result (λ rows. len_of rows.counts ≡ 0) }
        ensures few { IfOk result (λ rows. rows_in rows.counts ≡ 0) }
        ensures joins { IfOk result (λ rows. AreJoinsOf indexed.now.events 0 rows.joins) }
        ensures known { IfOk result (λ rows. AreSections indexed.now 0 rows.sections) }
    {
        Ok(Rows {
            counts: SharedRows::new(alloc, indexed.threads(), indexed.len())?,
            joins: Joins::new(alloc, indexed)?,
            sections: Sections::new(alloc, indexed)?,
        })
    }

    // Adds all events.
    fn add_all(&mut self, alloc: Global, indexed: &Indexed) -> Result<(), OutOfMemory>
        requires width { self.old.counts.width ≡ length indexed.now.threads }
        requires len { len_of self.old.counts ≡ 0 }
        requires few { rows_in self.old.counts ≡ 0 }
        requires joins { AreJoinsOf indexed.now.events 0 self.old.joins }
        requires known { AreSections indexed.now 0 self.old.sections }
        ensures width { OnOk result (self.new.counts.width ≡ length indexed.now.threads) }
        ensures len { OnOk result (len_of self.new.counts ≡ length indexed.now.events) }
        ensures counts { OnOk result (AreCountsOf indexed.now self.new.counts) }
        ensures joins { OnOk result (AreAllJoins indexed.now.events self.new.joins) }
        ensures known { OnOk result (AreSections indexed.now (length indexed.now.events) self.new.sections) }
    {
        let mut row = Vec::new(alloc);
        let mut spare = Vec::new(alloc);
        self.add_by(indexed, &mut row, &mut spare)
    }

    // The same with two scratch rows that the caller owns. A loop that owned them would have to prove each exit's
    // drops.
    fn add_by(
        &mut self,
        indexed: &Indexed,
        row: &mut Vec<u32>,
        spare: &mut Vec<u32>,
    ) -> Result<(), OutOfMemory>
        requires width { self.old.counts.width ≡ length indexed.now.threads }
        requires len { len_of self.old.counts ≡ 0 }
        requires few { rows_in self.old.counts ≡ 0 }
        requires joins { AreJoinsOf indexed.now.events 0 self.old.joins }
        requires known { AreSections indexed.now 0 self.old.sections }
        ensures width { OnOk result (self.new.counts.width ≡ length indexed.now.threads) }
        ensures len { OnOk result (len_of self.new.counts ≡ length indexed.now.events) }
        ensures counts { OnOk result (AreCountsOf indexed.now self.new.counts) }
        ensures joins { OnOk result (AreAllJoins indexed.now.events self.new.joins) }
        ensures known { OnOk result (AreSections indexed.now (length indexed.now.events) self.new.sections) }
    {
        row.resize(indexed.threads() as usize, 0)?;
        spare.resize(indexed.threads() as usize, 0)?;
        for event in 0..indexed.len() {
            begin_row(row, &self.counts, indexed, event);
            close_row(
                row,
                &mut self.joins,
                &self.counts,
                indexed,
                event,
                &self.sections,
            )?;
            self.joins.end(indexed, event)?;
            keep_row(&mut self.counts, spare, indexed, event, row.as_slice())?;
            self.sections.note(indexed, event)?;
        }
        Ok(())
    }
}

// Gives the event its row. It shares the row of its base if both are of one thread and have the same counts of the
// other threads. Otherwise it begins a row. `spare` is scratch space for a row.
fn keep_row(
    counts: &mut SharedRows,
    spare: &mut Vec<u32>,
    indexed: &Indexed,
    event: u32,
    row: &[u32],
) -> Result<(), OutOfMemory>
    requires event { event < length indexed.now.events }
    requires width { counts.old.width ≡ length indexed.now.threads }
    requires len { len_of counts.old ≡ event }
    requires few { rows_in counts.old ≤ event }
    requires counts { AreCountsOf indexed.now counts.old }
    requires spare { length spare.old.items ≡ length indexed.now.threads }
    requires wide { length row.now ≡ length indexed.now.threads }
    requires row { IsRow indexed.now.events event row.now }
    ensures spare { length spare.new.items ≡ length indexed.now.threads }
    ensures width { OnOk result (counts.new.width ≡ length indexed.now.threads) }
    ensures len { OnOk result (len_of counts.new ≡ event + 1) }
    ensures few { OnOk result (rows_in counts.new ≤ event + 1) }
    ensures counts { OnOk result (AreCountsOf indexed.now counts.new) }
{
    let thread = indexed.event(event).thread;
    let own = row[thread as usize];
    match alike_base(counts, spare, row, thread, indexed.base(event)) {
        Some(base) => counts.share(base, own)?,
        None => counts.begin(thread, own, row)?,
    }
    Ok(())
}

// The base, if it is of the thread and has the row's counts of the other threads; otherwise None.
fn alike_base(
    counts: &SharedRows,
    spare: &mut Vec<u32>,
    row: &[u32],
    thread: u32,
    base: Option<u32>,
) -> Option<u32>
    requires spare { length spare.old.items ≡ counts.now.width }
    requires wide { length row.now ≡ counts.now.width }
    requires thread { thread < counts.now.width }
    requires base { IfSome base (λ b. b < len_of counts.now) }
    ensures spare { length spare.new.items ≡ length spare.old.items }
    ensures within { IfSome result (λ b. b < len_of counts.now) }
    ensures thread { IfSome result (λ b. thread_of counts.now b ≡ thread) }
    ensures alike { IfSome result (IsAlike counts.now row.now thread) }
{
    let Some(base) = base else {
        return None;
    };
    if counts.thread(base) != thread {
        return None;
    }
    if are_alike(counts, spare, row, thread, base) {
        Some(base)
    } else {
        None
    }
}

// Whether the event has the row's counts of all threads except its own.
fn are_alike(
    counts: &SharedRows,
    spare: &mut Vec<u32>,
    row: &[u32],
    thread: u32,
    event: u32,
) -> bool
    requires spare { length spare.old.items ≡ counts.now.width }
    requires wide { length row.now ≡ counts.now.width }
    requires thread { thread < counts.now.width }
    requires event { event < len_of counts.now }
    ensures spare { length spare.new.items ≡ length spare.old.items }
    ensures alike { result ≡ true → IsAlike counts.now row.now thread event }
{
    counts.copy(event, spare);
    spare[thread as usize] = row[thread as usize];
    are_equal(spare.as_slice(), row)
}

fn are_equal(one: &[u32], other: &[u32]) -> bool
    ensures { IsTrue result ↔ (one.now ≡ other.now) }
{
    one == other
}

/// The last event that comes before this one because of what this one does, or None (`specs/Layout.antt`).
pub(crate) fn source_at(indexed: &Indexed, event: u32) -> Option<u32>
    requires event { event < length indexed.now.events }
    ensures source { result ≡ source_of indexed.now.events event }
    ensures within { IfSome result (λ s. s < length indexed.now.events) }
    ensures rules { IsDisciplined indexed.now.events }
{
    match indexed.event(event).op {
        Op::Read(_) => indexed.last_writer(event),
        Op::Join(thread) => {
            let last = indexed.thread_events(thread).last().copied();
            last.or(indexed.fork_of(thread))
        }
        Op::Acquire(_) => None,
        Op::Release(_) => None,
        Op::Write(_) => None,
        Op::Fork(_) => None,
    }
}

// Begins the row of the event. For its own thread it counts all events up to it. For another it has the larger of the
// counts of its base and its source.
fn begin_row(row: &mut Vec<u32>, counts: &SharedRows, indexed: &Indexed, event: u32)
    requires event { event < length indexed.now.events }
    requires row { length row.old.items ≡ length indexed.now.threads }
    requires width { counts.now.width ≡ length indexed.now.threads }
    requires len { len_of counts.now ≡ event }
    requires counts { AreCountsOf indexed.now counts.now }
    ensures len { length row.new.items ≡ length indexed.now.threads }
    ensures begun { IsBegun indexed.now.events event (row_in row.new.items) }
    ensures fresh { IsFresh indexed.now.events event (row_in row.new.items) }
{
    let own = indexed.event(event).thread as usize;
    copy_row(row, counts, indexed.base(event));
    raise_row(row, counts, source_at(indexed, event));
    row[own] = indexed.place(event) + 1;
}

// Joins the rows of the ends of the sections that have to end before the event.
fn close_row(
    row: &mut Vec<u32>,
    joins: &mut Joins,
    counts: &SharedRows,
    indexed: &Indexed,
    event: u32,
    sections: &Sections,
) -> Result<(), OutOfMemory>
    requires rules { IsDisciplined indexed.now.events }
    requires well_formed { IsWellFormed indexed.now }
    requires event { event < length indexed.now.events }
    requires row { length row.old.items ≡ length indexed.now.threads }
    requires width { counts.now.width ≡ length indexed.now.threads }
    requires len { len_of counts.now ≡ event }
    requires counts { AreCountsOf indexed.now counts.now }
    requires begun { IsBegun indexed.now.events event (row_in row.old.items) }
    requires fresh { IsFresh indexed.now.events event (row_in row.old.items) }
    requires known { AreSections indexed.now event sections.now }
    requires joins { AreJoinsOf indexed.now.events event joins.old }
    ensures len { OnOk result (length row.new.items ≡ length indexed.now.threads) }
    ensures row { OnOk result (IsRow indexed.now.events event row.new.items) }
    ensures joins { OnOk result (AreJoinsOf indexed.now.events event joins.new) }
    ensures led { OnOk result (AreLed indexed.now.events joins.new event) }
{
    let mut owed = first_owed(row.as_slice(), indexed, event, sections);
    while let Some(section) = owed {
        joins.add(indexed, event, section.0, section.1)?;
        raise_row(row, counts, Some(section.1));
        owed = sections.owed(indexed, row.as_slice(), event);
    }
    Ok(())
}

// The same as `Sections::owed` for a row that was just begun. Only what the event learns can be missing there.
fn first_owed(row: &[u32], indexed: &Indexed, event: u32, sections: &Sections) -> Option<(u32, u32)>
    requires rules { IsDisciplined indexed.now.events }
    requires event { event < length indexed.now.events }
    requires row { length row.now ≡ length indexed.now.threads }
    requires begun { IsBegun indexed.now.events event (row_in row.now) }
    requires fresh { IsFresh indexed.now.events event (row_in row.now) }
    requires known { AreSections indexed.now event sections.now }
    ensures owed { IfSome result (IsOwed indexed.now.events event (row_in row.now)) }
    ensures earlier { IfSome result (λ owed. owed.1 < event) }
    ensures none { result ≡ None → IsClosed indexed.now.events event (row_in row.now) }
{
    if learns(indexed, event) {
        return sections.owed(indexed, row, event);
    }
    sections.owed_at(indexed, row, event)
}

// Whether the event has a source in another thread. If not, only the lock that it acquires can require more than its
// base did.
fn learns(indexed: &Indexed, event: u32) -> bool
    requires event { event < length indexed.now.events }
    ensures { result ≡ false → LearnsNothing indexed.now.events event }
{
    match source_at(indexed, event) {
        None => false,
        Some(source) => indexed.event(source).thread != indexed.event(event).thread,
    }
}

// Sets the row to the counts of the event; to zeros if there is no event.
fn copy_row(row: &mut Vec<u32>, counts: &SharedRows, event: Option<u32>)
    requires width { length row.old.items ≡ counts.now.width }
    requires within { IfSome event (λ e. e < len_of counts.now) }
    ensures len { length row.new.items ≡ length row.old.items }
    ensures counts { IsCopied counts.now event row.old.items row.new.items }
{
    match event {
        None => row.fill(0),
        Some(event) => counts.copy(event, row),
    }
}

// Raises each count of the row to the event's count, if that is larger.
fn raise_row(row: &mut Vec<u32>, counts: &SharedRows, event: Option<u32>)
    requires width { length row.old.items ≡ counts.now.width }
    requires within { IfSome event (λ e. e < len_of counts.now) }
    ensures len { length row.new.items ≡ length row.old.items }
    ensures counts { IsRaised counts.now event row.old.items row.new.items }
{
    if let Some(event) = event {
        counts.raise(event, row);
    }
}
