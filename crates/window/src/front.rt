//! A trace of any length, as far as it has been read.
ghost use Rattle.std.specs.Prelude.{◌≡◌, ◌+◌, ◌-◌, ◌<◌, ◌≤◌, ◌++◌, ℕ, List, length, Ok, Err, IfOk, IfErr, OnOk, OnErr, IfSome, None};
ghost use Rattle.rapid_text.specs.Appended.{IfFound};
ghost use Rattle.rapid_text.specs.Limits.{event_limit};
ghost use Rattle.rapid_text.specs.Reading.{first_uses, reading_of, thread_uses};
ghost use Rattle.window.specs.Fronts.{IsFrontFault, IsHead, IsLongest, IsWindowAfter, KeepsOn};
ghost use Rattle.window.specs.HeadText.{all_of, head_text};
ghost use Rattle.window.specs.Heads.{IsReadAfter};
ghost use Rattle.window.specs.Streams.{IsKept, IsPast, IsPieceFault, IsWhole, Stands, feeds, held_size, nothing_read, said_in};

use crate::cutting::Window;
use crate::fault::FrontFault;
use crate::known::Known;
use crate::past::with_piece;
use crate::piece::{PieceFault, kept_size, piece, window_after};
use crate::whole::{is_whole, lines_in};
use boxcar::tag::Tag;
use rapid_text::{MAX_EVENTS, MAX_THREADS, OutOfMemory, RawTrace, parse};
use std::alloc::Global;
use std::marker::Model;
use trace_rules::Trace;

/// The number of events must be below this.
const MAX_NUMBER: u64 = 1_000_000_000_000_000_000;

/// A trace of any length, as far as it has been read: the numbers of events and lines, the names of its threads, and
/// the locks held. A clause sees the text that was read, and the summary of it that is kept.
#[derive(Drop)]
pub struct Front {
    // The text that was read. It takes no bytes.
    read: Tag,
    // The summary of that text.
    known: Known,
    // The numbers of events and lines read.
    pub(crate) number: u64,
    pub(crate) lines: u64,
}

/// A text that replaces what was read, and its number of events.
#[derive(Drop)]
pub(crate) struct Head {
    pub(crate) text: Vec<u8>,
    pub(crate) size: u32,
}

// The trace that such a text and a piece after it form, and the number of its events that come from the text.
#[derive(Drop)]
struct Next {
    trace: Trace,
    from: u32,
}

impl Model for Front {
    ghost use Rattle.window.specs.Heads.{past_of};
    ghost use Rattle.window.specs.Streams.{IsFront, Stream};

    ghost Value = { Stream };

    ghost view = { λ f. record { read = f.read.numbers; past = past_of f.known } };

    ghost invariant = { λ f. IsFront f.read.numbers (past_of f.known) f.known.holds f.number f.lines };
}

impl Front {
    /// Nothing has been read.
    pub fn begin(alloc: Global) -> Front
        ensures { result ≡ nothing_read }
    {
        Front {
            read: Tag::empty(),
            known: Known::begin(alloc),
            number: 0,
            lines: 0,
        }
    }

    /// The number of events read.
    pub fn number(&self) -> u64
        ensures { result ≡ length (said_in self.now.read) }
    {
        self.number
    }

    /// The number of lines read.
    pub fn lines(&self) -> u64
        ensures { result ≡ feeds self.now.read }
    {
        self.lines
    }

    /// At least this many events fit in the next piece. The text that replaces what was read has at most three events
    /// for each thread, and an acquire for each hold.
    pub fn room(&self) -> u32
        ensures { result ≡ event_limit - (768 + held_size self.now) }
    {
        MAX_EVENTS
            .saturating_sub(3 * MAX_THREADS)
            .saturating_sub(self.known.holds) as u32
    }

    /// What was read keeps the rules, and its summary is right.
    pub fn stands(&self)
        ensures { IsPast self.now.read self.now.past }
    {
        let _ = &self.known;
    }

    /// The number of threads that have an event in what was read, or are forked or joined there.
    pub fn threads(&self, alloc: Global) -> Result<usize, OutOfMemory>
        ensures { IfOk result (λ count. count ≡ length (first_uses (thread_uses (said_in self.now.read)))) }
    {
        let all = self.known.threads(alloc)?;
        Ok(all.len())
    }

    /// The window of the next events after what was read, at most `most` events. `more` begins with these, and has only
    /// whole lines.
    pub fn window(&self, alloc: Global, more: &[u8], most: u32) -> Result<Window, FrontFault>
        requires { 0 < most }
        ensures from { IfOk result (λ w. w.from ≡ length (said_in self.now.read)) }
        ensures most { IfOk result (λ w. (w.from < w.to) × (w.to ≤ w.from + most)) }
        // It has `most` events, or all those of `more` if they are fewer. It has fewer only if a window with twice as
        // many events as this one would be longer than a trace may be.
        ensures to { IfOk result (IsLongest self.now.read more.now most) }
        // What was read and all of `more` keep the rules, and none of their lines is refused.
        ensures kept { IfOk result (λ w. KeepsOn self.now.read more.now) }
        // No matter what comes later, this is a window of the whole trace.
        ensures window { IfOk result (IsWindowAfter self.now.read more.now) }
        ensures fault { IfErr result (IsFrontFault self.now more.now) }
    {
        if !is_whole(more) {
            return Err(FrontFault::Unended);
        }
        if let Some(window) = self.quick_window(alloc, more, most)? {
            return Ok(window);
        }
        let head = self.head(alloc, more)?;
        match self.window_behind(alloc, &head, more, most) {
            Ok(window) => Ok(window),
            Err(fault) => Err(self.told(&head, more, fault)),
        }
    }

    /// Reads these whole lines. If they are refused, or break a rule, nothing changes.
    pub fn go_on(&mut self, alloc: Global, more: &[u8]) -> Result<(), FrontFault>
        ensures ok { OnOk result (self.new.read ≡ self.old.read ++ more.now) }
        ensures err { OnErr result (self.new ≡ self.old) }
        ensures fault { IfErr result (IsFrontFault self.old more.now) }
    {
        match self.read_on(alloc, more) {
            Ok(next) => self.take_in(alloc, more, &next),
            Err(fault) => Err(fault),
        }
    }

    // A text that replaces what was read, before this piece.
    fn head(&self, alloc: Global, more: &[u8]) -> Result<Head, FrontFault>
        ensures stands { IfOk result (λ head. Stands self.now.read head.text.items more.now) }
        ensures kept { IfOk result (λ head. IsKept head.text.items) }
        ensures size { IfOk result (λ head. head.size ≡ length (said_in head.text.items)) }
        ensures is { IfOk result (λ head. IsHead self.now more.now head.text.items) }
        ensures fault { IfErr result (IsFrontFault self.now more.now) }
    {
        let raw = match parse(alloc, more) {
            Ok(raw) => raw,
            Err(refusal) => return Err(self.told_line(more, refusal)),
        };
        let text = self.head_of(alloc, more, &raw)?;
        match kept_size(alloc, text.as_slice())? {
            Some(size) => Ok(Head { text, size }),
            None => Err(self.unkept(alloc, text.as_slice(), more)),
        }
    }

    // The same for all threads, before any piece; None if there are too many threads.
    fn whole_head(&self, alloc: Global) -> Result<Option<Head>, OutOfMemory>
        ensures stands { IfFound result (λ h. (more : List ℕ) → Stands self.now.read h.text.items more) }
        ensures size { IfFound result (λ h. h.size ≡ length (said_in h.text.items)) }
    {
        if self.known.is_wide() {
            return Ok(None);
        }
        let text = self.known.whole_head(alloc)?;
        match kept_size(alloc, text.as_slice())? {
            Some(size) => Ok(Some(Head { text, size })),
            None => Ok(None),
        }
    }

    // The window, if the piece can be read after a head with all threads. This reads the piece only once.
    fn quick_window(
        &self,
        alloc: Global,
        more: &[u8],
        most: u32,
    ) -> Result<Option<Window>, OutOfMemory>
        requires whole { IsWhole more.now }
        requires most { 0 < most }
        ensures from { IfFound result (λ w. w.from ≡ length (said_in self.now.read)) }
        ensures most { IfFound result (λ w. (w.from < w.to) × (w.to ≤ w.from + most)) }
        ensures to { IfFound result (IsLongest self.now.read more.now most) }
        ensures kept { IfFound result (λ w. KeepsOn self.now.read more.now) }
        ensures window { IfFound result (IsWindowAfter self.now.read more.now) }
    {
        let Some(head) = self.whole_head(alloc)? else {
            return Ok(None);
        };
        match self.window_behind(alloc, &head, more, most) {
            Ok(window) => Ok(Some(window)),
            Err(_) => Ok(None),
        }
    }

    // The window of the piece after this head.
    fn window_behind(
        &self,
        alloc: Global,
        head: &Head,
        more: &[u8],
        most: u32,
    ) -> Result<Window, PieceFault>
        requires whole { IsWhole more.now }
        requires most { 0 < most }
        requires stands { Stands self.now.read head.now.text.items more.now }
        requires size { head.now.size ≡ length (said_in head.now.text.items) }
        ensures from { IfOk result (λ w. w.from ≡ length (said_in self.now.read)) }
        ensures most { IfOk result (λ w. (w.from < w.to) × (w.to ≤ w.from + most)) }
        ensures to { IfOk result (IsLongest self.now.read more.now most) }
        ensures kept { IfOk result (λ w. KeepsOn self.now.read more.now) }
        ensures window { IfOk result (IsWindowAfter self.now.read more.now) }
        ensures err { IfErr result (IsPieceFault (head.now.text.items ++ more.now) head.now.size) }
    {
        let text = head.text.as_slice();
        window_after(alloc, text, head.size, more, self.number, most)
    }

    // The trace of the piece, if it can be read after a head with all threads.
    fn quick_next(&self, alloc: Global, more: &[u8]) -> Result<Option<Next>, OutOfMemory>
        ensures { IfFound result (λ next. IsReadAfter self.now.read more.now next.trace next.from) }
    {
        let Some(head) = self.whole_head(alloc)? else {
            return Ok(None);
        };
        match self.next(alloc, &head, more) {
            Ok(next) => Ok(Some(next)),
            Err(_) => Ok(None),
        }
    }

    // The trace of the piece after this head.
    fn next(&self, alloc: Global, head: &Head, more: &[u8]) -> Result<Next, PieceFault>
        requires stands { Stands self.now.read head.now.text.items more.now }
        requires size { head.now.size ≡ length (said_in head.now.text.items) }
        ensures ok { IfOk result (λ next. IsReadAfter self.now.read more.now next.trace next.from) }
        ensures err { IfErr result (IsPieceFault (head.now.text.items ++ more.now) head.now.size) }
    {
        match piece(alloc, head.text.as_slice(), more) {
            Ok(trace) => Ok(Next {
                trace,
                from: head.size,
            }),
            Err(fault) => Err(fault),
        }
    }

    // The text of such a head, which may not be readable as a trace.
    fn head_of(&self, alloc: Global, more: &[u8], raw: &RawTrace) -> Result<Vec<u8>, OutOfMemory>
        requires { reading_of more.now ≡ Ok raw.now }
        ensures stands { IfOk result (λ text. Stands self.now.read text.items more.now) }
        ensures is { IfOk result (λ text. text.items ≡ head_text self.now.past (all_of raw.now.threads)) }
    {
        let text = self.known.head(alloc, raw)?;
        Ok(text)
    }

    // The trace of the lines in `more`.
    fn read_on(&self, alloc: Global, more: &[u8]) -> Result<Next, FrontFault>
        ensures whole { IfOk result (λ next. IsWhole more.now) }
        ensures ok { IfOk result (λ next. IsReadAfter self.now.read more.now next.trace next.from) }
        ensures fault { IfErr result (IsFrontFault self.now more.now) }
    {
        if !is_whole(more) {
            return Err(FrontFault::Unended);
        }
        if let Some(next) = self.quick_next(alloc, more)? {
            return Ok(next);
        }
        let head = self.head(alloc, more)?;
        match self.next(alloc, &head, more) {
            Ok(next) => Ok(next),
            Err(fault) => Err(self.told(&head, more, fault)),
        }
    }

    // Updates the summary for these lines. If they cannot be counted, or memory runs out, nothing changes.
    fn take_in(&mut self, alloc: Global, more: &[u8], next: &Next) -> Result<(), FrontFault>
        requires whole { IsWhole more.now }
        requires next { IsReadAfter self.old.read more.now next.now.trace next.now.from }
        ensures ok { OnOk result (self.new.read ≡ self.old.read ++ more.now) }
        ensures err { OnErr result (self.new ≡ self.old) }
        ensures fault { IfErr result (IsFrontFault self.old more.now) }
    {
        let events = next.trace.raw().len() - next.from;
        let Some(number) = counted(self.number, events) else {
            return Err(FrontFault::TooLong);
        };
        let Some(lines) = self.lines.checked_add(lines_in(more)) else {
            return Err(FrontFault::TooLong);
        };
        self.known.go_on(alloc, &next.trace, next.from)?;
        self.read = with_piece(&self.read, more);
        self.number = number;
        self.lines = lines;
        Ok(())
    }
}

// The sum of both, if it is below the limit.
fn counted(number: u64, events: u32) -> Option<u64>
    ensures some { IfSome result (λ sum. (sum ≡ number + events) × (sum < 1000000000000000000)) }
    ensures none { result ≡ None → 1000000000000000000 ≤ number + events }
{
    let sum = number.checked_add(u64::from(events))?;
    (sum < MAX_NUMBER).then_some(sum)
}
