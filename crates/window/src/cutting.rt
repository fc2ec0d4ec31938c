//! Cuts a window from a trace.
ghost use Rattle.std.specs.Prelude.{◌≡◌, ◌⊎◌, ◌+◌, ◌-◌, ◌^◌, ◌<◌, ◌≤◌, All, length, IfErr, IfOk, IfSome, None};
ghost use Rattle.rapid_text.specs.Recording.{IsNamed};
ghost use Rattle.window.specs.Cuts.{AreNamed, IsCut, IsCutAs, IsCutFault, IsEnd, last_end, back_in, prologue_of, prologue_size, window_text, window_text_at, with_name};

use crate::fault::CutFault;
use crate::lines::{append_begin, append_part, append_prologue};
use crate::naming::new_name;
use crate::prologue::prologue_in;
use rapid_text::{Event, MAX_EVENTS, OutOfMemory, RawTrace};
use std::alloc::Global;
use trace_rules::Trace;

/// A window of a trace.
#[derive(Drop)]
pub struct Window {
    /// The window's text: a complete trace.
    pub text: Vec<u8>,
    /// The number of the window's first event in the trace, counted from 0.
    pub from: u64,
    /// The number of the first event after the window in the trace.
    pub to: u64,
    /// The number of events in the prologue, which come before the window's own events.
    pub prologue: u64,
}

impl Window {
    /// The number in the trace of the event with this number in the window's text. None if it is an event of the
    /// prologue, or if the number does not fit in a u64.
    pub fn number_of(&self, event: u64) -> Option<u64>
        ensures some { IfSome result (λ number. (self.now.prologue ≤ event) × (number ≡ back_in self.now event)) }
        ensures none { result ≡ None → (event < self.now.prologue) ⊎ (2 ^ 64 ≤ back_in self.now event) }
    {
        if event < self.prologue {
            return None;
        }
        self.from.checked_add(event - self.prologue)
    }
}

// The end of the window at `from` with at most `most` events, and the events of its prologue.
fn end_of(
    alloc: Global,
    trace: &Trace,
    from: u32,
    most: u32,
) -> Result<(u32, Vec<Event>), OutOfMemory>
    requires from { from < length trace.now.events }
    requires most { 0 < most }
    ensures end { IfOk result (λ p. IsEnd trace.now from most p.0) }
    ensures within { IfOk result (λ p. p.0 ≤ length trace.now.events) }
    ensures events { IfOk result (λ p. p.1.items ≡ prologue_of trace.now from p.0) }
    ensures named { IfOk result (λ p. AreNamed trace.now p.1.items) }
    ensures size { IfOk result (λ p. length p.1.items ≡ prologue_size trace.now from p.0) }
{
    let len = trace.raw().len();
    let mut to = if most < len - from { from + most } else { len };
    'shorter: loop {
        let events = prologue_in(alloc, trace, from, to)?;
        if events.len() + (to - from) as usize <= MAX_EVENTS {
            return Ok((to, events));
        }
        to = from + (to - from) / 2;
    }
}

// The text of the window from `from` to `to`, whose prologue has these events.
fn text_of(
    alloc: Global,
    trace: &RawTrace,
    own: &[u8],
    from: u32,
    to: u32,
    events: &[Event],
) -> Result<Vec<u8>, OutOfMemory>
    requires from { from ≤ to }
    requires to { to ≤ length trace.now.events }
    requires events { events.now ≡ prologue_of trace.now from to }
    requires size { length events.now ≡ prologue_size trace.now from to }
    requires named { All (IsNamed (with_name trace.now own.now)) events.now }
    ensures { IfOk result (λ text. text.items ≡ window_text trace.now own.now from to) }
{
    let mut text = Vec::new(alloc);
    append_begin(&mut text, u64::from(from), u64::from(to), events.len())?;
    append_prologue(&mut text, trace, own, events)?;
    append_part(&mut text, trace, own, from, to)?;
    Ok(text)
}

// The same if event `from` has the number `number` in a longer trace.
fn text_at(
    alloc: Global,
    trace: &RawTrace,
    own: &[u8],
    number: u64,
    from: u32,
    to: u32,
    events: &[Event],
) -> Result<Vec<u8>, OutOfMemory>
    requires number { number < 1000000000000000000 }
    requires from { from ≤ to }
    requires to { to ≤ length trace.now.events }
    requires events { events.now ≡ prologue_of trace.now from to }
    requires size { length events.now ≡ prologue_size trace.now from to }
    requires named { All (IsNamed (with_name trace.now own.now)) events.now }
    ensures { IfOk result (λ text. text.items ≡ window_text_at trace.now own.now number from to) }
{
    let mut text = Vec::new(alloc);
    append_begin(
        &mut text,
        number,
        number + u64::from(to - from),
        events.len(),
    )?;
    append_prologue(&mut text, trace, own, events)?;
    append_part(&mut text, trace, own, from, to)?;
    Ok(text)
}

/// The window of the trace at event `from`, with at most `most` events, as a text. The text is a complete trace, and
/// its first line gives the window's numbers in the trace. The window has fewer events if it would be longer than a
/// trace may be.
pub fn cut(alloc: Global, trace: &Trace, from: u32, most: u32) -> Result<Vec<u8>, CutFault>
    requires { 0 < most }
    ensures ok { IfOk result (λ t. (from < length trace.now.events) × IsCut trace.now from most t.items) }
    ensures err { IfErr result (IsCutFault trace.now from) }
{
    if from >= trace.raw().len() {
        return Err(CutFault::NoSuchEvent);
    }
    let own = new_name(alloc, trace.raw())?;
    let (to, events) = end_of(alloc, trace, from, most)?;
    let text = text_of(
        alloc,
        trace.raw(),
        own.as_slice(),
        from,
        to,
        events.as_slice(),
    )?;
    Ok(text)
}

/// The same for a trace that represents a longer one, in which event `from` has the number `number`.
pub fn cut_at(
    alloc: Global,
    trace: &Trace,
    number: u64,
    from: u32,
    most: u32,
) -> Result<Window, CutFault>
    requires number { number < 1000000000000000000 }
    requires most { 0 < most }
    ensures ok { IfOk result (λ w. (from < length trace.now.events) × IsCutAs trace.now number from most w) }
    ensures err { IfErr result (IsCutFault trace.now from) }
{
    if from >= trace.raw().len() {
        return Err(CutFault::NoSuchEvent);
    }
    let own = new_name(alloc, trace.raw())?;
    let (to, events) = end_of(alloc, trace, from, most)?;
    let text = text_at(
        alloc,
        trace.raw(),
        own.as_slice(),
        number,
        from,
        to,
        events.as_slice(),
    )?;
    Ok(Window {
        text,
        from: number,
        to: number + u64::from(to - from),
        prologue: events.len() as u64,
    })
}
