//! Windows of a trace of any length, which is read in pieces.
ghost use Rattle.std.specs.Prelude.{◌≡◌, ◌+◌, ◌<◌, ◌≤◌, ◌++◌, ℕ, length, true, None, Ok, IfOk, IfErr};
ghost use Rattle.rapid_text.specs.Appended.{IfFound};
ghost use Rattle.rapid_text.specs.Reading.{reading_of};
ghost use Rattle.trace_rules.specs.Rules.{IsDisciplined};
ghost use Rattle.window.specs.Fronts.{HasTooManyThreads, IsLongestBy, IsOver, IsWindowBehind};
ghost use Rattle.window.specs.Streams.{IsKept, IsPieceFault, IsRuleFault, IsWhole, said_in};

use crate::cutting::{Window, cut_at};
use crate::fault::CutFault;
use rapid_text::{OutOfMemory, RawTrace, TextCause, TextRefusal, parse};
use std::alloc::Global;
use trace_rules::{RuleCause, RuleRefusal, Trace, check};

/// Why no window is made of a piece of a trace.
#[derive(Clone, Copy)]
pub(crate) enum PieceFault {
    /// A line is refused. Lines are counted from the first line of the head.
    Text(TextRefusal),
    /// An event breaks a rule. Events are counted from the first event of the head.
    Rule(RuleRefusal),
    /// The piece has no event.
    NoSuchEvent,
    /// The piece uses every name that the prologue's variable could have.
    NoName,
    /// Out of memory.
    OutOfMemory,
}

impl From<OutOfMemory> for PieceFault {
    ghost use Rattle.std.specs.Prelude.{◌≡◌};
    ghost use Rattle.window.specs.declared.piece.PieceFault.TheVariants.{OutOfMemory as NoMemory};

    ghost from_gives = { λ _ fault. fault ≡ NoMemory };

    fn from(_error: OutOfMemory) -> PieceFault {
        PieceFault::OutOfMemory
    }
}

// Both texts, one after the other.
fn joined(alloc: Global, front: &[u8], more: &[u8]) -> Result<Vec<u8>, OutOfMemory>
    ensures { IfOk result (λ text. text.items ≡ front.now ++ more.now) }
{
    let mut text = Vec::from_slice(alloc, front)?;
    text.extend_from_slice(more)?;
    Ok(text)
}

// Checks the trace against the rules.
fn checked(alloc: Global, raw: RawTrace) -> Result<Trace, PieceFault>
    ensures ok { IfOk result (λ trace. trace ≡ raw) }
    ensures err { IfErr result (IsRuleFault raw) }
{
    match check(alloc, raw) {
        Ok(trace) => Ok(trace),
        Err((raw, why)) => {
            drop(raw);
            Err(PieceFault::Rule(why))
        }
    }
}

// The number of events of the trace, if it keeps the rules.
fn ruled_size(alloc: Global, raw: RawTrace) -> Result<Option<u32>, OutOfMemory>
    ensures ruled { IfFound result (λ n. IsDisciplined raw.events × (n ≡ length raw.events)) }
    ensures unruled { result ≡ Ok None → ¬ IsDisciplined raw.events }
{
    match check(alloc, raw) {
        Ok(trace) => Ok(Some(trace.raw().len())),
        Err((raw, refusal)) => {
            drop(raw);
            if refusal.why == RuleCause::OutOfMemory {
                return Err(OutOfMemory);
            }
            Ok(None)
        }
    }
}

/// The number of events of the text, if it is a trace that keeps the rules.
pub(crate) fn kept_size(alloc: Global, text: &[u8]) -> Result<Option<u32>, OutOfMemory>
    ensures kept { IfFound result (λ n. IsKept text.now × (n ≡ length (said_in text.now))) }
    ensures unkept { result ≡ Ok None → ¬ IsKept text.now }
{
    match parse(alloc, text) {
        Ok(raw) => match ruled_size(alloc, raw)? {
            Some(size) => Ok(Some(size)),
            None => Ok(None),
        },
        Err(refusal) => {
            if refusal.line == 0 {
                return Err(OutOfMemory);
            }
            Ok(None)
        }
    }
}

/// Whether the text has more threads than a trace may have.
pub(crate) fn is_too_wide(alloc: Global, text: &[u8]) -> Result<bool, OutOfMemory>
    ensures { result ≡ Ok true → HasTooManyThreads text.now }
{
    match parse(alloc, text) {
        Ok(_) => Ok(false),
        Err(refusal) => {
            if refusal.line == 0 {
                return Err(OutOfMemory);
            }
            Ok(refusal.why == TextCause::TooManyNames)
        }
    }
}

/// The trace that the head and the piece after it form.
pub(crate) fn piece(alloc: Global, head: &[u8], more: &[u8]) -> Result<Trace, PieceFault>
    ensures ok { IfOk result (λ trace. reading_of (head.now ++ more.now) ≡ Ok trace) }
    ensures err { IfErr result (λ fault. (size : ℕ) → IsPieceFault (head.now ++ more.now) size fault) }
{
    match parse(alloc, joined(alloc, head, more)?.as_slice()) {
        Ok(raw) => checked(alloc, raw),
        Err(why) => Err(PieceFault::Text(why)),
    }
}

/// The window after a head with `size` events, with at most `most` events of the piece. Its first line says that it
/// begins at event `number`.
pub(crate) fn window_after(
    alloc: Global,
    head: &[u8],
    size: u32,
    more: &[u8],
    number: u64,
    most: u32,
) -> Result<Window, PieceFault>
    requires whole { IsWhole head.now }
    requires size { size ≡ length (said_in head.now) }
    requires number { number < 1000000000000000000 }
    requires most { 0 < most }
    ensures from { IfOk result (λ w. (w.from ≡ number) × (number < w.to) × (w.to ≤ number + most)) }
    // No matter what the head replaces and what comes later, this is a window of the whole trace.
    ensures window { IfOk result (IsWindowBehind head.now more.now number) }
    // It has all requested events, if they fit, and no line breaks a rule.
    ensures longest { IfOk result (IsLongestBy (IsOver head.now more.now) more.now most) }
    ensures kept { IfOk result (λ w. IsKept (head.now ++ more.now)) }
    ensures err { IfErr result (IsPieceFault (head.now ++ more.now) size) }
{
    let trace = match piece(alloc, head, more) {
        Ok(trace) => trace,
        Err(fault) => return Err(fault),
    };
    if size >= trace.raw().len() {
        return Err(PieceFault::NoSuchEvent);
    }
    match cut_at(alloc, &trace, number, size, most) {
        Ok(window) => Ok(window),
        Err(CutFault::NoSuchEvent) => Err(PieceFault::NoSuchEvent),
        Err(CutFault::NoName) => Err(PieceFault::NoName),
        Err(CutFault::OutOfMemory) => Err(PieceFault::OutOfMemory),
    }
}
