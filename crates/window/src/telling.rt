//! Why a piece of a trace of any length is refused.
ghost use Rattle.std.specs.Prelude.{◌≡◌, ◌⊎◌, ◌++◌, length, Ok, Err};
ghost use Rattle.rapid_text.specs.Reading.{reading_of};
ghost use Rattle.rapid_text.specs.Recording.{Recording};
ghost use Rattle.rapid_text.specs.Refusals.{no_memory};
ghost use Rattle.trace_rules.specs.Rules.{IsFirstBreach, no_memory as no_table};
ghost use Rattle.window.specs.Fronts.{IsFrontFault, IsHead};
ghost use Rattle.window.specs.Streams.{IsKept, IsPieceFault, Stands, said_in};

use crate::fault::FrontFault;
use crate::front::{Front, Head};
use crate::piece::{PieceFault, is_too_wide};
use rapid_text::{TextCause, TextRefusal};
use std::alloc::Global;
use trace_rules::{RuleCause, RuleRefusal};

impl Front {
    /// The fault if the head does not read as a trace that keeps the rules.
    pub(crate) fn unkept(&self, alloc: Global, head: &[u8], more: &[u8]) -> FrontFault
        requires is { IsHead self.now more.now head.now }
        requires unkept { ¬ IsKept head.now }
        ensures { IsFrontFault self.now more.now result }
    {
        match is_too_wide(alloc, head) {
            Ok(true) => FrontFault::TooManyThreads,
            Ok(false) => FrontFault::TooLong,
            Err(_) => FrontFault::OutOfMemory,
        }
    }

    /// The fault, with the number of the line or the event in all that was read.
    pub(crate) fn told(&self, head: &Head, more: &[u8], fault: PieceFault) -> FrontFault
        requires stands { Stands self.now.read head.now.text.items more.now }
        requires kept { IsKept head.now.text.items }
        requires size { head.now.size ≡ length (said_in head.now.text.items) }
        requires is { IsHead self.now more.now head.now.text.items }
        requires fault { IsPieceFault (head.now.text.items ++ more.now) head.now.size fault }
        ensures { IsFrontFault self.now more.now result }
    {
        match fault {
            PieceFault::Text(refusal) => self.told_size(head, more, refusal),
            PieceFault::Rule(refusal) => self.told_event(head, more, refusal),
            PieceFault::NoSuchEvent => FrontFault::NoSuchEvent,
            PieceFault::NoName => FrontFault::NoName,
            PieceFault::OutOfMemory => FrontFault::OutOfMemory,
        }
    }

    /// The fault for a refused line of the piece.
    pub(crate) fn told_line(&self, more: &[u8], refusal: TextRefusal) -> FrontFault
        requires { (refusal ≡ no_memory) ⊎ (reading_of more.now ≡ Err refusal) }
        ensures { IsFrontFault self.now more.now result }
    {
        if refusal.line == 0 {
            return FrontFault::OutOfMemory;
        }
        if refusal.why == TextCause::TooManyEvents {
            return FrontFault::TooLong;
        }
        if refusal.why == TextCause::TooManyNames {
            return FrontFault::TooManyThreads;
        }
        match self.lines.checked_add(refusal.line) {
            Some(line) => FrontFault::Text {
                line,
                why: refusal.why,
            },
            None => FrontFault::TooLong,
        }
    }

    // The fault for a piece that can be read alone but not after the head: both have too many threads, or too many
    // events.
    fn told_size(&self, head: &Head, more: &[u8], refusal: TextRefusal) -> FrontFault
        requires stands { Stands self.now.read head.now.text.items more.now }
        requires kept { IsKept head.now.text.items }
        requires is { IsHead self.now more.now head.now.text.items }
        requires fault { (refusal ≡ no_memory) ⊎ (reading_of (head.now.text.items ++ more.now) ≡ Err refusal) }
        ensures { IsFrontFault self.now more.now result }
    {
        if refusal.line == 0 {
            return FrontFault::OutOfMemory;
        }
        if refusal.why == TextCause::TooManyNames {
            return FrontFault::TooManyThreads;
        }
        FrontFault::TooLong
    }

    // The fault for an event that breaks a rule.
    fn told_event(&self, head: &Head, more: &[u8], refusal: RuleRefusal) -> FrontFault
        requires stands { Stands self.now.read head.now.text.items more.now }
        requires kept { IsKept head.now.text.items }
        requires size { head.now.size ≡ length (said_in head.now.text.items) }
        requires fault { (r : Recording)
            × (reading_of (head.now.text.items ++ more.now) ≡ Ok r)
            × ((refusal ≡ no_table) ⊎ IsFirstBreach r.events refusal) }
        ensures { IsFrontFault self.now more.now result }
    {
        if refusal.why == RuleCause::OutOfMemory {
            return FrontFault::OutOfMemory;
        }
        let later = u64::from(refusal.event).saturating_sub(u64::from(head.size));
        FrontFault::Rule {
            event: self.number + later,
            why: refusal.why,
        }
    }
}
