//! The message that a worker sends back.
ghost use Rattle.std.specs.Prelude.{◌≡◌};
ghost use Rattle.search_pool.specs.Outcomes.{IsOutcomeOf};

use crate::outcome::{Found, Outcome};
use crate::request::Posed;
use event_index::Indexed;
use std::marker::Model;
use std::snapshot::Snapshot;

/// A request with its number, its trace and its outcome.
#[derive(Drop)]
pub(crate) struct Answer {
    of: Snapshot<Indexed>,
    posed: Posed,
    outcome: Outcome,
}

impl Model for Answer {
    ghost use Rattle.search_pool.specs.Outcomes.{Answered, IsOutcomeOf};

    ghost Value = { Answered };

    ghost view = { λ s. record {
      trace = s.of.value;
      posed = s.posed;
      outcome = s.outcome;
    } };

    ghost invariant = { λ s. IsOutcomeOf s.of.value.events s.posed.request s.outcome };
}

impl Answer {
    /// An answer with the outcome of the request on the trace.
    pub(crate) fn new(indexed: &Indexed, posed: Posed, outcome: Outcome) -> Answer
        requires { IsOutcomeOf indexed.now.events posed.request outcome }
        ensures trace { result.trace ≡ indexed.now }
    {
        Answer {
            of: Snapshot::of(indexed),
            posed,
            outcome,
        }
    }

    /// The request of this answer.
    pub(crate) fn posed(&self) -> &Posed
        ensures { result.now ≡ self.now.posed }
    {
        &self.posed
    }

    /// The number and the pair of the request, and its outcome.
    pub(crate) fn into_found(self) -> Found
        ensures number { result.request ≡ self.posed.number }
        ensures first { result.first ≡ self.posed.request.first }
        ensures second { result.second ≡ self.posed.request.second }
        ensures outcome { IsOutcomeOf self.trace.events self.posed.request result.outcome }
    {
        let Answer {
            of: _,
            posed,
            outcome,
        } = self;
        Found {
            request: posed.number,
            first: posed.request.first,
            second: posed.request.second,
            outcome,
        }
    }
}
