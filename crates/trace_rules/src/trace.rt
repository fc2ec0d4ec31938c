//! A trace that keeps the rules.
ghost use Rattle.std.specs.Prelude.{◌≡◌};
ghost use Rattle.rapid_text.specs.Recording.{IsWellFormed};
ghost use Rattle.trace_rules.specs.Rules.{IsDisciplined};

use rapid_text::RawTrace;
use std::marker::Model;

/// A trace that keeps the rules on locks, forks and joins. Only `check` makes one.
#[derive(Drop)]
pub struct Trace {
    pub(crate) raw: RawTrace,
}

impl Model for Trace {
    ghost use Rattle.rapid_text.specs.Recording.{Recording, IsWellFormed};
    ghost use Rattle.trace_rules.specs.Rules.{IsDisciplined};

    ghost Value = { Recording };

    ghost view = { λ t. t.raw };

    ghost invariant = { λ t. IsWellFormed t.raw × IsDisciplined t.raw.events };
}

impl Trace {
    /// The trace as it was read.
    pub fn raw(&self) -> &RawTrace
        ensures same { result.now ≡ self.now }
        ensures well_formed { IsWellFormed self.now }
        ensures disciplined { IsDisciplined self.now.events }
    {
        &self.raw
    }
}
