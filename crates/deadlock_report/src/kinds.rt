//! The kinds of verdicts.
ghost use Rattle.std.specs.Prelude.{◌≡◌};
ghost use Rattle.deadlock_report.specs.Counts.{is_of};

use deadlock_triage::{Outcome, Verdict};

/// A kind of verdict. Blocks are printed in this order.
#[derive(Clone, Copy, PartialEq, Eq, Debug)]
pub(crate) enum Kind {
    /// A deadlock.
    Shown,
    /// Neither a deadlock nor apart.
    Open,
    /// Apart.
    Never,
}

/// Whether the verdict is of this kind.
pub(crate) fn belongs(verdict: &Verdict, kind: Kind) -> bool
    ensures { result ≡ is_of kind verdict.now }
{
    match verdict.outcome {
        Outcome::Deadlock {
            how: _,
            events: _,
            threads: _,
        } => match kind {
            Kind::Shown => true,
            Kind::Open | Kind::Never => false,
        },
        Outcome::Undecided { tried: _ } => match kind {
            Kind::Open => true,
            Kind::Shown | Kind::Never => false,
        },
        Outcome::Apart => match kind {
            Kind::Never => true,
            Kind::Shown | Kind::Open => false,
        },
    }
}
