//! Why there is no table.
use rapid_text::OutOfMemory;
use variable_uses::UsesRefusal;

/// Why there is no table.
#[derive(Clone, Copy)]
pub enum UsesFault {
    /// The names mean no two accesses that conflict, or a name means accesses at several places.
    NoSuchPair,
    /// More than 16,777,216 locks are held at the accesses.
    TooMany,
    /// Out of memory.
    OutOfMemory,
}

impl From<OutOfMemory> for UsesFault {
    ghost use Rattle.std.specs.Prelude.{◌≡◌};
    ghost use Rattle.uses_report.specs.declared.refusal.UsesFault.TheVariants.{OutOfMemory as NoMemory};

    ghost from_gives = { λ _ fault. fault ≡ NoMemory };

    fn from(_refused: OutOfMemory) -> UsesFault {
        UsesFault::OutOfMemory
    }
}

impl From<UsesRefusal> for UsesFault {
    ghost use Rattle.std.specs.Prelude.{◌≡◌};
    ghost use Rattle.uses_report.specs.Between.{fault_of};

    ghost from_gives = { λ refusal fault. fault ≡ fault_of refusal };

    fn from(refusal: UsesRefusal) -> UsesFault {
        match refusal {
            UsesRefusal::TooMany => UsesFault::TooMany,
            UsesRefusal::OutOfMemory => UsesFault::OutOfMemory,
        }
    }
}
