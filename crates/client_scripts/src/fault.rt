//! The faults that stop a replay, how faults of its parts become them, and the counts of a replay that did not stop.
ghost use Rattle.std.specs.Prelude.{◌≡◌};
ghost use Rattle.client_scripts.specs.Steps.{read_fault};

use crate::fault_texts::message_of;
use crate::source::Failed;
use rapid_text::{OutOfMemory, TextCause, TextRefusal};
use script_language::{ScriptCause, ScriptRefusal};
use std::alloc::AllocError;
use thiserror::Error;
use trace_rules::{RuleCause, RuleRefusal, Trace};

/// The most bytes that an input may have.
pub const LIMIT: usize = 268_435_456;

/// The reason why an input could not be read.
#[derive(Clone, Copy, PartialEq, Eq, Debug)]
pub enum ReadCause {
    /// The reader failed.
    Device,
    /// The input has more than 268,435,456 bytes.
    TooLong,
}

/// The fault that stopped a replay. `fault_text` appends its message.
#[derive(Clone, Copy, PartialEq, Eq, Debug, Error)]
#[error("{}", message_of(self))]
pub enum ReplayFault {
    /// 91: the trace text does not parse.
    Text(TextRefusal),
    /// 92: the trace breaks a rule.
    Rule(RuleRefusal),
    /// 93: the script does not parse.
    Script(ScriptRefusal),
    /// 94: an input could not be read.
    Read {
        /// 1 for the trace or the joint text, 2 for a separate script.
        input: u32,
        /// The reason.
        why: ReadCause,
    },
    /// 95: the writer failed.
    Write,
    /// 96: out of memory.
    OutOfMemory,
}

impl ReplayFault {
    /// The fault for the input with this number, which could not be read. Running out of memory is a fault of its
    /// own.
    pub(crate) fn of_input(input: u32, why: ReadFault) -> ReplayFault
        ensures { result ≡ read_fault input why }
    {
        match why {
            ReadFault::Device => ReplayFault::Read {
                input,
                why: ReadCause::Device,
            },
            ReadFault::TooLong => ReplayFault::Read {
                input,
                why: ReadCause::TooLong,
            },
            ReadFault::OutOfMemory => ReplayFault::OutOfMemory,
        }
    }
}

impl From<OutOfMemory> for ReplayFault {
    ghost use Rattle.std.specs.Prelude.{◌≡◌};
    ghost use Rattle.client_scripts.specs.declared.fault.ReplayFault.TheVariants.{OutOfMemory as NoMemory};

    ghost from_gives = { λ _ fault. fault ≡ NoMemory };

    fn from(_error: OutOfMemory) -> ReplayFault {
        ReplayFault::OutOfMemory
    }
}

impl From<AllocError> for ReplayFault {
    ghost use Rattle.std.specs.Prelude.{◌≡◌};
    ghost use Rattle.client_scripts.specs.declared.fault.ReplayFault.TheVariants.{OutOfMemory as NoMemory};

    ghost from_gives = { λ _ fault. fault ≡ NoMemory };

    fn from(_error: AllocError) -> ReplayFault {
        ReplayFault::OutOfMemory
    }
}

impl From<TextRefusal> for ReplayFault {
    ghost use Rattle.std.specs.Prelude.{◌≡◌};
    ghost use Rattle.client_scripts.specs.Steps.{text_fault};

    ghost from_gives = { λ refusal fault. fault ≡ text_fault refusal refusal.why };

    fn from(refusal: TextRefusal) -> ReplayFault {
        match refusal.why {
            TextCause::OutOfMemory => ReplayFault::OutOfMemory,
            _ => ReplayFault::Text(refusal),
        }
    }
}

impl From<RuleRefusal> for ReplayFault {
    ghost use Rattle.std.specs.Prelude.{◌≡◌};
    ghost use Rattle.client_scripts.specs.Steps.{rule_fault};

    ghost from_gives = { λ refusal fault. fault ≡ rule_fault refusal refusal.why };

    fn from(refusal: RuleRefusal) -> ReplayFault {
        match refusal.why {
            RuleCause::OutOfMemory => ReplayFault::OutOfMemory,
            _ => ReplayFault::Rule(refusal),
        }
    }
}

impl From<(Trace, OutOfMemory)> for ReplayFault {
    ghost use Rattle.std.specs.Prelude.{◌≡◌};
    ghost use Rattle.client_scripts.specs.declared.fault.ReplayFault.TheVariants.{OutOfMemory as NoMemory};

    ghost from_gives = { λ _ fault. fault ≡ NoMemory };

    fn from(_refused: (Trace, OutOfMemory)) -> ReplayFault {
        ReplayFault::OutOfMemory
    }
}

impl From<ScriptRefusal> for ReplayFault {
    ghost use Rattle.std.specs.Prelude.{◌≡◌};
    ghost use Rattle.client_scripts.specs.Steps.{script_fault};

    ghost from_gives = { λ refusal fault. fault ≡ script_fault refusal refusal.why };

    fn from(refusal: ScriptRefusal) -> ReplayFault {
        match refusal.why {
            ScriptCause::OutOfMemory => ReplayFault::OutOfMemory,
            _ => ReplayFault::Script(refusal),
        }
    }
}

/// The reason why an input could not be read, or that memory ran out.
#[derive(Clone, Copy, PartialEq, Eq, Debug)]
pub enum ReadFault {
    /// The reader failed.
    Device,
    /// The input has more than 268,435,456 bytes.
    TooLong,
    /// Out of memory.
    OutOfMemory,
}

impl From<Failed> for ReadFault {
    ghost use Rattle.std.specs.Prelude.{◌≡◌};
    ghost use Rattle.client_scripts.specs.declared.fault.ReadFault.TheVariants.{Device};

    ghost from_gives = { λ _ fault. fault ≡ Device };

    fn from(_error: Failed) -> ReadFault {
        ReadFault::Device
    }
}

impl From<AllocError> for ReadFault {
    ghost use Rattle.std.specs.Prelude.{◌≡◌};
    ghost use Rattle.client_scripts.specs.declared.fault.ReadFault.TheVariants.{OutOfMemory as NoMemory};

    ghost from_gives = { λ _ fault. fault ≡ NoMemory };

    fn from(_error: AllocError) -> ReadFault {
        ReadFault::OutOfMemory
    }
}

/// The counts of a replay. Each call is either accepted or refused.
#[derive(Clone, Copy, PartialEq, Eq, Debug)]
pub struct Tally {
    /// How many calls the script has.
    pub calls: u64,
    /// How many calls got a reply.
    pub accepted: u64,
    /// How many calls were refused.
    pub refused: u64,
}
