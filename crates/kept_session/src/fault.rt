//! The faults that end a session before its input ends, and their texts.
ghost use Rattle.std.specs.Prelude.{◌≡◌, ◌≢◌, OnErr};
ghost use Rattle.client_scripts.specs.declared.fault.ReadCause.TheVariants.{Device as DeviceFailed};
ghost use Rattle.client_scripts.specs.declared.fault.ReplayFault.TheVariants.{Read, Write, OutOfMemory as NoMemory};
ghost use Rattle.kept_log.specs.declared.device.DeviceError.TheVariants.{Memory, Failed, Shorter};
ghost use Rattle.kept_session.specs.declared.fault.SessionFault.TheVariants.{Replay, LogLine};
ghost use Rattle.kept_session.specs.FaultTexts.{session_fault_words};
ghost use Rattle.rapid_text.specs.Appended.{Appended};

use client_scripts::{ReadCause, ReplayFault, fault_text};
use kept_log::{AppendError, DeviceError, OpenError};
use rapid_text::OutOfMemory;
use report::{Piece, append_pieces};
use std::alloc::AllocError;

/// The number of the log's file in a read fault. The trace is input 1.
pub(crate) const LOG_INPUT: u32 = 2;

/// The number of the input lines in a read fault.
pub(crate) const LINES_INPUT: u32 = 3;

/// The fault that ends a session.
#[derive(Clone, Copy, PartialEq, Eq, Debug)]
pub enum SessionFault {
    /// 91 to 96: the trace is refused, an input could not be read, a write failed, or memory ran out. Input 1 is the
    /// trace, 2 the log's file, and 3 the input lines.
    Replay(ReplayFault),
    /// 101: a line of the log's file is not a call that is accepted and logged there, or the line is missing.
    LogLine {
        /// The number of the line, counted from 1. Line 1 is the head.
        line: u64,
    },
    /// 102: the file has another head. The session left it as it was.
    OtherTrace,
}

impl SessionFault {
    /// The fault if the log's file could not be read. If the file got shorter, its last known line is missing, or the
    /// byte that closes it. That line has the number `last`.
    pub(crate) fn unread(why: DeviceError, last: u64) -> SessionFault
        ensures memory { why ≡ Memory → result ≡ Replay NoMemory }
        ensures failed { why ≡ Failed → result ≡ Replay (Read 2 DeviceFailed) }
        ensures shorter { why ≡ Shorter → result ≡ LogLine last }
        ensures read { result ≡ Replay (Read 2 DeviceFailed) → why ≡ Failed }
        ensures not_write { result ≢ Replay Write }
    {
        match why {
            DeviceError::Memory => SessionFault::Replay(ReplayFault::OutOfMemory),
            DeviceError::Failed => SessionFault::Replay(ReplayFault::Read {
                input: LOG_INPUT,
                why: ReadCause::Device,
            }),
            DeviceError::Shorter => SessionFault::LogLine { line: last },
        }
    }

    /// The fault if the log's file could not be written, or not synced to the disk.
    pub(crate) fn unwritten(why: DeviceError) -> SessionFault
        ensures memory { why ≡ Memory → result ≡ Replay NoMemory }
        ensures others { why ≢ Memory → result ≡ Replay Write }
        ensures write { result ≡ Replay Write → why ≢ Memory }
        ensures not_read { result ≢ Replay (Read 2 DeviceFailed) }
    {
        match why {
            DeviceError::Memory => SessionFault::Replay(ReplayFault::OutOfMemory),
            _ => SessionFault::Replay(ReplayFault::Write),
        }
    }
}

impl From<OutOfMemory> for SessionFault {
    ghost use Rattle.std.specs.Prelude.{◌≡◌};
    ghost use Rattle.client_scripts.specs.declared.fault.ReplayFault.TheVariants.{OutOfMemory as NoMemory};
    ghost use Rattle.kept_session.specs.declared.fault.SessionFault.TheVariants.{Replay};

    ghost from_gives = { λ _ fault. fault ≡ Replay NoMemory };

    fn from(_error: OutOfMemory) -> SessionFault {
        SessionFault::Replay(ReplayFault::OutOfMemory)
    }
}

impl From<AllocError> for SessionFault {
    ghost use Rattle.std.specs.Prelude.{◌≡◌};
    ghost use Rattle.client_scripts.specs.declared.fault.ReplayFault.TheVariants.{OutOfMemory as NoMemory};
    ghost use Rattle.kept_session.specs.declared.fault.SessionFault.TheVariants.{Replay};

    ghost from_gives = { λ _ fault. fault ≡ Replay NoMemory };

    fn from(_error: AllocError) -> SessionFault {
        SessionFault::Replay(ReplayFault::OutOfMemory)
    }
}

impl From<ReplayFault> for SessionFault {
    ghost use Rattle.std.specs.Prelude.{◌≡◌};
    ghost use Rattle.kept_session.specs.declared.fault.SessionFault.TheVariants.{Replay};

    ghost from_gives = { λ fault stopped. stopped ≡ Replay fault };

    fn from(fault: ReplayFault) -> SessionFault {
        SessionFault::Replay(fault)
    }
}

impl From<AppendError> for SessionFault {
    ghost use Rattle.kept_session.specs.Faults.{IsWriteFault};

    ghost from_gives = { λ why fault. IsWriteFault why fault };

    fn from(why: AppendError) -> SessionFault {
        match why {
            AppendError::OutOfMemory => SessionFault::Replay(ReplayFault::OutOfMemory),
            AppendError::Full => SessionFault::Replay(ReplayFault::Write),
            AppendError::Device(why) => SessionFault::unwritten(why),
        }
    }
}

/// Appends the text of a fault, without a line feed. If memory runs out, `out` stays as it was.
pub fn session_fault_text(fault: &SessionFault, out: &mut Vec<u8>) -> Result<(), OutOfMemory>
    ensures ok { Appended result out.old out.new (session_fault_words fault.now) }
    ensures err { OnErr result (out.new.items ≡ out.old.items) }
{
    match fault {
        SessionFault::Replay(fault) => fault_text(fault, out),
        SessionFault::LogLine { line } => {
            append_pieces(
                out,
                &[Piece::Words(b"log file line "), Piece::Number(*line)],
            )
        }
        SessionFault::OtherTrace => append_pieces(out, &[Piece::Words(b"log of another trace")]),
    }
}
