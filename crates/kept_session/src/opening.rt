//! Opens the file of a log or makes it, and makes the calls of its lines.
ghost use Rattle.std.specs.Prelude.{◌≡◌, ◌≢◌, ◌≤◌, ◌<◌, ◌^◌, ◌∷◌, [], Some, true, length, take, IfOk, IfErr, IsErrOf, OnOk};
ghost use Rattle.kept_log.specs.Device.{Only};
ghost use Rattle.kept_log.specs.Moments.{LeavesOnly};
ghost use Rattle.kept_log.specs.Lines.{kept_lines};
ghost use Rattle.kept_log.specs.Log.{StandsAfter, at_rest, head_of, lines_after, lines_of, IsAtRest};
ghost use Rattle.client_scripts.specs.declared.fault.ReadCause.TheVariants.{Device as DeviceFailed};
ghost use Rattle.client_scripts.specs.declared.fault.ReplayFault.{ReplayFault};
ghost use Rattle.client_scripts.specs.declared.fault.ReplayFault.TheVariants.{Read, Write};
ghost use Rattle.kept_session.specs.declared.fault.SessionFault.TheVariants.{Replay, OtherTrace};
ghost use Rattle.kept_session.specs.Faults.{IfUnread, IfUnwritten, IsFileFault, IsHeadFault, IsMakeFault, IsOpenFault};
ghost use Rattle.kept_session.specs.Sessions.{BeforeLock, FindsMore, HasNoLines, IsAtWork, IsHandedBack, IsLeftAlone, IsTaken, MayTake};
ghost use Rattle.kept_session.specs.Views.{IsFree, LeavesKnown, LeavesKnownOn};

use crate::catching::make_all;
use crate::fault::SessionFault;
use crate::session::Session;
use client_scripts::ReplayFault;
use event_index::Indexed;
use inverse_log::Bench;
use kept_log::{Device, KeptLog, OpenError, create};
use rapid_text::OutOfMemory;
use std::alloc::Global;
use std::sync::Arc;

/// Waits for the lock of a file that is not known yet, and reads the whole file.
fn take_first<D: Device>(alloc: Global, device: &mut D) -> Result<Vec<u8>, SessionFault>
    ensures held { OnOk result (D.is_held device.new ≡ true) }
    ensures bytes { IfOk result (λ bytes. D.seen device.new ≡ bytes.items) }
    ensures fits { OnOk result (length (D.seen device.new) < 2 ^ 63) }
    ensures found { OnOk result (D.found device.new ≡ Some (D.seen device.new) ∷ D.found device.old) }
    ensures none_found { IfErr result (λ fault. D.found device.new ≡ D.found device.old) }
    ensures sound { OnOk result (D.faults device.new ≡ D.faults device.old) }
    ensures any_moment { LeavesOnly D.Device device.old device.new (BeforeLock D.Device device.old) }
    ensures fault { IfErr result (λ fault. (f : ReplayFault) × (fault ≡ Replay f) × IsFileFault f) }
    ensures unread { IfErr result (IfUnread (D.faults device.old < D.faults device.new)) }
    ensures not_write { IfErr result (λ fault. fault ≢ Replay Write) }
{
    match device.take_over(alloc, 0) {
        Ok(bytes) => Ok(bytes),
        Err(why) => Err(SessionFault::unread(why, 1)),
    }
}

/// Makes the file of a log with this head and no entry. The file must be empty. Its lock stays held.
pub fn make_log<D: Device>(alloc: Global, device: &mut D, head: &[u8]) -> Result<(), SessionFault>
    ensures made { OnOk result (D.seen device.new ≡ at_rest head.now []) }
    ensures durable { OnOk result (Only (D.seen device.new) (D.may_leave device.new)) }

    // A file that is not empty is left as it is, also after a fault.
    ensures sound { OnOk result (D.faults device.new ≡ D.faults device.old) }
    ensures empty { OnOk result (D.found device.new ≡ Some [] ∷ D.found device.old) }
    ensures refused { IsErrOf result OtherTrace → FindsMore D.Device device.old device.new }
    ensures left_alone { IfErr result (λ fault. IsLeftAlone D.Device device.old device.new) }

    // A crash at any moment leaves what a crash might have left when the lock was taken. If the file was empty then,
    // it may also leave a file without lines.
    ensures any_moment { MayTake D.Device (HasNoLines head.now) device.old device.new }
    ensures fault { IfErr result IsMakeFault }

    // It reports a failed read or write only if a call of the file failed.
    ensures unread { IfErr result (IfUnread (D.faults device.old < D.faults device.new)) }
    ensures unwritten { IfErr result (IfUnwritten (D.faults device.old < D.faults device.new)) }
{
    let bytes = take_first(alloc, device)?;
    if !bytes.is_empty() {
        return Err(SessionFault::OtherTrace);
    }
    match create(alloc, device, head) {
        Ok(()) => Ok(()),
        Err(why) => Err(SessionFault::unwritten(why)),
    }
}

/// The bench of a trace, with an empty log.
pub(crate) fn new_bench(alloc: Global, indexed: Indexed) -> Result<Bench, OutOfMemory>
    ensures trace { IfOk result (λ bench. bench.trace ≡ indexed) }
    ensures log { IfOk result (λ bench. bench.log ≡ []) }
{
    let shared = Arc::new(alloc, indexed)?;
    match Bench::new(alloc, shared) {
        Ok(bench) => Ok(bench),
        Err(_) => Err(OutOfMemory),
    }
}

/// Opens the file of a log. Also returns the file's bytes: the head, and then the lines that count.
pub(crate) fn open_log<D: Device + Drop>(
    alloc: Global,
    mut device: D,
    head: &[u8],
) -> Result<(KeptLog<D>, Vec<u8>), (SessionFault, D)>
    ensures held { IfOk result (λ opened. D.is_held opened.0.device ≡ true) }
    ensures at_rest { IfOk result (λ opened. IsAtRest D.Device opened.0) }
    ensures head { IfOk result (λ opened. head_of D.Device opened.0 ≡ head.now) }
    ensures lines { IfOk result (λ opened. lines_of D.Device opened.0 ≡ lines_after head.now opened.1.items) }
    ensures within { IfOk result (λ opened. length head.now ≤ length opened.1.items) }
    ensures found { IfOk result (λ opened. D.found opened.0.device ≡ Some opened.1.items ∷ D.found device) }
    ensures begins { IfOk result (λ opened. take (length head.now) opened.1.items ≡ head.now) }
    ensures sound { IfOk result (λ opened. D.faults opened.0.device ≡ D.faults device) }
    ensures back { IfErr result (λ e. IsHandedBack D.Device head.now device e.1) }
    ensures other_trace { IfErr result (λ e. e.0 ≡ OtherTrace → D.found e.1 ≡ Some (D.seen e.1) ∷ D.found device) }
    ensures fault { IfErr result (λ e. IsHeadFault head.now (D.seen e.1) e.0) }
    ensures unread { IfErr result (λ e. e.0 ≡ Replay (Read 2 DeviceFailed) → D.faults device < D.faults e.1) }
    ensures unwritten { IfErr result (λ e. e.0 ≡ Replay Write → D.faults device < D.faults e.1) }
    ensures any_moment { IfOk result (λ opened. IsTaken D.Device (StandsAfter head.now) device opened.0.device) }
    ensures any_moment_err { IfErr result (λ e. MayTake D.Device (StandsAfter head.now) device e.1) }
{
    let bytes = match take_first(alloc, &mut device) {
        Ok(bytes) => bytes,
        Err(fault) => return Err((fault, device)),
    };
    if bytes.len() < head.len() {
        return Err((SessionFault::OtherTrace, device));
    }
    match KeptLog::open(device, head, &bytes) {
        Ok((log, _)) => Ok((log, bytes)),
        Err((OpenError::Stranger, device)) => Err((SessionFault::OtherTrace, device)),
        Err((OpenError::Device(why), device)) => Err((SessionFault::unwritten(why), device)),
    }
}

/// Makes the calls of a log's lines on a bench with an empty log, and releases the log's lock.
pub(crate) fn begin<D: Device + Drop>(
    alloc: Global,
    mut bench: Bench,
    log: KeptLog<D>,
    text: &[u8],
) -> Result<Session<D>, (SessionFault, D)>
    requires new { bench.log ≡ [] }
    requires at_rest { IsAtRest D.Device log }
    requires lines { lines_of D.Device log ≡ kept_lines text.now }
    ensures in_step { IfOk result (λ s. s.is_in_step ≡ true) }
    ensures trace { IfOk result (λ s. s.bench.trace ≡ bench.trace) }
    ensures head { IfOk result (λ s. head_of D.Device s.log ≡ head_of D.Device log) }
    ensures free { IfOk result (λ s. IsFree D.Device s.log) }
    ensures found { IfOk result (λ s. D.found s.log.device ≡ D.found log.device) }
    ensures same { IfOk result (λ s. lines_of D.Device s.log ≡ lines_of D.Device log) }
    ensures sound { IfOk result (λ s. D.faults s.log.device ≡ D.faults log.device) }
    ensures found_err { IfErr result (λ e. D.found e.1 ≡ D.found log.device) }
    ensures seen_err { IfErr result (λ e. D.seen e.1 ≡ D.seen log.device) }
    ensures fault { IfErr result (λ e. IsOpenFault bench.trace (head_of D.Device log) (D.seen e.1) e.0) }
    ensures own_trace { IfErr result (λ e. e.0 ≢ OtherTrace) }
    ensures not_read { IfErr result (λ e. e.0 ≢ Replay (Read 2 DeviceFailed)) }
    ensures unwritten { IfErr result (λ e. e.0 ≡ Replay Write → D.faults log.device < D.faults e.1) }
    ensures any_moment { IfOk result (λ s. LeavesKnown D.Device log s.log) }
    ensures any_moment_err { IfErr result (λ e. LeavesKnownOn D.Device log e.1) }
{
    match make_all(alloc, &mut bench, text) {
        Ok(()) => let_go(bench, log),
        Err(fault) => {
            drop(bench);
            Err((fault, log.device))
        }
    }
}

/// Releases the log's lock. The lines of the file give the log of the bench.
fn let_go<D: Device + Drop>(
    bench: Bench,
    mut log: KeptLog<D>,
) -> Result<Session<D>, (SessionFault, D)>
    requires { IsAtWork D.Device bench.trace log bench.log }
    ensures in_step { IfOk result (λ s. s.is_in_step ≡ true) }
    ensures trace { IfOk result (λ s. s.bench.trace ≡ bench.trace) }
    ensures head { IfOk result (λ s. head_of D.Device s.log ≡ head_of D.Device log) }
    ensures free { IfOk result (λ s. IsFree D.Device s.log) }
    ensures found { IfOk result (λ s. D.found s.log.device ≡ D.found log.device) }
    ensures same { IfOk result (λ s. lines_of D.Device s.log ≡ lines_of D.Device log) }
    ensures sound { IfOk result (λ s. D.faults s.log.device ≡ D.faults log.device) }
    ensures found_err { IfErr result (λ e. D.found e.1 ≡ D.found log.device) }
    ensures seen_err { IfErr result (λ e. D.seen e.1 ≡ D.seen log.device) }
    ensures fault { IfErr result (λ e. IsOpenFault bench.trace (head_of D.Device log) (D.seen e.1) e.0) }
    ensures own_trace { IfErr result (λ e. e.0 ≢ OtherTrace) }
    ensures not_read { IfErr result (λ e. e.0 ≢ Replay (Read 2 DeviceFailed)) }
    ensures unwritten { IfErr result (λ e. e.0 ≡ Replay Write → D.faults log.device < D.faults e.1) }
    ensures any_moment { IfOk result (λ s. LeavesKnown D.Device log s.log) }
    ensures any_moment_err { IfErr result (λ e. LeavesKnownOn D.Device log e.1) }
{
    match log.release() {
        Ok(()) => Ok(Session {
            bench,
            log,
            is_in_step: true,
        }),
        Err(why) => {
            drop(bench);
            Err((SessionFault::unwritten(why), log.device))
        }
    }
}
