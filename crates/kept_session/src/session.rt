//! A bench and the file of its log, in step.
ghost use Rattle.std.specs.Prelude.{◌≡◌, ◌≢◌, ◌⊎◌, ◌<◌, ◌∷◌, List, [], ℕ, Some, true, false, IsTrue, IfOk, IfErr, IsErr, OnOk};
ghost use Rattle.kept_log.specs.Log.{head_of, HasSameLines, HasTurn, IsAsFound, LosesNone};
ghost use Rattle.client_scripts.specs.declared.fault.ReadCause.TheVariants.{Device as DeviceFailed};
ghost use Rattle.client_scripts.specs.declared.fault.ReplayFault.{ReplayFault};
ghost use Rattle.client_scripts.specs.declared.fault.ReplayFault.TheVariants.{Read, Write, OutOfMemory as NoMemory};
ghost use Rattle.kept_session.specs.declared.fault.SessionFault.TheVariants.{Replay, OtherTrace};
ghost use Rattle.std.specs.Coded.{→_prop};
ghost use Rattle.kept_session.specs.InStep.{IsInStep-prop};
ghost use Rattle.kept_session.specs.Faults.{IfUnread, IfUnwritten, IsOfInput, IsOpenFault};
ghost use Rattle.kept_session.specs.Sessions.{IsAllOrNone, IsHandedBack, IsInStep, IsOpened, IsTaken, KeepsLines, MayTake, number_behind};
ghost use Rattle.kept_session.specs.Steps.{IsPieceMade, IsPutOn};
ghost use Rattle.kept_session.specs.Views.{HasGained, HasMoreLines, IsAnsweredOnce, IsAtWorkOn, IsFailedBetween, IsFaultBetween, IsFree, IsKept, IsTooLong, IsUnfailed, LeavesKnown, entries_of, lines_in, trace_of};

use crate::answering::answer_lines;
use crate::catching::{line_behind, make_all};
use crate::fault::SessionFault;
use crate::opening::{begin, new_bench, open_log};
use client_scripts::ReplayFault;
use event_index::Indexed;
use inverse_log::Bench;
use kept_log::{Block, Device, EnterError, KeptLog};
use rapid_text::OutOfMemory;
use std::alloc::Global;

/// How many bytes longer a line of a block can be than its line of the input. There may be the client and a blank, a
/// blank and the number of an undone entry, and the gate and the line feed.
const LONGER: usize = 16;

/// A bench and the file of its log. Between two calls the file's lock is free, and other processes may add lines.
#[derive(Drop)]
pub struct Session<D: Device> {
    pub bench: Bench,
    pub log: KeptLog<D>,
    /// Whether bench and file are in step. After a fault of a turn they are not; then the log may be opened again.
    pub is_in_step: bool,
    pub ghost in_step: { IsTrue is_in_step → IsInStep D.Device bench.trace log bench.log } by { →_prop (IsInStep-prop D.Device bench.trace log bench.log) },
}

/// How many lines a text has. The last one need not end with a line feed.
fn count_lines(text: &[u8]) -> usize {
    text.iter()
        .filter(|byte| **byte == b'\n')
        .count()
        .saturating_add(1)
}

/// Makes room for the lines of a piece, so that memory cannot run out between a call and its line in the block.
fn make_room(block: &mut Block, piece: &[u8]) -> Result<(), OutOfMemory>
    ensures { block.new ≡ block.old }
{
    let bytes = count_lines(piece)
        .saturating_mul(LONGER)
        .saturating_add(piece.len());
    block.reserve(bytes)?;
    Ok(())
}

impl<D: Device + Drop> Session<D> {
    /// Opens the file of a log on this trace, and makes the calls of its lines on a new bench. `head` is the head
    /// that the file must have. If the call fails, it returns the device as part of the error.
    pub fn open(
        alloc: Global,
        indexed: Indexed,
        head: &[u8],
        device: D,
    ) -> Result<Session<D>, (SessionFault, D)>
        ensures in_step { IfOk result (λ s. s.is_in_step ≡ true) }
        ensures trace { IfOk result (λ s. s.bench.trace ≡ indexed) }
        ensures head { IfOk result (λ s. head_of D.Device s.log ≡ head.now) }
        ensures free { IfOk result (λ s. IsFree D.Device s.log) }

        // The call succeeds only if no operation on the file failed: a sync that failed is not tried again.
        ensures sound { IfOk result (λ s. D.faults s.log.device ≡ D.faults device) }

        // No line is lost. The file began with the head, and has the lines that it had when the lock was taken.
        ensures opened { IfOk result (λ s. IsOpened D.Device head.now device s.log) }
        ensures back { IfErr result (λ e. IsHandedBack D.Device head.now device e.1) }

        // After fault 102 the file is as it was.
        ensures other_trace { IfErr result (λ e. e.0 ≡ OtherTrace → D.found e.1 ≡ Some (D.seen e.1) ∷ D.found device) }

        // Fault 102 means that the file does not begin with the head. Fault 101 names the first line that adds no
        // entry.
        ensures fault { IfErr result (λ e. IsOpenFault indexed head.now (D.seen e.1) e.0) }

        // It reports a failed read or write only if an operation on the file failed.
        ensures unread { IfErr result (λ e. e.0 ≡ Replay (Read 2 DeviceFailed) → D.faults device < D.faults e.1) }
        ensures unwritten { IfErr result (λ e. e.0 ≡ Replay Write → D.faults device < D.faults e.1) }

        // A crash at any moment leaves what a crash might have left when the lock was taken, or the lines that the
        // file had then.
        ensures any_moment { IfOk result (λ s. IsTaken D.Device (KeepsLines head.now) device s.log.device) }
        ensures any_moment_err { IfErr result (λ e. MayTake D.Device (KeepsLines head.now) device e.1) }
    {
        match new_bench(alloc, indexed) {
            Ok(bench) => Session::open_on(alloc, bench, head, device),
            Err(why) => Err((SessionFault::from(why), device)),
        }
    }

    /// The same on a bench with an empty log.
    fn open_on(
        alloc: Global,
        bench: Bench,
        head: &[u8],
        device: D,
    ) -> Result<Session<D>, (SessionFault, D)>
        requires new { bench.log ≡ [] }
        ensures sound { IfOk result (λ s. D.faults s.log.device ≡ D.faults device) }
        ensures in_step { IfOk result (λ s. s.is_in_step ≡ true) }
        ensures trace { IfOk result (λ s. s.bench.trace ≡ bench.trace) }
        ensures head { IfOk result (λ s. head_of D.Device s.log ≡ head.now) }
        ensures free { IfOk result (λ s. IsFree D.Device s.log) }
        ensures opened { IfOk result (λ s. IsOpened D.Device head.now device s.log) }
        ensures back { IfErr result (λ e. IsHandedBack D.Device head.now device e.1) }
        ensures other_trace { IfErr result (λ e. e.0 ≡ OtherTrace → D.found e.1 ≡ Some (D.seen e.1) ∷ D.found device) }
        ensures fault { IfErr result (λ e. IsOpenFault bench.trace head.now (D.seen e.1) e.0) }
        ensures unread { IfErr result (λ e. e.0 ≡ Replay (Read 2 DeviceFailed) → D.faults device < D.faults e.1) }
        ensures unwritten { IfErr result (λ e. e.0 ≡ Replay Write → D.faults device < D.faults e.1) }
        ensures any_moment { IfOk result (λ s. IsTaken D.Device (KeepsLines head.now) device s.log.device) }
        ensures any_moment_err { IfErr result (λ e. MayTake D.Device (KeepsLines head.now) device e.1) }
    {
        match open_log(alloc, device, head) {
            Ok((log, bytes)) => {
                let begun = begin(alloc, bench, log, &bytes[head.len()..]);
                drop(bytes);
                begun
            }
            Err(refused) => {
                drop(bench);
                Err(refused)
            }
        }
    }

    /// Takes the file's lock, and makes the calls that other processes added.
    fn catch_up(&mut self, alloc: Global) -> Result<(), SessionFault>
        requires in_step { IsInStep D.Device (trace_of self.old.bench) self.old.log (entries_of self.old.bench) }
        requires stopped { self.old.is_in_step ≡ false }
        ensures stopped { self.new.is_in_step ≡ false }

        ensures held { OnOk result (D.is_held self.new.log.device ≡ true) }
        ensures at_work { OnOk result (IsAtWorkOn D.Device self.new.bench self.new.log) }
        ensures trace { trace_of self.new.bench ≡ trace_of self.old.bench }
        ensures head { OnOk result (head_of D.Device self.new.log ≡ head_of D.Device self.old.log) }
        ensures lines { OnOk result (HasMoreLines D.Device self.old.log self.new.log) }
        ensures turn { OnOk result (HasTurn D.Device self.old.log self.new.log []) }
        ensures as_found { IsAsFound D.Device self.old.log self.new.log }
        ensures sound { OnOk result (IsUnfailed D.Device self.old.log self.new.log) }

        // A crash at any moment leaves a file whose lines begin with the known ones.
        ensures any_moment { LeavesKnown D.Device self.old.log self.new.log }
        ensures fault { IfErr result (IsFaultBetween D.Device (trace_of self.old.bench) self.old.log self.new.log) }
        ensures input { IfErr result (IsOfInput 2) }
        ensures unread { IfErr result (IfUnread (IsFailedBetween D.Device self.old.log self.new.log)) }
        ensures unwritten { IfErr result (IfUnwritten (IsFailedBetween D.Device self.old.log self.new.log)) }
    {
        match self.log.enter(alloc) {
            Ok(text) => {
                make_all(alloc, &mut self.bench, &text)?;
                Ok(())
            }
            Err(EnterError::Unread(why)) => {
                Err(SessionFault::unread(why, line_behind(&self.bench) - 1))
            }
            Err(EnterError::Unwritten(why)) => Err(SessionFault::unwritten(why)),
        }
    }

    /// Makes the calls of a piece, and puts their lines into the file as one block.
    fn make_piece(
        &mut self,
        alloc: Global,
        client: Option<u32>,
        first: u64,
        piece: &[u8],
        out: &mut Vec<u8>,
    ) -> Result<u64, SessionFault>
        requires held { D.is_held self.old.log.device ≡ true }
        requires at_work { IsAtWorkOn D.Device self.old.bench self.old.log }
        requires stopped { self.old.is_in_step ≡ false }
        ensures stopped { self.new.is_in_step ≡ false }

        ensures at_work { OnOk result (IsAtWorkOn D.Device self.new.bench self.new.log) }
        ensures trace { trace_of self.new.bench ≡ trace_of self.old.bench }
        ensures head { OnOk result (head_of D.Device self.new.log ≡ head_of D.Device self.old.log) }
        ensures next { IfOk result (λ next. next ≡ number_behind first (lines_in piece.now)) }
        ensures answered { OnOk result (IsPieceMade D.Device client first (lines_in piece.now) self.old.bench self.new.bench out.old.items out.new.items
            self.old.log self.new.log) }
        ensures found { D.found self.new.log.device ≡ D.found self.old.log.device }
        ensures sound { OnOk result (IsUnfailed D.Device self.old.log self.new.log) }
        ensures start { self.new.log.start ≡ self.old.log.start }

        // A crash at any moment leaves the lines from before, and all lines of the piece or none. A call that fails
        // does the same, and leaves none if memory ran out.
        ensures put { (gained : List (List ℕ)) × IsPutOn D.Device self.old.bench client first (lines_in piece.now) self.old.log self.new.log gained
            × OnOk result (HasGained D.Device self.old.log self.new.log gained) }
        ensures unchanged { IfErr result (λ why. why ≢ Replay Write → HasSameLines D.Device self.old.log self.new.log) }
        ensures fault { IfErr result (λ fault. (fault ≡ Replay NoMemory) ⊎ (fault ≡ Replay Write)) }
        ensures not_read { IfErr result (λ fault. fault ≢ Replay (Read 2 DeviceFailed)) }
        ensures unwritten { IfErr result (λ fault. fault ≡ Replay Write → IsFailedBetween D.Device self.old.log self.new.log
            ⊎ IsTooLong D.Device (trace_of self.old.bench) client first (lines_in piece.now) self.new.log) }
    {
        let mut block = Block::new(alloc);
        make_room(&mut block, piece)?;
        let next = answer_lines(&mut self.bench, client, first, piece, &mut block, out)?;
        match self.log.add(block) {
            Ok(()) => Ok(next),
            Err(why) => Err(SessionFault::from(why)),
        }
    }

    /// Answers the lines of a piece under one lock, and appends the texts of the answers. `first` is the number of
    /// the piece's first line in the input. Returns the number of the line after the piece. When it returns, the log
    /// entries in the answers are on the disk.
    pub fn answer(
        &mut self,
        alloc: Global,
        client: Option<u32>,
        first: u64,
        piece: &[u8],
        out: &mut Vec<u8>,
    ) -> Result<u64, SessionFault>
        requires in_step { self.old.is_in_step ≡ true }

        ensures in_step { OnOk result (self.new.is_in_step ≡ true) }
        ensures free { OnOk result (IsFree D.Device self.new.log) }
        ensures trace { trace_of self.new.bench ≡ trace_of self.old.bench }
        ensures head { OnOk result (head_of D.Device self.new.log ≡ head_of D.Device self.old.log) }
        ensures next { IfOk result (λ next. next ≡ number_behind first (lines_in piece.now)) }

        // The lock is taken once. Each answer belongs to the log that the file gave at that time. The file has gained
        // the lines of the calls.
        ensures answers { OnOk result (IsAnsweredOnce D.Device (trace_of self.old.bench) client first (lines_in piece.now) self.old.log self.new.log
            (entries_of self.new.bench) out.old.items out.new.items) }

        // No line of another process is lost either, even if the call fails.
        ensures none_lost { LosesNone D.Device self.old.log self.new.log }

        // The piece counts whole or not at all, even if the call fails or there is a crash. Either it had no turn, or
        // the file has the lines of all its calls, or of none. After a fault that is not a failed write, it has none
        // of their lines.
        ensures all_or_none { (IsErr result × IsAsFound D.Device self.old.log self.new.log) ⊎ IsAllOrNone D.Device
            (trace_of self.old.bench) client first (lines_in piece.now) self.old.log self.new.log }
        ensures unchanged { IfErr result (λ why. why ≢ Replay Write → IsAsFound D.Device self.old.log self.new.log) }

        // A turn is answered only if no operation on the file failed: a sync that failed is not tried again.
        ensures sound { OnOk result (IsUnfailed D.Device self.old.log self.new.log) }

        // What was answered is kept. From then on each crash leaves a file whose lines begin with these, no matter what
        // other processes do.
        ensures kept { OnOk result (IsKept D.Device self.new.log) }

        // A crash at any moment leaves a file whose lines begin with the known ones, even if the call fails.
        ensures any_moment { LeavesKnown D.Device self.old.log self.new.log }

        // Fault 101 names the first line that adds no entry, or the last known line if the file got shorter.
        // Otherwise the file could not be read or written, or memory ran out.
        ensures fault { IfErr result (IsFaultBetween D.Device (trace_of self.old.bench) self.old.log self.new.log) }

        // It reports a failed read only if an operation on the file failed. So it does with a failed write, unless the
        // file would have been too long with the lines of the piece. Then the file was not changed.
        ensures unread { IfErr result (IfUnread (IsFailedBetween D.Device self.old.log self.new.log)) }
        ensures unwritten { IfErr result (λ fault. fault ≡ Replay Write → IsFailedBetween D.Device self.old.log self.new.log
            ⊎ IsTooLong D.Device (trace_of self.old.bench) client first (lines_in piece.now) self.new.log) }

        // An input that could not be read is the log's file, input 2.
        ensures input { IfErr result (IsOfInput 2) }
    {
        self.is_in_step = false;
        self.catch_up(alloc)?;
        let next = self.make_piece(alloc, client, first, piece, out)?;
        let released = self.log.release();
        self.is_in_step = released.is_ok();
        match released {
            Ok(()) => Ok(next),
            Err(_) => Err(SessionFault::from(ReplayFault::Write)),
        }
    }
}
