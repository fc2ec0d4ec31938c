//! A file as the log sees it: what a read returns, and what a crash may leave.
ghost use Rattle.std.specs.Prelude.{◌≡◌, ◌≢◌, ◌≤◌, ◌<◌, ◌^◌, List, ℕ, ◌∷◌, Bool, true, false, Option, Some, None, length, take, drop, IfOk, IfErr, IsErrOf, OnOk, OnErr};
ghost use Rattle.kept_log.specs.declared.device.DeviceError.TheVariants.{Memory, Failed, Shorter};
ghost use Rattle.kept_log.specs.Device.{Only, Follows, Torn, Cut, Holds, Elapses, HasCause, OthersMay, AfterOthers};

use std::alloc::{AllocError, AllocFailed, Global};

#[derive(Clone, Copy, Debug, PartialEq, Eq)]
pub enum DeviceError {
    /// A growth was refused; the file was not touched.
    Memory,
    /// A call of the file failed.
    Failed,
    /// The file ends before the place that is known: something else changed it.
    Shorter,
}

impl From<AllocError> for DeviceError {
    ghost from_gives = { λ _ e. e ≡ Memory };

    fn from(_: AllocError) -> Self {
        DeviceError::Memory
    }
}

impl<T: Drop> From<AllocFailed<T>> for DeviceError {
    ghost from_gives = { λ _ e. e ≡ Memory };

    fn from(_: AllocFailed<T>) -> Self {
        DeviceError::Memory
    }
}

pub trait Device {
    /// The bytes that a read returns.
    ghost seen: { Self → List ℕ };

    /// What a crash at this moment may leave.
    ghost may_leave: { Self → List ℕ → Type 0 };

    /// The moment, as a number that doesn't fall.
    ghost moment: { Self → ℕ };

    /// What a crash at some moment from that one on might have left, during a call or between two.
    ghost left_since: { Self → ℕ → List ℕ → Type 0 };

    /// How often the disk has failed.
    ghost faults: { Self → ℕ };

    /// Whether the file's lock is held.
    ghost is_held: { Self → Bool };

    /// What stood in the file each time that its lock was taken, the last time first; `None` if it ended before the place that was known.
    ghost found: { Self → List (Option (List ℕ)) };

    /// Waits for the file's lock, and reads the bytes from a place on. The premise on others: until then they changed
    /// nothing before that place. A read under the lock is what is seen from then on.
    fn take_over(&mut self, alloc: Global, gate: usize) -> Result<Vec<u8>, DeviceError>
        requires { gate ≤ length (seen self.old) }
        ensures bytes { IfOk result (λ bytes. drop gate (seen self.new) ≡ bytes.items) }
        ensures fits { OnOk result (length (seen self.new) < 2 ^ 63) }
        ensures held { OnOk result (is_held self.new ≡ true) }
        ensures found { OnOk result (found self.new ≡ Some (seen self.new) ∷ found self.old) }
        ensures none_found { IfErr result (λ why. why ≢ Shorter → found self.new ≡ found self.old) }

        // `Shorter` is answered only if the file ended before the place.
        ensures shorter { IsErrOf result Shorter → (0 < gate) × (found self.new ≡ None ∷ found self.old) }

        ensures others { OthersMay gate (seen self.old) (seen self.new) }
        ensures crash { (c : List ℕ) → may_leave self.new c → AfterOthers gate (may_leave self.old) c }
        ensures time { Elapses (moment self.old) (moment self.new) (left_since self.old) (left_since self.new) (AfterOthers gate (may_leave self.old)) }
        ensures cause { HasCause (faults self.old) (faults self.new) result };

    /// Lets the lock go. From then on a crash leaves what others made of the file from that place on.
    fn release(&mut self, gate: usize) -> Result<(), DeviceError>
        requires { gate ≤ length (seen self.old) }
        ensures free { OnOk result (is_held self.new ≡ false) }
        ensures found { found self.new ≡ found self.old }
        ensures seen { seen self.new ≡ seen self.old }
        ensures crash { (c : List ℕ) → may_leave self.new c → AfterOthers gate (may_leave self.old) c }
        ensures time { Elapses (moment self.old) (moment self.new) (left_since self.old) (left_since self.new) (AfterOthers gate (may_leave self.old)) }
        ensures cause { HasCause (faults self.old) (faults self.new) result }
        ensures only { IfErr result (λ why. why ≡ Failed) };

    /// Writes over what is there, and past the end. Until a sync, a crash may leave any bytes in the range. A
    /// failed call shows what a torn one leaves.
    fn write_at(&mut self, at: usize, bytes: &[u8]) -> Result<(), DeviceError>
        requires within { at ≤ length (seen self.old) }
        requires held { is_held self.old ≡ true }
        ensures held { is_held self.new ≡ true }
        ensures found { found self.new ≡ found self.old }
        ensures written { OnOk result (Holds (seen self.old) at bytes.now (seen self.new)) }
        ensures torn { OnErr result (Torn at (length bytes.now) (seen self.old) (seen self.new)) }
        ensures crash { Follows (Torn at (length bytes.now)) (may_leave self.old) (may_leave self.new) }
        ensures time { Elapses (moment self.old) (moment self.new) (left_since self.old) (left_since self.new) (may_leave self.new) }
        ensures cause { HasCause (faults self.old) (faults self.new) result }
        ensures not_shorter { IfErr result (λ why. why ≢ Shorter) }

        // If memory ran out, nothing was written.
        ensures memory { IsErrOf result Memory → seen self.new ≡ seen self.old };

    /// Cuts the file to a length. A failed call shows some length between.
    fn cut(&mut self, len: usize) -> Result<(), DeviceError>
        requires within { len ≤ length (seen self.old) }
        requires held { is_held self.old ≡ true }
        ensures held { is_held self.new ≡ true }
        ensures found { found self.new ≡ found self.old }
        ensures cut { OnOk result (seen self.new ≡ take len (seen self.old)) }
        ensures short { OnErr result (Cut len (seen self.old) (seen self.new)) }
        ensures crash { Follows (Cut len) (may_leave self.old) (may_leave self.new) }
        ensures time { Elapses (moment self.old) (moment self.new) (left_since self.old) (left_since self.new) (may_leave self.new) }
        ensures cause { HasCause (faults self.old) (faults self.new) result }
        ensures not_shorter { IfErr result (λ why. why ≢ Shorter) };

    /// After it, a crash leaves what a read returns.
    fn sync(&mut self) -> Result<(), DeviceError>
        ensures durable { OnOk result (Only (seen self.old) (may_leave self.new)) }
        ensures held { is_held self.new ≡ is_held self.old }
        ensures found { found self.new ≡ found self.old }
        ensures seen { seen self.new ≡ seen self.old }
        ensures crash { (c : List ℕ) → may_leave self.new c → may_leave self.old c }
        ensures time { Elapses (moment self.old) (moment self.new) (left_since self.old) (left_since self.new) (may_leave self.new) }
        ensures cause { HasCause (faults self.old) (faults self.new) result }
        ensures only { IfErr result (λ why. why ≡ Failed) };

    /// What a crash may leave now counts as left since each earlier moment.
    ghost counts_now: { (file : Self) (t : ℕ) (c : List ℕ) → t ≤ moment file → may_leave file c → left_since file t c };

    /// Since this moment there is no other.
    ghost only_now: { (file : Self) (c : List ℕ) → left_since file (moment file) c → may_leave file c };
}
