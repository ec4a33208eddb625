//! The device under a journal: what a read gives, and what a crash may leave.
ghost use Rattle.std.specs.Prelude.{◌≡◌, ◌≤◌, ◌+◌, ◌++◌, List, ℕ, length, take, drop, replicate, IfOk, OnOk, OnErr, IsErrOf};
ghost use Rattle.journal.specs.Device.{Only, Follows, Mixed, Holds, Grown, Longer, Elapses, HasCause, HasRisen};

use crate::fault::GrowthError;
use thiserror::Error;

/// The device itself failed: a call was not done, or done in part.
#[derive(Clone, Copy, Debug, PartialEq, Eq, Error)]
#[error("the device failed")]
pub struct DeviceFailure;

/// Octets that outlive a crash. Between two syncs each octet of a written range is, after a crash, what was there or
/// what was written; other octets stay; after a sync that succeeded a crash leaves what a read gives.
pub trait Device {
    /// The octets that a read gives.
    ghost seen: { Self → List ℕ };

    /// What a crash at this moment may leave.
    ghost may_leave: { Self → List ℕ → Type 0 };

    /// The moment, as a number that doesn't fall.
    ghost moment: { Self → ℕ };

    /// What a crash at some moment from that one on might have left, during a call or between two.
    ghost left_since: { Self → ℕ → List ℕ → Type 0 };

    /// How often the device has failed.
    ghost failure_count: { Self → ℕ };

    /// The number of octets.
    fn len(&mut self) -> Result<u64, DeviceFailure>
        ensures length { IfOk result (λ n. n ≡ length (seen self.old)) }
        ensures seen { seen self.new ≡ seen self.old }
        ensures crash { (c : List ℕ) → may_leave self.new c → may_leave self.old c }
        ensures time { Elapses (moment self.old) (moment self.new) (left_since self.old) (left_since self.new)
            (may_leave self.new) }
        ensures cause { HasCause (failure_count self.old) (failure_count self.new) result };

    /// Fills the buffer with the octets from a place on.
    fn read(&mut self, at: u64, buffer: &mut [u8]) -> Result<(), DeviceFailure>
        requires { at + length buffer.old ≤ length (seen self.old) }
        ensures octets { OnOk result (buffer.new ≡ take (length buffer.old) (drop at (seen self.old))) }
        ensures seen { seen self.new ≡ seen self.old }
        ensures crash { (c : List ℕ) → may_leave self.new c → may_leave self.old c }
        ensures time { Elapses (moment self.old) (moment self.new) (left_since self.old) (left_since self.new)
            (may_leave self.new) }
        ensures cause { HasCause (failure_count self.old) (failure_count self.new) result };

    /// The octets before a place won't be read again. A device that keeps octets may let go of these; a read of them
    /// may fail then.
    fn forget(&mut self, before: u64)
        ensures seen { seen self.new ≡ seen self.old }
        ensures crash { (c : List ℕ) → may_leave self.new c → may_leave self.old c }
        ensures time { Elapses (moment self.old) (moment self.new) (left_since self.old) (left_since self.new)
            (may_leave self.new) }
        ensures later { failure_count self.old ≤ failure_count self.new };

    /// Writes over what is there. Until a sync, a crash may leave each octet of the range as it was or as it is
    /// written; so may a write that failed. After that one a read gives each octet of the range as it was or as it was
    /// to be written.
    fn write_at(&mut self, at: u64, octets: &[u8]) -> Result<(), DeviceFailure>
        requires { at + length octets.now ≤ length (seen self.old) }
        ensures written { OnOk result (Holds (seen self.old) at octets.now (seen self.new)) }
        ensures failed { OnErr result (Mixed at octets.now (seen self.old) (seen self.new)) }
        ensures crash { Follows (Mixed at octets.now) (may_leave self.old) (may_leave self.new) }
        ensures time { Elapses (moment self.old) (moment self.new) (left_since self.old) (left_since self.new)
            (may_leave self.new) }
        ensures cause { HasCause (failure_count self.old) (failure_count self.new) result };

    /// After it, a crash leaves what a read gives.
    fn sync(&mut self) -> Result<(), DeviceFailure>
        ensures durable { OnOk result (Only (seen self.old) (may_leave self.new)) }
        ensures seen { seen self.new ≡ seen self.old }
        ensures crash { (c : List ℕ) → may_leave self.new c → may_leave self.old c }
        ensures time { Elapses (moment self.old) (moment self.new) (left_since self.old) (left_since self.new)
            (may_leave self.new) }
        ensures cause { HasCause (failure_count self.old) (failure_count self.new) result };

    /// Joins so many zeros to the end and settles them: a crash after it leaves them behind what it might have left
    /// before. A crash during it, or after an error, leaves some first of them there.
    fn grow(&mut self, octets: u64) -> Result<(), GrowthError>
        ensures grown { OnOk result (seen self.new ≡ seen self.old ++ replicate octets 0) }
        ensures durable { OnOk result (Follows (Longer octets) (may_leave self.old) (may_leave self.new)) }
        ensures full { IsErrOf result GrowthError.Full → seen self.new ≡ seen self.old }
        ensures crash { Follows (Grown octets) (may_leave self.old) (may_leave self.new) }
        ensures time { Elapses (moment self.old) (moment self.new) (left_since self.old) (left_since self.new)
            (may_leave self.new) }
        ensures later { failure_count self.old ≤ failure_count self.new }
        ensures cause { IsErrOf result GrowthError.DeviceFailed → HasRisen (failure_count self.old)
            (failure_count self.new) };

    /// This moment is one of those since an earlier one.
    ghost counts_now: { (device : Self) (t : ℕ) (c : List ℕ) → t ≤ moment device → may_leave device c →
        left_since device t c };

    /// Since this moment there is no other.
    ghost only_now: { (device : Self) (c : List ℕ) → left_since device (moment device) c → may_leave device c };
}
