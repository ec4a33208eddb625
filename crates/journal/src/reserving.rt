//! Makes room in a journal: zeros that are settled before anything is written over them.
ghost use Rattle.std.specs.Prelude.{◌≡◌, ◌≤◌, ◌<◌, ◌+◌, ◌^◌, length, Some, IfSome, OnOk, IsErrOf};
ghost use Rattle.journal.specs.Device.{HasRisen, LeavesOnly};
ghost use Rattle.journal.specs.Frames.{recorded};
ghost use Rattle.journal.specs.Journal.{IsSettled};

use crate::device::Device;
use crate::fault::GrowthError;
use crate::journal::Journal;

/// A device has fewer octets than this.
const MOST: u64 = 0x8000_0000_0000_0000;

/// A device grows by whole steps of so many octets: a growth costs a sync of its own, and changes the size of a file.
const STEP: u64 = 0x10_0000;

/// How many octets a device must grow by, so that so many find room behind the end: none where they do, else whole
/// steps. There is no answer where the device would have too many.
fn growth(length: u64, end: u64, octets: u64) -> Option<u64>
    ensures room { IfSome result (λ more. end + octets ≤ length + more) }
    ensures small { IfSome result (λ more. length + more < 2 ^ 63) }
    ensures none { end + octets ≤ length → length < 2 ^ 63 → result ≡ Some 0 }
{
    if length >= MOST || end > length || octets > MOST {
        return None;
    }
    let free = length - end;
    if octets <= free {
        return Some(0);
    }
    let lack = octets - free;
    let more = lack - lack % STEP + STEP;
    if more < MOST - length {
        Some(more)
    } else {
        None
    }
}

impl<D: Device> Journal<D> {
    /// Makes room for so many octets behind the end, where there is too little: zeros join the device's end, and are
    /// settled before anything is written over them. The strings stay, also at a crash at any moment of the call.
    /// `Full` where the device can't grow so far.
    pub fn reserve(&mut self, octets: u64) -> Result<(), GrowthError>
        requires { IsSettled (D.seen self.old.device) (D.may_leave self.old.device)
            (recorded (D.seen self.old.device)) self.old.end }
        ensures settled { OnOk result (IsSettled (D.seen self.new.device) (D.may_leave self.new.device)
            (recorded (D.seen self.new.device)) self.new.end) }
        ensures strings { OnOk result (recorded (D.seen self.new.device) ≡ recorded (D.seen self.old.device)) }
        ensures end { self.new.end ≡ self.old.end }
        ensures room { OnOk result (self.new.end + octets ≤ length (D.seen self.new.device)) }
        ensures small { OnOk result (length (D.seen self.new.device) < 2 ^ 63) }
        // It isn't full where there is room already.
        ensures full { IsErrOf result GrowthError.Full → self.old.end + octets ≤ length (D.seen self.old.device)
            → length (D.seen self.old.device) < 2 ^ 63 → ⊥ }
        ensures any_moment { LeavesOnly D.moment D.left_since self.old.device self.new.device
            (λ c. recorded c ≡ recorded (D.seen self.old.device)) }
        ensures later { D.failure_count self.old.device ≤ D.failure_count self.new.device }
        ensures device_failed { IsErrOf result GrowthError.DeviceFailed
            → HasRisen (D.failure_count self.old.device) (D.failure_count self.new.device) }
    {
        let length = self.device.len()?;
        match growth(length, self.end, octets) {
            None => Err(GrowthError::Full),
            Some(0) => Ok(()),
            Some(more) => {
                self.device.grow(more)?;
                Ok(())
            }
        }
    }
}
