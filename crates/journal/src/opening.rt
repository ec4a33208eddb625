//! Opens a journal with all its strings in memory: the plain reading that a reader is compared with.
ghost use Rattle.std.specs.Prelude.{◌≡◌, ◌≤◌, IfOk, OnOk, IsErrOf};
ghost use Rattle.journal.specs.Device.{HasRisen, LeavesOnly, Only};
ghost use Rattle.journal.specs.Frames.{recorded};
ghost use Rattle.journal.specs.Journal.{IsRead, IsSettled, octets_of};

use crate::device::Device;
use crate::fault::JournalError;
use crate::frames::next_string;
use crate::zeroing::clear;
use std::alloc::{AllocError, Global};

/// What a device holds: strings, and where their frames end.
#[derive(Drop)]
pub struct DeviceContents {
    pub strings: Vec<Vec<u8>>,
    pub end: u64,
}

/// The strings at the front of these octets. Its only error is want of memory.
pub fn read_strings(alloc: Global, octets: &[u8]) -> Result<DeviceContents, AllocError>
    ensures { IfOk result (λ found. IsRead (octets_of found.strings.items) found.end octets.now) }
{
    let mut strings = Vec::new(alloc);
    let mut rest = octets;
    while let Some((string, behind)) = next_string(rest) {
        strings.push(string.to_vec(alloc)?)?;
        rest = behind;
    }
    let end = (octets.len() - rest.len()) as u64;
    Ok(DeviceContents { strings, end })
}

/// Opens a device that a crash may have left: gives all its strings at once, and clears all behind them. A crash at any
/// moment of the call leaves the same strings. What takes memory comes before anything is written. `StringReader` gives
/// the same strings one by one; tests compare.
pub fn open<D: Device>(alloc: Global, device: &mut D) -> Result<DeviceContents, JournalError>
    // After a restart, what is read is what is on the disk.
    requires { Only (D.seen device.old) (D.may_leave device.old) }
    ensures strings { IfOk result (λ found. octets_of found.strings.items ≡ recorded (D.seen device.old)) }
    ensures settled { IfOk result (λ found. IsSettled (D.seen device.new) (D.may_leave device.new)
        (recorded (D.seen device.old)) found.end) }
    ensures any_moment { LeavesOnly D.moment D.left_since device.old device.new (λ c. recorded c ≡
        recorded (D.seen device.old)) }
    ensures later { D.failure_count device.old ≤ D.failure_count device.new }
    ensures failed { IsErrOf result JournalError.DeviceFailed → HasRisen (D.failure_count device.old)
        (D.failure_count device.new) }
{
    let octets = read_all(alloc, device)?;
    let found = read_strings(alloc, &octets)?;
    clear(alloc, device, found.end, octets.len() as u64)?;
    Ok(found)
}

/// All octets of a device.
fn read_all<D: Device>(alloc: Global, device: &mut D) -> Result<Vec<u8>, JournalError>
    requires { Only (D.seen device.old) (D.may_leave device.old) }
    ensures octets { IfOk result (λ octets. octets.items ≡ D.seen device.old) }
    ensures seen { D.seen device.new ≡ D.seen device.old }
    ensures durable { Only (D.seen device.new) (D.may_leave device.new) }
    ensures any_moment { LeavesOnly D.moment D.left_since device.old device.new (λ c. recorded c ≡
        recorded (D.seen device.old)) }
    ensures later { D.failure_count device.old ≤ D.failure_count device.new }
    ensures failed { IsErrOf result JournalError.DeviceFailed → HasRisen (D.failure_count device.old)
        (D.failure_count device.new) }
{
    let length = device.len()?;
    let mut octets = vec![in alloc; 0u8; length as usize]?;
    device.read(0, &mut octets)?;
    Ok(octets)
}
