//! Clears what a crash left behind the strings of a device: zeros are written over it, piece by piece.
ghost use Rattle.std.specs.Prelude.{◌≡◌, ◌≤◌, ◌<◌, ◌+◌, ◌^◌, length, min, replicate, OnOk, IsErrOf};
ghost use Rattle.journal.specs.Device.{HasCause, HasRisen, LeavesOnly, Only};
ghost use Rattle.journal.specs.Frames.{recorded};
ghost use Rattle.journal.specs.Journal.{IsRead, IsSettled};
ghost use Rattle.journal.specs.private.Journal.{Cleared};

use crate::device::{Device, DeviceFailure};
use crate::fault::JournalError;
use crate::frames::FRAME_HEADER;
use std::alloc::Global;

/// So many octets are read or cleared at once, where there are as many.
pub const PIECE: u64 = 65_536;

/// Writes zeros over the place of a header, so that no frame stands there.
fn clear_header<D: Device>(
    device: &mut D,
    end: u64,
    zeros: &[u8],
    room: u64,
) -> Result<(), DeviceFailure>
    requires read { IsRead (recorded (D.seen device.old)) end (D.seen device.old) }
    requires durable { Only (D.seen device.old) (D.may_leave device.old) }
    requires zeros { zeros.now ≡ replicate (length zeros.now) 0 }
    requires header { length zeros.now ≡ min room 10 }
    requires room { end + room ≡ length (D.seen device.old) }
    ensures cleared { OnOk result (Cleared (recorded (D.seen device.old)) end (min room 10) room (D.seen device.new)) }
    ensures durable { OnOk result (Only (D.seen device.new) (D.may_leave device.new)) }
    ensures any_moment { LeavesOnly D.moment D.left_since device.old device.new (λ c. recorded c ≡
        recorded (D.seen device.old)) }
    ensures cause { HasCause (D.failure_count device.old) (D.failure_count device.new) result }
{
    device.write_at(end, zeros)?;
    device.sync()?;
    Ok(())
}

/// Writes zeros over all behind the place of a header, once no header stands there: piece by piece, and then one sync.
fn clear_rest<D: Device>(
    device: &mut D,
    end: u64,
    zeros: &[u8],
    header: u64,
    room: u64,
) -> Result<(), DeviceFailure>
    requires cleared { Cleared (recorded (D.seen device.old)) end header room (D.seen device.old) }
    requires durable { Only (D.seen device.old) (D.may_leave device.old) }
    requires zeros { zeros.now ≡ replicate (length zeros.now) 0 }
    requires some { min room 1 ≤ length zeros.now }
    requires header { header ≡ min room 10 }
    requires room { end + room ≡ length (D.seen device.old) }
    requires fits { end + room < 2 ^ 64 }
    ensures settled { OnOk result (IsSettled (D.seen device.new) (D.may_leave device.new)
        (recorded (D.seen device.old)) end) }
    ensures any_moment { LeavesOnly D.moment D.left_since device.old device.new (λ c. recorded c ≡
        recorded (D.seen device.old)) }
    ensures cause { HasCause (D.failure_count device.old) (D.failure_count device.new) result }
{
    let mut done = header;
    while done < room {
        let piece = (room - done).min(zeros.len() as u64);
        device.write_at(end + done, &zeros[..piece as usize])?;
        done += piece;
    }
    device.sync()?;
    Ok(())
}

/// Clears all behind the strings of a device of this size: first the place of a header, so that no torn write of the
/// rest can make a frame there, then the rest. A crash at any moment of the call leaves the same strings. Out of
/// memory, nothing is written.
pub fn clear<D: Device>(
    alloc: Global,
    device: &mut D,
    end: u64,
    size: u64,
) -> Result<(), JournalError>
    requires read { IsRead (recorded (D.seen device.old)) end (D.seen device.old) }
    requires durable { Only (D.seen device.old) (D.may_leave device.old) }
    requires size { size ≡ length (D.seen device.old) }
    ensures settled { OnOk result (IsSettled (D.seen device.new) (D.may_leave device.new)
        (recorded (D.seen device.old)) end) }
    ensures any_moment { LeavesOnly D.moment D.left_since device.old device.new (λ c. recorded c ≡
        recorded (D.seen device.old)) }
    ensures no_memory { IsErrOf result JournalError.NoMemory → device.new ≡ device.old }
    ensures later { D.failure_count device.old ≤ D.failure_count device.new }
    ensures failed { IsErrOf result JournalError.DeviceFailed → HasRisen (D.failure_count device.old)
        (D.failure_count device.new) }
{
    let room = size - end;
    let header = room.min(FRAME_HEADER as u64);
    let zeros = vec![in alloc; 0u8; room.min(PIECE) as usize]?;
    clear_header(device, end, &zeros[..header as usize], room)?;
    clear_rest(device, end, &zeros, header, room)?;
    Ok(())
}
