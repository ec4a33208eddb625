//! Reads a device's strings one after another. Octets are read by pieces, and each string is looked at where its piece
//! lies.
ghost use Rattle.std.specs.Prelude.{◌≡◌, ◌≤◌, ◌<◌, ◌+◌, ◌-◌, ◌^◌, ◌++◌, length, min, take, drop, false, IfOk, OnOk, IsErrOf, vec_len};
ghost use Rattle.journal.specs.Device.{HasCause, HasRisen, LeavesOnly, Only};
ghost use Rattle.journal.specs.Frames.{is_whole, recorded};
ghost use Rattle.journal.specs.Journal.{IsSettled};
ghost use Rattle.journal.specs.Reading.{Advances, HasRead, ahead, string_read};
ghost use Rattle.journal.specs.private.Reading.{TakesFrame};

use crate::device::{Device, DeviceFailure};
use crate::fault::JournalError;
use crate::frames::{FRAME_HEADER, announced, string_size};
use crate::reader::StringReader;
use crate::zeroing::{PIECE, clear};
use std::alloc::Global;

/// Leaves out the first octets.
fn leave_out(octets: &mut Vec<u8>, count: usize)
    requires { count ≤ vec_len octets.old }
    ensures { octets.new.items ≡ drop count octets.old.items }
{
    let kept = octets.len() - count;
    octets.copy_within(count.., 0);
    octets.truncate(kept);
}

/// Joins octets of a device, from a place on, to those in memory; the device is told that these and all before won't be
/// read again. After an error these are of no use.
fn read_more<D: Device>(
    device: &mut D,
    octets: &mut Vec<u8>,
    at: u64,
    more: usize,
) -> Result<(), JournalError>
    requires durable { Only (D.seen device.old) (D.may_leave device.old) }
    requires there { at + more ≤ length (D.seen device.old) }
    requires fits { vec_len octets.old + more < 2 ^ 64 }
    ensures octets { OnOk result (octets.new.items ≡ octets.old.items ++ take more (drop at (D.seen device.old))) }
    ensures seen { D.seen device.new ≡ D.seen device.old }
    ensures durable { Only (D.seen device.new) (D.may_leave device.new) }
    ensures any_moment { LeavesOnly D.moment D.left_since device.old device.new (λ c. recorded c ≡
        recorded (D.seen device.old)) }
    ensures later { D.failure_count device.old ≤ D.failure_count device.new }
    ensures failed { IsErrOf result JournalError.DeviceFailed → HasRisen (D.failure_count device.old)
        (D.failure_count device.new) }
{
    let held = octets.len();
    octets.resize(held + more, 0)?;
    device.read(at, &mut octets[held..])?;
    device.forget(at.saturating_add(more as u64));
    Ok(())
}

impl StringReader {
    /// A reader in front of the first string of a device.
    pub fn new<D: Device>(alloc: Global, device: &mut D) -> Result<StringReader, DeviceFailure>
        requires { Only (D.seen device.old) (D.may_leave device.old) }
        ensures read { IfOk result (λ reader. HasRead reader (D.seen device.new)) }
        ensures end { IfOk result (λ reader. reader.end ≡ 0) }
        ensures seen { D.seen device.new ≡ D.seen device.old }
        ensures durable { Only (D.seen device.new) (D.may_leave device.new) }
        ensures any_moment { LeavesOnly D.moment D.left_since device.old device.new (λ c. recorded c ≡
            recorded (D.seen device.old)) }
        ensures cause { HasCause (D.failure_count device.old) (D.failure_count device.new) result }
    {
        let size = device.len()?;
        Ok(StringReader {
            end: 0,
            size,
            window: Vec::new(alloc),
            string_start: 0,
            string_end: 0,
        })
    }

    /// The string that was read last; no octets before the first.
    pub fn string(&self) -> &[u8]
        ensures { result.now ≡ string_read self.now }
    {
        &self.window[self.string_start..self.string_end]
    }

    /// The octets ahead.
    fn ahead(&self) -> &[u8]
        ensures { result.now ≡ ahead self.now }
    {
        &self.window[self.string_end..]
    }

    /// Moves the octets ahead to the front of the window.
    fn leave_string(&mut self)
        ensures window { self.new.window.items ≡ ahead self.old }
        ensures string { self.new.string_end ≡ 0 }
        ensures end { self.new.end ≡ self.old.end }
        ensures size { self.new.size ≡ self.old.size }
    {
        let count = self.string_end;
        self.string_start = 0;
        self.string_end = 0;
        leave_out(&mut self.window, count);
    }

    /// Joins octets of a device, from a place on, to the window. After an error the reader is of no use.
    fn join<D: Device>(&mut self, device: &mut D, at: u64, more: usize) -> Result<(), JournalError>
        requires durable { Only (D.seen device.old) (D.may_leave device.old) }
        requires there { at + more ≤ length (D.seen device.old) }
        requires fits { vec_len self.old.window + more < 2 ^ 64 }
        requires string { self.old.string_end ≡ 0 }
        ensures octets { OnOk result (self.new.window.items ≡ self.old.window.items ++ take more
            (drop at (D.seen device.old))) }
        ensures string { self.new.string_end ≡ 0 }
        ensures end { self.new.end ≡ self.old.end }
        ensures size { self.new.size ≡ self.old.size }
        ensures seen { D.seen device.new ≡ D.seen device.old }
        ensures durable { Only (D.seen device.new) (D.may_leave device.new) }
        ensures any_moment { LeavesOnly D.moment D.left_since device.old device.new (λ c. recorded c ≡
            recorded (D.seen device.old)) }
        ensures later { D.failure_count device.old ≤ D.failure_count device.new }
        ensures failed { IsErrOf result JournalError.DeviceFailed → HasRisen (D.failure_count device.old)
            (D.failure_count device.new) }
    {
        read_more(device, &mut self.window, at, more)
    }

    /// Has so many octets ahead, or all that the device has; it reads a piece where there are fewer. After an error the
    /// reader is of no use.
    fn fill<D: Device>(&mut self, device: &mut D, wanted: u64) -> Result<(), JournalError>
        requires read { HasRead self.old (D.seen device.old) }
        requires durable { Only (D.seen device.old) (D.may_leave device.old) }
        ensures read { OnOk result (HasRead self.new (D.seen device.new)) }
        ensures filled { OnOk result (min wanted (length (D.seen device.old) - self.old.end) ≤ length
            (ahead self.new)) }
        ensures end { self.new.end ≡ self.old.end }
        ensures size { self.new.size ≡ self.old.size }
        ensures seen { D.seen device.new ≡ D.seen device.old }
        ensures durable { Only (D.seen device.new) (D.may_leave device.new) }
        ensures any_moment { LeavesOnly D.moment D.left_since device.old device.new (λ c. recorded c ≡
            recorded (D.seen device.old)) }
        ensures later { D.failure_count device.old ≤ D.failure_count device.new }
        ensures failed { IsErrOf result JournalError.DeviceFailed → HasRisen (D.failure_count device.old)
            (D.failure_count device.new) }
    {
        let held = self.ahead().len() as u64;
        let left = self.size - self.end - held;
        if wanted <= held || left == 0 {
            return Ok(());
        }
        let more = (wanted - held).max(PIECE).min(left);
        self.leave_string();
        self.join(device, self.end + held, more as usize)?;
        Ok(())
    }

    /// Takes the frame at the front of what is ahead; whether there is a whole one.
    fn take_frame(&mut self) -> bool
        requires { self.old.end + length (ahead self.old) ≤ self.old.size }
        ensures { TakesFrame result self.old self.new }
    {
        match string_size(self.ahead()) {
            Some(size) => {
                self.string_start = self.string_end + FRAME_HEADER;
                self.string_end = self.string_start + size;
                self.end += (FRAME_HEADER + size) as u64;
                true
            }
            None => false,
        }
    }

    /// Reads the next string; whether there is one. A header that announces more than the device has is no frame. A
    /// crash at any moment of the call leaves the same strings; after an error the reader is of no use.
    pub fn advance<D: Device>(&mut self, device: &mut D) -> Result<bool, JournalError>
        requires read { HasRead self.old (D.seen device.old) }
        requires durable { Only (D.seen device.old) (D.may_leave device.old) }
        ensures string { IfOk result (λ more. Advances more self.old self.new (D.seen device.old)) }
        ensures read { OnOk result (HasRead self.new (D.seen device.new)) }
        ensures seen { D.seen device.new ≡ D.seen device.old }
        ensures durable { Only (D.seen device.new) (D.may_leave device.new) }
        ensures any_moment { LeavesOnly D.moment D.left_since device.old device.new (λ c. recorded c ≡
            recorded (D.seen device.old)) }
        ensures later { D.failure_count device.old ≤ D.failure_count device.new }
        ensures failed { IsErrOf result JournalError.DeviceFailed → HasRisen (D.failure_count device.old)
            (D.failure_count device.new) }
    {
        self.fill(device, FRAME_HEADER as u64)?;
        let Some(octets) = announced(self.ahead()) else {
            return Ok(false);
        };
        if octets > self.size - self.end {
            return Ok(false);
        }
        self.fill(device, octets)?;
        Ok(self.take_frame())
    }

    /// Clears all behind the last string, where no frame stands; nothing of the device is read again. A crash at any
    /// moment of the call leaves the same strings. Out of memory, nothing is written.
    pub fn clear<D: Device>(&self, alloc: Global, device: &mut D) -> Result<(), JournalError>
        requires read { HasRead self.now (D.seen device.old) }
        requires none { is_whole (drop self.now.end (D.seen device.old)) ≡ false }
        requires durable { Only (D.seen device.old) (D.may_leave device.old) }
        ensures settled { OnOk result (IsSettled (D.seen device.new) (D.may_leave device.new)
            (recorded (D.seen device.old)) self.now.end) }
        ensures any_moment { LeavesOnly D.moment D.left_since device.old device.new (λ c. recorded c ≡
            recorded (D.seen device.old)) }
        ensures no_memory { IsErrOf result JournalError.NoMemory → D.seen device.new ≡ D.seen device.old }
        ensures later { D.failure_count device.old ≤ D.failure_count device.new }
        ensures failed { IsErrOf result JournalError.DeviceFailed → HasRisen (D.failure_count device.old)
            (D.failure_count device.new) }
    {
        device.forget(self.size);
        clear(alloc, device, self.end, self.size)
    }
}
