//! Adds batches of strings to a device, each settled by one write and one sync.
ghost use Rattle.std.specs.Prelude.{◌≡◌, ◌≤◌, ◌<◌, ◌+◌, ◌^◌, ◌++◌, length, OnOk, OnErr};
ghost use Rattle.journal.specs.Device.{HasCause, LeavesOnly};
ghost use Rattle.journal.specs.Frames.{frames, recorded};
ghost use Rattle.journal.specs.Journal.{IsSettled, IsGrown};

use crate::device::{Device, DeviceFailure};

/// A journal over a device, and where its frames end.
#[derive(Drop)]
pub struct Journal<D: Device> {
    pub device: D,
    pub end: u64,
}

impl<D: Device> Journal<D> {
    /// Adds the strings of these frames, by one write and one sync. At Ok each crash leaves all of them; a crash at any
    /// moment of the call leaves some first of them, each whole. After an error the journal must be opened again.
    pub fn append(&mut self, octets: &[u8]) -> Result<(), DeviceFailure>
        requires settled { IsSettled (D.seen self.old.device) (D.may_leave self.old.device)
            (recorded (D.seen self.old.device)) self.old.end }
        requires whole { octets.now ≡ frames (recorded octets.now) }
        requires room { self.old.end + length octets.now ≤ length (D.seen self.old.device) }
        requires short { length octets.now < 2 ^ 35 }
        requires small { self.old.end + length octets.now < 2 ^ 63 }
        ensures acknowledged { OnOk result (IsSettled (D.seen self.new.device) (D.may_leave self.new.device)
            (recorded (D.seen self.old.device) ++ recorded octets.now) self.new.end) }
        ensures read { OnOk result (recorded (D.seen self.new.device) ≡ recorded (D.seen self.old.device) ++ recorded
            octets.now) }
        ensures any_moment { LeavesOnly D.moment D.left_since self.old.device self.new.device
            (IsGrown (recorded (D.seen self.old.device)) (recorded octets.now)) }
        ensures cause { HasCause (D.failure_count self.old.device) (D.failure_count self.new.device) result }
    {
        self.device.write_at(self.end, octets)?;
        self.device.sync()?;
        self.end += octets.len() as u64;
        Ok(())
    }
}
