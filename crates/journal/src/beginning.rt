//! Reads a journal that is to hold nothing yet, and clears what a crash left behind a journal's strings.
ghost use Rattle.std.specs.Prelude.{◌≡◌, ◌≢◌, ◌≤◌, [], drop, false, None, IfOk, IfSome, OnOk, IsErrOf};
ghost use Rattle.journal.specs.Device.{HasRisen, LeavesOnly, Only};
ghost use Rattle.journal.specs.Frames.{is_whole, recorded};
ghost use Rattle.journal.specs.Journal.{IsSettled};
ghost use Rattle.journal.specs.Reading.{HasRead};

use crate::device::Device;
use crate::fault::JournalError;
use crate::journal::Journal;
use crate::reader::StringReader;
use std::alloc::Global;

impl<D: Device> Journal<D> {
    /// Reads a journal that is to hold nothing: a reader in front of what stands there; none where it holds something.
    /// Nothing is written.
    pub fn read_empty(&mut self, alloc: Global) -> Result<Option<StringReader>, JournalError>
        // After a restart, what is read is what is on the disk.
        requires { Only (D.seen self.old.device) (D.may_leave self.old.device) }
        ensures read { IfOk result (λ found. IfSome found (λ reader. HasRead reader (D.seen self.new.device))) }
        ensures none { IfOk result
            (λ found. IfSome found (λ reader. is_whole (drop reader.end (D.seen self.new.device)) ≡ false)) }
        ensures empty { IfOk result (λ found. IfSome found (λ reader. recorded (D.seen self.old.device) ≡ [])) }
        ensures not_empty { IfOk result (λ found. found ≡ None → recorded (D.seen self.old.device) ≢ []) }
        ensures seen { D.seen self.new.device ≡ D.seen self.old.device }
        ensures durable { Only (D.seen self.new.device) (D.may_leave self.new.device) }
        ensures any_moment { LeavesOnly D.moment D.left_since self.old.device self.new.device
            (λ c. recorded c ≡ recorded (D.seen self.old.device)) }
        ensures later { D.failure_count self.old.device ≤ D.failure_count self.new.device }
        ensures failed { IsErrOf result JournalError.DeviceFailed
            → HasRisen (D.failure_count self.old.device) (D.failure_count self.new.device) }
    {
        let mut reader = StringReader::new(alloc, &mut self.device)?;
        if reader.advance(&mut self.device)? {
            return Ok(None);
        }
        Ok(Some(reader))
    }

    /// Clears what stands behind the strings that a reader has read, where no frame stands; the journal may be written
    /// to then. A crash at any moment of the call leaves the same strings. Out of memory, nothing is written.
    pub fn clear_behind(&mut self, alloc: Global, reader: &StringReader) -> Result<(), JournalError>
        requires read { HasRead reader.now (D.seen self.old.device) }
        requires none { is_whole (drop reader.now.end (D.seen self.old.device)) ≡ false }
        requires durable { Only (D.seen self.old.device) (D.may_leave self.old.device) }
        ensures settled { OnOk result (IsSettled (D.seen self.new.device) (D.may_leave self.new.device)
            (recorded (D.seen self.old.device)) self.new.end) }
        ensures no_memory { IsErrOf result JournalError.NoMemory → D.seen self.new.device ≡ D.seen self.old.device }
        ensures any_moment { LeavesOnly D.moment D.left_since self.old.device self.new.device
            (λ c. recorded c ≡ recorded (D.seen self.old.device)) }
        ensures later { D.failure_count self.old.device ≤ D.failure_count self.new.device }
        ensures failed { IsErrOf result JournalError.DeviceFailed
            → HasRisen (D.failure_count self.old.device) (D.failure_count self.new.device) }
    {
        reader.clear(alloc, &mut self.device)?;
        self.end = reader.end;
        Ok(())
    }
}
