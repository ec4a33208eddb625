//! The calls of a journal's device, made of a file.
ghost use Rattle.std.specs.Prelude.{◌≡◌, ◌≤◌, ◌<◌, ◌+◌, ◌^◌, ◌∷◌, length, true, false, IfSome, OnOk, OnErr, IsErrOf};
ghost use Rattle.journal.specs.Memory.{grow};
ghost use Rattle.file_device.specs.History.{octets_of};
ghost use Rattle.journal.specs.Device.{HasRisen};

use crate::file::PIECE;
use crate::first_block::BLOCK;
use crate::journal_file::JournalFile;
use crate::place::is_full;
use crate::synced_mark::{MARK_AT, SUM_AT, mark_of};
use journal::{Device, DeviceFailure, FRAME_HEADER, GrowthError, nonzeros};
use std::fs::File;
use std::io::{self, ErrorKind};
use std::os::unix::fs::FileExt;
use std::sync::atomic::Ordering;

/// Writes so many zeros behind the end of a file, and syncs them: blocks that are there, and no hole.
fn write_zeros(file: &File, end: u64, octets: u64) -> io::Result<()> {
    let zeros = [0u8; PIECE];
    let mut written = 0u64;
    for _ in 0..=octets / PIECE as u64 {
        let left = octets.saturating_sub(written).min(PIECE as u64);
        file.write_all_at(&zeros[..left as usize], end.saturating_add(written))?;
        written = written.saturating_add(left);
    }
    file.sync_data()
}

/// How many octets may be synced until the first block notes it once more: each batch does. A greater step writes fewer
/// pages, and tells damage of as many octets from a torn end less often.
const MARK_STEP: u64 = 1;

/// The least first octet of a frame. What is cleared begins with 0.
const FRAME: u8 = 128;

/// Where in the file the octet of a place is.
fn place_of(at: u64) -> Option<u64>
    ensures { IfSome result (λ place. place ≡ at + 4096) }
{
    at.checked_add(BLOCK as u64)
}

impl Device for JournalFile {
    ghost use Rattle.std.specs.Prelude.{length};
    ghost use Rattle.journal.specs.Memory.{MayLeave, LeftSince};
    ghost use Rattle.journal.specs.Replay as replay;
    ghost use Rattle.file_device.specs.History.{octets_of};

    ghost seen = { λ f. octets_of f.octets.known.history };

    // By the rules of a device, over what the file held as it was opened and the calls since.
    ghost may_leave = { λ f. MayLeave f.octets.known.history.base f.octets.known.history.events };

    ghost moment = { λ f. length f.octets.known.history.events };

    ghost left_since = { λ f. LeftSince f.octets.known.history.base f.octets.known.history.events };

    ghost failure_count = { λ f. f.failures };

    ghost counts_now = { λ f t c le left. replay.counts_now f.octets.known.history.base f.octets.known.history.events
        t c le left };

    ghost only_now = { λ f c left. replay.only_now f.octets.known.history.base f.octets.known.history.events c left };

    fn len(&mut self) -> Result<u64, DeviceFailure> {
        let size = self.octets.size();
        match self.file.metadata() {
            Ok(about) => {
                if Some(about.len()) == place_of(size) {
                    Ok(size)
                } else {
                    Err(self.fail())
                }
            }
            Err(_) => Err(self.fail()),
        }
    }

    fn read(&mut self, at: u64, buffer: &mut [u8]) -> Result<(), DeviceFailure> {
        if self.octets.read(at, buffer) {
            Ok(())
        } else {
            Err(self.fail())
        }
    }

    fn forget(&mut self, before: u64) {
        if let Some(gone_over) = &self.gone_over {
            gone_over.store(before, Ordering::SeqCst);
        }
        self.octets.forget(before);
    }

    fn write_at(&mut self, at: u64, octets: &[u8]) -> Result<(), DeviceFailure> {
        if self.put(at, octets).is_err() {
            self.octets.cut_write(at, octets);
            return Err(self.fail());
        }
        self.octets.write_over(at, octets);
        Ok(())
    }

    fn sync(&mut self) -> Result<(), DeviceFailure> {
        match self.file.sync_data() {
            Ok(()) => {
                self.octets.settle();
                Ok(())
            }
            Err(_) => Err(self.fail()),
        }
    }

    fn grow(&mut self, octets: u64) -> Result<(), GrowthError> {
        self.lengthen(octets)
    }
}

impl JournalFile {
    /// Writes a mark, beside frames that are to be written from a place on, where there was none for long: all before
    /// them was synced. The sync of the frames settles it.
    fn note_synced(&mut self, at: u64, octets: &[u8]) -> io::Result<()>
        ensures octets { self.new.octets ≡ self.old.octets }
        ensures failures { self.new.failures ≡ self.old.failures }
    {
        let is_new = match self.marked {
            Some(mark) => at.saturating_sub(mark) >= MARK_STEP,
            None => true,
        };
        match octets {
            [first, ..] if *first >= FRAME && is_new => {
                let (number, sum) = mark_of(at);
                self.file.write_all_at(&number, MARK_AT as u64)?;
                self.file.write_all_at(&sum, SUM_AT as u64)?;
                self.marked = Some(at);
                Ok(())
            }
            _ => Ok(()),
        }
    }

    /// Notes that the journal cleared what stands from a place on. The start may still be refused, and then the file
    /// stays as it is: a crash before it is cleared leaves what the journal reads the same strings from.
    fn put_off(&mut self, at: u64)
        ensures octets { self.new.octets ≡ self.old.octets }
        ensures failures { self.new.failures ≡ self.old.failures }
    {
        let from = match self.uncleared {
            Some(from) => from.min(at),
            None => at,
        };
        self.uncleared = Some(from);
    }

    /// Clears what was put off: the place of a header first, so that no torn write of the rest makes a frame.
    fn clear(&mut self) -> io::Result<()>
        ensures octets { self.new.octets ≡ self.old.octets }
        ensures failures { self.new.failures ≡ self.old.failures }
    {
        let Some(from) = self.uncleared else {
            return Ok(());
        };
        let room = self.octets.size().saturating_sub(from);
        let header = room.min(FRAME_HEADER as u64);
        let place = from.saturating_add(BLOCK as u64);
        write_zeros(&self.file, place, header)?;
        write_zeros(&self.file, place.saturating_add(header), room - header)?;
        self.uncleared = None;
        Ok(())
    }

    /// Writes octets at a place of the journal. Where the first write is of zeros, it is put off.
    fn put(&mut self, at: u64, octets: &[u8]) -> io::Result<()>
        ensures octets { self.new.octets ≡ self.old.octets }
        ensures failures { self.new.failures ≡ self.old.failures }
    {
        let Some(place) = place_of(at) else {
            return Err(io::Error::from(ErrorKind::InvalidInput));
        };
        if self.marked.is_none() && nonzeros(octets) == 0 {
            self.put_off(at);
            return Ok(());
        }
        self.write_frames(at, place, octets)
    }

    /// Writes frames at a place of the journal, which is this one of the file; what was put off is cleared before that.
    fn write_frames(&mut self, at: u64, place: u64, octets: &[u8]) -> io::Result<()>
        ensures octets { self.new.octets ≡ self.old.octets }
        ensures failures { self.new.failures ≡ self.old.failures }
    {
        self.clear()?;
        self.note_synced(at, octets)?;
        self.file.write_all_at(octets, place)
    }

    /// Writes zeros behind the end, and syncs them. Where that doesn't end well, the file is cut where it ended before;
    /// why it didn't.
    fn extend(&mut self, zeros: u64) -> Result<(), GrowthError>
        ensures octets { self.new.octets ≡ self.old.octets }
        ensures later { self.old.failures ≤ self.new.failures }
        ensures cause { IsErrOf result GrowthError.DeviceFailed → HasRisen self.old.failures self.new.failures }
        ensures room { OnOk result (length (octets_of self.old.octets.known.history) + zeros < 2 ^ 64) }
    {
        let size = self.octets.size();
        let Some(end) = place_of(size) else {
            return Err(self.fail().into());
        };
        if zeros > u64::MAX - end {
            return Err(self.fail().into());
        }
        if self.clear().is_err() {
            return Err(self.fail().into());
        }
        match write_zeros(&self.file, end, zeros) {
            Ok(()) => Ok(()),
            Err(error) => Err(self.refuse(end, error.kind())),
        }
    }

    /// Writes zeros behind the end, and notes them.
    fn lengthen(&mut self, zeros: u64) -> Result<(), GrowthError>
        ensures ok { OnOk result (self.new.octets.known.history ≡ record self.old.octets.known.history
            { events = grow zeros true ∷ self.old.octets.known.history.events }) }
        ensures err { OnErr result (self.new.octets.known.history ≡ record self.old.octets.known.history
            { events = grow zeros false ∷ self.old.octets.known.history.events }) }
        ensures later { self.old.failures ≤ self.new.failures }
        ensures cause { IsErrOf result GrowthError.DeviceFailed → HasRisen self.old.failures self.new.failures }
    {
        match self.extend(zeros) {
            Ok(()) => {
                self.octets.lengthen(zeros);
                Ok(())
            }
            Err(error) => {
                self.octets.cut_growth(zeros);
                Err(error)
            }
        }
    }

    /// Cuts the file where it ended before a growth that didn't end well; why it didn't.
    fn refuse(&mut self, end: u64, kind: ErrorKind) -> GrowthError
        ensures octets { self.new.octets ≡ self.old.octets }
        ensures later { self.old.failures ≤ self.new.failures }
        ensures cause { result ≡ GrowthError.DeviceFailed → HasRisen self.old.failures self.new.failures }
    {
        if self.file.set_len(end).is_ok() && is_full(kind) {
            return GrowthError::Full;
        }
        self.fail().into()
    }
}
