//! The calls of a device, made of a file. Octets flow to and from a file.
ghost use Rattle.std.specs.Prelude.{◌≡◌, ◌+◌, ◌≤◌, length, take, drop, ◌∷◌, true, IfOk};
ghost use Rattle.journal.specs.Memory.{write};
ghost use Rattle.view_store.specs.Device.{Holds};

use crate::file::FileDevice;
use crate::splicing::spliced;
use std::io;
use std::os::unix::fs::FileExt;
use view_store::{Device, DeviceFailure};

impl Device for FileDevice {
    ghost seen = { λ f. f.image.items };

    ghost use Rattle.std.specs.Prelude.{length};
    ghost use Rattle.view_store.specs.Memory.{MayLeave, LeftSince};
    ghost use Rattle.view_store.specs.Replay as replay;
    ghost use Rattle.file_device.specs.History.{view_events};

    // By the rules of a device, over what the file held as it was opened and the calls since.
    ghost may_leave = { λ f. MayLeave f.known.history.base (view_events f.known.history) };

    ghost moment = { λ f. length (view_events f.known.history) };

    ghost left_since = { λ f. LeftSince f.known.history.base (view_events f.known.history) };

    ghost failure_count = { λ f. f.failures };

    ghost counts_now = { λ f t c le left. replay.counts_now f.known.history.base (view_events f.known.history) t c le
        left };

    ghost only_now = { λ f c left. replay.only_now f.known.history.base (view_events f.known.history) c left };

    fn len(&mut self) -> Result<u64, DeviceFailure> {
        let kept = self.image.len() as u64;
        match self.file.metadata() {
            Ok(about) => {
                if about.len() == kept {
                    Ok(kept)
                } else {
                    Err(self.fail())
                }
            }
            Err(_) => Err(self.fail()),
        }
    }

    fn read(&mut self, at: u64, buffer: &mut [u8]) -> Result<(), DeviceFailure> {
        let is_read = self.file.read_exact_at(buffer, at).is_ok();
        let (_, rest) = self.image.split_at(at as usize);
        let kept = &rest[..buffer.len()];
        if is_read && *buffer == *kept {
            Ok(())
        } else {
            Err(self.fail())
        }
    }

    fn write_at(&mut self, at: u64, octets: &[u8]) -> Result<(), DeviceFailure> {
        match self.written(at, octets) {
            Ok(next) => {
                self.write_over(at, octets, next);
                Ok(())
            }
            Err(_) => {
                self.known.cut_write(at, octets);
                Err(self.fail())
            }
        }
    }

    fn sync(&mut self) -> Result<(), DeviceFailure> {
        match self.file.sync_data() {
            Ok(()) => {
                self.known.settle();
                Ok(())
            }
            Err(_) => Err(self.fail()),
        }
    }

    fn failures(&self) -> u64 {
        self.failures
    }
}

impl FileDevice {
    /// Writes octets in the file, and gives what it holds then.
    fn written(&self, at: u64, octets: &[u8]) -> io::Result<Vec<u8>>
        requires { at ≤ length self.now.image.items }
        ensures { IfOk result (λ next. Holds self.now.image.items at octets.now next.items) }
    {
        let next = spliced(self.alloc, &self.image, at as usize, octets)?;
        self.file.write_all_at(octets, at)?;
        Ok(next)
    }

    /// Notes octets that were written, after which the file holds this.
    fn write_over(&mut self, at: u64, octets: &[u8], next: Vec<u8>)
        requires within { at ≤ length self.old.image.items }
        requires next { Holds self.old.image.items at octets.now next.items }
        ensures image { self.new.image ≡ next }
        ensures known { self.new.known.history ≡ record self.old.known.history {
          events = write at octets.now
              true ∷ self.old.known.history.events;
        } }
        ensures failures { self.new.failures ≡ self.old.failures }
    {
        let FileDevice {
            alloc: _,
            file: _,
            image,
            known,
            failures: _,
        } = self;
        known.write_over(at, octets);
        *image = next;
    }
}
