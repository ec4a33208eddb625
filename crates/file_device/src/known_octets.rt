//! Notes for clauses what a file held as it was opened, and each call of the system since: no call here does anything
//! at run time, and nothing is in memory.
ghost use Rattle.std.specs.Prelude.{◌≡◌, ◌++◌, ◌∷◌, true, false};
ghost use Rattle.std.specs.Borrow.{ftrue};
ghost use Rattle.journal.specs.Memory.{write, grow, settle};
ghost use Rattle.file_device.specs.History.{History, no_history};

use std::marker::{Model, PhantomData};

/// What clauses know of a file. Only the clauses of its calls tie it to anything: each is made beside the call of the
/// system that it notes, and what is proved of a device over it is that a read gives what was noted, or fails, and that
/// a crash leaves what the rules of a device allow after these calls.
#[derive(Drop)]
pub struct KnownOctets {
    marker: PhantomData<u8>,
    pub ghost history: { History },
}

impl Model for KnownOctets {
    ghost also_owns = { λ _. ftrue };
}

impl KnownOctets {
    /// Nothing is known yet.
    pub fn new() -> KnownOctets
        ensures { result.history ≡ no_history }
    {
        KnownOctets {
            marker: PhantomData,
        }
    }

    /// Notes octets that were read behind those that the file is known to hold as it is opened.
    pub fn join(&mut self, _octets: &[u8])
        ensures { self.new.history ≡ record self.old.history { base = self.old.history.base ++ _octets.now } }
    {}

    /// Notes octets that were written over those of a place.
    pub fn write_over(&mut self, _at: u64, _octets: &[u8])
        ensures { self.new.history ≡ record self.old.history {
          events = write _at _octets.now
              true ∷ self.old.history.events;
        } }
    {}

    /// Notes a write that was done in part or not at all.
    pub fn cut_write(&mut self, _at: u64, _octets: &[u8])
        ensures { self.new.history ≡ record self.old.history {
          events = write _at _octets.now
              false ∷ self.old.history.events;
        } }
    {}

    /// Notes so many zeros that were written behind the end, and synced.
    pub fn lengthen(&mut self, _zeros: u64)
        ensures { self.new.history ≡ record self.old.history { events = grow _zeros true ∷ self.old.history.events } }
    {}

    /// Notes a growth that was done in part or not at all.
    pub fn cut_growth(&mut self, _zeros: u64)
        ensures { self.new.history ≡ record self.old.history { events = grow _zeros false ∷ self.old.history.events } }
    {}

    /// Notes a sync that succeeded.
    pub fn settle(&mut self)
        ensures { self.new.history ≡ record self.old.history { events = settle ∷ self.old.history.events } }
    {}
}
