//! A device in memory, for tests: it fails or stops at a call that was set beforehand. It keeps a record of its calls,
//! from which follows what a crash may leave.
ghost use Rattle.std.specs.Prelude.{◌≡◌, ◌⊎◌, List, ℕ, ◌++◌, ◌∷◌, [], ◌≤◌, ◌+◌, ◌-◌, length, IfOk, OnOk, OnErr};

use crate::crashing::{Fate, crashed_image};
use crate::device::DeviceFailure;
use crate::record::{Call, Fault};
use crate::splicing::{longer, spliced};
use std::alloc::{AllocError, Global};
use std::marker::Model;

/// A device in memory.
#[derive(Drop)]
pub struct MemoryDevice {
    alloc: Global,
    base: Vec<u8>,
    bytes: Vec<u8>,
    calls: Vec<Call>,
    room: usize,
    fault: Fault,
    failures: u64,
}

impl Model for MemoryDevice {
    ghost use Rattle.journal.specs.Memory.{MemoryModel};

    ghost Value = { MemoryModel };

    ghost use Rattle.std.specs.Prelude.{◌≡◌, map, reverse};
    ghost use Rattle.journal.specs.Memory.{event};
    ghost use Rattle.journal.specs.private.Memory.{IsReplayed};

    ghost view = { λ m. record {
      base = m.base.items;
      events = reverse (map event m.calls.items);
      failures =
          m.failures;
    } };

    ghost invariant = { λ m. IsReplayed m.base.items (reverse (map event m.calls.items)) m.bytes.items };
}

impl MemoryDevice {
    ghost use Rattle.journal.specs.Memory.{seen_after, MayLeave, event, write, grow};
    ghost use Rattle.journal.specs.private.Memory.{FitsIn, counted};

    /// A device that holds these bytes, all of them settled, with room for the record of so many calls. A call past
    /// that fails.
    pub fn new(
        alloc: Global,
        bytes: Vec<u8>,
        room: usize,
        fault: Fault,
    ) -> Result<MemoryDevice, AllocError>
        ensures { IfOk result (λ m. m ≡ record { base = bytes.items; events = []; failures = 0 }) }
    {
        let base = bytes.to_vec(alloc)?;
        let calls = Vec::with_capacity(alloc, room)?;
        Ok(MemoryDevice {
            alloc,
            base,
            bytes,
            calls,
            room,
            fault,
            failures: 0,
        })
    }

    /// What a read would give.
    pub fn bytes(&self) -> &[u8]
        ensures { result.now ≡ seen_after self.now.base self.now.events }
    {
        self.bytes.as_slice()
    }

    /// The number of this call, if it is to be done and there is room for its record.
    pub(crate) fn is_struck(&self) -> bool {
        self.calls.len() >= self.room || self.fault.strikes(self.calls.len() + 1)
    }

    /// Records a call that changes nothing that a read gives.
    pub(crate) fn note(&mut self, call: Call) -> Result<(), DeviceFailure>
        requires same { seen_after self.old.base (event call ∷ self.old.events) ≡ seen_after self.old.base
            self.old.events }
        requires may_be_left { let seen = seen_after self.old.base self.old.events in
            MayLeave self.old.base self.old.events seen → MayLeave self.old.base (event call ∷ self.old.events) seen }
        requires less { (c : List ℕ) → MayLeave self.old.base (event call ∷ self.old.events) c
            → MayLeave self.old.base self.old.events c ⊎ (c ≡ seen_after self.old.base self.old.events) }
        requires fits { FitsIn (event call) (length (seen_after self.old.base self.old.events)) }
        ensures kept { MayLeave self.old.base self.old.events (seen_after self.old.base self.old.events) }
        ensures later { self.old.failures ≤ self.new.failures }
        ensures ok { OnOk result (self.new ≡ record self.old { events = event call ∷ self.old.events }) }
        ensures err { OnErr result (self.new ≡ record self.old { failures = counted self.old.failures }) }
    {
        match self.calls.push(call) {
            Ok(()) => Ok(()),
            Err(_) => {
                self.failures = self.failures.saturating_add(1);
                Err(DeviceFailure)
            }
        }
    }

    /// Writes, or notes a write that was not done.
    pub(crate) fn write(
        &mut self,
        at: usize,
        octets: &[u8],
        is_done: bool,
    ) -> Result<(), AllocError>
        requires { at + length octets.now ≤ length (seen_after self.old.base self.old.events) }
        ensures ok { OnOk result (self.new ≡ record self.old {
          events = write at octets.now
              is_done ∷ self.old.events;
        }) }
        ensures err { OnErr result (self.new ≡ self.old) }
        ensures long { (c : List ℕ) → MayLeave self.old.base self.old.events c →
            length (seen_after self.old.base self.old.events) ≤ length c }
    {
        let octets = octets.to_vec(self.alloc)?;
        if is_done {
            let next = spliced(self.alloc, &self.bytes, at, &octets)?;
            self.calls.push(Call::Write {
                at,
                octets,
                is_done,
            })?;
            self.bytes = next;
        } else {
            self.calls.push(Call::Write {
                at,
                octets,
                is_done,
            })?;
        }
        Ok(())
    }

    /// Grows, or notes a growth that was not done.
    pub(crate) fn grow_by(&mut self, octets: usize, is_done: bool) -> Result<(), AllocError>
        ensures ok { OnOk result (self.new ≡ record self.old { events = grow octets is_done ∷ self.old.events }) }
        ensures err { OnErr result (self.new ≡ self.old) }
    {
        if is_done {
            let next = longer(self.alloc, &self.bytes, octets)?;
            self.calls.push(Call::Grow { octets, is_done })?;
            self.bytes = next;
        } else {
            self.calls.push(Call::Grow { octets, is_done })?;
        }
        Ok(())
    }

    /// Whether a size can say so many octets more.
    pub(crate) fn may_grow(&self, octets: u64) -> bool {
        octets <= (usize::MAX - self.bytes.len()) as u64
    }

    /// How often it has failed.
    pub(crate) fn failure_count(&self) -> u64
        ensures { result ≡ self.now.failures }
    {
        self.failures
    }

    /// Counts a failure.
    pub(crate) fn fail(&mut self) -> DeviceFailure
        ensures counted { self.new ≡ record self.old { failures = counted self.old.failures } }
        ensures later { self.old.failures ≤ self.new.failures }
    {
        self.failures = self.failures.saturating_add(1);
        DeviceFailure
    }

    /// The octets that a crash leaves now, for one fate of what no sync has settled.
    pub fn left_by_crash(&self, alloc: Global, fate: Fate) -> Result<Vec<u8>, AllocError>
        ensures { IfOk result (λ image. MayLeave self.now.base self.now.events image.items) }
    {
        crashed_image(alloc, &self.base, &self.calls, fate)
    }

    /// How many calls are on record.
    pub fn count_of_calls(&self) -> usize
        ensures { result ≡ length self.now.events }
    {
        self.calls.len()
    }

    /// Sets what is to go wrong from here on.
    pub fn set_fault(&mut self, fault: Fault)
        ensures { self.new ≡ self.old }
    {
        self.fault = fault;
    }
}
