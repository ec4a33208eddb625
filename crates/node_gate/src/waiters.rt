//! Wakes those who wait for the outcomes of updates: of what was executed those alone whose updates may be that.
ghost use Rattle.std.specs.Prelude.{◌≡◌, ◌<◌, true, false, replicate};
ghost use Rattle.node_gate.specs.private.Waking.{group_of, called};

use dir_node::{Client, LogEntry, Op};
use std::sync::Condvar;

/// In how many groups those wait who wait for an outcome: twice as many as threads that update by default, so that few
/// share one.
const GROUPS: usize = 16;

/// The groups that look again.
#[derive(Clone, Copy, Debug)]
pub struct Called {
    groups: [bool; GROUPS],
}

/// The group of those who wait for a client's update of this number.
fn group_of(client: Client, number: u64) -> usize
    ensures is { result ≡ group_of client number }
    ensures within { result < 16 }
{
    ((client.number % 16 + number % 16) % 16) as usize
}

impl Called {
    /// Nobody.
    pub fn nobody() -> Called
        ensures { result.groups ≡ replicate 16 false }
    {
        Called {
            groups: [false; GROUPS],
        }
    }

    /// All who wait.
    pub fn all() -> Called
        ensures { result.groups ≡ replicate 16 true }
    {
        Called {
            groups: [true; GROUPS],
        }
    }

    /// Who waits for one of these updates.
    pub fn for_updates(updates: &[LogEntry<Op>]) -> Called
        ensures { result.groups ≡ called (replicate 16 false) updates.now }
    {
        let mut groups = [false; GROUPS];
        for update in updates {
            groups[group_of(update.client, update.request_number)] = true;
        }
        Called { groups }
    }
}

/// Those who wait for the outcomes of updates, in groups.
pub struct Waiters {
    groups: [Condvar; GROUPS],
}

// Not derived: see "What the gate takes" in docs/ARCHITECTURE.md.
impl Drop for Waiters {
    fn drop(self) {
        let Waiters { groups: _ } = self;
    }
}

impl Waiters {
    /// Nobody waits.
    pub fn new() -> Waiters {
        Waiters {
            groups: [
                Condvar::new(),
                Condvar::new(),
                Condvar::new(),
                Condvar::new(),
                Condvar::new(),
                Condvar::new(),
                Condvar::new(),
                Condvar::new(),
                Condvar::new(),
                Condvar::new(),
                Condvar::new(),
                Condvar::new(),
                Condvar::new(),
                Condvar::new(),
                Condvar::new(),
                Condvar::new(),
            ],
        }
    }

    /// Where those wait who wait for a client's update of this number.
    pub fn of(&self, client: Client, number: u64) -> &Condvar {
        &self.groups[group_of(client, number)]
    }

    /// Has those look again who are called.
    pub fn wake(&self, called: Called) {
        for group in 0..GROUPS {
            if called.groups[group] {
                self.groups[group].notify_all();
            }
        }
    }
}
