//! The machine: a schedule is played with real nodes, from processes that were never up on.
ghost use Rattle.std.specs.Prelude.{IfOk};
ghost use Rattle.std.specs.Arc.{arc_value};
ghost use Rattle.vr_world.specs.Law.{IsSize};
ghost use Rattle.dir_machine.specs.Headline.{IsWhole};

use crate::events::MachineEvent;
use crate::replies::MachineReply;
use crate::running::{Running, begin, take_event};
use dir_node::{Cluster, Indexes, Name, Schema};
use std::alloc::{AllocError, Global};
use std::sync::Arc;

/// So many processes of a cluster, to play schedules with.
pub struct Machine {
    pub schema: Arc<Schema>,
    /// Which indexes each replica has.
    pub indexes: Indexes,
    /// The name of the root.
    pub suffix: Name,
    /// The number of the cluster.
    pub cluster: Cluster,
    /// How many replicas there are.
    pub count: u64,
    /// How many calls a device has room to record; one past that fails.
    pub room: usize,
    /// Whether each replica keeps a journal.
    pub journaled: bool,
}

// Not derived: see "What the gate takes" in docs/ARCHITECTURE.md.
impl Drop for Machine {
    fn drop(self) {
        let Machine {
            schema: _,
            indexes: _,
            suffix: _,
            cluster: _,
            count: _,
            room: _,
            journaled: _,
        } = self;
    }
}

impl Machine {
    /// Plays a schedule, from processes that were never up on. Its only error is want of memory for what is shown, and
    /// then nothing is.
    pub fn run(
        &self,
        alloc: Global,
        schedule: Vec<MachineEvent>,
    ) -> Result<Vec<MachineReply>, AllocError>
        // For 2f + 1 replicas there is a list of world events that the schedule gives in turn, as what is shown says:
        // each event that a node took is one of them. What is committed after it is one list, which only grows. With
        // journals, of any majority of processes that are up one has all of it in its log, also where all ended at
        // once. What a search or a compare finds is what it finds after some first of the updates that are committed by
        // then, no fewer than it named.
        ensures whole { IfOk result (λ shown. IsSize self.now.count
            → IsWhole (arc_value self.now.schema) self.now.suffix self.now.cluster self.now.count self.now.journaled
            schedule.items shown.items) }
    {
        let mut run = begin(alloc, self)?;
        for event in schedule {
            take_event(alloc, self, &mut run, event)?;
        }
        let Running {
            processes: _,
            shown,
        } = run;
        Ok(shown)
    }
}
