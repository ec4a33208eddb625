//! The lab: a schedule is played with real replicas of a directory, from the first world on. How one event is played
//! stands in `running`.
ghost use Rattle.std.specs.Prelude.{◌≡◌, map, IfOk};
ghost use Rattle.std.specs.Arc.{arc_value};
ghost use Rattle.vr_world.specs.Law.{IsSize};
ghost use Rattle.dir_lab.specs.Headline.{CommittedIsOne, RepliesAreOfCommitted, SearchesAreTold};
ghost use Rattle.dir_lab.specs.Schedule.{shown_by};
ghost use Rattle.dir_lab.specs.Shown.{shown_view};

use crate::events::{LabEvent, LabReply};
use crate::running::{LabRun, begin, take_event};
use dir_search::{Indexes, Name, Schema};
use std::alloc::{AllocError, Global};
use std::sync::Arc;

/// So many replicas of a directory, to play schedules with.
pub struct Lab {
    pub schema: Arc<Schema>,
    /// Which indexes each replica has. What is shown doesn't depend on it.
    pub indexes: Indexes,
    /// The name of the root.
    pub suffix: Name,
    /// How many replicas there are.
    pub count: u64,
}

// Not derived: see "What the gate takes" in docs/ARCHITECTURE.md.
impl Drop for Lab {
    fn drop(self) {
        let Lab {
            schema: _,
            indexes: _,
            suffix: _,
            count: _,
        } = self;
    }
}

impl Lab {
    /// A lab of so many replicas, each of which begins with a directory without entries.
    pub fn new(schema: Arc<Schema>, indexes: Indexes, suffix: Name, count: u64) -> Lab
        ensures { result ≡ record { schema = schema; indexes = indexes; suffix = suffix; count = count } }
    {
        Lab {
            schema,
            indexes,
            suffix,
            count,
        }
    }

    /// Plays a schedule from the first world on: requests, deliveries of any message that was ever sent, suspicions,
    /// beats, crashes, recoveries, replicas that go on from their journals, and searches between them. Its only error
    /// is want of memory, and then nothing is shown.
    pub fn run(&self, alloc: Global, events: Vec<LabEvent>) -> Result<Vec<LabReply>, AllocError>
        // Each search of each schedule is answered from one beginning of the committed updates, no shorter than the
        // number that was named; and with success by exactly the entries in scope whose filter value is True, each
        // once, in order of number, with just the selected attributes.
        ensures searches { IfOk result (λ shown. SearchesAreTold (arc_value self.now.schema) self.now.suffix
            self.now.count events.items (map shown_view shown.items)) }
        // Each reply to an update has the client, the number and the code of the committed record at its place.
        ensures replies { IfOk result (λ shown. RepliesAreOfCommitted (arc_value self.now.schema) self.now.suffix
            self.now.count events.items (map shown_view shown.items)) }
        // What is committed is one list, which only grows.
        ensures committed { IfOk result (λ shown. IsSize self.now.count → CommittedIsOne self.now.count events.items) }
        // All that is shown, in order: as the definition of a schedule has it, whatever the index choice.
        ensures shown { IfOk result (λ shown. IsSize self.now.count → map shown_view shown.items ≡
            shown_by (arc_value self.now.schema) self.now.suffix self.now.count events.items) }
    {
        let mut run = begin(alloc, self)?;
        for event in events {
            take_event(alloc, self, &mut run, event)?;
        }
        let LabRun { shown, .. } = run;
        Ok(shown)
    }
}
