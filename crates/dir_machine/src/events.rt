//! The events of a machine: what its processes are given, their ends and starts, and questions.

use dir_node::{Client, LogEntry, Op};
use dir_search::{CompareRequest, SearchRequest};
use journal::{Fate as JournalFate, Fault as JournalFault};
use view_store::{Fate, Fault};
use vr_wire::FrameSizes;

/// A message that a node gave out: at the event of this index of the schedule, in this part of it, at this place among
/// its sends; each from 0. An event that isn't a batch has one part.
#[derive(Clone, Copy, Debug, PartialEq, Eq)]
pub struct Place {
    pub event: u64,
    pub part: u64,
    pub send: u64,
}

/// A frame that an event wrote: the event's index in the schedule, and the frame's place among those of its message,
/// each from 0.
#[derive(Clone, Copy, Debug, PartialEq, Eq)]
pub struct FramePlace {
    pub event: u64,
    pub frame: u64,
}

/// What becomes, as a process ends, of what it wrote on each of its devices and no sync settled.
#[derive(Clone, Copy, Debug, PartialEq, Eq)]
pub struct Fates {
    /// On the pair's device.
    pub pair: Fate,
    /// On the journal's, where there is one.
    pub journal: JournalFate,
}

/// Which calls of a process's devices fail, counted from its start on.
#[derive(Clone, Copy, Debug, PartialEq, Eq)]
pub struct Faults {
    /// Of the pair's device.
    pub pair: Fault,
    /// Of the journal's, where there is one.
    pub journal: JournalFault,
}

/// What a node is given.
#[derive(Drop)]
pub enum Given {
    /// A client's request.
    Request { entry: LogEntry<Op> },
    /// A message that some node gave out for this one.
    Message { place: Place },
    /// The message whose frames the event of this index of the schedule wrote for this node. They come whole and in
    /// order, on a connection that has heard these octets before, each taken for a frame.
    Frames { event: u64, heard: Vec<Vec<u8>> },
    /// Frames that events wrote for this node, one after the other on one connection since it began: in any order,
    /// again, and between those of other messages. What comes of the last one is given.
    Heard { frames: Vec<FramePlace> },
    /// Its timer says that the primary may have failed.
    Suspect,
    /// Its timer says that it is time to send again.
    Beat,
}

/// One event of a schedule. One that names nothing that is there does nothing.
#[derive(Drop)]
pub enum MachineEvent {
    /// A node that is up handles one event.
    Give {
        replica: u64,
        given: Given,
    },
    /// The message at a place is written as the frames that a process sends of it. Its sender's number for the message
    /// is the index of this event.
    Write {
        place: Place,
        sizes: FrameSizes,
    },
    /// A node that is up handles a batch of events.
    GiveAll {
        replica: u64,
        given: Vec<Given>,
    },
    /// A process that is up ends; what it wrote and no sync settled has these fates.
    Crash {
        replica: u64,
        fates: Fates,
    },
    /// A process that isn't up starts over what its devices hold: until a start has succeeded, for the first time, over
    /// an empty journal. Its devices fail at the calls that the faults name. The process ends there, in whatever call
    /// of its node that is; what it wrote and no sync settled has these fates then.
    Start {
        replica: u64,
        faults: Faults,
        fates: Fates,
    },
    /// A node that is up is asked what became of a client's request.
    Ask {
        replica: u64,
        client: Client,
        number: u64,
    },
    /// A node that is up is asked a search, after this many updates at least.
    Search {
        replica: u64,
        named: u64,
        request: SearchRequest,
    },
    /// A node that is up is asked a compare, after this many updates at least.
    Compare {
        replica: u64,
        named: u64,
        request: CompareRequest,
    },
    /// A node that is up is asked how far it is.
    State {
        replica: u64,
    },
}
