//! What a machine shows of each event.

use crate::events::Place;
use dir_node::{NodeError, Op, Outputs, Reply, Standing};
use dir_search::SearchAnswer;
use std::alloc::AllocError;

/// What became of a client's request.
#[derive(Drop)]
pub enum Became {
    /// It was executed as the update of this number, with this reply.
    Done { number: u64, reply: Reply },
    /// Its record waits to be committed and executed.
    Pending,
    /// The client has made a later request.
    Stale,
    /// Nothing is known of it, or it can't be told whether it will be done.
    Lost,
}

/// What a machine shows of an event.
pub enum MachineReply {
    /// It named nothing that is there, and did nothing.
    Nothing,
    /// The node handled it: what each event gave out, in order, or that it was left out for want of memory.
    Handled {
        replica: u64,
        given: Vec<Result<Outputs<Op>, AllocError>>,
        /// Whether committed records are left to be executed, for want of memory.
        behind: bool,
    },
    /// The frames of the message at a place, which is for this replica.
    Written {
        place: Place,
        to: u64,
        frames: Vec<Vec<u8>>,
    },
    /// The message at a place can't be sent: no frame has its sender's index, or a number or an update of it has no
    /// octets, or one frame of it would have 2 ^ 32 octets or more.
    Unwritten {
        place: Place,
    },
    /// The node refused the event or the question for want of memory, and nothing changed; or the start was refused.
    Refused {
        replica: u64,
        error: NodeError,
    },
    /// The device failed, or can't store the view: the process ended, and what its call gave out is lost. It may start
    /// again over what its device holds.
    Stopped {
        replica: u64,
        error: NodeError,
    },
    /// The process ended.
    Crashed {
        replica: u64,
    },
    /// The process is up, after so many starts, with what its start gave out.
    Started {
        replica: u64,
        restarts: u64,
        outputs: Outputs<Op>,
    },
    /// What became of a client's request.
    Outcome {
        replica: u64,
        became: Became,
    },
    /// What a search finds after the updates up to this number.
    Found {
        replica: u64,
        number: u64,
        answer: SearchAnswer,
    },
    /// What a compare finds after the updates up to this number.
    Compared {
        replica: u64,
        number: u64,
        reply: Reply,
    },
    /// The node has executed only the updates up to this number, which is below the one that a search or a compare
    /// named.
    NotYet {
        replica: u64,
        number: u64,
    },
    /// How far the node is.
    Standing {
        replica: u64,
        view_number: u64,
        standing: Standing,
        op_number: u64,
        commit_number: u64,
    },
}

// Not derived: see "What the gate takes" in docs/ARCHITECTURE.md.
impl Drop for MachineReply {
    fn drop(self) {
        match self {
            MachineReply::Nothing => {}
            MachineReply::Handled {
                replica: _,
                given: _,
                behind: _,
            } => {}
            MachineReply::Written {
                place: _,
                to: _,
                frames: _,
            } => {}
            MachineReply::Unwritten { place: _ } => {}
            MachineReply::Refused {
                replica: _,
                error: _,
            } => {}
            MachineReply::Stopped {
                replica: _,
                error: _,
            } => {}
            MachineReply::Crashed { replica: _ } => {}
            MachineReply::Started {
                replica: _,
                restarts: _,
                outputs: _,
            } => {}
            MachineReply::Outcome {
                replica: _,
                became: _,
            } => {}
            MachineReply::Found {
                replica: _,
                number: _,
                answer: _,
            } => {}
            MachineReply::Compared {
                replica: _,
                number: _,
                reply: _,
            } => {}
            MachineReply::NotYet {
                replica: _,
                number: _,
            } => {}
            MachineReply::Standing {
                replica: _,
                view_number: _,
                standing: _,
                op_number: _,
                commit_number: _,
            } => {}
        }
    }
}
