//! The events of a lab, and what it shows of each.
use dir_search::{ResultCode, SearchAnswer, SearchRequest};
use state_machine::Op;
use vr_state::words::Status;
use vr_world::{ReplyBy, WorldEvent};

/// One event of a schedule, or a question, which changes nothing. At an index that isn't below the number of replicas
/// it is nothing.
#[derive(Drop)]
pub enum LabEvent {
    /// Something happens to the replicas or their network.
    Happens {
        event: WorldEvent<Op>,
    },
    /// A replica is asked a search, at no smaller an operation number than this one; 0 where none is named.
    Search {
        replica: u64,
        named: u64,
        request: SearchRequest,
    },
    /// A replica's state is asked for.
    State {
        replica: u64,
    },
}

/// One thing that a lab shows.
pub enum LabReply {
    /// A reply to an update, with its result code.
    Replied {
        by: ReplyBy,
        code: ResultCode,
    },
    /// The replica that is asked a search is down or recovering.
    Unavailable,
    /// It has committed fewer updates than the number that was named: so many.
    NotYet {
        at: u64,
    },
    /// What a search finds after so many committed updates.
    Answered {
        at: u64,
        answer: SearchAnswer,
    },
    /// The state of a replica that is up.
    Standing {
        replica: u64,
        view_number: u64,
        status: Status,
        /// How many records its log has.
        op_number: u64,
        commit_number: u64,
    },
    /// A replica is down.
    Down {
        replica: u64,
    },
}

// Not derived: see "What the gate takes" in docs/ARCHITECTURE.md.
impl Drop for LabReply {
    fn drop(self) {
        match self {
            LabReply::Replied { by: _, code: _ } => {}
            LabReply::Unavailable => {}
            LabReply::NotYet { at: _ } => {}
            LabReply::Answered { at: _, answer: _ } => {}
            LabReply::Standing {
                replica: _,
                view_number: _,
                status: _,
                op_number: _,
                commit_number: _,
            } => {}
            LabReply::Down { replica: _ } => {}
        }
    }
}
