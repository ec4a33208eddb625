//! Decides where a session goes that a thread lays down.
ghost use Rattle.session_table.specs.Attending.{talk, Becomes};
ghost use Rattle.session_table.specs.Laying.{Fits};

use crate::place_state::Turn;
use crate::pooled::{PooledSession, Then};
use ldap_session::SessionEnd;
use session_turns::Queue;

/// Where a session goes that a thread lays down.
#[derive(Clone, Copy, Debug, PartialEq, Eq)]
pub enum Destination {
    /// To its place, where it waits in this queue.
    Parks(Queue),
    /// To its place, where it waits for its turn.
    LinesUp(Turn),
    /// Nowhere: it is over.
    Ends(SessionEnd),
}

/// Where a session goes of which this has become.
pub fn destination_of(pooled: &PooledSession, then: Then) -> Destination
    ensures { Becomes (talk pooled.now) then → Fits (talk pooled.now) result }
{
    match then {
        Then::Listens => Destination::Parks(pooled.queue()),
        Then::Updates => Destination::LinesUp(Turn::Update),
        Then::Queues => Destination::LinesUp(Turn::Seat),
        Then::Delays => Destination::Parks(Queue::Delayed),
        Then::Waits => Destination::Parks(Queue::Unsent),
        Then::Ends(end) => Destination::Ends(end),
    }
}
