//! Serves the sessions of sockets by a few threads, as many sessions as its table has places. Of
//! the threads that read, one waits for all silent sessions and queues those that are ready. Other
//! threads serve updates, which may have to wait.
//!
//! While a session waits the table owns it, while it is served one thread does (`session_table`); here are the lock of
//! the table, the poll and the threads. Each thread that reads (a seat) has a directory of its own. Of the free seats
//! one leads (`leading`): it waits in `mio`'s poll for all sessions, queues those that are ready, lets the next seat
//! lead, and serves the first itself. No thread hands messages over, and no lock is held while a message is answered.
//!
//! - *Waiting.* A session is parked and registered with the poll under the table's lock, which the leader takes before
//!   it looks at events. So no event finds an empty place. The heads of the queues say who has waited for too long.
//! - *Staying.* A thread waits up to 5 ms for the next message of a session whose messages come within a millisecond.
//!   It does so if a seat is left to lead and no other session is ready. A busy client then costs two system calls a
//!   message.
//! - *Fairness.* 16 messages or 64 KiB of unsent octets are one sitting; then the session goes to the back of its
//!   queue. After 16 of these the sockets are looked at again, although sessions are ready. After each message a seat
//!   asks `session_turns`: it looks itself where no seat leads and the last look is 1 ms old, and its stay ends after 1
//!   ms where other sessions are ready.
//! - *Classes.* A session owes the time that seats spent on it, without what they spent waiting for its next message or
//!   looking at sockets. Sessions that are ready wait in four classes by what they owe (`session_turns::Turns`): those
//!   that take little go before those that take much.
//! - *Patience.* A message has to be whole within a limit after its first octet, which is looked at whenever its
//!   session is parked. No session has more than 256 sittings in a row. One whose client doesn't take its octets is
//!   written to once a sitting, and not read. It may let them wait for longer the more it has taken: it is asked 16
//!   times per limit.
//! - *Leaving.* The socket of a session that ended with input unread is closed once its client has closed it, after a
//!   second at most (`leaving`). What comes meanwhile is dropped by whoever leads.
//! - *Updates* have threads of their own, each with a gate and a look that finds nothing (`NoReads`). The leader
//!   watches the socket from when the update lines up to its answer. It tells the thread when the client has left, and
//!   no thread makes the update of a client that left before its turn. One that has lined up for too long a seat
//!   answers by 52 (`NoNode`). A thread stays with a session whose updates come one soon after the other, as a seat
//!   does, where no update of another session waits for a thread and one thread is left that doesn't wait so.
//! - *Memory.* What a session holds is posted in a `Budget` that all share when its thread lays it down, and before a
//!   large message is decoded (`memory`). Where all hold too much, the session that `session_turns` says is ended.
//! - *Refused binds.* After three of them a bind waits for a second, at its place in the table and in no thread.
//! - *No room.* When the table is full, or descriptors are used up, a session that is over goes, else the longest
//!   silent one (`arriving`).
//!
//! Proved: a seat answers at most 16 messages of a session in a row, no update among them, and goes on with it only
//! where no whole message is left over, 256 times at most (`SessionPool::attend`, `sit`). A message is answered under
//! its session's number (`answer_some`, `update`). What becomes of sessions and their places is proved in
//! `session_table`. That each session is served, and soon, is tested (`tests/sessions`, `tests/streams`,
//! `tests/hostile`).
#![tactic(auto)]

mod arriving;
mod attending;
mod binding;
mod leading;
mod leaving;
mod limit;
mod memory;
mod no_node;
mod no_reads;
mod no_room;
mod overview;
mod pool;
mod running;
mod tells;
mod updating;
mod watching;

pub use client_link::{
    Client, CompareRequest, Config, Directory, Door, Ended, Found, HasDoor, Limits, LookError,
    PeerConnection, PeerStream, Reply, Role, SearchAnswer, SearchRequest, SessionEnd, Update,
    accept_all, close,
};
pub use limit::descriptors;
pub use no_reads::NoReads;
pub use pool::{PoolSettings, SessionPool};
pub use running::serve_sessions;
pub use session_table::Traffic;
pub use session_turns::{Budget, limit_of};
pub use tells::{Away, SessionObserver};
