//! Takes connections from a listener, numbers them and hands them on; reads other replicas' streams
//! with time limits; serves sessions of any stream by a fixed set of threads. The sessions of
//! sockets are served by `session_pool`.
//!
//! Takes connections from a listener and numbers them (`accepting`). A `Door` counts who waits for a place and how many
//! are being given up, and says whether the server closes. A `PieceReader` looks up from its socket every 200 ms. It
//! fails where the door is closed, and by the `Limits` for silence; `Gauge` follows messages by their headings alone.
//! Replicas' connections are read so (`PeerConnection`).
//!
//! `serve_all` serves sessions of any stream, a thread for each directory, off a channel until that is closed and
//! empty; a server of sockets uses `session_pool`. Tests show what rests on the channel and the system: that a number
//! is its connection's, that each is served once, that a thread runs.
//!
//! Proved: each directory comes back after the sessions that it served, one after the other, and nothing else
//! (`serve_all`, `served_along`). No more places are given up than are waited for (`Seats`).
#![tactic(auto)]

mod accepting;
mod connection;
mod door;
mod gauge;
mod headings;
mod laws;
mod limits;
mod peer;
mod pieces;
mod seats;
mod serving;

pub use accepting::{Arrives, HasDoor, accept_all, close};
pub use connection::Connection;
pub use door::Door;
pub use gauge::{Gauge, Heading, Rest};
pub use headings::FrameHeading;
pub use laws::served_along;
pub use ldap_session::{
    Client, CompareRequest, Config, Conversation, Directory, Due, Ended, Found, Look, LookError,
    Reply, Role, SearchAnswer, SearchRequest, SessionEnd, Step, Update,
};
pub use limits::Limits;
pub use peer::{PeerConnection, PeerStream};
pub use pieces::PieceReader;
pub use serving::serve_all;
