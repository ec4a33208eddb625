//! Plays a schedule with real replicas of a directory, and states the headline: what each search of any schedule
//! answers (`Lab::run`). A schedule has requests, deliveries, losses, repeats, view changes, crashes, recoveries,
//! returns over a journal, and searches.
//!
//! Real replicas of a directory under a schedule. After each event each replica that is up executes what it has
//! committed (`advancing`), and replies are shown with their codes (`telling`). A search is answered from what its
//! replica has executed (`searching`). `proofs/Steps` proves from the law that these stores are what the replicas have
//! committed. What a schedule shows is defined from the world alone (`specs/Schedule`), its promise in
//! `specs/Headline`.
//!
//! Proved, **the headline**: every search of every schedule is answered from one beginning of the committed updates.
//! Every reply to an update is that of the committed record at its place, whatever the index choice (`Lab::run`
//! `searches`, `replies`, `committed`, `shown`). An answer with success shows exactly what is asked for
//! (`success_is_exact`).
#![tactic(auto)]

mod advancing;
mod asking;
pub mod events;
mod executions;
pub mod lab;
mod laws;
mod running;
mod searching;
mod telling;

pub use dir_search::{Indexes, Name, Schema, SearchAnswer, SearchRequest};
pub use events::{LabEvent, LabReply};
pub use lab::Lab;
pub use laws::success_is_exact;
pub use state_machine::{Executed, Op, Store, Update};
pub use vr_state::words::{Client, LogEntry, Status};
pub use vr_world::{ReplyBy, WorldEvent};
