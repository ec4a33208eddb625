//! Decides when a replica, or its link to another one, does something by itself: all its rules of time, on numbers. No
//! clock is read here, nothing waits, and no message is sent.
//!
//! `ReplicaClock` is a value that reads no clock. It is given the replica's view and status (`note`) and messages'
//! signs of their senders (`hear`, `sign_of`), with their moments, and is asked what is due (`ask`). `node_gate` keeps
//! it beside the node. `Steps` decides how a step goes that other threads wait for, and whether a primary says
//! meanwhile that it is there; `Majority` whether a replica hears from a majority; `Pace` whether a thing is done again
//! that is done once a beat; `Repeats` which of the DOVIEWCHANGEs that come again are heard; `Lack` whether threads
//! that were to begin have been missing for too long. Of a link to another replica `KeepAlive` decides whether its
//! other end is there, and `Backoff` when it is dialed again. docs/REPLICATION.md, section 7, has the rules.
//!
//! Proved: a beat or a suspicion is due by the rules, and nothing is due before the moment at which it wants to be
//! asked again (`ReplicaClock`). A backup that hears nothing of its primary suspects it within two suspect periods, and
//! one that hears a sign of its life doesn't for one, whatever else befalls its clock (`silence_is_suspected`). A
//! primary that makes no progress falls silent after three, and not before (`long_steps_are_told`). Nobody is suspected
//! while parts of its message come; a view given up meanwhile is followed by one that is waited for twice as long
//! (`long_messages_are_awaited`). A message that is repeated is heard once in seventeen times
//! (`repeats_pass_at_times`). An end of a link that falls silent is given up in time, however often it is asked
//! (`silence_is_found`). What is missing for a short time ends nobody, however seldom it is looked at
//! (`lacks_are_found`). That views begin in time is simulated: `tests/liveness` plays a thousand lives of ten minutes
//! (seeds 1 to 1000) in ten minutes of one processor; none failed.
#![tactic(auto)]

mod backoff;
mod clock;
mod keep_alive;
mod lack;
mod laws;
mod majority;
mod pace;
mod repeats;
mod sign;
mod steps;
mod times;

pub use backoff::Backoff;
pub use clock::{Asked, Due, ReplicaClock};
pub use keep_alive::{KeepAlive, silence_is_found};
pub use lack::{Lack, lacks_are_found};
pub use laws::{commits_are_told_soon, long_messages_are_awaited, silence_is_suspected};
pub use majority::Majority;
pub use pace::Pace;
pub use repeats::{Repeats, repeats_pass_at_times};
pub use sign::{Sign, sign_of};
pub use steps::{Progress, Steps, long_steps_are_told};
pub use times::Times;
