//! The view change of Viewstamped Replication Revisited (Liskov and Cowling 2012, 4.2; "VRR" below): suspicion,
//! STARTVIEWCHANGE, DOVIEWCHANGE, STARTVIEW and the beat of a replica that changes. Each handler is its definition in
//! `vr_state`; at an error nothing has changed.
//!
//! A view change copies a log once for each place that keeps it, and makes the client table anew by one walk. Where a
//! later change may be refused memory, the earlier one is taken back (`Left`).
//!
//! Proved: each handler is its definition: state, messages in order, replies, the view to store. Without memory nothing
//! changes.
#![tactic(auto)]

mod beat;
mod beginning;
mod choosing;
mod declaring;
mod do_view_change;
mod entering;
mod left;
mod start_view;
mod start_view_change;
mod suspect;

pub use beat::beat_changing;
pub use do_view_change::on_do_view_change;
pub use start_view::on_start_view;
pub use start_view_change::on_start_view_change;
pub use suspect::{GREATEST_VIEW, on_suspect};
