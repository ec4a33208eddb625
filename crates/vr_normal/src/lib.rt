//! The normal case of Viewstamped Replication Revisited (Liskov and Cowling 2012, 4.1; "VRR" below): requests, PREPARE,
//! PREPAREOK, COMMIT and the primary's beat. Each handler is its definition in `vr_state`; at an error nothing has
//! changed.
//!
//! A request, a PREPARE, a PREPAREOK and a COMMIT walk no log. They look a client up, append a record, or look at one
//! number a replica and the newly committed records. Where a later change may be refused memory, the earlier one is
//! taken back.
//!
//! Proved: each handler is its definition: state, messages in order, replies, the view to store. Without memory nothing
//! changes.
#![tactic(auto)]

pub mod acknowledgements;
pub mod beat;
pub mod commit;
pub mod prepare;
pub mod prepare_ok;
pub mod request;

pub use beat::beat_primary;
pub use commit::on_commit;
pub use prepare::on_prepare;
pub use prepare_ok::on_prepare_ok;
pub use request::on_request;
