//! Recovery and state transfer of Viewstamped Replication Revisited (Liskov and Cowling 2012, 4.3 and 5.2; "VRR"
//! below), and the whole step of a replica, which calls the handlers of the three crates. Each is its definition in
//! `vr_state`; at an error nothing has changed.
//!
//! `stepping` calls the handlers of all three crates; each is split as its definition is. A GETSTATE copies the records
//! that the asker hasn't committed; a NEWSTATE moves these, and the receiver's own beginning stays where it is; the
//! client table is made anew by one walk. Where a later change may be refused memory, the earlier one is taken back
//! (`KeptResponse`, a list cut to its former length).
//!
//! Proved: the step at every event, and the return after a crash, are the definitions': state, messages in order,
//! replies, the view to store. Without memory nothing changes (`step`, `recover`, each handler).
#![tactic(auto)]

mod coming_back;
mod kept;
mod recovery;
mod responding;
mod responses;
mod state_transfer;
mod stepping;

pub use coming_back::{beat_recovering, recover, remind};
pub use recovery::on_recovery;
pub use responding::on_recovery_response;
pub use state_transfer::{on_get_state, on_new_state};
pub use stepping::step;
