//! What a start over a journal hands out, and what is to be settled before. Plain data.

use log_journal::Batch;
use state_machine::Op;
use view_store::Pair;
use vr_state::message::Outputs;
use vr_state::replica::Replica;

/// What a start hands out, and what is to be settled before.
#[derive(Drop)]
pub struct Made {
    pub replica: Replica<Op>,
    pub outputs: Outputs<Op>,
    /// The pair that it stores.
    pub pair: Pair,
    /// What it notes.
    pub batch: Batch,
    /// How much is to be committed before sessions are served.
    pub catch_up: u64,
}
