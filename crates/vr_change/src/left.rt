// What a replica leaves as it enters a view.

use vr_state::message::Change;
use vr_state::words::Status;

/// The fields of a replica that entering a view changes, as they were before.
#[derive(Drop)]
pub struct Left<P> {
    pub view_number: u64,
    pub status: Status,
    pub acknowledged: Vec<u64>,
    pub start_view_changes: Vec<u64>,
    pub do_view_changes: Vec<(u64, Change<P>)>,
}
