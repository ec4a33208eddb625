// What keeping a response has changed.

use vr_state::message::Response;

/// What was changed as a response was kept.
#[derive(Drop)]
pub enum KeptResponse<P> {
    /// The sender's earlier response stays.
    Nothing,
    /// It stands at the end.
    Added,
    /// It has taken this place from an earlier one.
    Changed {
        place: usize,
        old: (u64, Response<P>),
    },
}
