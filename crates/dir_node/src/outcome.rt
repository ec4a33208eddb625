//! The outcome of a client's request. Plain data.

use state_machine::Reply;

/// What became of a client's request.
#[derive(Debug)]
pub enum Outcome<'a> {
    /// It was executed as the update of this number, with this reply.
    Done { number: u64, reply: &'a Reply },
    /// Its record waits to be committed and executed here.
    Pending,
    /// The client has made a later request.
    Stale,
    /// Nothing is known of it here, or it can't be told here whether it will be done.
    Lost,
}
