//! How much of what is committed is told by what a step sends.

use dir_node::{Op, Outputs, PeerMessage};
use std::alloc::AllocError;

/// How many records a message tells its receiver to be committed.
fn told_by(message: &PeerMessage<Op>) -> u64 {
    match message {
        PeerMessage::Prepare {
            view_number: _,
            entry: _,
            op_number: _,
            commit_number,
        } => *commit_number,
        PeerMessage::Commit {
            view_number: _,
            commit_number,
        } => *commit_number,
        PeerMessage::StartView {
            view_number: _,
            held,
        } => held.commit_number,
        _ => 0,
    }
}

/// The most that the messages of a step tell; 0 where they tell nothing.
pub fn told_by_step(outputs: &Outputs<Op>) -> u64 {
    let mut most = 0;
    for send in &outputs.sends {
        most = most.max(told_by(&send.message));
    }
    most
}

/// The most that the messages of several steps tell.
pub fn told_by_steps(given: &[Result<Outputs<Op>, AllocError>]) -> u64 {
    let mut most = 0;
    for one in given {
        match one {
            Ok(outputs) => most = most.max(told_by_step(outputs)),
            Err(_) => {}
        }
    }
    most
}
