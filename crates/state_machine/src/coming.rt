//! Finds the committed records that come next.
ghost use Rattle.std.specs.Prelude.{◌≡◌};
ghost use Rattle.state_machine.specs.Executing.{due_after};

use dir_store::{LogEntry, Op};

/// The committed records of a log that come next after so many. The log isn't walked, and nothing is copied.
#[tactic(auto, using(std::proofs::lemmas::List::take_min, crate::proofs::Dues::none_due))]
pub fn due(log: &[LogEntry<Op>], commit_number: u64, after: usize) -> &[LogEntry<Op>]
    ensures { result.now ≡ due_after after commit_number log.now }
{
    let end = (commit_number as usize).min(log.len());
    let committed = &log[..end];
    if after < end {
        &committed[after..]
    } else {
        &[]
    }
}
