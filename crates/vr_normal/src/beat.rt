// The primary's beat: its timer says that it is time to send again. Nothing of the replica changes here.
ghost use Rattle.std.specs.Prelude.{◌≡◌, IfOk};
ghost use Rattle.vr_normal.specs.Rules.{beat_at};
ghost use Rattle.vr_normal.specs.private.Rules.{prepare_again_at, tell_commit_at};
ghost use Rattle.vr_state.specs.Views.{state, outcome, view_to_store};

use std::alloc::{AllocError, Global};
use vr_state::message::{Outputs, PeerMessage, Send};
use vr_state::payload::Payload;
use vr_state::replica::Replica;
use vr_state::sending::{send_all, sending};

/// The beat of a normal primary: what isn't committed is prepared again, or the others hear how much is. Its only error
/// is want of memory.
pub fn beat_primary<P: Payload>(
    alloc: Global,
    replica: &Replica<P>,
) -> Result<Outputs<P>, AllocError>
    ensures step { IfOk result (λ out. outcome replica.now out ≡ beat_at replica.now) }
    ensures store { IfOk result (λ out. out.store ≡ view_to_store (state replica.now) (state replica.now)) }
{
    if replica.commit_number < replica.log.len() as u64 {
        let sends = prepare_again(alloc, replica)?;
        Ok(sending(alloc, sends))
    } else {
        let sends = tell_commit(alloc, replica)?;
        Ok(sending(alloc, sends))
    }
}

/// The PREPARE of the log's last record, to all others. Its only error is want of memory.
fn prepare_again<P: Payload>(
    alloc: Global,
    replica: &Replica<P>,
) -> Result<Vec<Send<P>>, AllocError>
    ensures { IfOk result (λ sends. sends.items ≡ prepare_again_at replica.now) }
{
    match replica.log.as_slice().last() {
        None => Ok(Vec::new(alloc)),
        Some(entry) => {
            let entry = entry.copy(alloc)?;
            let message = PeerMessage::Prepare {
                view_number: replica.view_number,
                entry,
                op_number: replica.log.len() as u64,
                commit_number: replica.commit_number,
            };
            send_all(alloc, replica.count, replica.index, &message)
        }
    }
}

/// How much is committed, to all others. Its only error is want of memory.
fn tell_commit<P: Payload>(alloc: Global, replica: &Replica<P>) -> Result<Vec<Send<P>>, AllocError>
    ensures { IfOk result (λ sends. sends.items ≡ tell_commit_at replica.now) }
{
    let message = PeerMessage::Commit {
        view_number: replica.view_number,
        commit_number: replica.commit_number,
    };
    send_all(alloc, replica.count, replica.index, &message)
}
