// A client's request: the primary gives it a place and prepares it, or answers it again. Nothing new is answered here:
// a reply waits until its record is committed.
ghost use Rattle.std.specs.Prelude.{◌≡◌, [], IfOk, OnErr};
ghost use Rattle.vr_normal.specs.Rules.{request_at};
ghost use Rattle.vr_normal.specs.private.Rules.{prepare_at, reply_again};
ghost use Rattle.vr_state.specs.Views.{state, outcome, view_to_store};

use std::alloc::{AllocError, Global};
use vr_state::message::{Outputs, PeerMessage};
use vr_state::payload::Payload;
use vr_state::replica::Replica;
use vr_state::sending::{send_all, sending};
use vr_state::standing::leads;
use vr_state::words::{LogEntry, Reply};

/// What comes with a client's request. At an error, which is want of memory, nothing has changed. It costs a look-up in
/// the client table, the logarithm of the number of clients, and a copy of the one record for each replica; no log is
/// walked.
pub fn on_request<P: Payload>(
    alloc: Global,
    replica: &mut Replica<P>,
    entry: LogEntry<P>,
) -> Result<Outputs<P>, AllocError>
    ensures step { IfOk result (λ out. outcome replica.new out ≡ request_at replica.old entry) }
    ensures store { IfOk result (λ out. out.store ≡ view_to_store (state replica.old) (state replica.new)) }
    ensures err { OnErr result (state replica.new ≡ state replica.old) }
    ensures index { replica.new.index ≡ replica.old.index }
    ensures count { replica.new.count ≡ replica.old.count }
{
    if !leads(replica, replica.view_number) {
        return Ok(sending(alloc, Vec::new(alloc)));
    }
    match replica.client_table.latest(entry.client) {
        None => prepare(alloc, replica, entry),
        Some(last) => {
            if last.request_number < entry.request_number {
                prepare(alloc, replica, entry)
            } else if last.request_number == entry.request_number
                && last.op_number <= replica.commit_number
            {
                answer_again(alloc, &entry, last.op_number)
            } else {
                Ok(sending(alloc, Vec::new(alloc)))
            }
        }
    }
}

/// Appends a record and prepares it at all others. At an error nothing has changed.
fn prepare<P: Payload>(
    alloc: Global,
    replica: &mut Replica<P>,
    entry: LogEntry<P>,
) -> Result<Outputs<P>, AllocError>
    ensures step { IfOk result (λ out. outcome replica.new out ≡ prepare_at replica.old entry) }
    ensures store { IfOk result (λ out. out.store ≡ None) }
    ensures err { OnErr result (state replica.new ≡ state replica.old) }
    ensures index { replica.new.index ≡ replica.old.index }
    ensures count { replica.new.count ≡ replica.old.count }
{
    let message = PeerMessage::Prepare {
        view_number: replica.view_number,
        entry: entry.copy(alloc)?,
        op_number: replica.log.len() as u64 + 1,
        commit_number: replica.commit_number,
    };
    let sends = send_all(alloc, replica.count, replica.index, &message)?;
    replica.append(entry)?;
    Ok(sending(alloc, sends))
}

/// The reply to a request that is executed already, as the record at this place.
fn answer_again<P: Payload>(
    alloc: Global,
    entry: &LogEntry<P>,
    op_number: u64,
) -> Result<Outputs<P>, AllocError>
    ensures store { IfOk result (λ out. out.store ≡ None) }
    ensures sends { IfOk result (λ out. out.sends.items ≡ []) }
    ensures replies { IfOk result (λ out. out.replies.items ≡ reply_again entry.now op_number) }
{
    let mut replies = Vec::new(alloc);
    replies.push(Reply {
        client: entry.client,
        request_number: entry.request_number,
        op_number,
    })?;
    Ok(Outputs {
        store: None,
        sends: Vec::new(alloc),
        replies,
    })
}
