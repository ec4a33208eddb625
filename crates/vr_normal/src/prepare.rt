// PREPARE: a backup takes a record in and says how much it has.
ghost use Rattle.std.specs.Prelude.{◌≡◌, ◌+◌, ◌==◌, cond, length, IfOk, OnOk, OnErr};
ghost use Rattle.vr_normal.specs.Rules.{on_prepare_at};
ghost use Rattle.vr_normal.specs.private.Rules.{acknowledge_or_ask, taken_in_at};
ghost use Rattle.vr_state.specs.NormalCase.{take_in};
ghost use Rattle.vr_state.specs.Views.{state, outcome, view_to_store};

use std::alloc::{AllocError, Global};
use vr_state::message::{Outputs, PeerMessage, Send};
use vr_state::payload::Payload;
use vr_state::replica::Replica;
use vr_state::sending::{ask_for_state, send_one, sending};
use vr_state::standing::{commit_to, committed, follows, is_behind};
use vr_state::words::LogEntry;

/// What comes with a PREPARE of the replica with index `from`, whose record stands at the place `op_number`. At an
/// error, which is want of memory, nothing has changed. It costs one record at the end of the log and its note in the
/// client table; no log is walked.
pub fn on_prepare<P: Payload>(
    alloc: Global,
    replica: &mut Replica<P>,
    from: u64,
    view_number: u64,
    entry: LogEntry<P>,
    op_number: u64,
    commit_number: u64,
) -> Result<Outputs<P>, AllocError>
    ensures step { IfOk result (λ out. outcome replica.new out ≡ on_prepare_at replica.old from view_number entry
        op_number commit_number) }
    ensures store { IfOk result (λ out. out.store ≡ view_to_store (state replica.old) (state replica.new)) }
    ensures err { OnErr result (state replica.new ≡ state replica.old) }
    ensures index { replica.new.index ≡ replica.old.index }
    ensures count { replica.new.count ≡ replica.old.count }
{
    if is_behind(replica, view_number) {
        let sends = ask_for_state(alloc, from, view_number, replica.commit_number)?;
        Ok(sending(alloc, sends))
    } else if follows(replica, view_number) {
        answer_prepare(
            alloc,
            replica,
            from,
            view_number,
            entry,
            op_number,
            commit_number,
        )
    } else {
        Ok(sending(alloc, Vec::new(alloc)))
    }
}

/// Takes a record in, learns of a commit and says how much there is. At an error nothing has changed.
fn answer_prepare<P: Payload>(
    alloc: Global,
    replica: &mut Replica<P>,
    from: u64,
    view_number: u64,
    entry: LogEntry<P>,
    op_number: u64,
    commit_number: u64,
) -> Result<Outputs<P>, AllocError>
    ensures step { IfOk result (λ out. outcome replica.new out ≡ taken_in_at replica.old from view_number entry
        op_number commit_number) }
    ensures store { IfOk result (λ out. out.store ≡ view_to_store (state replica.old) (state replica.new)) }
    ensures err { OnErr result (state replica.new ≡ state replica.old) }
    ensures index { replica.new.index ≡ replica.old.index }
    ensures count { replica.new.count ≡ replica.old.count }
{
    let held = held_with(replica, op_number);
    let by_then = committed(replica, held, commit_number);
    let sends = acknowledge_or_ask(alloc, from, view_number, op_number, held, by_then)?;
    take_in(replica, entry, op_number)?;
    commit_to(replica, commit_number);
    Ok(sending(alloc, sends))
}

/// How many records the log has once a record of this place is taken in.
fn held_with<P: Payload>(replica: &Replica<P>, op_number: u64) -> u64
    ensures { result ≡ cond (op_number == length replica.now.log + 1) op_number (length replica.now.log) }
{
    let held = replica.log.len() as u64;
    if op_number == held + 1 {
        op_number
    } else {
        held
    }
}

/// Takes a record in, if its place is the next. At an error nothing has changed.
fn take_in<P: Payload>(
    replica: &mut Replica<P>,
    entry: LogEntry<P>,
    op_number: u64,
) -> Result<(), AllocError>
    ensures ok { OnOk result (state replica.new ≡ take_in entry op_number (state replica.old)) }
    ensures err { OnErr result (state replica.new ≡ state replica.old) }
    ensures index { replica.new.index ≡ replica.old.index }
    ensures count { replica.new.count ≡ replica.old.count }
{
    if op_number == replica.log.len() as u64 + 1 {
        replica.append(entry)
    } else {
        Ok(())
    }
}

/// A PREPAREOK for all that it then has, or, where earlier records are missing, a GETSTATE from those on that it then
/// has committed. Its only error is want of memory.
fn acknowledge_or_ask<P: Payload>(
    alloc: Global,
    from: u64,
    view_number: u64,
    op_number: u64,
    held: u64,
    commit_number: u64,
) -> Result<Vec<Send<P>>, AllocError>
    ensures { IfOk result (λ sends. sends.items ≡ acknowledge_or_ask from view_number op_number held commit_number) }
{
    if op_number <= held {
        let message = PeerMessage::PrepareOk {
            view_number,
            op_number: held,
        };
        send_one(alloc, from, message)
    } else {
        ask_for_state(alloc, from, view_number, commit_number)
    }
}
