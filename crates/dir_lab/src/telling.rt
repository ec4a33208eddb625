//! Shows replies to updates with their result codes.
ghost use Rattle.std.specs.Prelude.{◌≡◌, ◌++◌, drop, map, OnOk};
ghost use Rattle.std.specs.Arc.{arc_value};
ghost use Rattle.std.specs.Option.{option_map};
ghost use Rattle.state_machine.specs.Executing.{ops_of, replies_at};
ghost use Rattle.state_machine.specs.dir_store.Updates.{replies_of};
ghost use Rattle.dir_lab.specs.private.Executions.{AreOver, IsOverAt, records_by, records_in};
ghost use Rattle.dir_lab.specs.Schedule.{told};
ghost use Rattle.dir_lab.specs.Shown.{code_at, shown_view};

use crate::events::LabReply;
use crate::lab::Lab;
use dir_search::ResultCode;
use state_machine::Executed;
use std::alloc::AllocError;
use vr_world::ReplyBy;

/// The replies that came after so many.
#[tactic(auto, using(crate::proofs::Replies::none_since))]
pub fn since(replies: &[ReplyBy], before: usize) -> &[ReplyBy]
    ensures { result.now ≡ drop before replies.now }
{
    if before < replies.len() {
        &replies[before..]
    } else {
        &[]
    }
}

/// The code of the reply to the record of this number, among those that were executed.
fn code_in(executed: &Executed, op_number: u64) -> ResultCode
    ensures { result ≡ code_at (replies_at executed.now) op_number }
{
    match executed.reply(op_number.saturating_sub(1) as usize) {
        Some(reply) => reply.code,
        None => ResultCode::OTHER,
    }
}

/// The same of what is kept at a place.
fn code_of(lab: &Lab, kept: Option<&Option<Executed>>, op_number: u64) -> ResultCode
    requires { IsOverAt (arc_value lab.now.schema) lab.now.suffix (option_map (λ o. o.now) kept) }
    ensures { result ≡ code_at (replies_of (arc_value lab.now.schema) lab.now.suffix
        (ops_of (records_in (option_map (λ o. o.now) kept.entry)))) op_number }
{
    match kept {
        Some(Some(executed)) => code_in(executed, op_number),
        _ => ResultCode::OTHER,
    }
}

/// A reply as it is shown.
fn told(lab: &Lab, kept: &[Option<Executed>], by: ReplyBy) -> LabReply
    requires { AreOver (arc_value lab.now.schema) lab.now.suffix kept.now }
    ensures { shown_view result ≡ told (arc_value lab.now.schema) lab.now.suffix (records_by kept.now) by }
{
    let code = code_of(lab, kept.get(by.replica as usize), by.reply.op_number);
    LabReply::Replied { by, code }
}

/// Shows these replies, in their order. Its only error is want of memory.
pub fn show_replies(
    lab: &Lab,
    shown: &mut Vec<LabReply>,
    kept: &[Option<Executed>],
    replies: &[ReplyBy],
) -> Result<(), AllocError>
    requires { AreOver (arc_value lab.now.schema) lab.now.suffix kept.now }
    ensures { OnOk result (map shown_view shown.new.items
        ≡ map shown_view shown.old.items ++ map (told (arc_value lab.now.schema) lab.now.suffix (records_by kept.now))
        replies.now) }
{
    for by in replies {
        shown.push(told(lab, kept, *by))?;
    }
    Ok(())
}
