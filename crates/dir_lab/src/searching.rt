//! Asks one replica a search.
ghost use Rattle.std.specs.Prelude.{◌≡◌, IfOk};
ghost use Rattle.std.specs.Arc.{arc_value};
ghost use Rattle.std.specs.Option.{option_map};
ghost use Rattle.vr_state.specs.State.{is_recovering};
ghost use Rattle.vr_state.specs.Views.{state};
ghost use Rattle.dir_search.specs.ldap_msg.View.{search_view};
ghost use Rattle.state_machine.specs.Executing.{directory_at, ops_of};
ghost use Rattle.state_machine.specs.dir_store.Updates.{directory_of};
ghost use Rattle.dir_search.specs.Answer.{answer};
ghost use Rattle.dir_lab.specs.private.Executions.{IsOver, records_of};
ghost use Rattle.dir_lab.specs.Schedule.{found};
ghost use Rattle.dir_lab.specs.Shown.{Answered, shown_view};

use crate::events::LabReply;
use crate::executions::nothing;
use crate::lab::Lab;
use dir_search::{SearchRequest, search};
use state_machine::{Executed, Op};
use std::alloc::{AllocError, Global};
use vr_state::replica::Replica;
use vr_state::words::Status;

/// Whether a status is that of a replica that recovers.
fn is_recovering(status: Status) -> bool
    ensures { result ≡ is_recovering status }
{
    match status {
        Status::Recovering => true,
        Status::Normal | Status::ViewChange => false,
    }
}

/// The answer over what was executed. Its only error is want of memory.
fn answer_over(
    alloc: Global,
    executed: &Executed,
    at: u64,
    request: &SearchRequest,
) -> Result<LabReply, AllocError>
    ensures { IfOk result (λ t. shown_view t ≡ Answered at (answer (directory_at executed.now)
        (search_view request.now))) }
{
    let answer = search(alloc, &executed.store().reading(), request)?;
    Ok(LabReply::Answered { at, answer })
}

/// The answer over what is kept of a replica. Its only error is want of memory.
fn answer_of(
    alloc: Global,
    lab: &Lab,
    kept: &Option<Executed>,
    at: u64,
    request: &SearchRequest,
) -> Result<LabReply, AllocError>
    requires { IsOver (arc_value lab.now.schema) lab.now.suffix kept.now }
    ensures { IfOk result (λ t. shown_view t ≡
        Answered at (answer (directory_of (arc_value lab.now.schema) lab.now.suffix (ops_of (records_of kept.now)))
        (search_view request.now))) }
{
    match kept {
        Some(executed) => answer_over(alloc, executed, at, request),
        None => {
            let executed = nothing(alloc, lab)?;
            answer_over(alloc, &executed, at, request)
        }
    }
}

/// A search at a replica, at no smaller an operation number than the one that is named. Its only error is want of
/// memory.
pub fn search_at(
    alloc: Global,
    lab: &Lab,
    kept: &Option<Executed>,
    replica: Option<&Replica<Op>>,
    named: u64,
    request: &SearchRequest,
) -> Result<LabReply, AllocError>
    requires { IsOver (arc_value lab.now.schema) lab.now.suffix kept.now }
    ensures { IfOk result (λ t. shown_view t ≡ found (arc_value lab.now.schema) lab.now.suffix (records_of kept.now)
        named (search_view request.now) (option_map (λ r. state r.now) replica.entry)) }
{
    match replica {
        None => Ok(LabReply::Unavailable),
        Some(replica) => {
            if is_recovering(replica.status) {
                Ok(LabReply::Unavailable)
            } else if replica.commit_number < named {
                Ok(LabReply::NotYet {
                    at: replica.commit_number,
                })
            } else {
                answer_of(alloc, lab, kept, replica.commit_number, request)
            }
        }
    }
}
