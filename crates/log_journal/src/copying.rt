//! Copies a replica, so that a step can be taken back that isn't noted.
ghost use Rattle.std.specs.Prelude.{◌≡◌, [], IfOk};
ghost use Rattle.vr_state.specs.Views.{state};

use ldap_op::Op;
use std::alloc::{AllocError, Global};
use vr_state::client_table::ClientTable;
use vr_state::message::{Change, Response};
use vr_state::replica::Replica;
use vr_state::sending::{copy_change, copy_response};

/// What is noted of DOVIEWCHANGEs, in memory of its own. Its only error is want of memory.
fn copy_changes(
    alloc: Global,
    changes: &[(u64, Change<Op>)],
) -> Result<Vec<(u64, Change<Op>)>, AllocError>
    ensures { IfOk result (λ copied. copied.items ≡ changes.now) }
{
    let mut copied = Vec::new(alloc);
    for change in changes {
        let one = copy_change(alloc, &change.1)?;
        copied.push((change.0, one))?;
    }
    Ok(copied)
}

/// What is noted of RECOVERYRESPONSEs, in memory of its own. Its only error is want of memory.
fn copy_responses(
    alloc: Global,
    responses: &[(u64, Response<Op>)],
) -> Result<Vec<(u64, Response<Op>)>, AllocError>
    ensures { IfOk result (λ copied. copied.items ≡ responses.now) }
{
    let mut copied = Vec::new(alloc);
    for response in responses {
        let one = copy_response(alloc, &response.1)?;
        copied.push((response.0, one))?;
    }
    Ok(copied)
}

/// A replica with the same state, and nothing noted of others' changes and responses. It shares the updates. Its only
/// error is want of memory.
fn copy_alone(alloc: Global, replica: &Replica<Op>) -> Result<Replica<Op>, AllocError>
    ensures state { IfOk result (λ r. state r ≡ record (state replica.now) { do_view_changes = []; responses = [] }) }
    ensures index { IfOk result (λ r. r.index ≡ replica.now.index) }
    ensures count { IfOk result (λ r. r.count ≡ replica.now.count) }
{
    let log = replica.log.copy(alloc)?;
    let client_table = ClientTable::of_log(alloc, &log)?;
    let acknowledged = Vec::from_slice(alloc, replica.acknowledged.as_slice())?;
    let start_view_changes = Vec::from_slice(alloc, replica.start_view_changes.as_slice())?;
    Ok(Replica {
        index: replica.index,
        count: replica.count,
        view_number: replica.view_number,
        status: replica.status,
        last_normal_view: replica.last_normal_view,
        log,
        commit_number: replica.commit_number,
        client_table,
        acknowledged,
        start_view_changes,
        do_view_changes: Vec::new(alloc),
        nonce: replica.nonce,
        responses: Vec::new(alloc),
    })
}

/// A replica with the same state, in memory of its own. It shares the updates. Its only error is want of memory.
pub fn copy_replica(alloc: Global, replica: &Replica<Op>) -> Result<Replica<Op>, AllocError>
    ensures state { IfOk result (λ r. state r ≡ state replica.now) }
    ensures index { IfOk result (λ r. r.index ≡ replica.now.index) }
    ensures count { IfOk result (λ r. r.count ≡ replica.now.count) }
{
    let do_view_changes = copy_changes(alloc, replica.do_view_changes.as_slice())?;
    let responses = copy_responses(alloc, replica.responses.as_slice())?;
    let mut copied = copy_alone(alloc, replica)?;
    copied.do_view_changes = do_view_changes;
    copied.responses = responses;
    Ok(copied)
}
