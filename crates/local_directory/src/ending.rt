// Answers a request that is not new.
ghost use Rattle.std.specs.Prelude.{◌≡◌, IfSome, IfNone};
ghost use Rattle.std.specs.FinMap as map;
ghost use Rattle.dir_store.specs.directory_api.ldap_op.Values.{OpValue};
ghost use Rattle.dir_store.specs.directory_api.View.{reply_view};
ghost use Rattle.dir_store.specs.directory_api.Talk.{done};
ghost use Rattle.dir_store.specs.directory_api.View.{ended_view};
ghost use Rattle.local_directory.specs.Allows.{Ends, unchanged, outcome_by};
ghost use Rattle.local_directory.specs.Latest.{newer, standing, standing_to};
ghost use Rattle.local_directory.specs.Local.{LocalValue};
ghost use Rattle.local_directory.specs.View.{kept_view};

use crate::client_table::ClientTable;
use crate::kept::LatestReply;
use dir_search::{Client, Ended};
use std::alloc::Global;

/// The end that is kept, again.
fn ended_again(alloc: Global, kept: &LatestReply) -> Ended
    ensures { (d : LocalValue) →
        Ends (unchanged d (done kept.now.number (reply_view kept.now.reply))) d (ended_view result) d }
{
    match kept.reply.copy(alloc) {
        Ok(reply) => Ended::Done {
            number: kept.number,
            reply,
        },
        Err(_) => Ended::NoMemory,
    }
}

/// How a request ends where this is kept of its client's latest one; none, where it is new.
fn ended_by(alloc: Global, kept: &LatestReply, request: u64) -> Option<Ended>
    ensures before { IfSome result (λ ended. (d : LocalValue) (client : Client) (op : OpValue) →
        Ends (outcome_by (standing_to (kept_view kept.now) request) d client request op) d (ended_view ended) d) }
    ensures newer { IfNone result (standing_to (kept_view kept.now) request ≡ newer) }
{
    if request < kept.request {
        return Some(Ended::Stale);
    }
    if kept.request < request {
        return None;
    }
    Some(ended_again(alloc, kept))
}

/// How a request ends that its client made before, or that is below the client's latest one; none, where it is new.
pub fn ended_before(
    alloc: Global,
    clients: &ClientTable,
    client: Client,
    request: u64,
) -> Option<Ended>
    ensures before { IfSome result (λ ended. (d : LocalValue) (op : OpValue) →
        Ends (outcome_by (standing (map.get clients.now client) request) d client request op) d (ended_view ended) d) }
    ensures newer { IfNone result (standing (map.get clients.now client) request ≡ newer) }
{
    match clients.latest(client) {
        Some(kept) => ended_by(alloc, kept, request),
        None => None,
    }
}
