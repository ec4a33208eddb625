// Makes the next update, and keeps its reply for the client that asked.
ghost use Rattle.std.specs.Prelude.{◌≡◌, ◌+◌, Some, IfOk, OnOk, OnErr};
ghost use Rattle.std.specs.FinMap as map;
ghost use Rattle.dir_store.specs.directory_api.Answers.{only as only_code};
ghost use Rattle.dir_store.specs.indexed_tree.Stored.{NumbersBelow};
ghost use Rattle.dir_store.specs.Updates.{applied, reply_to};
ghost use Rattle.dir_store.specs.directory_api.View.{reply_view};
ghost use Rattle.local_directory.specs.Latest.{kept_as};

use crate::client_table::ClientTable;
use crate::kept::{LatestReply, is_success};
use dir_search::{Client, Op, Reply, ResultCode};
use dir_store::Store;
use std::alloc::{AllocError, Global};

/// A client's request for an update.
#[derive(Clone, Copy)]
pub struct ClientRequest {
    pub client: Client,
    /// The client's number for it.
    pub number: u64,
}

/// Keeps a reply as that of a client's latest request, which the table has as a success, and gives it back. Success
/// takes no memory.
fn keep_reply(
    alloc: Global,
    clients: &mut ClientTable,
    request: ClientRequest,
    number: u64,
    reply: Reply,
) -> Result<Reply, AllocError>
    requires room { map.get clients.old request.client ≡ Some (kept_as request.number number (only_code 0)) }
    ensures same { IfOk result (λ r. reply_view r ≡ reply_view reply) }
    ensures kept { OnOk result (clients.new
        ≡ map.insert clients.old request.client (kept_as request.number number (reply_view reply))) }
    ensures err { OnErr result (clients.new ≡ clients.old) }

    // What was made is kept without memory.
    ensures refused { OnErr result (reply_view reply ≡ only_code 0 → ⊥) }
{
    if is_success(&reply) {
        return Ok(reply);
    }
    let copied = reply.copy(alloc)?;
    let kept = LatestReply {
        request: request.number,
        number,
        reply: copied,
    };
    clients.replace(request.client, kept);
    Ok(reply)
}

/// Makes an update, where the table has its client's request as a success already. An `Err` leaves all as it was.
#[tactic(auto, using(crate::proofs::Unchanged::refused_same))]
fn make_with_room(
    alloc: Global,
    store: &mut Store,
    clients: &mut ClientTable,
    request: ClientRequest,
    number: u64,
    op: &Op,
) -> Result<Reply, AllocError>
    requires above { NumbersBelow number store.old.directory.entries }
    requires room { map.get clients.old request.client ≡ Some (kept_as request.number number (only_code 0)) }
    ensures reply { IfOk result (λ r. reply_view r ≡ reply_to store.old.directory number op.now) }
    ensures directory { OnOk result (store.new.directory ≡ applied store.old.directory number op.now) }
    ensures kept { OnOk result (clients.new
        ≡ map.insert clients.old request.client (kept_as request.number number (reply_to store.old.directory number
        op.now))) }
    ensures below { OnOk result (NumbersBelow (number + 1) store.new.directory.entries) }
    ensures err { OnErr result (store.new ≡ store.old) }
    ensures err_clients { OnErr result (clients.new ≡ clients.old) }
{
    let reply = store.apply(alloc, number, op)?;
    keep_reply(alloc, clients, request, number, reply)
}

/// Makes an update under a number above those of all entries, and keeps its reply as that of the client's latest
/// request. An `Err` leaves all as it was: the room in the table is made before the update.
pub fn make(
    alloc: Global,
    store: &mut Store,
    clients: &mut ClientTable,
    request: ClientRequest,
    number: u64,
    op: &Op,
) -> Result<Reply, AllocError>
    requires above { NumbersBelow number store.old.directory.entries }
    ensures reply { IfOk result (λ r. reply_view r ≡ reply_to store.old.directory number op.now) }
    ensures directory { OnOk result (store.new.directory ≡ applied store.old.directory number op.now) }
    ensures kept { OnOk result (clients.new
        ≡ map.insert clients.old request.client (kept_as request.number number (reply_to store.old.directory number
        op.now))) }
    ensures below { OnOk result (NumbersBelow (number + 1) store.new.directory.entries) }
    ensures err { OnErr result (store.new ≡ store.old) }
    ensures err_clients { OnErr result (clients.new ≡ clients.old) }
{
    let success = LatestReply {
        request: request.number,
        number,
        reply: Reply::only(alloc, ResultCode::SUCCESS),
    };
    let before = clients.keep(request.client, success)?;
    match make_with_room(alloc, store, clients, request, number, op) {
        Ok(reply) => Ok(reply),
        Err(error) => {
            clients.put_back(request.client, before);
            Err(error)
        }
    }
}
