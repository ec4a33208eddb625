//! Serves sessions in threads.
ghost use Rattle.std.specs.Prelude.{◌≡◌, ℕ, ◌<◌, IfOk, vec_len, length, slice_index_or};
ghost use denote.Param.Send.{IsSend, IsSync};
ghost use Rattle.ldap_session.specs.session_handler.View.{config_view};
ghost use Rattle.client_link.specs.Served.{HasServed, HasServedSome, config_of};

use crate::connection::Connection;
use crossbeam_channel::Receiver;
use ldap_session::{Config, Directory, serve};
use std::alloc::{AllocError, Global};
use std::sync::Wait;
use std::thread;
use std::thread::Threads;

/// Serves one connection, as the session of this number.
fn serve_one<C: Connection + Drop, D: Directory>(
    alloc: Global,
    mut connection: C,
    session: u64,
    directory: &mut D,
    config: &Config<'_>,
)
    ensures { HasServed D.allows (config_of (config_view config.now) session) directory.old directory.new }
{
    let own = Config { session, ..*config };
    let (reader, writer) = connection.ends();
    let end = serve(alloc, reader, writer, directory, &own);
    connection.ended(session, end);
}

/// Serves connections one after the other, until the channel is closed and empty.
fn serve_each<R: Wait, C: Connection + Drop, D: Directory>(
    rt: &R,
    alloc: Global,
    connections: &Receiver<(u64, C)>,
    mut directory: D,
    config: &Config<'_>,
) -> D
    ensures { HasServedSome D.allows (config_view config.now) directory result }
{
    for _ in rt.forever() {
        let Ok((session, connection)) = connections.recv(rt) else {
            break;
        };
        serve_one(alloc, connection, session, &mut directory, config);
    }
    directory
}

/// Serves connections until the channel is closed and empty, at most as many at once as there are directories: each
/// directory has a thread of its own, where one can be made. Each comes back after what the sessions that it served
/// asked of it, one after the other, each from its beginning and as the session of a number of its own, and after
/// nothing else. That each session has the number that came with its connection, and that each connection is served
/// once, rests on the channel. Want of memory is the only error.
pub fn serve_all<R: Threads + Wait + Sync, C: Connection + Send + Drop, D: Directory + Send + Drop>(
    rt: &R,
    alloc: Global,
    connections: Receiver<(u64, C)>,
    directories: Vec<D>,
    config: &Config<'_>,
) -> Result<Vec<D>, AllocError>
    ensures count { IfOk result (λ after. vec_len after ≡ vec_len directories) }
    ensures served { IfOk result (λ after. (k : ℕ) (d : D) → k < length directories.items
        → HasServedSome D.allows (config_view config.now) (slice_index_or directories.items k d)
        (slice_index_or after.items k d)) }
{
    let shared = &connections;
    let serves = move |directory: D| -> D
        requires { IsSync R.row × IsSend C.row × IsSend D.row }
        ensures { HasServedSome D.allows (config_view config.entry.now) directory result }
    { serve_each(rt, alloc, shared, directory, config) };
    thread::map_vec(rt, directories, &serves)
}
