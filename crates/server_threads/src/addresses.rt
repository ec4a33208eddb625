//! The address of each session's client, from the session's begin to its end, where sessions are logged.
use std::alloc::Global;
use std::collections::BTreeMap;
use std::net::SocketAddr;
use std::sync::{Mutex, Wait};

/// The addresses of clients, by the numbers of their sessions.
#[derive(Drop)]
pub struct Addresses {
    held: Mutex<BTreeMap<u64, SocketAddr>>,
}

impl Addresses {
    /// No session has begun.
    pub fn new(alloc: Global) -> Addresses {
        Addresses {
            held: Mutex::new(BTreeMap::new(alloc)),
        }
    }

    /// A session begins whose client has this address. Without memory the address isn't kept.
    pub fn come<R: Wait>(&self, rt: &R, session: u64, address: SocketAddr) {
        let _ = self.held.lock(rt).insert(session, address);
    }

    /// A session ends: the address of its client, where that was kept.
    pub fn go<R: Wait>(&self, rt: &R, session: u64) -> Option<SocketAddr> {
        self.held.lock(rt).remove(&session)
    }
}
