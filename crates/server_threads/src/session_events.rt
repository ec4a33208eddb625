//! Logs the events of sessions, a line each.
use crate::addresses::Addresses;
use crate::engine::Engine;
use crate::telling::{tell_begin, tell_end, tell_let_go, tell_refused, tell_session};
use peer_threads::{Counters, NeededThreads, Reporter};
use session_pool::{Away, SessionEnd, SessionObserver, Traffic};
use std::alloc::{AllocError, Global};
use std::net::SocketAddr;
use std::sync::Wait;
use std::sync::atomic::{AtomicU64, Ordering};

/// The code of a bind that was accepted (RFC 4511 4.2.2).
const SUCCESS: u8 = 0;

/// Who is told of a server's sessions.
#[derive(Drop)]
pub struct SessionReporter<'a, R, E> {
    pub rt: &'a R,
    pub alloc: Global,
    pub needed_threads: &'a NeededThreads,
    pub sessions: &'a AtomicU64,
    pub engine: &'a E,
    pub reporter: &'a Reporter,
    pub counters: &'a Counters,
    /// The addresses of the clients, where sessions are logged.
    pub addresses: Option<&'a Addresses>,
}

impl<'a, R: Wait, E> SessionReporter<'a, R, E> {
    /// The address of a session's client, which is over, where sessions are logged.
    fn address_of(&self, session: u64) -> Option<SocketAddr> {
        match self.addresses {
            Some(addresses) => addresses.go(self.rt, session),
            None => None,
        }
    }
}

impl<'a, R: Wait, E: Engine> SessionObserver for SessionReporter<'a, R, E> {
    fn begins(&self) {
        self.needed_threads.begin();
    }

    fn came(&self, session: u64, address: SocketAddr) {
        self.sessions.fetch_add(1, Ordering::SeqCst);
        if let Some(addresses) = self.addresses {
            addresses.come(self.rt, session, address);
            tell_begin(self.rt, self.alloc, self.reporter, session, address);
        }
    }

    fn ended(&self, session: u64, end: SessionEnd) {
        self.sessions.fetch_sub(1, Ordering::SeqCst);
        match self.address_of(session) {
            Some(address) => tell_end(self.rt, self.alloc, self.reporter, session, address, end),
            None => tell_session(self.rt, self.alloc, self.reporter, session, end),
        }
    }

    fn let_go(&self, session: u64, why: Away) {
        self.counters.evict();
        if why != Away::Full {
            self.sessions.fetch_sub(1, Ordering::SeqCst);
        }
        let address = self.address_of(session);
        tell_let_go(self.rt, self.alloc, self.reporter, session, address, why);
    }

    fn refused(&self, session: u64, name: Result<&str, AllocError>, code: u8) {
        self.counters.answer_bind(code);
        tell_refused(self.rt, self.alloc, self.reporter, session, name, code);
    }

    fn bound(&self) {
        self.counters.answer_bind(SUCCESS);
    }

    fn passed(&self, traffic: Traffic) {
        self.counters.pass(traffic.read, traffic.written);
    }

    fn left(&self) {
        self.engine.look_again();
    }
}
