//! Dials another replica, and says where it can't be reached, and where it is again: once for each change.
use crate::reachability::{News, Reachability};
use crate::telling::{tell_reached, tell_unreached};
use peer_link::{Address, Dial, SocketDialer, StreamState};
use server_monitor::Reporter;
use std::alloc::Global;
use std::net::{Net, TcpStream};
use std::sync::Wait;

/// A dialer to the replica of this index, at this address.
pub struct TellingDialer<'a, R> {
    rt: &'a R,
    alloc: Global,
    reporter: &'a Reporter,
    to: usize,
    address: Address<'a>,
    dialer: SocketDialer<'a, R>,
    /// What was said of it last.
    reachability: Reachability,
}

// Not derived: see "What the gate takes" in docs/ARCHITECTURE.md.
impl<'a, R> Drop for TellingDialer<'a, R> {
    fn drop(self) {
        let TellingDialer {
            rt: _,
            alloc: _,
            reporter: _,
            to: _,
            address: _,
            dialer: _,
            reachability: _,
        } = self;
    }
}

impl<'a, R> TellingDialer<'a, R> {
    /// What dials by this one. Nothing was said yet.
    pub fn new(
        rt: &'a R,
        alloc: Global,
        reporter: &'a Reporter,
        to: usize,
        address: Address<'a>,
        dialer: SocketDialer<'a, R>,
    ) -> TellingDialer<'a, R> {
        TellingDialer {
            rt,
            alloc,
            reporter,
            to,
            address,
            dialer,
            reachability: Reachability::new(),
        }
    }
}

impl<'a, R: Net<Stream = TcpStream> + Wait> Dial for TellingDialer<'a, R> {
    type Stream = TcpStream;

    fn dial(&mut self) -> Option<TcpStream> {
        let stream = self.dialer.dial();
        let (rt, alloc, to, address) = (self.rt, self.alloc, self.to, self.address);
        match self.reachability.note(stream.is_some()) {
            Some(News::Unreached) => {
                tell_unreached(rt, alloc, self.reporter, to, address, self.dialer.cause());
            }
            Some(News::Reached) => tell_reached(rt, alloc, self.reporter, to, address),
            None => {}
        }
        stream
    }

    fn hear(&mut self, stream: &TcpStream) -> StreamState {
        self.dialer.hear(stream)
    }
}
