//! Another replica's stream, of which frames are read.
use crate::accepting::Arrives;
use crate::door::Door;
use crate::headings::FrameHeading;
use crate::pieces::PieceReader;
use std::alloc::Global;
use std::io;
use std::io::BufReader;
use std::net::{SocketAddr, TcpStream};
use std::sync::Wait;
use std::time::{Clock, Duration};

/// A stream whose other end asks whether it is heard.
pub trait PeerStream {
    /// Tells the other end that it is heard.
    fn answer(&mut self) -> io::Result<()>;

    /// Tells the other end why it isn't.
    fn refuse(&mut self, why: &[u8]) -> io::Result<()>;

    /// From now on the other end sends something within this time, as long as it is there.
    fn expect_within(&mut self, silence: Duration);
}

impl<'a, R: Wait + Clock> PeerStream for BufReader<PieceReader<'a, R, FrameHeading>> {
    fn answer(&mut self) -> io::Result<()> {
        self.get_mut().answer()
    }

    fn refuse(&mut self, why: &[u8]) -> io::Result<()> {
        self.get_mut().refuse(why)
    }

    fn expect_within(&mut self, silence: Duration) {
        self.get_mut().expect_within(silence);
    }
}

/// A stream that another replica, or anybody else, has opened. It is unverified until it is trusted.
pub struct PeerConnection<'a, R> {
    reader: PieceReader<'a, R, FrameHeading>,
    address: SocketAddr,
}

// Not derived: see "What the gate takes" in docs/ARCHITECTURE.md.
impl<'a, R> Drop for PeerConnection<'a, R> {
    fn drop(self) {
        let PeerConnection {
            reader: _,
            address: _,
        } = self;
    }
}

impl<'a, R: Wait + Clock> Arrives<'a, R, Door> for PeerConnection<'a, R> {
    fn arrive(
        rt: &'a R,
        _alloc: Global,
        door: &'a Door,
        socket: TcpStream,
        address: SocketAddr,
    ) -> io::Result<PeerConnection<'a, R>> {
        let mut reader = PieceReader::new(rt, door, socket)?;
        reader.doubt();
        Ok(PeerConnection { reader, address })
    }
}

impl<'a, R: Wait + Clock> PeerConnection<'a, R> {
    /// The address of the other end.
    pub fn address(&self) -> SocketAddr {
        self.address
    }

    /// The first octets that have come, without taking them, as many as the buffer has room for; how many. Where none
    /// has come it fails with `WouldBlock`, and where none will come there are 0.
    pub fn peek(&self, octets: &mut [u8]) -> io::Result<usize> {
        self.reader.peek(octets)
    }

    /// Whether 2 seconds have passed since it came.
    pub fn is_late(&self) -> io::Result<bool> {
        self.reader.is_unverified_for_long()
    }

    /// What frames are read from, once it has a thread. It is unverified there too, until it is trusted.
    pub fn seated(self, alloc: Global) -> io::Result<BufReader<PieceReader<'a, R, FrameHeading>>> {
        let PeerConnection { reader, address: _ } = self;
        BufReader::new(alloc, reader)
    }
}
