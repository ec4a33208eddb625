//! Reads a socket with a server's patience.
ghost use Rattle.std.specs.Prelude.{◌≤◌};

use crate::door::Door;
use crate::gauge::{Gauge, Heading};
use std::io;
use std::io::{ErrorKind, Read, Write};
use std::net::TcpStream;
use std::sync::Wait;
use std::time::{Clock, Duration, Instant};

/// How long an unverified peer may take to show a greeting, in milliseconds.
const PROBATION: u64 = 2_000;

/// Reads a socket, and fails where the door is closed, where the other end is silent for too long inside a message, and
/// where it sends no whole message for too long while another waits for the place. An unverified peer has 2 seconds
/// from when it came; what it has sent is read before it is judged, and it gives its place up where nothing comes while
/// another waits.
pub struct PieceReader<'a, R, H> {
    rt: &'a R,
    door: &'a Door,
    stream: TcpStream,
    gauge: Gauge<H>,
    /// How many messages were whole at the last look, and since when there was none more.
    count: u64,
    since_message: Instant,
    since_octet: Instant,
    /// Since when it is unverified, where it is.
    unverified_since: Option<Instant>,
    /// How long it may be silent, where it says in time that it is there.
    silence: Option<Duration>,
}

// Not derived: see "What the gate takes" in docs/ARCHITECTURE.md.
impl<'a, R, H: Drop> Drop for PieceReader<'a, R, H> {
    fn drop(self) {
        let PieceReader {
            rt: _,
            door: _,
            stream: _,
            gauge: _,
            count: _,
            since_message: _,
            since_octet: _,
            unverified_since: _,
            silence: _,
        } = self;
    }
}

/// Whether a read came to nothing only because its time was over.
fn is_pause(kind: ErrorKind) -> bool {
    kind == ErrorKind::WouldBlock || kind == ErrorKind::TimedOut
}

impl<'a, R: Wait + Clock, H: Heading> PieceReader<'a, R, H> {
    /// A socket of which nothing was read.
    pub fn new(rt: &'a R, door: &'a Door, stream: TcpStream) -> io::Result<PieceReader<'a, R, H>> {
        stream.set_read_timeout(Some(door.limits().turn()))?;
        let now = Instant::now(rt)?;
        Ok(PieceReader {
            rt,
            door,
            stream,
            gauge: Gauge::new(),
            count: 0,
            since_message: now,
            since_octet: now,
            unverified_since: None,
            silence: None,
        })
    }

    /// Tells the other end that it is heard, by one octet: it may be asking. What the stream doesn't take is lost, and
    /// so is the stream then.
    pub fn answer(&mut self) -> io::Result<()> {
        self.stream.write_all(&[0])
    }

    /// Tells the other end why it isn't heard, by these octets.
    pub fn refuse(&mut self, why: &[u8]) -> io::Result<()> {
        self.stream.write_all(why)
    }

    /// The other end sends something within this time, as long as it is there.
    pub fn expect_within(&mut self, silence: Duration) {
        self.silence = Some(silence);
    }

    /// The other end is unverified, and has been since its socket was taken.
    pub fn doubt(&mut self) {
        self.unverified_since = Some(self.since_message);
    }

    /// The other end is verified.
    pub fn trust(&mut self) {
        self.unverified_since = None;
    }

    /// Whether the other end has been unverified for too long.
    pub fn is_unverified_for_long(&self) -> io::Result<bool> {
        let Some(since) = self.unverified_since else {
            return Ok(false);
        };
        let now = Instant::now(self.rt)?;
        Ok(now.saturating_duration_since(since) >= Duration::from_millis(PROBATION))
    }

    /// Whether an unverified peer of which nothing has come gives its place up to one that waits for it.
    fn is_to_go(&self) -> bool {
        self.unverified_since.is_some() && self.door.give_up(self.rt)
    }

    /// The first octets that have come, without taking them, as many as the buffer has room for; how many. Where none
    /// has come it fails with `WouldBlock`, and where none will come there are 0.
    pub fn peek(&self, octets: &mut [u8]) -> io::Result<usize> {
        self.stream.set_nonblocking(true)?;
        let seen = self.stream.peek(octets);
        self.stream.set_nonblocking(false)?;
        seen
    }

    /// A read begins: what came before is answered by now, and the time that this took is not the other end's.
    fn begin(&mut self) -> io::Result<()> {
        let now = Instant::now(self.rt)?;
        self.since_octet = now;
        if self.gauge.count() != self.count {
            self.count = self.gauge.count();
            self.since_message = now;
        }
        Ok(())
    }

    /// Whether the patience with the other end is at its end.
    fn is_over(&self) -> io::Result<bool> {
        let now = Instant::now(self.rt)?;
        let limits = self.door.limits();
        if self.door.is_closed() || self.is_unverified_for_long()? {
            return Ok(true);
        }
        let silent = now.saturating_duration_since(self.since_octet);
        if self.gauge.is_inside() && silent >= limits.message {
            return Ok(true);
        }
        if let Some(silence) = self.silence {
            if silent >= silence {
                return Ok(true);
            }
        }
        let idle = now.saturating_duration_since(self.since_message);
        Ok(idle >= limits.idle && self.door.give_up(self.rt))
    }
}

impl<'a, R: Wait + Clock, H: Heading> Read for PieceReader<'a, R, H> {
    fn read(&mut self, buffer: &mut [u8]) -> io::Result<usize> {
        self.begin()?;
        for _ in 0..u64::MAX {
            if self.is_over()? {
                break;
            }
            match self.stream.read(buffer) {
                Ok(count) => {
                    self.gauge.feed(&buffer[..count]);
                    return Ok(count);
                }
                Err(error) => {
                    if !is_pause(error.kind()) {
                        return Err(error);
                    }
                    if self.is_to_go() {
                        break;
                    }
                }
            }
        }
        Err(io::Error::from(ErrorKind::TimedOut))
    }
}
