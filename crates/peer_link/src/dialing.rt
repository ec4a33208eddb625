//! Dials another replica.
ghost use Rattle.std.specs.Prelude.{◌≡◌, ◌≤◌, length, IfErr, IfOk, Ok};

use crate::address::Address;
use std::io;
use std::io::{ErrorKind, Read, Write};
use std::net::{Net, SocketAddr, TcpStream, ToSocketAddrs};
use std::time::Duration;

/// Makes streams to one place.
pub trait Dial {
    type Stream: Write + Drop;

    /// A new stream, where one can be made now.
    fn dial(&mut self) -> Option<Self::Stream>;

    /// What has come back on the stream since it was asked last. It waits for nothing.
    fn hear(&mut self, stream: &Self::Stream) -> StreamState;
}

/// A stream that takes octets without waiting.
pub trait WriteAtOnce {
    /// Has the stream take of these octets what it can take at once; how many that are. It waits for nothing.
    fn write_at_once(&mut self, octets: &[u8]) -> io::Result<usize>
        ensures { IfOk result (λ count. count ≤ length octets.now) };
}

/// What has come back on a stream.
#[derive(Clone, Copy, Debug, PartialEq, Eq)]
pub enum StreamState {
    Nothing,
    /// The other end has answered.
    Answer,
    /// The other end doesn't hear this one, for this reason.
    Refusal([u8; REFUSAL]),
    /// The other end has closed the stream, or it has failed.
    End,
}

/// Dials one address, or whatever addresses a name has at the moment.
#[derive(Drop)]
pub struct SocketDialer<'a, R> {
    rt: &'a R,
    address: Address<'a>,
    limit: Duration,
    /// Why the last stream couldn't be made; none, where it could, or where the name has no address.
    cause: Option<ErrorKind>,
}

impl<'a, R> SocketDialer<'a, R> {
    /// A connection that isn't made within the limit is none, and a write that isn't taken within it fails.
    pub fn new(rt: &'a R, address: Address<'a>, limit: Duration) -> SocketDialer<'a, R> {
        SocketDialer {
            rt,
            address,
            limit,
            cause: None,
        }
    }

    /// Why the last stream couldn't be made; none, where it could, or where the name has no address.
    pub fn cause(&self) -> Option<ErrorKind> {
        self.cause
    }
}

impl<'a, R: Net<Stream = TcpStream>> SocketDialer<'a, R> {
    /// A stream on which small frames go at once.
    fn connect(&self, address: &SocketAddr) -> io::Result<TcpStream> {
        let stream = TcpStream::connect_timeout(self.rt, address, self.limit)?;
        stream.set_nodelay(true)?;
        stream.set_write_timeout(Some(self.limit))?;
        Ok(stream)
    }

    /// Such a stream; where there is none, why is kept.
    fn try_connect(&mut self, address: &SocketAddr) -> Option<TcpStream> {
        match self.connect(address) {
            Ok(stream) => Some(stream),
            Err(error) => {
                self.cause = Some(error.kind());
                None
            }
        }
    }

    /// Such a stream to the first address of a name that takes it. A look-up may wait for the system.
    fn connected_to(&mut self, host: &str, port: u16) -> Option<TcpStream> {
        let addresses = (host, port).to_socket_addrs(self.rt).ok()?;
        for address in addresses {
            if let Some(stream) = self.try_connect(&address) {
                return Some(stream);
            }
        }
        None
    }
}

/// How many octets a refusal has, and which is its first; an answer is another one, by itself.
pub const REFUSAL: usize = 18;

const REFUSED: u8 = 2;

/// What octets say that have come back: a refusal, or that the other end is there.
fn heard_in(octets: &[u8]) -> StreamState {
    match octets.first_chunk::<REFUSAL>() {
        Some(refusal) if refusal[0] == REFUSED => StreamState::Refusal(*refusal),
        _ => StreamState::Answer,
    }
}

/// How many octets of answers are read at once: one comes for each question, and one for the greeting.
const ANSWERS: usize = 64;

/// What can be read of a stream that doesn't wait.
fn read_answers(mut stream: &TcpStream) -> StreamState {
    let mut octets = [0u8; ANSWERS];
    match stream.read(&mut octets) {
        Ok(0) => StreamState::End,
        Ok(count) => match octets.get(..count) {
            Some(come) => heard_in(come),
            None => StreamState::End,
        },
        Err(error) => match error.kind() {
            ErrorKind::WouldBlock | ErrorKind::Interrupted => StreamState::Nothing,
            _ => StreamState::End,
        },
    }
}

/// How many octets a stream has taken that doesn't wait.
fn count_taken(taken: io::Result<usize>) -> io::Result<usize>
    ensures some { IfOk taken (λ count. result ≡ Ok count) }
    ensures none { IfErr taken (λ _. IfOk result (λ count. count ≡ 0)) }
{
    match taken {
        Ok(count) => Ok(count),
        Err(error) => match error.kind() {
            ErrorKind::WouldBlock | ErrorKind::Interrupted => Ok(0),
            _ => Err(error),
        },
    }
}

impl WriteAtOnce for TcpStream {
    fn write_at_once(&mut self, octets: &[u8]) -> io::Result<usize> {
        self.set_nonblocking(true)?;
        let taken = self.write(octets);
        self.set_nonblocking(false)?;
        count_taken(taken)
    }
}

/// What has come back on a stream.
fn answers_on(stream: &TcpStream) -> io::Result<StreamState> {
    stream.set_nonblocking(true)?;
    let heard = read_answers(stream);
    stream.set_nonblocking(false)?;
    Ok(heard)
}

impl<'a, R: Net<Stream = TcpStream>> Dial for SocketDialer<'a, R> {
    type Stream = TcpStream;

    fn dial(&mut self) -> Option<TcpStream> {
        self.cause = None;
        match self.address {
            Address::Numbers(address) => self.try_connect(&address),
            Address::Name { host, port } => self.connected_to(host, port),
        }
    }

    fn hear(&mut self, stream: &TcpStream) -> StreamState {
        answers_on(stream).unwrap_or(StreamState::End)
    }
}
