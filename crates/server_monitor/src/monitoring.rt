//! Answers monitors over HTTP/1.1, each once, sixteen beside one another. One thread looks at all of them, and waits
//! for none.
use status_page::{Head, Method, Page, bad_request, head_of};
use std::alloc::{AllocError, Global};
use std::collections::VecDeque;
use std::io::{self, ErrorKind, Read, Write};
use std::net::{TcpListener, TcpStream};
use std::sync::Wait;
use std::thread;
use std::time::{Clock, Duration, Instant};

/// How long a monitor may take for its request and for taking the answer together, in milliseconds.
const PATIENCE: u64 = 1_000;

/// How many octets are read at once, and how many a request's head may have.
const PIECE: usize = 512;

const HEAD: usize = 8_192;

/// How many monitors are answered beside one another: where one more comes, the one that came first is disconnected.
const MONITORS: usize = 16;

/// How often monitors are looked at, in milliseconds.
const LOOK: u64 = 5;

/// How long it is waited before a connection is asked for again, where none could be taken, in milliseconds.
const PAUSE: u64 = 100;

/// A monitor's connection, which doesn't wait.
pub struct Monitor {
    stream: TcpStream,
    since: Instant,
    /// What has come of its request.
    asked: Vec<u8>,
    /// What it is answered, and how much of that it has taken.
    answer: Option<String>,
    taken: usize,
}

// Not derived: see "What the gate takes" in docs/ARCHITECTURE.md.
impl Drop for Monitor {
    fn drop(self) {
        let Monitor {
            stream: _,
            since: _,
            asked: _,
            answer: _,
            taken: _,
        } = self;
    }
}

/// All monitors, the one that was looked at last at the back.
pub type Monitors = VecDeque<Monitor, Global>;

/// Whether a call came to nothing only because it would have to wait.
fn is_pause(kind: ErrorKind) -> bool {
    kind == ErrorKind::WouldBlock || kind == ErrorKind::Interrupted
}

/// What monitors are told, and for how long.
pub trait PageSource {
    /// A page, of what the replica does now.
    fn page(&self, method: Method, asked: Page) -> Result<String, AllocError>;

    /// Whether no monitor is answered any more.
    fn is_closed(&self) -> bool;
}

/// What answers monitors.
#[derive(Drop)]
pub struct Monitoring<'a, R, S> {
    pub rt: &'a R,
    pub alloc: Global,
    pub source: &'a S,
}

impl<'a, R: Wait + Clock, S: PageSource> Monitoring<'a, R, S> {
    /// The answer to a request of which this has come; none, where more of it is to come.
    fn answer(&self, octets: &[u8]) -> Result<Option<String>, AllocError> {
        match head_of(octets) {
            Head::Asks(method, asked) => Ok(Some(self.source.page(method, asked)?)),
            Head::Part => Ok(None),
            Head::Bad => Ok(Some(bad_request(self.alloc)?)),
        }
    }

    /// Reads what has come of a request, up to a piece. Whether more may come.
    fn read(&self, monitor: &mut Monitor) -> io::Result<bool> {
        let mut piece = [0u8; PIECE];
        let count = match monitor.stream.read(&mut piece) {
            Ok(count) => count,
            Err(error) => {
                return if is_pause(error.kind()) {
                    Ok(true)
                } else {
                    Err(error)
                };
            }
        };
        if count == 0 || monitor.asked.len() >= HEAD {
            return Ok(false);
        }
        if let Some(come) = piece.get(..count) {
            monitor.asked.extend_from_slice(come)?;
        }
        monitor.answer = self.answer(&monitor.asked)?;
        Ok(true)
    }

    /// Writes what the monitor takes of its answer. Whether there is more.
    fn write(&self, monitor: &mut Monitor) -> io::Result<bool> {
        let Some(answer) = &monitor.answer else {
            return Ok(true);
        };
        let Some(left) = answer.as_bytes().get(monitor.taken..) else {
            return Ok(false);
        };
        match monitor.stream.write(left) {
            Ok(count) => {
                monitor.taken = monitor.taken.saturating_add(count);
                Ok(count > 0 && count < left.len())
            }
            Err(error) => {
                if is_pause(error.kind()) {
                    Ok(true)
                } else {
                    Err(error)
                }
            }
        }
    }

    /// Goes on with a monitor as far as that needs no waiting. Whether it stays.
    fn go_on(&self, monitor: &mut Monitor) -> io::Result<bool> {
        let now = Instant::now(self.rt)?;
        if now.saturating_duration_since(monitor.since) >= Duration::from_millis(PATIENCE) {
            return Ok(false);
        }
        if monitor.answer.is_none() && !self.read(monitor)? {
            return Ok(false);
        }
        self.write(monitor)
    }

    /// Goes on with each monitor.
    fn go_on_with_all(&self, monitors: &mut Monitors) {
        for _ in 0..monitors.len() {
            let Some(mut monitor) = monitors.pop_front() else {
                break;
            };
            if let Ok(true) = self.go_on(&mut monitor) {
                // A monitor for which there is no memory asks again.
                let _ = monitors.push_back(monitor);
            }
        }
    }

    /// Lets a monitor in.
    fn let_in(&self, monitors: &mut Monitors, stream: TcpStream) -> io::Result<()> {
        stream.set_nonblocking(true)?;
        let since = Instant::now(self.rt)?;
        if monitors.len() >= MONITORS {
            let _first = monitors.pop_front();
        }
        let monitor = Monitor {
            stream,
            since,
            asked: Vec::new(self.alloc),
            answer: None,
            taken: 0,
        };
        monitors.push_back(monitor)?;
        Ok(())
    }

    /// Waits for the next monitor while there is none, else until the next look.
    fn next(&self, listener: &TcpListener, monitors: &mut Monitors) -> io::Result<()> {
        listener.set_nonblocking(!monitors.is_empty())?;
        match listener.accept() {
            Ok((stream, _)) => self.let_in(monitors, stream),
            Err(error) => {
                if !is_pause(error.kind()) {
                    return Err(error);
                }
                thread::sleep(self.rt, Duration::from_millis(LOOK));
                Ok(())
            }
        }
    }

    /// Answers monitors for a while, without waiting for one, and gives those that are still being answered to the next
    /// call.
    pub fn serve_once(&self, listener: &TcpListener, monitors: &mut Monitors) -> io::Result<()> {
        listener.set_nonblocking(true)?;
        match listener.accept() {
            Ok((stream, _)) => self.let_in(monitors, stream)?,
            Err(error) => {
                if !is_pause(error.kind()) {
                    return Err(error);
                }
            }
        }
        self.go_on_with_all(monitors);
        Ok(())
    }

    /// Answers monitors, until none is answered any more.
    pub fn serve_all(&self, listener: &TcpListener) {
        let mut monitors = VecDeque::new(self.alloc);
        for _ in self.rt.forever() {
            if self.next(listener, &mut monitors).is_err() {
                thread::sleep(self.rt, Duration::from_millis(PAUSE));
            }
            if self.source.is_closed() {
                break;
            }
            self.go_on_with_all(&mut monitors);
        }
    }
}
