//! Connections taken from a listener, and places found for them.
use crate::pool::SessionPool;
use crate::tells::{Away, SessionObserver};
use libc::EMFILE;
use session_table::PooledSession;
use session_turns::Queue;
use std::net::{SocketAddr, TcpListener, TcpStream};
use std::sync::Wait;
use std::time::{Clock, Duration, Instant};
use std::{io, thread};

/// How long it is waited before a connection is asked for again, where none could be taken, in milliseconds.
const PAUSE: u64 = 100;

/// The system has no descriptor left for any process.
const ENFILE: i32 = 23;

/// Whether a connection couldn't be taken for want of a descriptor.
fn is_want(error: &io::Error) -> bool {
    match error.raw_os_error() {
        Some(code) => code == EMFILE || code == ENFILE,
        None => false,
    }
}

impl<'a, R: Wait + Clock, T: SessionObserver> SessionPool<'a, R, T> {
    /// The session that has waited longest of a queue, which waits no more.
    fn wake_longest(&self, queue: Queue) -> Option<PooledSession> {
        self.table.lock(self.rt).take_longest(queue)
    }

    /// Lets a session go: one that is over, else the one that was silent for longest.
    fn evict(&self, why: Away) -> bool {
        if let Some(pooled) = self.wake_longest(Queue::Leaving) {
            self.close(pooled);
            return true;
        }
        let Some(pooled) = self.wake_longest(Queue::Silent) else {
            return false;
        };
        let number = pooled.number();
        self.close(pooled);
        self.teller.let_go(number, why);
        true
    }

    /// A place for a session that comes.
    fn place(&self) -> Option<usize> {
        let place = self.table.lock(self.rt).claim().ok();
        if place.is_none() && self.evict(Away::Longest) {
            return self.table.lock(self.rt).claim().ok();
        }
        place
    }

    /// A connection from this address becomes a session that waits for its first message.
    fn arrive(&self, number: u64, socket: TcpStream, address: SocketAddr) -> io::Result<()> {
        let now = Instant::now(self.rt)?;
        let Some(place) = self.place() else {
            self.teller.let_go(number, Away::Full);
            return Ok(());
        };
        match PooledSession::new(self.alloc, place, number, socket, now) {
            Ok(pooled) => {
                self.teller.came(number, address);
                self.park(pooled, Queue::Silent);
            }
            Err(_) => self.table.lock(self.rt).free(place),
        }
        Ok(())
    }

    /// Takes connections and numbers them from 1, until the door is closed. Where none can be taken for want of a
    /// descriptor, the session that was silent for longest gives its own up.
    pub fn take_all(&self, listener: &TcpListener) {
        self.teller.begins();
        for number in 1..u64::MAX {
            let accepted = listener.accept();
            if self.door.is_closed() {
                break;
            }
            match accepted {
                Ok((socket, address)) => {
                    let _ = self.arrive(number, socket, address);
                }
                Err(error) => {
                    if is_want(&error) {
                        self.evict(Away::NoDescriptor);
                    }
                    thread::sleep(self.rt, Duration::from_millis(PAUSE));
                }
            }
        }
        self.watcher.wake();
    }
}
