//! Writes what a server says on standard error, a line an event: lines wait in a queue with a limit, and one thread
//! writes them. Nobody else ever waits for whoever reads them, and that thread waits for nobody once the server ends.
use crate::lines::Lines;
use crate::notes::Note;
use jiff::Timestamp;
use libc::net::{POLLOUT, poll};
use libc::types::pollfd;
use std::alloc::{AllocError, Global};
use std::io::Eprint;
use std::sync::{Condvar, CondvarTimeouts, Mutex, Wait};
use std::time::{Clock, Duration};

/// How long the thread that writes rests after it has written what waited, in milliseconds. Equal lines that come one
/// after the other meanwhile are written once, with their number.
const REST: u64 = 200;

/// How long it is waited for that standard error takes a line, in milliseconds, before it is looked whether the server
/// ends.
const WAIT: i32 = 200;

/// How often that is done in vain, once nothing more is said, before what waits is lost: a second, after which the
/// process ends all the same.
const FAREWELLS: u32 = 5;

/// The descriptor of standard error.
const STANDARD_ERROR: i32 = 2;

/// Where notes are written.
pub trait NoteWriter {
    /// Waits a little until a note can be written without waiting; whether one can.
    fn is_ready(&mut self) -> bool;

    /// Writes one note as a line, however long that takes. One that can't be written is lost.
    fn write_note(&mut self, note: &Note);
}

/// Standard error. Each line begins with the time at which it is written, in UTC to the millisecond (RFC 3339).
#[derive(Drop)]
pub struct StandardError<'a, R> {
    pub rt: &'a R,
}

/// Whether standard error takes a line within so many milliseconds without waiting. One that was closed does: a write
/// fails then, and waits for nobody.
pub fn takes_a_line(millis: i32) -> bool {
    let mut asked = [pollfd {
        fd: STANDARD_ERROR,
        events: POLLOUT,
        revents: 0,
    }];
    0 < poll(&mut asked, millis)
}

impl<'a, R: Eprint + Clock> NoteWriter for StandardError<'a, R> {
    fn is_ready(&mut self) -> bool {
        takes_a_line(WAIT)
    }

    fn write_note(&mut self, note: &Note) {
        let _ = match Timestamp::now(self.rt) {
            Ok(now) => eprintln!(self.rt; "{now:.3} {note}"),
            Err(_) => eprintln!(self.rt; "{note}"),
        };
    }
}

/// What is under the lock.
#[derive(Drop)]
struct LockedLines {
    lines: Lines,
    is_stopping: bool,
}

/// Lines that wait to be written. At most so many runs of equal lines do; a line for which there is no room is counted,
/// and the number is written where the line would have been.
pub struct Reporter {
    held: Mutex<LockedLines>,
    changed: Condvar,
}

// Not derived: see "What the gate takes" in docs/ARCHITECTURE.md.
impl Drop for Reporter {
    fn drop(self) {
        let Reporter {
            held: _,
            changed: _,
        } = self;
    }
}

impl Reporter {
    /// Nothing was said yet, and so many notes may wait. Lines may be said at once; they are written when a thread
    /// writes them.
    pub fn new(alloc: Global, most: usize) -> Result<Reporter, AllocError> {
        let lines = Lines::new(alloc, most)?;
        Ok(Reporter {
            held: Mutex::new(LockedLines {
                lines,
                is_stopping: false,
            }),
            changed: Condvar::new(),
        })
    }

    /// Says a line, without its end; one that couldn't be made for want of memory is counted as dropped. It waits for
    /// nothing but its own lock, which is held for no longer than a few steps, and takes no memory.
    pub fn say<R: Wait>(&self, rt: &R, line: Result<String, AllocError>) {
        match line {
            Ok(text) => self.held.lock(rt).lines.say(text),
            Err(_) => self.held.lock(rt).lines.lose(),
        }
        self.changed.notify_one();
    }

    /// How many lines were dropped in all.
    pub fn dropped<R: Wait>(&self, rt: &R) -> u64 {
        self.held.lock(rt).lines.dropped_in_all()
    }

    /// Writes what waits, as far as whoever reads takes it at once. It is for a time in which no thread writes what is
    /// said.
    pub fn write_waiting<R: Wait, W: NoteWriter>(&self, rt: &R, writer: &mut W) {
        let count = self.held.lock(rt).lines.len();
        let _ = self.write_some(rt, writer, count);
    }

    /// Nothing more is said that has to be written: whoever writes does so with what waits, and ends.
    pub fn stop<R: Wait>(&self, rt: &R) {
        self.held.lock(rt).is_stopping = true;
        self.changed.notify_all();
    }

    /// Waits until there is something to write, or nothing will be; how many notes wait.
    fn wait_for_notes<R: Wait>(&self, rt: &R) -> usize {
        let held = self.changed.wait_while(rt, self.held.lock(rt), |held| {
            !held.is_stopping && held.lines.is_empty()
        });
        held.lines.len()
    }

    /// The note that waits longest.
    fn take<R: Wait>(&self, rt: &R) -> Option<Note> {
        self.held.lock(rt).lines.take()
    }

    /// Rests, but for no longer than until it is stopped.
    fn rest<R: Wait + Clock>(&self, rt: &R) {
        let time = Duration::from_millis(REST);
        let (_held, _) = self
            .changed
            .wait_timeout_while(rt, self.held.lock(rt), time, |held| !held.is_stopping);
    }

    /// Whether nothing more is said.
    fn is_stopping<R: Wait>(&self, rt: &R) -> bool {
        self.held.lock(rt).is_stopping
    }

    /// Writes so many notes, or all, where there are fewer; whether none had to wait for whoever reads them.
    fn write_some<R: Wait, W: NoteWriter>(&self, rt: &R, writer: &mut W, count: usize) -> bool {
        'each: for _ in 0..count {
            if !writer.is_ready() {
                return false;
            }
            let Some(note) = self.take(rt) else {
                break;
            };
            writer.write_note(&note);
        }
        true
    }

    /// Writes what is said, until it is stopped and all of it is written, or nobody has read for a second after that.
    /// Nobody waits for whoever reads but this thread.
    pub fn write_all<R: Wait + Clock, W: NoteWriter>(&self, rt: &R, writer: &mut W) {
        let mut farewells: u32 = 0;
        for _ in rt.forever() {
            let count = self.wait_for_notes(rt);
            if count == 0 || farewells >= FAREWELLS {
                break;
            }
            if !self.write_some(rt, writer, count) && self.is_stopping(rt) {
                farewells += 1;
            }
            self.rest(rt);
        }
    }
}
