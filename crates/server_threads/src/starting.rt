//! Answers monitors and writes what is said while the node is opened, which may take minutes over a long journal.
use crate::engine::Monitored;
use crate::pages::ServerPages;
use crate::shared_parts::SharedParts;
use server_monitor::{Build, Figures, Monitoring, Role, StandardError, Start, Trouble};
use std::alloc::Global;
use std::collections::VecDeque;
use std::io::Eprint;
use std::sync::Wait;
use std::sync::atomic::{AtomicBool, Ordering};
use std::thread::{self, Threads};
use std::time::{Clock, Duration, Instant};

/// How often monitors are looked at, in milliseconds.
const LOOK: u64 = 5;

/// How often it is said how far a start is, in milliseconds.
const SAY: u64 = 5_000;

/// What monitors are shown of a node that is being opened.
#[derive(Drop)]
struct Unopened<'a> {
    build: Build,
    shared_parts: &'a SharedParts,
}

impl<'a> Monitored for Unopened<'a> {
    fn figures(&self) -> Figures {
        Figures {
            build: self.build,
            role: Role::Recovering,
            trouble: Trouble::None,
            start: self.shared_parts.start.start(),
            view_number: 0,
            last_update: 0,
            entries: 0,
            log_length: 0,
            sessions: 0,
        }
    }

    fn descriptors(&self) -> Option<u64> {
        None
    }
}

/// What runs beside the opening of a node.
#[derive(Drop)]
pub struct Starting<'a, R> {
    pub rt: &'a R,
    pub alloc: Global,
    pub build: Build,
    pub shared_parts: &'a SharedParts,
}

impl<'a, R: Wait + Clock + Eprint + Threads + Sync> Starting<'a, R> {
    /// Opens the node in the thread that calls, while another one answers monitors and writes lines.
    pub fn beside<T, F: FnOnce() -> T>(&self, opens: F) -> T
        requires { F.pre opens }
    {
        let is_opened = AtomicBool::new(false);
        let ((), opened) = thread::join(
            self.rt,
            || self.serve_until(&is_opened),
            ||
                requires { F.pre opens }
            {
                let opened = opens();
                is_opened.store(true, Ordering::SeqCst);
                opened
            },
        );
        opened
    }

    /// Says how far the start is.
    fn tell(&self) {
        let alloc = self.alloc;
        let line = match self.shared_parts.start.start() {
            Start::Over => return,
            Start::Reading { octets, whole } if octets == whole => {
                format!(in alloc; "journal: {whole} octets are read, its updates are made")
            }
            Start::Reading { octets, whole } => {
                format!(in alloc; "journal: {octets} of {whole} octets are read")
            }
            Start::Resuming { records, whole } => {
                format!(in alloc; "journal: {records} of {whole} records are made")
            }
        };
        self.shared_parts.reporter.say(self.rt, line);
    }

    /// Says how far the start is, where it is time again.
    fn tell_again(&self, told: &mut Option<Instant>) {
        let Ok(now) = Instant::now(self.rt) else {
            return;
        };
        match *told {
            Some(before) if now.saturating_duration_since(before) < Duration::from_millis(SAY) => {}
            Some(_) => {
                self.tell();
                *told = Some(now);
            }
            None => *told = Some(now),
        }
    }

    /// Answers monitors and writes lines, until the node is opened.
    fn serve_until(&self, is_opened: &AtomicBool) {
        let unopened = Unopened {
            build: self.build,
            shared_parts: self.shared_parts,
        };
        let pages = ServerPages {
            rt: self.rt,
            alloc: self.alloc,
            shared_parts: self.shared_parts,
            engine: &unopened,
        };
        let monitoring = Monitoring {
            rt: self.rt,
            alloc: self.alloc,
            source: &pages,
        };
        let mut error = StandardError { rt: self.rt };
        let mut monitors = VecDeque::new(self.alloc);
        let mut told = None;
        for _ in self.rt.forever() {
            if is_opened.load(Ordering::SeqCst) {
                break;
            }
            self.tell_again(&mut told);
            self.shared_parts
                .reporter
                .write_waiting(self.rt, &mut error);
            if let Some(listener) = &self.shared_parts.monitors {
                // What fails now is tried again at the next look.
                let _ = monitoring.serve_once(listener, &mut monitors);
            }
            thread::sleep(self.rt, Duration::from_millis(LOOK));
        }
    }
}
