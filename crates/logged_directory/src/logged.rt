//! A directory whose answers are counted, and whose updates and slow searches are logged. Each request goes on to it,
//! and its answer comes back as it is.
ghost use Rattle.std.specs.Prelude.{◌≡◌};

use crate::logging::{tell_slow, tell_update, text_of_update};
use directory_api::{
    Client, CompareRequest, Directory, Ended, Found, LookError, Reply, Role, SearchAnswer,
    SearchRequest, Update,
};
use server_monitor::{Counters, Logs, Reporter};
use std::alloc::{AllocError, Global};
use std::marker::Model;
use std::sync::Wait;
use std::time::{Clock, Duration, Instant};

/// The codes of answers that no directory gave (RFC 4511 4.1.9): the state that was named isn't there yet, there is no
/// state any more, a client has made a later request, and any other error.
const BUSY: u64 = 51;

const UNAVAILABLE: u64 = 52;

const UNWILLING: u64 = 53;

const OTHER: u64 = 80;

/// The code of a read without an answer.
fn code_of(error: &LookError) -> u64 {
    match error {
        LookError::NotYet { .. } => BUSY,
        LookError::Gone => UNAVAILABLE,
        LookError::NoMemory => OTHER,
    }
}

/// The code of an update that ended so.
fn code_of_end(ended: &Ended) -> u64 {
    match ended {
        Ended::Done { number: _, reply } => u64::from(reply.code.number()),
        Ended::Stale => UNWILLING,
        Ended::Lost | Ended::NoMemory => OTHER,
    }
}

/// A directory whose answers are counted, and whose updates and slow searches are logged. Contracts see it as that
/// directory.
#[derive(Drop)]
pub struct Logged<'a, R, D> {
    rt: &'a R,
    reporter: &'a Reporter,
    logs: Logs,
    counters: &'a Counters,
    /// Whether it is asked for updates alone.
    updates: bool,
    directory: D,
}

impl<'a, R, D> Model for Logged<'a, R, D> {
    ghost Value = { D };

    ghost view = { λ l. l.directory };
}

impl<'a, R, D> Logged<'a, R, D> {
    /// A directory of which this is logged, to this reporter, and which is counted so; whether it is asked for updates
    /// alone.
    pub fn new(
        rt: &'a R,
        reporter: &'a Reporter,
        logs: Logs,
        counters: &'a Counters,
        updates: bool,
        directory: D,
    ) -> Logged<'a, R, D>
        ensures { result ≡ directory }
    {
        Logged {
            rt,
            reporter,
            logs,
            counters,
            updates,
            directory,
        }
    }
}

impl<'a, R: Wait + Clock, D> Logged<'a, R, D> {
    /// How long it is since a moment, where the clock can be read.
    fn since(&self, began: Option<Instant>) -> Option<Duration> {
        let now = Instant::now(self.rt).ok()?;
        Some(now.saturating_duration_since(began?))
    }

    /// Counts a search that was answered, and that began at this moment.
    fn count_search(&self, found: &Result<Found<SearchAnswer>, LookError>, began: Option<Instant>) {
        let (code, tests) = match found {
            Ok(found) => (
                u64::from(found.answer.code.number()),
                found.answer.tests as u64,
            ),
            Err(error) => (code_of(error), 0),
        };
        self.counters.end_search(code, tests, self.since(began));
    }

    /// Counts a compare that was answered, and that began at this moment.
    fn count_compare(&self, found: &Result<Found<Reply>, LookError>, began: Option<Instant>) {
        let code = match found {
            Ok(found) => u64::from(found.answer.code.number()),
            Err(error) => code_of(error),
        };
        self.counters.end_compare(code, self.since(began));
    }

    /// Logs a search that was answered, where it evaluated its filter on too many entries.
    fn log_search(
        &self,
        alloc: Global,
        request: &SearchRequest,
        found: &Result<Found<SearchAnswer>, LookError>,
    ) {
        if let Ok(found) = found {
            let tests = found.answer.tests as u64;
            if tests > self.logs.slow {
                self.counters.count_slow();
                tell_slow(self.rt, alloc, self.reporter, request, tests);
            }
        }
    }

    /// What an update asks for, as it is logged; none, where none is.
    fn text_of(&self, alloc: Global, update: &Update) -> Option<Result<String, AllocError>> {
        if self.logs.updates {
            Some(text_of_update(alloc, update))
        } else {
            None
        }
    }

    /// Logs how an update ended, where it is to be.
    fn log_update(
        &self,
        alloc: Global,
        client: Client,
        text: Option<Result<String, AllocError>>,
        ended: &Ended,
    ) {
        if let Some(text) = text {
            tell_update(self.rt, alloc, self.reporter, client, text, ended);
        }
    }
}

impl<'a, R: Wait + Clock, D: Directory> Directory for Logged<'a, R, D> {
    type Told = D::Told;

    ghost allows = { D.allows };

    fn search(
        &mut self,
        alloc: Global,
        named: u64,
        request: &SearchRequest,
    ) -> Result<Found<SearchAnswer>, LookError> {
        let began = Instant::now(self.rt).ok();
        self.counters.begin_read();
        let found = self.directory.search(alloc, named, request);
        self.count_search(&found, began);
        self.log_search(alloc, request, &found);
        found
    }

    fn compare(
        &mut self,
        alloc: Global,
        named: u64,
        request: &CompareRequest,
    ) -> Result<Found<Reply>, LookError> {
        let began = Instant::now(self.rt).ok();
        self.counters.begin_read();
        let found = self.directory.compare(alloc, named, request);
        self.count_compare(&found, began);
        found
    }

    fn learn(&mut self, told: D::Told) {
        self.directory.learn(told);
    }

    fn role(&mut self, alloc: Global) -> (Role, D::Told) {
        let (role, told) = self.directory.role(alloc);
        if self.updates && matches!(role, Role::Backup { .. }) {
            self.counters.refer();
        }
        (role, told)
    }

    fn update(&mut self, alloc: Global, client: Client, number: u64, update: Update) -> Ended {
        let text = self.text_of(alloc, &update);
        let began = Instant::now(self.rt).ok();
        self.counters.begin_update();
        let ended = self.directory.update(alloc, client, number, update);
        self.counters
            .end_update(code_of_end(&ended), self.since(began));
        self.log_update(alloc, client, text, &ended);
        ended
    }
}
