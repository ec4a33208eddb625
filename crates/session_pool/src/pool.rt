//! A pool: what its threads share.
use crate::overview::Overview;
use crate::watching::Watcher;
use client_link::{Config, Door};
use mio::{Events, Poll, Token, Waker};
use session_table::Table;
use session_turns::Budget;
use std::alloc::Global;
use std::io;
use std::net::Net;
use std::sync::atomic::AtomicBool;
use std::sync::{Condvar, Mutex};
use std::time::{Clock, Instant};

/// How many sockets are told as ready at once.
const EVENTS: usize = 256;

/// What stands for the waker, in place of a session's place.
const WAKE: usize = usize::MAX;

/// Whom a pool serves, and how.
#[derive(Clone, Copy)]
pub struct PoolSettings<'a> {
    /// What all sessions share.
    pub config: Config<'a>,
    /// How many sessions there may be.
    pub sessions: usize,
    /// How many threads read.
    pub seats: usize,
    /// For each thread that updates, whether the client of its update is gone.
    pub leaves: &'a [AtomicBool],
    /// The memory that all sessions may take together.
    pub budget: &'a Budget,
}

/// What waits for sockets.
#[derive(Drop)]
pub struct Watch {
    pub poll: Poll,
    pub events: Events,
}

/// What the threads of a pool share.
#[derive(Drop)]
pub struct SessionPool<'a, R, T> {
    pub rt: &'a R,
    pub alloc: Global,
    pub door: &'a Door,
    pub teller: &'a T,
    pub config: Config<'a>,
    pub watcher: Watcher,
    pub watch: Mutex<Watch>,
    pub table: Mutex<Table>,
    /// Seats wait here for sessions that are ready, and threads that update for updates.
    pub turn: Condvar,
    pub work: Condvar,
    pub leaves: &'a [AtomicBool],
    pub budget: &'a Budget,
    pub overview: Overview,
    pub start: Instant,
}

impl<'a, R: Net + Clock, T> SessionPool<'a, R, T> {
    /// A pool without sessions.
    pub fn new(
        rt: &'a R,
        alloc: Global,
        door: &'a Door,
        teller: &'a T,
        terms: PoolSettings<'a>,
    ) -> io::Result<SessionPool<'a, R, T>> {
        let poll = Poll::new(rt)?;
        let registry = poll.registry().try_clone()?;
        let waker = Waker::new(&registry, Token(WAKE))?;
        let events = Events::with_capacity(alloc, EVENTS)?;
        let table = Table::new(alloc, terms.sessions, terms.leaves.len())?;
        Ok(SessionPool {
            rt,
            alloc,
            door,
            teller,
            config: terms.config,
            watcher: Watcher::new(registry, waker),
            watch: Mutex::new(Watch { poll, events }),
            table: Mutex::new(table),
            turn: Condvar::new(),
            work: Condvar::new(),
            leaves: terms.leaves,
            budget: terms.budget,
            overview: Overview::new(terms.seats),
            start: Instant::now(rt)?,
        })
    }
}
