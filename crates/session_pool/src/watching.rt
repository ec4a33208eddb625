//! Has the poll watch the sockets of sessions.
use mio::unix::SourceFd;
use mio::{Interest, Registry, Token, Waker};
use session_turns::Queue;
use std::os::fd::RawFd;

/// What has sockets watched, and ends the leader's wait.
#[derive(Drop)]
pub struct Watcher {
    registry: Registry,
    /// Ends the leader's wait, where nobody else is free.
    waker: Waker,
}

/// What the poll looks for at the socket of a session that waits in a queue; nothing, where no socket ends its wait.
fn interest_in(queue: Queue) -> Option<Interest> {
    match queue {
        Queue::Unsent => Some(Interest::WRITABLE),
        Queue::Silent | Queue::Inside | Queue::Leaving => Some(Interest::READABLE),
        Queue::Delayed => None,
    }
}

impl Watcher {
    pub fn new(registry: Registry, waker: Waker) -> Watcher {
        Watcher { registry, waker }
    }

    /// Has the socket of a session watched that waits in a queue; whether that can be done.
    pub fn watch(&self, fd: RawFd, token: usize, queue: Queue) -> bool {
        match interest_in(queue) {
            Some(interest) => {
                let watched = self
                    .registry
                    .register(&mut SourceFd(&fd), Token(token), interest);
                watched.is_ok()
            }
            None => true,
        }
    }

    /// Has the socket of a session whose update waits watched for its client's end. It is registered anew, so that what
    /// was told before is told again.
    pub fn watch_end(&self, fd: RawFd, token: usize) {
        let _ = self
            .registry
            .register(&mut SourceFd(&fd), Token(token), Interest::READABLE);
    }

    /// The poll tells once of what has come: it is asked again.
    pub fn ask_again(&self, fd: RawFd, token: usize) {
        let _ = self
            .registry
            .reregister(&mut SourceFd(&fd), Token(token), Interest::READABLE);
    }

    /// A socket is watched no more.
    pub fn forget(&self, fd: RawFd) {
        let _ = self.registry.deregister(&mut SourceFd(&fd));
    }

    /// Ends the leader's wait.
    pub fn wake(&self) {
        let _ = self.waker.wake();
    }
}
