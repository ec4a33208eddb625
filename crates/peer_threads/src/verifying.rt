//! Looks at connections that have shown no greeting yet, without waiting, and hands those on that may be replicas'.
use crate::telling::tell_unverified;
use client_link::{Door, PeerConnection};
use crossbeam_channel::{Receiver, RecvTimeoutError, Sender, TrySendError};
use peer_messages::{HEADING, Reporter, Senders};
use std::alloc::{AllocError, Global};
use std::collections::VecDeque;
use std::io::ErrorKind;
use std::sync::Wait;
use std::time::{Clock, Duration};

/// How many unverified peers wait at once, at most: for another one the one that has waited longest is disconnected.
const MOST: usize = 64;

/// How often unverified peers are looked at, in milliseconds.
const LOOK: u64 = 10;

/// What a look at an unverified peer shows.
#[derive(Clone, Copy, Debug, PartialEq, Eq)]
enum Look {
    /// Not enough of a frame has come.
    Nothing,
    /// The first octets may begin another replica's greeting.
    Heading,
    /// It has to go, and why.
    Fault(&'static str),
}

/// A connection that has shown no greeting yet.
struct UnverifiedPeer<'a, R> {
    peer: PeerConnection<'a, R>,
    /// Whether it is one of those who wait for a thread that reads.
    is_waiting: bool,
}

// Not derived: see "What the gate takes" in docs/ARCHITECTURE.md.
impl<'a, R> Drop for UnverifiedPeer<'a, R> {
    fn drop(self) {
        let UnverifiedPeer {
            peer: _,
            is_waiting: _,
        } = self;
    }
}

impl<'a, R> UnverifiedPeer<'a, R> {
    fn into_peer(self) -> PeerConnection<'a, R> {
        let UnverifiedPeer {
            peer,
            is_waiting: _,
        } = self;
        peer
    }
}

/// Who comes next.
enum Arrival<'a, R> {
    Came(PeerConnection<'a, R>),
    Nobody,
    /// Nobody comes any more.
    Over,
}

/// All unverified peers, the one that was looked at last at the back.
type UnverifiedPeers<'a, R> = VecDeque<UnverifiedPeer<'a, R>, Global>;

/// What looks at unverified peers.
#[derive(Drop)]
pub struct PeerVerifier<'a, R> {
    pub rt: &'a R,
    pub alloc: Global,
    pub senders: Senders,
    pub door: &'a Door,
    pub reporter: &'a Reporter,
}

/// What so many first octets show.
fn shown(senders: &Senders, heading: [u8; HEADING], count: usize) -> Look {
    if count == 0 {
        return Look::Fault("it closed");
    }
    if count < HEADING {
        return Look::Nothing;
    }
    match senders.greeting_of(heading) {
        Ok(_) => Look::Heading,
        Err(why) => Look::Fault(why),
    }
}

impl<'a, R: Wait + Clock> PeerVerifier<'a, R> {
    /// What has come of an unverified peer.
    fn look(&self, peer: &PeerConnection<'a, R>) -> Look {
        let mut heading = [0u8; HEADING];
        match peer.peek(&mut heading) {
            Ok(count) => shown(&self.senders, heading, count),
            Err(error) => {
                if error.kind() == ErrorKind::WouldBlock || error.kind() == ErrorKind::Interrupted {
                    Look::Nothing
                } else {
                    Look::Fault("it failed")
                }
            }
        }
    }

    /// Disconnects an unverified peer, and says why.
    fn send_away(&self, unverified: UnverifiedPeer<'a, R>, why: &str) {
        if unverified.is_waiting {
            self.door.sit(self.rt);
        }
        let address = unverified.peer.address();
        tell_unverified(self.rt, self.alloc, self.reporter, address, why);
    }

    /// Puts a peer behind those that wait.
    fn put(&self, waiting: &mut UnverifiedPeers<'a, R>, unverified: UnverifiedPeer<'a, R>) {
        let address = unverified.peer.address();
        if waiting.push_back(unverified).is_err() {
            tell_unverified(self.rt, self.alloc, self.reporter, address, "out of memory");
        }
    }

    /// Takes a new connection. It waits for no thread yet.
    fn let_in(&self, waiting: &mut UnverifiedPeers<'a, R>, peer: PeerConnection<'a, R>) {
        if waiting.len() >= MOST {
            if let Some(first) = waiting.pop_front() {
                self.send_away(first, "others came after it");
            }
        }
        self.put(
            waiting,
            UnverifiedPeer {
                peer,
                is_waiting: false,
            },
        );
    }

    /// Hands an unverified peer to a thread that reads, where one is free. Else it comes back, and is counted with
    /// those who wait for one, so that only where all are busy a place is given up.
    fn hand_over(
        &self,
        to: &Sender<PeerConnection<'a, R>>,
        unverified: UnverifiedPeer<'a, R>,
    ) -> Option<UnverifiedPeer<'a, R>> {
        let was_waiting = unverified.is_waiting;
        match to.try_send(self.rt, unverified.into_peer()) {
            Ok(()) | Err(TrySendError::Disconnected(_)) => {
                if was_waiting {
                    self.door.sit(self.rt);
                }
                None
            }
            Err(TrySendError::Full(peer) | TrySendError::OutOfMemory(peer)) => {
                if !was_waiting {
                    self.door.wait(self.rt);
                }
                Some(UnverifiedPeer {
                    peer,
                    is_waiting: true,
                })
            }
        }
    }

    /// Looks at an unverified peer, and gives it back where it stays.
    fn keep(
        &self,
        to: &Sender<PeerConnection<'a, R>>,
        unverified: UnverifiedPeer<'a, R>,
    ) -> Option<UnverifiedPeer<'a, R>> {
        match self.look(&unverified.peer) {
            Look::Heading => return self.hand_over(to, unverified),
            Look::Nothing => {
                if !unverified.peer.is_late().unwrap_or(true) {
                    return Some(unverified);
                }
                self.send_away(unverified, "it showed no greeting for too long");
            }
            Look::Fault(why) => self.send_away(unverified, why),
        }
        None
    }

    /// Looks at each unverified peer.
    fn look_at_all(
        &self,
        waiting: &mut UnverifiedPeers<'a, R>,
        to: &Sender<PeerConnection<'a, R>>,
    ) {
        'each: for _ in 0..waiting.len() {
            let Some(unverified) = waiting.pop_front() else {
                break;
            };
            if let Some(stays) = self.keep(to, unverified) {
                self.put(waiting, stays);
            }
        }
    }

    /// Waits for the next connection: while none waits as long as it takes, else until the next look.
    fn next(
        &self,
        from: &Receiver<(u64, PeerConnection<'a, R>)>,
        is_empty: bool,
    ) -> Arrival<'a, R> {
        if is_empty {
            return match from.recv(self.rt) {
                Ok((_, peer)) => Arrival::Came(peer),
                Err(_) => Arrival::Over,
            };
        }
        match from.recv_timeout(self.rt, Duration::from_millis(LOOK)) {
            Ok((_, peer)) => Arrival::Came(peer),
            Err(RecvTimeoutError::Timeout) => Arrival::Nobody,
            Err(RecvTimeoutError::Disconnected) => Arrival::Over,
        }
    }

    /// Takes connections from one channel, and hands those that may be other replicas' to the other, until nobody comes
    /// any more. A connection that shows no beginning of a greeting within 2 seconds is closed, and so is one that
    /// shows a wrong one.
    pub fn greet(
        &self,
        from: Receiver<(u64, PeerConnection<'a, R>)>,
        to: Sender<PeerConnection<'a, R>>,
    ) -> Result<(), AllocError> {
        let mut waiting = VecDeque::with_capacity(self.alloc, MOST)?;
        for _ in self.rt.forever() {
            match self.next(&from, waiting.is_empty()) {
                Arrival::Came(peer) => self.let_in(&mut waiting, peer),
                Arrival::Nobody => {}
                Arrival::Over => break,
            }
            self.look_at_all(&mut waiting, &to);
        }
        Ok(())
    }
}
