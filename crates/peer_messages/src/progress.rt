//! Keeps how far other replicas are, as they have said, and what of long messages they have taken.
use crate::answers::AnswerSlot;
use crate::errands::{Errand, are_for_one, change_of, errand_of};
use crate::saying::{asked, committed_by, said, said_in};
use peer_link::PeerMessage;
use replica_clock::Repeats;
use std::alloc::{AllocError, Global};
use std::sync::atomic::{AtomicU64, Ordering};
use std::sync::{Mutex, Wait};

/// What is known of one replica.
#[derive(Drop)]
struct Progress {
    /// How much it has said that it has committed, as `saying` counts it.
    said: AtomicU64,
    /// How many parts of long messages it has taken.
    taken: AtomicU64,
    /// What the message is for that is being sent to it.
    errand: Mutex<Option<Errand>>,
    /// Which of its DOVIEWCHANGEs are handed on.
    repeats: Mutex<Repeats>,
}

impl Progress {
    fn new() -> Progress {
        Progress {
            said: AtomicU64::new(0),
            taken: AtomicU64::new(0),
            errand: Mutex::new(None),
            repeats: Mutex::new(Repeats::new()),
        }
    }
}

/// What is known of each replica, by index, and how much this one has committed.
#[derive(Drop)]
pub struct PeerProgress {
    replicas: Vec<Progress>,
    committed: AtomicU64,
    answered: Mutex<AnswerSlot>,
}

impl PeerProgress {
    /// Nothing is known of so many replicas.
    pub fn new(alloc: Global, count: usize) -> Result<PeerProgress, AllocError> {
        let mut replicas = Vec::with_capacity(alloc, count)?;
        for _ in 0..count {
            replicas.push(Progress::new())?;
        }
        Ok(PeerProgress {
            replicas,
            committed: AtomicU64::new(0),
            answered: Mutex::new(AnswerSlot::new()),
        })
    }

    /// The replica asks whether it is heard: so it reads notes. It never counts again as one that doesn't, so that each
    /// of its messages that may have a note has one.
    pub fn read_notes(&self, from: u64) {
        if let Some(progress) = self.replicas.get(from as usize) {
            if let Some(number) = asked(progress.said.load(Ordering::SeqCst)) {
                progress.said.store(number, Ordering::SeqCst);
            }
        }
    }

    /// The replica has said that it has committed so much.
    fn say(&self, from: u64, committed: u64) {
        if let Some(progress) = self.replicas.get(from as usize) {
            if let Some(number) = said(progress.said.load(Ordering::SeqCst), committed) {
                progress.said.store(number, Ordering::SeqCst);
            }
        }
    }

    /// Takes note of what a message says of its sender, with the note that came before it, if one did.
    pub fn hear<P>(&self, from: u64, message: &PeerMessage<P>, noted: Option<u64>) {
        if let Some(committed) = committed_by(message, noted) {
            self.say(from, committed);
        }
    }

    /// How much the replica has said that it has committed; none where it isn't known to read notes.
    pub fn said(&self, to: usize) -> Option<u64> {
        said_in(self.replicas.get(to)?.said.load(Ordering::SeqCst))
    }

    /// Whether a message that came is held back: a DOVIEWCHANGE that repeats one that was handed on.
    pub fn is_held_back<R: Wait, P>(&self, rt: &R, from: u64, message: &PeerMessage<P>) -> bool {
        match (self.replicas.get(from as usize), change_of(message)) {
            (Some(progress), Some(view_number)) => !progress.repeats.lock(rt).ask(view_number),
            _ => false,
        }
    }

    /// A message of the replica is handed on.
    pub fn hand_on<R: Wait, P>(&self, rt: &R, from: u64, message: &PeerMessage<P>) {
        if let (Some(progress), Some(view_number)) = (
            self.replicas.get(from as usize),
            change_of(message),
        ) {
            progress.repeats.lock(rt).hand_on(view_number);
        }
    }

    /// This replica has committed so much.
    pub fn commit(&self, committed: u64) {
        self.committed.store(committed, Ordering::SeqCst);
    }

    /// How much this replica has committed, or less.
    pub fn committed(&self) -> u64 {
        self.committed.load(Ordering::SeqCst)
    }

    /// The replica has taken a part of a long message.
    pub fn take_part(&self, to: usize) {
        if let Some(progress) = self.replicas.get(to) {
            progress.taken.fetch_add(1, Ordering::SeqCst);
        }
    }

    /// How many parts of long messages it has taken.
    pub fn taken(&self, to: usize) -> u64 {
        match self.replicas.get(to) {
            Some(progress) => progress.taken.load(Ordering::SeqCst),
            None => 0,
        }
    }

    /// This message is being sent to the replica, or none is any more.
    pub fn begin<R: Wait, P>(&self, rt: &R, to: usize, message: Option<&PeerMessage<P>>) {
        if let Some(progress) = self.replicas.get(to) {
            let errand = match message {
                Some(message) => errand_of(message),
                None => None,
            };
            *progress.errand.lock(rt) = errand;
        }
    }

    /// Whether a message is being sent to the replica for the same as this one.
    pub fn is_sending<R: Wait, P>(&self, rt: &R, to: u64, message: &PeerMessage<P>) -> bool {
        match (self.replicas.get(to as usize), errand_of(message)) {
            (Some(progress), Some(errand)) => {
                let sending = *progress.errand.lock(rt);
                are_for_one(sending, Some(errand))
            }
            _ => false,
        }
    }

    /// Whether a long answer may be sent to the replica: none is being sent to another. If so, one is.
    pub fn begin_answer<R: Wait>(&self, rt: &R, to: usize) -> bool {
        self.answered.lock(rt).begin(to)
    }

    /// No long answer is being sent to the replica any more.
    pub fn end_answer<R: Wait>(&self, rt: &R, to: usize) {
        self.answered.lock(rt).end(to);
    }
}
