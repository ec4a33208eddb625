//! Makes frames of messages, in the thread that sends them and outside every lock. A message to a replica that reads
//! notes leaves out what that replica has said that it has committed.
use crate::answers::{answer_in, are_long};
use crate::parts::PeerParts;
use crate::telling::{tell_lost, tell_refused_by, tell_silent};
use peer_link::{
    Bytes, Claim, Cluster, FrameSizes, Frames, Framing, Op, PeerMessage, REFUSAL, WireError,
    earlier_greeting, greeting, read_refusal,
};
use std::alloc::{AllocError, Global};
use std::sync::Wait;
use std::sync::atomic::Ordering;
use vr_short::{note, noted};

/// How many octets of a long message a part has: few enough that each part is a sign of life in time, also where a
/// stream takes no more than a mebibyte within the shortest time after which a replica is suspected.
const PART: usize = 1_048_576;

/// So many parts of a message may wait in the systems of both ends, for a replica that reads nothing: that they were
/// written is no sign of its life.
const UNREAD: u64 = 16;

/// An answer of so many octets is sent to one replica at a time, so that no more than one copy of the log is made,
/// however many replicas ask for it.
const LONG: usize = 16_777_216;

/// Makes the frames of messages to one replica: one of each message that fits in one, else its parts. A message that
/// can't be made frames of is told of.
pub struct MessageFrames<'a, R> {
    rt: &'a R,
    alloc: Global,
    parts: PeerParts<'a>,
    cluster: Cluster,
    claim: Claim,
    to: usize,
    /// How many messages were begun: each has another number in its parts.
    number: u64,
    frames: Option<Frames>,
    /// The number that goes with the message, until its note is handed out.
    noted: Option<u64>,
    /// How many frames of the message were handed out.
    handed: u64,
}

// Not derived: see "What the gate takes" in docs/ARCHITECTURE.md.
impl<'a, R> Drop for MessageFrames<'a, R> {
    fn drop(self) {
        let MessageFrames {
            rt: _,
            alloc: _,
            parts: _,
            cluster: _,
            claim: _,
            to: _,
            number: _,
            frames: _,
            noted: _,
            handed: _,
        } = self;
    }
}

impl<'a, R> MessageFrames<'a, R> {
    /// Frames of the server that has these parts, in this cluster, to the replica of this index; its start says this of
    /// itself.
    pub fn new(
        rt: &'a R,
        alloc: Global,
        parts: PeerParts<'a>,
        cluster: Cluster,
        claim: Claim,
        to: usize,
    ) -> MessageFrames<'a, R> {
        MessageFrames {
            rt,
            alloc,
            parts,
            cluster,
            claim,
            to,
            number: 0,
            frames: None,
            noted: None,
            handed: 0,
        }
    }
}

impl<'a, R: Wait> MessageFrames<'a, R> {
    /// Nothing more is sent of a message: what was made of it takes no memory any more.
    fn end(&mut self) {
        self.frames = None;
        self.noted = None;
        self.parts.progress.begin::<R, Op>(self.rt, self.to, None);
        self.parts.progress.end_answer(self.rt, self.to);
    }

    /// Nothing more comes of a message, for this reason.
    fn lose(&mut self, error: WireError) {
        self.end();
        tell_lost(self.rt, self.alloc, self.parts.reporter, self.to, error);
    }

    /// The greeting, as the other replica wants it.
    fn greeting_octets(&self) -> Result<Vec<u8>, AllocError> {
        let (alloc, cluster, sender) = (self.alloc, self.cluster, self.parts.sender);
        if self.parts.links.is_earlier(self.rt, self.to) {
            earlier_greeting(alloc, cluster, sender, &self.parts.terms)
        } else {
            greeting(alloc, cluster, sender, &self.parts.terms, &self.claim)
        }
    }

    /// The frames of the next message.
    fn frames_of(&self, message: &PeerMessage<Op>) -> Result<Frames, WireError> {
        let (alloc, cluster, sender) = (self.alloc, self.cluster, self.parts.sender);
        let sizes = FrameSizes {
            most: PART,
            part_size: PART,
        };
        Frames::of(alloc, cluster, sender, self.number, sizes, message)
    }

    /// Whether a message is to wait for another: it is a long answer, and one is being sent to another replica. Who
    /// asked asks again.
    fn waits(&self, message: &PeerMessage<Op>) -> bool {
        match answer_in(message) {
            Some(records) => {
                are_long(records, LONG) && !self.parts.progress.begin_answer(self.rt, self.to)
            }
            None => false,
        }
    }

    /// Makes ready the frames of the next message, and the note before them.
    fn make(&mut self, message: PeerMessage<Op>) -> Result<(), WireError> {
        let (number, message) = match self.parts.progress.said(self.to) {
            Some(said) => noted(self.alloc, message, said, self.parts.progress.committed())?,
            None => (None, message),
        };
        self.frames = Some(self.frames_of(&message)?);
        self.noted = number;
        Ok(())
    }

    /// The octets of the next frame, where there is one. Who asks for one more has written those before.
    fn next_octets(&mut self) -> Result<Option<Vec<u8>>, WireError> {
        if let Some(number) = self.noted.take() {
            let octets = Vec::from_array(
                self.alloc,
                note(self.cluster, self.parts.sender, number),
            )?;
            return Ok(Some(octets));
        }
        let Some(frames) = self.frames.as_mut() else {
            return Ok(None);
        };
        let next = frames.next(self.alloc)?;
        if next.is_some() {
            if self.handed >= UNREAD {
                self.parts.progress.take_part(self.to);
            }
            self.handed = self.handed.saturating_add(1);
        }
        Ok(next)
    }
}

/// The octets of a frame, to be shared.
fn bytes_of(octets: Vec<u8>) -> Result<Bytes, WireError> {
    match Bytes::from_vec(octets) {
        Ok(frame) => Ok(frame),
        Err(_) => Err(WireError::NoMemory),
    }
}

impl<'a, R: Wait> Framing<PeerMessage<Op>> for MessageFrames<'a, R> {
    fn greeting(&mut self) -> Option<Bytes> {
        let octets = self.greeting_octets().ok()?;
        Bytes::from_vec(octets).ok()
    }

    fn begin(&mut self, message: PeerMessage<Op>) {
        self.end();
        if self.waits(&message) {
            return;
        }
        self.number = self.number.wrapping_add(1);
        self.parts.counters.send(self.to as u64);
        self.parts.progress.begin(self.rt, self.to, Some(&message));
        self.handed = 0;
        if let Err(error) = self.make(message) {
            self.lose(error);
        }
    }

    fn next_frame(&mut self) -> Option<Bytes> {
        let octets = match self.next_octets() {
            Ok(Some(octets)) => octets,
            Ok(None) => {
                self.end();
                return None;
            }
            Err(error) => {
                self.lose(error);
                return None;
            }
        };
        self.parts
            .counters
            .send_octets(self.to as u64, octets.len());
        match bytes_of(octets) {
            Ok(frame) => Some(frame),
            Err(error) => {
                self.lose(error);
                None
            }
        }
    }

    fn fail(&mut self) {
        self.end();
    }

    fn heard(&mut self) {
        self.parts.counters.hear(self.to as u64);
    }

    fn refused(&mut self, why: [u8; REFUSAL]) {
        let Some(forgotten) = read_refusal(why) else {
            return;
        };
        if !self.parts.is_refused.swap(true, Ordering::SeqCst) {
            tell_refused_by(
                self.rt,
                self.alloc,
                self.parts.reporter,
                self.to,
                &self.claim,
                forgotten,
            );
        }
    }

    fn silent(&mut self) {
        tell_silent(self.rt, self.alloc, self.parts.reporter, self.to);
    }
}
