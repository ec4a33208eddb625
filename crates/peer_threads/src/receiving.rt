//! What other replicas send: a greeting, and then frames, which become messages that the node hears.
use crate::handler::MessageHandler;
use crate::telling::{
    tell_forgetful, tell_parts_lost, tell_peer_connected, tell_peer_connected_again,
    tell_peer_disconnected, tell_peer_refused, tell_unverified,
};
use client_link::{PeerConnection, PeerStream};
use crossbeam_channel::Receiver;
use peer_messages::{
    BEHIND_LENGTH, Came, Claim, Forgetful, FrameEnd, Gathering, HEADING, Met, NOTE_REST, PeerParts,
    Senders, Term, WireError, meet, note_number, read_head, read_more, read_rest, refusal_octets,
    refusal_of, rest,
};
use std::alloc::Global;
use std::io::Read;
use std::net::SocketAddr;
use std::sync::Wait;
use std::time::{Clock, Duration};

/// What all who read from other replicas share.
#[derive(Drop)]
pub struct PeerReaders<'a, R, H> {
    pub rt: &'a R,
    pub alloc: Global,
    pub senders: Senders,
    pub handler: &'a H,
    pub parts: PeerParts<'a>,
    /// How long a replica may be silent that asks whether it is heard.
    pub silence: Duration,
}

/// What has come on one connection of a replica, of a message that isn't whole yet.
#[derive(Drop)]
struct PartialMessage {
    peer: u64,
    gathering: Gathering,
    /// The number of the last note before it.
    noted: Option<u64>,
}

/// The question whether the other end is there: a frame of no octets.
const QUESTION: [u8; 4] = [0; 4];

/// Why a connection ended, as it is told.
fn reason_of(end: FrameEnd) -> &'static str {
    match end {
        FrameEnd::Closed => "it closed",
        FrameEnd::Cut => "it closed in the midst of a frame",
        FrameEnd::Failed => "it failed",
        FrameEnd::NoMemory => "out of memory",
    }
}

/// The first octets of a frame that has as many.
fn heading_of(frame: &[u8]) -> Result<[u8; HEADING], &'static str> {
    match frame {
        [a, b, c, d, e, f, g, h, i, j, k, l, m] => {
            Ok([*a, *b, *c, *d, *e, *f, *g, *h, *i, *j, *k, *l, *m])
        }
        _ => Err("E20: it sent what no replica sends"),
    }
}

impl<'a, R: Wait + Clock, H: MessageHandler> PeerReaders<'a, R, H> {
    /// Reads the first octets of a frame behind its length. No more than these get room, whatever length is announced.
    fn heading_behind<S: Read>(
        &self,
        reader: &mut S,
        head: [u8; 4],
    ) -> Result<Vec<u8>, &'static str> {
        if rest(head).map_err(refusal_of)? < BEHIND_LENGTH {
            return Err("E20: it sent what no replica sends");
        }
        read_rest(self.alloc, reader, head, BEHIND_LENGTH).map_err(reason_of)
    }

    /// Reads the first octets of a frame.
    fn next_heading<S: Read>(&self, reader: &mut S) -> Result<Vec<u8>, &'static str> {
        let head = read_head(reader).map_err(reason_of)?;
        self.heading_behind(reader, head)
    }

    /// Reads the length of the next frame of this replica that is no question; each question before it is answered.
    fn next_head<S: Read + PeerStream>(
        &self,
        reader: &mut S,
        peer: u64,
    ) -> Result<[u8; 4], &'static str> {
        for _ in self.rt.forever() {
            let head = read_head(reader).map_err(reason_of)?;
            if head != QUESTION {
                return Ok(head);
            }
            if reader.answer().is_err() {
                break;
            }
            self.parts.progress.read_notes(peer);
            reader.expect_within(self.silence);
        }
        Err("it failed")
    }

    /// Reads the number of a note, whose first octets were read.
    fn number<S: Read>(&self, reader: &mut S, frame: &mut Vec<u8>) -> Result<u64, &'static str> {
        read_more(reader, frame, NOTE_REST).map_err(reason_of)?;
        match frame.last_chunk::<8>() {
            Some(rest) => Ok(note_number(*rest)),
            None => Err("E20: it sent what no replica sends"),
        }
    }

    /// Reads one frame of this replica whole, and the number of the last note before it, if there is one; or why there
    /// is no frame.
    fn next_frame<S: Read + PeerStream>(
        &self,
        reader: &mut S,
        heard: &mut PartialMessage,
    ) -> Result<Vec<u8>, &'static str> {
        for _ in self.rt.forever() {
            let head = self.next_head(reader, heard.peer)?;
            let mut frame = self.heading_behind(reader, head)?;
            let heading = heading_of(&frame)?;
            match self.senders.note_of(heading) {
                Some(sender) if u64::from(sender) == heard.peer => {
                    heard.noted = Some(self.number(reader, &mut frame)?);
                }
                Some(_) => return Err("E20: it sent what no replica sends"),
                None => {
                    let left = self.senders.rest_of(heading).map_err(refusal_of)?;
                    read_more(reader, &mut frame, left).map_err(reason_of)?;
                    self.parts.counters.receive_octets(heard.peer, frame.len());
                    return Ok(frame);
                }
            }
        }
        Err("it failed")
    }

    /// Reads a greeting, and what it says beside the own terms.
    fn greeting<S: Read>(&self, reader: &mut S) -> Result<Met, &'static str> {
        let mut frame = self.next_heading(reader)?;
        let heading = self.senders.greeting_of(heading_of(&frame)?)?;
        let Ok(behind) = u32::try_from(heading.behind) else {
            return Err("E20: it sent what no replica sends");
        };
        read_more(reader, &mut frame, behind).map_err(reason_of)?;
        meet(&frame, self.senders.cluster, &self.parts.terms).map_err(refusal_of)
    }

    /// Hands on what has come of a frame, and gives its sender; else why the connection ends.
    fn hand_on(&self, heard: &mut PartialMessage, came: Came) -> Result<u64, &'static str> {
        match came {
            Came::Message(sender, message) => {
                self.parts.links.hear(self.rt, u64::from(sender), &message);
                let noted = heard.noted.take();
                if self.handler.hear(u64::from(sender), message, noted) {
                    Ok(u64::from(sender))
                } else {
                    Err("the node has stopped")
                }
            }
            Came::Part(sender) => {
                self.handler.hear_part(u64::from(sender));
                Ok(u64::from(sender))
            }
            Came::Dropped(sender) => {
                tell_parts_lost(self.rt, self.alloc, self.parts.reporter, u64::from(sender));
                Ok(u64::from(sender))
            }
        }
    }

    /// Takes a frame: here frames become messages, and nowhere else. Gives its sender; else why the connection ends.
    fn take_frame(&self, heard: &mut PartialMessage, frame: &[u8]) -> Result<u64, &'static str> {
        let came = heard
            .gathering
            .take(self.alloc, frame, self.senders.cluster)
            .map_err(refusal_of)?;
        self.hand_on(heard, came)
    }

    /// Reads one frame, and takes it; gives its sender.
    fn take_next<S: Read + PeerStream>(
        &self,
        heard: &mut PartialMessage,
        reader: &mut S,
    ) -> Result<u64, &'static str> {
        let frame = self.next_frame(reader, heard)?;
        self.take_frame(heard, &frame)
    }

    /// Tells the replica that greeted that it is heard, and reads its frames, to the end of the connection.
    fn read_all<S: Read + PeerStream>(&self, reader: &mut S, peer: u64) -> &'static str {
        if reader.answer().is_err() {
            return "it failed";
        }
        let mut heard = PartialMessage {
            peer,
            gathering: Gathering::new(),
            noted: None,
        };
        for _ in self.rt.forever() {
            match self.take_next(&mut heard, reader) {
                Ok(sender) if sender == peer => {}
                Ok(_) => return "E20: it sent what no replica sends",
                Err(reason) => return reason,
            }
        }
        "it ended"
    }

    /// Hears a replica that greeted with the same terms from this address, to the end of the connection.
    fn hear_peer<S: Read + PeerStream>(&self, reader: &mut S, peer: u64, address: SocketAddr) {
        if self.parts.links.come(self.rt, peer) {
            tell_peer_connected_again(self.rt, self.alloc, self.parts.reporter, peer, address);
        } else {
            tell_peer_connected(self.rt, self.alloc, self.parts.reporter, peer, address);
        }
        let reason = self.read_all(reader, peer);
        self.parts.links.go(self.rt, peer);
        tell_peer_disconnected(
            self.rt,
            self.alloc,
            self.parts.reporter,
            peer,
            address,
            reason,
        );
    }

    /// Refuses a replica that has this term otherwise.
    fn refuse(&self, peer: u64, term: Term) {
        if self.parts.links.refuse(self.rt, peer, term) {
            tell_peer_refused(self.rt, self.alloc, self.parts.reporter, peer, term);
        }
    }

    /// Tells a start that remembers less than its replica said that it isn't heard.
    fn turn_away<S: PeerStream>(
        &self,
        reader: &mut S,
        peer: u64,
        claim: &Claim,
        forgetful: Forgetful,
    ) {
        let forgotten = forgetful.forgotten;
        let _ = reader.refuse(&refusal_octets(forgotten));
        if forgetful.is_news {
            self.parts.counters.refuse(peer);
            tell_forgetful(
                self.rt,
                self.alloc,
                self.parts.reporter,
                peer,
                claim,
                forgotten,
            );
        }
    }

    /// Hears a start of a replica that greeted with the same terms from this address, to the end of the connection,
    /// unless it remembers less than its replica said. A replica of version 0.2.0 says nothing of its start.
    fn hear_start<S: Read + PeerStream>(
        &self,
        reader: &mut S,
        peer: u64,
        address: SocketAddr,
        claim: Option<Claim>,
    ) {
        self.parts
            .links
            .note_version(self.rt, peer, claim.is_none());
        if let Some(claim) = claim {
            if let Some(forgetful) = self.parts.links.greet(self.rt, peer, claim) {
                self.turn_away(reader, peer, &claim, forgetful);
                return;
            }
        }
        self.hear_peer(reader, peer, address);
    }

    /// Hears one connection, to its end, and tells of it.
    fn hear(&self, peer: PeerConnection<'a, R>) {
        let address = peer.address();
        let Ok(mut reader) = peer.seated(self.alloc) else {
            tell_unverified(
                self.rt,
                self.alloc,
                self.parts.reporter,
                address,
                "out of memory",
            );
            return;
        };
        match self.greeting(&mut reader) {
            Ok(Met::Alike { sender, claim }) => {
                reader.get_mut().trust();
                self.hear_start(&mut reader, u64::from(sender), address, claim);
            }
            Ok(Met::Other { sender, term }) => self.refuse(u64::from(sender), term),
            Err(reason) => tell_unverified(
                self.rt,
                self.alloc,
                self.parts.reporter,
                address,
                reason,
            ),
        }
    }

    /// Hears connections one after the other, until the channel is closed and empty.
    pub fn hear_each(&self, connections: &Receiver<PeerConnection<'a, R>>) {
        for _ in self.rt.forever() {
            let Ok(peer) = connections.recv(self.rt) else {
                break;
            };
            self.hear(peer);
        }
    }
}
