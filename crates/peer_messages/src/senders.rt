//! Whom frames, notes and greetings are heard from: what their first octets say, before more of them is read.
ghost use Rattle.std.specs.Prelude.{◌≡◌, true, false, IfOk, IfErr};
ghost use Rattle.peer_link.specs.Meeting.{IsHeading};
ghost use Rattle.peer_link.specs.declared.meeting.Heading.{Heading};
ghost use Rattle.peer_messages.specs.Heard.{is_other, HeardFrame, HeardNote};

use peer_link::{Cluster, HEADING, Heading, WireError, greeting_heading, heading, rest};
use vr_short::note_sender;

/// How many octets of a frame's first 13 stand behind its length.
pub const BEHIND_LENGTH: u32 = 9;

/// Whom frames are heard from: the other replicas of a cluster.
#[derive(Clone, Copy)]
pub struct Senders {
    pub cluster: Cluster,
    /// How many replicas there are, and which of them this is.
    pub count: u64,
    pub own: u8,
}

impl Senders {
    /// Whether another replica of the cluster has this index.
    fn have(&self, sender: u8) -> bool
        ensures { result ≡ is_other self.now sender }
    {
        sender != self.own && u64::from(sender) < self.count
    }

    /// How many octets of a frame are to come behind these first ones; or why it can't be one of another replica of
    /// this cluster: E24 where it is another cluster's, else E20.
    pub fn rest_of(&self, first: [u8; HEADING]) -> Result<u32, WireError>
        ensures { HeardFrame self.now first result }
    {
        let (Some(length), Some(behind)) = (first.first_chunk::<4>(), first.last_chunk::<9>())
        else {
            unreachable!()
        };
        let count = rest(*length)?;
        let sender = match heading(*behind, self.cluster) {
            Ok((_kind, sender)) => sender,
            Err(error) => return Err(error),
        };
        if count < BEHIND_LENGTH {
            return Err(WireError::BadFrame);
        }
        if !self.have(sender) {
            return Err(WireError::BadFrame);
        }
        Ok(count - BEHIND_LENGTH)
    }

    /// Whose note begins so, where it is another replica's of this cluster.
    #[tactic(auto, using(crate::proofs::Heard::note_of_one))]
    pub fn note_of(&self, first: [u8; HEADING]) -> Option<u8>
        ensures { HeardNote self.now first result }
    {
        match note_sender(first, self.cluster) {
            Some(sender) => {
                if self.have(sender) {
                    Some(sender)
                } else {
                    None
                }
            }
            None => None,
        }
    }

    /// Whose greeting begins so, which is the first frame on each connection, and how many of its octets are to come;
    /// or why it is none of another replica of this cluster, as it is told.
    #[tactic(auto, using(crate::proofs::Heard::greeting_of_one))]
    pub fn greeting_of(&self, first: [u8; HEADING]) -> Result<Heading, &'static str>
        ensures heard { IfOk result (λ h. IsHeading self.now.cluster first h) }
        ensures other { IfOk result (λ h. is_other self.now h.sender ≡ true) }
        ensures refused { IfErr result (λ _. (h : Heading) → IsHeading self.now.cluster first h →
            is_other self.now h.sender ≡ false) }
    {
        let greeting = match greeting_heading(first, self.cluster) {
            Ok(greeting) => greeting,
            Err(error) => return Err(refusal_of(error)),
        };
        if greeting.sender == self.own {
            return Err("it has this replica's --id");
        }
        if !self.have(greeting.sender) {
            return Err("E20: it names an index that no PEER has");
        }
        Ok(greeting)
    }
}

/// Why a connection ended, as it is told.
pub fn refusal_of(error: WireError) -> &'static str {
    match error {
        WireError::BadFrame => "E20: it sent what no replica sends, or one of another version",
        WireError::ForeignFrame => "E24: it is a replica of another cluster (--cluster)",
        WireError::NoMemory => "out of memory",
    }
}
