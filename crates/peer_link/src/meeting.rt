//! What another replica's greeting says, beside one's own terms.
ghost use Rattle.std.specs.Prelude.{◌≡◌, length};
ghost use Rattle.peer_link.specs.Meeting.{HasClaim, HasFirst, HasMet, Heads, MeetsSender};

use crate::claim::{CLAIM, Claim, read_claim};
use crate::terms::{Term, Terms};
use crate::writing::{DIGESTS, begins_greeting, earlier_heading, heading};
use vr_wire::{Cluster, WireError};

/// How many octets of a greeting tell what it is and whose, its length included.
pub const HEADING: usize = 13;

/// How many octets stand behind them, and how many in a greeting of version 0.2.0, which says nothing of its start.
const BEHIND: usize = 137;

/// What the first octets of a greeting say.
#[derive(Clone, Copy, Debug, PartialEq, Eq)]
pub struct Heading {
    pub sender: u8,
    /// How many octets of it are to come.
    pub behind: usize,
}

/// What a greeting says.
#[derive(Clone, Copy, Debug, PartialEq, Eq)]
pub enum Met {
    /// Its sender has all terms alike, and says this of its start; one of version 0.2.0 says nothing.
    Alike { sender: u8, claim: Option<Claim> },
    /// Its sender has this term otherwise, and those that are named before it alike.
    Other { sender: u8, term: Term },
}

/// What the first octets of a greeting of this cluster say. E20 only where no greeting begins so, E24 only where none
/// of this cluster does.
pub fn greeting_heading(first: [u8; 13], cluster: Cluster) -> Result<Heading, WireError>
    ensures { Heads cluster first result }
{
    let sender = first[12];
    if first == heading(cluster, sender) {
        return Ok(Heading {
            sender,
            behind: BEHIND,
        });
    }
    if first == earlier_heading(cluster, sender) {
        return Ok(Heading {
            sender,
            behind: DIGESTS,
        });
    }
    if begins_greeting(first) {
        return Err(WireError::ForeignFrame);
    }
    Err(WireError::BadFrame)
}

/// The first term that these digests have otherwise.
fn first_other(digests: &[u8], own: &Terms) -> Option<Term>
    requires { length digests.now ≡ 96 }
    ensures { HasFirst digests.now own.now result }
{
    let (schema, rest) = digests.split_at(32);
    if schema != own.schema.as_slice() {
        return Some(Term::Schema);
    }
    let (suffix, clients) = rest.split_at(32);
    if suffix != own.suffix.as_slice() {
        return Some(Term::Suffix);
    }
    if clients != own.clients.as_slice() {
        return Some(Term::Clients);
    }
    None
}

/// The claim that stands behind the digests; E20 where none does.
fn claim_behind(octets: &[u8]) -> Result<Option<Claim>, WireError>
    ensures { HasClaim octets.now result }
{
    if octets.is_empty() {
        return Ok(None);
    }
    if octets.len() != CLAIM {
        return Err(WireError::BadFrame);
    }
    match read_claim(octets) {
        Some(claim) => Ok(Some(claim)),
        None => Err(WireError::BadFrame),
    }
}

/// What stands behind the heading of a greeting of this sender says beside one's own terms.
fn meet_sender(sender: u8, behind: &[u8], own: &Terms) -> Result<Met, WireError>
    ensures { MeetsSender sender behind.now own.now result }
{
    if behind.len() < DIGESTS {
        return Err(WireError::BadFrame);
    }
    let (digests, claim) = behind.split_at(DIGESTS);
    if let Some(term) = first_other(digests, own) {
        return Ok(Met::Other { sender, term });
    }
    match claim_behind(claim) {
        Ok(claim) => Ok(Met::Alike { sender, claim }),
        Err(error) => Err(error),
    }
}

/// What the first frame of a connection says beside one's own terms. E20 where it is no greeting, E24 where it is one
/// of another cluster.
pub fn meet(frame: &[u8], cluster: Cluster, own: &Terms) -> Result<Met, WireError>
    ensures { HasMet cluster frame.now own.now result }
{
    let Some((first, behind)) = frame.split_first_chunk::<13>() else {
        return Err(WireError::BadFrame);
    };
    let heading = match greeting_heading(*first, cluster) {
        Ok(heading) => heading,
        Err(error) => return Err(error),
    };
    if behind.len() != heading.behind {
        return Err(WireError::BadFrame);
    }
    meet_sender(heading.sender, behind, own)
}
