//! Parts are put together. Takes the frames of one connection, one after the other; gives the message of each that
//! completes one.
ghost use Rattle.std.specs.Prelude.{◌≡◌, ◌<◌, ◌^◌, ◌+◌, None};
ghost use Rattle.std.specs.Option.{option_map};
ghost use Rattle.vr_wire.specs.Gathering.{is_next, begun, with_part, gathered, ComesOfPart, ComesOfFrame, Takes};
ghost use Rattle.vr_wire.specs.Heap.{heap_of};
ghost use Rattle.vr_wire.specs.private.Heap.{Gathers, BeginsAs, AddsTo, PartTaken};
ghost use Rattle.vr_wire.specs.private.Cutting.{Gives};
ghost use Rattle.vr_wire.specs.Parts.{IsSaying};
ghost use Rattle.vr_wire.specs.private.Parts.{Finds, cut_saying, cut_part};
ghost use Rattle.vr_wire.specs.private.Payloads.{Reads};

use crate::bodies::cut_body;
use crate::cutting::cut_octet;
use crate::error::WireError;
use crate::labels::{Label, Portion};
use crate::octets::Octets;
use crate::payloads::with_ops;
use crate::portions::cut_part;
use crate::reading::read;
use ldap_op::Op;
use std::alloc::Global;
use std::marker::Model;
use view_store::Cluster;
use vr_state::message::PeerMessage;

/// What came of a frame, with its sender.
#[derive(Drop)]
pub enum Came {
    /// A whole message.
    Message(u8, PeerMessage<Op>),
    /// A part of a message, of which others are still to come.
    Part(u8),
    /// A part that isn't the next one of the message that was gathered: it's dropped, with all that was gathered.
    Dropped(u8),
}

/// The parts of a message that came so far on one connection, if any. Memory follows what came, not what a part
/// announces.
#[derive(Drop)]
pub struct Gathering {
    begun: Option<Begun>,
}

/// The parts of one message that came, from the first on.
#[derive(Drop)]
struct Begun {
    label: Label,
    /// Which part is the next.
    next: u32,
    /// What the others hold.
    octets: Vec<u8>,
}

impl Model for Gathering {
    ghost use Rattle.std.specs.Prelude.{Option};
    ghost use Rattle.std.specs.Option.{option_map};
    ghost use Rattle.vr_wire.specs.Heap.{Heap, heap_of};

    ghost Value = { Option Heap };

    ghost view = { λ g. option_map heap_of g.begun };
}

/// A message begins with its part 0.
fn begin(alloc: Global, part: &Portion<Octets<'_>>) -> Result<Begun, WireError>
    ensures { BeginsAs result (begun part.now) }
{
    let octets = Vec::from_slice(alloc, part.piece.as_slice())?;
    Ok(Begun {
        label: part.label,
        next: 1,
        octets,
    })
}

impl Begun {
    /// Whether the part is the next of this message.
    fn is_next(&self, part: &Portion<Octets<'_>>) -> bool
        ensures { result ≡ is_next (heap_of self.now) part.now }
    {
        self.label.sender == part.label.sender
            && self.label.number == part.label.number
            && self.label.count == part.label.count
            && self.next == part.place
    }

    /// One part more.
    fn add(&mut self, part: &Portion<Octets<'_>>) -> Result<(), WireError>
        requires { self.old.next + 1 < 2 ^ 32 }
        ensures { AddsTo result (heap_of self.new) (with_part (heap_of self.old) part.now) }
    {
        self.octets.extend_from_slice(part.piece.as_slice())?;
        self.next += 1;
        Ok(())
    }
}

/// What is gathered with one part more.
fn gathered(
    alloc: Global,
    old: Option<Begun>,
    part: &Portion<Octets<'_>>,
) -> Result<Option<Begun>, WireError>
    requires { part.now.place + 1 < 2 ^ 32 }
    ensures { Gathers result (gathered (option_map heap_of old) part.now) }
{
    if part.place == 0 {
        let begun = begin(alloc, part)?;
        return Ok(Some(begun));
    }
    match old {
        None => Ok(None),
        Some(mut begun) => {
            if !begun.is_next(part) {
                return Ok(None);
            }
            begun.add(part)?;
            Ok(Some(begun))
        }
    }
}

/// The message that these octets say, its payloads not read yet.
#[tactic(auto, unfolding(crate::specs::private::Parts::cut_saying))]
fn cut_saying(alloc: Global, octets: &[u8]) -> Result<PeerMessage<Octets<'_>>, WireError>
    ensures { Gives (λ m. m) result (cut_saying octets.now) }
{
    let (kind, body) = cut_octet(octets)?;
    cut_body(alloc, kind, body)
}

/// The message that these octets say.
fn read_saying(alloc: Global, octets: &[u8]) -> Result<PeerMessage<Op>, WireError>
    ensures { Reads IsSaying result octets.now }
{
    let raw = cut_saying(alloc, octets)?;
    let message = with_ops(alloc, &raw)?;
    Ok(message)
}

/// The part that a frame is, if any, and its cluster's number.
fn part_of(frame: &[u8]) -> Result<Option<(u64, Portion<Octets<'_>>)>, WireError>
    ensures { Finds result (cut_part frame.now) }
{
    match cut_part(frame) {
        Ok(part) => Ok(Some(part)),
        Err(WireError::BadFrame) => Ok(None),
        Err(_) => Err(WireError::NoMemory),
    }
}

/// What comes of octets that are no part.
fn take_frame(alloc: Global, frame: &[u8], cluster: Cluster) -> Result<Came, WireError>
    ensures { ComesOfFrame cluster frame.now result }
{
    let (sender, message) = read(alloc, frame, cluster)?;
    Ok(Came::Message(sender, message))
}

impl Gathering {
    /// Nothing is gathered yet.
    pub fn new() -> Gathering
        ensures { result ≡ None }
    {
        Gathering { begun: None }
    }

    /// What comes of octets that are no part: they drop what was gathered.
    fn take_message(
        &mut self,
        alloc: Global,
        frame: &[u8],
        cluster: Cluster,
    ) -> Result<Came, WireError>
        ensures comes { ComesOfFrame cluster frame.now result }
        ensures dropped { self.new ≡ None }
    {
        let _ = self.begun.take();
        take_frame(alloc, frame, cluster)
    }

    /// What comes of a part.
    fn take_part(&mut self, alloc: Global, part: &Portion<Octets<'_>>) -> Result<Came, WireError>
        requires { part.now.place + 1 < 2 ^ 32 }
        ensures { PartTaken (ComesOfPart (gathered self.old part.now) part.now.label.sender result self.new) result
            self.new }
    {
        let sender = part.label.sender;
        match gathered(alloc, self.begun.take(), part)? {
            None => Ok(Came::Dropped(sender)),
            Some(begun) => {
                if begun.next < begun.label.count {
                    self.begun = Some(begun);
                    return Ok(Came::Part(sender));
                }
                let message = read_saying(alloc, &begun.octets)?;
                Ok(Came::Message(sender, message))
            }
        }
    }

    /// What comes of the next frame of the connection. A message's frame gives the message, and drops what was
    /// gathered. Part 0 of a message begins anew; the next part of that message is added, and the last one gives the
    /// message; any other part drops what was gathered. After an error nothing is gathered: E20 where the octets are no
    /// frame, or say no message together, E24 where they are a frame of another cluster.
    pub fn take(&mut self, alloc: Global, frame: &[u8], cluster: Cluster) -> Result<Came, WireError>
        ensures { Takes cluster self.old frame.now result self.new }
    {
        match part_of(frame) {
            Ok(None) => self.take_message(alloc, frame, cluster),
            Ok(Some((other, part))) => {
                if other == cluster.number() {
                    self.take_part(alloc, &part)
                } else {
                    self.begun = None;
                    Err(WireError::ForeignFrame)
                }
            }
            Err(error) => {
                self.begun = None;
                Err(error)
            }
        }
    }
}
