//! A message that one frame can't hold is cut in parts. Takes a message; gives its frames one at a time.
ghost use Rattle.std.specs.Prelude.{◌≡◌, ◌≤◌, ◌<◌, ◌+◌, ◌-◌, ◌*◌, ◌^◌, ◌∷◌, [], ◌++◌, length, take, drop, min, max, slice_index, IfOk};
ghost use Rattle.vr_wire.specs.Frames.{limit, number, short};
ghost use Rattle.vr_wire.specs.Payloads.{written};
ghost use Rattle.vr_wire.specs.private.Putting.{PutsAlways, WritesAlways};
ghost use Rattle.vr_wire.specs.Parts.{part_head, part_rest, part_octets, MakesFrames, TellMessage, HandsFrame, IsFrameWithin};
ghost use Rattle.vr_wire.specs.private.Parts.{CutsFrames, MakesParts};
ghost use Rattle.vr_wire.specs.Left.{parts_left};
ghost use Rattle.vr_wire.specs.private.Left.{AreLeft};

use crate::error::WireError;
use crate::fitting::message_fits;
use crate::portions::PART;
use crate::putting::{LIMIT, NO_LIMIT, put_count, put_number};
use crate::writing::{open_frame, put_head, put_length};
use ldap_op::Op;
use std::alloc::Global;
use std::marker::Model;
use view_store::Cluster;
use vr_state::message::PeerMessage;

/// How many octets of a part stand before those of the message.
const PART_HEAD: usize = 29;

/// The most octets of a message that a part holds.
const MAX_PIECE: usize = LIMIT - PART_HEAD;

/// Where a message begins in its plain frame: the kind stands at the sender's place, and the rest follows.
const SAYING: usize = 12;

/// How large the frames of a message may be.
#[derive(Clone, Copy)]
pub struct FrameSizes {
    /// The most octets of a message's one frame; a message of more is cut in parts.
    pub most: usize,
    /// The most octets of the message that a part holds.
    pub part_size: usize,
}

/// The frames of one message, of which each is handed out once, in their order: the one that the message has where it
/// fits, and else its parts. The message is spelled once, and a part is copied from there when it is handed out.
#[derive(Drop)]
pub struct Frames {
    /// The message's one frame, where it fits in one, until it's handed out.
    plain: Option<Vec<u8>>,
    /// The parts that are still to come: none where the message fits in one frame.
    parts: Parts,
}

/// The parts of a message that are still to come.
#[derive(Drop)]
struct Parts {
    cluster: Cluster,
    sender: u8,
    /// The sender's number for the message.
    number: u64,
    /// How many octets of the message a part has, but the last.
    size: usize,
    /// How many parts there are, and which of them is the next.
    count: u32,
    place: u32,
    /// The message, behind octets that are not sent.
    octets: Vec<u8>,
    /// Where the next part begins.
    start: usize,
}

impl Model for Frames {
    ghost use Rattle.std.specs.Prelude.{ℕ, List, ◌++◌};
    ghost use Rattle.vr_wire.specs.Left.{plain_left, parts_left};
    ghost use Rattle.vr_wire.specs.private.Left.{AreLeft, IsPlainLeft};

    ghost Value = { List (List ℕ) };

    ghost view = { λ f. plain_left f.plain ++ parts_left f.parts };

    ghost invariant = { λ f. IsPlainLeft f.plain × AreLeft f.parts };
}

/// A part's place, and how many parts there are.
fn put_place(out: &mut Vec<u8>, place: u32, count: u32) -> Result<(), WireError>
    ensures { PutsAlways result out.old.items out.new.items (short place ++ short count) }
{
    put_count(out, place as usize)?;
    put_count(out, count as usize)
}

/// What stands in a part between the sender's octet and the message's octets.
fn put_label(out: &mut Vec<u8>, message: u64, place: u32, count: u32) -> Result<(), WireError>
    ensures { PutsAlways result out.old.items out.new.items (number message ++ (short place ++ short count)) }
{
    put_number(out, message)?;
    put_place(out, place, count)
}

/// A part's frame whose length isn't known yet.
fn open_part(alloc: Global, parts: &Parts, piece: &[u8]) -> Result<Vec<u8>, WireError>
    requires { part_head + length piece.now ≤ limit }
    ensures { WritesAlways (λ v. v.items) result (0 ∷ 0 ∷ 0 ∷ 0 ∷ part_rest parts.now.cluster parts.now.sender
        parts.now.number parts.now.place parts.now.count piece.now) }
{
    let mut frame = Vec::with_capacity(alloc, PART_HEAD + piece.len())?;
    put_head(&mut frame, parts.cluster, PART, parts.sender)?;
    put_label(&mut frame, parts.number, parts.place, parts.count)?;
    frame.extend_from_slice(piece)?;
    Ok(frame)
}

/// A part's frame.
fn part_frame(alloc: Global, parts: &Parts, piece: &[u8]) -> Result<Vec<u8>, WireError>
    requires { part_head + length piece.now ≤ limit }
    ensures { WritesAlways (λ v. v.items) result (part_octets parts.now.cluster parts.now.sender parts.now.number
        parts.now.place parts.now.count piece.now) }
{
    let mut frame = open_part(alloc, parts, piece)?;
    put_length(&mut frame);
    Ok(frame)
}

/// Where the part ends that begins at `start`.
fn end_of(len: usize, start: usize, size: usize) -> usize
    requires { start ≤ len }
    ensures { result ≡ min (start + size) len }
{
    if len - start > size {
        start + size
    } else {
        len
    }
}

/// The next part's frame; its part isn't passed yet.
fn next_frame(alloc: Global, parts: &Parts, end: usize) -> Result<Vec<u8>, WireError>
    requires left { AreLeft parts.now }
    requires is_end { end ≡ min (parts.now.start + parts.now.size) (length parts.now.octets.items) }
    ensures { WritesAlways (λ v. v.items) result (part_octets parts.now.cluster parts.now.sender parts.now.number
        parts.now.place parts.now.count (take parts.now.size (drop parts.now.start parts.now.octets.items))) }
{
    let octets = parts.octets.as_slice();
    part_frame(alloc, parts, &octets[parts.start..end])
}

/// The next part, or none where all were handed out.
fn next_part(alloc: Global, parts: &mut Parts) -> Result<Option<Vec<u8>>, WireError>
    requires { AreLeft parts.old }
    ensures left { AreLeft parts.new }
    ensures next { HandsFrame result (parts_left parts.old) (parts_left parts.new) }
    ensures small { IsFrameWithin result }
{
    if parts.place == parts.count {
        return Ok(None);
    }
    let end = end_of(parts.octets.len(), parts.start, parts.size);
    let frame = next_frame(alloc, parts, end)?;
    parts.start = end;
    parts.place += 1;
    Ok(Some(frame))
}

/// How many pieces of this size so many octets have.
fn count_of(len: usize, size: usize) -> usize
    requires { 0 < size }
    ensures covers { len ≤ result * size }
    ensures least { 0 < len → (result - 1) * size < len }
    ensures few { result ≤ len }
{
    let whole = len / size;
    if len % size == 0 { whole } else { whole + 1 }
}

/// A message that has this one frame.
fn plain(alloc: Global, cluster: Cluster, frame: Vec<u8>) -> Frames
    requires { length frame.items ≤ limit }
    ensures { result ≡ frame.items ∷ [] }
{
    Frames {
        plain: Some(frame),
        parts: Parts {
            cluster,
            sender: 0,
            number: 0,
            size: 1,
            count: 0,
            place: 0,
            octets: Vec::new(alloc),
            start: 0,
        },
    }
}

/// The parts of the message that stands behind the first octets. E20 where there would be 2 ^ 32 parts or more.
fn in_parts(
    cluster: Cluster,
    sender: u8,
    number: u64,
    size: usize,
    octets: Vec<u8>,
) -> Result<Frames, WireError>
    requires size { 0 < size }
    requires small { part_head + size ≤ limit }
    requires there { 12 < length octets.items }
    ensures { MakesParts size cluster sender number (drop 12 octets.items) result }
{
    let count = match u32::try_from(count_of(octets.len() - SAYING, size)) {
        Ok(count) => count,
        Err(_) => return Err(WireError::BadFrame),
    };
    Ok(Frames {
        plain: None,
        parts: Parts {
            cluster,
            sender,
            number,
            size,
            count,
            place: 0,
            octets,
            start: SAYING,
        },
    })
}

/// The kind is put at the sender's place, so that it stands before the rest of what the message says.
fn put_kind(octets: &mut Vec<u8>)
    requires { 12 < length octets.old.items }
    ensures said { drop 12 octets.new.items ≡ slice_index octets.old.items 11 ∷ drop 13 octets.old.items }
    ensures len { length octets.new.items ≡ length octets.old.items }
{
    octets[SAYING] = octets[SAYING - 1];
}

/// The frames of a message that can be spelled.
fn frames_of(
    alloc: Global,
    cluster: Cluster,
    sender: u8,
    number: u64,
    sizes: FrameSizes,
    message: &PeerMessage<Op>,
) -> Result<Frames, WireError>
    ensures { CutsFrames (min sizes.most limit) (max sizes.part_size 1) cluster sender number (written message.now)
        result }
{
    let mut octets = open_frame::<NO_LIMIT>(alloc, cluster, sender, message)?;
    if octets.len() <= sizes.most.min(LIMIT) {
        put_length(&mut octets);
        return Ok(plain(alloc, cluster, octets));
    }
    put_kind(&mut octets);
    in_parts(
        cluster,
        sender,
        number,
        sizes.part_size.max(1).min(MAX_PIECE),
        octets,
    )
}

impl Frames {
    /// The frames of a message of this sender in this cluster: the one that `write` gives where it has at most
    /// `sizes.most` octets, and no more than 268,435,456, and else its parts, of at most `sizes.part_size` octets of
    /// the message each. The sender gives another `number` to each message. A `part_size` of 0 is taken as 1. E20 only
    /// where a number or an update of the message has no octets, or one frame of it would have 2 ^ 32 octets or more.
    pub fn of(
        alloc: Global,
        cluster: Cluster,
        sender: u8,
        number: u64,
        sizes: FrameSizes,
        message: &PeerMessage<Op>,
    ) -> Result<Frames, WireError>
        ensures made { MakesFrames (min sizes.most limit) (max sizes.part_size 1) cluster sender number message.now
            result }
        // They tell this message: `Gathering` makes it of them, and no other.
        ensures tell { IfOk result (λ frames. TellMessage cluster sender number message.now frames) }
    {
        // prover: a cluster's number is in range
        let _ = cluster.number();
        if !message_fits(message) {
            return Err(WireError::BadFrame);
        }
        frames_of(alloc, cluster, sender, number, sizes, message)
    }

    /// The next frame, or none where all were handed out. Want of memory is the only error, and then the frame is still
    /// to come.
    pub fn next(&mut self, alloc: Global) -> Result<Option<Vec<u8>>, WireError>
        ensures next { HandsFrame result self.old self.new }
        ensures small { IsFrameWithin result }
    {
        match self.plain.take() {
            Some(frame) => Ok(Some(frame)),
            None => next_part(alloc, &mut self.parts),
        }
    }
}
