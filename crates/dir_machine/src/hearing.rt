//! Gathers the messages of frames that a connection hears.
ghost use Rattle.std.specs.Prelude.{◌≡◌, IfOk, slice_get};
ghost use Rattle.dir_machine.specs.Shown.{frame_in, octets_in, octets_of};
ghost use Rattle.dir_machine.specs.private.Hearing.{AreAtOr, FramesCome, Hears, HearsOne, IsGathered, IsHeardFirst, PlacesCome};

use crate::events::FramePlace;
use crate::replies::MachineReply;
use dir_node::{Cluster, Event, Op};
use std::alloc::{AllocError, Global};
use vr_wire::{Came, Gathering, WireError};

/// The message that comes of one frame, as an event; none where others are still to come, or it was dropped or refused.
/// Its only error is want of memory.
fn hear(
    alloc: Global,
    cluster: Cluster,
    gathering: &mut Gathering,
    frame: &[u8],
) -> Result<Option<Event<Op>>, AllocError>
    ensures { IfOk result (λ o. HearsOne cluster gathering.old frame.now o gathering.new) }
{
    match gathering.take(alloc, frame, cluster) {
        Ok(Came::Message(sender, message)) => Ok(Some(Event::Message {
            from: sender as u64,
            message,
        })),
        Ok(Came::Part(_)) | Ok(Came::Dropped(_)) => Ok(None),
        Err(WireError::NoMemory) => Err(AllocError),
        Err(_) => Ok(None),
    }
}

/// The message that comes of the last of these frames, which come one after the other. Its only error is want of
/// memory.
fn hear_all(
    alloc: Global,
    cluster: Cluster,
    gathering: &mut Gathering,
    frames: &[Vec<u8>],
) -> Result<Option<Event<Op>>, AllocError>
    ensures { IfOk result (λ o. Hears cluster gathering.old (octets_of frames.now) o gathering.new) }
{
    let mut last = None;
    for frame in frames {
        last = hear(alloc, cluster, gathering, frame.as_slice())?;
    }
    Ok(last)
}

/// The message that comes of the last of these frames, on a connection that has heard these octets before. Its only
/// error is want of memory.
fn gather(
    alloc: Global,
    cluster: Cluster,
    heard: &[Vec<u8>],
    frames: &[Vec<u8>],
) -> Result<Option<Event<Op>>, AllocError>
    ensures { IfOk result (λ o. IsGathered cluster (octets_of frames.now) o) }
{
    // prover: a cluster's number is in range
    let _ = cluster.number();
    let mut gathering = Gathering::new();
    hear_all(alloc, cluster, &mut gathering, heard)?;
    hear_all(alloc, cluster, &mut gathering, frames)
}

/// The event that comes of the frames which an event of the schedule wrote for a replica, on a connection that has
/// heard these octets before; none where it wrote none for it. Its only error is want of memory.
pub fn come_of_frames(
    alloc: Global,
    cluster: Cluster,
    shown: &[MachineReply],
    replica: u64,
    event: u64,
    heard: &[Vec<u8>],
) -> Result<Option<Event<Op>>, AllocError>
    ensures { IfOk result (λ o. FramesCome cluster shown.now replica event o) }
{
    match shown.get(event as usize) {
        Some(
            MachineReply::Written {
                place: _,
                to,
                frames,
            },
        ) => {
            if *to != replica {
                return Ok(None);
            }
            gather(alloc, cluster, heard, frames.as_slice())
        }
        _ => Ok(None),
    }
}

/// The octets of the frame at a place, in memory of their own; none where no event wrote it for this replica. Its only
/// error is want of memory.
fn copy_frame(
    alloc: Global,
    shown: &[MachineReply],
    replica: u64,
    place: FramePlace,
) -> Result<Option<Vec<u8>>, AllocError>
    ensures { IfOk result (λ o. octets_in o ≡ frame_in replica (slice_get shown.now place.event) place.frame) }
{
    match shown.get(place.event as usize) {
        Some(
            MachineReply::Written {
                place: _,
                to,
                frames,
            },
        ) => {
            if *to != replica {
                return Ok(None);
            }
            match frames.as_slice().get(place.frame as usize) {
                Some(frame) => Ok(Some(Vec::from_slice(alloc, frame.as_slice())?)),
                None => Ok(None),
            }
        }
        _ => Ok(None),
    }
}

/// The frames at these places; none where one isn't there. Its only error is want of memory.
fn copy_frames(
    alloc: Global,
    shown: &[MachineReply],
    replica: u64,
    places: &[FramePlace],
) -> Result<Option<Vec<Vec<u8>>>, AllocError>
    ensures { IfOk result (λ o. AreAtOr replica shown.now places.now o) }
{
    let mut frames = Vec::new(alloc);
    for place in places {
        match copy_frame(alloc, shown, replica, *place)? {
            Some(frame) => frames.push(frame)?,
            None => return Ok(None),
        }
    }
    Ok(Some(frames))
}

/// The message that comes of the last of these frames, which are all that a connection heard. Its only error is want of
/// memory.
fn hear_first(
    alloc: Global,
    cluster: Cluster,
    frames: &[Vec<u8>],
) -> Result<Option<Event<Op>>, AllocError>
    ensures { IfOk result (λ o. IsHeardFirst cluster (octets_of frames.now) o) }
{
    // prover: a cluster's number is in range
    let _ = cluster.number();
    let mut gathering = Gathering::new();
    hear_all(alloc, cluster, &mut gathering, frames)
}

/// The event that comes of the last of the frames at these places, which are all that a connection heard; none where
/// one isn't there. Its only error is want of memory.
pub fn come_of_places(
    alloc: Global,
    cluster: Cluster,
    shown: &[MachineReply],
    replica: u64,
    places: &[FramePlace],
) -> Result<Option<Event<Op>>, AllocError>
    ensures { IfOk result (λ o. PlacesCome cluster shown.now replica places.now o) }
{
    // prover: so many replies have numbers in range
    let _ = shown.len();
    match copy_frames(alloc, shown, replica, places)? {
        None => Ok(None),
        Some(frames) => hear_first(alloc, cluster, frames.as_slice()),
    }
}
