//! Writes messages that nodes gave out as the frames that their processes send.
ghost use Rattle.std.specs.Prelude.{◌≡◌, Ok, IfOk};
ghost use Rattle.dir_machine.specs.Shown.{octets_of};
ghost use Rattle.dir_machine.specs.Happening.{IsWritten};
ghost use Rattle.dir_machine.specs.private.Hearing.{AreWrittenOr};
ghost use Rattle.vr_wire.specs.Parts.{HandsFrame};

use crate::events::Place;
use crate::network::copy_message_at;
use crate::replies::MachineReply;
use dir_node::{Cluster, Op};
use std::alloc::{AllocError, Global};
use vr_wire::{FrameSizes, Frames, WireError};
use vr_world::words::Message;

/// The next frame of a message. Its only error is want of memory.
fn next_frame(alloc: Global, frames: &mut Frames) -> Result<Option<Vec<u8>>, AllocError>
    ensures { IfOk result (λ o. HandsFrame (Ok o) frames.old frames.new) }
{
    match frames.next(alloc) {
        Ok(frame) => Ok(frame),
        Err(_) => Err(AllocError),
    }
}

/// All frames of a message, in order. Its only error is want of memory.
fn all_frames(alloc: Global, mut frames: Frames) -> Result<Vec<Vec<u8>>, AllocError>
    ensures { IfOk result (λ all. octets_of all.items ≡ frames) }
{
    let mut all = Vec::new(alloc);
    while let Some(frame) = next_frame(alloc, &mut frames)? {
        all.push(frame)?;
    }
    Ok(all)
}

/// All frames of a message of this number, in order; none where it can't be sent. Its only error is want of memory.
fn frames_of(
    alloc: Global,
    cluster: Cluster,
    number: u64,
    sizes: FrameSizes,
    message: &Message<Op>,
) -> Result<Option<Vec<Vec<u8>>>, AllocError>
    ensures { IfOk result (λ o. AreWrittenOr cluster number sizes message.now o) }
{
    let sender = match u8::try_from(message.from) {
        Ok(sender) => sender,
        Err(_) => return Ok(None),
    };
    match Frames::of(alloc, cluster, sender, number, sizes, &message.body) {
        Ok(frames) => Ok(Some(all_frames(alloc, frames)?)),
        Err(WireError::NoMemory) => Err(AllocError),
        Err(_) => Ok(None),
    }
}

/// Shows the frames of the message at a place. Its only error is want of memory.
pub fn write(
    alloc: Global,
    cluster: Cluster,
    shown: &[MachineReply],
    place: Place,
    sizes: FrameSizes,
) -> Result<MachineReply, AllocError>
    ensures { IfOk result (λ x. IsWritten cluster shown.now place sizes x) }
{
    match copy_message_at(alloc, shown, place)? {
        None => Ok(MachineReply::Nothing),
        Some(message) => {
            let number = shown.len() as u64;
            match frames_of(alloc, cluster, number, sizes, &message)? {
                None => Ok(MachineReply::Unwritten { place }),
                Some(frames) => Ok(MachineReply::Written {
                    place,
                    to: message.to,
                    frames,
                }),
            }
        }
    }
}
