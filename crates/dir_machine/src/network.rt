//! Makes events of what processes are given; messages are copied from what was shown.
ghost use Rattle.std.specs.Prelude.{◌≡◌, IfOk};
ghost use Rattle.dir_machine.specs.Shown.{message_at, message_of};
ghost use Rattle.dir_machine.specs.private.Givens.{AreAskedOr, IsAskedOr};

use crate::events::{Given, Place};
use crate::hearing::{come_of_frames, come_of_places};
use crate::replies::MachineReply;
use dir_node::{Cluster, Event, Op, Outputs, copy_message};
use std::alloc::{AllocError, Global};
use vr_world::words::Message;

/// The send of this index among what a replica gave out, in memory of its own. Its only error is want of memory.
fn copy_send(
    alloc: Global,
    from: u64,
    outputs: &Outputs<Op>,
    at: u64,
) -> Result<Option<Message<Op>>, AllocError>
    ensures { IfOk result (λ o. o ≡ message_of from outputs.now at) }
{
    match outputs.sends.as_slice().get(at as usize) {
        Some(send) => {
            let body = copy_message(alloc, &send.message)?;
            Ok(Some(Message {
                from,
                to: send.to,
                body,
            }))
        }
        None => Ok(None),
    }
}

/// The message at a place, in memory of its own; none where nothing was given out there. Its only error is want of
/// memory.
pub fn copy_message_at(
    alloc: Global,
    shown: &[MachineReply],
    place: Place,
) -> Result<Option<Message<Op>>, AllocError>
    ensures { IfOk result (λ o. o ≡ message_at shown.now place) }
{
    match shown.get(place.event as usize) {
        Some(
            MachineReply::Handled {
                replica,
                given,
                behind: _,
            },
        ) => match given.as_slice().get(place.part as usize) {
            Some(Ok(outputs)) => copy_send(alloc, *replica, outputs, place.send),
            _ => Ok(None),
        },
        Some(
            MachineReply::Started {
                replica,
                restarts: _,
                outputs,
            },
        ) => copy_send(alloc, *replica, outputs, place.send),
        _ => Ok(None),
    }
}

/// The event that a replica is given; none where it is a message that nobody gave out for it, or that no event wrote
/// for it. Its only error is want of memory.
pub fn asked(
    alloc: Global,
    cluster: Cluster,
    shown: &[MachineReply],
    replica: u64,
    given: Given,
) -> Result<Option<Event<Op>>, AllocError>
    ensures { IfOk result (λ o. IsAskedOr cluster shown.now replica given o) }
{
    match given {
        Given::Request { entry } => Ok(Some(Event::Request { entry })),
        Given::Suspect => Ok(Some(Event::Suspect)),
        Given::Beat => Ok(Some(Event::Beat)),
        Given::Frames { event, heard } => come_of_frames(
            alloc,
            cluster,
            shown,
            replica,
            event,
            heard.as_slice(),
        ),
        Given::Heard { frames } => {
            come_of_places(alloc, cluster, shown, replica, frames.as_slice())
        }
        Given::Message { place } => match copy_message_at(alloc, shown, place)? {
            None => Ok(None),
            Some(message) => {
                let Message { from, to, body } = message;
                if to == replica {
                    Ok(Some(Event::Message {
                        from,
                        message: body,
                    }))
                } else {
                    Ok(None)
                }
            }
        },
    }
}

/// The events that a replica is given; none where one is a message that nobody gave out for it. Its only error is want
/// of memory.
pub fn asked_all(
    alloc: Global,
    cluster: Cluster,
    shown: &[MachineReply],
    replica: u64,
    given: Vec<Given>,
) -> Result<Option<Vec<Event<Op>>>, AllocError>
    ensures { IfOk result (λ o. AreAskedOr cluster shown.now replica given.items o) }
{
    let mut events = Vec::new(alloc);
    for one in given {
        match asked(alloc, cluster, shown, replica, one)? {
            Some(event) => events.push(event)?,
            None => return Ok(None),
        }
    }
    Ok(Some(events))
}
