// One event at a cluster: a replica makes a step, crashes or comes back, and what it sends is posted. The order of
// events is not made here.
ghost use Rattle.std.specs.Prelude.{◌≡◌, ◌<◌, reverse, IfOk, OnOk, slice_index, unwrap_or};
ghost use Rattle.vr_state.specs.Views.{outcome};
ghost use Rattle.vr_world.specs.private.Acts.{crashed_at, delivered_at, stepped_at, told};
ghost use Rattle.vr_world.specs.Cluster.{world};
ghost use Rattle.vr_world.specs.World.{made, sent_as};

use crate::cluster::Cluster;
use crate::moving::{keep, keep_up, take_away};
use crate::posting::{note_replies, post};
use crate::resuming::kept_of;
use crate::words::Message;
use std::alloc::{AllocError, Global};
use vr_recover::step;
use vr_state::event::Event;
use vr_state::message::{Outputs, Send};
use vr_state::payload::Payload;
use vr_state::replica::Replica;
use vr_state::sending::copy_message;
use vr_state::words::Reply;

/// A step of a replica, if it is up. Its only error is want of memory.
pub fn step_at<P: Payload>(
    alloc: Global,
    cluster: &mut Cluster<P>,
    index: u64,
    event: Event<P>,
) -> Result<(), AllocError>
    ensures world { OnOk result (world cluster.new ≡ stepped_at cluster.old index event) }
    ensures count { cluster.new.count ≡ cluster.old.count }
{
    if cluster.count <= index {
        return Ok(());
    }
    match take_away(cluster, index) {
        None => Ok(()),
        Some(mut replica) => {
            let outputs = step(alloc, &mut replica, event)?;
            settle(cluster, replica, outputs)?;
            Ok(())
        }
    }
}

/// A message comes to its receiver: it is copied, since it may come again. Its only error is want of memory.
pub fn deliver<P: Payload>(
    alloc: Global,
    cluster: &mut Cluster<P>,
    which: u64,
) -> Result<(), AllocError>
    ensures world { OnOk result (world cluster.new ≡ delivered_at cluster.old which) }
    ensures count { cluster.new.count ≡ cluster.old.count }
{
    match copy_sent(alloc, cluster.messages.as_slice(), which)? {
        None => Ok(()),
        Some(sent) => {
            let Message { from, to, body } = sent;
            let event = Event::Message {
                from,
                message: body,
            };
            step_at(alloc, cluster, to, event)
        }
    }
}

/// The message with this number, in memory of its own; it is found by its index. Its only error is want of memory.
fn copy_sent<P: Payload>(
    alloc: Global,
    messages: &[Message<P>],
    which: u64,
) -> Result<Option<Message<P>>, AllocError>
    ensures { IfOk result (λ sent. sent ≡ sent_as which (reverse messages.now)) }
{
    if which == 0 || (messages.len() as u64) < which {
        return Ok(None);
    }
    let message = &messages[which as usize - 1];
    let body = copy_message(alloc, &message.body)?;
    Ok(Some(Message {
        from: message.from,
        to: message.to,
        body,
    }))
}

/// A replica loses all but its stored view and what its journal keeps.
pub fn crash<P: Drop>(cluster: &mut Cluster<P>, index: u64)
    ensures world { world cluster.new ≡ crashed_at cluster.old index }
    ensures count { cluster.new.count ≡ cluster.old.count }
{
    if cluster.count <= index {
        return;
    }
    match take_away(cluster, index) {
        None => {}
        Some(replica) => keep(cluster, index, kept_of(replica)),
    }
}

/// A replica is up after its step: its view is stored where the step says so, and then its messages are posted and its
/// replies noted. Its only error is want of memory.
pub fn settle<P: Drop>(
    cluster: &mut Cluster<P>,
    replica: Replica<P>,
    outputs: Outputs<P>,
) -> Result<(), AllocError>
    requires within { replica.index < cluster.old.count }
    requires count { replica.count ≡ cluster.old.count }
    requires view { replica.view_number ≡ unwrap_or outputs.store (slice_index cluster.old.stored.items replica.index) }
    ensures world { OnOk result (world cluster.new ≡ made replica.index (outcome replica outputs) (world cluster.old)) }
    ensures count { cluster.new.count ≡ cluster.old.count }
{
    let index = replica.index;
    let Outputs {
        store,
        sends,
        replies,
    } = outputs;
    keep_up(cluster, replica, store);
    tell(cluster, index, sends, &replies)
}

/// Posts what a replica sends, and notes what it answers. Its only error is want of memory.
fn tell<P: Drop>(
    cluster: &mut Cluster<P>,
    index: u64,
    sends: Vec<Send<P>>,
    replies: &[Reply],
) -> Result<(), AllocError>
    ensures world { OnOk result (world cluster.new ≡ told index sends.items replies.now (world cluster.old)) }
    ensures count { cluster.new.count ≡ cluster.old.count }
{
    post(&mut cluster.messages, index, sends)?;
    note_replies(&mut cluster.replies, index, replies)?;
    Ok(())
}
