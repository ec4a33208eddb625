//! Reads whole frames.
ghost use Rattle.std.specs.Prelude.{◌≡◌};
ghost use Rattle.std.specs.Int.{w32, from_be_bytes};
ghost use Rattle.vr_wire.specs.Cutting.{rest_by};
ghost use Rattle.vr_wire.specs.private.Cutting.{Gives, cut_head, cut_said, cut_rest, cut_frame};
ghost use Rattle.vr_wire.specs.Payloads.{ReadsFrame};
ghost use Rattle.vr_wire.specs.private.Payloads.{IsFrameOf, Reads};

use crate::bodies::cut_body;
use crate::cutting::{cut_cluster, cut_octet, cut_short};
use crate::error::WireError;
use crate::octets::Octets;
use crate::payloads::with_ops;
use crate::writing::VERSION;
use ldap_op::Op;
use std::alloc::Global;
use view_store::Cluster;
use vr_state::message::PeerMessage;

/// The greatest length of what follows a frame's first four octets.
pub const REST_LIMIT: u32 = 268_435_452;

/// How many octets are still to come after a frame's first four. It takes no memory. E20 only where the frame would be
/// over the limit.
pub fn rest(head: [u8; 4]) -> Result<u32, WireError>
    ensures { rest_by (from_be_bytes w32 head) result }
{
    let count = u32::from_be_bytes(head);
    if count <= REST_LIMIT {
        Ok(count)
    } else {
        Err(WireError::BadFrame)
    }
}

/// The version, and the cluster's number.
#[tactic(auto, unfolding(crate::specs::private::Cutting::cut_head))]
pub fn cut_head(octets: &[u8]) -> Result<(u64, &[u8]), WireError>
    ensures { Gives (λ p. (p.0, p.1.now)) result (cut_head octets.now) }
{
    let (version, octets) = cut_octet(octets)?;
    if version == VERSION {
        cut_cluster(octets)
    } else {
        Err(WireError::BadFrame)
    }
}

/// The kind and the sender, and the message.
#[tactic(auto, unfolding(crate::specs::private::Cutting::cut_said))]
fn cut_said(alloc: Global, octets: &[u8]) -> Result<(u8, PeerMessage<Octets<'_>>), WireError>
    ensures { Gives (λ p. p) result (cut_said octets.now) }
{
    let (kind, octets) = cut_octet(octets)?;
    let (sender, octets) = cut_octet(octets)?;
    let message = cut_body(alloc, kind, octets)?;
    Ok((sender, message))
}

/// The cluster's number, the sender and the message.
#[tactic(auto, unfolding(crate::specs::private::Cutting::cut_rest))]
fn cut_rest(alloc: Global, octets: &[u8]) -> Result<(u64, (u8, PeerMessage<Octets<'_>>)), WireError>
    ensures { Gives (λ p. p) result (cut_rest octets.now) }
{
    let (cluster, octets) = cut_head(octets)?;
    let said = cut_said(alloc, octets)?;
    Ok((cluster, said))
}

/// A frame with its payloads not read yet.
#[tactic(auto, unfolding(crate::specs::private::Cutting::cut_frame))]
fn cut_frame(alloc: Global, frame: &[u8]) -> Result<(u64, (u8, PeerMessage<Octets<'_>>)), WireError>
    ensures { Gives (λ p. p) result (cut_frame frame.now) }
{
    let (count, octets) = cut_short(frame)?;
    if count <= REST_LIMIT && octets.len() == count as usize {
        cut_rest(alloc, octets)
    } else {
        Err(WireError::BadFrame)
    }
}

/// The cluster, the sender and the message of a frame of any cluster.
fn read_any(alloc: Global, frame: &[u8]) -> Result<(u64, (u8, PeerMessage<Op>)), WireError>
    ensures { Reads IsFrameOf result frame.now }
{
    let (cluster, (sender, raw)) = cut_frame(alloc, frame)?;
    let message = with_ops(alloc, &raw)?;
    Ok((cluster, (sender, message)))
}

/// The sender and the message of a frame of this cluster: these octets and no others. E20 only where the octets are no
/// frame of any cluster, E24 only where they are a frame of another one.
pub fn read(
    alloc: Global,
    frame: &[u8],
    cluster: Cluster,
) -> Result<(u8, PeerMessage<Op>), WireError>
    // What is read is the sender and the message of the octets; what is refused, want of memory aside, is no frame, or
    // another cluster's.
    ensures { ReadsFrame cluster result frame.now }
{
    let (other, said) = read_any(alloc, frame)?;
    if other == cluster.number() {
        Ok(said)
    } else {
        Err(WireError::ForeignFrame)
    }
}
