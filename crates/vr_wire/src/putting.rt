//! Puts fields at the end of octets.
ghost use Rattle.std.specs.Prelude.{◌≡◌, ◌∷◌, [], ◌++◌, ◌^◌, ◌<◌, drop, length};
ghost use Rattle.view_store.specs.Cluster.{cluster_octets};
ghost use Rattle.vr_wire.specs.Frames.{number, short, client_octets, payload_octets, entry_octets, entries_octets, log_octets, held_octets};
ghost use Rattle.vr_wire.specs.Frames.{perhaps_octets};
ghost use Rattle.vr_wire.specs.Payloads.{written_entry, written_log, written_held, written_perhaps};
ghost use Rattle.vr_wire.specs.private.Putting.{PutsAlways, PutsWithin, WritesWithin, most_under};
ghost use Rattle.ldap_op.specs.Written.{op_bytes};

use crate::error::WireError;
use ldap_op::{Op, WriteError, write_op};
use std::alloc::Global;
use view_store::Cluster;
use vr_state::message::Snapshot;
use vr_state::words::{Client, LogEntry};

/// The greatest length of a frame, its first four octets included. What is spelled stops as soon as more than `LIMIT`
/// octets stand there, and each call names its own: a message to be cut in parts has none.
pub const LIMIT: usize = 268_435_456;

/// No limit: as many octets as memory holds.
pub const NO_LIMIT: usize = usize::MAX;

/// The greatest count or length that four octets hold.
pub const MAX_COUNT: usize = 0xffff_ffff;

pub fn put_octet(out: &mut Vec<u8>, octet: u8) -> Result<(), WireError>
    ensures spelled { PutsAlways result out.old.items out.new.items (octet ∷ []) }
    ensures kept { out.new.items ≡ out.old.items ++ drop (length out.old.items) out.new.items }
{
    out.push(octet)?;
    Ok(())
}

pub fn put_number(out: &mut Vec<u8>, value: u64) -> Result<(), WireError>
    ensures spelled { PutsAlways result out.old.items out.new.items (number value) }
    ensures kept { out.new.items ≡ out.old.items ++ drop (length out.old.items) out.new.items }
{
    out.extend_from_slice(&value.to_be_bytes())?;
    Ok(())
}

fn put_short(out: &mut Vec<u8>, number: u32) -> Result<(), WireError>
    ensures spelled { PutsAlways result out.old.items out.new.items (short number) }
    ensures kept { out.new.items ≡ out.old.items ++ drop (length out.old.items) out.new.items }
{
    out.extend_from_slice(&number.to_be_bytes())?;
    Ok(())
}

/// A cluster's number, in six octets.
pub fn put_cluster(out: &mut Vec<u8>, cluster: Cluster) -> Result<(), WireError>
    ensures spelled { PutsAlways result out.old.items out.new.items (cluster_octets cluster) }
    ensures kept { out.new.items ≡ out.old.items ++ drop (length out.old.items) out.new.items }
{
    let octets = cluster.number().to_be_bytes();
    out.extend_from_slice(&octets[2..])?;
    Ok(())
}

/// A length or a count, which is within the limit.
pub fn put_count(out: &mut Vec<u8>, count: usize) -> Result<(), WireError>
    requires { count < 2 ^ 32 }
    ensures spelled { PutsAlways result out.old.items out.new.items (short count) }
    ensures kept { out.new.items ≡ out.old.items ++ drop (length out.old.items) out.new.items }
{
    put_short(out, count as u32)
}

fn put_client(out: &mut Vec<u8>, client: Client) -> Result<(), WireError>
    ensures spelled { PutsAlways result out.old.items out.new.items (client_octets client) }
    ensures kept { out.new.items ≡ out.old.items ++ drop (length out.old.items) out.new.items }
{
    put_octet(out, client.home)?;
    put_number(out, client.life)?;
    put_number(out, client.number)
}

/// A payload, unless it or what stands before it is over the limit.
fn put_payload<const LIMIT: usize>(out: &mut Vec<u8>, payload: &[u8]) -> Result<(), WireError>
    ensures spelled { PutsWithin (most_under LIMIT) result out.old.items out.new.items (payload_octets payload.now) }
    ensures kept { out.new.items ≡ out.old.items ++ drop (length out.old.items) out.new.items }
{
    if out.len() > LIMIT || payload.len() > LIMIT {
        return Err(WireError::BadFrame);
    }
    if payload.len() > MAX_COUNT {
        return Err(WireError::BadFrame);
    }
    put_count(out, payload.len())?;
    out.extend_from_slice(payload)?;
    Ok(())
}

/// The octets of an update.
fn op_octets<const LIMIT: usize>(alloc: Global, op: &Op) -> Result<Vec<u8>, WireError>
    ensures { WritesWithin (most_under LIMIT) (λ v. v.items) result (op_bytes op.now) }
{
    match write_op(alloc, op) {
        Ok(octets) => Ok(octets),
        Err(WriteError::NoMemory) => Err(WireError::NoMemory),
        Err(WriteError::TooLong) => Err(WireError::BadFrame),
    }
}

/// A record, whose update has these octets.
#[tactic(auto, using(crate::proofs::PutLaws::longer, crate::proofs::PutLaws::longer_by, crate::proofs::PutLaws::memory))]
fn put_entry_of<const LIMIT: usize>(
    out: &mut Vec<u8>,
    entry: &LogEntry<Op>,
    octets: &[u8],
) -> Result<(), WireError>
    requires { octets.now ≡ op_bytes entry.now.payload }
    ensures spelled { PutsWithin (most_under LIMIT) result out.old.items out.new.items
        (entry_octets (written_entry entry.now)) }
    ensures kept { out.new.items ≡ out.old.items ++ drop (length out.old.items) out.new.items }
{
    put_client(out, entry.client)?;
    put_number(out, entry.request_number)?;
    put_payload::<LIMIT>(out, octets)
}

/// A record. The octets of its update are copied as they are; one that no octets are read as is written.
#[tactic(auto, using(crate::proofs::PutLaws::longer, crate::proofs::PutLaws::longer_by, crate::proofs::PutLaws::memory))]
pub fn put_entry<const LIMIT: usize>(
    alloc: Global,
    out: &mut Vec<u8>,
    entry: &LogEntry<Op>,
) -> Result<(), WireError>
    ensures spelled { PutsWithin (most_under LIMIT) result out.old.items out.new.items
        (entry_octets (written_entry entry.now)) }
    ensures kept { out.new.items ≡ out.old.items ++ drop (length out.old.items) out.new.items }
{
    if let Some(octets) = entry.payload.octets() {
        return put_entry_of::<LIMIT>(out, entry, octets);
    }
    let octets = op_octets::<LIMIT>(alloc, &entry.payload)?;
    put_entry_of::<LIMIT>(out, entry, &octets)
}

/// Records, one after the other.
fn put_entries<const LIMIT: usize>(
    alloc: Global,
    out: &mut Vec<u8>,
    entries: &[LogEntry<Op>],
) -> Result<(), WireError>
    ensures spelled { PutsWithin (most_under LIMIT) result out.old.items out.new.items
        (entries_octets (written_log entries.now)) }
    ensures kept { out.new.items ≡ out.old.items ++ drop (length out.old.items) out.new.items }
{
    for entry in entries {
        put_entry::<LIMIT>(alloc, out, entry)?;
    }
    Ok(())
}

/// A log.
pub fn put_log<const LIMIT: usize>(
    alloc: Global,
    out: &mut Vec<u8>,
    entries: &[LogEntry<Op>],
) -> Result<(), WireError>
    ensures spelled { PutsWithin (most_under LIMIT) result out.old.items out.new.items
        (log_octets (written_log entries.now)) }
    ensures kept { out.new.items ≡ out.old.items ++ drop (length out.old.items) out.new.items }
{
    if entries.len() > LIMIT.min(MAX_COUNT) {
        return Err(WireError::BadFrame);
    }
    put_count(out, entries.len())?;
    put_entries::<LIMIT>(alloc, out, entries)
}

pub fn put_held<const LIMIT: usize>(
    alloc: Global,
    out: &mut Vec<u8>,
    held: &Snapshot<Op>,
) -> Result<(), WireError>
    ensures spelled { PutsWithin (most_under LIMIT) result out.old.items out.new.items
        (held_octets (written_held held.now)) }
    ensures kept { out.new.items ≡ out.old.items ++ drop (length out.old.items) out.new.items }
{
    put_number(out, held.commit_number)?;
    put_log::<LIMIT>(alloc, out, held.log.as_slice())
}

/// A log that may be missing.
pub fn put_perhaps<const LIMIT: usize>(
    alloc: Global,
    out: &mut Vec<u8>,
    held: &Option<Snapshot<Op>>,
) -> Result<(), WireError>
    ensures spelled { PutsWithin (most_under LIMIT) result out.old.items out.new.items
        (perhaps_octets (written_perhaps held.now)) }
    ensures kept { out.new.items ≡ out.old.items ++ drop (length out.old.items) out.new.items }
{
    match held {
        None => put_octet(out, 0),
        Some(held) => {
            put_octet(out, 1)?;
            put_held::<LIMIT>(alloc, out, held)
        }
    }
}
