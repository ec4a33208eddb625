//! Spells the octets that a journal's file begins with, and reads whose the journal is from them.
//!
//! They are a frame with a note that begins a journal, as `log_journal` spells one, but of version 2: a program that
//! knows version 1 alone refuses the file as one of another version, and writes nothing.
ghost use Rattle.std.specs.Prelude.{◌≡◌, ◌+◌, ◌≤◌, ◌++◌, length, take, drop, IfOk, IfSome, OnOk};
ghost use Rattle.file_device.specs.private.Heads.{beginning, body_of, earlier_head, head_of, magic, numeral, sum_of};
ghost use Rattle.journal.specs.Frames.{frame};

use crate::owner::{JournalOwner, ReplicaId};
use journal::put_string;
use sha2::{Digest, Sha256};
use std::alloc::{AllocError, Global};

/// How many octets a head has.
pub const HEAD: usize = 136;

/// How many octets a journal of version 1 begins with: the frame of its first note.
const EARLIER_HEAD: usize = 59;

/// The version of a journal's file with a head.
const VERSION: u64 = 2;

/// The version of one without.
const EARLIER_VERSION: u64 = 1;

/// What stands in a head before the digests, so that people see what the file is.
const MAGIC: &[u8; 13] = b"dird journal\n";

/// The octets of a number.
#[tactic(auto, unfolding(crate::specs::private::Heads::numeral))]
pub fn numeral(number: u64) -> [u8; 8]
    ensures { result ≡ numeral number }
{
    number.to_be_bytes()
}

/// Adds a number. Its only error is want of memory.
fn put_number(out: &mut Vec<u8>, number: u64) -> Result<(), AllocError>
    ensures { OnOk result (out.new.items ≡ out.old.items ++ numeral number) }
{
    out.extend_from_slice(&numeral(number))
}

/// The sum of octets.
#[tactic(auto, unfolding(crate::specs::private::Heads::sum_of))]
pub fn sum_of(octets: &[u8]) -> [u8; 8]
    ensures { result ≡ sum_of octets.now }
{
    let digest = Sha256::digest(octets);
    let mut sum = [0; 8];
    sum.copy_from_slice(&digest[..8]);
    sum
}

/// Adds whose a journal is. Its only error is want of memory.
fn put_replica(out: &mut Vec<u8>, replica: ReplicaId) -> Result<(), AllocError>
    ensures { OnOk result (out.new.items ≡
        out.old.items ++ (numeral replica.cluster ++ (numeral replica.index ++ numeral replica.count))) }
{
    put_number(out, replica.cluster)?;
    put_number(out, replica.index)?;
    put_number(out, replica.count)
}

/// What stands before the sum of a beginning. Its only error is want of memory.
fn body_of(
    alloc: Global,
    version: u64,
    replica: ReplicaId,
    rest: &[u8],
) -> Result<Vec<u8>, AllocError>
    ensures { IfOk result (λ body. body.items ≡ body_of version replica rest.now) }
{
    let mut body = vec![in alloc; 0u8; 1]?;
    put_number(&mut body, version)?;
    put_replica(&mut body, replica)?;
    put_number(&mut body, 0)?;
    body.extend_from_slice(rest)?;
    Ok(body)
}

/// The frame of a beginning. Its only error is want of memory.
fn framed(
    alloc: Global,
    version: u64,
    replica: ReplicaId,
    rest: &[u8],
) -> Result<Vec<u8>, AllocError>
    ensures { IfOk result (λ out. out.items ≡ frame (beginning version replica rest.now)) }
{
    let mut string = body_of(alloc, version, replica, rest)?;
    let sum = sum_of(&string);
    string.extend_from_slice(&sum)?;
    let mut out = Vec::new(alloc);
    put_string(&mut out, &string)?;
    Ok(out)
}

/// What follows the numbers in a head. Its only error is want of memory.
fn terms_of(alloc: Global, owner: &JournalOwner) -> Result<Vec<u8>, AllocError>
    ensures { IfOk result (λ terms. terms.items ≡ magic ++ (owner.now.schema ++ owner.now.suffix)) }
{
    let mut terms = MAGIC.to_vec(alloc)?;
    terms.extend_from_slice(&owner.schema)?;
    terms.extend_from_slice(&owner.suffix)?;
    Ok(terms)
}

/// The head of a replica's journal. Its only error is want of memory.
pub fn head_of(alloc: Global, owner: &JournalOwner) -> Result<Vec<u8>, AllocError>
    ensures { IfOk result (λ head. head.items ≡ head_of owner.now) }
{
    let terms = terms_of(alloc, owner)?;
    framed(alloc, VERSION, owner.replica, &terms)
}

/// The number in the eight octets from a place on.
pub fn number_at(octets: &[u8], at: usize) -> u64
    requires { at + 8 ≤ length octets.now }
{
    let mut word = [0; 8];
    word.copy_from_slice(&octets[at..at + 8]);
    u64::from_be_bytes(word)
}

/// The digest in the 32 octets from a place on.
fn digest_at(octets: &[u8], at: usize) -> [u8; 32]
    requires { at + 32 ≤ length octets.now }
{
    let mut digest = [0; 32];
    digest.copy_from_slice(&octets[at..at + 32]);
    digest
}

/// The replica that a head or an earlier journal names, where these octets begin one.
fn replica_in(octets: &[u8]) -> ReplicaId
    requires { 43 ≤ length octets.now }
{
    ReplicaId {
        cluster: number_at(octets, 19),
        index: number_at(octets, 27),
        count: number_at(octets, 35),
    }
}

/// Whose a journal is whose file begins so; none where no head is found there.
pub fn read_head(alloc: Global, front: &[u8]) -> Result<Option<JournalOwner>, AllocError>
    ensures { IfOk result (λ read. IfSome read (λ owner. take 136 front.now ≡ head_of owner)) }
{
    if front.len() < HEAD {
        return Ok(None);
    }
    let owner = JournalOwner {
        replica: replica_in(front),
        schema: digest_at(front, 64),
        suffix: digest_at(front, 96),
    };
    let head = head_of(alloc, &owner)?;
    let (begins, _) = front.split_at(HEAD);
    if head.as_slice() == begins {
        Ok(Some(owner))
    } else {
        Ok(None)
    }
}

/// The replica whose journal of version 1 a file holds that begins so; none where it holds none.
pub fn read_earlier(alloc: Global, front: &[u8]) -> Result<Option<ReplicaId>, AllocError>
    ensures { IfOk result (λ read. IfSome read (λ replica. take 59 front.now ≡ earlier_head replica)) }
{
    if front.len() < EARLIER_HEAD {
        return Ok(None);
    }
    let replica = replica_in(front);
    let head = framed(alloc, EARLIER_VERSION, replica, &[])?;
    let (begins, _) = front.split_at(EARLIER_HEAD);
    if head.as_slice() == begins {
        Ok(Some(replica))
    } else {
        Ok(None)
    }
}
