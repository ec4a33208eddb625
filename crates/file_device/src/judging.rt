//! Judges the first octets of a file before anything is written there: whether a replica's journal is in it, nothing,
//! or something else.
ghost use Rattle.std.specs.Prelude.{◌≡◌, ◌≢◌, ◌⊎◌, IfErr, OnOk, IfOk};
ghost use Rattle.file_device.specs.Unused.{is_torn};
ghost use Rattle.file_device.specs.private.Judged.{IsJudged};

use crate::fault::FileDeviceError;
use crate::heads::{head_of, read_earlier, read_head};
use crate::owner::{JournalOwner, ReplicaId};
use std::alloc::Global;

/// What a file holds in which a replica may keep its journal.
#[derive(Clone, Copy, Debug, PartialEq, Eq)]
pub enum Holding {
    /// Its journal, with a head.
    Own,
    /// Its journal, of version 1, which has no head.
    Earlier,
    /// Nothing, as far as these octets go: zeros, and what was written of its head.
    Nothing,
}

/// Whether each octet is 0, or the one in the same place of what was to be written.
pub fn is_torn(octets: &[u8], written: &[u8]) -> bool
    ensures { result ≡ is_torn octets.now written.now }
{
    let mut left = written;
    for octet in octets {
        match left {
            [wanted, more @ ..] => {
                if *octet != 0 && *octet != *wanted {
                    return false;
                }
                left = more;
            }
            [] => {
                if *octet != 0 {
                    return false;
                }
            }
        }
    }
    true
}

/// Why a replica doesn't keep its journal where another one's is.
fn check_replica(found: ReplicaId, wanted: ReplicaId) -> Result<(), FileDeviceError>
    ensures ok { OnOk result (found ≡ wanted) }
    ensures err { IfErr result (λ e. ((e ≡ FileDeviceError.ForeignCluster) × (found.cluster ≢ wanted.cluster))
        ⊎ ((e ≡ FileDeviceError.OtherReplica) × (found ≢ wanted))) }
{
    if found.cluster != wanted.cluster {
        return Err(FileDeviceError::ForeignCluster);
    }
    if found != wanted {
        return Err(FileDeviceError::OtherReplica);
    }
    Ok(())
}

/// Why a replica doesn't go on from a journal whose head is another.
fn check_owner(found: &JournalOwner, wanted: &JournalOwner) -> Result<(), FileDeviceError>
    ensures ok { OnOk result (found.now ≡ wanted.now) }
    ensures err { IfErr result (λ e. ((e ≡ FileDeviceError.ForeignCluster)
        × (found.now.replica.cluster ≢ wanted.now.replica.cluster))
        ⊎ ((e ≡ FileDeviceError.OtherReplica) × (found.now.replica ≢ wanted.now.replica))
        ⊎ ((e ≡ FileDeviceError.OtherSchema) × (found.now.schema ≢ wanted.now.schema))
        ⊎ ((e ≡ FileDeviceError.OtherSuffix) × (found.now.suffix ≢ wanted.now.suffix))) }
{
    check_replica(found.replica, wanted.replica)?;
    if found.schema != wanted.schema {
        return Err(FileDeviceError::OtherSchema);
    }
    if found.suffix != wanted.suffix {
        return Err(FileDeviceError::OtherSuffix);
    }
    Ok(())
}

/// What a file holds that begins so, where it isn't a journal of version 1 or later.
fn judge_others(
    alloc: Global,
    front: &[u8],
    owner: &JournalOwner,
) -> Result<Holding, FileDeviceError>
    ensures { IsJudged owner.now front.now result }
{
    let head = head_of(alloc, owner)?;
    if is_torn(front, &head) {
        Ok(Holding::Nothing)
    } else {
        Err(FileDeviceError::NotAJournal)
    }
}

/// What a file holds that begins so, where it doesn't begin with a head.
fn judge_earlier(
    alloc: Global,
    front: &[u8],
    owner: &JournalOwner,
) -> Result<Holding, FileDeviceError>
    ensures { IsJudged owner.now front.now result }
{
    match read_earlier(alloc, front)? {
        Some(replica) => match check_replica(replica, owner.replica) {
            Ok(()) => Ok(Holding::Earlier),
            Err(error) => Err(error),
        },
        None => judge_others(alloc, front, owner),
    }
}

/// What a file holds that begins so, where the journal of this owner is to be kept there. Want of memory is its only
/// other error.
pub fn judge(alloc: Global, front: &[u8], owner: &JournalOwner) -> Result<Holding, FileDeviceError>
    ensures { IsJudged owner.now front.now result }
{
    match read_head(alloc, front)? {
        Some(found) => match check_owner(&found, owner) {
            Ok(()) => Ok(Holding::Own),
            Err(error) => Err(error),
        },
        None => judge_earlier(alloc, front, owner),
    }
}
