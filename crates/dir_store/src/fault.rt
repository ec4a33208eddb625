//! Says why an update changes nothing; within this crate alone, since users get a reply.
ghost use Rattle.std.specs.Prelude.{◌≡◌, ℕ, List, Result, IfOk};
ghost use Rattle.indexed_tree.specs.dir_entry.Entry.{AttributeModel};
ghost use Rattle.entry_updates.specs.Refused.{RefusedAs};
ghost use Rattle.indexed_tree.specs.Replies.{with_reply};
ghost use Rattle.dir_store.specs.private.View.{RefusedWith};
ghost use Rattle.dir_store.specs.declared.fault.StoreError.TheVariants.{NoMemory};

use entry_updates::UpdateError;
use indexed_tree::Reply;
use std::alloc::{AllocError, AllocFailed, Global};

/// Why an update changes nothing.
#[derive(Debug, Drop)]
pub enum StoreError {
    /// A check fails, with this reply.
    Refused(Reply),
    NoMemory,
}

/// The reply that a refusal answers with; want of memory stays an error.
pub fn reply_of_refusal(error: StoreError) -> Result<Reply, AllocError>
    ensures { IfOk result (λ reply. error ≡ StoreError.Refused reply) }
{
    match error {
        StoreError::Refused(reply) => Ok(reply),
        StoreError::NoMemory => Err(AllocError),
    }
}

/// A refusal of attributes, with its code alone.
pub fn refused_attributes(alloc: Global, error: UpdateError) -> StoreError
    ensures { (asked : Result (List AttributeModel) ℕ) → RefusedAs error asked → RefusedWith result (with_reply asked) }
{
    match error {
        UpdateError::Refused(code) => StoreError::Refused(Reply::only(alloc, code)),
        UpdateError::NoMemory => StoreError::NoMemory,
    }
}

impl From<AllocError> for StoreError {
    ghost from_gives = { λ _ e. e ≡ NoMemory };

    fn from(_e: AllocError) -> StoreError {
        StoreError::NoMemory
    }
}

impl<T: Drop> From<AllocFailed<T>> for StoreError {
    ghost from_gives = { λ _ e. e ≡ NoMemory };

    fn from(_e: AllocFailed<T>) -> StoreError {
        StoreError::NoMemory
    }
}
