//! Why a call of a node gives no outputs. Plain data.
ghost use Rattle.std.specs.Prelude.{◌≡◌};
ghost use Rattle.dir_node.specs.declared.error.NodeError.TheVariants.{NoMemory, Store};

use log_journal::NoteError;
use std::alloc::AllocError;
use thiserror::Error;
use view_store::ViewStoreError;

/// A refusal of a node.
#[derive(Clone, Copy, Debug, PartialEq, Eq, Error)]
pub enum NodeError {
    /// A growth was refused.
    #[error("no memory")]
    NoMemory,
    /// The pair could not be loaded or stored. From then on a node answers `Halted`.
    #[error("{0}")]
    Store(ViewStoreError),
    /// The journal could not be read or written. From then on a node answers `Halted`.
    #[error("{0}")]
    Journal(NoteError),
    /// The journal is another cluster's; nothing was written.
    #[error("E23: the journal of another cluster")]
    ForeignJournal,
    /// The journal is another replica's, or doesn't go with the pair; at a first start, it isn't empty. Nothing was
    /// written.
    #[error("E26: stale journal")]
    StaleJournal,
    /// The pair or the journal could not be written at an earlier event.
    #[error("the node has stopped")]
    Halted,
}

impl From<AllocError> for NodeError {
    ghost from_gives = { λ _ e. e ≡ NoMemory };

    fn from(_: AllocError) -> NodeError {
        NodeError::NoMemory
    }
}

impl From<ViewStoreError> for NodeError {
    ghost from_gives = { λ e n. n ≡ Store e };

    fn from(error: ViewStoreError) -> NodeError {
        NodeError::Store(error)
    }
}
