//! Why a replica didn't take an event. Plain data.
ghost use Rattle.std.specs.Prelude.{◌≡◌};
ghost use Rattle.dir_node.specs.declared.fault.Untaken.TheVariants.{NoMemory};

use log_journal::NoteError;
use std::alloc::AllocError;

/// Why events weren't taken.
#[derive(Clone, Copy, Debug)]
pub enum Untaken {
    /// A growth was refused; nothing of the replica has changed.
    NoMemory,
    /// The journal could not be written. The replica and its journal are of no use until the replica is started again.
    Journal(NoteError),
}

impl From<AllocError> for Untaken {
    ghost from_gives = { λ _ e. e ≡ NoMemory };

    fn from(_: AllocError) -> Untaken {
        Untaken::NoMemory
    }
}
