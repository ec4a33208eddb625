//! What ends a run early, with the text that goes to standard error.

ghost use Rattle.std.specs.Prelude.{◌≡◌};
ghost use Rattle.dird_commands.specs.declared.fault.Fault.TheVariants.{NoMemory};

use filter_text::FilterTextError;
use lab_script::ScriptError;
use local_directory::{ExportError, ImportError, IndexError, LineFault, SearchError};
use schema_reader::SchemaError;
use std::alloc::{AllocError, AllocFailed};
use thiserror::Error;

/// Why a job stopped; each ends the run with status 1. A refusal without a text of its own prints its number, and the
/// line or the place that it is of.
#[derive(Clone, Copy, Debug, Error)]
pub enum Fault {
    /// A refusal's number, and the line or the place that it is of.
    #[error("E{0} {1}")]
    Placed(u32, usize),
    #[error("bad name")]
    BadName,
    #[error("E9")]
    TooDeep,
    #[error("E10")]
    TooManyItems,
    #[error("bad hex line {0}")]
    BadHexLine(u64),
    #[error("bad line {0}")]
    BadLine(u64),
    #[error("cannot read")]
    CannotRead,
    #[error("others may read the password's file")]
    OpenToOthers,
    #[error("the password is empty")]
    NoPassword,
    #[error("cannot write")]
    CannotWrite,
    #[error("E3")]
    TooLong,
    #[error("{0}")]
    Import(ImportError),
    #[error("{0}")]
    Export(ExportError),
    #[error("{0}")]
    Search(SearchError),
    #[error("out of memory")]
    NoMemory,
}

impl From<LineFault> for Fault {
    ghost use Rattle.dird_commands.specs.Undone.{line_fault};

    ghost from_gives = { λ error fault. fault ≡ line_fault error };

    fn from(error: LineFault) -> Fault {
        match error {
            LineFault::BadHexLine(number) => Fault::BadHexLine(number),
            LineFault::CannotRead => Fault::CannotRead,
            LineFault::CannotWrite => Fault::CannotWrite,
            LineFault::TooLong => Fault::TooLong,
            LineFault::NoMemory => Fault::NoMemory,
        }
    }
}

impl From<ScriptError> for Fault {
    ghost use Rattle.dird_commands.specs.Played.{script_fault};

    ghost from_gives = { λ error fault. fault ≡ script_fault error };

    fn from(error: ScriptError) -> Fault {
        match error {
            ScriptError::BadLine { number } => Fault::BadLine(number),
            ScriptError::NoMemory => Fault::NoMemory,
        }
    }
}

impl From<SchemaError> for Fault {
    fn from(error: SchemaError) -> Fault {
        match error {
            SchemaError::BadDescription { line } => Fault::Placed(12, line),
            SchemaError::UnknownName { line } => Fault::Placed(13, line),
            SchemaError::LoopInSup { line } => Fault::Placed(14, line),
            SchemaError::NoEquality { line } => Fault::Placed(15, line),
            SchemaError::NoMemory => Fault::NoMemory,
        }
    }
}

impl From<IndexError> for Fault {
    fn from(error: IndexError) -> Fault {
        match error {
            IndexError::BadDescription { line } => Fault::Placed(12, line),
            IndexError::UnknownName { line } => Fault::Placed(13, line),
            IndexError::IndexWithoutRule { line } => Fault::Placed(16, line),
            IndexError::NoMemory => Fault::NoMemory,
        }
    }
}

impl From<FilterTextError> for Fault {
    ghost use Rattle.dird_commands.specs.Undone.{filter_fault};

    ghost from_gives = { λ error fault. fault ≡ filter_fault error };

    fn from(error: FilterTextError) -> Fault {
        match error {
            FilterTextError::BadFilterText { at } => Fault::Placed(18, at),
            FilterTextError::TooDeep => Fault::TooDeep,
            FilterTextError::TooManyItems => Fault::TooManyItems,
            FilterTextError::NoMemory => Fault::NoMemory,
        }
    }
}

impl From<ImportError> for Fault {
    ghost use Rattle.dird_commands.specs.Undone.{import_fault};

    ghost from_gives = { λ error fault. fault ≡ import_fault error };

    fn from(error: ImportError) -> Fault {
        match error {
            ImportError::NoMemory => Fault::NoMemory,
            ImportError::BadLdif { .. } | ImportError::TooLong | ImportError::TooManyRecords => {
                Fault::Import(error)
            }
        }
    }
}

impl From<ExportError> for Fault {
    ghost use Rattle.dird_commands.specs.Undone.{export_fault};

    ghost from_gives = { λ error fault. fault ≡ export_fault error };

    fn from(error: ExportError) -> Fault {
        match error {
            ExportError::NoMemory => Fault::NoMemory,
            ExportError::BadHexLine { .. }
            | ExportError::Code { .. }
            | ExportError::NoDoneMessage
            | ExportError::BadMessage => Fault::Export(error),
        }
    }
}

impl From<SearchError> for Fault {
    ghost use Rattle.dird_commands.specs.Undone.{search_fault};

    ghost from_gives = { λ error fault. fault ≡ search_fault error };

    fn from(error: SearchError) -> Fault {
        match error {
            SearchError::NoMemory => Fault::NoMemory,
            SearchError::BadLdif { .. } | SearchError::Refused { .. } | SearchError::Code { .. } =>
                Fault::Search(error),
        }
    }
}

impl From<AllocError> for Fault {
    ghost from_gives = { λ _ e. e ≡ NoMemory };

    fn from(_e: AllocError) -> Fault {
        Fault::NoMemory
    }
}

impl<T: Drop> From<AllocFailed<T>> for Fault {
    ghost from_gives = { λ _ e. e ≡ NoMemory };

    fn from(_e: AllocFailed<T>) -> Fault {
        Fault::NoMemory
    }
}
