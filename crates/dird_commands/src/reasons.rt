//! Words for why the system refuses a file or a stream.
ghost use Rattle.std.specs.Prelude.{◌≡◌, ◌⊎◌};

use crate::fault::Fault;
use crate::refusal::Refusal;
use std::alloc::{AllocError, Global};
use std::io::ErrorKind;
use text_faults::{about_word, about_words, shown};

/// The words for the kinds that an administrator meets; the others have std's.
const REASONS: &[(ErrorKind, &str)] = &[
    (ErrorKind::NotFound, "no such file"),
    (ErrorKind::PermissionDenied, "permission denied"),
    (ErrorKind::IsADirectory, "it is a directory"),
    (
        ErrorKind::NotADirectory,
        "a part of its path is no directory",
    ),
    (ErrorKind::InvalidData, "it is not UTF-8 text"),
    (ErrorKind::InvalidInput, "it is no name of a file"),
    (ErrorKind::StorageFull, "no space is left"),
    (ErrorKind::BrokenPipe, "its reader has ended"),
];

/// Why the system refuses, where that is in the table.
fn reason(kind: ErrorKind) -> Option<&'static str> {
    for (known, words) in REASONS {
        if *known == kind {
            return Some(*words);
        }
    }
    None
}

/// What can't be read or written, and why.
fn because(alloc: Global, what: &str, kind: ErrorKind) -> Result<String, AllocError> {
    let what = shown(alloc, what.as_bytes())?;
    match reason(kind) {
        Some(words) => format!(in alloc; "{what}: {words}"),
        None => format!(in alloc; "{what}: {kind}"),
    }
}

/// A named file, or the input, that can't be read.
pub fn read_refusal(alloc: Global, what: &str, kind: ErrorKind) -> Refusal
    ensures { (result.fault ≡ Fault.CannotRead) ⊎ (result.fault ≡ Fault.NoMemory) }
{
    if kind == ErrorKind::OutOfMemory {
        return Refusal::from(Fault::NoMemory);
    }
    Refusal::with_explanation(Fault::CannotRead, because(alloc, what, kind))
}

/// The output that can't be written.
pub fn write_refusal(alloc: Global, kind: ErrorKind) -> Refusal
    ensures { result.fault ≡ Fault.CannotWrite }
{
    Refusal::with_explanation(Fault::CannotWrite, because(alloc, "standard output", kind))
}

/// A file of a secret that others may read.
pub fn open_to_others(alloc: Global, path: &str) -> Refusal {
    let path = path.as_bytes();
    let told = about_words(
        alloc,
        "",
        path,
        ": group or others may read it: chmod 600 ",
        path,
        "",
    );
    Refusal::with_explanation(Fault::OpenToOthers, told)
}

/// A file whose first line has no password.
pub fn no_password_in(alloc: Global, path: &str) -> Refusal
    ensures { result.fault ≡ Fault.NoPassword }
{
    let told = about_word(
        alloc,
        "--password-file: the first line of ",
        path.as_bytes(),
        " is empty: write the manager's password there",
    );
    Refusal::with_explanation(Fault::NoPassword, told)
}
