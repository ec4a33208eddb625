//! Reads named files whole.

use crate::reasons::{open_to_others, read_refusal};
use crate::refusal::Refusal;
use std::alloc::Global;
use std::fs;
use std::io::ErrorKind;
use std::os::unix::fs::PermissionsExt;
use std::rt::Files;

/// Reads named files whole.
pub trait ReadFiles {
    /// The octets of a file; `cannot read` where it can't be opened or read.
    fn read_octets(&self, alloc: Global, path: &str) -> Result<Vec<u8>, Refusal>;

    /// The text of a file; `cannot read` where it can't be opened or read, or isn't UTF-8.
    fn read_text(&self, alloc: Global, path: &str) -> Result<String, Refusal>;

    /// The same of a file that keeps a secret; it is refused where others than its owner may read it.
    fn read_secret(&self, alloc: Global, path: &str) -> Result<String, Refusal>;
}

/// Whether a file of this mode may be read by others than its owner.
fn is_open_to_others(mode: u32) -> bool {
    mode & 0o044 != 0
}

/// The system's files.
#[derive(Drop)]
pub struct SystemFiles<'a, R>(pub &'a R);

impl<R: Files + AllocGlobal> ReadFiles for SystemFiles<'_, R> {
    fn read_octets(&self, alloc: Global, path: &str) -> Result<Vec<u8>, Refusal> {
        match fs::read(self.0, path) {
            Ok(octets) => Ok(octets),
            Err(error) => Err(read_refusal(alloc, path, error.kind())),
        }
    }

    fn read_text(&self, alloc: Global, path: &str) -> Result<String, Refusal> {
        match fs::read_to_string(self.0, path) {
            Ok(text) => Ok(text),
            Err(error) => Err(read_refusal(alloc, path, error.kind())),
        }
    }

    fn read_secret(&self, alloc: Global, path: &str) -> Result<String, Refusal> {
        match fs::metadata(self.0, path) {
            Ok(metadata) => {
                if metadata.is_dir() {
                    return Err(read_refusal(alloc, path, ErrorKind::IsADirectory));
                }
                if is_open_to_others(metadata.permissions().mode()) {
                    return Err(open_to_others(alloc, path));
                }
            }
            Err(error) => return Err(read_refusal(alloc, path, error.kind())),
        }
        self.read_text(alloc, path)
    }
}
