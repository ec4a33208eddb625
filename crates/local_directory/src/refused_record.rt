//! LDIF and the directory: a record that a directory refuses, as plain data.

/// A record that a directory refuses: its number, counted from 1, and the result code of its add.
#[derive(Clone, Copy, Debug, PartialEq, Eq)]
pub struct RefusedRecord {
    pub number: u64,
    pub code: u32,
}
