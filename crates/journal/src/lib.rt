//! A journal: strings of octets on a device. One write and one sync settle a batch of them; after a crash each is found
//! whole or not at all, by counting, with no checksum to trust. What a string means is said by the crate above.
//!
//! Keeps strings of octets on a device. A batch is settled by one write and one sync over zeros that were settled
//! before. So a count of octets that aren't zero tells a torn frame (`frames`, `journal`; docs/FORMATS.md). A
//! `StringReader` reads the strings one by one from a window of the device's octets, and clears what a crash left
//! behind them (`scanning`, `zeroing`). A full device grows: zeros join its end and are settled before anything is
//! written over them (`reserving`). `memory` is a device for tests, `crashing` what a crash leaves of it, `opening`
//! reads all strings at once, for comparison.
//!
//! Proved, where a crash leaves each unsynced octet old or new: a crash in an append leaves the former strings and some
//! first of the new ones, after Ok all (`Journal::append`). A crash in reading, clearing or growing leaves the strings
//! (`StringReader::advance`, `StringReader::clear`, `Journal::reserve`).
#![tactic(auto)]

mod beginning;
mod crashing;
mod device;
mod fault;
mod frames;
mod journal;
mod laws;
mod memory;
mod memory_device;
mod opening;
mod reader;
mod record;
mod reserving;
mod scanning;
mod splicing;
mod zeroing;

pub use crashing::Fate;
pub use device::{Device, DeviceFailure};
pub use fault::{GrowthError, JournalError};
pub use frames::{FRAME_HEADER, next_string, nonzeros, put_string};
pub use journal::Journal;
pub use laws::frames_are_read;
pub use memory::MemoryDevice;
pub use opening::{DeviceContents, open, read_strings};
pub use reader::StringReader;
pub use record::Fault;
