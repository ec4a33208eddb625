//! Reads and writes the notes of a replica's journal, and finds the log that they stand for. A note
//! has a fixed form with a sum that tells damage; which notes a step makes, and what they keep of a
//! replica, is defined in `vr_state`.
//!
//! What the strings say: notes of a replica's steps. `fields` spells and reads a note, with a sum that tells damage.
//! `steps` makes the notes of a step; of a log that is adopted it writes only what isn't `alike`. `taking` has a
//! replica take a batch of events, `keeping` settles their notes, `telling` takes them, the oldest first. `opening`
//! takes each as it is read from the device.
//!
//! Proved: whatever a crash leaves of a batch, the strings tell the replica after some first of its events
//! (`keep_events`). What strings tell is one thing (`read`, `tell`, `one_is_told`); a note's fields are read back
//! (`read_fields`, `fields_are_read`).
#![tactic(auto)]

mod alike;
mod batch;
mod copying;
mod error;
mod fields;
mod keeping;
mod laws;
mod light;
mod notes;
mod opening;
mod spelling;
mod steps;
mod taking;
mod telling;
mod told;

pub use alike::count_alike;
pub use batch::Batch;
pub use error::NoteError;
pub use fields::{Fields, read_fields, write_fields};
pub use journal::{
    Device, DeviceFailure, GrowthError, Journal, JournalError, MemoryDevice, StringReader,
};
pub use keeping::{keep_event, keep_events, settle};
pub use laws::{batches_are_told, fields_are_read, one_is_told, taken_is_told, told_goes_on};
pub use notes::{put_begin, put_commit, put_start};
pub use opening::{clear, read};
pub use steps::{Before, put_step};
pub use taking::take_events;
pub use telling::tell;
pub use told::Told;
pub use vr_recover::{recover, step};
