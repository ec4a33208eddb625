//! Leaves out of messages what their receivers have: of the log in a DOVIEWCHANGE or a STARTVIEW those first records
//! that sender and receiver both have committed. So a view change sends what differs, and the messages of the protocol
//! stay as they are.
//!
//! Messages without the records that their receiver has. The sender's thread shortens a message by what its receiver
//! has said that it has committed (`noted`), and sends a note before it that says how many records are left out
//! (`notes`). The receiver puts its own first records there, where it has committed as many (`fill`); else the message
//! is lost, as the network may lose it. A note before a STARTVIEWCHANGE says how many records its sender has committed.
//!
//! Proved: what is filled is the message that was sent, for every schedule, sender and receiver (`filled_is_sent`),
//! also when it was read from a frame (`read_is_sent`); a note is read as what was noted (`notes_are_read`), and taken
//! with its own message, also where others are lost behind theirs (`notes_are_paired`). A message is shortened by no
//! more records than its sender has committed and has, and filled only where the receiver has committed as many
//! (`noted`, `fill`).
#![tactic(auto)]

mod filling;
mod laws;
mod notes;
mod noting;
mod shortening;

pub use filling::fill;
pub use laws::{filled_is_sent, notes_are_paired, notes_are_read, read_is_sent};
pub use notes::{NOTE_REST, note, note_number, note_sender};
pub use noting::noted;
