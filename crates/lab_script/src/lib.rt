//! Reads lab scripts and has a lab play them.
//!
//! Reads a script's lines (`script`), and the updates and searches that they write (`updates`, `search_texts`), and has
//! a lab play them.
//!
//! Proved: a script shows what a lab shows of the schedule that its lines name; the first line that isn't in the
//! language refuses it, by number (`play`, `read_first`, `read_line`). An update or a search is read as the one that
//! the text writes, and refused only where it writes none (`read_update`, `read_search`, `one_update`, `one_search`).
#![tactic(auto)]

mod adds;
mod cuts;
mod cutting;
mod fault;
mod kinds;
mod laws;
mod messages;
mod playing;
mod requests;
mod script;
mod search_texts;
mod searches;
mod text_fault;
mod token;
mod updates;

pub use dir_lab::{LabReply, ReplyBy, SearchAnswer, Status};
pub use fault::{LineError, ScriptError};
pub use laws::{one_search, one_update};
pub use playing::play;
pub use script::{read_first, read_line};
pub use search_texts::read_search;
pub use text_fault::TextError;
pub use updates::read_update;
