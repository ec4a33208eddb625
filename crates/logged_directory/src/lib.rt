//! A directory whose answers are counted, and of which updates and slow searches are logged (`logged`). Each
//! request goes on to the directory that it wraps, and the answer comes back as it is. `logging` has the lines.
//!
//! Proved: it answers as the directory that it wraps (`Logged`).
#![tactic(auto)]

mod logged;
mod logging;

pub use logged::Logged;
pub use text_faults::one_line;
