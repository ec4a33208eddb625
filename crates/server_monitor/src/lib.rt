//! Counts what a server answers, answers monitors over HTTP, and writes what a server says on standard error.
//!
//! `counters` counts what the threads of a server answer, `seconds` how long that took, and `start` says how far a
//! start is: all threads count, and none takes a lock for it. `process_files` and `resident` read what the system says
//! of the process and of the machine. `monitoring` answers monitors, with pages that it asks of a trait (`PageSource`);
//! `status_page` writes them.
//!
//! On standard error an event is a line: `Lines` wait in a queue with a limit, and one thread writes them (`Reporter`).
//! No other thread waits for it. `lines` has the queue, `notes` what each of its places stands for, and `logs` says which
//! events are logged. What the lines say is in the crates above.
//!
//! Proved: no line goes uncounted (`Lines`, `none_uncounted`). Of the rest, safety alone.
#![tactic(auto)]

mod counters;
mod laws;
mod lines;
mod logs;
mod monitoring;
mod notes;
mod process_files;
mod reporter;
mod resident;
mod seconds;
mod start;

pub use counters::{Counters, Others};
pub use laws::none_uncounted;
pub use lines::Lines;
pub use logs::Logs;
pub use monitoring::{Monitoring, Monitors, PageSource};
pub use notes::Note;
pub use process_files::{ProcessFiles, descriptor_limit};
pub use reporter::{NoteWriter, Reporter, StandardError, takes_a_line};
pub use resident::{GROUP_MEMORY, MACHINE_MEMORY, available_octets};
pub use start::StartProgress;
pub use status_page::{
    Build, Counts, Figures, Labelled, Method, Page, ProcessCounts, Role, Start, Trouble, page,
};
