//! The program's commands, over any files, input and outputs: each gives an exit status, or what a replica is to serve.
//!
//! What the commands do. `running` is one run over any files, input and outputs, which ends or asks for a replica to be
//! served (`service`). `files` and `opening` read the schema's and the index choice's files; `explaining`, `reasons`
//! and `refusal` say why a run is refused. `local` runs a session over lines, over the six entries of `sample` or none.
//! `texts` has the jobs on whole texts, `checking` and `cost` check a text and show a search's cost, `lab` plays
//! scripts, and `replies` writes what they show.
//!
//! Proved, where the octets of input and output are known: `dird answer` writes exactly the lines of such a session
//! over a local directory (`answer_session`). `dird search`, `import` and `export` write what the crates above say of
//! the input (`search_input`, `import_input`, `export_input`), and `dird lab` all that a lab shows of a script
//! (`play_script`); `check_file` tells by its status whether a record is refused. Refused, these have written nothing,
//! unless the output can't be written, and the cause is in what they read. Of `dird answer` it is said what was written
//! by then.
#![tactic(auto)]

mod checking;
mod cost;
mod explaining;
mod fault;
mod files;
mod lab;
mod local;
mod opening;
mod reasons;
mod refusal;
mod replies;
mod running;
mod sample;
mod service;
mod status;
mod texts;

pub use command_line::{Peer, Serving};
pub use fault::Fault;
pub use files::{ReadFiles, SystemFiles};
pub use local_directory::{Indexes, Name, Schema};
pub use refusal::Refusal;
pub use running::{RunOutcome, run};
pub use service::Service;
pub use status::ExitStatus;
