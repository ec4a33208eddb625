//! A directory of one server alone, in memory, that sessions read and update. It also searches and checks a text of
//! LDIF, and serves a session over lines of hex.
//!
//! A directory of one server alone is a `Store`, the number of its last update, and each client's latest request with
//! its reply, looked up by client. Room for the reply is made before the update. It is the directory of a text of LDIF,
//! too: `adding` adds the records up to the first that is refused, `searching` writes what a search shows, `checking`
//! lists all refused records.
//!
//! In a session over lines of hex, each line of the input is a piece of a client's stream, each response a line of the
//! output (`lines`, `answering`); `Answered` says what a line that is no hex does.
//!
//! Proved: reads are at a number, updates are made once for each client's request, and the directory is the fold of the
//! updates (`LocalDirectory`, `directory_is_fold`, `requests_are_made_once`). A search of a text writes the LDIF of the
//! answer, or tells what is wrong first (`search_text`). `check_text` tells just the refused records. Over lines of hex
//! the output grows by exactly the lines of the responses to the stream that the lines spell. Before a line that is no
//! hex or can't be read, all messages are answered. Where the output can't be written, or memory ends, a front of the
//! lines is written (`answer_lines` `ok`, `err`).
#![tactic(auto)]

mod adding;
mod answering;
mod checking;
mod client_table;
mod ending;
mod fault;
mod kept;
mod laws;
mod line;
mod line_fault;
mod lines;
mod local;
mod making;
mod refused_record;
mod searching;

pub use answering::answer_lines;
pub use checking::{Checked, check_text};
pub use dir_search::{
    AddRequest, CompareRequest, DerefAliases, IndexError, Indexes, Name, NameError, Op, Reply,
    Schema, Scope, SearchAnswer, SearchRequest, Update,
};
pub use dir_store::Store;
pub use fault::SearchError;
pub use laws::{directory_is_fold, requests_are_made_once};
pub use ldap_session::{Config, SessionEnd};
pub use ldif::{Attribute, ExportError, ImportError, export_text, import_text};
pub use line_fault::LineFault;
pub use lines::next_line;
pub use local::LocalDirectory;
pub use refused_record::RefusedRecord;
pub use searching::{Cost, fill, search_cost, search_text};
