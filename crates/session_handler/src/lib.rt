//! Answers one message of a session by a directory that it is given: the octets of the responses,
//! and the session's state after it.
//!
//! What a session makes of one message when it asks a directory. `hearing` finds what is due. A request that waits for
//! its answer is one value with the session's terms (`task`), which asks the directory (`taking`), for updates too
//! (`updating`); `responses` has the answers, which stand in one row of octets (`rows`).
//!
//! Proved, with the two crates above: a message's checks in their order, its controls, its one question to the
//! directory after the role, and the written responses (`judge`, `bind`, `take`, `role_is_first`). Talks of messages
//! join to that of a session (`sessions_join`), whose reads never go back (`reads_rise`). Only what `may_update` says
//! of beforehand asks for an update (`others_do_not_update`).
#![tactic(auto)]

mod answered;
mod config;
mod hearing;
mod laws;
mod pending;
mod responses;
mod rows;
mod state;
mod taking;
mod task;
mod updating;
mod waiting;

pub use answered::{Answered, Next};
pub use config::Config;
pub use directory_api::{
    Client, CompareRequest, Directory, Ended, Found, Gate, Look, LookError, Reply, Role,
    SearchAnswer, SearchRequest, Update,
};
pub use laws::{others_do_not_update, reads_rise, role_is_first, sessions_join};
pub use request_checks::{AnswerError, Name, Schema};
pub use responses::disconnect;
pub use rows::Responses;
pub use state::State;
pub use taking::take;
pub use waiting::may_update;
