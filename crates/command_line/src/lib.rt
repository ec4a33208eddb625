//! Reads the command line: a command with its settings, or a text for the user.
//!
//! Reads the program's words by `clap`. A command is a row of data with a row for each of its words (`rows`); `words`
//! has all commands but `serve`, which has its own (`serving`). No clause but safety.
#![tactic(auto)]

mod build;
mod logs;
mod places;
mod rows;
mod serving;
mod words;

pub use build::{BUILD, Build};
pub use clap::Error;
pub use ldap_requests::Scope;
pub use logs::Logs;
pub use places::{Address, Peer};
pub use serving::{Password, Serving, Settings, Times};
pub use words::{Checking, Ground, Job, Opening, Question, read_words};
