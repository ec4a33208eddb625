//! Reads, writes and copies an update by itself, as a log keeps it.
//!
//! `Op` is a value whose equality is that of its content; a copy shares its memory. It keeps the octets of the
//! operation, which are read when the update is looked at, and copied as they are when it is sent.
//!
//! Proved: an update is read exactly where there is one and written in its one form (`read_op`, `write_op`, `one_op`,
//! `is_op`). What is looked at is the update (`Op::look`), and its octets are those (`Op::octets`). A copy is equal
//! (`Op::copy`).
#![tactic(auto)]

mod held;
mod laws;
mod looked;
mod op;
mod reading;
mod spelling;
mod update;
mod writing;

pub use laws::{is_op, one_op};
pub use ldap_parts::{
    AddRequest, Change, ModifyDnRequest, ModifyOperation, ModifyRequest, MsgFault,
    PartialAttribute, ResultCode, WriteError,
};
pub use log_entry::words::{Client, LogEntry};
pub use looked::Looked;
pub use op::Op;
pub use reading::read_op;
pub use update::Update;
pub use writing::write_op;
