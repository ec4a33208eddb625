//! Reads and writes LDIF (RFC 2849) of entries; makes AddRequests of records, and records of what a search shows.
//!
//! Entries as text (RFC 2849). `lines` has the unfolded lines with their numbers, `saying` what one line says,
//! `describing` which descriptions may be a line's type. `reading_state` and `reading` make the records; `record`,
//! `writing` and `written_value` write them. The definitions go the same way (`Lines`, `Says`, `Reading`, then
//! `Content` and `Written`). Lines are defined from the text's end and read from its beginning; `Folding` ties the two.
//! `placing` finds the lines of the records that were read. Base64 is the kit's `base64`.
//!
//! `importing` and `exporting` take whole texts to messages and back. `adding` has the add of a record, one attribute
//! for each type at the place of its first line; `asking` makes the lines of adds. `hex_lines` reads lines of hex,
//! `judging` says what each message is among a search's responses (`Meant`), `ending` what is wrong first, `showing` an
//! entry's record.
//!
//! Proved: records and their text are each other's, by the grammar of lines; E19 has the first wrong line and its cause
//! (`write`, `read`, `records_are_of_text`, `written_is_read_back`). An import is the adds of the records, with ids
//! from 1, and an export the LDIF of the responses' entries. The first refusal in order is given (`import_text`,
//! `export_text`).
#![tactic(auto)]

mod adding;
mod asking;
mod describing;
mod ending;
mod exporting;
mod fault;
mod hex_lines;
mod importing;
mod judging;
mod lines;
mod meant;
mod placing;
mod reading;
mod reading_state;
mod record;
mod refusals;
mod saying;
mod showing;
mod writing;
mod written_value;

pub use adding::add_of;
pub use describing::is_type;
pub use exporting::export_text;
pub use fault::{LdifCause, LdifError};
pub use importing::import_text;
pub use ldap_msg::{
    Attribute, DerefAliases, Message, MsgFault, ProtocolOp, Request, Scope, SearchRequest, decode,
    one_message,
};
pub use lines::{line_parts, without_return};
pub use placing::{line_at, record_lines};
pub use reading::{read, records_are_of_text, written_is_read_back};
pub use record::{AttributeValue, Record};
pub use refusals::{ExportError, ImportError};
pub use showing::{record_of, records_of};
pub use writing::write;
