//! Explains why LDIF, a record of it or a line of hex is refused: which line, and what is wrong there.
//!
//! The reader of LDIF knows the line and the cause; `causes` puts them into words. `records` does so for a record whose
//! add a directory refuses, by its result code: `values` finds the value that the code is given for, `classes` the rule
//! of the entry's classes. Both go over the record as it was read, with its lines (`placed`). `hex_lines` is for lines
//! of hex.
//!
//! Proved: each sentence is its definition, with its line (`ldif_fault`, `RecordFaults::fault`, `hex_line_fault`).
//! Where the value or the rule isn't found, the sentence is the result code's.
#![tactic(auto)]

mod causes;
mod classes;
mod hex_lines;
mod placed;
mod records;
mod values;

pub use causes::ldif_fault;
pub use hex_lines::hex_line_fault;
pub use placed::Placed;
pub use records::RecordFaults;
