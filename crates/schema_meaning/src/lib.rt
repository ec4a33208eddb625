//! Works out what a schema's descriptions say together: the numbers of their words, the rules in effect, the first
//! faulty lines.
//!
//! Names are resolved in any case, chains of SUP followed, rules and syntax in effect worked out, and the first line of
//! each kind of fault. Names are found in an index that is made once (`called`, `indexed`), repetitions by each name's
//! first line (`first_lines`). Where each SUP leads is looked up once (`inheriting`); what is in effect for a type is
//! made of what is in effect for its superior (`effects`).
//!
//! Proved: faults and what a type inherits are found as defined (`bad_line`, `unknown_line`, `Effects::of_type`).
#![tactic(auto)]

mod called;
mod effects;
mod faults;
mod first_lines;
mod indexed;
mod inheriting;
mod naming;
mod octets;
mod ordered;

pub use called::Called;
pub use effects::Effects;
pub use faults::{bad_line, earlier, unknown_line};
pub use indexed::IndexedText;
pub use inheriting::{Effect, Given};
pub use naming::{names, superior_of};
pub use schema_text::{
    Description, Family, Field, Keyword, Rule, SchemaText, Syntax, is_numericoid, read_text,
};
