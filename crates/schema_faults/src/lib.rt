//! Explains why a line of a schema or of an index choice is refused: what is wrong there, and what was expected.
//!
//! What is refused is decided by others; here it is put into words, in `schemas` (by `descriptions`, `repeats`,
//! `rules`, `unknown`, `loops`) and `indexes`. `descriptions` finds where a line stops being a description (`pieces`,
//! `forms`). Where the cause isn't found, the sentence says less.
//!
//! Proved: the sentence is its definition for the line of a schema (`schema_fault`) and of an index choice
//! (`index_fault`). For a class whose SUP leads back to it the sentence is one of a way that leads back, where there is
//! one.
#![tactic(auto)]

mod descriptions;
mod forms;
mod indexes;
mod loops;
mod pieces;
mod refusal;
mod repeats;
mod rules;
mod schemas;
mod unknown;

pub use indexes::index_fault;
pub use refusal::{IndexRefusal, SchemaRefusal};
pub use schemas::schema_fault;
