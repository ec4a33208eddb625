//! Reads a schema from a text, or names the first thing that is wrong with it and its line; the built-in schema is read
//! so too.
//!
//! In `read_schema`, `described` makes types and classes, `judging` names what is wrong first. `type_loops` looks for
//! loops by taking SUPs twice as many at a time. `class_loops` walks up once (`ranking`) and tests that ranks never
//! rise on a way up. Where they fall at once, no way leads back; the first other class is searched. The built-in schema
//! is a text that is read as any other (`built_in`).
//!
//! Proved: a text is read as the schema that it means, or refused as E12, E13, E14 or E15 with the first line that the
//! order names (`read_schema`). The meaning of the built-in text is the table (`built_in_schema`,
//! `built_in_is_its_text`).
#![tactic(auto)]

mod built_in;
mod class_loops;
mod described;
mod error;
mod judging;
mod looping;
mod ranking;
mod reading;
mod type_loops;

pub use error::SchemaError;
pub use reading::{built_in_is_its_text, built_in_schema, read_schema};
