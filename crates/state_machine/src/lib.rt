//! Executes the records of a replica's log: keeps the directory after them, and the reply to each.
//! Which records are committed is decided above.
//!
//! Applies the records of a log that come next to a store, and keeps the reply to each. Up to 1,024 records make one
//! version of the directory: those between are changed where they stand. Where memory runs out for so many, they are
//! executed one by one.
//!
//! Proved: the store and the replies are those after the records up to a commit number (`Executed::advance`).
#![tactic(auto)]

mod coming;
mod executed;

pub use coming::due;
pub use dir_store::{Indexes, Name, Op, Reply, Schema, SharedEntry, Store, Update};
pub use executed::Executed;
