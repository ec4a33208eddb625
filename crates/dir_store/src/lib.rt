//! Applies updates to the directory: judges each by its checks in order, changes the entries, and
//! gives the reply. What an update asks of attributes is judged in `entry_updates`.
//!
//! The directory that updates change: a schema and a tree with its lists. A module for each update (`adding`,
//! `deleting`, `modifying`, `renaming`, over `names` and `finding`) gives what is to change or the reply that refuses
//! it, and changes nothing. Then `store` changes tree and lists in one call. A store is a value; `share` gives a second
//! owner. `Store::applied` takes the store and may change in place what no other owner has; `Store::apply` begins with a
//! second owner, so that an error changes nothing. `Updates` lists each update's checks in order, `Placed` the reply at
//! each place of a list of updates.
//!
//! Proved: each update gives the directory and the reply of its definition, its checks in order: 34, 32, 53, 66, 68,
//! then what is asked of attributes. A refusal or want of memory changes nothing, and no update the index choice
//! (`Store::apply`; `Store::applied`, which leaves nothing out of memory). Searches are lent just what the store is
//! (`Store::reading`).
#![tactic(auto)]

mod adding;
mod deleting;
mod fault;
mod finding;
mod laws;
mod modifying;
mod names;
mod renaming;
mod store;

pub use entry_updates::{LogEntry, Op, Update};
pub use indexed_tree::{Indexes, Name, Reading, Reply, Schema, SharedEntry, Tree};
pub use laws::{entries_rise, replies_are_placed, updates_join};
pub use store::{Applied, Store};
