//! Makes the entry after an add, a modify or a modifyDN from what it asks of attributes, or refuses it with a code.
//!
//! An update's changes are made one after the other (`adding`, `modifying`, `renaming`). `finishing` has the checks at
//! its end: the entry gets the superclasses that are missing (`classes`, `completing`) and is judged by what its
//! classes demand (`obeying`) and by its structural class (`structural`); `checking` says how it is kept. `touching`
//! has what a modify may touch. `dir_store` brings it together with the tree.
//!
//! Proved: what each update asks is its definition, check by check (also 2, 17 and 67). At the end the entry has its
//! name's values, structural class and classes' demands; the old entry is unchanged (`entry_asked`, `entry_changed`,
//! `entry_renamed`). A new entry has its superclasses and obeys its classes, or is refused (`settle`: 19, 65). A
//! changed one keeps its structural class too (`keep`: 19, 69, 65).
#![tactic(auto)]

mod adding;
mod checking;
mod classes;
mod completing;
mod fault;
mod finishing;
mod modifying;
mod obeying;
mod renaming;
mod structural;
mod touching;

pub use adding::entry_asked;
pub use checking::{check, keep, settle, with_superclasses};
pub use dir_entry::tests_are_items;
pub use fault::UpdateError;
pub use ldap_op::{
    AddRequest, Change, LogEntry, ModifyDnRequest, ModifyRequest, Op, PartialAttribute, ResultCode,
    Update,
};
pub use modifying::entry_changed;
pub use renaming::entry_renamed;
pub use touching::{TouchedAttributes, touched_attributes};
