//! Changes an entry's values, or refuses the change.
//!
//! An entry while it is modified (`working`): the changes of an attribute (`changing` over `placing`) and what a
//! relative name asks (`naming`). An attribute whose values are changed one by one is `opened`. The first changes
//! look for few values among all (`searched`). Later ones ask an `index`, which maps keys to the place `since` which they
//! are held, and what they delete keeps its place until the modify is over: a change then costs a look-up for each
//! value that it names, whatever the attribute holds.
//!
//! Proved: changes of values and of a relative name's values are their definitions, or give the code of the first
//! failing check: 16, 19, 20, 21 (`Working`, `add_values`, `delete_values`, `replace_values`, `add_rdn`, `delete_rdn`,
//! `holds_rdn`).
#![tactic(auto)]

mod changing;
mod index;
mod naming;
mod opened;
mod placing;
mod searched;
mod since;
mod working;

pub use changing::{add_values, delete_values, replace_values};
pub use dir_entry::{Entry, EntryError, Schema, TypeAndValue, TypeId, copy_values};
pub use naming::{add_rdn, delete_rdn, holds_rdn};
pub use working::Working;
