//! How an attribute keeps its values, with the key and the texts of each.
//!
//! One value stands in place, few in lists, and many in parts (`kept` over `part_list`, `kept_part` and `lists`), so that
//! a change copies one part (`without`) and a look-up compares digests (`digest`). Callers read all of them in parts
//! (`part`, `parts`).
//!
//! Proved: what is kept is the values, keys and texts that were given, in order, whichever way they are kept; values that
//! are looked for or taken out are those with the same octets (`StoredValues`, `Parts`).
#![tactic(auto)]

mod digest;
mod kept;
mod kept_part;
mod lists;
mod part;
mod part_list;
mod parts;
mod without;

pub use digest::SoughtOctets;
pub use kept::StoredValues;
pub use lists::Lists;
pub use part::Part;
pub use parts::Parts;
pub use without::sought;
