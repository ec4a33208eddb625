//! The directory's tree: finds entries by number and by name, and the numbers of those right under a name or at or
//! below it. Each entry has its relative name and its superior's number. A tree is a value: a change makes new maps, or
//! takes the tree and changes in place what has no other owner.
//!
//! Entries by number: attributes, own relative name, superior's number (`place`); the root's entry keeps its name
//! whole. For each number with entries below it, `levels` has their relative names with their numbers, the numbers
//! right under it, and those at or below it. All are maps and sets of `shared_map`, so a tree is a value, and versions
//! share an entry behind a counted pointer (`shared`). A change (`updating`, over `roots`) takes the maps and gives
//! them changed. An add changes in place the entries, the relative names of its superior and the sets above it, a
//! change of attributes the entries; a rename makes new relative names and sets, a delete new maps. `add`, `delete`,
//! `replace` and `rename` leave the maps, and assign others last; out of memory nothing has changed.
//!
//! A look-up by name takes two look-ups a relative name, from the root down (`finding`). It digests the relative name
//! once and compares digests; a relative name that is kept is read only where its digest is equal (`digested_names`). A
//! name is read off by going up, without memory, or made where it is shown (`reading`). A `visit` reads many entries in
//! turn, with one look-up for those of a leaf; entries that come next are read some at a time, so that the processor
//! waits for memory once for all of them (`reading_ahead`). A scope is a set that lies ready. An add or a delete
//! changes the sets of each entry above by one number. A rename changes one place, two relative names, and the sets of
//! the entries above one of the two places alone. `reach` bounds every way up. Ways up end at the root, ways down are
//! those up, and the sets are those of the entries: that is the type's invariant (`Superiors`, `Kept`).
//!
//! Proved: each look-up and scope is that of the list of entries (`Tree::find`, `entry`, `name`, `front`, `children`,
//! `subtree`). An entry is added, taken out, changed, or moved with all below it, or nothing changes (`add`, `delete`,
//! `replace`, `rename`); of a tree that was taken nothing is left then (`added`, `deleted`, `replaced`, `renamed`). A
//! second owner has the same tree (`share`). Entries are at or below the root, and a name has one or none
//! (`is_directory`, `is_within`, `is_rooted`, `is_single`).
#![tactic(auto)]

mod digested_names;
mod finding;
mod levels;
mod number_sets;
mod place;
mod reach;
mod reading;
mod reading_ahead;
mod roots;
mod shared;
mod shared_names;
mod suffix;
mod tree;
mod updating;
mod visit;

pub use dir_entry::{
    Attribute, Entry, EntryError, Name, NameError, NumberSet, NumberWalk, Octets, Rdn, Schema,
    Shared, Truth, TypeAndValue, TypeId, are_same, copy_values, is_of_syntax, number_of_digits,
    print_before, print_behind, print_from_leaf,
};
pub use reading_ahead::{TypesAhead, Wanted};
pub use shared::SharedEntry;
pub use tree::Tree;
pub use visit::Visit;
