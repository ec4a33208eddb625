//! Keeps the tree of entries together with its posting lists, and lends both to searches. An update
//! is judged before it comes here.
//!
//! The tree and the posting lists of its entries, which change together (`indexed`, by the steps of `listing`). That
//! the lists are those of the entries is the type's invariant. `added`, `deleted`, `replaced` and `renamed` take the
//! tree and may change in place what it alone owns; `replaced_in` leaves lists of other types than it is told unread.
//! `add`, `delete`, `replace` and `rename` change a second owner so, and assign it last. Plans ask this type: lists come
//! from the index, whether an entry is in a range from the entry's own keys. `finding` has a name's entry, without
//! memory, or the reply where there is none; `held` is an entry with its name. `reading` is what searches are lent: a
//! schema, and a tree whose keys are those of the schema.
//!
//! Proved: an add, a delete, a change of attributes and a rename change tree and lists, or, without memory, neither;
//! of a tree that was taken nothing is left then (`IndexedTree`). A name's entry is found; where there is none, the
//! reply names the nearest entry above (`Reading::find`, `not_found`).
#![tactic(auto)]

mod finding;
mod held;
mod indexed;
mod listing;
mod reading;

pub use dir_index::{
    Attribute, Entry, EntryError, IndexError, Indexes, Name, NameError, NumberSet, Postings, Rdn,
    Schema, Truth, TypeAndValue, TypeId, are_same, copy_values, is_of_syntax, print_before,
    print_behind, print_from_leaf,
};
pub use directory_api::{
    AddRequest, AttributeValueAssertion, Client, CompareRequest, DerefAliases, Directory, Ended,
    Found, FoundEntry, Gate, Look, LookError, Op, PartialAttribute, Reply, ResultCode, Role, Scope,
    SearchAnswer, SearchRequest, SearchResultEntry, SharedEntry, Shows, Tree, TypesAhead, Update,
    Visit, Wanted,
};
pub use finding::{entry_of, is_front, is_same, is_taken, not_found, standing};
pub use held::StoredEntry;
pub use indexed::IndexedTree;
pub use reading::Reading;
