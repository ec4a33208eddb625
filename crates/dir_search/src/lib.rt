//! Answers searches and compares of a directory: the result code and the entries that are shown.
//!
//! Answers a search of what it is lent (`searching`); `reading` answers one that names an update, over a directory at a
//! number. A bound search (`bound_search`) takes its scope from the tree (`scoping`), compiles the filter, and runs the
//! plans. `values` gives and counts the filter's values that plans leave open; `names_at` reads entries' names off the
//! tree. `showing` takes what is found, up to the first entry past the size limit: each entry's printed name and a
//! second owner of its attributes (`selecting`), both read off the tree by an `entry_reader`. `root_dse` has what the
//! empty name alone shows, `comparing` a compare.
//!
//! Proved: a search gives exactly the entries in scope whose filter value is True, in order of number, each once, with
//! the selected attributes, up to the size limit. Else it gives the root DSE, or the code of the definition (`search`
//! `answer`). It evaluates on the entries that the plans leave open: none where indexes decide the filter, for an `and`
//! at most those of a decided part (`counted`, `tests`, `few`). A compare is its definition (`compare`).
#![tactic(auto)]

mod asked_types;
mod bound_search;
mod comparing;
mod entry_reader;
mod names_at;
mod reading;
mod refusing;
mod root_dse;
mod scoping;
mod searching;
mod selecting;
mod showing;
mod values;

pub use comparing::compare;
pub use indexed_tree::{
    AddRequest, Client, CompareRequest, DerefAliases, Directory, Ended, Found, FoundEntry, Gate,
    IndexError, Indexes, Look, LookError, Name, NameError, Op, Reading, Reply, ResultCode, Role,
    Schema, Scope, SearchAnswer, SearchRequest, SearchResultEntry, Update, are_same,
};
pub use reading::{compare_at, search_at};
pub use searching::search;
