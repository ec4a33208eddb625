//! Posting lists: for each index the numbers of the entries that it lists, in rising order. They are told of entries
//! before and after an update, and asked for lists of numbers. A change makes new lists that share most of the old
//! ones, or takes the lists: a number then joins a list in place where the list has no other owner. A list that a number
//! leaves is made anew, as far as it differs.
//!
//! The posting lists of a directory's entries: one `SharedMap` from posting to set of numbers, in which the keys of a
//! type are neighbours (`list_order`). In a change the number leaves the lists that list the entry before and not
//! after, and joins those that list it after and not before (`lists`). Where an entry comes or goes, all its
//! postings are computed as a set (`marks`). Where its attributes change (`moves`), only postings that may differ are
//! looked at: those of types that one side lacks, and of keys that the two sides don't have in common at the front or
//! at the end (`apart`, `key_changes`). Each of them is looked for on both sides (`membership`). A change that says which
//! types it touches leaves the keys of all others unread, and of a type of which it names values it marks these values'
//! keys without a comparison (`touched`). A range is a walk from its first key to its last (`ranges`). Plans ask the
//! trait `PostingLists`.
//!
//! Proved: the lists of presence, equality, order and runs of three octets are those of the entries, after each change;
//! out of memory, nothing has changed (`Postings::add`, `remove`, `replace`, `push_range`), or nothing is left of lists
//! that were taken (`added`, `removed`, `replaced`, `replaced_in`).
#![tactic(auto)]

mod apart;
mod choice;
mod kept;
mod key_changes;
mod laws;
mod list_key;
mod list_order;
mod lists;
mod marks;
mod membership;
mod moves;
mod ordering;
mod posting;
mod postings;
mod ranges;
mod touched;

pub use index_choice::{
    Attribute, Entry, EntryError, IndexError, Indexes, Name, NameError, NumberSet, NumberWalk, Rdn,
    Schema, Truth, TypeAndValue, TypeId, are_same, copy_values, is_of_syntax, print_before,
    print_behind, print_from_leaf,
};
pub use kept::PostingLists;
pub use laws::may_cross;
pub use posting::{Posting, Range};
pub use postings::Postings;
pub use ranges::has_in_range;
