//! The questions that a session asks of its directory, and the answers: searches, compares, updates, the replica's
//! role. Messages and octets are below; a directory alone, seats and gates answer, each in a crate of its own.
//!
//! What a session asks, and the answers as values. The trait `Directory` has searches, compares, the role, updates and
//! their count; a `Look` (reads) and a `Gate` (updates) are one as a pair. Directories answer in the words of the wire,
//! and a session asks whichever it is given.
//!
//! What a search shows of an entry that it found is a `FoundEntry` (`found`): the entry's printed name and an owner of
//! the stored entry's attributes, or attributes that were made (the root DSE has such). The response is written from
//! these, each octet copied once. `selection` has what the selectors of a search select, looked up once; an attribute
//! costs its type's chain of SUPs. `shows` holds that with the schema, once for all that a search finds, and lends the
//! attributes that are shown (`shown_attribute`). `shown_values` measures, writes and copies values where an entry
//! keeps them; `made_attribute` copies attributes that were made. Who writes many entries has some of them read ahead
//! (`reading_ahead`), so that the processor waits for memory once for all of these.
//!
//! Proved: along a talk with a pair each part goes along its own, and the gate's count rises by the talk's updates
//! (`pair_goes_along`, `pair_counts`). The attributes that the selectors select are shown, in their order, each by its
//! type's first name (`Shows`). A found entry is copied, and written as the message that shows it
//! (`FoundEntry::copied`, `put`).
#![tactic(auto)]

mod client;
mod directory;
mod found;
mod gate;
mod look;
mod made_attribute;
mod outcomes;
mod pair;
mod reading_ahead;
mod reply;
mod search_answer;
mod selection;
mod shown_attribute;
mod shown_values;
mod shows;

pub use client::{named_client, session_client};
pub use dir_tree::{SharedEntry, Tree, TypesAhead, Visit, Wanted};
pub use directory::Directory;
pub use found::FoundEntry;
pub use gate::{Ended, Gate, Role};
pub use ldap_msg::{
    AddRequest, Attribute, AttributeValueAssertion, CompareRequest, DerefAliases, PartialAttribute,
    ResultCode, Scope, SearchRequest, SearchResultEntry,
};
pub use ldap_op::{Client, Op, Update};
pub use look::Look;
pub use outcomes::{Found, LookError};
pub use pair::{pair_counts, pair_goes_along};
pub use reading_ahead::read_ahead;
pub use reply::Reply;
pub use search_answer::SearchAnswer;
pub use shows::Shows;
