//! Compiles a filter into two plans over posting lists, and gives the numbers of the entries in
//! scope where it is True. No set is made as a list, but for the numbers of a range that candidates
//! are drawn from.
//!
//! A plan is a set of numbers: a posting list, a range, the scope, or a union, intersection or difference of plans.
//! `compiling` goes over a bound filter once and makes two plans, what must be and what may be. `leaves` knows which
//! index serves which test; `octet_runs` chooses which runs of three octets a plan asks a substrings assertion's
//! candidates for. The one law between a plan's numbers and its entries is `agreeing`. `joining` adds to an
//! intersection with two bounds on one type the range between them, or the entries with several values of the type.
//! That changes no set, and a run draws from it.
//!
//! `contains` asks about one number by look-ups. `candidates` draws numbers from walks (`gathering`, `walking`), which
//! `Stream` makes into one rising list. A range that is drawn from is gathered once and sorted; no other set becomes a
//! list. What is drawn from is a matter of cost alone (`estimating`): the cheapest part of an intersection, or the
//! scope (`scope`).
//!
//! A run (`running`) looks up the posting lists of both plans when it starts, and not again for each candidate
//! (`resolved`). Since candidates rise, it asks each list by a walk that only goes forward (`probing`). It leaves out
//! what isn't in scope, gives what must be, and asks `Values` about the rest (`telling`). The lists that an
//! intersection goes over are read ahead (`reading_ahead`). Where both plans are one `or` of posting lists, all lists
//! are looked up together, once, and nothing is asked (`listing`); the entries that come first are told beforehand
//! (`Values::expect`).
//!
//! Proved: the plans bound where the filter is True, over any entries and scope, and are its true set where schema and
//! index choice decide it. What an `and` may be lies in each part that they decide and holds its substrings' runs
//! (`compile`). A run gives the numbers in scope whose value is True, in order, without memory. It asks for only the
//! values that the plans leave open (`start`, `PlanRun::next`, `tests`, `run`; `contains`, `candidates`).
#![tactic(auto)]

mod agreeing;
mod compiling;
mod containing;
mod estimating;
mod gathering;
mod having;
mod joining;
mod leaves;
mod listing;
mod octet_runs;
mod plan;
mod probing;
mod reading_ahead;
mod resolved;
mod running;
mod scope;
mod stream;
mod telling;
mod values;
mod walking;

pub use agreeing::sets_are_of_entries;
pub use compiling::compile;
pub use containing::contains;
pub use dir_index::{Indexes, NumberSet, Posting, PostingLists, Range, Truth};
pub use gathering::candidates;
pub use having::has;
pub use ldap_eval::{
    BoundFilter, Filter, Key, Leaf, NamePairs, Test, TypeId, bind, tests_are_items, value,
};
pub use plan::{Plan, Sided};
pub use running::{PlanRun, Ran, run, start};
pub use scope::Scope;
pub use stream::Stream;
pub use values::Values;
