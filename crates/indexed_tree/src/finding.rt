//! Finds entries by name, or replies that there is none.
ghost use Rattle.std.specs.Prelude.{◌≡◌, ◌≤◌, [], length, IfOk, is_some, take, string_bytes};
ghost use Rattle.std.specs.Option.{option_map, option_map_or};
ghost use Rattle.dir_index.specs.ldap_dn.Names.{rdns};
ghost use Rattle.dir_index.specs.ldap_dn.Printed.{printed_name};
ghost use Rattle.directory_api.specs.dir_tree.Directory.{name_eq, begins, find, front};
ghost use Rattle.indexed_tree.specs.Places.{nearest as nearest_entry};
ghost use Rattle.indexed_tree.specs.Replies.{not_found as not_found_reply};
ghost use Rattle.indexed_tree.specs.Stored.{directory, entered_of};
ghost use Rattle.directory_api.specs.View.{reply_view};

use crate::held::StoredEntry;
use dir_index::{Rdn, Schema};
use directory_api::{Reply, ResultCode, SharedEntry, Tree};
use std::alloc::{AllocError, Global};

/// The number of a name's entry, and its attributes. It takes no memory.
pub fn entry_of<'a>(tree: &'a Tree, name: &[Rdn]) -> Option<(u64, &'a SharedEntry)>
    ensures number { option_map (λ p. p.0) result ≡ option_map (λ e. e.number) (find (rdns name.now) tree.now.entries) }
    ensures entry { option_map (λ p. p.1.now) result ≡ option_map (λ e. e.entry)
        (find (rdns name.now) tree.now.entries) }
{
    tree.is_directory();
    match tree.find(name) {
        None => None,
        Some(number) => match tree.entry(number) {
            None => None,
            Some(entry) => Some((number, entry)),
        },
    }
}

/// The number of a name's entry, and the entry with its name as it is spelled.
pub fn standing<'a>(
    alloc: Global,
    tree: &'a Tree,
    name: &[Rdn],
) -> Result<Option<(u64, StoredEntry<'a>)>, AllocError>
    ensures { IfOk result (λ o. option_map (λ p. entered_of p.0 p.1) o ≡ find (rdns name.now) tree.now.entries) }
{
    tree.is_directory();
    match entry_of(tree, name) {
        None => Ok(None),
        Some((number, entry)) => match tree.name(alloc, number)? {
            None => Ok(None),
            Some(name) => Ok(Some((number, StoredEntry { name, entry }))),
        },
    }
}

/// The length of the longest front of a name that is an entry's name.
#[tactic(auto, using(crate::proofs::Lookups::front_bound))]
fn front_length(tree: &Tree, name: &[Rdn]) -> usize
    ensures length { result ≡ front (rdns name.now) tree.now.entries }
    ensures bound { result ≤ length name.now }
{
    tree.front(name)
}

/// The longest front of a name that is an entry's name.
fn front_of<'a>(tree: &Tree, name: &'a [Rdn]) -> &'a [Rdn]
    ensures { result.now ≡ take (front (rdns name.now) tree.now.entries) name.now }
{
    &name[..front_length(tree, name)]
}

/// The printed name of the entry of the longest front of a name that has one.
#[tactic(auto, using(crate::proofs::Shown::nearest_found))]
fn nearest_name(
    alloc: Global,
    schema: &Schema,
    tree: &Tree,
    name: &[Rdn],
) -> Result<String, AllocError>
    ensures { IfOk result (λ t. string_bytes t ≡ option_map_or (λ e. printed_name schema.now e.name)
        (nearest_entry (rdns name.now) (directory schema.now tree.now).entries) []) }
{
    match standing(alloc, tree, front_of(tree, name))? {
        Some((_, held)) => held.name.print(alloc, schema),
        None => Ok(String::new(alloc)),
    }
}

/// The reply where a name has no entry (RFC 4511 4.1.9).
pub fn not_found(
    alloc: Global,
    schema: &Schema,
    tree: &Tree,
    name: &[Rdn],
) -> Result<Reply, AllocError>
    ensures { IfOk result (λ r. reply_view r ≡ not_found_reply (directory schema.now tree.now) name.now) }
{
    let matched = nearest_name(alloc, schema, tree, name)?;
    Ok(Reply {
        code: ResultCode::NO_SUCH_OBJECT,
        matched,
    })
}

/// Whether two names are one, whatever their spelling.
#[tactic(auto, using(crate::proofs::Lookups::names_equal))]
pub fn is_same(a: &[Rdn], b: &[Rdn]) -> bool
    ensures { result ≡ name_eq (rdns a.now) (rdns b.now) }
{
    a == b
}

/// Whether an entry has the name.
pub fn is_taken(tree: &Tree, name: &[Rdn]) -> bool
    ensures { result ≡ is_some (find (rdns name.now) tree.now.entries) }
{
    tree.has(name)
}

/// Whether the first name is the front of the second, its own whole included.
#[tactic(auto, using(crate::proofs::Lookups::front_is, crate::proofs::Lookups::front_is_not))]
pub fn is_front(front: &[Rdn], whole: &[Rdn]) -> bool
    ensures { result ≡ begins (rdns front.now) (rdns whole.now) }
{
    if front.len() <= whole.len() {
        is_same(&whole[..front.len()], front)
    } else {
        false
    }
}
