// Whether a posting lists the entry of some attributes, by a look at these.

ghost use Rattle.std.specs.Prelude.{◌≡◌, ◌&&◌, ◌||◌, true, nat_eq, length, IfOk};
ghost use Rattle.std.specs.List.{list_any};
ghost use Rattle.index_choice.specs.dir_entry.ldap_match.Keyed.{is_same_key};
ghost use Rattle.dir_index.specs.declared.posting.Posting.{Posting};
ghost use Rattle.dir_index.specs.Postings.{has_several as may_be_several, some_key, stands_in as is_within};
ghost use Rattle.dir_index.specs.ListKeys.{key_of, is_same_list};
ghost use Rattle.dir_index.specs.private.Marked.{has_posting, lists_entry, lists_by};

use crate::list_key::{ListKey, PRESENCE, SEVERAL, VALUE};
use crate::marks::{Marks, may_have_several};
use crate::touched::has_type;
use index_choice::{Attribute, Indexes, Key, Shared, TypeId};
use std::alloc::{AllocError, Global};
use std::collections::BTreeSet;

/// Whether an entry of these attributes may have several values of a type.
fn has_several(attributes: &[Attribute], type_id: TypeId) -> bool
    ensures { result ≡ may_be_several type_id attributes.now }
{
    let mut rest = attributes;
    while let Some((attribute, others)) = rest.split_first() {
        if attribute.type_id() == type_id && may_have_several(attribute, others) {
            return true;
        }
        rest = others;
    }
    false
}

/// Whether one of an attribute's keys has these octets.
#[tactic(auto, using(crate::proofs::Changed::any_turned))]
fn is_key_of(octets: &[u8], attribute: &Attribute) -> bool
    ensures { result ≡ list_any (is_same_key octets.now) attribute.now.keys }
{
    attribute.has(true, octets)
}

/// Whether some value of the type has a key of these octets.
fn has_key(attributes: &[Attribute], type_id: TypeId, octets: &[u8]) -> bool
    ensures { result ≡ some_key type_id (is_same_key octets.now) attributes.now }
{
    attributes.iter().any(|attribute| attribute.type_id() == type_id
        && is_key_of(octets, attribute))
}

/// Whether octets stand in others, one after the other.
fn stands_in(run: &[u8], octets: &[u8]) -> bool
    ensures { result ≡ is_within run.now octets.now }
{
    let mut rest = octets;
    while let Some((_, behind)) = rest.split_first() {
        if rest.starts_with(run) {
            return true;
        }
        rest = behind;
    }
    run.is_empty()
}

/// Whether octets stand in one of the keys.
fn is_run_among(run: &[u8], keys: &[Key]) -> bool
    ensures { result ≡ list_any (is_within run.now) keys.now }
{
    keys.iter().any(|key| stands_in(run, key.as_octets()))
}

/// Whether octets stand in one of an attribute's keys.
fn is_run_of(run: &[u8], attribute: &Attribute) -> bool
    ensures { result ≡ list_any (is_within run.now) attribute.now.keys }
{
    let mut rest = attribute.parts();
    while let Some((part, others)) = rest.split_first() {
        if is_run_among(run, part.keys) {
            return true;
        }
        rest = others;
    }
    false
}

/// Whether octets stand in the key of some value of the type.
fn has_run(attributes: &[Attribute], type_id: TypeId, run: &[u8]) -> bool
    ensures { result ≡ some_key type_id (is_within run.now) attributes.now }
{
    attributes.iter().any(|attribute| attribute.type_id() == type_id && is_run_of(run, attribute))
}

/// Whether the list of a key lists the entry of these attributes.
fn is_listed(indexes: &Indexes, attributes: &[Attribute], key: &ListKey) -> bool
    ensures { result ≡ lists_by indexes.now attributes.now key.now }
{
    let type_id = TypeId::new(key.type_id as usize);
    let kinds = indexes.kinds(type_id);
    let octets = key.octets.as_slice();
    match key.rank {
        PRESENCE => kinds.presence && has_type(attributes, type_id),
        SEVERAL => kinds.ordering && has_several(attributes, type_id),
        VALUE => (kinds.equality || kinds.ordering) && has_key(attributes, type_id, octets),
        _ => (kinds.substrings && octets.len() == 3) && has_run(attributes, type_id, octets),
    }
}

/// Those of the marks whose postings list the entry of these attributes. Each costs a look for a key among those of its
/// type, or at the runs of all of these.
pub fn marks_within(
    alloc: Global,
    indexes: &Indexes,
    marks: &Marks,
    attributes: &[Attribute],
) -> Result<Marks, AllocError>
    ensures { IfOk result (λ m. (p : Posting) → has_posting m.keys p ≡ (has_posting marks.now.keys p
        && lists_entry indexes.now attributes.now p)) }
{
    let mut within = BTreeSet::new(alloc);
    for key in marks {
        if is_listed(indexes, attributes, key) {
            within.insert(key.share()?)?;
        }
    }
    Ok(within)
}
