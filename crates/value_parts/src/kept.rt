// What an attribute keeps of its values: one in place, lists, or parts.

ghost use Rattle.std.specs.Prelude.{◌≡◌, ◌++◌, ◌∷◌, [], length, IfOk};
ghost use Rattle.std.specs.Arc.{arc_value};
ghost use Rattle.std.specs.List.{list_any};
ghost use Rattle.std.specs.Str.{bytes_eq};
ghost use Rattle.value_parts.specs.Kept.{values_in, keys_in, forms_in, part_of};
ghost use Rattle.value_parts.specs.Parts.{whole};
ghost use Rattle.value_parts.specs.KeptParts.{as_part, octets_in, part_without, HaveTexts};

use crate::digest::SoughtOctets;
use crate::kept_part::KeptPart;
use crate::lists::Lists;
use crate::part::Part;
use crate::part_list::{PART, PartList, into_lists, joined};
use crate::parts::Parts;
use crate::without::{all_fit, lists_without, parts_without};
use ldap_match::{Form, Key};
use shared_map::{Octets, Shared};
use std::alloc::{AllocError, Global};
use std::slice;
use std::sync::Arc;

/// Lists of so few values give back the room that they don't fill, since a copy of them costs little.
const FEW: usize = 8;

/// So few values stand no more in parts.
const FEW_IN_PARTS: usize = 32;

/// What is kept of an attribute's values.
pub enum StoredValues {
    /// One value with its key, as most attributes have: it stands in place.
    One(Octets, Key, Form),
    /// Owners in common, so that a copy of an entry costs nothing for attributes that stay as they are.
    Many(Arc<Lists>),
    /// Parts of so many values that a copy of all would cost more than a change is worth.
    Parts(Arc<PartList>),
}

// Not derived: see "What the gate takes" in docs/ARCHITECTURE.md.
impl Drop for StoredValues {
    fn drop(self) {
        match self {
            StoredValues::One(_, _, _) => {}
            StoredValues::Many(_) => {}
            StoredValues::Parts(_) => {}
        }
    }
}

impl Lists {
    /// Them as they are kept: one value with a key in place, many in parts.
    pub fn held(self, alloc: Global) -> Result<StoredValues, AllocError>
        requires { HaveTexts (as_part self) }
        ensures values { IfOk result (λ h. values_in h ≡ self.values.items) }
        ensures keys { IfOk result (λ h. keys_in h ≡ self.keys.items) }
        ensures forms { IfOk result (λ h. forms_in h ≡ self.forms.items) }
    {
        if self.values.len() > PART {
            let list = PartList::of_lists(alloc, self)?;
            return Ok(StoredValues::Parts(Arc::new(alloc, list)?));
        }
        self.in_one(alloc)
    }

    /// Them, not in parts.
    fn in_one(self, alloc: Global) -> Result<StoredValues, AllocError>
        ensures values { IfOk result (λ h. values_in h ≡ self.values.items) }
        ensures keys { IfOk result (λ h. keys_in h ≡ self.keys.items) }
        ensures forms { IfOk result (λ h. forms_in h ≡ self.forms.items) }
    {
        let mut lists = self;
        if lists.values.len() == 1 && lists.keys.len() == 1 && lists.forms.len() == 1 {
            if let (Some(value), Some(key), Some(form)) = (
                lists.values.pop(),
                lists.keys.pop(),
                lists.forms.pop(),
            ) {
                return Ok(StoredValues::One(value, key, form));
            }
            unreachable!()
        }
        if lists.values.len() <= FEW {
            lists.shrink();
        }
        Ok(StoredValues::Many(Arc::new(alloc, lists)?))
    }
}

impl StoredValues {
    /// Them in parts.
    pub fn parts(&self) -> Parts<'_>
        requires { HaveTexts (part_of self.now) }
        ensures values { result.values ≡ values_in self.now }
        ensures keys { result.keys ≡ keys_in self.now }
        ensures forms { result.forms ≡ forms_in self.now }
    {
        match self {
            StoredValues::One(value, key, form) => Parts::of(Part {
                values: slice::from_ref(value),
                keys: slice::from_ref(key),
                forms: slice::from_ref(form),
            }),
            StoredValues::Many(lists) => Parts::of(lists.as_part()),
            StoredValues::Parts(list) => Parts::of_list(list),
        }
    }

    /// How many values there are.
    pub fn len(&self) -> usize
        ensures { result ≡ length (values_in self.now) }
    {
        match self {
            StoredValues::One(_, _, _) => 1,
            StoredValues::Many(lists) => lists.values.len(),
            StoredValues::Parts(list) => list.len(),
        }
    }

    /// Them as lists, which can grow.
    pub fn into_lists(self, alloc: Global) -> Result<Lists, AllocError>
        ensures values { IfOk result (λ l. l.values.items ≡ values_in self) }
        ensures keys { IfOk result (λ l. l.keys.items ≡ keys_in self) }
        ensures forms { IfOk result (λ l. l.forms.items ≡ forms_in self) }
    {
        match self {
            StoredValues::One(value, key, form) => Ok(Lists {
                values: list_of(alloc, value)?,
                keys: list_of(alloc, key)?,
                forms: list_of(alloc, form)?,
            }),
            StoredValues::Many(lists) => owned(alloc, lists),
            StoredValues::Parts(list) => into_lists(alloc, owned_parts(alloc, list)?),
        }
    }

    /// Them with others behind them.
    pub fn joined(self, alloc: Global, more: StoredValues) -> Result<StoredValues, AllocError>
        requires texts { HaveTexts (part_of self) }
        requires more_texts { HaveTexts (part_of more) }
        ensures values { IfOk result (λ h. values_in h ≡ values_in self ++ values_in more) }
        ensures keys { IfOk result (λ h. keys_in h ≡ keys_in self ++ keys_in more) }
        ensures forms { IfOk result (λ h. forms_in h ≡ forms_in self ++ forms_in more) }
    {
        let more = more.into_lists(alloc)?;
        self.joined_lists(alloc, more)
    }

    /// Them with lists behind them. Of parts the last one alone is changed.
    pub fn joined_lists(self, alloc: Global, more: Lists) -> Result<StoredValues, AllocError>
        requires texts { HaveTexts (part_of self) }
        requires more_texts { HaveTexts (as_part more) }
        ensures values { IfOk result (λ h. values_in h ≡ values_in self ++ more.values.items) }
        ensures keys { IfOk result (λ h. keys_in h ≡ keys_in self ++ more.keys.items) }
        ensures forms { IfOk result (λ h. forms_in h ≡ forms_in self ++ more.forms.items) }
    {
        match self {
            StoredValues::Parts(list) => {
                let parts = owned_parts(alloc, list)?;
                in_parts(alloc, joined(alloc, parts, more)?)
            }
            few => few.into_lists(alloc)?.joined(more)?.held(alloc),
        }
    }

    /// Whether a value is compared by these octets.
    pub fn has(&self, by_keys: bool, octets: &[u8]) -> bool
        ensures { result ≡ list_any (bytes_eq octets.now) (octets_in by_keys (part_of self.now)) }
    {
        match self {
            StoredValues::One(value, key, _) => {
                if by_keys {
                    octets == key.as_octets()
                } else {
                    octets == value.as_slice()
                }
            }
            StoredValues::Many(lists) => lists.has(by_keys, octets),
            StoredValues::Parts(list) => list.has(by_keys, octets),
        }
    }

    /// Them without those that are compared by one of the given octets. Parts without such a value stay as they are.
    pub fn without(
        self,
        alloc: Global,
        by_keys: bool,
        given: &[SoughtOctets],
    ) -> Result<StoredValues, AllocError>
        requires { HaveTexts (part_of self) }
        ensures { IfOk result (λ h. part_of h ≡ part_without given.now by_keys (part_of self)) }
    {
        match self {
            StoredValues::Parts(list) => list_without(alloc, by_keys, list, given),
            few => {
                let lists = few.into_lists(alloc)?;
                held_without(alloc, by_keys, lists, given)
            }
        }
    }

    /// A copy.
    pub fn copy(&self, alloc: Global) -> Result<StoredValues, AllocError>
        ensures values { IfOk result (λ h. values_in h ≡ values_in self.now) }
        ensures keys { IfOk result (λ h. keys_in h ≡ keys_in self.now) }
        ensures forms { IfOk result (λ h. forms_in h ≡ forms_in self.now) }
    {
        match self {
            StoredValues::One(value, key, form) => Ok(StoredValues::One(
                value.share()?,
                key.copy(alloc)?,
                form.copy(alloc)?,
            )),
            StoredValues::Many(lists) => Ok(StoredValues::Many(Arc::try_clone(lists)?)),
            StoredValues::Parts(list) => Ok(StoredValues::Parts(Arc::try_clone(list)?)),
        }
    }
}

/// Parts, as they are kept.
fn in_parts(alloc: Global, parts: Vec<KeptPart>) -> Result<StoredValues, AllocError>
    ensures values { IfOk result (λ h. values_in h ≡ (whole parts.items).values) }
    ensures keys { IfOk result (λ h. keys_in h ≡ (whole parts.items).keys) }
    ensures forms { IfOk result (λ h. forms_in h ≡ (whole parts.items).forms) }
{
    Ok(StoredValues::Parts(Arc::new(alloc, PartList::of(parts)?)?))
}

/// The lists themselves, where nobody else has them; else a copy.
fn owned(alloc: Global, lists: Arc<Lists>) -> Result<Lists, AllocError>
    ensures values { IfOk result (λ l. l.values.items ≡ (arc_value lists).values.items) }
    ensures keys { IfOk result (λ l. l.keys.items ≡ (arc_value lists).keys.items) }
    ensures forms { IfOk result (λ l. l.forms.items ≡ (arc_value lists).forms.items) }
{
    match Arc::try_unwrap(lists) {
        Ok(lists) => Ok(lists),
        Err(shared) => shared.copy(alloc),
    }
}

/// A list of one.
fn list_of<T: Drop>(alloc: Global, item: T) -> Result<Vec<T>, AllocError>
    ensures { IfOk result (λ v. v.items ≡ item ∷ []) }
{
    let mut list = Vec::with_capacity(alloc, 1)?;
    list.push(item)?;
    Ok(list)
}

/// The parts themselves, where nobody else has the list of them; else other owners of them.
fn owned_parts(alloc: Global, list: Arc<PartList>) -> Result<Vec<KeptPart>, AllocError>
    ensures { IfOk result (λ v. v.items ≡ arc_value list) }
{
    match Arc::try_unwrap(list) {
        Ok(list) => Ok(list.into_parts()),
        Err(shared) => shared.share(alloc),
    }
}

/// Parts as they are kept: made anew, where they have become few values or many small parts.
fn thinned(alloc: Global, parts: Vec<KeptPart>) -> Result<StoredValues, AllocError>
    ensures values { IfOk result (λ h. values_in h ≡ (whole parts.items).values) }
    ensures keys { IfOk result (λ h. keys_in h ≡ (whole parts.items).keys) }
    ensures forms { IfOk result (λ h. forms_in h ≡ (whole parts.items).forms) }
{
    let list = PartList::of(parts)?;
    if list.len() <= FEW_IN_PARTS || list.parts().len() > 4 + list.len() / 16 {
        return into_lists(alloc, list.into_parts())?.held(alloc);
    }
    Ok(StoredValues::Parts(Arc::new(alloc, list)?))
}

/// Lists as they are kept, without the values that are compared by one of the given octets.
fn held_without(
    alloc: Global,
    by_keys: bool,
    lists: Lists,
    given: &[SoughtOctets],
) -> Result<StoredValues, AllocError>
    requires { HaveTexts (as_part lists) }
    ensures { IfOk result (λ h. part_of h ≡ part_without given.now by_keys (as_part lists)) }
{
    lists_without(alloc, by_keys, lists, given)?.held(alloc)
}

/// Parts as they are kept, without the values that are compared by one of the given octets. Where a part lacks the key
/// or the texts of a value, all are made anew.
fn list_without(
    alloc: Global,
    by_keys: bool,
    list: Arc<PartList>,
    given: &[SoughtOctets],
) -> Result<StoredValues, AllocError>
    ensures { IfOk result (λ h. part_of h ≡ part_without given.now by_keys (whole (arc_value list))) }
{
    let parts = owned_parts(alloc, list)?;
    if all_fit(&parts, true) {
        return thinned(alloc, parts_without(alloc, by_keys, true, parts, given)?);
    }
    if !by_keys && all_fit(&parts, false) {
        return thinned(alloc, parts_without(alloc, by_keys, false, parts, given)?);
    }
    held_without(alloc, by_keys, into_lists(alloc, parts)?, given)
}
