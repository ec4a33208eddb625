// A part of an attribute's values, with digests.

ghost use Rattle.std.specs.Prelude.{◌≡◌, cond, map, length, IfOk};
ghost use Rattle.std.specs.List.{list_any};
ghost use Rattle.std.specs.Str.{bytes_eq};
ghost use Rattle.value_parts.specs.Digests.{digest_of};
ghost use Rattle.value_parts.specs.private.Digested.{compared};
ghost use Rattle.value_parts.specs.KeptParts.{octets_in, as_part, HaveTexts};
ghost use Rattle.ldap_match.specs.ldap_syntax.Forms.{form_of};

use crate::digest::{SoughtOctets, digest};
use crate::lists::{Lists, is_value_among};
use crate::part::Part;
use ldap_match::Key;
use shared_map::Octets;
use std::alloc::{AllocError, Global};
use std::marker::Model;
use std::sync::Arc;

/// Lists with the digest of what each value is compared by: its key, where there are keys, else its octets.
pub struct DigestedLists {
    lists: Lists,
    digests: Vec<u64>,
}

// Not derived: see "What the gate takes" in docs/ARCHITECTURE.md.
impl Drop for DigestedLists {
    fn drop(self) {
        let DigestedLists {
            lists: _,
            digests: _,
        } = self;
    }
}

impl DigestedLists {
    /// The lists alone.
    fn into_lists(self) -> Lists
        ensures { result ≡ self.lists }
    {
        let DigestedLists { lists, digests: _ } = self;
        lists
    }
}

/// A part of an attribute's values. It has owners in common, so that a copy of the others costs nothing where one part
/// is changed.
pub struct KeptPart {
    kept: Arc<DigestedLists>,
}

// Not derived: see "What the gate takes" in docs/ARCHITECTURE.md.
impl Drop for KeptPart {
    fn drop(self) {
        let KeptPart { kept: _ } = self;
    }
}

impl Model for KeptPart {
    ghost use Rattle.std.specs.Arc.{arc_value};
    ghost use Rattle.value_parts.specs.Parts.{PartModel};
    ghost use Rattle.value_parts.specs.private.Digested.{IsDigested};

    ghost Value = { PartModel };

    ghost view = { λ p. record {
      values = (arc_value p.kept).lists.values.items;
      keys = (arc_value p.kept).lists.keys.items;
      forms = (arc_value p.kept).lists.forms.items;
    } };

    ghost invariant = { λ p. IsDigested (arc_value p.kept).lists (arc_value p.kept).digests.items };
}

/// The digests of keys.
fn digests_of_keys(alloc: Global, keys: &[Key]) -> Result<Vec<u64>, AllocError>
    ensures { IfOk result (λ v. v.items ≡ map digest_of keys.now) }
{
    let mut digests = Vec::with_capacity(alloc, keys.len())?;
    for key in keys {
        digests.push(digest(key.as_octets()))?;
    }
    Ok(digests)
}

/// The digests of values.
fn digests_of_values(alloc: Global, values: &[Octets]) -> Result<Vec<u64>, AllocError>
    ensures { IfOk result (λ v. v.items ≡ map digest_of values.now) }
{
    let mut digests = Vec::with_capacity(alloc, values.len())?;
    for value in values {
        digests.push(digest(value.as_slice()))?;
    }
    Ok(digests)
}

/// The digests of what values are compared by.
fn digests_of(alloc: Global, values: &[Octets], keys: &[Key]) -> Result<Vec<u64>, AllocError>
    ensures { IfOk result (λ v. v.items ≡ map digest_of (compared values.now keys.now)) }
{
    if keys.is_empty() {
        digests_of_values(alloc, values)
    } else {
        digests_of_keys(alloc, keys)
    }
}

/// Whether a value is compared by these octets.
fn is_among(
    by_keys: bool,
    sought: &SoughtOctets,
    digests: &[u64],
    values: &[Octets],
    keys: &[Key],
) -> bool
    requires { digests.now ≡ map digest_of (compared values.now keys.now) }
    ensures { result ≡ list_any (bytes_eq sought.now) (cond by_keys keys.now values.now) }
{
    if keys.is_empty() {
        return !by_keys && sought.is_value_among(digests, values);
    }
    if by_keys {
        return sought.is_key_among(digests, keys);
    }
    is_value_among(values, sought.as_slice())
}

impl KeptPart {
    /// A part of these.
    pub fn new(alloc: Global, lists: Lists) -> Result<KeptPart, AllocError>
        requires { HaveTexts (as_part lists) }
        ensures values { IfOk result (λ p. p.values ≡ lists.values.items) }
        ensures keys { IfOk result (λ p. p.keys ≡ lists.keys.items) }
        ensures forms { IfOk result (λ p. p.forms ≡ lists.forms.items) }
    {
        let mut lists = lists;
        lists.shrink();
        let digests = digests_of(alloc, &lists.values, &lists.keys)?;
        Ok(KeptPart {
            kept: Arc::new(alloc, DigestedLists { lists, digests })?,
        })
    }

    /// Another owner.
    pub fn share(&self) -> Result<KeptPart, AllocError>
        ensures { IfOk result (λ p. p ≡ self.now) }
    {
        Ok(KeptPart {
            kept: Arc::try_clone(&self.kept)?,
        })
    }

    /// It as it is read.
    pub fn as_part(&self) -> Part<'_>
        ensures values { result.values.now ≡ self.now.values }
        ensures keys { result.keys.now ≡ self.now.keys }
        ensures forms { result.forms.now ≡ self.now.forms }
        ensures texts { result.forms.now ≡ map form_of result.values.now }
    {
        self.kept.lists.as_part()
    }

    /// How many values there are.
    pub fn len(&self) -> usize
        ensures { result ≡ length self.now.values }
    {
        self.kept.lists.values.len()
    }

    /// Whether a value is compared by these octets.
    pub fn has(&self, by_keys: bool, sought: &SoughtOctets) -> bool
        ensures { result ≡ list_any (bytes_eq sought.now) (octets_in by_keys self.now) }
    {
        let kept: &DigestedLists = &self.kept;
        is_among(
            by_keys,
            sought,
            &kept.digests,
            &kept.lists.values,
            &kept.lists.keys,
        )
    }

    /// Its lists themselves, where nobody else has them; else a copy.
    pub fn into_lists(self, alloc: Global) -> Result<Lists, AllocError>
        ensures values { IfOk result (λ l. l.values.items ≡ self.values) }
        ensures keys { IfOk result (λ l. l.keys.items ≡ self.keys) }
        ensures forms { IfOk result (λ l. l.forms.items ≡ self.forms) }
        ensures texts { IfOk result (λ l. HaveTexts (as_part l)) }
    {
        let KeptPart { kept } = self;
        match Arc::try_unwrap(kept) {
            Ok(kept) => Ok(kept.into_lists()),
            Err(shared) => shared.lists.copy(alloc),
        }
    }
}
