// An attribute: a type, its values and their keys.

ghost use Rattle.std.specs.Prelude.{◌≡◌, ◌==◌, ◌++◌, map, length, not, true, false, Some, is_some, IfOk, OnOk, IsErrOf};
ghost use Rattle.std.specs.List.{list_all, list_any};
ghost use Rattle.ldap_match.specs.Meaning.{meaning};
ghost use Rattle.ldap_match.specs.Item.{is_of_syntax as is_of_type_syntax};
ghost use Rattle.ldap_match.specs.Keyed.{key_at, AreKeysOf};
ghost use Rattle.ldap_match.specs.ldap_schema.Rules.{equality_of};
ghost use Rattle.ldap_match.specs.ldap_syntax.Forms.{form_of};
ghost use Rattle.std.specs.Str.{bytes_eq};
ghost use Rattle.value_parts.specs.Picked.{picked};
ghost use Rattle.dir_entry.specs.Entry.{are_in_syntax};
ghost use Rattle.dir_entry.specs.Compared.{octets_by};
ghost use Rattle.dir_entry.specs.Values.{has_repeats};

use crate::repeats::has_twice;
use ldap_match::{
    Form, Key, Rule, Schema, TypeId, ValueError, equality_rule, is_of_syntax, key, tests_are_items,
};
use shared_map::Octets;
use std::alloc::{AllocError, Global};
use std::marker::Model;
use value_parts::{Lists, Parts, StoredValues, sought};

/// An attribute of an entry: a type and its values (RFC 4512 2.2), with the key of each value under the type's EQUALITY
/// rule, and the texts of each. Most have one value, which stands in place.
pub struct Attribute {
    type_id: TypeId,
    held: StoredValues,
}

// Not derived: see "What the gate takes" in docs/ARCHITECTURE.md.
impl Drop for Attribute {
    fn drop(self) {
        let Attribute {
            type_id: _,
            held: _,
        } = self;
    }
}

impl Model for Attribute {
    ghost use Rattle.dir_entry.specs.Entry.{KeyedAttribute};
    ghost use Rattle.value_parts.specs.Kept.{values_in, keys_in, forms_in};

    ghost Value = { KeyedAttribute };

    ghost view = { λ a. record { kind = a.type_id; values = values_in a.held; keys = keys_in a.held } };

    ghost use Rattle.std.specs.Prelude.{◌≡◌, map};
    ghost use Rattle.ldap_match.specs.ldap_schema.Rules.{equality_of};
    ghost use Rattle.ldap_match.specs.ldap_syntax.Forms.{form_of};

    ghost invariant = { λ a. forms_in a.held ≡ map form_of (values_in a.held) };
}

impl Attribute {
    /// An attribute with its keys under the schema. A value that is not in the type's syntax is refused as E11.
    pub fn new(
        alloc: Global,
        schema: &Schema,
        type_id: TypeId,
        values: Vec<Vec<u8>>,
    ) -> Result<Attribute, ValueError>
        ensures kind { IfOk result (λ a. a.kind ≡ type_id) }
        ensures values { IfOk result (λ a. a.values ≡ map (λ v. v.items) values.items) }
        ensures keyed { IfOk result (λ a. AreKeysOf schema.now a.kind a.values a.keys) }

        // E11 comes exactly where a value is not in the type's syntax; want of memory may be told instead.
        ensures in_syntax { OnOk result (are_in_syntax schema.now type_id (map (λ v. v.items) values.items) ≡ true) }
        ensures refused { IsErrOf result ValueError.NotInSyntax
            → are_in_syntax schema.now type_id (map (λ v. v.items) values.items) ≡ false }
    {
        if !are_of_syntax(alloc, schema, type_id, values.as_slice())? {
            return Err(ValueError::NotInSyntax);
        }
        let lists = lists_of(alloc, schema, type_id, values)?;
        Ok(Attribute {
            type_id,
            held: lists.held(alloc)?,
        })
    }

    /// The attribute with these values after its own, and their keys. A value that is not in the type's syntax is
    /// refused as E11.
    pub fn with_values(
        self,
        alloc: Global,
        schema: &Schema,
        more: Vec<Vec<u8>>,
    ) -> Result<Attribute, ValueError>
        ensures kind { IfOk result (λ a. a.kind ≡ self.kind) }
        ensures values { IfOk result (λ a. a.values ≡ self.values ++ map (λ v. v.items) more.items) }
        ensures keyed { IfOk result (λ a. AreKeysOf schema.now self.kind self.values self.keys →
            AreKeysOf schema.now a.kind a.values a.keys) }

        // E11 only where one of the values is not in the type's syntax.
        ensures refused { IsErrOf result ValueError.NotInSyntax → are_in_syntax schema.now self.kind
            (map (λ v. v.items) more.items) ≡ false }
    {
        let Attribute { type_id, held } = self;
        let more = lists_of(alloc, schema, type_id, more)?;
        Ok(Attribute {
            type_id,
            held: held.joined_lists(alloc, more)?,
        })
    }

    /// The attribute with the other's values after its own; their types are the same.
    pub fn joined(self, alloc: Global, other: Attribute) -> Result<Attribute, AllocError>
        ensures kind { IfOk result (λ a. a.kind ≡ self.kind) }
        ensures values { IfOk result (λ a. a.values ≡ self.values ++ other.values) }
        ensures keys { IfOk result (λ a. a.keys ≡ self.keys ++ other.keys) }
    {
        let Attribute { type_id, held } = self;
        let Attribute {
            type_id: _,
            held: more,
        } = other;
        Ok(Attribute {
            type_id,
            held: held.joined(alloc, more)?,
        })
    }

    /// The attribute with the values that are marked.
    pub fn kept(self, alloc: Global, marks: &[bool]) -> Result<Attribute, AllocError>
        ensures kind { IfOk result (λ a. a.kind ≡ self.kind) }
        ensures values { IfOk result (λ a. a.values ≡ picked marks.now self.values) }
        ensures keys { IfOk result (λ a. a.keys ≡ picked marks.now self.keys) }
    {
        let Attribute { type_id, held } = self;
        let lists = held.into_lists(alloc)?.picked(alloc, marks)?;
        Ok(Attribute {
            type_id,
            held: lists.held(alloc)?,
        })
    }

    /// The attribute without the values that are compared by some of these octets: by those of their keys, or by their
    /// own.
    pub fn without(
        self,
        alloc: Global,
        by_keys: bool,
        given: &[&[u8]],
    ) -> Result<Attribute, AllocError>
        ensures kind { IfOk result (λ a. a.kind ≡ self.kind) }
        ensures values { IfOk result (λ a. a.values ≡
            picked (map (λ x. not (list_any (bytes_eq x) (map (λ octets. octets.now) given.now)))
            (octets_by by_keys self)) self.values) }
        ensures keys { IfOk result (λ a. a.keys ≡
            picked (map (λ x. not (list_any (bytes_eq x) (map (λ octets. octets.now) given.now)))
            (octets_by by_keys self)) self.keys) }
    {
        let Attribute { type_id, held } = self;
        let given = sought(alloc, given)?;
        Ok(Attribute {
            type_id,
            held: held.without(alloc, by_keys, &given)?,
        })
    }

    /// A copy.
    pub fn copy(&self, alloc: Global) -> Result<Attribute, AllocError>
        ensures { IfOk result (λ a. a ≡ self.now) }
    {
        Ok(Attribute {
            type_id: self.type_id,
            held: self.held.copy(alloc)?,
        })
    }

    /// Whether two of the values are equivalent under the type's EQUALITY rule. It takes time as sorting does; its only
    /// error is want of memory.
    pub fn has_repeats(&self, alloc: Global, schema: &Schema) -> Result<bool, AllocError>
        ensures { AreKeysOf schema.now self.now.kind self.now.values self.now.keys
            → IfOk result (λ b. b ≡ has_repeats schema.now self.now.kind self.now.values) }
    {
        tests_are_items();
        let by_keys = is_by_keys(schema, self.type_id());
        let octets = self.octets(alloc, by_keys)?;
        has_twice(alloc, octets.as_slice())
    }

    /// The type.
    pub fn type_id(&self) -> TypeId
        ensures { result ≡ self.now.kind }
    {
        self.type_id
    }

    /// The values in order, with their keys and texts, in parts.
    pub fn parts(&self) -> Parts<'_>
        ensures values { result.values ≡ self.now.values }
        ensures keys { result.keys ≡ self.now.keys }
        ensures forms { result.forms ≡ map form_of self.now.values }
    {
        self.held.parts()
    }

    /// How many values there are.
    pub fn len(&self) -> usize
        ensures { result ≡ length self.now.values }
    {
        self.held.len()
    }

    /// Whether there is no value.
    pub fn is_empty(&self) -> bool
        ensures { result ≡ (length self.now.values == 0) }
    {
        self.held.len() == 0
    }

    /// Whether a value is compared by these octets: by those of its key, or by its own.
    pub fn has(&self, by_keys: bool, octets: &[u8]) -> bool
        ensures { result ≡ list_any (bytes_eq octets.now) (octets_by by_keys self.now) }
    {
        self.held.has(by_keys, octets)
    }

    /// What the values are compared by: the octets of their keys, or their own.
    pub fn octets(&self, alloc: Global, by_keys: bool) -> Result<Vec<&[u8]>, AllocError>
        ensures { IfOk result (λ v. map (λ octets. octets.now) v.items ≡ octets_by by_keys self.now) }
    {
        if by_keys {
            octets_of_keys(alloc, self.parts())
        } else {
            octets_of_values(alloc, self.parts())
        }
    }
}

/// Whether values of a type are compared by their keys under the schema.
fn is_by_keys(schema: &Schema, type_id: TypeId) -> bool
    ensures { result ≡ is_some (equality_of schema.now type_id) }
{
    equality_rule(schema, type_id).is_some()
}

/// Values as they are kept.
fn octets_of(alloc: Global, values: Vec<Vec<u8>>) -> Result<Vec<Octets>, AllocError>
    ensures { IfOk result (λ r. r.items ≡ map (λ v. v.items) values.items) }
{
    let mut list = Vec::with_capacity(alloc, values.len())?;
    for value in values {
        list.push(Octets::from_vec(alloc, value)?)?;
    }
    Ok(list)
}

/// Values with their keys and texts.
fn lists_of(
    alloc: Global,
    schema: &Schema,
    type_id: TypeId,
    values: Vec<Vec<u8>>,
) -> Result<Lists, ValueError>
    ensures values { IfOk result (λ l. l.values.items ≡ map (λ v. v.items) values.items) }
    ensures keyed { IfOk result (λ l. AreKeysOf schema.now type_id l.values.items l.keys.items) }
    ensures forms { IfOk result (λ l. l.forms.items ≡ map form_of l.values.items) }
    ensures refused { IsErrOf result ValueError.NotInSyntax
        → are_in_syntax schema.now type_id (map (λ v. v.items) values.items) ≡ false }
{
    let keys = keys_of(alloc, schema, type_id, values.as_slice())?;
    let forms = forms_of(alloc, values.as_slice())?;
    let values = octets_of(alloc, values)?;
    Ok(Lists {
        values,
        keys,
        forms,
    })
}

/// A copy of a list of values. Fails only for want of memory.
pub fn copy_values(alloc: Global, values: &[Vec<u8>]) -> Result<Vec<Vec<u8>>, AllocError>
    ensures { IfOk result (λ r. map (λ v. v.items) r.items ≡ map (λ v. v.items) values.now) }
{
    let mut copy = Vec::with_capacity(alloc, values.len())?;
    for value in values {
        copy.push(value.to_vec(alloc)?)?;
    }
    Ok(copy)
}

/// The texts of each value.
fn forms_of(alloc: Global, values: &[Vec<u8>]) -> Result<Vec<Form>, AllocError>
    ensures { IfOk result (λ r. r.items ≡ map (λ v. form_of v.items) values.now) }
{
    let mut forms = Vec::with_capacity(alloc, values.len())?;
    for value in values {
        forms.push(Form::new(alloc, value.as_slice())?)?;
    }
    Ok(forms)
}

/// Octets, and behind them those of each key.
fn with_keys<'a>(octets: Vec<&'a [u8]>, keys: &'a [Key]) -> Result<Vec<&'a [u8]>, AllocError>
    ensures { IfOk result (λ v. map (λ octets. octets.now) v.items ≡
        map (λ octets. octets.now) octets.entry.items ++ keys.now) }
{
    let mut list = octets;
    for key in keys {
        list.push(key.as_octets())?;
    }
    Ok(list)
}

/// Octets, and behind them those of each value.
fn with_octets<'a>(octets: Vec<&'a [u8]>, values: &'a [Octets]) -> Result<Vec<&'a [u8]>, AllocError>
    ensures { IfOk result (λ v. map (λ octets. octets.now) v.items ≡
        map (λ octets. octets.now) octets.entry.items ++ values.now) }
{
    let mut list = octets;
    for value in values {
        list.push(value.as_slice())?;
    }
    Ok(list)
}

/// The octets of each key.
fn octets_of_keys<'a>(alloc: Global, parts: Parts<'a>) -> Result<Vec<&'a [u8]>, AllocError>
    ensures { IfOk result (λ v. map (λ octets. octets.now) v.items ≡ parts.entry.keys) }
{
    let mut list = Vec::with_capacity(alloc, parts.len())?;
    let mut rest = parts;
    while let Some((part, others)) = rest.split_first() {
        list = with_keys(list, part.keys)?;
        rest = others;
    }
    Ok(list)
}

/// The octets of each value.
fn octets_of_values<'a>(alloc: Global, parts: Parts<'a>) -> Result<Vec<&'a [u8]>, AllocError>
    ensures { IfOk result (λ v. map (λ octets. octets.now) v.items ≡ parts.entry.values) }
{
    let mut list = Vec::with_capacity(alloc, parts.len())?;
    let mut rest = parts;
    while let Some((part, others)) = rest.split_first() {
        list = with_octets(list, part.values)?;
        rest = others;
    }
    Ok(list)
}

/// Whether each value is in the type's syntax. Its only error is want of memory.
fn are_of_syntax(
    alloc: Global,
    schema: &Schema,
    type_id: TypeId,
    values: &[Vec<u8>],
) -> Result<bool, AllocError>
    ensures { IfOk result (λ b. b ≡ list_all (λ v. is_of_type_syntax schema.now type_id v.items) values.now) }
{
    for value in values {
        if !is_of_syntax(alloc, schema, type_id, value.as_slice())? {
            return Ok(false);
        }
    }
    Ok(true)
}

/// The keys of values that are in the type's syntax.
fn keys_of(
    alloc: Global,
    schema: &Schema,
    type_id: TypeId,
    values: &[Vec<u8>],
) -> Result<Vec<Key>, ValueError>
    ensures keyed { IfOk result (λ keys. AreKeysOf schema.now type_id (map (λ v. v.items) values.now) keys.items) }
    ensures refused { IsErrOf result ValueError.NotInSyntax →
        list_all (λ v. is_of_type_syntax schema.now type_id v.items) values.now ≡ false }
{
    match equality_rule(schema, type_id) {
        Some(rule) => keys_under(alloc, schema, rule, values),
        None => Ok(Vec::new(alloc)),
    }
}

/// The keys of values under a rule.
fn keys_under(
    alloc: Global,
    schema: &Schema,
    rule: Rule,
    values: &[Vec<u8>],
) -> Result<Vec<Key>, ValueError>
    ensures keyed { IfOk result (λ keys. map Some keys.items ≡ map (λ v. key_at schema.now rule v.items) values.now) }
    ensures refused { IsErrOf result ValueError.NotInSyntax →
        list_all (λ v. is_some (meaning schema.now rule v.items)) values.now ≡ false }
{
    let mut keys = Vec::with_capacity(alloc, values.len())?;
    for value in values {
        keys.push(key(alloc, schema, rule, value.as_slice())?)?;
    }
    Ok(keys)
}
