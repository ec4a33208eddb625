//! A relative name: its types, values and keys.

ghost use Rattle.std.specs.Prelude.{◌≡◌, IfOk, string_bytes};
ghost use Rattle.std.specs.Option.{option_copied};
ghost use Rattle.ldap_syntax.specs.Forms.{form_of};
ghost use Rattle.ldap_dn.specs.Pairs.{key_for};
ghost use Rattle.ldap_dn.specs.Rising.{KeysAreRising};
ghost use Rattle.ldap_dn.specs.Spellings.{spelled_in};

use ldap_schema::TypeId;
use ldap_syntax::{Form, Key};
use smallvec::SmallVec;
use std::alloc::{AllocError, Global};
use std::marker::Model;
use std::slice;

/// A type and a value of it, as it was written in a name (RFC 4512 2.3.1).
#[derive(Drop)]
pub struct TypeAndValue {
    pub(crate) type_id: TypeId,
    pub(crate) value: String,
    /// The value's texts.
    pub(crate) form: Form,
}

impl Model for TypeAndValue {
    ghost use Rattle.std.specs.Prelude.{string_bytes};
    ghost use Rattle.ldap_dn.specs.Names as names;

    ghost Value = { names.TypeAndValue };

    ghost view = { λ t. record { kind = t.type_id; value = string_bytes t.value } };

    ghost use Rattle.std.specs.Prelude.{◌≡◌};
    ghost use Rattle.ldap_syntax.specs.Forms.{form_of};

    ghost invariant = { λ t. t.form ≡ form_of (string_bytes t.value) };
}

impl TypeAndValue {
    /// The type.
    pub fn type_id(&self) -> TypeId
        ensures { result ≡ self.now.kind }
    {
        self.type_id
    }

    /// The value.
    pub fn value(&self) -> &str
        ensures { result.now ≡ self.now.value }
    {
        self.value.as_str()
    }

    /// The texts of the value, by which it is compared under rules that its type may lack.
    pub fn form(&self) -> &Form
        ensures { result.now ≡ form_of self.now.value }
    {
        &self.form
    }
}

/// A type with its value, and the value's texts.
pub fn written_of(alloc: Global, type_id: TypeId, value: String) -> Result<TypeAndValue, AllocError>
    ensures { IfOk result (λ v. v ≡ record { kind = type_id; value = string_bytes value }) }
{
    let form = Form::new(alloc, value.as_bytes())?;
    Ok(TypeAndValue {
        type_id,
        value,
        form,
    })
}

/// A type, and the key of a value of it under the type's EQUALITY rule.
#[derive(Drop)]
pub struct TypeAndKey {
    pub(crate) type_id: TypeId,
    pub(crate) key: Key,
}

impl Model for TypeAndKey {
    ghost use Rattle.ldap_dn.specs.Names as names;

    ghost Value = { names.TypeAndKey };

    ghost view = { λ t. record { kind = t.type_id; key = t.key } };
}

/// The first type and no octets; it is where a list that holds one in place has none.
impl Default for TypeAndKey {
    ghost use Rattle.std.specs.Prelude.{◌≡◌, []};

    ghost is_default = { λ t. t.key ≡ [] };

    fn default() -> TypeAndKey {
        TypeAndKey {
            type_id: TypeId::new(0),
            key: Key::default(),
        }
    }
}

/// Types with values, in the order written. Most relative names have one, which stands in place.
pub enum Spelling {
    One(TypeAndValue),
    Many(Vec<TypeAndValue>),
}

// Not derived: see "What the gate takes" in docs/ARCHITECTURE.md.
impl Drop for Spelling {
    fn drop(self) {
        match self {
            Spelling::One(_) => {}
            Spelling::Many(_) => {}
        }
    }
}

impl Spelling {
    /// These types and values.
    pub fn as_slice(&self) -> &[TypeAndValue]
        ensures { result.now ≡ spelled_in self.now }
    {
        match self {
            Spelling::One(only) => slice::from_ref(only),
            Spelling::Many(list) => list.as_slice(),
        }
    }
}

/// A relative name (RFC 4512 2.3.1).
pub struct Rdn {
    /// In rising order of type, each type once; one, as most have, in place.
    pub(crate) keys: SmallVec<TypeAndKey, 1>,
    /// In the order written; one in place, too.
    pub(crate) spelling: Spelling,
}

// Not derived: see "What the gate takes" in docs/ARCHITECTURE.md.
impl Drop for Rdn {
    fn drop(self) {
        let Rdn {
            keys: _,
            spelling: _,
        } = self;
    }
}

impl Model for Rdn {
    ghost use Rattle.ldap_dn.specs.Names.{RdnModel};
    ghost use Rattle.ldap_dn.specs.Spellings.{spelled_in};

    ghost Value = { RdnModel };

    ghost view = { λ r. record { keys = r.keys.items; spelling = spelled_in r.spelling } };
}

/// A copy of a type with a value.
fn copy_written(alloc: Global, written: &TypeAndValue) -> Result<TypeAndValue, AllocError>
    ensures { IfOk result (λ v. v ≡ written.now) }
{
    Ok(TypeAndValue {
        type_id: written.type_id,
        value: written.value.clone()?,
        form: written.form.copy(alloc)?,
    })
}

/// A copy of a list of types with values.
fn copy_list(alloc: Global, list: &[TypeAndValue]) -> Result<Vec<TypeAndValue>, AllocError>
    ensures { IfOk result (λ v. v.items ≡ list.now) }
{
    let mut copy = Vec::with_capacity(alloc, list.len())?;
    for written in list {
        copy.push(copy_written(alloc, written)?)?;
    }
    Ok(copy)
}

/// A copy of types with values.
fn copy_spelling(alloc: Global, spelling: &Spelling) -> Result<Spelling, AllocError>
    ensures { IfOk result (λ s. spelled_in s ≡ spelled_in spelling.now) }
{
    match spelling {
        Spelling::One(only) => Ok(Spelling::One(copy_written(alloc, only)?)),
        Spelling::Many(list) => Ok(Spelling::Many(copy_list(alloc, list)?)),
    }
}

/// A copy of types with keys.
fn copy_keys(alloc: Global, keys: &[TypeAndKey]) -> Result<SmallVec<TypeAndKey, 1>, AllocError>
    ensures { IfOk result (λ v. v.items ≡ keys.now) }
{
    let mut copy = SmallVec::with_capacity(alloc, keys.len())?;
    for key in keys {
        copy.push(TypeAndKey {
            type_id: key.type_id,
            key: key.key.copy(alloc)?,
        })?;
    }
    Ok(copy)
}

/// A copy of relative names.
pub fn copy_rdns(alloc: Global, rdns: &[Rdn]) -> Result<Vec<Rdn>, AllocError>
    ensures { IfOk result (λ v. v.items ≡ rdns.now) }
{
    let mut copy = Vec::with_capacity(alloc, rdns.len())?;
    for rdn in rdns {
        copy.push(rdn.copy(alloc)?)?;
    }
    Ok(copy)
}

impl Rdn {
    /// A copy.
    pub fn copy(&self, alloc: Global) -> Result<Rdn, AllocError>
        ensures { IfOk result (λ r. r ≡ self.now) }
    {
        Ok(Rdn {
            keys: copy_keys(alloc, self.keys.as_slice())?,
            spelling: copy_spelling(alloc, &self.spelling)?,
        })
    }

    /// Its types and values in the order written.
    pub fn types_and_values(&self) -> &[TypeAndValue]
        ensures { result.now ≡ self.now.spelling }
    {
        self.spelling.as_slice()
    }

    /// The key of the value of a type under the type's EQUALITY rule; none, where it has none of the type.
    pub fn key_for(&self, type_id: TypeId) -> Option<&Key>
        ensures { option_copied result ≡ key_for type_id self.now.keys }
    {
        key_among(type_id, self.keys.as_slice())
    }
}

/// The key beside a type.
fn key_among(type_id: TypeId, keys: &[TypeAndKey]) -> Option<&Key>
    ensures { option_copied result ≡ key_for type_id keys.now }
{
    for key in keys {
        if key.type_id.number() == type_id.number() {
            return Some(&key.key);
        }
    }
    None
}

/// The types with their keys of a relative name that is read stand in rising order, each type once: they are a set.
pub fn keys_are_rising()
    ensures { KeysAreRising }
{}
