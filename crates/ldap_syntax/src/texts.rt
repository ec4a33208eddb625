//! The texts that are kept of a value.

ghost use Rattle.std.specs.Prelude.{◌≡◌, IfOk};
ghost use Rattle.std.specs.Option.{option_map};
ghost use Rattle.ldap_syntax.specs.Keys.{key_at};
ghost use Rattle.ldap_syntax.specs.Forms.{texts_of, text_in, is_met, is_met_by, is_plain_in as is_family_plain, are_plain as are_all_plain};

use crate::admitting::is_in_syntax;
use crate::fault::ValueError;
use crate::key::Key;
use crate::keying::{key_of, keys_compare};
use crate::plain::plain_meets;
use ldap_words::{Family, Rule, Syntax};
use std::alloc::{AllocError, Global};
use std::marker::Model;

/// The texts of a value: with its case and without, and as digits and as a telephone number where it is one.
pub struct Texts {
    exact: Option<Key>,
    ignore: Option<Key>,
    numeric: Option<Key>,
    telephone: Option<Key>,
}

// Not derived: see "What the gate takes" in docs/ARCHITECTURE.md.
impl Drop for Texts {
    fn drop(self) {
        let Texts {
            exact: _,
            ignore: _,
            numeric: _,
            telephone: _,
        } = self;
    }
}

impl Model for Texts {
    ghost use Rattle.ldap_syntax.specs.Forms.{TextsModel};

    ghost Value = { TextsModel };

    ghost view = { λ f. record { exact = f.exact; ignore = f.ignore; numeric = f.numeric; telephone = f.telephone } };
}

/// The value's key under the rule of a family and a syntax; none, where it means nothing under it.
fn text_of(
    alloc: Global,
    family: Family,
    syntax: Syntax,
    octets: &[u8],
) -> Result<Option<Key>, AllocError>
    ensures { IfOk result (λ k. k ≡ key_at (record { family = family; syntax = syntax }) octets.now) }
{
    match key_of(alloc, Rule { family, syntax }, octets) {
        Ok(key) => Ok(Some(key)),
        Err(ValueError::NotInSyntax) => {
            keys_compare();
            Ok(None)
        }
        Err(ValueError::NoMemory) => Err(AllocError),
    }
}

/// A copy of a key.
fn copy_of(alloc: Global, key: &Option<Key>) -> Result<Option<Key>, AllocError>
    ensures { IfOk result (λ k. k ≡ key.now) }
{
    match key {
        Some(key) => Ok(Some(key.copy(alloc)?)),
        None => Ok(None),
    }
}

impl Texts {
    /// The texts of a value. Its only error is want of memory.
    pub fn new(alloc: Global, octets: &[u8]) -> Result<Texts, AllocError>
        ensures { IfOk result (λ f. f ≡ texts_of octets.now) }
    {
        Ok(Texts {
            exact: text_of(alloc, Family::Exact, Syntax::OctetString, octets)?,
            ignore: text_of(alloc, Family::Ignore, Syntax::OctetString, octets)?,
            numeric: text_of(alloc, Family::Numeric, Syntax::NumericString, octets)?,
            telephone: text_of(alloc, Family::Telephone, Syntax::TelephoneNumber, octets)?,
        })
    }

    /// Whether a family's text of a value that is in the syntax is made of its octets alone.
    fn is_plain_in(&self, family: Family, syntax: Syntax, octets: &[u8]) -> bool
        ensures { result ≡ is_family_plain family syntax self.now octets.now }
    {
        if !is_in_syntax(syntax, octets) {
            return true;
        }
        match self.text(family) {
            Some(key) => plain_meets(family, octets, false, key),
            None => false,
        }
    }

    /// Whether each text is made of the value's octets alone.
    pub fn are_plain(&self, octets: &[u8]) -> bool
        ensures { result ≡ are_all_plain self.now octets.now }
    {
        (self.is_plain_in(Family::Exact, Syntax::OctetString, octets)
            && self.is_plain_in(Family::Ignore, Syntax::OctetString, octets))
            && (self.is_plain_in(Family::Numeric, Syntax::NumericString, octets)
                && self.is_plain_in(Family::Telephone, Syntax::TelephoneNumber, octets))
    }

    /// A copy.
    pub fn copy(&self, alloc: Global) -> Result<Texts, AllocError>
        ensures { IfOk result (λ f. f ≡ self.now) }
    {
        Ok(Texts {
            exact: copy_of(alloc, &self.exact)?,
            ignore: copy_of(alloc, &self.ignore)?,
            numeric: copy_of(alloc, &self.numeric)?,
            telephone: copy_of(alloc, &self.telephone)?,
        })
    }

    /// The text that the family goes by.
    fn text(&self, family: Family) -> Option<&Key>
        ensures { option_map (λ k. k.now) result ≡ text_in self.now family }
    {
        match family {
            Family::Ignore | Family::Ia5 => self.ignore.as_ref(),
            Family::Exact | Family::Ia5Exact => self.exact.as_ref(),
            Family::Numeric => self.numeric.as_ref(),
            Family::Telephone => self.telephone.as_ref(),
            Family::Identifier
            | Family::Name
            | Family::Boolean
            | Family::Integer
            | Family::Octet
            | Family::Time => None,
        }
    }

    /// Whether the text that the family goes by meets the asserted key. Takes no memory.
    pub fn meets(&self, family: Family, less: bool, asserted: &Key) -> bool
        ensures { result ≡ is_met_by less asserted.now (text_in self.now family) }
    {
        match self.text(family) {
            Some(key) => meets(key, less, asserted),
            None => false,
        }
    }
}

/// Whether a key is the asserted one, or where an order is asked for stands before it. Takes no memory.
pub fn meets(key: &Key, less: bool, asserted: &Key) -> bool
    ensures { result ≡ is_met less asserted.now key.now }
{
    if less {
        key.is_before(asserted)
    } else {
        key.is_same(asserted)
    }
}
