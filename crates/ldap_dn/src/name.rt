//! A name: a list of relative names.

ghost use Rattle.std.specs.Prelude.{string_bytes, ◌≡◌, ◌↔◌, ◌-◌, length, take, None, Some, IfOk, IsErrOf, IsTrue, MatchOption, []};
ghost use Rattle.ldap_dn.specs.NameTexts.{NamesAreOfTexts};
ghost use Rattle.ldap_dn.specs.Names.{IsSameName, IsBelow, rdns};
ghost use Rattle.ldap_dn.specs.NameKeys.{name_key};
ghost use Rattle.ldap_dn.specs.Printed.{printed_name};
ghost use Rattle.ldap_dn.specs.Texts.{name_of_text};

use crate::comparing::is_front;
use crate::fault::NameError;
use crate::keying::key_octets;
use crate::printing::print;
use crate::rdn::{Rdn, copy_rdns};
use crate::reading::rdns as rdns_of_tokens;
use crate::scanning::tokens;
use ldap_schema::Schema;
use ldap_syntax::Key;
use std::alloc::{AllocError, Global};
use std::marker::Model;

/// A name (RFC 4512 2.3.2): its relative names, the root's first.
pub struct Name {
    rdns: Vec<Rdn>,
}

// Not derived: see "What the gate takes" in docs/ARCHITECTURE.md.
impl Drop for Name {
    fn drop(self) {
        let Name { rdns: _ } = self;
    }
}

impl Model for Name {
    ghost use Rattle.std.specs.Prelude.{List};
    ghost use Rattle.ldap_dn.specs.Names.{RdnModel};

    ghost Value = { List RdnModel };

    ghost view = { λ n. n.rdns.items };
}

impl Name {
    /// The name of a text (RFC 4514 3). A text of another form is refused as E17, and so is one whose types or values
    /// are not the schema's.
    pub fn read(alloc: Global, schema: &Schema, text: &str) -> Result<Name, NameError>
        ensures found { IfOk result (λ n. name_of_text schema.now text.now ≡ Some n) }

        // E17 comes only where the text is no name's.
        ensures refused { IsErrOf result NameError.BadName → name_of_text schema.now text.now ≡ None }
    {
        let tokens = tokens(alloc, text.as_bytes())?;
        let rdns = rdns_of_tokens(alloc, schema, tokens.as_slice())?;
        Ok(Name { rdns })
    }

    /// The name of these relative names, the root's first. Takes no memory.
    pub fn from_rdns(rdns: Vec<Rdn>) -> Name
        ensures { result ≡ rdns.items }
    {
        Name { rdns }
    }

    /// The relative names, the root's first. Takes no memory.
    pub fn into_rdns(self) -> Vec<Rdn>
        ensures { result.items ≡ self }
    {
        let Name { rdns } = self;
        rdns
    }

    /// A copy.
    pub fn copy(&self, alloc: Global) -> Result<Name, AllocError>
        ensures { IfOk result (λ n. n ≡ self.now) }
    {
        Ok(Name {
            rdns: copy_rdns(alloc, self.rdns())?,
        })
    }

    /// The one printed form (RFC 4514 2): types by first name, the values as they were written, and nothing escaped
    /// that need not be. Its only error is want of memory.
    pub fn print(&self, alloc: Global, schema: &Schema) -> Result<String, AllocError>
        ensures { IfOk result (λ t. string_bytes t ≡ printed_name schema.now self.now) }
    {
        print(alloc, schema, self.rdns())
    }

    /// The key of the name as a value (RFC 4517 4.2.15): names have one key exactly where they are one name
    /// (`name_keys_are_of_names`). Its only error is want of memory.
    pub fn key(&self, alloc: Global) -> Result<Key, AllocError>
        ensures { IfOk result (λ k. k ≡ name_key (rdns self.now)) }
    {
        Ok(Key::new(key_octets(alloc, self.rdns())?))
    }

    /// The relative names, the root's first.
    pub fn rdns(&self) -> &[Rdn]
        ensures { result.now ≡ self.now }
    {
        self.rdns.as_slice()
    }

    /// How many relative names it has; the empty name has none.
    pub fn len(&self) -> usize
        ensures { result ≡ length self.now }
    {
        self.rdns.as_slice().len()
    }

    /// Whether this is the empty name.
    pub fn is_empty(&self) -> bool
        ensures { IsTrue result ↔ (self.now ≡ []) }
    {
        self.rdns.as_slice().is_empty()
    }

    /// Whether the two are one name, whatever their spellings: the relative names are the same sets. Takes no memory.
    pub fn same(&self, other: &Name) -> bool
        ensures { IsTrue result ↔ IsSameName self.now other.now }
    {
        self.len() == other.len() && is_front(self.rdns(), other.rdns())
    }

    /// Whether this name stands below the other, and is another one. Takes no memory.
    pub fn is_below(&self, other: &Name) -> bool
        ensures { IsTrue result ↔ IsBelow self.now other.now }
    {
        other.len() < self.len() && is_front(other.rdns(), self.rdns())
    }

    /// The name that stands right above this one; none above the empty name.
    pub fn parent(self) -> Option<Name>
        ensures { MatchOption result (self ≡ []) (λ p. p ≡ take (length self - 1) self) }
    {
        let Name { mut rdns } = self;
        match rdns.pop() {
            Some(_) => Some(Name { rdns }),
            None => None,
        }
    }
}

/// The name that `Name::read` finds is the one whose text it is by the grammar, and where it finds none the text is no
/// name's.
pub fn names_are_of_texts()
    ensures { NamesAreOfTexts }
{}
