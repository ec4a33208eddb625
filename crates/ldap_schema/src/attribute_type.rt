//! An attribute type.

ghost use Rattle.std.specs.Prelude.{◌≡◌, map, ℕ};
ghost use Rattle.std.specs.String.{string_bytes};

use ldap_words::{Rule, Syntax};
use std::marker::Model;

/// A type by its number in one schema.
#[derive(Clone, Copy, Debug, PartialEq, Eq)]
pub struct TypeId {
    number: usize,
}

impl Model for TypeId {
    ghost use Rattle.std.specs.Prelude.{ℕ};

    ghost Value = { ℕ };

    ghost view = { λ t. t.number };

    ghost inverse = { λ n. record { number = n } };
}

impl TypeId {
    /// The type of this number, which means something only in the schema that numbers it so.
    pub fn new(number: usize) -> TypeId
        ensures { result ≡ number }
    {
        TypeId { number }
    }

    /// The number of the type, from 0.
    pub fn number(self) -> usize
        ensures { result ≡ self }
    {
        self.number
    }
}

/// An attribute type (RFC 4512 4.1.2), with what it inherits from its superior type already in place.
pub struct AttributeType {
    /// The object identifier in dotted form.
    pub oid: String,
    /// The names, the first one first.
    pub names: Vec<String>,
    /// The type that it is a direct subtype of.
    pub superior: Option<TypeId>,
    /// The syntax of its values.
    pub syntax: Syntax,
    /// The EQUALITY rule in effect.
    pub equality: Option<Rule>,
    /// The ORDERING rule in effect.
    pub ordering: Option<Rule>,
    /// The SUBSTR rule in effect.
    pub substrings: Option<Rule>,
    /// Whether an entry has at most one value of it.
    pub is_single_value: bool,
}

// Not derived: see "What the gate takes" in docs/ARCHITECTURE.md.
impl Drop for AttributeType {
    fn drop(self) {
        let AttributeType {
            oid: _,
            names: _,
            superior: _,
            syntax: _,
            equality: _,
            ordering: _,
            substrings: _,
            is_single_value: _,
        } = self;
    }
}

impl Model for AttributeType {
    ghost use Rattle.std.specs.Prelude.{map};
    ghost use Rattle.std.specs.String.{string_bytes};
    ghost use Rattle.ldap_schema.specs.Schema.{TypeModel};

    ghost Value = { TypeModel };

    ghost view = { λ t. record {
      oid = string_bytes t.oid;
      names = map string_bytes t.names.items;
      superior =
          t.superior;
      syntax = t.syntax;
      equality = t.equality;
      ordering = t.ordering;
      substrings = t.substrings;
      is_single_value = t.is_single_value;
    } };
}

impl AttributeType {
    /// The object identifier in dotted form.
    pub fn oid(&self) -> &str
        ensures { result.now ≡ self.now.oid }
    {
        self.oid.as_str()
    }

    /// The names, the first one first.
    pub fn names(&self) -> &[String]
        ensures { map string_bytes result.now ≡ self.now.names }
    {
        self.names.as_slice()
    }

    /// The type that it is a direct subtype of.
    pub fn superior(&self) -> Option<TypeId>
        ensures { result ≡ self.now.superior }
    {
        self.superior
    }

    /// The syntax of its values, own or inherited.
    pub fn syntax(&self) -> Syntax
        ensures { result ≡ self.now.syntax }
    {
        self.syntax
    }

    /// The EQUALITY rule in effect, own or inherited.
    pub fn equality(&self) -> Option<Rule>
        ensures { result ≡ self.now.equality }
    {
        self.equality
    }

    /// The ORDERING rule in effect, own or inherited.
    pub fn ordering(&self) -> Option<Rule>
        ensures { result ≡ self.now.ordering }
    {
        self.ordering
    }

    /// The SUBSTR rule in effect, own or inherited.
    pub fn substrings(&self) -> Option<Rule>
        ensures { result ≡ self.now.substrings }
    {
        self.substrings
    }

    /// Whether an entry has at most one value of it.
    pub fn is_single_value(&self) -> bool
        ensures { result ≡ self.now.is_single_value }
    {
        self.is_single_value
    }
}
