//! An object class.

ghost use Rattle.std.specs.Prelude.{◌≡◌, map, ℕ};
ghost use Rattle.std.specs.String.{string_bytes};
ghost use Rattle.ldap_schema.specs.Schema.{first_name_of};

use crate::attribute_type::TypeId;
use std::marker::Model;

/// The kind of a class (RFC 4512 2.4).
#[derive(Clone, Copy, Debug, PartialEq, Eq)]
pub enum ClassKind {
    Abstract,
    Structural,
    Auxiliary,
}

/// A class by its number in one schema.
#[derive(Clone, Copy, Debug, PartialEq, Eq)]
pub struct ClassId {
    number: usize,
}

impl Model for ClassId {
    ghost use Rattle.std.specs.Prelude.{ℕ};

    ghost Value = { ℕ };

    ghost view = { λ c. c.number };

    ghost inverse = { λ n. record { number = n } };
}

impl ClassId {
    /// The class of this number, which means something only in the schema that numbers it so.
    pub fn new(number: usize) -> ClassId
        ensures { result ≡ number }
    {
        ClassId { number }
    }

    /// The number of the class, from 0.
    pub fn number(self) -> usize
        ensures { result ≡ self }
    {
        self.number
    }
}

/// An object class (RFC 4512 4.1.1).
pub struct ObjectClass {
    /// The object identifier in dotted form.
    pub oid: String,
    /// The names, the first one first.
    pub names: Vec<String>,
    /// The classes that it is a direct subclass of, in the order written.
    pub superiors: Vec<ClassId>,
    /// Abstract, structural or auxiliary.
    pub kind: ClassKind,
    /// The types that its entries must have.
    pub required: Vec<TypeId>,
    /// The types that its entries may have.
    pub allowed: Vec<TypeId>,
}

// Not derived: see "What the gate takes" in docs/ARCHITECTURE.md.
impl Drop for ObjectClass {
    fn drop(self) {
        let ObjectClass {
            oid: _,
            names: _,
            superiors: _,
            kind: _,
            required: _,
            allowed: _,
        } = self;
    }
}

impl Model for ObjectClass {
    ghost use Rattle.std.specs.Prelude.{map};
    ghost use Rattle.std.specs.String.{string_bytes};
    ghost use Rattle.ldap_schema.specs.Schema.{ClassModel};

    ghost Value = { ClassModel };

    ghost view = { λ c. record {
      oid = string_bytes c.oid;
      names = map string_bytes c.names.items;
      superiors =
          c.superiors.items;
      kind = c.kind;
      required = c.required.items;
      allowed = c.allowed.items;
    } };
}

impl ObjectClass {
    /// The object identifier in dotted form.
    pub fn oid(&self) -> &str
        ensures { result.now ≡ self.now.oid }
    {
        self.oid.as_str()
    }

    /// The names, the first one first.
    pub fn names(&self) -> &[String]
        ensures { map string_bytes result.now ≡ self.now.names }
    {
        self.names.as_slice()
    }

    /// The first name, or the object identifier where it has none.
    pub fn first_name(&self) -> &str
        ensures { result.now ≡ first_name_of self.now.oid self.now.names }
    {
        match self.names.as_slice() {
            [] => self.oid.as_str(),
            [first, ..] => first.as_str(),
        }
    }

    /// The classes that it is a direct subclass of, in the order written.
    pub fn superiors(&self) -> &[ClassId]
        ensures { result.now ≡ self.now.superiors }
    {
        self.superiors.as_slice()
    }

    /// Abstract, structural or auxiliary.
    pub fn kind(&self) -> ClassKind
        ensures { result ≡ self.now.kind }
    {
        self.kind
    }

    /// The types that its entries must have.
    pub fn required(&self) -> &[TypeId]
        ensures { result.now ≡ self.now.required }
    {
        self.required.as_slice()
    }

    /// The types that its entries may have.
    pub fn allowed(&self) -> &[TypeId]
        ensures { result.now ≡ self.now.allowed }
    {
        self.allowed.as_slice()
    }
}
