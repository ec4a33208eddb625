//! The schema: a table of types and one of classes, and ranks of classes, computed once.

ghost use Rattle.std.specs.Prelude.{◌≡◌, IfOk, IfSome, IsSome, option_map, slice_get, length, ◌↔◌, IsTrue, ℕ};
ghost use Rattle.std.specs.Option.{option_copied};
ghost use Rattle.ldap_schema.specs.Schema.{find as find_type, class_named, class_name, is_under as is_under_type, IsUnder};
ghost use Rattle.ldap_schema.specs.Superclasses.{missing_superclasses as superclasses_missing, is_subclass as is_class_under, IsSubclass};
ghost use Rattle.ldap_schema.specs.Lines.{are_all_in_line, lowest_in};
ghost use Rattle.ldap_schema.specs.ObjectClassType.{IsObjectClassType};
ghost use Rattle.ldap_schema.specs.Schema.{IsLoopless};
ghost use Rattle.ldap_schema.specs.Superclasses.{AreSuperclassesKnown};

use crate::attribute_type::{AttributeType, TypeId};
use crate::class::{ClassId, ObjectClass};
use crate::lines::{are_ranked_in_line, lowest_ranked};
use crate::name_index::NameIndex;
use crate::pairs::{is_each_in_line, lowest_among};
use crate::ranking::{are_ranks, ranks_of};
use crate::superclasses::with_superclasses;
use crate::tables::leads_to;
use std::alloc::{AllocError, Global};
use std::marker::Model;

/// The types and classes that entries and filters speak of (RFC 4512 4).
pub struct Schema {
    types: Vec<AttributeType>,
    classes: Vec<ObjectClass>,
    /// Of each class a rank.
    ranks: Vec<usize>,
    /// Whether each class has a greater rank than its superclasses: always, but where superclasses lead back to where
    /// they began.
    is_ranked: bool,
    /// The type objectClass.
    object_class: TypeId,
    /// The numbers of the types by what they are called.
    type_index: NameIndex,
    /// The numbers of the classes by what they are called.
    class_index: NameIndex,
}

// Not derived: see "What the gate takes" in docs/ARCHITECTURE.md.
impl Drop for Schema {
    fn drop(self) {
        let Schema {
            types: _,
            classes: _,
            ranks: _,
            is_ranked: _,
            object_class: _,
            type_index: _,
            class_index: _,
        } = self;
    }
}

impl Model for Schema {
    ghost use Rattle.ldap_schema.specs.Schema.{SchemaModel};
    ghost use Rattle.ldap_schema.specs.private.Tables.{AreTablesOf};

    ghost Value = { SchemaModel };

    ghost view = { λ s. record { types = s.types.items; classes = s.classes.items } };

    ghost invariant = { λ s. AreTablesOf (record { types = s.types.items; classes = s.classes.items })
        s.ranks.items s.is_ranked s.object_class s.type_index s.class_index };
}

impl Schema {
    /// The schema of these types and classes, numbered as they stand: no SUP of a type leads back to it, the
    /// superclasses are classes of the list, and one of the types is objectClass (RFC 4512 3.3, 4.1). Its only error is
    /// want of memory.
    pub fn of_parts(
        alloc: Global,
        types: Vec<AttributeType>,
        classes: Vec<ObjectClass>,
        object_class: TypeId,
    ) -> Result<Schema, AllocError>
        requires loopless { IsLoopless types.items }
        requires known { AreSuperclassesKnown classes.items }
        requires object_class { IsObjectClassType (record { types = types.items; classes = classes.items })
            object_class }
        ensures { IfOk result (λ s. s ≡ record { types = types.items; classes = classes.items }) }
    {
        let ranks = ranks_of(alloc, classes.as_slice())?;
        let is_ranked = are_ranks(classes.as_slice(), ranks.as_slice());
        let type_index = NameIndex::of_types(alloc, types.as_slice())?;
        let class_index = NameIndex::of_classes(alloc, classes.as_slice())?;
        Ok(Schema {
            types,
            classes,
            ranks,
            is_ranked,
            object_class,
            type_index,
            class_index,
        })
    }

    /// The type objectClass (RFC 4512 3.3), whose values are matched as object identifiers.
    pub fn object_class_type(&self) -> TypeId
        ensures { IsObjectClassType self.now result }
    {
        self.object_class
    }

    /// The superclasses that are missing among the classes (RFC 4512 2.4): for each class in turn, missing ones
    /// included, its direct superclasses in the order written. Each class is looked at once; its only error is want of
    /// memory.
    pub fn missing_superclasses(
        &self,
        alloc: Global,
        classes: &[ClassId],
    ) -> Result<Vec<ClassId>, AllocError>
        ensures { IfOk result (λ v. v.items ≡ superclasses_missing self.now classes.now) }
    {
        let all = with_superclasses(alloc, self.classes.as_slice(), classes)?;
        all.iter().skip(classes.len()).copied().collect(alloc)
    }

    /// Whether of each two of the classes one is the other or a superclass of it (RFC 4512 2.4.2). It takes as many
    /// steps as the classes have superclasses between them, once sorted. Its only error is want of memory.
    pub fn are_in_line(&self, alloc: Global, classes: &[ClassId]) -> Result<bool, AllocError>
        ensures { IfOk result (λ b. b ≡ are_all_in_line (is_class_under self.now) classes.now) }
    {
        if self.is_ranked {
            return are_ranked_in_line(
                alloc,
                self.classes.as_slice(),
                self.ranks.as_slice(),
                classes,
            );
        }
        is_each_in_line(alloc, self.classes.as_slice(), classes)
    }

    /// The first of the classes that all of them are, or are superclasses of (RFC 4512 2.4.2); none, where there is
    /// none. Its only error is want of memory.
    pub fn lowest(&self, alloc: Global, classes: &[ClassId]) -> Result<Option<ClassId>, AllocError>
        ensures { IfOk result (λ c. c ≡ lowest_in (is_class_under self.now) classes.now classes.now) }
    {
        if self.is_ranked {
            return lowest_ranked(
                alloc,
                self.classes.as_slice(),
                self.ranks.as_slice(),
                classes,
            );
        }
        lowest_among(alloc, self.classes.as_slice(), classes, classes)
    }

    /// Of any two classes: the first is under the second exactly where a chain of superclasses leads there (RFC 4512
    /// 2.4). It does nothing.
    pub fn subclass_law(&self)
        ensures { (a b : ℕ) → IsTrue (is_class_under self.now a b) ↔ IsSubclass self.now a b }
    {
        let _ = self.classes.len();
    }

    /// The type that the description stands for, by a name in any case or by its object identifier. A description that
    /// is not recognised stands for none, and so does one with options.
    pub fn find(&self, description: &str) -> Option<TypeId>
        ensures { result ≡ find_type self.now description.now }
    {
        self.find_octets(description.as_bytes())
    }

    /// As `find`, of the octets of a value.
    pub fn find_octets(&self, name: &[u8]) -> Option<TypeId>
        ensures { result ≡ find_type self.now name.now }
    {
        match self.type_index.find(name) {
            Some(number) => Some(TypeId::new(number)),
            None => None,
        }
    }

    /// The class of a name in any case, or of an object identifier.
    pub fn class(&self, name: &str) -> Option<ClassId>
        ensures { result ≡ class_named self.now name.now }
    {
        self.class_octets(name.as_bytes())
    }

    /// As `class`, of the octets of a value.
    pub fn class_octets(&self, name: &[u8]) -> Option<ClassId>
        ensures { result ≡ class_named self.now name.now }
    {
        match self.class_index.find(name) {
            Some(number) => Some(ClassId::new(number)),
            None => None,
        }
    }

    /// The type of a number; none, where the number is another schema's.
    pub fn attribute_type(&self, type_id: TypeId) -> Option<&AttributeType>
        ensures { option_copied result ≡ slice_get self.now.types type_id }
    {
        self.types.as_slice().get(type_id.number())
    }

    /// The class of a number; none, where the number is another schema's.
    pub fn object_class(&self, class_id: ClassId) -> Option<&ObjectClass>
        ensures { option_copied result ≡ slice_get self.now.classes class_id }
    {
        self.classes.as_slice().get(class_id.number())
    }

    /// The first name of a class, by which the class is found again; none, where the number is another schema's.
    pub fn class_name(&self, class_id: ClassId) -> Option<&str>
        ensures name { option_map (λ n. n.now) result ≡ class_name self.now class_id }
        ensures found { IfSome result (λ n. IsSome (class_named self.now n.now)) }
    {
        Some(self.object_class(class_id)?.first_name())
    }

    /// How many types there are; they are numbered from 0.
    pub fn count_of_types(&self) -> usize
        ensures { result ≡ length self.now.types }
    {
        self.types.len()
    }

    /// Whether the first type is the second one, or its SUP leads there (RFC 4512 2.5.1). Takes no memory.
    pub fn is_under(&self, below: TypeId, above: TypeId) -> bool
        ensures table { result ≡ is_under_type self.now below above }

        // It is the chain of SUPs.
        ensures chain { IsTrue result ↔ IsUnder self.now below above }
    {
        below == above || leads_to(self.types.as_slice(), below, above)
    }
}
