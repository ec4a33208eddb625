//! Classes that are gathered, with the set of their numbers: whether a class is there is one look.

ghost use Rattle.std.specs.Prelude.{◌≡◌, ◌||◌, [], ◌∷◌, ◌++◌, nat_eq, cond, IfOk, OnOk, OnErr, slice_get};
ghost use Rattle.ldap_schema.specs.Superclasses.{is_among as is_one_of};
ghost use Rattle.ldap_schema.specs.private.Marks.{AreNumbersOf};

use crate::class::ClassId;
use std::alloc::{AllocError, Global};
use std::collections::BTreeSet;
use std::marker::Model;

/// Classes in order, and the numbers of them.
#[derive(Drop)]
pub struct Gathered {
    classes: Vec<ClassId>,
    numbers: BTreeSet<usize>,
}

impl Model for Gathered {
    ghost use Rattle.std.specs.Prelude.{ℕ, List};
    ghost use Rattle.ldap_schema.specs.private.Marks.{AreNumbersOf};

    ghost Value = { List ℕ };

    ghost view = { λ g. g.classes.items };

    ghost invariant = { λ g. AreNumbersOf g.classes.items g.numbers };
}

/// Whether the class is in the list.
pub fn is_class_among(classes: &[ClassId], class: ClassId) -> bool
    ensures { result ≡ is_one_of classes.now class }
{
    classes.iter().any(|other| class == *other)
}

/// The numbers of the classes.
fn numbers_of(alloc: Global, classes: &[ClassId]) -> Result<BTreeSet<usize>, AllocError>
    ensures { IfOk result (λ numbers. AreNumbersOf classes.now numbers) }
{
    let mut numbers = BTreeSet::new(alloc);
    for class in classes {
        numbers.insert(class.number())?;
    }
    Ok(numbers)
}

impl Gathered {
    /// These classes.
    pub fn of(alloc: Global, classes: &[ClassId]) -> Result<Gathered, AllocError>
        ensures { IfOk result (λ g. g ≡ classes.now) }
    {
        let numbers = numbers_of(alloc, classes)?;
        let classes = Vec::from_slice(alloc, classes)?;
        Ok(Gathered { classes, numbers })
    }

    /// Whether the class is among them.
    pub fn contains(&self, class: ClassId) -> bool
        ensures { result ≡ is_one_of self.now class }
    {
        self.numbers.contains(&class.number())
    }

    /// Whether a class is the other, or the other is among them.
    pub fn is_or_has(&self, class: ClassId, other: ClassId) -> bool
        ensures { result ≡ (nat_eq class other || is_one_of self.now other) }
    {
        class == other || self.contains(other)
    }

    /// Adds the class at the end, unless it is there.
    pub fn add(&mut self, class: ClassId) -> Result<(), AllocError>
        ensures ok { OnOk result (self.new ≡ cond (is_one_of self.old class) self.old (self.old ++ class ∷ [])) }
        ensures err { OnErr result (self.new ≡ self.old) }
    {
        if self.contains(class) {
            return Ok(());
        }
        self.classes.reserve(1)?;
        self.numbers.insert(class.number())?;
        self.classes.push_reserved(class);
        Ok(())
    }

    /// The class at a place.
    pub fn at(&self, place: usize) -> Option<ClassId>
        ensures { result ≡ slice_get self.now place }
    {
        self.classes.as_slice().get(place).copied()
    }

    /// The classes in order.
    pub fn into_classes(self) -> Vec<ClassId>
        ensures { result.items ≡ self }
    {
        self.classes
    }
}
