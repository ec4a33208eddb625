//! Classes and their superclasses.

ghost use Rattle.std.specs.Prelude.{◌≡◌, IfOk, OnOk};
ghost use Rattle.ldap_schema.specs.Superclasses.{direct_superclasses, with_missing, filled};

use crate::class::{ClassId, ObjectClass};
use crate::gathered::Gathered;
use std::alloc::{AllocError, Global};

/// The direct superclasses of a class; none, where there is no such class.
pub fn superclasses_of(classes: &[ObjectClass], class: ClassId) -> &[ClassId]
    ensures { result.now ≡ direct_superclasses classes.now class }
{
    match classes.get(class.number()) {
        Some(found) => found.superiors(),
        None => &[],
    }
}

/// Adds those of the classes that are missing at the end.
pub fn add_missing(have: &mut Gathered, classes: &[ClassId]) -> Result<(), AllocError>
    ensures { OnOk result (have.new ≡ with_missing have.old classes.now) }
{
    for class in classes {
        have.add(*class)?;
    }
    Ok(())
}

/// The classes, and at the end their superclasses that are missing. Each class is looked at once.
pub fn gather(
    alloc: Global,
    classes: &[ObjectClass],
    named: &[ClassId],
) -> Result<Gathered, AllocError>
    ensures { IfOk result (λ g. g ≡ filled classes.now named.now) }
{
    let mut have = Gathered::of(alloc, named)?;
    for place in 0..named.len() + classes.len() {
        let Some(class) = have.at(place) else {
            return Ok(have);
        };
        add_missing(&mut have, superclasses_of(classes, class))?;
    }
    Ok(have)
}

/// The classes, and at the end their superclasses that are missing, in as many steps as there are such classes and
/// superclasses of them.
pub fn with_superclasses(
    alloc: Global,
    classes: &[ObjectClass],
    named: &[ClassId],
) -> Result<Vec<ClassId>, AllocError>
    ensures { IfOk result (λ v. v.items ≡ filled classes.now named.now) }
{
    Ok(gather(alloc, classes, named)?.into_classes())
}
