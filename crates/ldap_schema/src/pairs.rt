//! Classes in line (RFC 4512 2.4.2), pair by pair, whatever their superclasses.

ghost use Rattle.std.specs.Prelude.{◌≡◌, ◌||◌, IfOk, nat_eq};
ghost use Rattle.std.specs.List.{list_all};
ghost use Rattle.ldap_schema.specs.Superclasses.{is_among};
ghost use Rattle.ldap_schema.specs.Lines.{is_either_under as is_one_under_other, are_all_in_line, lowest_in};
ghost use Rattle.ldap_schema.specs.private.Lines.{is_under_in};

use crate::class::{ClassId, ObjectClass};
use crate::gathered::Gathered;
use crate::superclasses::gather;
use std::alloc::{AllocError, Global};

/// Whether the first class is the second one, or the second is a superclass of it.
fn leads_to(
    alloc: Global,
    classes: &[ObjectClass],
    below: ClassId,
    above: ClassId,
) -> Result<bool, AllocError>
    ensures { IfOk result (λ b. b ≡ is_under_in classes.now below above) }
{
    let all = gather(alloc, classes, &[below])?;
    Ok(all.is_or_has(below, above))
}

/// Whether one of two classes is under the other.
fn is_either_under(
    alloc: Global,
    classes: &[ObjectClass],
    a: ClassId,
    b: ClassId,
) -> Result<bool, AllocError>
    ensures { IfOk result (λ r. r ≡ is_one_under_other (is_under_in classes.now) a b) }
{
    if leads_to(alloc, classes, a, b)? {
        return Ok(true);
    }
    leads_to(alloc, classes, b, a)
}

/// Whether the class is in line with all of the others.
fn is_in_line(
    alloc: Global,
    classes: &[ObjectClass],
    class: ClassId,
    others: &[ClassId],
) -> Result<bool, AllocError>
    ensures { IfOk result (λ b. b ≡ list_all (is_one_under_other (is_under_in classes.now) class) others.now) }
{
    for other in others {
        if !is_either_under(alloc, classes, class, *other)? {
            return Ok(false);
        }
    }
    Ok(true)
}

/// Whether each two of the classes are in line, which looks at each two.
pub fn is_each_in_line(
    alloc: Global,
    classes: &[ObjectClass],
    named: &[ClassId],
) -> Result<bool, AllocError>
    ensures { IfOk result (λ b. b ≡ are_all_in_line (is_under_in classes.now) named.now) }
{
    for class in named {
        if !is_in_line(alloc, classes, *class, named)? {
            return Ok(false);
        }
    }
    Ok(true)
}

/// Whether the class is each of the others, or they are superclasses of it, which are gathered.
fn is_under_each(all: &Gathered, class: ClassId, others: &[ClassId]) -> bool
    ensures { result ≡ list_all (λ c. nat_eq class c || is_among all.now c) others.now }
{
    others.iter().all(|other| all.is_or_has(class, *other))
}

/// Whether the class is under all of the others.
fn is_under_all(
    alloc: Global,
    classes: &[ObjectClass],
    class: ClassId,
    others: &[ClassId],
) -> Result<bool, AllocError>
    ensures { IfOk result (λ b. b ≡ list_all (is_under_in classes.now class) others.now) }
{
    let all = gather(alloc, classes, &[class])?;
    Ok(is_under_each(&all, class, others))
}

/// The first of the classes that is under all of the others.
pub fn lowest_among(
    alloc: Global,
    classes: &[ObjectClass],
    named: &[ClassId],
    others: &[ClassId],
) -> Result<Option<ClassId>, AllocError>
    ensures { IfOk result (λ c. c ≡ lowest_in (is_under_in classes.now) named.now others.now) }
{
    for class in named {
        if is_under_all(alloc, classes, *class, others)? {
            return Ok(Some(*class));
        }
    }
    Ok(None)
}
