// Classes whose superclasses lead back to them. Classes get ranks that never rise on a way up; where they fall at once
// from a class, no way leads back to it. Only other classes are searched one by one, and the first of them mostly is on
// a loop.

ghost use Rattle.std.specs.Prelude.{◌≡◌, IfOk, IsTrue, nat_le, nat_lt};
ghost use Rattle.std.specs.List.{list_all};
ghost use Rattle.ldap_schema.specs.Lines.{rank_in};
ghost use Rattle.schema_meaning.specs.Faults.{first_of_types};
ghost use Rattle.schema_reader.specs.Reading as reading;
ghost use Rattle.schema_reader.specs.private.Falling.{IsFalling};

use crate::ranking::ranks_of;
use ldap_schema::{
    ClassId, ObjectClass, is_class_among, rank_of, superclasses_of, with_superclasses,
};
use schema_meaning::Description;
use std::alloc::{AllocError, Global};

/// Whether none of these has a greater rank than a class.
fn is_none_higher(ranks: &[usize], class: ClassId, superclasses: &[ClassId]) -> bool
    ensures { result ≡ list_all (λ u. nat_le (rank_in ranks.now u) (rank_in ranks.now class)) superclasses.now }
{
    let rank = rank_of(ranks, class);
    superclasses
        .iter()
        .all(|above| rank_of(ranks, *above) <= rank)
}

/// Whether each of these has a lesser rank than a class.
fn is_each_lower(ranks: &[usize], class: ClassId, superclasses: &[ClassId]) -> bool
    ensures { result ≡ list_all (λ u. nat_lt (rank_in ranks.now u) (rank_in ranks.now class)) superclasses.now }
{
    let rank = rank_of(ranks, class);
    superclasses
        .iter()
        .all(|above| rank_of(ranks, *above) < rank)
}

/// Whether no class has a lesser rank than one of its direct superclasses.
fn are_falling(classes: &[ObjectClass], ranks: &[usize]) -> bool
    ensures { IsTrue result → IsFalling classes.now ranks.now }
{
    for number in 0..classes.len() {
        let class = ClassId::new(number);
        if !is_none_higher(ranks, class, superclasses_of(classes, class)) {
            return false;
        }
    }
    true
}

/// Ranks that never rise on a way up; no ranks, should the walk have found others.
fn falling_ranks(alloc: Global, classes: &[ObjectClass]) -> Result<Vec<usize>, AllocError>
    ensures { IfOk result (λ v. IsFalling classes.now v.items) }
{
    let ranks = ranks_of(alloc, classes)?;
    if are_falling(classes, ranks.as_slice()) {
        return Ok(ranks);
    }
    Ok(Vec::new(alloc))
}

/// Whether the superclasses of a class lead back to it.
fn is_class_looping(
    alloc: Global,
    classes: &[ObjectClass],
    ranks: &[usize],
    number: usize,
) -> Result<bool, AllocError>
    requires { IsFalling classes.now ranks.now }
    ensures { IfOk result (λ b. b ≡ reading.is_class_looping classes.now number) }
{
    let class = ClassId::new(number);
    let direct = superclasses_of(classes, class);
    if is_each_lower(ranks, class, direct) {
        return Ok(false);
    }
    let above = with_superclasses(alloc, classes, direct)?;
    Ok(is_class_among(above.as_slice(), class))
}

/// The line of the first class whose superclasses lead back to it.
pub fn class_loop(
    alloc: Global,
    classes: &[ObjectClass],
    descriptions: &[Description],
) -> Result<Option<usize>, AllocError>
    ensures { IfOk result (λ o. o ≡ first_of_types (λ c d. reading.is_class_looping classes.now c) 0 descriptions.now) }
{
    let ranks = falling_ranks(alloc, classes)?;
    for (number, description) in descriptions.iter().enumerate() {
        if is_class_looping(alloc, classes, ranks.as_slice(), number)? {
            return Ok(Some(description.line()));
        }
    }
    Ok(None)
}
