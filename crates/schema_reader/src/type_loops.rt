// Types whose SUP leads back to them. A type is on a loop where more SUPs than there are types lead to it: SUPs are
// taken twice as many at a time.

ghost use Rattle.std.specs.Prelude.{◌≡◌, ℕ, IfOk, length, map, replicate, false};
ghost use Rattle.schema_meaning.specs.Faults.{first_of_types};
ghost use Rattle.schema_reader.specs.Reading as reading;
ghost use Rattle.schema_reader.specs.private.Looping as looping;
ghost use Rattle.schema_reader.specs.private.Looping.{IsUpBut};

use ldap_schema::{AttributeType, TypeId};
use schema_meaning::Description;
use std::alloc::{AllocError, Global};

/// Where steps lead from a type.
fn step_at(steps: &[Option<TypeId>], type_id: TypeId) -> Option<TypeId>
    ensures { result ≡ looping.step_at steps.now type_id }
{
    match steps.get(type_id.number()) {
        Some(step) => *step,
        None => None,
    }
}

/// Where one step and then the steps lead.
fn step_on(steps: &[Option<TypeId>], step: Option<TypeId>) -> Option<TypeId>
    ensures { result ≡ looping.then_up step (looping.step_at steps.now) }
{
    match step {
        Some(type_id) => step_at(steps, type_id),
        None => None,
    }
}

/// The steps, each taken twice.
fn doubled(alloc: Global, steps: &[Option<TypeId>]) -> Result<Vec<Option<TypeId>>, AllocError>
    ensures { IfOk result (λ v. v.items ≡ looping.doubled steps.now) }
{
    let mut found = Vec::with_capacity(alloc, steps.len())?;
    for step in steps {
        found.push(step_on(steps, *step))?;
    }
    Ok(found)
}

/// The superior of each type.
fn superiors(alloc: Global, types: &[AttributeType]) -> Result<Vec<Option<TypeId>>, AllocError>
    ensures { IfOk result (λ v. v.items ≡ map (λ t. t.superior) types.now) }
{
    let mut found = Vec::with_capacity(alloc, types.len())?;
    for attribute_type in types {
        found.push(attribute_type.superior())?;
    }
    Ok(found)
}

/// Where more SUPs than there are types lead from each type.
fn far_up(alloc: Global, types: &[AttributeType]) -> Result<Vec<Option<TypeId>>, AllocError>
    ensures { IfOk result (λ v. IsUpBut types.now 0 v.items) }
{
    let mut steps = superiors(alloc, types)?;
    let mut left = types.len();
    while left > 0 {
        steps = doubled(alloc, steps.as_slice())?;
        left /= 2;
    }
    Ok(steps)
}

/// Marks the type that a step leads to.
fn mark(marks: &mut Vec<bool>, step: Option<TypeId>)
    ensures { marks.new.items ≡ looping.marked marks.old.items step }
{
    match step {
        Some(type_id) => {
            let number = type_id.number();
            if number < marks.len() {
                marks[number] = true;
            }
        }
        None => {}
    }
}

/// Marks of the types that steps lead to.
fn marks_of(alloc: Global, steps: &[Option<TypeId>]) -> Result<Vec<bool>, AllocError>
    ensures { IfOk result (λ v. v.items ≡ looping.all_marked (replicate (length steps.now) false) steps.now) }
{
    let mut marks = vec![in alloc; false; steps.len()]?;
    for step in steps {
        mark(&mut marks, *step);
    }
    Ok(marks)
}

/// Marks of the types whose SUP leads back to them.
fn looping_types(alloc: Global, types: &[AttributeType]) -> Result<Vec<bool>, AllocError>
    ensures { IfOk result (λ v. (t : ℕ) → looping.has_mark v.items t ≡ reading.is_type_looping types.now t) }
{
    let steps = far_up(alloc, types)?;
    let marks = marks_of(alloc, steps.as_slice())?;
    Ok(marks)
}

/// Whether a type has a mark.
pub fn has_mark(marks: &[bool], number: usize) -> bool
    ensures { result ≡ looping.has_mark marks.now number }
{
    match marks.get(number) {
        Some(mark) => *mark,
        None => false,
    }
}

/// The line of the first type whose SUP leads back to it.
pub fn type_loop(
    alloc: Global,
    types: &[AttributeType],
    descriptions: &[Description],
) -> Result<Option<usize>, AllocError>
    ensures { IfOk result (λ o. o ≡ first_of_types (λ t d. reading.is_type_looping types.now t) 0 descriptions.now) }
{
    let marks = looping_types(alloc, types)?;
    for (number, description) in descriptions.iter().enumerate() {
        if has_mark(marks.as_slice(), number) {
            return Ok(Some(description.line()));
        }
    }
    Ok(None)
}
