//! A description whose SUP leads back to it: the way there.
ghost use Rattle.std.specs.Prelude.{◌≡◌, ◌<◌, [], true, IfOk, OnOk, length, map, option_map, reverse, slice_get, string_bytes, take};
ghost use Rattle.std.specs.List.{list_any};
ghost use Rattle.schema_faults.specs.Loops.{with_title, with_described, along, way_shown, way_sentence, type_above, types_from, type_loop};
ghost use Rattle.schema_faults.specs.Loops.{is_calling, is_right_above, IsWayOf, IsClassLoop};
ghost use Rattle.schema_faults.specs.private.Reaching.{with_class, with_found, with_called, with_superiors, class_at, IsOrder, IsReached};

use crate::repeats::title;
use schema_meaning::{Called, Keyword, superior_of};
use std::alloc::{AllocError, Global};
use std::marker::Model;

/// How many descriptions on the way are shown.
const LIMIT: usize = 8;

/// Adds a description to a way, by its title.
fn push_title(way: &mut String, title: &str) -> Result<(), AllocError>
    ensures { OnOk result (string_bytes way.new ≡ with_title (string_bytes way.old) title.now) }
{
    if !way.is_empty() {
        way.push_str(" to ")?;
    }
    way.push_str("'")?;
    way.push_str(title)?;
    way.push_str("'")
}

/// Adds the description of a number to a way.
fn push_described(
    alloc: Global,
    way: &mut String,
    called: &Called,
    number: usize,
) -> Result<(), AllocError>
    ensures { OnOk result (string_bytes way.new ≡ with_described (string_bytes way.old) (slice_get called.now number)) }
{
    match called.all().get(number) {
        Some(description) => {
            let title = title(alloc, description)?;
            push_title(way, title.as_str())
        }
        None => Ok(()),
    }
}

/// The way along descriptions of these numbers.
fn along(alloc: Global, called: &Called, numbers: &[usize]) -> Result<String, AllocError>
    ensures { IfOk result (λ s. string_bytes s ≡ along called.now [] numbers.now) }
{
    let mut way = String::new(alloc);
    for number in numbers {
        push_described(alloc, &mut way, called, *number)?;
    }
    Ok(way)
}

/// The first numbers, as many as are shown.
fn first_of(numbers: &[usize]) -> &[usize]
    ensures { result.now ≡ take 8 numbers.now }
{
    if LIMIT < numbers.len() {
        &numbers[..LIMIT]
    } else {
        numbers
    }
}

/// The way along descriptions of these numbers, or its front.
fn way_shown(alloc: Global, called: &Called, numbers: &[usize]) -> Result<String, AllocError>
    ensures { IfOk result (λ s. string_bytes s ≡ way_shown called.now numbers.now) }
{
    let mut way = along(alloc, called, first_of(numbers))?;
    if LIMIT < numbers.len() {
        way.push_str(" to ..")?;
    }
    Ok(way)
}

/// A sentence of the way along descriptions of these numbers.
fn way_along(alloc: Global, called: &Called, numbers: &[usize]) -> Result<String, AllocError>
    ensures { IfOk result (λ s. string_bytes s ≡ way_sentence called.now numbers.now) }
{
    let way = way_shown(alloc, called, numbers)?;
    format!(in alloc; "SUP leads back: from {way}")
}

/// The type that the SUP of a type names.
fn type_above(types: &Called, number: usize) -> Option<usize>
    ensures { result ≡ type_above types.now number }
{
    match types.all().get(number) {
        Some(description) => superior_of(types, description),
        None => None,
    }
}

/// The numbers of the types that a type's SUP leads to, up to itself.
fn types_up(alloc: Global, types: &Called, start: usize) -> Result<Vec<usize>, AllocError>
    ensures { IfOk result (λ v. v.items ≡ types_from types.now start start types.now) }
{
    let mut numbers = Vec::new(alloc);
    let mut current = start;
    let all = types.all();
    for description in all {
        let _ = description;
        numbers.push(current)?;
        match type_above(types, current) {
            Some(above) => {
                if above == start {
                    numbers.push(start)?;
                    return Ok(numbers);
                }
                current = above;
            }
            None => return Ok(numbers),
        }
    }
    Ok(numbers)
}

/// The way from a type back to itself.
pub fn of_type(alloc: Global, types: &Called, number: usize) -> Result<String, AllocError>
    ensures { IfOk result (λ s. string_bytes s ≡ type_loop types.now number) }
{
    let numbers = types_up(alloc, types, number)?;
    way_along(alloc, types, numbers.as_slice())
}

/// A class that was reached, and the place in the order of the one that it was reached from.
#[derive(Clone, Copy)]
pub struct Step {
    pub class: usize,
    pub from: usize,
}

/// Classes that were reached, in this order, and for each class whether it was.
pub struct Reached {
    order: Vec<Step>,
    seen: Vec<bool>,
}

// Not derived: see "What the gate takes" in docs/ARCHITECTURE.md.
impl Drop for Reached {
    fn drop(self) {
        let Reached { order: _, seen: _ } = self;
    }
}

impl Model for Reached {
    ghost use Rattle.schema_faults.specs.private.Reaching.{ReachedModel};

    ghost Value = { ReachedModel };

    ghost view = { λ r. record { order = r.order.items; seen = r.seen.items } };
}

/// Reaches a class from the one at this place, where it was not reached before.
fn add_class(reached: &mut Reached, from: usize, class: usize) -> Result<(), AllocError>
    ensures { OnOk result (reached.new ≡ with_class from reached.old class) }
{
    if class < reached.seen.len() && !reached.seen[class] {
        reached.order.push(Step { class, from })?;
        reached.seen[class] = true;
    }
    Ok(())
}

/// Reaches the class that a word calls.
fn add_found(reached: &mut Reached, from: usize, found: Option<usize>) -> Result<(), AllocError>
    ensures { OnOk result (reached.new ≡ with_found from reached.old found) }
{
    match found {
        Some(class) => add_class(reached, from, class),
        None => Ok(()),
    }
}

/// Reaches the classes that words call, from the class at this place.
fn add_called(
    classes: &Called,
    reached: &mut Reached,
    from: usize,
    words: &[Vec<u8>],
) -> Result<(), AllocError>
    ensures { OnOk result (reached.new ≡ with_called classes.now from reached.old (map (λ v. v.items) words.now)) }
{
    for word in words {
        add_found(reached, from, classes.find(word.as_slice()))?;
    }
    Ok(())
}

/// Reaches the classes that the SUP of the class at this place names.
fn add_superiors(
    classes: &Called,
    reached: &mut Reached,
    from: usize,
    class: usize,
) -> Result<(), AllocError>
    ensures { OnOk result (reached.new ≡ with_superiors classes.now from reached.old (slice_get classes.now class)) }
{
    match classes.all().get(class) {
        Some(description) => add_called(classes, reached, from, description.texts(Keyword::Sup)),
        None => Ok(()),
    }
}

/// Whether a word calls the class of a number.
fn is_calling(classes: &Called, class: usize, word: &[u8]) -> bool
    ensures { result ≡ is_calling classes.now class word.now }
{
    match classes.find(word) {
        Some(found) => found == class,
        None => false,
    }
}

/// Whether one of words calls the class of a number.
fn is_one_calling(classes: &Called, class: usize, words: &[Vec<u8>]) -> bool
    ensures { result ≡ list_any (is_calling classes.now class) (map (λ v. v.items) words.now) }
{
    for word in words {
        if is_calling(classes, class, word.as_slice()) {
            return true;
        }
    }
    false
}

/// Whether the SUP of a class names another.
fn is_right_above(classes: &Called, class: usize, above: usize) -> bool
    ensures { result ≡ is_right_above classes.now class above }
{
    match classes.all().get(class) {
        Some(description) => is_one_calling(classes, above, description.texts(Keyword::Sup)),
        None => false,
    }
}

/// Turns the order of numbers round.
fn turn_round(numbers: &mut Vec<usize>)
    ensures { numbers.new.items ≡ reverse numbers.old.items }
{
    numbers.as_mut_slice().reverse();
}

/// The way from a class back to itself, along where each was reached from; the last of them stands at this place.
fn way_back(
    alloc: Global,
    classes: &Called,
    order: &[Step],
    last: usize,
    start: usize,
) -> Result<String, AllocError>
    requires order { IsOrder classes.now start order.now }
    requires within { last < length order.now }
    requires above { is_right_above classes.now (class_at order.now last) start ≡ true }
    ensures { IfOk result (λ s. IsWayOf classes.now start (string_bytes s)) }
{
    let mut numbers = Vec::new(alloc);
    numbers.push(start)?;
    let mut place = last;
    while 0 < place {
        let step = order[place];
        numbers.push(step.class)?;
        place = step.from;
    }
    numbers.push(start)?;
    turn_round(&mut numbers);
    way_along(alloc, classes, numbers.as_slice())
}

/// The first class alone is reached.
fn started(alloc: Global, classes: &Called, start: usize) -> Result<Reached, AllocError>
    ensures { IfOk result (λ r. IsReached classes.now start 0 r) }
{
    let mut order = Vec::new(alloc);
    order.push(Step {
        class: start,
        from: 0,
    })?;
    let seen = vec![in alloc; false; classes.all().len()]?;
    Ok(Reached { order, seen })
}

/// The class at a place of the order.
fn class_at(reached: &Reached, place: usize) -> Option<usize>
    ensures { result ≡ option_map (λ s. s.class) (slice_get reached.now.order place) }
{
    match reached.order.as_slice().get(place) {
        Some(step) => Some(step.class),
        None => None,
    }
}

/// The way from a class back to itself.
pub fn of_class(alloc: Global, classes: &Called, number: usize) -> Result<String, AllocError>
    ensures { IfOk result (λ s. IsClassLoop classes.now number (string_bytes s)) }
{
    let mut reached = started(alloc, classes, number)?;
    let mut place = 0;
    while let Some(class) = class_at(&reached, place) {
        if is_right_above(classes, class, number) {
            return way_back(alloc, classes, reached.order.as_slice(), place, number);
        }
        add_superiors(classes, &mut reached, place, class)?;
        place += 1;
    }
    way_along(alloc, classes, &[])
}
