// What is in effect for all types, each found once from what is in effect for its superior.

ghost use Rattle.std.specs.Prelude.{◌≡◌, None, Some, IfOk};
ghost use Rattle.schema_meaning.specs.Inheriting as inheriting;
ghost use Rattle.schema_meaning.specs.private.Inheriting as private_inheriting;
ghost use Rattle.schema_meaning.specs.private.Settling as settling;
ghost use Rattle.schema_meaning.specs.private.Settling.{Knows, IsNews, HasAll};

use crate::called::Called;
use crate::inheriting::{
    Effect, Given, Way, inherited, is_mixed, lacks_syntax, own_at, way_from, ways_of,
};
use schema_text::Description;
use std::alloc::{AllocError, Global};
use std::marker::Model;

/// What a table has for the type of a number.
fn effect_at(table: &[Option<Effect>], number: usize) -> Option<Effect>
    ensures { result ≡ settling.effect_at table.now number }
{
    match table.get(number) {
        Some(effect) => *effect,
        None => None,
    }
}

/// What is in effect for a type, by what is in effect for its superior.
fn effect_under(types: &[Description], number: usize, above: Option<Effect>) -> Option<Effect>
    ensures { result ≡ settling.settled_under types.now number above }
{
    match above {
        Some(effect) => Some(inherited(effect, own_at(types, number))),
        None => None,
    }
}

/// Neither a rule nor a syntax.
fn nothing() -> Effect
    ensures { result ≡ inheriting.nothing }
{
    Effect {
        equality: None,
        ordering: None,
        substrings: None,
        syntax: Given::Missing,
    }
}

/// What is in effect for a type, by what a table has for its superior.
fn effect_by(
    types: &[Description],
    ways: &[Way],
    table: &[Option<Effect>],
    number: usize,
) -> Option<Effect>
    requires { ways.now ≡ private_inheriting.ways_of types.now }
    ensures { result ≡ settling.effect_by types.now table.now number }
{
    match way_from(types, ways, number) {
        Way::Ends => effect_under(types, number, Some(nothing())),
        Way::IsLost => None,
        Way::GoesTo(above) => effect_under(types, number, effect_at(table, above)),
    }
}

/// Takes a number among those that were seen, and tells whether it is new there.
fn see(seen: &mut Vec<bool>, number: usize) -> bool {
    if number < seen.len() && !seen[number] {
        seen[number] = true;
        true
    } else {
        false
    }
}

/// The numbers of a type and of those above it that were not seen before, the highest first.
fn walk(
    alloc: Global,
    ways: &[Way],
    seen: &mut Vec<bool>,
    number: usize,
) -> Result<Vec<usize>, AllocError> {
    let mut walk = Vec::new(alloc);
    let mut current = number;
    for step in ways {
        if !see(seen, current) {
            break;
        }
        walk.push(current)?;
        match ways.get(current) {
            Some(Way::GoesTo(above)) => current = *above,
            Some(Way::Ends | Way::IsLost) | None => break,
        }
    }
    walk.as_mut_slice().reverse();
    Ok(walk)
}

/// Notes in a table what it tells of a type.
fn note(types: &[Description], ways: &[Way], table: &mut Vec<Option<Effect>>, number: usize)
    requires ways { ways.now ≡ private_inheriting.ways_of types.now }
    requires known { Knows types.now table.old.items }
    ensures { Knows types.now table.new.items }
{
    let effect = effect_by(types, ways, table.as_slice(), number);
    if number < table.len() {
        table[number] = effect;
    }
}

/// Notes in a table what it tells of types, in this order.
fn note_all(types: &[Description], ways: &[Way], table: &mut Vec<Option<Effect>>, numbers: &[usize])
    requires ways { ways.now ≡ private_inheriting.ways_of types.now }
    requires known { Knows types.now table.old.items }
    ensures { Knows types.now table.new.items }
{
    for number in numbers {
        note(types, ways, table, *number);
    }
}

/// What a table tells of a type that it has nothing for.
fn new_effect(
    types: &[Description],
    ways: &[Way],
    table: &[Option<Effect>],
    number: usize,
) -> Option<Effect>
    requires { ways.now ≡ private_inheriting.ways_of types.now }
    ensures { result ≡ settling.new_effect types.now table.now number }
{
    match effect_at(table, number) {
        Some(_) => None,
        None => effect_by(types, ways, table, number),
    }
}

/// The first type that a table has nothing for, though it tells what is in effect for it.
fn news(types: &[Description], ways: &[Way], table: &[Option<Effect>]) -> Option<(usize, Effect)>
    requires { ways.now ≡ private_inheriting.ways_of types.now }
    ensures { IsNews types.now table.now result }
{
    for number in 0..table.len() {
        match new_effect(types, ways, table, number) {
            Some(effect) => return Some((number, effect)),
            None => {}
        }
    }
    None
}

/// Notes in a table what it tells, until it tells nothing new.
fn note_news(types: &[Description], ways: &[Way], table: &mut Vec<Option<Effect>>)
    requires ways { ways.now ≡ private_inheriting.ways_of types.now }
    requires known { Knows types.now table.old.items }
    ensures { HasAll types.now table.new.items }
{
    while let Some((number, effect)) = news(types, ways, table.as_slice()) {
        table[number] = Some(effect);
    }
}

/// A table that has nothing for so many types.
fn empty_table(alloc: Global, types: &[Description]) -> Result<Vec<Option<Effect>>, AllocError>
    ensures { IfOk result (λ v. Knows types.now v.items) }
{
    vec![in alloc; None; types.len()]
}

/// What is in effect for each type whose chain of SUPs ends. Types are noted below their superiors, so that nothing new
/// is left.
fn table_of(
    alloc: Global,
    types: &[Description],
    ways: &[Way],
) -> Result<Vec<Option<Effect>>, AllocError>
    requires { ways.now ≡ private_inheriting.ways_of types.now }
    ensures { IfOk result (λ v. HasAll types.now v.items) }
{
    let mut table = empty_table(alloc, types)?;
    let mut seen = vec![in alloc; false; types.len()]?;
    for number in 0..types.len() {
        let numbers = walk(alloc, ways, &mut seen, number)?;
        note_all(types, ways, &mut table, numbers.as_slice());
    }
    note_news(types, ways, &mut table);
    Ok(table)
}

/// What is in effect for types, by their numbers.
pub struct Effects<'a> {
    types: &'a [Description],
    /// None, where the chain of SUPs does not lead to an end.
    table: Vec<Option<Effect>>,
}

// Not derived: see "What the gate takes" in docs/ARCHITECTURE.md.
impl<'a> Drop for Effects<'a> {
    fn drop(self) {
        let Effects { types: _, table: _ } = self;
    }
}

impl<'a> Model for Effects<'a> {
    ghost use Rattle.std.specs.Prelude.{List};
    ghost use Rattle.schema_text.specs.Descriptions.{DescriptionModel};
    ghost use Rattle.schema_meaning.specs.private.Settling.{HasAll};

    ghost Value = { List DescriptionModel };

    ghost view = { λ e. e.types.now };

    ghost invariant = { λ e. HasAll e.types.now e.table.items };
}

impl<'a> Effects<'a> {
    /// What is in effect for these types.
    pub fn of(alloc: Global, types: &Called<'a>) -> Result<Effects<'a>, AllocError>
        ensures { IfOk result (λ e. e ≡ types.now) }
    {
        let ways = ways_of(alloc, types)?;
        let types = types.all();
        let table = table_of(alloc, types, ways.as_slice())?;
        Ok(Effects { types, table })
    }

    /// The rules and the syntax in effect for the type of a number.
    pub fn of_type(&self, number: usize) -> Effect
        ensures { result ≡ inheriting.effect_of self.now number }
    {
        match effect_at(self.table.as_slice(), number) {
            Some(effect) => effect,
            None => own_at(self.types, number),
        }
    }

    /// Whether the chain of SUPs of the type of a number comes to an end.
    fn has_lineage(&self, number: usize) -> bool
        ensures { result ≡ inheriting.has_lineage self.now number }
    {
        effect_at(self.table.as_slice(), number).is_some()
    }

    /// Whether the type of a number is mixed, or has no syntax that its rules are used on though its chain of SUPs
    /// ends.
    pub fn is_unfit(&self, number: usize) -> bool
        ensures { result ≡ inheriting.is_unfit self.now number }
    {
        let effect = self.of_type(number);
        is_mixed(effect) || (self.has_lineage(number) && lacks_syntax(effect))
    }
}
