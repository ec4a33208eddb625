// Follows SUPs, and finds what a type inherits.

ghost use Rattle.std.specs.Prelude.{◌≡◌, IfOk};
ghost use Rattle.schema_text.specs.Descriptions.{first_text_at};
ghost use Rattle.schema_text.specs.ldap_words.RulesByName as rules;
ghost use Rattle.schema_meaning.specs.Naming.{superior_text};
ghost use Rattle.schema_meaning.specs.Inheriting as inheriting;
ghost use Rattle.schema_meaning.specs.private.Inheriting as private_inheriting;

use crate::called::Called;
use schema_text::{
    Description, Family, Keyword, Syntax, equality_family, family_number, is_used_on,
    ordering_family, substrings_family, syntax_of,
};
use std::alloc::{AllocError, Global};

/// Where the SUP of a type leads.
#[derive(Clone, Copy)]
pub enum Way {
    /// There is no SUP.
    Ends,
    /// To no type that there is.
    IsLost,
    /// To the type of this number.
    GoesTo(usize),
}

/// A syntax, if one is given.
#[derive(Clone, Copy)]
pub enum Given {
    Missing,
    /// One that is not known.
    Unknown,
    Known(Syntax),
}

/// The rules and the syntax of a type.
#[derive(Clone, Copy)]
pub struct Effect {
    pub equality: Option<Family>,
    pub ordering: Option<Family>,
    pub substrings: Option<Family>,
    pub syntax: Given,
}

/// Where the SUP of a description leads.
fn way_of(types: &Called, description: &Description) -> Way
    ensures { result ≡ inheriting.way_by types.now (superior_text description.now) }
{
    match description.text(Keyword::Sup) {
        None => Way::Ends,
        Some(word) => match types.find(word) {
            None => Way::IsLost,
            Some(above) => Way::GoesTo(above),
        },
    }
}

/// Where the SUP of each type leads: each is looked up once, whatever leads to it.
pub fn ways_of(alloc: Global, types: &Called) -> Result<Vec<Way>, AllocError>
    ensures { IfOk result (λ v. v.items ≡ private_inheriting.ways_of types.now) }
{
    let descriptions = types.all();
    let mut ways = Vec::with_capacity(alloc, descriptions.len())?;
    for description in descriptions {
        ways.push(way_of(types, description))?;
    }
    Ok(ways)
}

/// Where the SUP of the type of a number leads.
#[tactic(auto, using(crate::proofs::Ways::way_at))]
pub fn way_from(types: &[Description], ways: &[Way], number: usize) -> Way
    requires { ways.now ≡ private_inheriting.ways_of types.now }
    ensures { result ≡ inheriting.way_from types.now number }
{
    match ways.get(number) {
        Some(way) => *way,
        None => Way::IsLost,
    }
}

/// The family of the equality rule that a description gives.
fn own_equality(description: &Description) -> Option<Family>
    ensures { result ≡ inheriting.family_by rules.equality_family (first_text_at 5 description.now.fields) }
{
    equality_family(description.text(Keyword::Equality)?)
}

/// The family of the ordering rule that a description gives.
fn own_ordering(description: &Description) -> Option<Family>
    ensures { result ≡ inheriting.family_by rules.ordering_family (first_text_at 6 description.now.fields) }
{
    ordering_family(description.text(Keyword::Ordering)?)
}

/// The family of the substrings rule that a description gives.
fn own_substrings(description: &Description) -> Option<Family>
    ensures { result ≡ inheriting.family_by rules.substrings_family (first_text_at 7 description.now.fields) }
{
    substrings_family(description.text(Keyword::Substr)?)
}

/// The syntax that a description gives.
fn own_syntax(description: &Description) -> Given
    ensures { result ≡ inheriting.syntax_by (first_text_at 8 description.now.fields) }
{
    match description.text(Keyword::Syntax) {
        None => Given::Missing,
        Some(word) => match syntax_of(word) {
            None => Given::Unknown,
            Some(syntax) => Given::Known(syntax),
        },
    }
}

/// What a description says of rules and syntax itself.
fn own(description: &Description) -> Effect
    ensures { result ≡ inheriting.own description.now }
{
    Effect {
        equality: own_equality(description),
        ordering: own_ordering(description),
        substrings: own_substrings(description),
        syntax: own_syntax(description),
    }
}

/// What the type of a number says of rules and syntax itself.
pub fn own_at(types: &[Description], number: usize) -> Effect
    ensures { result ≡ inheriting.own_at types.now number }
{
    match types.get(number) {
        Some(description) => own(description),
        None => Effect {
            equality: None,
            ordering: None,
            substrings: None,
            syntax: Given::Missing,
        },
    }
}

/// The first family, and else the second.
fn or_family(first: Option<Family>, second: Option<Family>) -> Option<Family>
    ensures { result ≡ inheriting.or_family first second }
{
    match first {
        Some(family) => Some(family),
        None => second,
    }
}

/// The first syntax, and else the second.
fn or_syntax(first: Given, second: Given) -> Given
    ensures { result ≡ inheriting.or_syntax first second }
{
    match first {
        Given::Missing => second,
        Given::Unknown => Given::Unknown,
        Given::Known(syntax) => Given::Known(syntax),
    }
}

/// The family of a type: that of its first rule.
pub fn family_of(effect: Effect) -> Option<Family>
    ensures { result ≡ inheriting.family_of effect }
{
    or_family(
        effect.equality,
        or_family(effect.ordering, effect.substrings),
    )
}

/// Whether the rule is of the family, if there is a rule.
fn is_of_family(family: Family, rule: Option<Family>) -> bool
    ensures { result ≡ inheriting.is_of_family family rule }
{
    match rule {
        None => true,
        Some(other) => family_number(family) == family_number(other),
    }
}

/// Whether the two are of one family, if there are two.
fn agree(first: Option<Family>, second: Option<Family>) -> bool
    ensures { result ≡ inheriting.agree first second }
{
    match first {
        None => true,
        Some(family) => is_of_family(family, second),
    }
}

/// The rule, if it is kept.
fn kept(keeps: bool, rule: Option<Family>) -> Option<Family>
    ensures { result ≡ inheriting.kept keeps rule }
{
    match keeps {
        true => rule,
        false => None,
    }
}

/// What is in effect for a type with rules of its own under one with these.
pub fn inherited(above: Effect, own: Effect) -> Effect
    ensures { result ≡ inheriting.inherited above own }
{
    let keeps = agree(own.equality, family_of(above));
    Effect {
        equality: or_family(own.equality, above.equality),
        ordering: or_family(own.ordering, kept(keeps, above.ordering)),
        substrings: or_family(own.substrings, kept(keeps, above.substrings)),
        syntax: or_syntax(own.syntax, above.syntax),
    }
}

/// Whether there are rules of more than one family.
pub fn is_mixed(effect: Effect) -> bool
    ensures { result ≡ inheriting.is_mixed effect }
{
    match family_of(effect) {
        None => false,
        Some(family) => {
            !(is_of_family(family, effect.equality)
                && is_of_family(family, effect.ordering)
                && is_of_family(family, effect.substrings))
        }
    }
}

/// Whether the family, if there is one, has no rules that are used on the syntax.
fn is_not_used_on(family: Option<Family>, syntax: Syntax) -> bool
    ensures { result ≡ inheriting.is_not_used_on family syntax }
{
    match family {
        None => false,
        Some(family) => !is_used_on(family, syntax),
    }
}

/// Whether there is no syntax, or one that the rules are not used on.
pub fn lacks_syntax(effect: Effect) -> bool
    ensures { result ≡ inheriting.lacks_syntax effect }
{
    match effect.syntax {
        Given::Missing => true,
        Given::Unknown => false,
        Given::Known(syntax) => is_not_used_on(family_of(effect), syntax),
    }
}
