//! A type whose rules and syntax don't fit one another (RFC 4512 2.5.1): which of them.
ghost use Rattle.std.specs.Prelude.{◌≡◌, ◌++◌, IfOk, OnOk, codes, cond, string_bytes};
ghost use Rattle.schema_meaning.specs.Inheriting.{or_family, family_of, is_of_family, differs, is_mixed};
ghost use Rattle.schema_meaning.specs.schema_text.Keywords.{place_of};
ghost use Rattle.schema_meaning.specs.ldap_words.Octets.{is_empty};
ghost use Rattle.text_faults.specs.Words.{word_shown};
ghost use Rattle.schema_faults.specs.Rules.{rule, with_rule, rules, no_use, unfit};

use ldap_words::family_number;
use schema_meaning::{Description, Effect, Family, Given, Keyword};
use std::alloc::{AllocError, Global};
use text_faults::{said, shown};

/// A rule or the syntax in effect, as the line gives it.
fn given_as(alloc: Global, name: &[u8], word: &str) -> Result<String, AllocError>
    ensures { IfOk result (λ s. string_bytes s ≡ word.now ++ codes " " ++ word_shown name.now) }
{
    let name = shown(alloc, name)?;
    format!(in alloc; "{word} {name}")
}

/// A rule or the syntax in effect: as the line gives it, or that it is inherited.
fn rule(
    alloc: Global,
    description: &Description,
    keyword: Keyword,
    word: &str,
) -> Result<String, AllocError>
    ensures { IfOk result (λ s. string_bytes s ≡ rule description.now (place_of keyword) word.now) }
{
    match description.text(keyword) {
        Some(name) => given_as(alloc, name, word),
        None => format!(in alloc; "an inherited {word}"),
    }
}

/// Adds a rule to a list with commas.
fn push_listed(list: &mut String, rule: &str) -> Result<(), AllocError>
    ensures { OnOk result (string_bytes list.new ≡ cond (is_empty (string_bytes list.old)) rule.now
        (string_bytes list.old ++ codes ", " ++ rule.now)) }
{
    if !list.is_empty() {
        list.push_str(", ")?;
    }
    list.push_str(rule)
}

/// Adds a rule to a list with commas, where it is in effect.
fn push_rule(
    alloc: Global,
    list: &mut String,
    family: Option<Family>,
    description: &Description,
    keyword: Keyword,
    word: &str,
) -> Result<(), AllocError>
    ensures { OnOk result (string_bytes list.new ≡ with_rule (string_bytes list.old) family
        (rule description.now (place_of keyword) word.now)) }
{
    if family.is_none() {
        return Ok(());
    }
    let rule = rule(alloc, description, keyword, word)?;
    push_listed(list, rule.as_str())
}

/// The rules in effect, with commas between them.
fn rules(alloc: Global, description: &Description, effect: Effect) -> Result<String, AllocError>
    ensures { IfOk result (λ s. string_bytes s ≡ rules description.now effect) }
{
    let mut list = String::new(alloc);
    push_rule(
        alloc,
        &mut list,
        effect.equality,
        description,
        Keyword::Equality,
        "EQUALITY",
    )?;
    push_rule(
        alloc,
        &mut list,
        effect.ordering,
        description,
        Keyword::Ordering,
        "ORDERING",
    )?;
    push_rule(
        alloc,
        &mut list,
        effect.substrings,
        description,
        Keyword::Substr,
        "SUBSTR",
    )?;
    Ok(list)
}

/// The first family that is there.
fn or_family(first: Option<Family>, second: Option<Family>) -> Option<Family>
    ensures { result ≡ or_family first second }
{
    match first {
        Some(family) => Some(family),
        None => second,
    }
}

/// Whether a rule is of this family, or there is none.
fn is_of_family(family: Family, other: Option<Family>) -> bool
    ensures { result ≡ is_of_family family other }
{
    match other {
        Some(other) => family_number(family) == family_number(other),
        None => true,
    }
}

/// Whether rules are of more than one family.
fn is_mixed(effect: Effect) -> bool
    ensures { result ≡ is_mixed effect }
{
    match or_family(
        effect.equality,
        or_family(effect.ordering, effect.substrings),
    ) {
        Some(family) => {
            !(is_of_family(family, effect.equality)
                && is_of_family(family, effect.ordering)
                && is_of_family(family, effect.substrings))
        }
        None => false,
    }
}

/// Rules that the syntax in effect isn't one for.
fn no_use(alloc: Global, description: &Description, effect: Effect) -> Result<String, AllocError>
    ensures { IfOk result (λ s. string_bytes s ≡ rules description.now effect ++ codes " cannot be used with " ++ rule
        description.now 8 (codes "SYNTAX")) }
{
    let mut sentence = rules(alloc, description, effect)?;
    let syntax = rule(alloc, description, Keyword::Syntax, "SYNTAX")?;
    sentence.push_str(" cannot be used with ")?;
    sentence.push_str(syntax.as_str())?;
    Ok(sentence)
}

/// Rules of more than one family.
fn mixed(alloc: Global, description: &Description, effect: Effect) -> Result<String, AllocError>
    ensures { IfOk result (λ s. string_bytes s ≡ codes "rules for different kinds of value: " ++ rules description.now
        effect) }
{
    let rules = rules(alloc, description, effect)?;
    format!(in alloc; "rules for different kinds of value: {rules}")
}

/// What doesn't fit, of a type with this in effect.
pub fn unfit(alloc: Global, description: &Description, effect: Effect) -> Result<String, AllocError>
    ensures { IfOk result (λ s. string_bytes s ≡ unfit description.now effect) }
{
    if is_mixed(effect) {
        return mixed(alloc, description, effect);
    }
    match effect.syntax {
        Given::Missing => said(alloc, "no SYNTAX, and no SUP that has one"),
        Given::Unknown | Given::Known(_) => no_use(alloc, description, effect),
    }
}
