// Finds the first faulty line of each kind.

ghost use Rattle.std.specs.Prelude.{◌≡◌, not, map, is_some, IfOk};
ghost use Rattle.std.specs.List.{list_all};
ghost use Rattle.schema_text.specs.Descriptions.{first_text_at};
ghost use Rattle.schema_text.specs.ldap_words.RulesByName as rules;
ghost use Rattle.schema_meaning.specs.Naming as naming;
ghost use Rattle.schema_meaning.specs.Faults as faults;
ghost use Rattle.schema_meaning.specs.Inheriting as inheriting;

use crate::called::Called;
use crate::effects::Effects;
use crate::first_lines::FirstLines;
use crate::indexed::IndexedText;
use schema_text::{
    Description, Keyword, equality_family, ordering_family, substrings_family, syntax_of,
};
use std::alloc::{AllocError, Global};

/// Whether the description of a type is bad together with the others.
fn is_bad_type(
    alloc: Global,
    text: &FirstLines,
    effects: &Effects,
    number: usize,
    description: &Description,
) -> Result<bool, AllocError>
    requires { effects.now ≡ text.now.types }
    ensures { IfOk result (λ b. b ≡ faults.is_bad_type text.now number description.now) }
{
    if text.is_repeated(alloc, description)? {
        return Ok(true);
    }
    Ok(effects.is_unfit(number))
}

/// The line of the first type that is bad together with the others.
fn bad_type(
    alloc: Global,
    text: &FirstLines,
    effects: &Effects,
) -> Result<Option<usize>, AllocError>
    requires { effects.now ≡ text.now.types }
    ensures { IfOk result (λ o. o ≡ faults.first_of_types (faults.is_bad_type text.now) 0 text.now.types) }
{
    let types = text.text().types();
    for (number, description) in types.iter().enumerate() {
        if is_bad_type(alloc, text, effects, number, description)? {
            return Ok(Some(description.line()));
        }
    }
    Ok(None)
}

/// The line of the first class that has a name or an object identifier of an earlier description.
fn bad_class(alloc: Global, text: &FirstLines) -> Result<Option<usize>, AllocError>
    ensures { IfOk result (λ o. o ≡ faults.first_of_all (naming.is_repeated text.now.types text.now.classes)
        text.now.classes) }
{
    let classes = text.text().classes();
    for description in classes {
        if text.is_repeated(alloc, description)? {
            return Ok(Some(description.line()));
        }
    }
    Ok(None)
}

/// The lower one of two lines.
pub fn earlier(first: Option<usize>, second: Option<usize>) -> Option<usize>
    ensures { result ≡ faults.earlier first second }
{
    match first {
        None => second,
        Some(line) => match second {
            None => Some(line),
            Some(other) => Some(if other < line { other } else { line }),
        },
    }
}

/// The first line that is no description, or one that is bad together with the others.
pub fn bad_line(alloc: Global, indexed: &IndexedText) -> Result<Option<usize>, AllocError>
    ensures { IfOk result (λ o. o ≡ faults.bad_line indexed.now) }
{
    let text = indexed.text();
    let effects = Effects::of(alloc, indexed.types())?;
    let first = FirstLines::of(alloc, text)?;
    let bad_type = bad_type(alloc, &first, &effects)?;
    let bad_class = bad_class(alloc, &first)?;
    Ok(earlier(text.bad(), earlier(bad_type, bad_class)))
}

/// Whether the superior type, if one is given, is known.
fn knows_superior(types: &Called, description: &Description) -> bool
    ensures { result ≡ faults.is_known_by (naming.find types.now) (naming.superior_text description.now) }
{
    match description.text(Keyword::Sup) {
        None => true,
        Some(word) => types.find(word).is_some(),
    }
}

/// Whether the equality rule, if one is given, is known.
fn knows_equality(description: &Description) -> bool
    ensures { result ≡ faults.is_known_by rules.equality_family (first_text_at 5 description.now.fields) }
{
    match description.text(Keyword::Equality) {
        None => true,
        Some(word) => equality_family(word).is_some(),
    }
}

/// Whether the ordering rule, if one is given, is known.
fn knows_ordering(description: &Description) -> bool
    ensures { result ≡ faults.is_known_by rules.ordering_family (first_text_at 6 description.now.fields) }
{
    match description.text(Keyword::Ordering) {
        None => true,
        Some(word) => ordering_family(word).is_some(),
    }
}

/// Whether the substrings rule, if one is given, is known.
fn knows_substrings(description: &Description) -> bool
    ensures { result ≡ faults.is_known_by rules.substrings_family (first_text_at 7 description.now.fields) }
{
    match description.text(Keyword::Substr) {
        None => true,
        Some(word) => substrings_family(word).is_some(),
    }
}

/// Whether the syntax, if one is given, is known.
fn knows_syntax(description: &Description) -> bool
    ensures { result ≡ faults.is_known_by rules.syntax_of (first_text_at 8 description.now.fields) }
{
    match description.text(Keyword::Syntax) {
        None => true,
        Some(word) => syntax_of(word).is_some(),
    }
}

/// Whether all that the description of a type names is known.
fn names_known_type(types: &Called, description: &Description) -> bool
    ensures { result ≡ faults.names_known_type types.now description.now }
{
    knows_superior(types, description)
        && knows_equality(description)
        && knows_ordering(description)
        && knows_substrings(description)
        && knows_syntax(description)
}

/// Whether each of the words calls one of the descriptions.
fn are_known(descriptions: &Called, words: &[Vec<u8>]) -> bool
    ensures { result ≡ faults.are_known descriptions.now (map (λ v. v.items) words.now) }
{
    for word in words {
        if descriptions.find(word.as_slice()).is_none() {
            return false;
        }
    }
    true
}

/// Whether all that the description of a class names is known.
fn names_known_class(text: &IndexedText, description: &Description) -> bool
    ensures { result ≡ faults.names_known_class text.now description.now }
{
    are_known(text.classes(), description.texts(Keyword::Sup))
        && are_known(text.types(), description.texts(Keyword::Must))
        && are_known(text.types(), description.texts(Keyword::May))
}

/// The line of the first type that names what is not known.
fn unknown_in_type(types: &Called) -> Option<usize>
    ensures { result ≡ faults.first_of_all (λ d. not (faults.names_known_type types.now d)) types.now }
{
    for description in types.all() {
        if !names_known_type(types, description) {
            return Some(description.line());
        }
    }
    None
}

/// The line of the first class that names what is not known.
fn unknown_in_class(text: &IndexedText) -> Option<usize>
    ensures { result ≡ faults.first_of_all (λ d. not (faults.names_known_class text.now d)) text.now.classes }
{
    let classes = text.classes().all();
    for description in classes {
        if !names_known_class(text, description) {
            return Some(description.line());
        }
    }
    None
}

/// The first line that names a rule, a syntax, a type or a class that is not known.
pub fn unknown_line(text: &IndexedText) -> Option<usize>
    ensures { result ≡ faults.unknown_line text.now }
{
    earlier(unknown_in_type(text.types()), unknown_in_class(text))
}
