//! A description that names what is not there: the first word of it that is unknown.
ghost use Rattle.std.specs.Prelude.{◌≡◌, ◌++◌, IfOk, codes, is_none, map, option_map, slice_get, string_bytes};
ghost use Rattle.std.specs.List.{filter};
ghost use Rattle.schema_meaning.specs.Naming.{find};
ghost use Rattle.schema_meaning.specs.schema_text.Descriptions.{first_text_at};
ghost use Rattle.schema_meaning.specs.schema_text.Keywords.{place_of};
ghost use Rattle.schema_meaning.specs.ldap_words.RulesByName as rules;
ghost use Rattle.schema_faults.specs.Schemas.{title, no_such, named_in, missing, missing_or, uncalled, unnamed, unknown_rule, unknown_of_type, unknown_of_class, unknown_at_end};

use crate::repeats::title;
use ldap_words::{equality_family, ordering_family, substrings_family, syntax_of};
use schema_meaning::{Called, Description, IndexedText, Keyword};
use std::alloc::{AllocError, Global};
use text_faults::{said, shown};

/// Something of a kind that is not there, which a description names behind a keyword.
fn missing(
    alloc: Global,
    description: &Description,
    kind: &str,
    word: &[u8],
    keyword: &str,
) -> Result<String, AllocError>
    ensures { IfOk result (λ s. string_bytes s ≡ missing description.now kind.now word.now keyword.now) }
{
    let word = shown(alloc, word)?;
    let title = title(alloc, description)?;
    format!(in alloc; "no {kind} '{word}' (in {keyword} of '{title}')")
}

/// The first of words that calls none of these.
fn first_uncalled<'a>(called: &Called, words: &'a [Vec<u8>]) -> Option<&'a [u8]>
    ensures { option_map (λ x. x.now) result ≡ slice_get (filter (λ word. is_none (find called.now word))
        (map (λ v. v.items) words.now)) 0 }
{
    for word in words {
        if called.find(word.as_slice()).is_none() {
            return Some(word.as_slice());
        }
    }
    None
}

/// The first word behind a keyword that calls none of these.
fn uncalled<'a>(called: &Called, description: &'a Description, keyword: Keyword) -> Option<&'a [u8]>
    ensures { option_map (λ x. x.now) result ≡ uncalled called.now description.now (place_of keyword) }
{
    first_uncalled(called, description.texts(keyword))
}

/// The EQUALITY of a type, where there is no such rule.
fn no_equality(description: &Description) -> Option<&[u8]>
    ensures { option_map (λ x. x.now) result ≡ unnamed rules.equality_family (first_text_at 5 description.now.fields) }
{
    let word = description.text(Keyword::Equality)?;
    match equality_family(word) {
        Some(_) => None,
        None => Some(word),
    }
}

/// The ORDERING of a type, where there is no such rule.
fn no_ordering(description: &Description) -> Option<&[u8]>
    ensures { option_map (λ x. x.now) result ≡ unnamed rules.ordering_family (first_text_at 6 description.now.fields) }
{
    let word = description.text(Keyword::Ordering)?;
    match ordering_family(word) {
        Some(_) => None,
        None => Some(word),
    }
}

/// The SUBSTR of a type, where there is no such rule.
fn no_substrings(description: &Description) -> Option<&[u8]>
    ensures { option_map (λ x. x.now) result ≡ unnamed rules.substrings_family
        (first_text_at 7 description.now.fields) }
{
    let word = description.text(Keyword::Substr)?;
    match substrings_family(word) {
        Some(_) => None,
        None => Some(word),
    }
}

/// The SYNTAX of a type, where there is no such syntax.
fn no_syntax(description: &Description) -> Option<&[u8]>
    ensures { option_map (λ x. x.now) result ≡ unnamed rules.syntax_of (first_text_at 8 description.now.fields) }
{
    let word = description.text(Keyword::Syntax)?;
    match syntax_of(word) {
        Some(_) => None,
        None => Some(word),
    }
}

/// The first rule or syntax of a type that is unknown.
fn unknown_rule(alloc: Global, description: &Description) -> Result<String, AllocError>
    ensures { IfOk result (λ s. string_bytes s ≡ unknown_rule description.now) }
{
    if let Some(word) = no_equality(description) {
        return missing(alloc, description, "equality rule", word, "EQUALITY");
    }
    if let Some(word) = no_ordering(description) {
        return missing(alloc, description, "ordering rule", word, "ORDERING");
    }
    if let Some(word) = no_substrings(description) {
        return missing(alloc, description, "substrings rule", word, "SUBSTR");
    }
    match no_syntax(description) {
        Some(word) => missing(alloc, description, "syntax", word, "SYNTAX"),
        None => said(alloc, "a rule, a syntax or a type that is not there"),
    }
}

/// What a type names that is not there.
pub fn of_type(
    alloc: Global,
    text: &IndexedText,
    description: &Description,
) -> Result<String, AllocError>
    ensures { IfOk result (λ s. string_bytes s ≡ unknown_of_type text.now description.now) }
{
    match uncalled(text.types(), description, Keyword::Sup) {
        Some(word) => missing(alloc, description, "attribute type", word, "SUP"),
        None => unknown_rule(alloc, description),
    }
}

/// What a class names that is not there.
pub fn of_class(
    alloc: Global,
    text: &IndexedText,
    description: &Description,
) -> Result<String, AllocError>
    ensures { IfOk result (λ s. string_bytes s ≡ unknown_of_class text.now description.now) }
{
    if let Some(word) = uncalled(text.classes(), description, Keyword::Sup) {
        return missing(alloc, description, "object class", word, "SUP");
    }
    if let Some(word) = uncalled(text.types(), description, Keyword::Must) {
        return missing(alloc, description, "attribute type", word, "MUST");
    }
    match uncalled(text.types(), description, Keyword::May) {
        Some(word) => missing(alloc, description, "attribute type", word, "MAY"),
        None => said(alloc, "a class or a type that is not there"),
    }
}

/// What each schema has, and this one lacks.
pub fn at_end(alloc: Global, text: &IndexedText) -> Result<String, AllocError>
    ensures { IfOk result (λ s. string_bytes s ≡ unknown_at_end text.now) }
{
    if text.types().find(b"objectClass").is_none() {
        return said(
            alloc,
            "the text ends without the attribute type 'objectClass'",
        );
    }
    match text.classes().find(b"top") {
        None => said(alloc, "the text ends without the object class 'top'"),
        Some(_) => said(
            alloc,
            "the attribute type 'objectClass' is not of EQUALITY objectIdentifierMatch and its syntax",
        ),
    }
}
