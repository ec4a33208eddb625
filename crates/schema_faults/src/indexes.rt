//! Texts of index choices: what is wrong with the line that is refused.
ghost use Rattle.std.specs.Prelude.{◌≡◌, ◌++◌, IfOk, MatchOption, None, Some, codes, map, nat_eq, string_bytes};
ghost use Rattle.std.specs.List.{position, slice_split};
ghost use Rattle.ldap_match.specs.ldap_schema.Schema.{find};
ghost use Rattle.schema_faults.specs.Indexes.{is_kind, no_kind, first_no_kind, bad_kinds, bad_parts, bad_at, bad_line, lacks, keyword_word};
ghost use Rattle.schema_faults.specs.Indexes.{no_index, without, of_type, no_rule, first_no_rule, no_rule_of, lacks_some, kinds_in, index_line, index_sentence};
ghost use Rattle.text_faults.specs.Words.{word_shown};

use crate::refusal::IndexRefusal;
use crate::schemas::numbered_line;
use ldap_match::{Schema, TypeId, equality_rule, ordering_rule, substrings_rule};
use ldap_words::is_oid;
use std::alloc::{AllocError, Global};
use text_faults::{about_word, colon, front_of, said, shown};

/// What a line of an index choice is.
const LINE: &str = "expected a type, a colon and kinds of index, as in 'cn: eq sub'";

/// The keyword of a rule that a kind of index needs.
#[derive(Clone, Copy)]
enum RuleKeyword {
    Equality,
    Ordering,
    Substr,
}

/// The keyword as a schema writes it.
fn keyword_word(keyword: RuleKeyword) -> &'static str
    ensures { result.now ≡ keyword_word keyword }
{
    match keyword {
        RuleKeyword::Equality => "EQUALITY",
        RuleKeyword::Ordering => "ORDERING",
        RuleKeyword::Substr => "SUBSTR",
    }
}

/// Whether a word is a kind of index.
fn is_kind(word: &[u8]) -> bool
    ensures { result ≡ is_kind word.now }
{
    word == b"pres".as_slice()
        || word == b"eq".as_slice()
        || word == b"ord".as_slice()
        || word == b"sub".as_slice()
}

/// The words between spaces.
fn words(alloc: Global, text: &[u8]) -> Result<Vec<&[u8]>, AllocError>
    ensures { IfOk result (λ v. map (λ x. x.now) v.items ≡ slice_split (nat_eq 32) text.now) }
{
    text.split(|octet| b' ' == *octet).collect(alloc)
}

/// A word that is no kind of index.
fn no_kind(alloc: Global, word: &[u8]) -> Result<String, AllocError>
    ensures { IfOk result (λ s. string_bytes s ≡ no_kind word.now) }
{
    if word.is_empty() {
        return said(
            alloc,
            "one space comes before each kind, and none at the end",
        );
    }
    about_word(
        alloc,
        "no kind of index '",
        word,
        "': there are pres, eq, ord and sub",
    )
}

/// The first word that is no kind of index.
fn first_no_kind(alloc: Global, words: &[&[u8]]) -> Result<String, AllocError>
    ensures { IfOk result (λ s. string_bytes s ≡ first_no_kind (map (λ x. x.now) words.now)) }
{
    for word in words {
        if !is_kind(word) {
            return no_kind(alloc, word);
        }
    }
    said(alloc, LINE)
}

/// The first kind that is none.
fn bad_words(alloc: Global, kinds: &[u8]) -> Result<String, AllocError>
    ensures { IfOk result (λ s. string_bytes s ≡ first_no_kind (slice_split (nat_eq 32) kinds.now)) }
{
    let words = words(alloc, kinds)?;
    first_no_kind(alloc, words.as_slice())
}

/// What is behind a colon, and is no list of kinds.
fn bad_kinds(alloc: Global, kinds: &[u8]) -> Result<String, AllocError>
    ensures { IfOk result (λ s. string_bytes s ≡ bad_kinds kinds.now) }
{
    match kinds {
        [] => said(
            alloc,
            "no kind of index behind the colon: there are pres, eq, ord and sub",
        ),
        [b' ', rest @ ..] => bad_words(alloc, rest),
        _ => said(alloc, "expected a space behind the colon"),
    }
}

/// What is wrong with a line, once it is cut at its first colon.
fn bad_parts(alloc: Global, name: &[u8], kinds: &[u8]) -> Result<String, AllocError>
    ensures { IfOk result (λ s. string_bytes s ≡ bad_parts name.now kinds.now) }
{
    if is_oid(name) {
        return bad_kinds(alloc, kinds);
    }
    about_word(
        alloc,
        "'",
        name,
        "' is no name of a type and no object identifier",
    )
}

/// A line with its first colon here, or without one.
fn bad_at(alloc: Global, line: &[u8]) -> Result<String, AllocError>
    ensures { IfOk result (λ s. string_bytes s ≡ bad_at line.now (position (λ octet. nat_eq octet 58) line.now)) }
{
    match colon(line) {
        None => said(alloc, LINE),
        Some(at) => bad_parts(alloc, &line[..at], &line[at + 1..]),
    }
}

/// A line that is no type with kinds: E12.
fn bad_line(alloc: Global, line: &[u8]) -> Result<String, AllocError>
    ensures { IfOk result (λ s. string_bytes s ≡ bad_line line.now) }
{
    match line {
        [] => said(alloc, LINE),
        [b' ', ..] => said(alloc, "the line begins with a space"),
        _ => bad_at(alloc, line),
    }
}

/// What is behind a line's colon and a space.
fn kinds_in(line: &[u8]) -> &[u8]
    ensures { result.now ≡ kinds_in line.now }
{
    match colon(line) {
        None => &[],
        Some(at) => &line[line.len().min(at + 2)..],
    }
}

/// What a kind of index needs and a type lacks.
fn lacking(schema: &Schema, type_id: TypeId, kind: &[u8]) -> Option<RuleKeyword>
    ensures { result ≡ lacks schema.now type_id kind.now }
{
    if kind == b"eq".as_slice() && equality_rule(schema, type_id).is_none() {
        return Some(RuleKeyword::Equality);
    }
    if kind == b"ord".as_slice() && ordering_rule(schema, type_id).is_none() {
        return Some(RuleKeyword::Ordering);
    }
    if kind == b"sub".as_slice() && substrings_rule(schema, type_id).is_none() {
        return Some(RuleKeyword::Substr);
    }
    None
}

/// A kind for which the type of a name has no rule of this keyword.
fn no_rule(
    alloc: Global,
    name: &[u8],
    kind: &[u8],
    keyword: RuleKeyword,
) -> Result<String, AllocError>
    ensures { IfOk result (λ s. string_bytes s ≡ no_rule name.now kind.now keyword) }
{
    let kind = shown(alloc, kind)?;
    let name = shown(alloc, name)?;
    let word = keyword_word(keyword);
    format!(in alloc; "no index '{kind}' of '{name}': the type has no {word}")
}

/// A type that lacks a rule for one of its kinds.
fn lacks_some(alloc: Global, name: &[u8]) -> Result<String, AllocError>
    ensures { IfOk result (λ s. string_bytes s ≡ lacks_some name.now) }
{
    about_word(alloc, "'", name, "' lacks a rule for one of its kinds")
}

/// The first kind whose rule a type lacks.
fn first_no_rule(
    alloc: Global,
    schema: &Schema,
    type_id: TypeId,
    name: &[u8],
    kinds: &[&[u8]],
) -> Result<String, AllocError>
    ensures { IfOk result (λ s. string_bytes s ≡ first_no_rule schema.now type_id name.now
        (map (λ x. x.now) kinds.now)) }
{
    for kind in kinds {
        if let Some(keyword) = lacking(schema, type_id, kind) {
            return no_rule(alloc, name, kind, keyword);
        }
    }
    lacks_some(alloc, name)
}

/// A line that asks for a kind whose rule the type lacks: E16.
fn no_rule_of(
    alloc: Global,
    schema: &Schema,
    name: &[u8],
    kinds: &[u8],
) -> Result<String, AllocError>
    ensures { IfOk result (λ s. string_bytes s ≡ no_rule_of schema.now (find schema.now name.now) name.now kinds.now) }
{
    let Some(type_id) = schema.find_octets(name) else {
        return lacks_some(alloc, name);
    };
    let kinds = words(alloc, kinds)?;
    first_no_rule(alloc, schema, type_id, name, kinds.as_slice())
}

/// What is wrong with a line that is refused so.
fn line_fault(
    alloc: Global,
    schema: &Schema,
    refusal: IndexRefusal,
    line: &[u8],
) -> Result<String, AllocError>
    ensures { IfOk result (λ s. string_bytes s ≡ index_line schema.now refusal line.now) }
{
    let name = front_of(line);
    match refusal {
        IndexRefusal::BadDescription => bad_line(alloc, line),
        IndexRefusal::UnknownName => about_word(
            alloc,
            "no attribute type '",
            name,
            "' in the schema",
        ),
        IndexRefusal::NoRule => no_rule_of(alloc, schema, name, kinds_in(line)),
    }
}

/// What is wrong with the text of an index choice in the line that is refused so, counted from 1, under this schema.
pub fn index_fault(
    alloc: Global,
    schema: &Schema,
    text: &str,
    refusal: IndexRefusal,
    line: usize,
) -> Result<String, AllocError>
    ensures { IfOk result (λ s. string_bytes s ≡ index_sentence schema.now text.now refusal line) }
{
    let line = numbered_line(alloc, text.as_bytes(), line)?;
    line_fault(alloc, schema, refusal, line)
}
