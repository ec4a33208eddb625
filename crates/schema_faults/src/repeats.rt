//! A description that is bad beside others: a name or an object identifier that is there already.
ghost use Rattle.std.specs.Prelude.{◌≡◌, ◌<◌, ℕ, List, [], Some, cond, is_some, map, option_map, slice_get, IfOk, IfSome, OnOk, string_bytes};
ghost use Rattle.std.specs.Option.{option_and_then};
ghost use Rattle.std.specs.Char.{to_ascii_lowercase};
ghost use Rattle.std.specs.Str.{bytes_eq};
ghost use Rattle.schema_meaning.specs.private.Octets.{number_at};
ghost use Rattle.schema_meaning.specs.Naming.{find, names_of};
ghost use Rattle.ldap_match.specs.ldap_schema.Schema.{first_name_of};
ghost use Rattle.schema_faults.specs.Schemas.{title};
ghost use Rattle.schema_faults.specs.Repeats.{in_line, line_if_before, line_before, earlier_line, oid_of_line, name_of_line};
ghost use Rattle.schema_faults.specs.Repeats.{earlier_name, again, given_twice, repeated};

use ldap_words::lower_case;
use schema_meaning::{Called, Description, IndexedText, names};
use std::alloc::{AllocError, Global};
use std::collections::BTreeMap;
use text_faults::{about_word, shown};

/// The description that stands in a line, with its number.
pub fn at_line(descriptions: &[Description], line: usize) -> Option<(usize, &Description)>
    ensures { option_map (λ p. (p.0, p.1.now)) result ≡ in_line descriptions.now line }
{
    for (number, description) in descriptions.iter().enumerate() {
        if description.line() == line {
            return Some((number, description));
        }
    }
    None
}

/// The first name of a description, or its object identifier.
pub fn first_name(description: &Description) -> &[u8]
    ensures { result.now ≡ first_name_of description.now.oid (names_of description.now) }
{
    match names(description) {
        [first, ..] => first.as_slice(),
        [] => description.oid(),
    }
}

/// The same, as it is shown.
pub fn title(alloc: Global, description: &Description) -> Result<String, AllocError>
    ensures { IfOk result (λ s. string_bytes s ≡ title description.now) }
{
    shown(alloc, first_name(description))
}

/// The description that a word calls.
fn described<'a>(called: &Called<'a>, word: &[u8]) -> Option<&'a Description>
    ensures { option_map (λ d. d.now) result ≡ option_and_then (slice_get called.now) (find called.now word.now) }
{
    match called.find(word) {
        Some(number) => called.all().get(number),
        None => None,
    }
}

/// The line of the description that a word calls, where it comes before this one.
fn line_before(called: &Called, word: &[u8], line: usize) -> Option<usize>
    ensures { result ≡ line_before called.now word.now line }
{
    match described(called, word) {
        Some(description) => {
            let found = description.line();
            if found < line { Some(found) } else { None }
        }
        None => None,
    }
}

/// The line before this one that has a type or a class called so.
fn earlier_line(text: &IndexedText, word: &[u8], line: usize) -> Option<usize>
    ensures { result ≡ earlier_line text.now word.now line }
{
    match line_before(text.types(), word, line) {
        Some(found) => Some(found),
        None => line_before(text.classes(), word, line),
    }
}

/// An object identifier that a line before has.
fn oid_of_line(alloc: Global, oid: &[u8], line: usize) -> Result<String, AllocError>
    ensures { IfOk result (λ s. string_bytes s ≡ oid_of_line oid.now line) }
{
    let oid = shown(alloc, oid)?;
    format!(in alloc; "the object identifier {oid} is that of line {line} too")
}

/// A name that a line before has.
fn name_of_line(alloc: Global, name: &[u8], line: usize) -> Result<String, AllocError>
    ensures { IfOk result (λ s. string_bytes s ≡ name_of_line name.now line) }
{
    let word = shown(alloc, name)?;
    format!(in alloc; "the name '{word}' is that of line {line} too")
}

/// The object identifier of a description, where a line before has it.
fn earlier_oid(
    alloc: Global,
    text: &IndexedText,
    description: &Description,
) -> Result<Option<String>, AllocError>
    ensures { IfOk result (λ o. option_map (λ s. string_bytes s) o ≡ option_map (oid_of_line description.now.oid)
        (earlier_line text.now description.now.oid description.now.line)) }
{
    let oid = description.oid();
    match earlier_line(text, oid, description.line()) {
        Some(found) => Ok(Some(oid_of_line(alloc, oid, found)?)),
        None => Ok(None),
    }
}

/// The first of names that a line before this one has.
fn earlier_name(
    alloc: Global,
    text: &IndexedText,
    line: usize,
    names: &[Vec<u8>],
) -> Result<Option<String>, AllocError>
    ensures { IfOk result (λ o. option_map (λ s. string_bytes s) o ≡ earlier_name text.now line
        (map (λ v. v.items) names.now)) }
{
    for name in names {
        if let Some(found) = earlier_line(text, name.as_slice(), line) {
            return Ok(Some(name_of_line(alloc, name.as_slice(), found)?));
        }
    }
    Ok(None)
}

/// Names that were seen, in lower case; the numbers beside them don't count.
type Seen = BTreeMap<Vec<u8>, usize>;

/// The number at octets.
fn number_of(seen: &Seen, octets: &[u8]) -> Option<usize>
    ensures { result ≡ number_at seen.now.entries octets.now }
{
    match seen.get(octets) {
        Some(number) => Some(*number),
        None => None,
    }
}

/// Puts octets among those that were seen.
fn put(seen: &mut Seen, octets: Vec<u8>) -> Result<(), AllocError>
    ensures { OnOk result ((q : List ℕ) → number_at seen.new.entries q ≡ cond (bytes_eq q octets.items) (Some 0)
        (number_at seen.old.entries q)) }
{
    seen.insert(octets, 0)?;
    Ok(())
}

/// Takes a name among those that were seen, and tells whether it was there.
fn see(alloc: Global, seen: &mut Seen, name: &[u8]) -> Result<bool, AllocError>
    ensures before { IfOk result (λ b. b ≡ is_some (number_at seen.old.entries (map to_ascii_lowercase name.now))) }
    ensures taken { OnOk result ((q : List ℕ) → number_at seen.new.entries q ≡
        cond (bytes_eq q (map to_ascii_lowercase name.now)) (Some 0) (number_at seen.old.entries q)) }
{
    let folded = lower_case(alloc, name)?;
    let before = number_of(seen, folded.as_slice()).is_some();
    put(seen, folded)?;
    Ok(before)
}

/// The first of names that is one of those before it, in any case.
fn again<'a>(alloc: Global, names: &'a [Vec<u8>]) -> Result<Option<&'a [u8]>, AllocError>
    ensures { IfOk result (λ o. option_map (λ x. x.now) o ≡ again [] (map (λ v. v.items) names.now)) }
{
    let mut seen = BTreeMap::new(alloc);
    for name in names {
        let word = name.as_slice();
        let before = see(alloc, &mut seen, word)?;
        if before {
            return Ok(Some(word));
        }
    }
    Ok(None)
}

/// A name that is given twice, in lower case.
fn given_twice(alloc: Global, name: &[u8]) -> Result<String, AllocError>
    ensures { IfOk result (λ s. string_bytes s ≡ given_twice name.now) }
{
    let folded = lower_case(alloc, name)?;
    about_word(alloc, "the name '", folded.as_slice(), "' is given twice")
}

/// A name that stands twice in one description.
fn twice(alloc: Global, description: &Description) -> Result<Option<String>, AllocError>
    ensures { IfOk result (λ o. option_map (λ s. string_bytes s) o ≡ option_map given_twice
        (again [] (names_of description.now))) }
{
    match again(alloc, names(description))? {
        Some(name) => Ok(Some(given_twice(alloc, name)?)),
        None => Ok(None),
    }
}

/// What is given twice in a description, or was given before it.
pub fn repeated(
    alloc: Global,
    text: &IndexedText,
    description: &Description,
) -> Result<Option<String>, AllocError>
    ensures { IfOk result (λ o. option_map (λ s. string_bytes s) o ≡ repeated text.now description.now) }
{
    if let Some(sentence) = earlier_oid(alloc, text, description)? {
        return Ok(Some(sentence));
    }
    if let Some(sentence) = earlier_name(alloc, text, description.line(), names(description))? {
        return Ok(Some(sentence));
    }
    twice(alloc, description)
}
