//! Finds the value of a record that a result code is given for (RFC 4511 4.7), and puts into words what is wrong with
//! it.
ghost use Rattle.std.specs.Prelude.{◌≡◌, ◌++◌, ◌∷◌, [], ◌-◌, IfOk, None, cond, codes, decimal, length, map, nat_eq, option_map, slice_get, string_bytes};
ghost use Rattle.std.specs.List.{list_any};
ghost use Rattle.std.specs.Ordering.{eq_by_cmp};
ghost use Rattle.std.specs.Str.{bytes_eq, is_utf8};
ghost use Rattle.ldap_match.specs.ldap_dn.Texts.{name_of_text};
ghost use Rattle.text_faults.specs.Words.{word_shown};
ghost use Rattle.ldif_faults.specs.Placed as placed;
ghost use Rattle.ldif_faults.specs.Placed.{told_or};
ghost use Rattle.ldif_faults.specs.Values.{by_code, first_line, is_unknown, no_type, unknown_type, key_by, identity_by, identity, single_of, single_in};
ghost use Rattle.ldif_faults.specs.Values.{has_type, repeats, second_value, pairs_of, pairs_in, own_pairs, differs, differ_by, is_named_otherwise};
ghost use Rattle.ldif_faults.specs.Values.{named_otherwise, repeated_by, repeated, again_from, line_at, twice, given_twice, doubled, is_no_value};
ghost use Rattle.ldif_faults.specs.Values.{is_bad_value, is_object_class_by, is_object_class, no_class, none_of_type, bad_value, no_value};

use crate::placed::{Placed, PlacedRecord, ValueLine, at_line, at_name};
use ldap_match::{
    Name, NameError, Rdn, Rule, Schema, TypeAndValue, TypeId, equality_rule, is_of_syntax,
    key_or_none,
};
use ldap_words::is_same_word;
use std::alloc::{AllocError, Global};
use std::collections::BTreeSet;
use text_faults::{about_word, code_word, said, shown};

/// What a code says alone.
pub fn by_code(alloc: Global, item: &PlacedRecord<'_>, code: u32) -> Result<Placed, AllocError>
    ensures { IfOk result (λ p. p ≡ by_code item.now code) }
{
    Ok(at_name(item, said(alloc, code_word(code))?))
}

/// Whether the schema lacks the type of a line.
fn is_unknown(schema: &Schema, line: &ValueLine<'_>) -> bool
    ensures { result ≡ is_unknown schema.now line.now }
{
    schema.find_octets(line.description()).is_none()
}

/// The first line whose type the schema lacks.
fn first_unknown<'a, 'v>(schema: &Schema, lines: &'a [ValueLine<'v>]) -> Option<&'a ValueLine<'v>>
    ensures { option_map (λ x. x.now) result ≡ first_line (is_unknown schema.now) lines.now }
{
    for line in lines {
        if is_unknown(schema, line) {
            return Some(line);
        }
    }
    None
}

/// A line whose type the schema lacks.
fn no_type(alloc: Global, line: &ValueLine<'_>) -> Result<String, AllocError>
    ensures { IfOk result (λ s. string_bytes s ≡ no_type line.now) }
{
    about_word(
        alloc,
        "no attribute type '",
        line.description(),
        "' in the schema",
    )
}

/// A value whose type the schema lacks: 17.
pub fn unknown_type(
    alloc: Global,
    schema: &Schema,
    item: &PlacedRecord<'_>,
) -> Result<Placed, AllocError>
    ensures { IfOk result (λ p. p ≡ unknown_type schema.now item.now) }
{
    match first_unknown(schema, item.lines()) {
        Some(line) => Ok(at_line(line, no_type(alloc, line)?)),
        None => by_code(alloc, item, 17),
    }
}

/// A copy of octets.
fn copied(alloc: Global, octets: &[u8]) -> Result<Vec<u8>, AllocError>
    ensures { IfOk result (λ v. v.items ≡ octets.now) }
{
    Vec::from_slice(alloc, octets)
}

/// What makes octets one value under a rule, or without one.
fn key_by(
    alloc: Global,
    schema: &Schema,
    rule: Option<Rule>,
    octets: &[u8],
) -> Result<Vec<u8>, AllocError>
    ensures { IfOk result (λ v. v.items ≡ key_by schema.now rule octets.now) }
{
    let Some(rule) = rule else {
        return copied(alloc, octets);
    };
    match key_or_none(alloc, schema, rule, octets)? {
        Some(key) => copied(alloc, key.as_octets()),
        None => copied(alloc, octets),
    }
}

/// A type as it is put before its values; nothing, where there is none.
fn front_of_type(alloc: Global, type_id: TypeId) -> Result<Vec<u8>, AllocError>
    ensures { IfOk result (λ v. v.items ≡ decimal type_id ++ 58 ∷ []) }
{
    let number = type_id.number();
    let front = format!(in alloc; "{number}:")?;
    copied(alloc, front.as_bytes())
}

/// What two lines have in common that give a value of a type twice.
fn identity_by(
    alloc: Global,
    schema: &Schema,
    type_id: Option<TypeId>,
    octets: &[u8],
) -> Result<Vec<u8>, AllocError>
    ensures { IfOk result (λ v. v.items ≡ identity_by schema.now type_id octets.now) }
{
    let Some(type_id) = type_id else {
        let mut identity = copied(alloc, b":")?;
        identity.extend_from_slice(octets)?;
        return Ok(identity);
    };
    let mut identity = front_of_type(alloc, type_id)?;
    let key = key_by(alloc, schema, equality_rule(schema, type_id), octets)?;
    identity.extend_from_slice(&key)?;
    Ok(identity)
}

/// What two lines have in common that give a value twice.
fn identity(alloc: Global, schema: &Schema, line: &ValueLine<'_>) -> Result<Vec<u8>, AllocError>
    ensures { IfOk result (λ v. v.items ≡ identity schema.now line.now) }
{
    let type_id = schema.find_octets(line.description());
    identity_by(alloc, schema, type_id, line.octets())
}

/// The type, where it is SINGLE-VALUE.
fn single_of(schema: &Schema, type_id: Option<TypeId>) -> Option<TypeId>
    ensures { result ≡ single_of schema.now type_id }
{
    let type_id = type_id?;
    match schema.attribute_type(type_id) {
        Some(found) if found.is_single_value() => Some(type_id),
        _ => None,
    }
}

/// The type of a line, where it is SINGLE-VALUE.
fn single_in(schema: &Schema, line: &ValueLine<'_>) -> Option<TypeId>
    ensures { result ≡ single_in schema.now line.now }
{
    single_of(schema, schema.find_octets(line.description()))
}

/// Whether a type is among types.
fn has_type(types: &[TypeId], type_id: TypeId) -> bool
    ensures { result ≡ has_type types.now type_id }
{
    types.iter().any(|other| *other == type_id)
}

/// The first line of a SINGLE-VALUE type that a line before it has.
fn first_repeat<'a, 'v>(
    alloc: Global,
    schema: &Schema,
    lines: &'a [ValueLine<'v>],
) -> Result<Option<&'a ValueLine<'v>>, AllocError>
    ensures { IfOk result (λ o. option_map (λ x. x.now) o ≡ repeats schema.now [] lines.now) }
{
    let mut seen = Vec::new(alloc);
    for line in lines {
        if let Some(type_id) = single_in(schema, line) {
            if has_type(seen.as_slice(), type_id) {
                return Ok(Some(line));
            }
            seen.push(type_id)?;
        }
    }
    Ok(None)
}

/// A line with a second value.
fn second_value(alloc: Global, line: &ValueLine<'_>) -> Result<String, AllocError>
    ensures { IfOk result (λ s. string_bytes s ≡ second_value line.now) }
{
    about_word(
        alloc,
        "a second value of '",
        line.description(),
        "', which is SINGLE-VALUE",
    )
}

/// The types and values of the last relative name, which is the entry's own.
fn pairs_in(rdns: &[Rdn]) -> &[TypeAndValue]
    ensures { result.now ≡ pairs_of (slice_get rdns.now (length rdns.now - 1)) }
{
    match rdns.last() {
        Some(rdn) => rdn.types_and_values(),
        None => &[],
    }
}

/// The name of a record, where its text is one.
pub fn name_in(alloc: Global, schema: &Schema, text: &str) -> Result<Option<Name>, AllocError>
    ensures { IfOk result (λ o. o ≡ name_of_text schema.now text.now) }
{
    match Name::read(alloc, schema, text) {
        Ok(name) => Ok(Some(name)),
        Err(NameError::BadName) => Ok(None),
        Err(NameError::NoMemory) => Err(AllocError),
    }
}

/// The types and values of a name's own relative name.
pub fn own_pairs(name: &Option<Name>) -> &[TypeAndValue]
    ensures { result.now ≡ pairs_in name.now }
{
    match name {
        Some(name) => pairs_in(name.rdns()),
        None => &[],
    }
}

/// Whether a pair of a name gives another value to this type.
fn differs(
    alloc: Global,
    schema: &Schema,
    type_id: TypeId,
    identity: &[u8],
    pair: &TypeAndValue,
) -> Result<bool, AllocError>
    ensures { IfOk result (λ b. b ≡ differs schema.now type_id identity.now pair.now) }
{
    if pair.type_id() != type_id {
        return Ok(false);
    }
    let other = identity_by(alloc, schema, Some(pair.type_id()), pair.value().as_bytes())?;
    Ok(identity != other.as_slice())
}

/// Whether some pair of a name does.
fn any_differs(
    alloc: Global,
    schema: &Schema,
    type_id: TypeId,
    identity: &[u8],
    pairs: &[TypeAndValue],
) -> Result<bool, AllocError>
    ensures { IfOk result (λ b. b ≡ list_any (differs schema.now type_id identity.now) pairs.now) }
{
    for pair in pairs {
        if differs(alloc, schema, type_id, identity, pair)? {
            return Ok(true);
        }
    }
    Ok(false)
}

/// Whether a line is of a SINGLE-VALUE type to which the name gives another value.
fn is_named_otherwise(
    alloc: Global,
    schema: &Schema,
    pairs: &[TypeAndValue],
    line: &ValueLine<'_>,
) -> Result<bool, AllocError>
    ensures { IfOk result (λ b. b ≡ is_named_otherwise schema.now pairs.now line.now) }
{
    match single_in(schema, line) {
        Some(type_id) => {
            let identity = identity(alloc, schema, line)?;
            any_differs(alloc, schema, type_id, &identity, pairs)
        }
        None => Ok(false),
    }
}

/// The first such line.
fn first_named_otherwise<'a, 'v>(
    alloc: Global,
    schema: &Schema,
    pairs: &[TypeAndValue],
    lines: &'a [ValueLine<'v>],
) -> Result<Option<&'a ValueLine<'v>>, AllocError>
    ensures { IfOk result (λ o. option_map (λ x. x.now) o ≡ first_line (is_named_otherwise schema.now pairs.now)
        lines.now) }
{
    for line in lines {
        if is_named_otherwise(alloc, schema, pairs, line)? {
            return Ok(Some(line));
        }
    }
    Ok(None)
}

/// A line of such a type.
fn named_otherwise(alloc: Global, line: &ValueLine<'_>) -> Result<String, AllocError>
    ensures { IfOk result (λ s. string_bytes s ≡ named_otherwise line.now) }
{
    about_word(
        alloc,
        "'",
        line.description(),
        "' is SINGLE-VALUE, and the name gives it another value",
    )
}

/// A record whose values have no SINGLE-VALUE type twice.
fn repeated_by_name(
    alloc: Global,
    schema: &Schema,
    item: &PlacedRecord<'_>,
) -> Result<Placed, AllocError>
    ensures { IfOk result (λ p. p ≡ repeated_by schema.now item.now None) }
{
    let name = name_in(alloc, schema, item.name())?;
    match first_named_otherwise(alloc, schema, own_pairs(&name), item.lines())? {
        Some(line) => Ok(at_line(line, named_otherwise(alloc, line)?)),
        None => by_code(alloc, item, 19),
    }
}

/// A second value of a SINGLE-VALUE type, among the values or beside the name's: 19.
pub fn repeated(
    alloc: Global,
    schema: &Schema,
    item: &PlacedRecord<'_>,
) -> Result<Placed, AllocError>
    ensures { IfOk result (λ p. p ≡ repeated schema.now item.now) }
{
    match first_repeat(alloc, schema, item.lines())? {
        Some(line) => Ok(at_line(line, second_value(alloc, line)?)),
        None => repeated_by_name(alloc, schema, item),
    }
}

/// The index of the first item that is equal to one before it. It takes time as sorting does.
fn first_equal<K: Ord + Copy>(alloc: Global, list: &[K]) -> Result<Option<usize>, AllocError>
    ensures { IfOk result (λ o. o ≡ again_from (eq_by_cmp K.cmp) [] 0 list.now) }
{
    let mut seen = BTreeSet::new(alloc);
    for (index, item) in list.iter().enumerate() {
        if !seen.insert(*item)? {
            return Ok(Some(index));
        }
    }
    Ok(None)
}

/// The index of the first octets that are the same as ones before them.
fn first_again(alloc: Global, list: &[&[u8]]) -> Result<Option<usize>, AllocError>
    ensures { IfOk result (λ o. o ≡ again_from bytes_eq [] 0 (map (λ octets. octets.now) list.now)) }
{
    first_equal(alloc, list)
}

/// What lines have in common that give a value twice, of each.
fn identities(
    alloc: Global,
    schema: &Schema,
    lines: &[ValueLine<'_>],
) -> Result<Vec<Vec<u8>>, AllocError>
    ensures { IfOk result (λ v. map (λ x. x.items) v.items ≡ map (identity schema.now) lines.now) }
{
    let mut all = Vec::new(alloc);
    for line in lines {
        all.push(identity(alloc, schema, line)?)?;
    }
    Ok(all)
}

/// Lists of octets, lent.
fn lent(alloc: Global, lists: &[Vec<u8>]) -> Result<Vec<&[u8]>, AllocError>
    ensures { IfOk result (λ v. map (λ x. x.now) v.items ≡ map (λ x. x.items) lists.now) }
{
    let mut all = Vec::new(alloc);
    for list in lists {
        all.push(list.as_slice())?;
    }
    Ok(all)
}

/// The line of an index.
fn line_at<'a, 'v>(lines: &'a [ValueLine<'v>], index: Option<usize>) -> Option<&'a ValueLine<'v>>
    ensures { option_map (λ x. x.now) result ≡ line_at lines.now index }
{
    match index {
        Some(index) => lines.get(index),
        None => None,
    }
}

/// The first line that gives a value of a line before it.
fn first_twice<'a, 'v>(
    alloc: Global,
    schema: &Schema,
    lines: &'a [ValueLine<'v>],
) -> Result<Option<&'a ValueLine<'v>>, AllocError>
    ensures { IfOk result (λ o. option_map (λ x. x.now) o ≡ twice schema.now lines.now) }
{
    let identities = identities(alloc, schema, lines)?;
    let lists = lent(alloc, identities.as_slice())?;
    Ok(line_at(lines, first_again(alloc, lists.as_slice())?))
}

/// A value in a sentence, where it is text.
fn value_twice(alloc: Global, line: &ValueLine<'_>) -> Result<String, AllocError>
    ensures { IfOk result (λ s. string_bytes s ≡ codes "the value '" ++ word_shown line.now.octets ++ codes
        "' of '" ++ word_shown line.now.description ++ codes "' comes twice") }
{
    let value = shown(alloc, line.octets())?;
    let word = shown(alloc, line.description())?;
    format!(in alloc; "the value '{value}' of '{word}' comes twice")
}

/// Whether octets are UTF-8.
#[tactic(auto, using(text_faults::proofs::Utf8::utf8_true, text_faults::proofs::Utf8::utf8_false))]
fn is_text(octets: &[u8]) -> bool
    ensures { result ≡ is_utf8 octets.now }
{
    str::from_utf8(octets).is_ok()
}

/// A line that gives a value of a line before it.
fn given_twice(alloc: Global, line: &ValueLine<'_>) -> Result<String, AllocError>
    ensures { IfOk result (λ s. string_bytes s ≡ given_twice line.now) }
{
    if is_text(line.octets()) {
        return value_twice(alloc, line);
    }
    let word = shown(alloc, line.description())?;
    format!(in alloc; "a value of '{word}' comes twice")
}

/// A value that comes twice, or else a type: 20.
pub fn doubled(
    alloc: Global,
    schema: &Schema,
    item: &PlacedRecord<'_>,
) -> Result<Placed, AllocError>
    ensures { IfOk result (λ p. p ≡ doubled schema.now item.now) }
{
    match first_twice(alloc, schema, item.lines())? {
        Some(line) => Ok(at_line(line, given_twice(alloc, line)?)),
        None => Ok(at_name(item, said(alloc, "a type comes under two of its names")?)),
    }
}

/// Whether a value is in no syntax of its type.
fn is_no_value(
    alloc: Global,
    schema: &Schema,
    type_id: Option<TypeId>,
    octets: &[u8],
) -> Result<bool, AllocError>
    ensures { IfOk result (λ b. b ≡ is_no_value schema.now type_id octets.now) }
{
    match type_id {
        Some(type_id) => Ok(!is_of_syntax(alloc, schema, type_id, octets)?),
        None => Ok(false),
    }
}

/// Whether a line's value is in no syntax of its type.
fn is_bad_value(alloc: Global, schema: &Schema, line: &ValueLine<'_>) -> Result<bool, AllocError>
    ensures { IfOk result (λ b. b ≡ is_bad_value schema.now line.now) }
{
    let type_id = schema.find_octets(line.description());
    is_no_value(alloc, schema, type_id, line.octets())
}

/// The first line with such a value.
fn first_bad<'a, 'v>(
    alloc: Global,
    schema: &Schema,
    lines: &'a [ValueLine<'v>],
) -> Result<Option<&'a ValueLine<'v>>, AllocError>
    ensures { IfOk result (λ o. option_map (λ x. x.now) o ≡ first_line (is_bad_value schema.now) lines.now) }
{
    for line in lines {
        if is_bad_value(alloc, schema, line)? {
            return Ok(Some(line));
        }
    }
    Ok(None)
}

/// Whether a word with this type is a name of the type objectClass.
fn is_object_class_by(schema: &Schema, word: &[u8], type_id: Option<TypeId>) -> bool
    ensures { result ≡ is_object_class_by schema.now word.now type_id }
{
    match type_id {
        Some(type_id) => type_id == schema.object_class_type(),
        None => is_same_word(b"objectClass", word),
    }
}

/// Whether a line's type is objectClass.
pub fn is_object_class(schema: &Schema, line: &ValueLine<'_>) -> bool
    ensures { result ≡ is_object_class schema.now line.now }
{
    let word = line.description();
    is_object_class_by(schema, word, schema.find_octets(word))
}

/// A class that the schema lacks.
pub fn no_class(alloc: Global, name: &[u8]) -> Result<String, AllocError>
    ensures { IfOk result (λ s. string_bytes s ≡ no_class name.now) }
{
    about_word(alloc, "no object class '", name, "' in the schema")
}

/// What follows a value that is none of its type.
fn end_of(octets: &[u8]) -> &'static str
    ensures { result.now ≡ cond (is_utf8 octets.now) (codes "'") (codes "': it is not UTF-8") }
{
    if is_text(octets) {
        "'"
    } else {
        "': it is not UTF-8"
    }
}

/// A value that is none of its type.
fn none_of_type(alloc: Global, line: &ValueLine<'_>) -> Result<String, AllocError>
    ensures { IfOk result (λ s. string_bytes s ≡ none_of_type line.now) }
{
    let word = shown(alloc, line.description())?;
    let value = shown(alloc, line.octets())?;
    let end = end_of(line.octets());
    format!(in alloc; "'{value}' is no value of '{word}{end}")
}

/// A line with a value that is none of its type.
fn bad_value(alloc: Global, schema: &Schema, line: &ValueLine<'_>) -> Result<String, AllocError>
    ensures { IfOk result (λ s. string_bytes s ≡ bad_value schema.now line.now) }
{
    if is_object_class(schema, line) {
        return no_class(alloc, line.octets());
    }
    none_of_type(alloc, line)
}

/// A value that is in no syntax of its type: 21.
pub fn no_value(
    alloc: Global,
    schema: &Schema,
    item: &PlacedRecord<'_>,
) -> Result<Placed, AllocError>
    ensures { IfOk result (λ p. p ≡ no_value schema.now item.now) }
{
    match first_bad(alloc, schema, item.lines())? {
        Some(line) => Ok(at_line(line, bad_value(alloc, schema, line)?)),
        None => by_code(alloc, item, 21),
    }
}
