//! Prints names.

ghost use Rattle.std.specs.Prelude.{◌≡◌, ◌++◌, [], drop, length, chars, true, IsTrue, map, reverse, flat_map, ◌∷◌, string_bytes, IfOk, OnOk};
ghost use Rattle.std.specs.List.{list_all};
ghost use Rattle.ldap_schema.specs.Schema.{first_name_of};
ghost use Rattle.ldap_dn.specs.Printed as printed;
ghost use Rattle.ldap_dn.specs.private.Plain.{is_plain as is_plain_octet, are_plain_ends};

use crate::rdn::{Rdn, TypeAndValue};
use ldap_schema::{AttributeType, Schema, TypeId};
use std::alloc::{AllocError, Global};

/// Whether the character is escaped wherever it stands.
fn is_special(c: char) -> bool
    ensures { result ≡ printed.is_special c }
{
    c == '"' || c == '+' || c == ',' || c == ';' || c == '<' || c == '>' || c == '\\'
}

/// Whether the character is escaped, as the first, the last or any one of its value.
fn is_escaped(is_first: bool, is_last: bool, c: char) -> bool
    ensures { result ≡ printed.is_escaped is_first is_last c }
{
    is_special(c) || (is_first && (c == ' ' || c == '#')) || (is_last && c == ' ')
}

/// Puts a character, behind a backslash where it is escaped.
fn put_character(out: &mut String, escaped: bool, c: char) -> Result<(), AllocError>
    ensures ok { OnOk result (string_bytes out.new ≡ string_bytes out.old ++ printed.printed_character escaped c) }
    ensures kept { string_bytes out.new ≡ string_bytes out.old ++ drop (length (string_bytes out.old))
        (string_bytes out.new) }
{
    if c == '\0' {
        return out.push_str("\\00");
    }
    if escaped {
        out.push('\\')?;
    }
    out.push(c)
}

/// Puts the characters of a value.
fn put_characters(out: &mut String, characters: &[char]) -> Result<(), AllocError>
    ensures ok { OnOk result (string_bytes out.new ≡ string_bytes out.old ++ printed.printed_from true characters.now) }
    ensures kept { string_bytes out.new ≡ string_bytes out.old ++ drop (length (string_bytes out.old))
        (string_bytes out.new) }
{
    let mut is_first = true;
    let mut left = characters.len();
    for c in characters {
        left -= 1;
        put_character(out, is_escaped(is_first, left == 0, *c), *c)?;
        is_first = false;
    }
    Ok(())
}

/// The characters of a text.
fn characters(alloc: Global, text: &str) -> Result<Vec<char>, AllocError>
    ensures { IfOk result (λ v. v.items ≡ chars text.now) }
{
    text.chars().collect(alloc)
}

/// Whether an octet is a character of ASCII that is escaped at the ends of a value at most.
fn is_plain(octet: u8) -> bool
    ensures { result ≡ is_plain_octet octet }
{
    octet > 0 && octet < 128 && !is_special(octet as char)
}

/// Whether all octets are such.
fn are_plain(octets: &[u8]) -> bool
    ensures { result ≡ list_all is_plain_octet octets.now }
{
    octets.iter().all(|octet| is_plain(*octet))
}

/// Whether neither the first octet of a value is escaped as the first, nor the last as the last.
fn has_plain_ends(first: u8, last: u8) -> bool
    ensures { result ≡ are_plain_ends first last }
{
    first != b' ' && first != b'#' && last != b' '
}

/// Whether a value is one of ASCII of which no character is escaped.
fn is_printed_as_is(value: &str) -> bool
    ensures { IsTrue result → printed.printed_value value.now ≡ value.now }
{
    let octets = value.as_bytes();
    let Some(first) = octets.first() else {
        return true;
    };
    let Some(last) = octets.last() else {
        return true;
    };
    has_plain_ends(*first, *last) && are_plain(octets)
}

/// Puts a value: at once, where it is printed as it is.
fn put_value(alloc: Global, out: &mut String, value: &str) -> Result<(), AllocError>
    ensures ok { OnOk result (string_bytes out.new ≡ string_bytes out.old ++ printed.printed_value value.now) }
    ensures kept { string_bytes out.new ≡ string_bytes out.old ++ drop (length (string_bytes out.old))
        (string_bytes out.new) }
{
    if is_printed_as_is(value) {
        return out.push_str(value);
    }
    let characters = characters(alloc, value)?;
    put_characters(out, characters.as_slice())
}

/// The first name of a type, or its object identifier.
fn first_name(attribute_type: &AttributeType) -> &str
    ensures { result.now ≡ first_name_of attribute_type.now.oid attribute_type.now.names }
{
    match attribute_type.names().first() {
        Some(name) => name.as_str(),
        None => attribute_type.oid(),
    }
}

/// The first name of the type of a number.
fn type_name(schema: &Schema, type_id: TypeId) -> &str
    ensures { result.now ≡ printed.type_name schema.now type_id }
{
    match schema.attribute_type(type_id) {
        Some(attribute_type) => first_name(attribute_type),
        None => "",
    }
}

/// Puts a type and a value.
fn put_type_and_value(
    alloc: Global,
    out: &mut String,
    schema: &Schema,
    one: &TypeAndValue,
) -> Result<(), AllocError>
    ensures ok { OnOk result (string_bytes out.new ≡ string_bytes out.old ++ printed.printed_type_and_value schema.now
        one.now) }
    ensures kept { string_bytes out.new ≡ string_bytes out.old ++ drop (length (string_bytes out.old))
        (string_bytes out.new) }
{
    out.push_str(type_name(schema, one.type_id))?;
    out.push('=')?;
    put_value(alloc, out, one.value.as_str())
}

/// Puts types and values, each behind a `+`.
fn put_more(
    alloc: Global,
    out: &mut String,
    schema: &Schema,
    list: &[TypeAndValue],
) -> Result<(), AllocError>
    ensures ok { OnOk result (string_bytes out.new ≡ string_bytes out.old ++ flat_map (λ y. 43 ∷ y)
        (map (printed.printed_type_and_value schema.now) list.now)) }
    ensures kept { string_bytes out.new ≡ string_bytes out.old ++ drop (length (string_bytes out.old))
        (string_bytes out.new) }
{
    for one in list {
        out.push('+')?;
        put_type_and_value(alloc, out, schema, one)?;
    }
    Ok(())
}

/// Puts types and values with a `+` between them.
fn put_rdn(
    alloc: Global,
    out: &mut String,
    schema: &Schema,
    list: &[TypeAndValue],
) -> Result<(), AllocError>
    ensures ok { OnOk result (string_bytes out.new ≡ string_bytes out.old ++ printed.printed_rdn schema.now list.now) }
    ensures kept { string_bytes out.new ≡ string_bytes out.old ++ drop (length (string_bytes out.old))
        (string_bytes out.new) }
{
    match list.split_first() {
        Some((first, more)) => {
            put_type_and_value(alloc, out, schema, first)?;
            put_more(alloc, out, schema, more)
        }
        None => Ok(()),
    }
}

/// Puts relative names, each behind a `,`.
fn put_more_rdns(
    alloc: Global,
    out: &mut String,
    schema: &Schema,
    rdns: &[&Rdn],
) -> Result<(), AllocError>
    ensures ok { OnOk result (string_bytes out.new ≡ string_bytes out.old ++ flat_map (λ y. 44 ∷ y)
        (map (λ r. printed.printed_rdn schema.now r.spelling) (map (λ r. r.now) rdns.now))) }
    ensures kept { string_bytes out.new ≡ string_bytes out.old ++ drop (length (string_bytes out.old))
        (string_bytes out.new) }
{
    for rdn in rdns {
        out.push(',')?;
        put_rdn(alloc, out, schema, rdn.types_and_values())?;
    }
    Ok(())
}

/// Puts relative names with a `,` between them.
fn put_rdns(
    alloc: Global,
    out: &mut String,
    schema: &Schema,
    rdns: &[&Rdn],
) -> Result<(), AllocError>
    ensures ok { OnOk result (string_bytes out.new ≡ string_bytes out.old ++ printed.separated 44
        (map (λ r. printed.printed_rdn schema.now r.spelling) (map (λ r. r.now) rdns.now))) }
    ensures kept { string_bytes out.new ≡ string_bytes out.old ++ drop (length (string_bytes out.old))
        (string_bytes out.new) }
{
    match rdns.split_first() {
        Some((first, more)) => {
            put_rdn(alloc, out, schema, first.types_and_values())?;
            put_more_rdns(alloc, out, schema, more)
        }
        None => Ok(()),
    }
}

/// The relative names, the last one first.
fn leaf_first(alloc: Global, rdns: &[Rdn]) -> Result<Vec<&Rdn>, AllocError>
    ensures { IfOk result (λ v. map (λ r. r.now) v.items ≡ reverse rdns.now) }
{
    rdns.iter().rev().collect(alloc)
}

/// How many octets a relative name takes with the `,` before it, if nothing in it is escaped.
fn room_for(schema: &Schema, rdn: &Rdn) -> usize {
    let mut room: usize = 0;
    for one in rdn.types_and_values() {
        let both = type_name(schema, one.type_id)
            .len()
            .saturating_add(one.value.len());
        room = room.saturating_add(both).saturating_add(2);
    }
    room
}

/// An empty text with room for relative names, if nothing in them is escaped.
fn text_for(alloc: Global, schema: &Schema, rdns: &[&Rdn]) -> Result<String, AllocError>
    ensures { IfOk result (λ t. string_bytes t ≡ []) }
{
    let mut room: usize = 0;
    for rdn in rdns {
        room = room.saturating_add(room_for(schema, rdn));
    }
    String::with_capacity(alloc, room)
}

/// The printed form of relative names that are given the last one first, as they are printed. It copies none of them.
pub fn print_from_leaf(alloc: Global, schema: &Schema, rdns: &[&Rdn]) -> Result<String, AllocError>
    ensures { IfOk result (λ t. string_bytes t ≡ printed.printed_name schema.now
        (reverse (map (λ r. r.now) rdns.now))) }
{
    let mut out = text_for(alloc, schema, rdns)?;
    put_rdns(alloc, &mut out, schema, rdns)?;
    Ok(out)
}

/// The printed form of relative names that are given the last one first, each behind a `,`: so they stand behind each
/// name right below them.
pub fn print_behind(alloc: Global, schema: &Schema, rdns: &[&Rdn]) -> Result<String, AllocError>
    ensures { IfOk result (λ t. string_bytes t ≡ printed.printed_behind schema.now (map (λ r. r.now) rdns.now)) }
{
    let mut out = text_for(alloc, schema, rdns)?;
    put_more_rdns(alloc, &mut out, schema, rdns)?;
    Ok(out)
}

/// The printed form of a name, whose last relative name is this one, and behind which this text stands.
pub fn print_before(
    alloc: Global,
    schema: &Schema,
    rdn: &Rdn,
    behind: &str,
) -> Result<String, AllocError>
    ensures { IfOk result (λ t. string_bytes t ≡ printed.printed_rdn schema.now rdn.now.spelling ++ behind.now) }
{
    let room = room_for(schema, rdn).saturating_add(behind.len());
    let mut out = String::with_capacity(alloc, room)?;
    put_rdn(alloc, &mut out, schema, rdn.types_and_values())?;
    out.push_str(behind)?;
    Ok(out)
}

/// The printed form of relative names, the root's first.
pub fn print(alloc: Global, schema: &Schema, rdns: &[Rdn]) -> Result<String, AllocError>
    ensures { IfOk result (λ t. string_bytes t ≡ printed.printed_name schema.now rdns.now) }
{
    let order = leaf_first(alloc, rdns)?;
    let mut out = text_for(alloc, schema, order.as_slice())?;
    put_rdns(alloc, &mut out, schema, order.as_slice())?;
    Ok(out)
}
