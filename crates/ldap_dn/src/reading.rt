//! Reads tokens as names.

ghost use Rattle.std.specs.Prelude.{◌≡◌, ◌≤◌, [], map, not, length, position, slice_get, None, Some, string_bytes, IfOk, OnOk, IsErrOf};
ghost use Rattle.std.specs.List.{list_all};
ghost use Rattle.ldap_dn.specs.Tokens.{octet_of as octet_of_token, is_plain as is_plain_token, is_unescaped as is_unescaped_token, is_space as is_space_token};
ghost use Rattle.ldap_dn.specs.Spellings.{spelled_in};
ghost use Rattle.ldap_dn.specs.Texts as texts;

use crate::cutting::{is_plain, is_space, is_unescaped, octet_of, pieces, trimmed};
use crate::fault::NameError;
use crate::rdn::{Rdn, Spelling, TypeAndKey, TypeAndValue, written_of};
use crate::token::Token;
use crate::value_keys::key;
use ldap_schema::{Family, Rule, Schema, TypeId, equality_rule};
use ldap_syntax::{Key, ValueError};
use smallvec::SmallVec;
use std::alloc::{AllocError, Global};

/// So many octets of a description need no memory of their own.
const ROOM: usize = 32;

/// The octets of a description, whose tokens these are.
fn description_of(alloc: Global, tokens: &[Token]) -> Result<SmallVec<u8, ROOM>, AllocError>
    ensures { IfOk result (λ v. v.items ≡ map octet_of_token tokens.now) }
{
    let mut description = SmallVec::with_capacity(alloc, tokens.len())?;
    for token in tokens {
        description.push(octet_of(*token))?;
    }
    Ok(description)
}

/// The octets of the tokens.
fn octets(alloc: Global, tokens: &[Token]) -> Result<Vec<u8>, AllocError>
    ensures { IfOk result (λ v. v.items ≡ map octet_of_token tokens.now) }
{
    tokens.iter().map(|token| octet_of(*token)).collect(alloc)
}

/// Whether all tokens are unescaped.
fn are_unescaped(tokens: &[Token]) -> bool
    ensures { result ≡ list_all is_unescaped_token tokens.now }
{
    tokens.iter().all(|token| is_unescaped(*token))
}

/// The type that the tokens describe.
fn type_of(alloc: Global, schema: &Schema, tokens: &[Token]) -> Result<TypeId, NameError>
    ensures found { IfOk result (λ t. texts.type_of schema.now tokens.now ≡ Some t) }
    ensures refused { IsErrOf result NameError.BadName → texts.type_of schema.now tokens.now ≡ None }
{
    if !are_unescaped(tokens) {
        return Err(NameError::BadName);
    }
    let description = description_of(alloc, tokens)?;
    match schema.find_octets(description.as_slice()) {
        Some(type_id) => Ok(type_id),
        None => Err(NameError::BadName),
    }
}

/// Whether a value may have the token.
fn is_value_octet(token: Token) -> bool
    ensures { result ≡ texts.is_value_octet token }
{
    !(is_plain(b'"', token)
        || is_plain(b'+', token)
        || is_plain(b',', token)
        || is_plain(b';', token)
        || is_plain(b'<', token)
        || is_plain(b'>', token)
        || is_plain(0, token))
}

/// Whether a value may have each of the tokens.
fn are_value_octets(tokens: &[Token]) -> bool
    ensures { result ≡ list_all texts.is_value_octet tokens.now }
{
    tokens.iter().all(|token| is_value_octet(*token))
}

/// Whether the first token is an unescaped `#`.
fn begins_with_hash(tokens: &[Token]) -> bool
    ensures { result ≡ texts.begins_with_hash tokens.now }
{
    match tokens.first() {
        Some(token) => is_plain(b'#', *token),
        None => false,
    }
}

/// The octets as text.
fn text_of(octets: Vec<u8>) -> Result<String, NameError>
    ensures found { IfOk result (λ t. texts.text_of octets.items ≡ Some (string_bytes t)) }
    ensures refused { IsErrOf result NameError.BadName → texts.text_of octets.items ≡ None }
{
    match String::from_utf8(octets) {
        Ok(text) => Ok(text),
        Err(_) => Err(NameError::BadName),
    }
}

/// The value that the tokens spell.
fn value_of(alloc: Global, tokens: &[Token]) -> Result<String, NameError>
    ensures found { IfOk result (λ t. texts.value_of tokens.now ≡ Some (string_bytes t)) }
    ensures refused { IsErrOf result NameError.BadName → texts.value_of tokens.now ≡ None }
{
    if !are_value_octets(tokens) || begins_with_hash(tokens) {
        return Err(NameError::BadName);
    }
    text_of(octets(alloc, tokens)?)
}

/// Where the first unescaped `=` stands.
fn equals_sign(tokens: &[Token]) -> Option<usize>
    ensures { result ≡ position (is_plain_token 61) tokens.now }
{
    tokens.iter().position(|token| is_plain(b'=', *token))
}

/// The type and the value that the tokens spell.
fn type_and_value(
    alloc: Global,
    schema: &Schema,
    tokens: &[Token],
) -> Result<TypeAndValue, NameError>
    ensures found { IfOk result (λ v. texts.type_and_value_of schema.now tokens.now ≡ Some v) }
    ensures refused { IsErrOf result NameError.BadName → texts.type_and_value_of schema.now tokens.now ≡ None }
{
    let Some(at) = equals_sign(tokens) else {
        return Err(NameError::BadName);
    };
    let type_id = type_of(alloc, schema, trimmed(&tokens[..at]))?;
    let value = value_of(alloc, trimmed(&tokens[at + 1..]))?;
    Ok(written_of(alloc, type_id, value)?)
}

/// The types and values that the pieces spell, in their order.
fn written_in(
    alloc: Global,
    schema: &Schema,
    pieces: &[&[Token]],
) -> Result<Vec<TypeAndValue>, NameError>
    ensures found { IfOk result (λ v. texts.written_from schema.now [] (map (λ x. x.now) pieces.now) ≡ Some v.items) }
    ensures refused { IsErrOf result NameError.BadName → texts.written_from schema.now []
        (map (λ x. x.now) pieces.now) ≡ None }
{
    let mut list = Vec::with_capacity(alloc, pieces.len())?;
    for piece in pieces {
        list.push(type_and_value(alloc, schema, piece)?)?;
    }
    Ok(list)
}

/// Whether no unescaped `+` parts the tokens.
fn is_unparted(tokens: &[Token]) -> bool
    ensures { result ≡ list_all (λ t. not (is_plain_token 43 t)) tokens.now }
{
    tokens.iter().all(|token| !is_plain(b'+', *token))
}

/// The types and values that the tokens spell, in their order.
#[tactic(auto, using(crate::proofs::Unparted::unparted))]
fn written(alloc: Global, schema: &Schema, tokens: &[Token]) -> Result<Spelling, NameError>
    ensures found { IfOk result (λ v. texts.written_of schema.now tokens.now ≡ Some (spelled_in v)) }
    ensures refused { IsErrOf result NameError.BadName → texts.written_of schema.now tokens.now ≡ None }
{
    if is_unparted(tokens) {
        return Ok(Spelling::One(type_and_value(alloc, schema, tokens)?));
    }
    let pieces = pieces(alloc, tokens, b'+')?;
    Ok(Spelling::Many(written_in(alloc, schema, pieces.as_slice())?))
}

/// The key of a value that means something under the rule.
fn meant_key(alloc: Global, schema: &Schema, rule: Rule, value: &[u8]) -> Result<Key, NameError>
    ensures found { IfOk result (λ k. texts.meant_key schema.now rule value.now ≡ Some k) }
    ensures refused { IsErrOf result NameError.BadName → texts.meant_key schema.now rule value.now ≡ None }
{
    match key(alloc, schema, rule, value) {
        Ok(key) => Ok(key),
        Err(ValueError::NotInSyntax) => Err(NameError::BadName),
        Err(ValueError::NoMemory) => Err(NameError::NoMemory),
    }
}

/// The key of a value under a rule that names may be made with.
fn naming_key(alloc: Global, schema: &Schema, rule: Rule, value: &[u8]) -> Result<Key, NameError>
    ensures found { IfOk result (λ k. texts.family_key schema.now rule rule.family value.now ≡ Some k) }
    ensures refused { IsErrOf result NameError.BadName → texts.family_key schema.now rule rule.family value.now ≡ None }
{
    match rule.family {
        Family::Name => Err(NameError::BadName),
        _ => meant_key(alloc, schema, rule, value),
    }
}

/// The type with the key of the value.
fn type_and_key(
    alloc: Global,
    schema: &Schema,
    written: &TypeAndValue,
) -> Result<TypeAndKey, NameError>
    ensures found { IfOk result (λ k. texts.type_and_key_of schema.now written.now ≡ Some k) }
    ensures refused { IsErrOf result NameError.BadName → texts.type_and_key_of schema.now written.now ≡ None }
{
    let Some(rule) = equality_rule(schema, written.type_id) else {
        return Err(NameError::BadName);
    };
    let key = naming_key(alloc, schema, rule, written.value.as_bytes())?;
    Ok(TypeAndKey {
        type_id: written.type_id,
        key,
    })
}

/// How many of the types stand below the type.
fn count_below(type_id: TypeId, keys: &[TypeAndKey]) -> usize
    ensures count { result ≡ texts.count_below type_id keys.now }
    ensures bound { result ≤ length keys.now }
{
    keys.iter()
        .take_while(|key| key.type_id.number() < type_id.number())
        .count()
}

/// Whether the key at this place is of the type.
fn is_of_type(type_id: TypeId, keys: &[TypeAndKey], at: usize) -> bool
    ensures { result ≡ texts.is_of_type type_id (slice_get keys.now at) }
{
    match keys.get(at) {
        Some(key) => key.type_id.number() == type_id.number(),
        None => false,
    }
}

/// Puts a type in its place in the rising order.
fn place(keys: &mut SmallVec<TypeAndKey, 1>, key: TypeAndKey) -> Result<(), NameError>
    ensures placed { OnOk result (texts.placed key keys.old.items ≡ Some keys.new.items) }
    ensures refused { IsErrOf result NameError.BadName → texts.placed key keys.old.items ≡ None }
{
    let at = count_below(key.type_id, keys.as_slice());
    if is_of_type(key.type_id, keys.as_slice(), at) {
        return Err(NameError::BadName);
    }
    keys.insert(at, key)?;
    Ok(())
}

/// The types with the keys of the values, in rising order.
fn keys_of(
    alloc: Global,
    schema: &Schema,
    written: &[TypeAndValue],
) -> Result<SmallVec<TypeAndKey, 1>, NameError>
    ensures found { IfOk result (λ v. texts.keys_from schema.now [] written.now ≡ Some v.items) }
    ensures refused { IsErrOf result NameError.BadName → texts.keys_from schema.now [] written.now ≡ None }
{
    let mut keys = SmallVec::with_capacity(alloc, written.len())?;
    for one in written {
        place(&mut keys, type_and_key(alloc, schema, one)?)?;
    }
    Ok(keys)
}

/// The relative name that the tokens spell.
fn rdn(alloc: Global, schema: &Schema, tokens: &[Token]) -> Result<Rdn, NameError>
    ensures found { IfOk result (λ r. texts.rdn_of schema.now tokens.now ≡ Some r) }
    ensures refused { IsErrOf result NameError.BadName → texts.rdn_of schema.now tokens.now ≡ None }
{
    let spelling = written(alloc, schema, tokens)?;
    let keys = keys_of(alloc, schema, spelling.as_slice())?;
    Ok(Rdn { keys, spelling })
}

/// The relative names that the pieces spell, in their order.
fn rdns_in(alloc: Global, schema: &Schema, pieces: &[&[Token]]) -> Result<Vec<Rdn>, NameError>
    ensures found { IfOk result (λ v. texts.rdns_from schema.now [] (map (λ x. x.now) pieces.now) ≡ Some v.items) }
    ensures refused { IsErrOf result NameError.BadName → texts.rdns_from schema.now [] (map (λ x. x.now) pieces.now) ≡
        None }
{
    let mut list = Vec::with_capacity(alloc, pieces.len())?;
    for piece in pieces {
        list.push(rdn(alloc, schema, piece)?)?;
    }
    Ok(list)
}

/// Whether no token but unescaped spaces is there.
fn is_blank(tokens: &[Token]) -> bool
    ensures { result ≡ list_all is_space_token tokens.now }
{
    tokens.iter().all(|token| is_space(*token))
}

/// The relative names of the tokens, the root's first.
pub fn rdns(alloc: Global, schema: &Schema, tokens: &[Token]) -> Result<Vec<Rdn>, NameError>
    ensures found { IfOk result (λ v. texts.name_of_tokens schema.now tokens.now ≡ Some v.items) }
    ensures refused { IsErrOf result NameError.BadName → texts.name_of_tokens schema.now tokens.now ≡ None }
{
    if is_blank(tokens) {
        return Ok(Vec::new(alloc));
    }
    let pieces = pieces(alloc, tokens, b',')?;
    let mut rdns = rdns_in(alloc, schema, pieces.as_slice())?;
    rdns.as_mut_slice().reverse();
    Ok(rdns)
}
