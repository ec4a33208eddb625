//! Reads the arguments of fields.

ghost use Rattle.std.specs.Prelude.{◌≡◌, [], true, map, option_and_then, option_map, IfOk};
ghost use Rattle.schema_text.specs.Arguments as arguments;
ghost use Rattle.schema_text.specs.Words as words;

use crate::keyword::Shape;
use crate::pieces::{
    alternatives, are_inner, are_outer, are_quoted, between_quotes, listed, octets, pieces, trimmed,
};
use crate::token::Token;
use crate::words::bounded_oid;
use ldap_words::{is_descr, is_oid, is_same_word};
use std::alloc::{AllocError, Global};

/// The text of tokens between quotes.
fn dstring(alloc: Global, tokens: &[Token]) -> Result<Option<Vec<u8>>, AllocError>
    ensures { IfOk result (λ o. option_map (λ v. v.items) o ≡ arguments.dstring_of tokens.now) }
{
    if 0 < tokens.len() && are_quoted(tokens) {
        Ok(Some(octets(alloc, tokens)?))
    } else {
        Ok(None)
    }
}

/// The text that the tokens are in quotes.
fn quoted_text(
    alloc: Global,
    is_inside: bool,
    tokens: &[Token],
) -> Result<Option<Vec<u8>>, AllocError>
    ensures { IfOk result (λ o. option_map (λ v. v.items) o ≡ arguments.quoted_text is_inside tokens.now) }
{
    match between_quotes(is_inside, tokens) {
        Some(text) => dstring(alloc, text),
        None => Ok(None),
    }
}

/// The short name that the tokens are in quotes.
fn quoted_name(
    alloc: Global,
    is_inside: bool,
    tokens: &[Token],
) -> Result<Option<Vec<u8>>, AllocError>
    ensures { IfOk result (λ o. option_map (λ v. v.items) o ≡ arguments.quoted_name is_inside tokens.now) }
{
    let Some(name) = quoted_text(alloc, is_inside, tokens)? else {
        return Ok(None);
    };
    if is_descr(name.as_slice()) {
        Ok(Some(name))
    } else {
        Ok(None)
    }
}

/// The word that the tokens are.
pub fn word(alloc: Global, tokens: &[Token]) -> Result<Option<Vec<u8>>, AllocError>
    ensures { IfOk result (λ o. option_map (λ v. v.items) o ≡ arguments.word_of tokens.now) }
{
    if are_outer(tokens) {
        Ok(Some(octets(alloc, tokens)?))
    } else {
        Ok(None)
    }
}

/// The word, if it is a name or an object identifier.
fn oid_if(word: Vec<u8>) -> Option<Vec<u8>>
    ensures { option_map (λ v. v.items) result ≡ arguments.oid_if word.items }
{
    if is_oid(word.as_slice()) {
        Some(word)
    } else {
        None
    }
}

/// The name or object identifier that the tokens are.
fn oid(alloc: Global, tokens: &[Token]) -> Result<Option<Vec<u8>>, AllocError>
    ensures { IfOk result (λ o. option_map (λ v. v.items) o ≡ arguments.oid_of tokens.now) }
{
    match word(alloc, tokens)? {
        Some(word) => Ok(oid_if(word)),
        None => Ok(None),
    }
}

/// The name or object identifier that the tokens are inside a list.
fn inner_oid(alloc: Global, tokens: &[Token]) -> Result<Option<Vec<u8>>, AllocError>
    ensures { IfOk result (λ o. option_map (λ v. v.items) o ≡ arguments.inner_oid tokens.now) }
{
    let word = trimmed(tokens);
    if are_inner(word) {
        Ok(oid_if(octets(alloc, word)?))
    } else {
        Ok(None)
    }
}

/// The one text, if there is one.
fn one(alloc: Global, text: Option<Vec<u8>>) -> Result<Option<Vec<Vec<u8>>>, AllocError>
    ensures { IfOk result (λ o. option_map (λ v. map (λ x. x.items) v.items) o ≡ arguments.one
        (option_map (λ v. v.items) text)) }
{
    let Some(text) = text else {
        return Ok(None);
    };
    let mut texts = Vec::new(alloc);
    texts.push(text)?;
    Ok(Some(texts))
}

/// The quoted names that the pieces of a list are.
fn inner_names(alloc: Global, pieces: &[&[Token]]) -> Result<Option<Vec<Vec<u8>>>, AllocError>
    ensures { IfOk result (λ o. option_map (λ v. map (λ x. x.items) v.items) o ≡ arguments.all_from
        (arguments.quoted_name true) [] (map (λ x. x.now) pieces.now)) }
{
    let mut names = Vec::new(alloc);
    for piece in pieces {
        let Some(name) = quoted_name(alloc, true, piece)? else {
            return Ok(None);
        };
        names.push(name)?;
    }
    Ok(Some(names))
}

/// The quoted texts that the pieces of a list are.
fn inner_texts(alloc: Global, pieces: &[&[Token]]) -> Result<Option<Vec<Vec<u8>>>, AllocError>
    ensures { IfOk result (λ o. option_map (λ v. map (λ x. x.items) v.items) o ≡ arguments.all_from
        (arguments.quoted_text true) [] (map (λ x. x.now) pieces.now)) }
{
    let mut texts = Vec::new(alloc);
    for piece in pieces {
        let Some(text) = quoted_text(alloc, true, piece)? else {
            return Ok(None);
        };
        texts.push(text)?;
    }
    Ok(Some(texts))
}

/// The names and object identifiers that the pieces of a list are.
fn inner_oids(alloc: Global, pieces: &[&[Token]]) -> Result<Option<Vec<Vec<u8>>>, AllocError>
    ensures { IfOk result (λ o. option_map (λ v. map (λ x. x.items) v.items) o ≡ arguments.all_from
        arguments.inner_oid [] (map (λ x. x.now) pieces.now)) }
{
    let mut oids = Vec::new(alloc);
    for piece in pieces {
        let Some(oid) = inner_oid(alloc, piece)? else {
            return Ok(None);
        };
        oids.push(oid)?;
    }
    Ok(Some(oids))
}

/// One quoted name, or a list of them.
fn names(alloc: Global, tokens: &[Token]) -> Result<Option<Vec<Vec<u8>>>, AllocError>
    ensures { IfOk result (λ o. option_map (λ v. map (λ x. x.items) v.items) o ≡ arguments.names_of tokens.now) }
{
    match listed(tokens) {
        Some(inside) => inner_names(alloc, pieces(alloc, true, inside)?.as_slice()),
        None => one(alloc, quoted_name(alloc, false, tokens)?),
    }
}

/// One quoted text, or a list of them.
fn texts(alloc: Global, tokens: &[Token]) -> Result<Option<Vec<Vec<u8>>>, AllocError>
    ensures { IfOk result (λ o. option_map (λ v. map (λ x. x.items) v.items) o ≡ arguments.texts_of tokens.now) }
{
    match listed(tokens) {
        Some(inside) => inner_texts(alloc, pieces(alloc, true, inside)?.as_slice()),
        None => one(alloc, quoted_text(alloc, false, tokens)?),
    }
}

/// One name or object identifier, or a list of them.
fn oids(alloc: Global, tokens: &[Token]) -> Result<Option<Vec<Vec<u8>>>, AllocError>
    ensures { IfOk result (λ o. option_map (λ v. map (λ x. x.items) v.items) o ≡ arguments.oids_of tokens.now) }
{
    match listed(tokens) {
        Some(inside) => inner_oids(alloc, alternatives(alloc, inside)?.as_slice()),
        None => one(alloc, oid(alloc, tokens)?),
    }
}

/// The object identifier that the tokens are, which a number in braces may follow.
fn bounded(alloc: Global, tokens: &[Token]) -> Result<Option<Vec<u8>>, AllocError>
    ensures { IfOk result (λ o. option_map (λ v. v.items) o ≡ option_and_then words.bounded_oid
        (arguments.word_of tokens.now)) }
{
    let Some(word) = word(alloc, tokens)? else {
        return Ok(None);
    };
    match bounded_oid(word.as_slice()) {
        Some(oid) => Ok(Some(Vec::from_slice(alloc, oid)?)),
        None => Ok(None),
    }
}

/// The word that the tokens are, if it is `userApplications`.
fn usage(alloc: Global, tokens: &[Token]) -> Result<Option<Vec<u8>>, AllocError>
    ensures { IfOk result (λ o. option_map (λ v. v.items) o ≡ option_and_then arguments.usage_if
        (arguments.word_of tokens.now)) }
{
    let Some(word) = word(alloc, tokens)? else {
        return Ok(None);
    };
    if is_same_word(b"userApplications", word.as_slice()) {
        Ok(Some(word))
    } else {
        Ok(None)
    }
}

/// The texts of an argument of a shape; none, where the tokens are no such argument.
pub fn argument(
    alloc: Global,
    shape: Shape,
    tokens: &[Token],
) -> Result<Option<Vec<Vec<u8>>>, AllocError>
    ensures { IfOk result (λ o. option_map (λ v. map (λ x. x.items) v.items) o ≡ arguments.argument_of shape
        tokens.now) }
{
    match shape {
        Shape::Flag => Ok(None),
        Shape::Names => names(alloc, tokens),
        Shape::Text => one(alloc, quoted_text(alloc, false, tokens)?),
        Shape::Texts => texts(alloc, tokens),
        Shape::Oid => one(alloc, oid(alloc, tokens)?),
        Shape::Oids => oids(alloc, tokens),
        Shape::BoundedOid => one(alloc, bounded(alloc, tokens)?),
        Shape::Usage => one(alloc, usage(alloc, tokens)?),
    }
}
