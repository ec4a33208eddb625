//! Reads a description's fields.

ghost use Rattle.std.specs.Prelude.{◌≡◌, [], None, map, option_map, IfOk};
ghost use Rattle.schema_text.specs.Descriptions as descriptions;
ghost use Rattle.schema_text.specs.Arguments as arguments;

use crate::arguments::{argument, word};
use crate::description::{Description, Field};
use crate::keyword::{Keyword, Section, Shape, keyword_of, may_follow, place, shape_of};
use crate::pieces::pieces;
use crate::scanning::tokens;
use crate::token::Token;
use crate::words::ends_with;
use ldap_words::is_numericoid;
use std::alloc::{AllocError, Global};

/// The keyword that the tokens are.
fn keyword_at(
    alloc: Global,
    section: Section,
    tokens: &[Token],
) -> Result<Option<Keyword>, AllocError>
    ensures { IfOk result (λ o. o ≡ descriptions.keyword_at section tokens.now) }
{
    match word(alloc, tokens)? {
        Some(word) => Ok(keyword_of(section, word.as_slice())),
        None => Ok(None),
    }
}

/// Whether nothing stands behind a keyword of this shape.
fn is_flag(shape: Shape) -> bool
    ensures { result ≡ descriptions.is_flag shape }
{
    match shape {
        Shape::Flag => true,
        Shape::Names
        | Shape::Text
        | Shape::Texts
        | Shape::Oid
        | Shape::Oids
        | Shape::BoundedOid
        | Shape::Usage => false,
    }
}

/// The field of a keyword and its argument.
fn with_argument(
    alloc: Global,
    section: Section,
    keyword: Keyword,
    tokens: &[Token],
) -> Result<Option<Field>, AllocError>
    ensures { IfOk result (λ o. o ≡ descriptions.with_argument section keyword tokens.now) }
{
    match argument(alloc, shape_of(section, keyword), tokens)? {
        Some(texts) => Ok(Some(Field { keyword, texts })),
        None => Ok(None),
    }
}

/// The fields that the pieces are.
fn fields(
    alloc: Global,
    section: Section,
    pieces: &[&[Token]],
) -> Result<Option<Vec<Field>>, AllocError>
    ensures { IfOk result (λ o. option_map (λ v. v.items) o ≡ descriptions.fields_from section [] None
        (map (λ x. x.now) pieces.now)) }
{
    let mut fields = Vec::new(alloc);
    let mut waiting = None;
    for piece in pieces {
        match waiting {
            None => {
                let Some(keyword) = keyword_at(alloc, section, piece)? else {
                    return Ok(None);
                };
                if is_flag(shape_of(section, keyword)) {
                    let texts = Vec::new(alloc);
                    fields.push(Field { keyword, texts })?;
                } else {
                    waiting = Some(keyword);
                }
            }
            Some(keyword) => {
                let Some(field) = with_argument(alloc, section, keyword, piece)? else {
                    return Ok(None);
                };
                fields.push(field)?;
                waiting = None;
            }
        }
    }
    match waiting {
        None => Ok(Some(fields)),
        Some(_) => Ok(None),
    }
}

/// Whether the fields stand in the order of the grammar.
fn are_in_order(fields: &[Field]) -> bool
    ensures { result ≡ descriptions.are_in_order 0 fields.now }
{
    let mut last = 0;
    for field in fields {
        if !may_follow(last, field.keyword()) {
            return false;
        }
        last = place(field.keyword());
    }
    true
}

/// The fields that the pieces are, in the order of the grammar.
fn ordered_fields(
    alloc: Global,
    section: Section,
    pieces: &[&[Token]],
) -> Result<Option<Vec<Field>>, AllocError>
    ensures { IfOk result (λ o. option_map (λ v. v.items) o ≡ descriptions.ordered_fields section
        (map (λ x. x.now) pieces.now)) }
{
    let Some(fields) = fields(alloc, section, pieces)? else {
        return Ok(None);
    };
    if are_in_order(fields.as_slice()) {
        Ok(Some(fields))
    } else {
        Ok(None)
    }
}

/// The object identifier that the tokens are.
fn numericoid(alloc: Global, tokens: &[Token]) -> Result<Option<Vec<u8>>, AllocError>
    ensures { IfOk result (λ o. option_map (λ v. v.items) o ≡ descriptions.numericoid_of tokens.now) }
{
    let Some(word) = word(alloc, tokens)? else {
        return Ok(None);
    };
    if is_numericoid(word.as_slice()) {
        Ok(Some(word))
    } else {
        Ok(None)
    }
}

/// The description that the pieces are.
fn of_pieces(
    alloc: Global,
    line: usize,
    section: Section,
    pieces: &[&[Token]],
) -> Result<Option<Description>, AllocError>
    ensures { IfOk result (λ o. o ≡ descriptions.of_pieces line section (map (λ x. x.now) pieces.now)) }
{
    match pieces {
        [] => Ok(None),
        [first, rest @ ..] => {
            let Some(oid) = numericoid(alloc, first)? else {
                return Ok(None);
            };
            match ordered_fields(alloc, section, rest)? {
                Some(fields) => Ok(Some(Description { line, oid, fields })),
                None => Ok(None),
            }
        }
    }
}

/// The octets between parentheses.
fn inside(octets: &[u8]) -> Option<&[u8]>
    ensures { option_map (λ x. x.now) result ≡ descriptions.inside octets.now }
{
    match octets {
        [] => None,
        [first, rest @ ..] => {
            if *first == b'(' && ends_with(b')', rest) {
                Some(&rest[..rest.len() - 1])
            } else {
                None
            }
        }
    }
}

/// The description that the octets are, in a line of this number.
pub fn description(
    alloc: Global,
    line: usize,
    section: Section,
    octets: &[u8],
) -> Result<Option<Description>, AllocError>
    ensures { IfOk result (λ o. o ≡ descriptions.description_of line section octets.now) }
{
    let Some(body) = inside(octets) else {
        return Ok(None);
    };
    let Some(tokens) = tokens(alloc, body)? else {
        return Ok(None);
    };
    let pieces = pieces(alloc, false, tokens.as_slice())?;
    of_pieces(alloc, line, section, pieces.as_slice())
}
