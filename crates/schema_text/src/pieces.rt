//! Cuts tokens at spaces, separators and parentheses.

ghost use Rattle.std.specs.Prelude.{◌≡◌, ◌≤◌, true, length, map, option_map, IfOk};
ghost use Rattle.std.specs.List.{filter, list_all, slice_split, prefix_len, suffix_len};
ghost use Rattle.schema_text.specs.Tokens as marks;
ghost use Rattle.schema_text.specs.Arguments as arguments;

use crate::token::Token;
use std::alloc::{AllocError, Global};

/// The octet of a token.
fn octet_of(token: Token) -> u8
    ensures { result ≡ marks.octet_of token }
{
    match token {
        Token::Outer(octet) | Token::Inner(octet) | Token::Quoted(octet) => octet,
        Token::Open => b'(',
        Token::Close => b')',
    }
}

/// Whether the token stands outside lists and quoted texts.
fn is_outer(token: Token) -> bool
    ensures { result ≡ marks.is_outer token }
{
    match token {
        Token::Outer(_) => true,
        Token::Inner(_) | Token::Quoted(_) | Token::Open | Token::Close => false,
    }
}

/// Whether the token stands inside a list, and in no quoted text.
fn is_inner(token: Token) -> bool
    ensures { result ≡ marks.is_inner token }
{
    match token {
        Token::Inner(_) => true,
        Token::Outer(_) | Token::Quoted(_) | Token::Open | Token::Close => false,
    }
}

/// Whether the token is a part of a quoted text.
fn is_quoted(token: Token) -> bool
    ensures { result ≡ marks.is_quoted token }
{
    match token {
        Token::Quoted(_) => true,
        Token::Outer(_) | Token::Inner(_) | Token::Open | Token::Close => false,
    }
}

/// Whether a list begins with the token.
fn is_open(token: Token) -> bool
    ensures { result ≡ marks.is_open token }
{
    match token {
        Token::Open => true,
        Token::Outer(_) | Token::Inner(_) | Token::Quoted(_) | Token::Close => false,
    }
}

/// Whether a list ends with the token.
fn is_close(token: Token) -> bool
    ensures { result ≡ marks.is_close token }
{
    match token {
        Token::Close => true,
        Token::Outer(_) | Token::Inner(_) | Token::Quoted(_) | Token::Open => false,
    }
}

/// Whether the token is this octet in no quoted text, inside a list or outside.
fn is_bare(is_inside: bool, octet: u8, token: Token) -> bool
    ensures { result ≡ marks.is_bare is_inside octet token }
{
    match is_inside {
        true => is_inner(token) && octet_of(token) == octet,
        false => is_outer(token) && octet_of(token) == octet,
    }
}

/// The parts of the tokens that a separator parts.
fn parts(
    alloc: Global,
    is_inside: bool,
    octet: u8,
    tokens: &[Token],
) -> Result<Vec<&[Token]>, AllocError>
    ensures { IfOk result (λ v. map (λ x. x.now) v.items ≡ slice_split (marks.is_bare is_inside octet) tokens.now) }
{
    tokens
        .split(|token| is_bare(is_inside, octet, *token))
        .collect(alloc)
}

/// Those of the parts that are not empty.
fn filled<'a>(alloc: Global, parts: &[&'a [Token]]) -> Result<Vec<&'a [Token]>, AllocError>
    ensures { IfOk result (λ v. map (λ x. x.now) v.items ≡ filter arguments.is_some_piece
        (map (λ x. x.now) parts.now)) }
{
    let mut found = Vec::new(alloc);
    for part in parts {
        if 0 < part.len() {
            found.push(*part)?;
        }
    }
    Ok(found)
}

/// The tokens between runs of spaces, inside a list or outside.
pub fn pieces(alloc: Global, is_inside: bool, tokens: &[Token]) -> Result<Vec<&[Token]>, AllocError>
    ensures { IfOk result (λ v. map (λ x. x.now) v.items ≡ arguments.pieces is_inside tokens.now) }
{
    let parts = parts(alloc, is_inside, b' ', tokens)?;
    filled(alloc, parts.as_slice())
}

/// The tokens between the `$` of a list.
pub fn alternatives(alloc: Global, tokens: &[Token]) -> Result<Vec<&[Token]>, AllocError>
    ensures { IfOk result (λ v. map (λ x. x.now) v.items ≡ slice_split (marks.is_bare true 36) tokens.now) }
{
    parts(alloc, true, b'$', tokens)
}

/// The tokens between quotes.
pub fn between_quotes(is_inside: bool, tokens: &[Token]) -> Option<&[Token]>
    ensures { option_map (λ x. x.now) result ≡ arguments.between (marks.is_bare is_inside 39)
        (marks.is_bare is_inside 39) tokens.now }
{
    match tokens {
        [] => None,
        [first, rest @ ..] => {
            if is_bare(is_inside, b'\'', *first) && ends_at_quote(is_inside, rest) {
                Some(&rest[..rest.len() - 1])
            } else {
                None
            }
        }
    }
}

/// Whether the last token is a quote.
fn ends_at_quote(is_inside: bool, tokens: &[Token]) -> bool
    ensures { result ≡ arguments.ends_at (marks.is_bare is_inside 39) tokens.now }
{
    match tokens.last() {
        Some(last) => is_bare(is_inside, b'\'', *last),
        None => false,
    }
}

/// The tokens between the parentheses of a list.
pub fn listed(tokens: &[Token]) -> Option<&[Token]>
    ensures { option_map (λ x. x.now) result ≡ arguments.listed tokens.now }
{
    match tokens {
        [] => None,
        [first, rest @ ..] => {
            if is_open(*first) && ends_at_close(rest) {
                Some(&rest[..rest.len() - 1])
            } else {
                None
            }
        }
    }
}

/// Whether the last token is the end of a list.
fn ends_at_close(tokens: &[Token]) -> bool
    ensures { result ≡ arguments.ends_at marks.is_close tokens.now }
{
    match tokens.last() {
        Some(last) => is_close(*last),
        None => false,
    }
}

/// The octets of the tokens.
pub fn octets(alloc: Global, tokens: &[Token]) -> Result<Vec<u8>, AllocError>
    ensures { IfOk result (λ v. v.items ≡ map marks.octet_of tokens.now) }
{
    tokens.iter().map(|token| octet_of(*token)).collect(alloc)
}

/// Whether all tokens stand outside lists and quoted texts.
pub fn are_outer(tokens: &[Token]) -> bool
    ensures { result ≡ list_all marks.is_outer tokens.now }
{
    tokens.iter().all(|token| is_outer(*token))
}

/// Whether all tokens stand inside a list, and in no quoted text.
pub fn are_inner(tokens: &[Token]) -> bool
    ensures { result ≡ list_all marks.is_inner tokens.now }
{
    tokens.iter().all(|token| is_inner(*token))
}

/// Whether all tokens are parts of quoted texts.
pub fn are_quoted(tokens: &[Token]) -> bool
    ensures { result ≡ list_all marks.is_quoted tokens.now }
{
    tokens.iter().all(|token| is_quoted(*token))
}

/// How many spaces of a list stand at the front.
fn leading_spaces(tokens: &[Token]) -> usize
    ensures count { result ≡ prefix_len (marks.is_bare true 32) tokens.now }
    ensures bound { result ≤ length tokens.now }
{
    tokens
        .iter()
        .take_while(|token| is_bare(true, b' ', **token))
        .count()
}

/// How many spaces of a list stand at the end.
fn trailing_spaces(tokens: &[Token]) -> usize
    ensures count { result ≡ suffix_len (marks.is_bare true 32) tokens.now }
    ensures bound { result ≤ length tokens.now }
{
    tokens
        .iter()
        .rev()
        .take_while(|token| is_bare(true, b' ', **token))
        .count()
}

/// The tokens without the spaces of a list at the front.
fn without_leading(tokens: &[Token]) -> &[Token]
    ensures { result.now ≡ arguments.without_leading tokens.now }
{
    &tokens[leading_spaces(tokens)..]
}

/// The tokens without the spaces of a list at the end.
fn without_trailing(tokens: &[Token]) -> &[Token]
    ensures { result.now ≡ arguments.without_trailing tokens.now }
{
    &tokens[..tokens.len() - trailing_spaces(tokens)]
}

/// The tokens without the spaces of a list at both ends.
pub fn trimmed(tokens: &[Token]) -> &[Token]
    ensures { result.now ≡ arguments.without_trailing (arguments.without_leading tokens.now) }
{
    without_trailing(without_leading(tokens))
}
