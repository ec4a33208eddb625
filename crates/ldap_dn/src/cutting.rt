//! Cuts and trims tokens.

ghost use Rattle.std.specs.Prelude.{◌≡◌, ◌≤◌, length, map, IfOk};
ghost use Rattle.std.specs.List.{slice_split, prefix_len, suffix_len};
ghost use Rattle.ldap_dn.specs.Parted.{PartsAreParted};
ghost use Rattle.ldap_dn.specs.Tokens.{octet_of as octet_of_token, is_plain as is_plain_token, is_unescaped as is_unescaped_token, is_space as is_space_token, without_leading as tokens_without_leading, without_trailing as tokens_without_trailing, trimmed as trimmed_tokens};

use crate::token::Token;
use std::alloc::{AllocError, Global};

/// The octet of a token.
pub fn octet_of(token: Token) -> u8
    ensures { result ≡ octet_of_token token }
{
    match token {
        Token::Plain(octet) | Token::Escaped(octet) => octet,
    }
}

/// Whether the token is this octet, unescaped.
pub fn is_plain(octet: u8, token: Token) -> bool
    ensures { result ≡ is_plain_token octet token }
{
    match token {
        Token::Plain(plain) => plain == octet,
        Token::Escaped(_) => false,
    }
}

/// Whether the token is unescaped.
pub fn is_unescaped(token: Token) -> bool
    ensures { result ≡ is_unescaped_token token }
{
    match token {
        Token::Plain(_) => true,
        Token::Escaped(_) => false,
    }
}

/// Whether the token is an unescaped space.
pub fn is_space(token: Token) -> bool
    ensures { result ≡ is_space_token token }
{
    is_plain(b' ', token)
}

/// The parts of the tokens that the unescaped separator parts.
pub fn pieces(alloc: Global, tokens: &[Token], separator: u8) -> Result<Vec<&[Token]>, AllocError>
    ensures { IfOk result (λ v. map (λ x. x.now) v.items ≡ slice_split (is_plain_token separator) tokens.now) }
{
    tokens
        .split(|token| is_plain(separator, *token))
        .collect(alloc)
}

/// How many unescaped spaces stand at the front.
fn leading_spaces(tokens: &[Token]) -> usize
    ensures count { result ≡ prefix_len is_space_token tokens.now }
    ensures bound { result ≤ length tokens.now }
{
    tokens.iter().take_while(|token| is_space(**token)).count()
}

/// How many unescaped spaces stand at the end.
fn trailing_spaces(tokens: &[Token]) -> usize
    ensures count { result ≡ suffix_len is_space_token tokens.now }
    ensures bound { result ≤ length tokens.now }
{
    tokens
        .iter()
        .rev()
        .take_while(|token| is_space(**token))
        .count()
}

/// The tokens without the unescaped spaces at the front.
fn without_leading(tokens: &[Token]) -> &[Token]
    ensures { result.now ≡ tokens_without_leading tokens.now }
{
    &tokens[leading_spaces(tokens)..]
}

/// The tokens without the unescaped spaces at the end.
fn without_trailing(tokens: &[Token]) -> &[Token]
    ensures { result.now ≡ tokens_without_trailing tokens.now }
{
    &tokens[..tokens.len() - trailing_spaces(tokens)]
}

/// The tokens without the unescaped spaces at both ends.
pub fn trimmed(tokens: &[Token]) -> &[Token]
    ensures { result.now ≡ trimmed_tokens tokens.now }
{
    without_trailing(without_leading(tokens))
}

/// The pieces of tokens are the parts between unescaped separators.
pub fn pieces_are_parted()
    ensures { PartsAreParted }
{}
