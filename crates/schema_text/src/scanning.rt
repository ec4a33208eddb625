//! Tells the octets of a description apart.

ghost use Rattle.std.specs.Prelude.{◌≡◌, ◌&&◌, IfOk, option_map};
ghost use Rattle.schema_text.specs.Tokens as tokens;
ghost use Rattle.schema_text.specs.declared.token.Scan.TheVariants.{Outside, Inside, Quote, Escape, Half};

use crate::token::{Scan, Step, Token};
use std::alloc::{AllocError, Global};

/// An octet outside quoted texts, in a list or not.
fn bare(is_inside: bool, octet: u8) -> Token
    ensures { result ≡ tokens.bare is_inside octet }
{
    match is_inside {
        true => Token::Inner(octet),
        false => Token::Outer(octet),
    }
}

/// Where a reader stands outside quoted texts, in a list or not.
fn standing(is_inside: bool) -> Scan
    ensures { result ≡ tokens.standing is_inside }
{
    match is_inside {
        true => Scan::Inside,
        false => Scan::Outside,
    }
}

/// What an octet does outside lists and quoted texts.
fn outside(octet: u8) -> Step
    ensures { result ≡ tokens.step Outside octet }
{
    if octet == b'(' {
        Step::Gives(Token::Open, Scan::Inside)
    } else if octet == b')' {
        Step::Refuses
    } else if octet == b'\'' {
        Step::Gives(Token::Outer(octet), Scan::Quote(false))
    } else {
        Step::Gives(Token::Outer(octet), Scan::Outside)
    }
}

/// What an octet does inside a list.
fn inside(octet: u8) -> Step
    ensures { result ≡ tokens.step Inside octet }
{
    if octet == b'(' {
        Step::Refuses
    } else if octet == b')' {
        Step::Gives(Token::Close, Scan::Outside)
    } else if octet == b'\'' {
        Step::Gives(Token::Inner(octet), Scan::Quote(true))
    } else {
        Step::Gives(Token::Inner(octet), Scan::Inside)
    }
}

/// What an octet does inside a quoted text.
fn quote(is_inside: bool, octet: u8) -> Step
    ensures { result ≡ tokens.step (Quote is_inside) octet }
{
    if octet == b'\'' {
        Step::Gives(bare(is_inside, octet), standing(is_inside))
    } else if octet == b'\\' {
        Step::Gives(Token::Quoted(octet), Scan::Escape(is_inside))
    } else {
        Step::Gives(Token::Quoted(octet), Scan::Quote(is_inside))
    }
}

/// What an octet does behind a backslash.
fn escape(is_inside: bool, octet: u8) -> Step
    ensures { result ≡ tokens.step (Escape is_inside) octet }
{
    if octet == b'2' || octet == b'5' {
        Step::Gives(Token::Quoted(octet), Scan::Half(is_inside, octet))
    } else {
        Step::Refuses
    }
}

/// What an octet does behind a backslash and a digit.
fn half(is_inside: bool, digit: u8, octet: u8) -> Step
    ensures { result ≡ tokens.step (Half is_inside digit) octet }
{
    if (digit == b'2' && octet == b'7') || (digit == b'5' && (octet == b'C' || octet == b'c')) {
        Step::Gives(Token::Quoted(octet), Scan::Quote(is_inside))
    } else {
        Step::Refuses
    }
}

/// What an octet does where the reader stands so.
fn step(scan: Scan, octet: u8) -> Step
    ensures { result ≡ tokens.step scan octet }
{
    match scan {
        Scan::Outside => outside(octet),
        Scan::Inside => inside(octet),
        Scan::Quote(is_inside) => quote(is_inside, octet),
        Scan::Escape(is_inside) => escape(is_inside, octet),
        Scan::Half(is_inside, digit) => half(is_inside, digit, octet),
    }
}

/// The tokens of octets; none, where a list or a quoted text does not end, or an octet stands where it may not.
pub fn tokens(alloc: Global, octets: &[u8]) -> Result<Option<Vec<Token>>, AllocError>
    ensures { IfOk result (λ o. option_map (λ v. v.items) o ≡ tokens.tokens_of octets.now) }
{
    let mut tokens = Vec::new(alloc);
    let mut scan = Scan::Outside;
    for octet in octets {
        match step(scan, *octet) {
            Step::Refuses => return Ok(None),
            Step::Gives(token, next) => {
                tokens.push(token)?;
                scan = next;
            }
        }
    }
    match scan {
        Scan::Outside => Ok(Some(tokens)),
        Scan::Inside | Scan::Quote(_) | Scan::Escape(_) | Scan::Half(_, _) => Ok(None),
    }
}
