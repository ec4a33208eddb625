//! Undoes the escapes of a name's text.

ghost use Rattle.std.specs.Prelude.{◌≡◌, None, Some, IfOk, IsErrOf};
ghost use Rattle.ldap_dn.specs.Tokens.{is_escapable as is_escapable_octet};
ghost use Rattle.ldap_dn.specs.declared.token.Scan.TheVariants.{Between, Escape};
ghost use Rattle.ldap_dn.specs.Grammar.{TokensAreSpelled};
ghost use Rattle.ldap_dn.specs.Texts.{step as step_from, tokens_of};

use crate::fault::NameError;
use crate::token::{Scan, Step, Token};
use ldap_schema::hex_octet;
use std::alloc::Global;

/// Whether a backslash may stand before the octet.
fn is_escapable(octet: u8) -> bool
    ensures { result ≡ is_escapable_octet octet }
{
    octet == b'"'
        || octet == b'+'
        || octet == b','
        || octet == b';'
        || octet == b'<'
        || octet == b'>'
        || octet == b'\\'
        || octet == 0
        || octet == b' '
        || octet == b'#'
        || octet == b'='
}

/// What an octet does where the reader stands so.
fn step(scan: Scan, octet: u8) -> Step
    ensures { result ≡ step_from scan octet }
{
    match scan {
        Scan::Between => begin(octet),
        Scan::Escape => escape(octet),
        Scan::Half(high) => match hex_octet(high, octet) {
            Some(spelled) => Step::Gives(Token::Escaped(spelled)),
            None => Step::Refuses,
        },
    }
}

/// What an octet does between tokens.
fn begin(octet: u8) -> Step
    ensures { result ≡ step_from Between octet }
{
    if octet == b'\\' {
        Step::Reads(Scan::Escape)
    } else {
        Step::Gives(Token::Plain(octet))
    }
}

/// What an octet does behind a backslash.
fn escape(octet: u8) -> Step
    ensures { result ≡ step_from Escape octet }
{
    if is_escapable(octet) {
        Step::Gives(Token::Escaped(octet))
    } else {
        Step::Reads(Scan::Half(octet))
    }
}

/// The tokens of a text.
pub fn tokens(alloc: Global, text: &[u8]) -> Result<Vec<Token>, NameError>
    ensures found { IfOk result (λ v. tokens_of text.now ≡ Some v.items) }
    ensures refused { IsErrOf result NameError.BadName → tokens_of text.now ≡ None }
{
    let mut tokens = Vec::with_capacity(alloc, text.len())?;
    let mut scan = Scan::Between;
    for octet in text {
        match step(scan, *octet) {
            Step::Refuses => return Err(NameError::BadName),
            Step::Reads(next) => scan = next,
            Step::Gives(token) => {
                tokens.push(token)?;
                scan = Scan::Between;
            }
        }
    }
    match scan {
        Scan::Between => Ok(tokens),
        Scan::Escape | Scan::Half(_) => Err(NameError::BadName),
    }
}

/// The tokens of a text are the octets that it spells, and a text spells octets exactly where it has tokens.
pub fn tokens_are_spelled()
    ensures { TokensAreSpelled }
{}
