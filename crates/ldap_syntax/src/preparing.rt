//! Preparing text for comparison (RFC 4518).

ghost use Rattle.std.specs.Prelude.{◌≡◌, chars, string_bytes, encode_utf8_all, IfOk};
ghost use Rattle.ldap_syntax.specs.Text.{prepared};

use crate::mapping::{folded, normal};
use crate::spacing::{spaced, without_separators, without_spaces};
use ldap_words::Family;
use std::alloc::{AllocError, Global};

/// Which part of a value a text is: the whole of it, or one of the parts of a substring assertion.
#[derive(Clone, Copy, Debug, PartialEq, Eq)]
pub enum Part {
    Whole,
    Initial,
    Any,
    Final,
}

/// The text as it is compared in the family (RFC 4518 2). Time grows with the text's length alone. Allocations, each
/// with its growths: one, and one more for text of over 32 octets; for text beyond ASCII one more where case counts,
/// and three where it is folded; and what puts marks in order, where the text is not in form KC. One where the text
/// stays as it stands.
pub fn prepare(alloc: Global, text: &str, family: Family, part: Part) -> Result<String, AllocError>
    ensures { IfOk result (λ s.
        string_bytes s ≡ encode_utf8_all (prepared family part (chars text.now))) }
{
    match family {
        Family::Ignore | Family::Ia5 => spaced(alloc, folded(alloc, text)?.as_slice(), part),
        Family::Exact | Family::Ia5Exact => spaced(alloc, normal(alloc, text)?.as_slice(), part),
        Family::Numeric => without_spaces(alloc, normal(alloc, text)?.as_slice()),
        Family::Telephone => without_separators(alloc, folded(alloc, text)?.as_slice()),
        Family::Identifier
        | Family::Name
        | Family::Boolean
        | Family::Integer
        | Family::Octet
        | Family::Time => as_it_stands(alloc, text),
    }
}

/// A copy of the text.
fn as_it_stands(alloc: Global, text: &str) -> Result<String, AllocError>
    ensures { IfOk result (λ s. string_bytes s ≡ encode_utf8_all (chars text.now)) }
{
    String::from_str(alloc, text)
}
