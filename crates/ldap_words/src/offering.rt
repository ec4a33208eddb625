//! Says which rules a family has.

ghost use Rattle.std.specs.Prelude.{◌≡◌};
ghost use Rattle.ldap_words.specs.Families.{is_ordering, has_substrings as offers_substrings, is_used_on as is_family_used_on, is_textual as is_text};

use crate::rule::{Family, Syntax};

/// Whether the family has an ordering rule: then keys in byte order are in the order of the meanings.
pub fn has_ordering(family: Family) -> bool
    ensures { result ≡ is_ordering family }
{
    match family {
        Family::Ignore | Family::Exact | Family::Numeric | Family::Integer | Family::Time => true,
        Family::Identifier
        | Family::Name
        | Family::Boolean
        | Family::Octet
        | Family::Telephone
        | Family::Ia5
        | Family::Ia5Exact => false,
    }
}

/// Whether the family has a substrings rule: then `part_key_of` makes keys of parts.
pub fn has_substrings(family: Family) -> bool
    ensures { result ≡ offers_substrings family }
{
    match family {
        Family::Ignore | Family::Exact | Family::Numeric | Family::Telephone | Family::Ia5 => true,
        Family::Identifier
        | Family::Name
        | Family::Boolean
        | Family::Integer
        | Family::Octet
        | Family::Time
        | Family::Ia5Exact => false,
    }
}

/// Whether the family's rules are used on the syntax.
pub fn is_used_on(family: Family, syntax: Syntax) -> bool
    ensures { result ≡ is_family_used_on family syntax }
{
    match family {
        Family::Ignore | Family::Exact => is_textual(syntax),
        Family::Identifier => syntax == Syntax::ObjectIdentifier,
        Family::Name => syntax == Syntax::DistinguishedName,
        Family::Numeric => syntax == Syntax::NumericString,
        Family::Boolean => syntax == Syntax::Boolean,
        Family::Integer => syntax == Syntax::Integer,
        Family::Octet => syntax == Syntax::OctetString,
        Family::Telephone => syntax == Syntax::TelephoneNumber,
        Family::Time => syntax == Syntax::GeneralizedTime,
        Family::Ia5 | Family::Ia5Exact => syntax == Syntax::Ia5String,
    }
}

/// Whether the syntax is one of text.
fn is_textual(syntax: Syntax) -> bool
    ensures { result ≡ is_text syntax }
{
    match syntax {
        Syntax::DirectoryString
        | Syntax::Ia5String
        | Syntax::NumericString
        | Syntax::TelephoneNumber => true,
        Syntax::Boolean
        | Syntax::DistinguishedName
        | Syntax::GeneralizedTime
        | Syntax::Integer
        | Syntax::ObjectIdentifier
        | Syntax::OctetString => false,
    }
}
