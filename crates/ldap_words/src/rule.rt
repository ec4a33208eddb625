//! Syntaxes and rules by name.

/// A syntax of values (RFC 4517 3.3). The number in each line is the last arc of `1.3.6.1.4.1.1466.115.121.1`.
#[derive(Clone, Copy, Debug, PartialEq, Eq)]
pub enum Syntax {
    /// 7: `TRUE` or `FALSE`.
    Boolean,
    /// 12: a name. Names are read only where a schema is known.
    DistinguishedName,
    /// 15: text in UTF-8, not empty.
    DirectoryString,
    /// 24: a time in Greenwich, `YYYYMMDDHHMMSSZ`.
    GeneralizedTime,
    /// 26: text of ASCII, which may be empty.
    Ia5String,
    /// 27: a whole number of any size, with no leading zeros and no `-0`.
    Integer,
    /// 36: digits and spaces, not empty.
    NumericString,
    /// 38: a dotted object identifier. Names stand for one only where a schema is known.
    ObjectIdentifier,
    /// 40: any octets.
    OctetString,
    /// 50: letters, digits, spaces and `'()+,-./:?=`, not empty.
    TelephoneNumber,
}

/// How values are made ready for comparison. The equality, the ordering and the substrings rule of one family share
/// their keys (RFC 4517 4.2).
#[derive(Clone, Copy, Debug, PartialEq, Eq)]
pub enum Family {
    /// objectIdentifierMatch
    Identifier,
    /// distinguishedNameMatch
    Name,
    /// caseIgnoreMatch, caseIgnoreOrderingMatch, caseIgnoreSubstringsMatch
    Ignore,
    /// caseExactMatch, caseExactOrderingMatch, caseExactSubstringsMatch
    Exact,
    /// numericStringMatch, numericStringOrderingMatch, numericStringSubstringsMatch
    Numeric,
    /// booleanMatch
    Boolean,
    /// integerMatch, integerOrderingMatch
    Integer,
    /// octetStringMatch
    Octet,
    /// telephoneNumberMatch, telephoneNumberSubstringsMatch
    Telephone,
    /// generalizedTimeMatch, generalizedTimeOrderingMatch
    Time,
    /// caseIgnoreIA5Match, caseIgnoreIA5SubstringsMatch
    Ia5,
    /// caseExactIA5Match
    Ia5Exact,
}

/// A matching rule: a family, on the values of one syntax. Which pairs there are `is_used_on` tells; the rule of any
/// other pair takes the values that are in the syntax and mean something in the family.
#[derive(Clone, Copy, Debug, PartialEq, Eq)]
pub struct Rule {
    pub family: Family,
    pub syntax: Syntax,
}
