//! Keywords of descriptions.

ghost use Rattle.std.specs.Prelude.{◌≡◌};
ghost use Rattle.schema_text.specs.Keywords as keywords;

use crate::words::is_extension;
use ldap_words::is_same_word;

/// Which descriptions a line has (RFC 4512 4.2.1, 4.2.2).
#[derive(Clone, Copy, Debug, PartialEq, Eq)]
pub enum Section {
    AttributeTypes,
    ObjectClasses,
}

/// A keyword of a field (RFC 4512 4.1.1, 4.1.2). COLLECTIVE and NO-USER-MODIFICATION are none here.
#[derive(Clone, Copy, Debug, PartialEq, Eq)]
pub enum Keyword {
    Name,
    Desc,
    Obsolete,
    Sup,
    Equality,
    Ordering,
    Substr,
    Syntax,
    SingleValue,
    Usage,
    Abstract,
    Structural,
    Auxiliary,
    Must,
    May,
    /// Any one that begins with `X-`.
    Extension,
}

/// What stands behind a keyword.
#[derive(Clone, Copy, Debug, PartialEq, Eq)]
pub enum Shape {
    /// Nothing.
    Flag,
    /// A quoted name, or a list of them.
    Names,
    /// A quoted text.
    Text,
    /// A quoted text, or a list of them.
    Texts,
    /// A name or an object identifier.
    Oid,
    /// A name or an object identifier, or a list of them.
    Oids,
    /// An object identifier with a number in braces or without.
    BoundedOid,
    /// `userApplications`.
    Usage,
}

/// The keyword of both kinds of description that a word is.
fn common_keyword(word: &[u8]) -> Option<Keyword>
    ensures { result ≡ keywords.common_keyword word.now }
{
    if is_same_word(b"NAME", word) {
        Some(Keyword::Name)
    } else if is_same_word(b"DESC", word) {
        Some(Keyword::Desc)
    } else if is_same_word(b"OBSOLETE", word) {
        Some(Keyword::Obsolete)
    } else if is_same_word(b"SUP", word) {
        Some(Keyword::Sup)
    } else if is_extension(word) {
        Some(Keyword::Extension)
    } else {
        None
    }
}

/// The keyword of attribute types alone that a word is.
fn type_keyword(word: &[u8]) -> Option<Keyword>
    ensures { result ≡ keywords.type_keyword word.now }
{
    if is_same_word(b"EQUALITY", word) {
        Some(Keyword::Equality)
    } else if is_same_word(b"ORDERING", word) {
        Some(Keyword::Ordering)
    } else if is_same_word(b"SUBSTR", word) {
        Some(Keyword::Substr)
    } else if is_same_word(b"SYNTAX", word) {
        Some(Keyword::Syntax)
    } else if is_same_word(b"SINGLE-VALUE", word) {
        Some(Keyword::SingleValue)
    } else if is_same_word(b"USAGE", word) {
        Some(Keyword::Usage)
    } else {
        None
    }
}

/// The keyword of object classes alone that a word is.
fn class_keyword(word: &[u8]) -> Option<Keyword>
    ensures { result ≡ keywords.class_keyword word.now }
{
    if is_same_word(b"ABSTRACT", word) {
        Some(Keyword::Abstract)
    } else if is_same_word(b"STRUCTURAL", word) {
        Some(Keyword::Structural)
    } else if is_same_word(b"AUXILIARY", word) {
        Some(Keyword::Auxiliary)
    } else if is_same_word(b"MUST", word) {
        Some(Keyword::Must)
    } else if is_same_word(b"MAY", word) {
        Some(Keyword::May)
    } else {
        None
    }
}

/// The keyword that a word is in a section, in any case.
pub fn keyword_of(section: Section, word: &[u8]) -> Option<Keyword>
    ensures { result ≡ keywords.keyword_of section word.now }
{
    match common_keyword(word) {
        Some(keyword) => Some(keyword),
        None => match section {
            Section::AttributeTypes => type_keyword(word),
            Section::ObjectClasses => class_keyword(word),
        },
    }
}

/// The place of a keyword in the grammar's order.
pub fn place(keyword: Keyword) -> usize
    ensures { result ≡ keywords.place_of keyword }
{
    match keyword {
        Keyword::Name => 1,
        Keyword::Desc => 2,
        Keyword::Obsolete => 3,
        Keyword::Sup => 4,
        Keyword::Equality => 5,
        Keyword::Ordering => 6,
        Keyword::Substr => 7,
        Keyword::Syntax => 8,
        Keyword::SingleValue => 9,
        Keyword::Usage => 10,
        Keyword::Abstract | Keyword::Structural | Keyword::Auxiliary => 11,
        Keyword::Must => 12,
        Keyword::May => 13,
        Keyword::Extension => 14,
    }
}

/// Whether a field may stand behind one of this place.
pub fn may_follow(last: usize, keyword: Keyword) -> bool
    ensures { result ≡ keywords.may_follow last keyword }
{
    last < place(keyword) || (last == 14 && place(keyword) == 14)
}

/// What stands behind a keyword.
pub fn shape_of(section: Section, keyword: Keyword) -> Shape
    ensures { result ≡ keywords.shape_of section keyword }
{
    match keyword {
        Keyword::Name => Shape::Names,
        Keyword::Desc => Shape::Text,
        Keyword::Sup => superior_shape(section),
        Keyword::Equality | Keyword::Ordering | Keyword::Substr => Shape::Oid,
        Keyword::Syntax => Shape::BoundedOid,
        Keyword::Usage => Shape::Usage,
        Keyword::Must | Keyword::May => Shape::Oids,
        Keyword::Extension => Shape::Texts,
        Keyword::Obsolete
        | Keyword::SingleValue
        | Keyword::Abstract
        | Keyword::Structural
        | Keyword::Auxiliary => Shape::Flag,
    }
}

/// What stands behind SUP: a type has one superior, a class may have more.
fn superior_shape(section: Section) -> Shape
    ensures { result ≡ keywords.superior_shape section }
{
    match section {
        Section::AttributeTypes => Shape::Oid,
        Section::ObjectClasses => Shape::Oids,
    }
}
