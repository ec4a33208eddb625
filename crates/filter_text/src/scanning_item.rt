//! Scans what stands between an item's parentheses.

ghost use Rattle.std.specs.Prelude.{◌≡◌};
ghost use Rattle.std.specs.Option.{option_map};
ghost use Rattle.filter_text.specs.private.ItemScan as scan;

use crate::place::{ItemPlace, NamePlace, OidPlace, ValuePlace, Word};
use crate::printing_value::is_normal;
use ldap_words::{hex_digit, is_alpha, is_digit, is_key_octet};

/// Whether the octet is a hexadecimal digit.
fn is_hex(octet: u8) -> bool
    ensures { result ≡ scan.is_hex octet }
{
    hex_digit(octet).is_some()
}

/// The first octet of an oid.
fn oid_first(octet: u8) -> Option<OidPlace>
    ensures { result ≡ scan.oid_first octet }
{
    if is_alpha(octet) {
        Some(OidPlace::Letters)
    } else if octet == b'0' {
        Some(OidPlace::Zero)
    } else if is_digit(octet) {
        Some(OidPlace::Number)
    } else {
        None
    }
}

/// A dot between numbers.
fn dotted(octet: u8) -> Option<OidPlace>
    ensures { result ≡ scan.dotted octet }
{
    if octet == b'.' {
        Some(OidPlace::Dot)
    } else {
        None
    }
}

/// The first octet of a number behind a dot.
fn behind_dot(octet: u8) -> Option<OidPlace>
    ensures { result ≡ scan.oid_step OidPlace.Dot octet }
{
    if octet == b'0' {
        Some(OidPlace::DottedZero)
    } else if is_digit(octet) {
        Some(OidPlace::DottedNumber)
    } else {
        None
    }
}

/// An octet of an oid.
fn oid_step(place: OidPlace, octet: u8) -> Option<OidPlace>
    ensures { result ≡ scan.oid_step place octet }
{
    match place {
        OidPlace::Letters => {
            if is_key_octet(octet) {
                Some(OidPlace::Letters)
            } else {
                None
            }
        }
        OidPlace::Number => {
            if is_digit(octet) {
                Some(OidPlace::Number)
            } else {
                dotted(octet)
            }
        }
        OidPlace::Dot => behind_dot(octet),
        OidPlace::DottedNumber => {
            if is_digit(octet) {
                Some(OidPlace::DottedNumber)
            } else {
                dotted(octet)
            }
        }
        OidPlace::Zero | OidPlace::DottedZero => dotted(octet),
    }
}

/// Whether an oid may end here.
fn oid_ends(place: OidPlace) -> bool
    ensures { result ≡ scan.oid_ends place }
{
    match place {
        OidPlace::Letters | OidPlace::DottedZero | OidPlace::DottedNumber => true,
        OidPlace::Zero | OidPlace::Number | OidPlace::Dot => false,
    }
}

/// The octet behind a description's oid.
fn oid_out(place: OidPlace, octet: u8) -> Option<NamePlace>
    ensures { result ≡ scan.oid_out place octet }
{
    if oid_ends(place) {
        if octet == b';' {
            return Some(NamePlace::Semicolon);
        }
    }
    None
}

/// An octet of an option.
fn key_step(octet: u8) -> Option<NamePlace>
    ensures { result ≡ scan.name_step NamePlace.Semicolon octet }
{
    if is_key_octet(octet) {
        Some(NamePlace::Keys)
    } else {
        None
    }
}

/// An octet of a description.
fn name_step(place: NamePlace, octet: u8) -> Option<NamePlace>
    ensures { result ≡ scan.name_step place octet }
{
    match place {
        NamePlace::Oid(oid) => match oid_step(oid, octet) {
            Some(next) => Some(NamePlace::Oid(next)),
            None => oid_out(oid, octet),
        },
        NamePlace::Semicolon => key_step(octet),
        NamePlace::Keys => {
            if is_key_octet(octet) {
                Some(NamePlace::Keys)
            } else if octet == b';' {
                Some(NamePlace::Semicolon)
            } else {
                None
            }
        }
    }
}

/// Whether a description may end here.
fn name_ends(place: NamePlace) -> bool
    ensures { result ≡ scan.name_ends place }
{
    match place {
        NamePlace::Oid(oid) => oid_ends(oid),
        NamePlace::Semicolon => false,
        NamePlace::Keys => true,
    }
}

/// An octet between the octets of a value.
fn value_first(octet: u8) -> Option<ValuePlace>
    ensures { result ≡ scan.value_step ValuePlace.Between octet }
{
    if octet == b'\\' {
        Some(ValuePlace::Escape)
    } else if is_normal(octet) {
        Some(ValuePlace::Between)
    } else {
        None
    }
}

/// An octet of a value.
fn value_step(place: ValuePlace, octet: u8) -> Option<ValuePlace>
    ensures { result ≡ scan.value_step place octet }
{
    match place {
        ValuePlace::Between => value_first(octet),
        ValuePlace::Escape => {
            if is_hex(octet) {
                Some(ValuePlace::Half)
            } else {
                None
            }
        }
        ValuePlace::Half => {
            if is_hex(octet) {
                Some(ValuePlace::Between)
            } else {
                None
            }
        }
    }
}

/// Whether a value may end here.
fn value_ends(place: ValuePlace) -> bool
    ensures { result ≡ scan.value_ends place }
{
    match place {
        ValuePlace::Between => true,
        ValuePlace::Escape | ValuePlace::Half => false,
    }
}

/// The first octet of a word.
fn word_first(octet: u8) -> Word
    ensures { result ≡ scan.word_first octet }
{
    if octet.to_ascii_lowercase() == b'd' {
        Word::OnlyD
    } else {
        Word::Other
    }
}

/// A further octet of a word.
fn word_step(word: Word, octet: u8) -> Word
    ensures { result ≡ scan.word_step word octet }
{
    match word {
        Word::OnlyD => {
            if octet.to_ascii_lowercase() == b'n' {
                Word::Dn
            } else {
                Word::Other
            }
        }
        Word::Dn | Word::Other => Word::Other,
    }
}

/// `=` before a value without asterisks.
fn assign(octet: u8) -> Option<ItemPlace>
    ensures { result ≡ scan.assign octet }
{
    if octet == b'=' {
        Some(ItemPlace::Plain(ValuePlace::Between))
    } else {
        None
    }
}

/// Whether the octet begins `>=`, `<=` or `~=`.
fn is_sign(octet: u8) -> bool
    ensures { result ≡ scan.is_sign octet }
{
    octet == b'>' || octet == b'<' || octet == b'~'
}

/// The octet behind a description.
fn name_out(place: NamePlace, octet: u8) -> Option<ItemPlace>
    ensures { result ≡ scan.name_out place octet }
{
    if !name_ends(place) {
        None
    } else if octet == b'=' {
        Some(ItemPlace::Part(ValuePlace::Between))
    } else if octet == b':' {
        Some(ItemPlace::Colon)
    } else if is_sign(octet) {
        Some(ItemPlace::Sign)
    } else {
        None
    }
}

/// The first octet of the word behind the first colon.
fn rule_first(octet: u8) -> Option<ItemPlace>
    ensures { result ≡ scan.rule_first octet }
{
    match oid_first(octet) {
        Some(oid) => Some(ItemPlace::Rule(word_first(octet), oid)),
        None => None,
    }
}

/// The place behind a colon, a word and a colon.
fn behind_word(word: Word) -> ItemPlace
    ensures { result ≡ scan.behind_word word }
{
    match word {
        Word::Dn => ItemPlace::DnColon,
        Word::OnlyD | Word::Other => ItemPlace::Assign,
    }
}

/// The octet behind a word.
fn rule_out(word: Word, place: OidPlace, octet: u8) -> Option<ItemPlace>
    ensures { result ≡ scan.rule_out word place octet }
{
    if oid_ends(place) {
        if octet == b':' {
            return Some(behind_word(word));
        }
    }
    None
}

/// The octet behind the rule that stands behind `:dn:`.
fn last_out(place: OidPlace, octet: u8) -> Option<ItemPlace>
    ensures { result ≡ scan.last_out place octet }
{
    if oid_ends(place) {
        if octet == b':' {
            return Some(ItemPlace::Assign);
        }
    }
    None
}

/// An octet of a part.
fn part_of(place: Option<ValuePlace>) -> Option<ItemPlace>
    ensures { result ≡ option_map ItemPlace.Part place }
{
    match place {
        Some(value) => Some(ItemPlace::Part(value)),
        None => None,
    }
}

/// An octet of a value that may have asterisks.
fn part_step(place: ValuePlace, octet: u8) -> Option<ItemPlace>
    ensures { result ≡ scan.part_step place octet }
{
    if value_ends(place) && octet == b'*' {
        Some(ItemPlace::Star)
    } else {
        part_of(value_step(place, octet))
    }
}

/// The first octet of an item.
fn start_step(octet: u8) -> Option<ItemPlace>
    ensures { result ≡ scan.item_step ItemPlace.Start octet }
{
    if octet == b':' {
        return Some(ItemPlace::BareColon);
    }
    match oid_first(octet) {
        Some(oid) => Some(ItemPlace::Name(NamePlace::Oid(oid))),
        None => None,
    }
}

/// The octet behind a description and a colon.
fn colon_step(octet: u8) -> Option<ItemPlace>
    ensures { result ≡ scan.item_step ItemPlace.Colon octet }
{
    if octet == b'=' {
        Some(ItemPlace::Plain(ValuePlace::Between))
    } else {
        rule_first(octet)
    }
}

/// The octet behind `:dn:`.
fn dn_step(octet: u8) -> Option<ItemPlace>
    ensures { result ≡ scan.item_step ItemPlace.DnColon octet }
{
    if octet == b'=' {
        return Some(ItemPlace::Plain(ValuePlace::Between));
    }
    match oid_first(octet) {
        Some(oid) => Some(ItemPlace::LastRule(oid)),
        None => None,
    }
}

/// An octet of the words behind the first colon.
fn rule_step(word: Word, place: OidPlace, octet: u8) -> Option<ItemPlace>
    ensures { result ≡ scan.item_step (ItemPlace.Rule word place) octet }
{
    match oid_step(place, octet) {
        Some(next) => Some(ItemPlace::Rule(word_step(word, octet), next)),
        None => rule_out(word, place, octet),
    }
}

/// An octet of an item.
pub fn item_step(place: ItemPlace, octet: u8) -> Option<ItemPlace>
    ensures { result ≡ scan.item_step place octet }
{
    match place {
        ItemPlace::Start => start_step(octet),
        ItemPlace::Name(name) => match name_step(name, octet) {
            Some(next) => Some(ItemPlace::Name(next)),
            None => name_out(name, octet),
        },
        ItemPlace::Plain(value) => match value_step(value, octet) {
            Some(next) => Some(ItemPlace::Plain(next)),
            None => None,
        },
        ItemPlace::Part(value) => part_step(value, octet),
        ItemPlace::Star => part_of(value_step(ValuePlace::Between, octet)),
        ItemPlace::BareColon => rule_first(octet),
        ItemPlace::Colon => colon_step(octet),
        ItemPlace::Rule(word, oid) => rule_step(word, oid, octet),
        ItemPlace::DnColon => dn_step(octet),
        ItemPlace::LastRule(oid) => match oid_step(oid, octet) {
            Some(next) => Some(ItemPlace::LastRule(next)),
            None => last_out(oid, octet),
        },
        ItemPlace::Sign | ItemPlace::Assign => assign(octet),
    }
}

/// Whether an item may end here.
pub fn item_ends(place: ItemPlace) -> bool
    ensures { result ≡ scan.item_ends place }
{
    match place {
        ItemPlace::Plain(value) => value_ends(value),
        ItemPlace::Part(value) => value_ends(value),
        ItemPlace::Star => true,
        ItemPlace::Start | ItemPlace::Name(_) | ItemPlace::Sign | ItemPlace::BareColon => false,
        ItemPlace::Colon | ItemPlace::Rule(_, _) | ItemPlace::DnColon => false,
        ItemPlace::LastRule(_) | ItemPlace::Assign => false,
    }
}
