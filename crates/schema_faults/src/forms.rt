//! The keywords of schemas' lines, each with what may follow it and its place in the order (RFC 4512 4.1.1, 4.1.2).
//! Only sentences are made by this table; which lines are read is the schema reader's matter.
ghost use Rattle.std.specs.Prelude.{◌≡◌, map, option_map};
ghost use Rattle.std.specs.List.{list_all};
ghost use Rattle.schema_meaning.specs.schema_text.Words.{is_extension_octet, is_extension_rest, is_extension};
ghost use Rattle.schema_faults.specs.Forms.{common_forms, own_forms, form_among, extension_if, form_of, other_lines, is_elsewhere};
ghost use Rattle.schema_faults.specs.private.Forms.{form_model};

use ldap_words::{is_alpha, is_same_word};

/// Which lines have a keyword.
#[derive(Clone, Copy)]
pub enum Lines {
    Types,
    Classes,
}

/// A keyword.
#[derive(Clone, Copy)]
pub struct Form {
    pub word: &'static str,
    /// Its place in the order; the kinds of a class share one.
    pub place: usize,
    /// What is to follow it; empty, where nothing may.
    pub wanted: &'static str,
}

const ONE: &str = "a name or an object identifier";

const MANY: &str = "a name, or several in parentheses with $ between them";

/// The keywords of both kinds of line.
const COMMON: &[Form] = &[
    Form {
        word: "NAME",
        place: 1,
        wanted: "a name in quotes, or several in parentheses",
    },
    Form {
        word: "DESC",
        place: 2,
        wanted: "a text in quotes",
    },
    Form {
        word: "OBSOLETE",
        place: 3,
        wanted: "",
    },
];

/// The keywords of attribute types alone.
const OF_TYPES: &[Form] = &[
    Form {
        word: "SUP",
        place: 4,
        wanted: ONE,
    },
    Form {
        word: "EQUALITY",
        place: 5,
        wanted: ONE,
    },
    Form {
        word: "ORDERING",
        place: 6,
        wanted: ONE,
    },
    Form {
        word: "SUBSTR",
        place: 7,
        wanted: ONE,
    },
    Form {
        word: "SYNTAX",
        place: 8,
        wanted: "an object identifier, or one with a length in braces",
    },
    Form {
        word: "SINGLE-VALUE",
        place: 9,
        wanted: "",
    },
    Form {
        word: "USAGE",
        place: 10,
        wanted: "userApplications, the one usage that is supported",
    },
];

/// The keywords of object classes alone.
const OF_CLASSES: &[Form] = &[
    Form {
        word: "SUP",
        place: 4,
        wanted: MANY,
    },
    Form {
        word: "ABSTRACT",
        place: 11,
        wanted: "",
    },
    Form {
        word: "STRUCTURAL",
        place: 11,
        wanted: "",
    },
    Form {
        word: "AUXILIARY",
        place: 11,
        wanted: "",
    },
    Form {
        word: "MUST",
        place: 12,
        wanted: MANY,
    },
    Form {
        word: "MAY",
        place: 13,
        wanted: MANY,
    },
];

/// What an extension is: it may be given more than once, behind all others.
const EXTENSION: Form = Form {
    word: "X-..",
    place: 14,
    wanted: "a text in quotes, or several in parentheses",
};

/// Whether the word of an extension may have the octet.
fn is_extension_octet(octet: u8) -> bool
    ensures { result ≡ is_extension_octet octet }
{
    is_alpha(octet) || octet == b'-' || octet == b'_'
}

/// Whether the word of an extension may have each of the octets.
fn are_extension_octets(octets: &[u8]) -> bool
    ensures { result ≡ list_all is_extension_octet octets.now }
{
    octets.iter().all(|octet| is_extension_octet(*octet))
}

/// Whether octets go on with an extension's word behind `X`.
fn is_extension_rest(octets: &[u8]) -> bool
    ensures { result ≡ is_extension_rest octets.now }
{
    match octets {
        [] => false,
        [first, rest @ ..] => *first == b'-' && 0 < rest.len() && are_extension_octets(rest),
    }
}

/// Whether a word is that of an extension.
fn is_extension(word: &[u8]) -> bool
    ensures { result ≡ is_extension word.now }
{
    match word {
        [] => false,
        [first, rest @ ..] => (*first == b'X' || *first == b'x') && is_extension_rest(rest),
    }
}

/// An extension, where the word is that of one.
fn extension_if(word: &[u8]) -> Option<Form>
    ensures { option_map form_model result ≡ extension_if word.now }
{
    if is_extension(word) {
        Some(EXTENSION)
    } else {
        None
    }
}

/// The first of keywords that a word is, in any case.
fn form_among(forms: &[Form], word: &[u8]) -> Option<Form>
    ensures { option_map form_model result ≡ form_among (map form_model forms.now) word.now }
{
    for form in forms {
        if is_same_word(form.word.as_bytes(), word) {
            return Some(*form);
        }
    }
    None
}

/// The first of the keywords of both kinds of line that a word is.
fn common_form(word: &[u8]) -> Option<Form>
    ensures { option_map form_model result ≡ form_among common_forms word.now }
{
    form_among(COMMON, word)
}

/// The first of the keywords of one kind of line alone that a word is.
fn own_form(lines: Lines, word: &[u8]) -> Option<Form>
    ensures { option_map form_model result ≡ form_among (own_forms lines) word.now }
{
    match lines {
        Lines::Types => form_among(OF_TYPES, word),
        Lines::Classes => form_among(OF_CLASSES, word),
    }
}

/// The keyword of a line that a word is, in any case.
pub fn form_of(lines: Lines, word: &[u8]) -> Option<Form>
    ensures { option_map form_model result ≡ form_of lines word.now }
{
    if let Some(form) = common_form(word) {
        return Some(form);
    }
    match own_form(lines, word) {
        Some(form) => Some(form),
        None => extension_if(word),
    }
}

/// The other kind of line.
fn other_lines(lines: Lines) -> Lines
    ensures { result ≡ other_lines lines }
{
    match lines {
        Lines::Classes => Lines::Types,
        Lines::Types => Lines::Classes,
    }
}

/// Whether a word is a keyword of the other kind of line.
pub fn is_elsewhere(lines: Lines, word: &[u8]) -> bool
    ensures { result ≡ is_elsewhere lines word.now }
{
    form_of(other_lines(lines), word).is_some()
}
