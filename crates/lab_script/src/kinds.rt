//! Tells which kind of update a text writes.

ghost use Rattle.std.specs.Prelude.{◌≡◌, bytes_eq};
ghost use Rattle.lab_script.specs.Updates as updates;
ghost use Rattle.lab_script.specs.private.Kinds.{kind_view};

use crate::cuts::cut_text;

/// What a text is by its first word, and what stands behind that and one space.
#[derive(Clone, Copy)]
pub enum Kind<'a> {
    Noop,
    Add(&'a [u8]),
    Delete(&'a [u8]),
    Hex(&'a [u8]),
    /// No update.
    Other,
}

/// Whether a word is this text.
pub fn is_word(word: &[u8], text: &[u8]) -> bool
    ensures { result ≡ bytes_eq word.now text.now }
{
    word == text
}

/// The kind of a text by its first word.
fn kind_by<'a>(word: &[u8], rest: &'a [u8]) -> Kind<'a>
    ensures { kind_view result ≡ updates.kind_by word.now rest.now }
{
    if is_word(word, b"add") {
        Kind::Add(rest)
    } else if is_word(word, b"delete") {
        Kind::Delete(rest)
    } else if is_word(word, b"hex") {
        Kind::Hex(rest)
    } else {
        Kind::Other
    }
}

/// The kind of a text.
pub fn kind_of(text: &[u8]) -> Kind<'_>
    ensures { kind_view result ≡ updates.kind_of text.now }
{
    match cut_text(b' ', text) {
        Some(parts) => kind_by(parts.front, parts.behind),
        None => {
            if is_word(text, b"noop") {
                Kind::Noop
            } else {
                Kind::Other
            }
        }
    }
}
