// Recognizes the words of an index choice.

ghost use Rattle.std.specs.Prelude.{◌≡◌, map, nat_eq, IfOk};
ghost use Rattle.std.specs.List.{slice_split};
ghost use Rattle.index_choice.specs.Texts.{is_kind as is_kind_word, has_word as has_some_word, kinds_named, are_kinds as are_kind_words, is_head as is_line_head, without_colon as less_colon};

use crate::kinds::Kinds;
use schema_text::{ends_with, is_oid};
use std::alloc::{AllocError, Global};

/// The parts of the octets that an octet parts.
pub fn parts(alloc: Global, octets: &[u8], parting: u8) -> Result<Vec<&[u8]>, AllocError>
    ensures { IfOk result (λ v. map (λ x. x.now) v.items ≡ slice_split (nat_eq parting) octets.now) }
{
    octets.split(|octet| parting == *octet).collect(alloc)
}

/// The octets but the last one.
pub fn but_last(word: &[u8]) -> &[u8]
    ensures { result.now ≡ less_colon word.now }
{
    &word[..word.len().saturating_sub(1)]
}

/// Whether the word is a name or an object identifier, and a colon.
pub fn is_head(word: &[u8]) -> bool
    ensures { result ≡ is_line_head word.now }
{
    ends_with(b':', word) && is_oid(but_last(word))
}

/// Whether the word is one for a kind of index.
fn is_kind(word: &[u8]) -> bool
    ensures { result ≡ is_kind_word word.now }
{
    word == b"pres".as_slice()
        || (word == b"eq".as_slice() || (word == b"ord".as_slice() || word == b"sub".as_slice()))
}

/// Whether each of the words is one for a kind of index, and there is one.
pub fn are_kinds(words: &[&[u8]]) -> bool
    ensures { result ≡ are_kind_words (map (λ x. x.now) words.now) }
{
    if words.is_empty() {
        return false;
    }
    for word in words {
        if !is_kind(word) {
            return false;
        }
    }
    true
}

/// Whether a word is among the words.
fn has_word(word: &[u8], words: &[&[u8]]) -> bool
    ensures { result ≡ has_some_word word.now (map (λ x. x.now) words.now) }
{
    for other in words {
        if *other == word {
            return true;
        }
    }
    false
}

/// The kinds of index that are among the words.
pub fn kinds_of_words(words: &[&[u8]]) -> Kinds
    ensures { result ≡ kinds_named (map (λ x. x.now) words.now) }
{
    Kinds {
        presence: has_word(b"pres", words),
        equality: has_word(b"eq", words),
        ordering: has_word(b"ord", words),
        substrings: has_word(b"sub", words),
    }
}
