// The words of lab scripts. What a line of them means isn't here.

ghost use Rattle.std.specs.Prelude.{◌≡◌, map, IfOk};
ghost use Rattle.lab_script.specs.Words.{token_of, words_of};

use crate::kinds::is_word;
use filter_text::number_of_digits;
use std::alloc::{AllocError, Global};

/// A word of the language, or a number.
#[derive(Clone, Copy)]
pub enum Token {
    Replicas,
    Deliver,
    Suspect,
    Beat,
    Crash,
    Recover,
    Resume,
    State,
    Number { value: u64 },
}

/// The words of a line, between single spaces.
pub fn words_of<'a>(alloc: Global, line: &'a [u8]) -> Result<Vec<&'a [u8]>, AllocError>
    ensures { IfOk result (λ words. map (λ word. word.now) words.items ≡ words_of line.now) }
{
    line.split(|octet| *octet == b' ').collect(alloc)
}

/// What a word says, if it says something.
pub fn token_of(word: &[u8]) -> Option<Token>
    ensures { result ≡ token_of word.now }
{
    if is_word(word, b"replicas") {
        Some(Token::Replicas)
    } else if is_word(word, b"deliver") {
        Some(Token::Deliver)
    } else if is_word(word, b"suspect") {
        Some(Token::Suspect)
    } else if is_word(word, b"beat") {
        Some(Token::Beat)
    } else if is_word(word, b"crash") {
        Some(Token::Crash)
    } else if is_word(word, b"recover") {
        Some(Token::Recover)
    } else if is_word(word, b"resume") {
        Some(Token::Resume)
    } else if is_word(word, b"state") {
        Some(Token::State)
    } else {
        match number_of_digits(word) {
            Some(value) => Some(Token::Number { value }),
            None => None,
        }
    }
}
