//! Turns the words that the system starts the program with from octets into texts.
use std::alloc::{AllocError, Global};
use std::env::{Env, FillError};

/// The octets of a word; none behind the last one.
fn octets_of<E: Env>(alloc: Global, env: &E, index: usize) -> Result<Option<Vec<u8>>, AllocError> {
    let mut room: usize = 256;
    for _ in 0..usize::BITS {
        let mut octets = Vec::from_elem(alloc, 0u8, room)?;
        match env.arg(index, octets.as_mut_slice()) {
            Ok(length) => {
                octets.truncate(length);
                return Ok(Some(octets));
            }
            Err(FillError::NotPresent) => return Ok(None),
            Err(FillError::TooLong) => room = room.saturating_add(room),
        }
    }
    Err(AllocError)
}

/// Octets that are no text, as one: each that isn't ASCII becomes a NUL, which no word of the system has.
fn marked(alloc: Global, octets: &[u8]) -> Result<String, AllocError> {
    let mut text = String::new(alloc);
    for octet in octets {
        text.push(if octet.is_ascii() {
            char::from(*octet)
        } else {
            '\0'
        })?;
    }
    Ok(text)
}

/// The text of a word's octets; marked, where they aren't UTF-8.
fn text_of(alloc: Global, octets: &[u8]) -> Result<String, AllocError> {
    match str::from_utf8(octets) {
        Ok(text) => Ok(String::from_str(alloc, text)?),
        Err(_) => marked(alloc, octets),
    }
}

/// The words, the program's name first. One that isn't UTF-8 has a NUL in place of each octet that isn't ASCII.
pub fn system_words<E: Env>(alloc: Global, env: &E) -> Result<Vec<String>, AllocError> {
    let mut words = Vec::new(alloc);
    for index in 0..usize::MAX {
        match octets_of(alloc, env, index)? {
            Some(octets) => words.push(text_of(alloc, octets.as_slice())?)?,
            None => return Ok(words),
        }
    }
    Ok(words)
}
