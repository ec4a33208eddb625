//! Entries that will be written, read ahead. An entry and its values are in several pieces of memory, each of which
//! tells where the next one is. Here the first pieces of several entries are read, then their second ones, so that the
//! processor waits for all of a kind at once.
use crate::found::FoundEntry;
use dir_tree::{Attribute, Octets};

/// The first octets of these values.
fn first_octets(values: &[Octets]) -> u64 {
    let mut sum = 0u64;
    for value in values {
        if let Some(first) = value.as_slice().first() {
            sum = sum.wrapping_add(*first as u64);
        }
    }
    sum
}

/// The first octets of an attribute's values, of the first part of them: those of further parts are so many that they
/// would take the place of what was read ahead of other entries.
fn values_of(attribute: &Attribute) -> u64 {
    match attribute.parts().split_first() {
        Some((part, _)) => first_octets(part.values),
        None => 0,
    }
}

/// The values of an entry.
fn values(entry: &FoundEntry) -> u64 {
    let mut sum = 0u64;
    for attribute in entry.stored_attributes() {
        sum = sum.wrapping_add(values_of(attribute));
    }
    sum
}

/// Reads the attributes of these, and their values.
pub fn read_ahead(entries: &[FoundEntry]) -> u64 {
    let mut sum = 0u64;
    for entry in entries {
        sum = sum.wrapping_add(entry.stored_attributes().len() as u64);
    }
    for entry in entries {
        sum = sum.wrapping_add(values(entry));
    }
    sum
}
