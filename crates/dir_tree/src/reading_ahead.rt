// Entries that will be asked about, read ahead. An entry is in several pieces of memory, each of which tells where the
// next one is. Read one after the other, each is waited for where no cache has it. Here the first pieces of several
// entries are read, then the further ones: the processor waits for all of a kind at once.

use crate::place::{Place, Standing};
use dir_entry::{Attribute, Key, TypeId};

/// Types of attributes, as far as it matters to what is read ahead: those whose numbers are the same but for a multiple
/// of 64 count as one.
#[derive(Clone, Copy)]
pub struct TypesAhead {
    bits: u64,
}

impl TypesAhead {
    /// No type.
    pub fn new() -> TypesAhead {
        TypesAhead { bits: 0 }
    }

    /// These, and this one.
    pub fn with(self, type_id: TypeId) -> TypesAhead {
        TypesAhead {
            bits: self.bits | bit_of(type_id),
        }
    }

    /// Whether this one is among them.
    fn has(self, type_id: TypeId) -> bool {
        self.bits & bit_of(type_id) != 0
    }
}

/// The bit of a type.
fn bit_of(type_id: TypeId) -> u64 {
    1 << (type_id.number() % 64)
}

/// What is wanted of entries that are read ahead.
#[derive(Clone, Copy)]
pub enum Wanted {
    /// The keys of their values of these types, by which filters are evaluated.
    Keys(TypesAhead),
    /// Their relative names, which are printed.
    Names,
}

/// The first and the last octet of these, if there is one.
fn ends(octets: &[u8]) -> u64 {
    match octets {
        [] => 0,
        [only] => *only as u64,
        [first, .., last] => (*first as u64).wrapping_add(*last as u64),
    }
}

/// How many attributes an entry has, which stands where the types of the first of them do.
fn attributes_of(standing: &Standing) -> u64 {
    standing.entry.attributes().len() as u64
}

/// Where the parts of an entry's relative name are.
fn name_of(standing: &Standing) -> u64 {
    match &standing.place {
        Place::Root(_) => 0,
        Place::Under(_, rdn) => rdn.get().types_and_values().len() as u64,
    }
}

/// Where the first piece of what is wanted of an entry is.
fn first_piece(standing: &Standing, wanted: Wanted) -> u64 {
    match wanted {
        Wanted::Keys(_) => attributes_of(standing),
        Wanted::Names => attributes_of(standing).wrapping_add(name_of(standing)),
    }
}

/// The ends of these keys.
fn ends_of(keys: &[Key]) -> u64 {
    let mut sum = 0u64;
    for key in keys {
        sum = sum.wrapping_add(ends(key.as_octets()));
    }
    sum
}

/// The keys of an attribute, of the first part of its values: a filter seldom reads those of further parts, and they
/// are many.
fn keys_of(attribute: &Attribute) -> u64 {
    match attribute.parts().split_first() {
        Some((part, _)) => ends_of(part.keys),
        None => 0,
    }
}

/// The keys of an entry's attributes of these types.
fn keys(standing: &Standing, types: TypesAhead) -> u64 {
    let mut sum = 0u64;
    let attributes = standing.entry.attributes();
    for place in 0..attributes.len() {
        if types.has(standing.entry.type_at(place)) {
            sum = sum.wrapping_add(keys_of(&attributes[place]));
        }
    }
    sum
}

/// The texts of an entry's relative name.
fn name(standing: &Standing) -> u64 {
    let mut sum = 0u64;
    if let Place::Under(_, rdn) = &standing.place {
        for part in rdn.get().types_and_values() {
            sum = sum.wrapping_add(ends(part.value().as_bytes()));
        }
    }
    sum
}

/// The further pieces of what is wanted of an entry.
fn further_pieces(standing: &Standing, wanted: Wanted) -> u64 {
    match wanted {
        Wanted::Keys(types) => keys(standing, types),
        Wanted::Names => name(standing),
    }
}

/// Reads what is wanted of these.
pub fn read_ahead(found: &[Option<&Standing>], wanted: Wanted) -> u64 {
    let mut sum = 0u64;
    for one in found {
        if let Some(standing) = one {
            sum = sum.wrapping_add(first_piece(standing, wanted));
        }
    }
    for one in found {
        if let Some(standing) = one {
            sum = sum.wrapping_add(further_pieces(standing, wanted));
        }
    }
    sum
}
