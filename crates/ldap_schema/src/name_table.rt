//! Finds numbers by name, by halving.

ghost use Rattle.std.specs.Prelude.{◌≡◌, ℕ, [], List, map, OnOk, OnErr};
ghost use Rattle.std.specs.Char.{to_ascii_lowercase};
ghost use Rattle.std.specs.Str.{bytes_eq};
ghost use Rattle.ldap_schema.specs.private.NameOrder.{order, number_at, kept_or};

use ldap_words::compare_folded;
use std::alloc::{AllocError, Global};
use std::cmp::Ordering;
use std::marker::Model;

/// A name and what it stands for.
#[derive(Drop)]
pub struct NameEntry {
    name: Vec<u8>,
    number: usize,
}

impl Model for NameEntry {
    ghost use Rattle.std.specs.Prelude.{ℕ, List};

    ghost Value = { List ℕ × ℕ };

    ghost view = { λ e. (e.name.items, e.number) };
}

impl NameEntry {
    /// Its name against these octets.
    fn compare(&self, name: &[u8]) -> Ordering
        ensures { result ≡ order self.now.0 name.now }
    {
        self.name.as_slice().cmp(name)
    }

    /// Its name against these octets, whose letters are taken in lower case.
    fn compare_folded(&self, name: &[u8]) -> Ordering
        ensures { result ≡ order self.now.0 (map to_ascii_lowercase name.now) }
    {
        compare_folded(self.name.as_slice(), name)
    }

    fn number(&self) -> usize
        ensures { result ≡ self.now.1 }
    {
        self.number
    }
}

/// Names in order, each with a number.
#[derive(Drop)]
pub struct NameTable {
    entries: Vec<NameEntry>,
}

impl Model for NameTable {
    ghost use Rattle.std.specs.Prelude.{ℕ, List};
    ghost use Rattle.ldap_schema.specs.private.NameOrder.{IsInOrder};

    ghost Value = { List (List ℕ × ℕ) };

    ghost view = { λ t. t.entries.items };

    ghost invariant = { λ t. IsInOrder t.entries.items };
}

impl NameTable {
    /// A table of no name.
    pub fn new(alloc: Global) -> NameTable
        ensures { result ≡ [] }
    {
        NameTable {
            entries: Vec::new(alloc),
        }
    }

    /// The number of the name, whose letters are taken in lower case.
    pub fn find_folded(&self, name: &[u8]) -> Option<usize>
        ensures { result ≡ number_at self.now (map to_ascii_lowercase name.now) }
    {
        match self
            .entries
            .as_slice()
            .binary_search_by(|entry| entry.compare_folded(name))
        {
            Ok(place) => Some(self.entries[place].number()),
            Err(_) => None,
        }
    }

    /// The number of these octets.
    pub fn find(&self, name: &[u8]) -> Option<usize>
        ensures { result ≡ number_at self.now name.now }
    {
        match self
            .entries
            .as_slice()
            .binary_search_by(|entry| entry.compare(name))
        {
            Ok(place) => Some(self.entries[place].number()),
            Err(_) => None,
        }
    }

    /// Adds a name, unless it is there.
    pub fn add(&mut self, name: Vec<u8>, number: usize) -> Result<(), AllocError>
        ensures ok { OnOk result ((q : List ℕ) → number_at self.new q ≡ kept_or (number_at self.old q)
            (bytes_eq q name.items) number) }
        ensures err { OnErr result (self.new ≡ self.old) }
    {
        let octets = name.as_slice();
        match self
            .entries
            .as_slice()
            .binary_search_by(|entry| entry.compare(octets))
        {
            Ok(_) => Ok(()),
            Err(place) => Ok(self.entries.insert(place, NameEntry { name, number })?),
        }
    }
}
