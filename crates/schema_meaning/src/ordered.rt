// Octets in order, each with a number, found by a word in any case.

ghost use Rattle.std.specs.Prelude.{◌≡◌, map, IfOk};
ghost use Rattle.std.specs.Char.{to_ascii_lowercase};
ghost use Rattle.schema_meaning.specs.private.Octets.{number_at};

use crate::octets::Numbers;
use schema_text::compare_folded;
use std::alloc::{AllocError, Global};
use std::marker::Model;

/// Octets in order, each with a number.
#[derive(Drop)]
pub struct Ordered {
    entries: Vec<(Vec<u8>, usize)>,
}

impl Model for Ordered {
    ghost use Rattle.std.specs.Prelude.{ℕ, List, Vec};
    ghost use Rattle.std.specs.declared.alloc.Global.{Global};
    ghost use Rattle.schema_meaning.specs.private.Octets.{IsInOrder};

    ghost Value = { List (Vec ℕ Global × ℕ) };

    ghost view = { λ t. t.entries.items };

    ghost invariant = { λ t. IsInOrder t.entries.items };
}

impl Ordered {
    /// The numbers in the order of their octets.
    pub fn of(alloc: Global, numbers: Numbers) -> Result<Ordered, AllocError>
        ensures { IfOk result (λ t. t ≡ numbers.entries) }
    {
        let entries = numbers.into_iter().collect(alloc)?;
        Ok(Ordered { entries })
    }

    /// The number of the word, whose letters are taken in lower case.
    pub fn find_folded(&self, word: &[u8]) -> Option<usize>
        ensures { result ≡ number_at self.now (map to_ascii_lowercase word.now) }
    {
        match self
            .entries
            .as_slice()
            .binary_search_by(|entry| compare_folded(entry.0.as_slice(), word))
        {
            Ok(place) => Some(self.entries[place].1),
            Err(_) => None,
        }
    }
}
