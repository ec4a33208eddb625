// Finds descriptions by the words that call them, in as many steps as a logarithm of their count. It takes no memory.

ghost use Rattle.std.specs.Prelude.{◌≡◌, ℕ, List, map, IfOk, OnOk};
ghost use Rattle.std.specs.Str.{bytes_eq};
ghost use Rattle.schema_meaning.specs.private.Octets.{number_at, kept_or, has_folded, found_in, lower as lower_one};
ghost use Rattle.schema_meaning.specs.Naming as naming;

use crate::naming::names;
use crate::octets::{Numbers, keep, number_of};
use crate::ordered::Ordered;
use schema_text::{Description, lower_case};
use std::alloc::{AllocError, Global};
use std::collections::BTreeMap;
use std::marker::Model;

/// Keeps a number at each of the names in lower case that has none.
fn keep_names(
    alloc: Global,
    numbers: &mut Numbers,
    names: &[Vec<u8>],
    number: usize,
) -> Result<(), AllocError>
    ensures { OnOk result ((q : List ℕ) → number_at numbers.new.entries q ≡ kept_or (number_at numbers.old.entries q)
        (has_folded q (map (λ v. v.items) names.now)) number) }
{
    for name in names {
        keep(numbers, lower_case(alloc, name.as_slice())?, number)?;
    }
    Ok(())
}

/// Keeps the number of what is called so.
fn keep_one(
    alloc: Global,
    by_name: &mut Numbers,
    by_oid: &mut Numbers,
    description: &Description,
    number: usize,
) -> Result<(), AllocError>
    ensures names { OnOk result ((q : List ℕ) → number_at by_name.new.entries q ≡
        kept_or (number_at by_name.old.entries q) (has_folded q (naming.names_of description.now)) number) }
    ensures oids { OnOk result ((q : List ℕ) → number_at by_oid.new.entries q ≡
        kept_or (number_at by_oid.old.entries q) (bytes_eq q description.now.oid) number) }
{
    keep_names(alloc, by_name, names(description), number)?;
    keep(by_oid, Vec::from_slice(alloc, description.oid())?, number)
}

/// The numbers of descriptions by names in lower case, and by object identifiers.
fn numbers_of(alloc: Global, descriptions: &[Description]) -> Result<(Numbers, Numbers), AllocError>
    ensures { IfOk result (λ n. (w : List ℕ) → found_in n.0.entries n.1.entries w ≡ naming.find descriptions.now w) }
{
    let mut by_name = BTreeMap::new(alloc);
    let mut by_oid = BTreeMap::new(alloc);
    for (number, description) in descriptions.iter().enumerate() {
        keep_one(alloc, &mut by_name, &mut by_oid, description, number)?;
    }
    Ok((by_name, by_oid))
}

/// The lower one of the numbers that are there.
fn lower(first: Option<usize>, second: Option<usize>) -> Option<usize>
    ensures { result ≡ lower_one first second }
{
    match first {
        None => second,
        Some(number) => match second {
            None => Some(number),
            Some(other) => Some(if other < number { other } else { number }),
        },
    }
}

/// Descriptions that are found by the words that call them.
pub struct Called<'a> {
    descriptions: &'a [Description],
    /// By names in lower case.
    by_name: Ordered,
    by_oid: Numbers,
}

// Not derived: see "What the gate takes" in docs/ARCHITECTURE.md.
impl<'a> Drop for Called<'a> {
    fn drop(self) {
        let Called {
            descriptions: _,
            by_name: _,
            by_oid: _,
        } = self;
    }
}

impl<'a> Model for Called<'a> {
    ghost use Rattle.std.specs.Prelude.{◌≡◌, ℕ, List};
    ghost use Rattle.schema_text.specs.Descriptions.{DescriptionModel};
    ghost use Rattle.schema_meaning.specs.private.Octets.{found_in};
    ghost use Rattle.schema_meaning.specs.Naming.{find};

    ghost Value = { List DescriptionModel };

    ghost view = { λ c. c.descriptions.now };

    ghost invariant = { λ c. (w : List ℕ) → found_in c.by_name c.by_oid.entries w ≡ find c.descriptions.now w };
}

impl<'a> Called<'a> {
    /// Makes descriptions ready to be found.
    pub fn of(alloc: Global, descriptions: &'a [Description]) -> Result<Called<'a>, AllocError>
        ensures { IfOk result (λ c. c ≡ descriptions.now) }
    {
        let (names, by_oid) = numbers_of(alloc, descriptions)?;
        let by_name = Ordered::of(alloc, names)?;
        Ok(Called {
            descriptions,
            by_name,
            by_oid,
        })
    }

    /// The descriptions.
    pub fn all(&self) -> &'a [Description]
        ensures { result.now ≡ self.now }
    {
        self.descriptions
    }

    /// The number of the first description that the word calls, by a name in any case or by its object identifier.
    pub fn find(&self, word: &[u8]) -> Option<usize>
        ensures { result ≡ naming.find self.now word.now }
    {
        lower(
            self.by_name.find_folded(word),
            number_of(&self.by_oid, word),
        )
    }
}
