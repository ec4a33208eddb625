// The posting lists of entries, changed entry by entry and asked by plans.

ghost use Rattle.std.specs.Prelude.{◌≡◌, ◌||◌, ℕ, [], ◌∷◌, ◌++◌, List, map, nat_eq, cond, IfOk, OnOk, OnErr, unwrap_or, option_copied};
ghost use Rattle.dir_index.specs.declared.posting.Posting.{Posting};
ghost use Rattle.dir_index.specs.ListKeys.{key_of};
ghost use Rattle.dir_index.specs.private.Marked.{lists_entry};
ghost use Rattle.dir_index.specs.Postings.{Indexed, has_number, postings_of};
ghost use Rattle.dir_index.specs.private.Stored.{is_in, AllRise};
ghost use Rattle.dir_index.specs.Whole.{list_of, AreOf, AreSameBut, AllBelow, HasEntry, without, with_attributes};
ghost use Rattle.dir_index.specs.private.Touched.{AreSameElsewhere};
ghost use Rattle.dir_index.specs.private.Whole.{moved};

use crate::choice::Choice;
use crate::lists::{Lists, enlisted_in, struck_from};
use crate::moves::{Moves, moves_between};
use crate::posting::{Posting, Range};
use crate::ranges::{about_lists, push_lists};
use crate::touched::Touched;
use index_choice::{Attribute, Entry, Indexes, NumberSet, SharedMap, TypeId};
use std::alloc::{AllocError, Global};
use std::marker::Model;

/// The posting lists of a store's entries. A look-up takes a logarithm of comparisons and no memory.
/// An update changes the lists that have the entry before and not after, or after and not before. `added`,
/// `removed` and `replaced` take the lists and change in place what has no other owner. `add`, `remove` and
/// `replace` make new ones that share the rest with the old ones, which other owners may still have.
pub struct Postings {
    alloc: Global,
    choice: Choice,
    lists: Lists,
    // The list of a posting that has none.
    none: NumberSet,
}

// Not derived: see "What the gate takes" in docs/ARCHITECTURE.md.
impl Drop for Postings {
    fn drop(self) {
        let Postings {
            alloc: _,
            choice: _,
            lists: _,
            none: _,
        } = self;
    }
}

impl Model for Postings {
    ghost use Rattle.std.specs.Prelude.{◌≡◌, []};
    ghost use Rattle.dir_index.specs.Whole.{PostingsModel};

    ghost Value = { PostingsModel };

    ghost view = { λ p. record { indexes = p.choice; lists = p.lists } };

    ghost invariant = { λ p. p.none ≡ [] };
}

/// The lists once the entry of a number has changed from these attributes to those.
fn changed(
    alloc: Global,
    choice: &Choice,
    lists: Lists,
    number: u64,
    touched: &Touched<'_>,
    before: &[Attribute],
    after: &[Attribute],
) -> Result<Lists, AllocError>
    requires same { AreSameElsewhere touched.now before.now after.now }
    ensures has { IfOk result (λ m. AllRise lists → (p : Posting) (n : ℕ) → is_in m (key_of p) n
        ≡ cond (nat_eq n number) (moved (lists_entry choice.now before.now p) (lists_entry choice.now after.now p)
        (is_in lists (key_of p) n)) (is_in lists (key_of p) n)) }
    ensures rising { IfOk result (λ m. AllRise lists → AllRise m) }
{
    let Moves { was, is } = moves_between(alloc, choice.indexes(), touched, before, after)?;
    let more = enlisted_in(alloc, lists, &is, &was, number)?;
    let now = struck_from(alloc, more, &was, &is, number)?;
    Ok(now)
}

impl Postings {
    /// The posting lists of no entry.
    pub fn new(alloc: Global, indexes: Indexes) -> Postings
        ensures indexes { result.indexes ≡ indexes }
        ensures empty { AreOf result [] }
    {
        Postings {
            alloc,
            choice: Choice::new(indexes),
            lists: SharedMap::new(),
            none: NumberSet::new(),
        }
    }

    /// The index choice.
    pub fn indexes(&self) -> &Indexes
        ensures { result.now ≡ self.now.indexes }
    {
        self.choice.indexes()
    }

    /// Another owner of the same lists.
    pub fn share(&self) -> Result<Postings, AllocError>
        ensures { IfOk result (λ p. p ≡ self.now) }
    {
        let choice = self.choice.share(self.alloc)?;
        let lists = self.lists.share()?;
        Ok(Postings {
            alloc: self.alloc,
            choice,
            lists,
            none: NumberSet::new(),
        })
    }

    /// The lists with an entry under a number above all. What they alone own is changed where it stands; out of memory
    /// nothing is left of them.
    pub fn added(self, number: u64, entry: &Entry) -> Result<Postings, AllocError>
        ensures ok { IfOk result (λ p. (es : List Indexed) → AreOf self es → AllBelow number es →
            AreOf p (es ++ record { number = number; entry = entry.now } ∷ [])) }
        ensures indexes { IfOk result (λ p. p.indexes ≡ self.indexes) }
    {
        let Postings {
            alloc,
            choice,
            lists,
            none,
        } = self;
        let lists = changed(
            alloc,
            &choice,
            lists,
            number,
            &Touched::All,
            &[],
            entry.attributes(),
        )?;
        Ok(Postings {
            alloc,
            choice,
            lists,
            none,
        })
    }

    /// The lists without an entry: those that it leaves are made anew as far as they differ. Out of memory nothing is left.
    pub fn removed(self, number: u64, entry: &Entry) -> Result<Postings, AllocError>
        ensures ok { IfOk result (λ p. (es : List Indexed) → AreOf self es → HasEntry es number entry.now →
            AreOf p (without number es)) }
        ensures indexes { IfOk result (λ p. p.indexes ≡ self.indexes) }
    {
        let Postings {
            alloc,
            choice,
            lists,
            none,
        } = self;
        let lists = changed(
            alloc,
            &choice,
            lists,
            number,
            &Touched::All,
            entry.attributes(),
            &[],
        )?;
        Ok(Postings {
            alloc,
            choice,
            lists,
            none,
        })
    }

    /// The lists with an entry as it is after a change of its attributes: it leaves the lists that it is no longer in.
    /// What it joins is changed in place where they alone own it; out of memory nothing is left.
    pub fn replaced(
        self,
        number: u64,
        before: &Entry,
        after: &Entry,
    ) -> Result<Postings, AllocError>
        ensures ok { IfOk result (λ p. (es : List Indexed) → AreOf self es → HasEntry es number before.now →
            AreOf p (with_attributes number after.now es)) }
        ensures indexes { IfOk result (λ p. p.indexes ≡ self.indexes) }
    {
        self.changed_to(number, &Touched::All, before, after)
    }

    /// The same after a change of its attributes of some types, and of some values that are named, of which it has more
    /// or fewer. Those of other types are the same and aren't looked at; of the named values' keys alone it is asked
    /// whether it has them.
    pub fn replaced_in(
        self,
        number: u64,
        types: &[TypeId],
        named: &[Attribute],
        before: &Entry,
        after: &Entry,
    ) -> Result<Postings, AllocError>
        requires same { AreSameBut types.now named.now before.now after.now }
        ensures ok { IfOk result (λ p. (es : List Indexed) → AreOf self es → HasEntry es number before.now →
            AreOf p (with_attributes number after.now es)) }
        ensures indexes { IfOk result (λ p. p.indexes ≡ self.indexes) }
    {
        self.changed_to(number, &Touched::These(types, named), before, after)
    }

    /// The lists with an entry as it is after a change that touches these of its attributes alone.
    fn changed_to(
        self,
        number: u64,
        touched: &Touched<'_>,
        before: &Entry,
        after: &Entry,
    ) -> Result<Postings, AllocError>
        requires same { AreSameElsewhere touched.now before.now after.now }
        ensures ok { IfOk result (λ p. (es : List Indexed) → AreOf self es → HasEntry es number before.now →
            AreOf p (with_attributes number after.now es)) }
        ensures indexes { IfOk result (λ p. p.indexes ≡ self.indexes) }
    {
        let Postings {
            alloc,
            choice,
            lists,
            none,
        } = self;
        let lists = changed(
            alloc,
            &choice,
            lists,
            number,
            touched,
            before.attributes(),
            after.attributes(),
        )?;
        Ok(Postings {
            alloc,
            choice,
            lists,
            none,
        })
    }

    /// Lists an entry under a number above all. An `Err` changes nothing.
    pub fn add(&mut self, number: u64, entry: &Entry) -> Result<(), AllocError>
        ensures ok { OnOk result ((es : List Indexed) → AreOf self.old es → AllBelow number es →
            AreOf self.new (es ++ record { number = number; entry = entry.now } ∷ [])) }
        ensures indexes { self.new.indexes ≡ self.old.indexes }
        ensures err { OnErr result (self.new ≡ self.old) }
    {
        let same = self.share()?;
        let more = same.added(number, entry)?;
        *self = more;
        Ok(())
    }

    /// Takes an entry out of the lists. An `Err` changes nothing.
    pub fn remove(&mut self, number: u64, entry: &Entry) -> Result<(), AllocError>
        ensures ok { OnOk result ((es : List Indexed) → AreOf self.old es → HasEntry es number entry.now →
            AreOf self.new (without number es)) }
        ensures indexes { self.new.indexes ≡ self.old.indexes }
        ensures err { OnErr result (self.new ≡ self.old) }
    {
        let same = self.share()?;
        let fewer = same.removed(number, entry)?;
        *self = fewer;
        Ok(())
    }

    /// Lists an entry as it is after a change of its attributes: it leaves the lists that it is no
    /// longer in. An `Err` changes nothing.
    pub fn replace(&mut self, number: u64, before: &Entry, after: &Entry) -> Result<(), AllocError>
        ensures ok { OnOk result ((es : List Indexed) → AreOf self.old es → HasEntry es number before.now →
            AreOf self.new (with_attributes number after.now es)) }
        ensures indexes { self.new.indexes ≡ self.old.indexes }
        ensures err { OnErr result (self.new ≡ self.old) }
    {
        let same = self.share()?;
        let other = same.replaced(number, before, after)?;
        *self = other;
        Ok(())
    }

    /// The numbers of a posting, in rising order; none, where no entry has it. It takes a look-up, and
    /// no memory.
    pub fn numbers(&self, posting: &Posting) -> &NumberSet
        ensures { result.now ≡ list_of self.now posting.now }
    {
        match self.lists.find(posting) {
            Some(numbers) => numbers,
            None => &self.none,
        }
    }

    /// The same for each posting, in its place. The look-ups go on together, and their results take memory.
    pub fn numbers_of_each(&self, postings: &[&Posting]) -> Result<Vec<&NumberSet>, AllocError>
        ensures { IfOk result (λ v. map (λ s. s.now) v.items ≡ map (λ p. list_of self.now p.now) postings.now) }
    {
        let found = self.lists.find_each(self.alloc, postings)?;
        let mut sets = Vec::with_capacity(self.alloc, found.len())?;
        for one in &found {
            sets.push(self.found_or_none(*one))?;
        }
        Ok(sets)
    }

    // The set that was found; the empty one, where none was.
    fn found_or_none<'a>(&'a self, found: Option<&'a NumberSet>) -> &'a NumberSet
        ensures { result.now ≡ unwrap_or (option_copied found.entry) [] }
    {
        match found {
            Some(numbers) => numbers,
            None => &self.none,
        }
    }

    /// Puts the numbers of a range behind those that are there, list by list, so that a number may come
    /// several times. A range whose type has no index in order has none.
    pub fn push_range(&self, range: &Range, into: &mut Vec<u64>) -> Result<(), AllocError>
        ensures { OnOk result ((es : List Indexed) → AreOf self.now es → (n : ℕ) → has_number n into.new.items ≡
            (has_number n into.old.items || has_number n ((postings_of self.now.indexes es).range range.now))) }
    {
        if !self.indexes().kinds(range.type_id).ordering {
            return Ok(());
        }
        self.lists.rises();
        push_lists(&self.lists, range, into)?;
        Ok(())
    }

    /// About how many numbers a range has: those of its first 64 lists, and one for each further list.
    /// It takes no memory.
    pub fn about(&self, range: &Range) -> usize {
        if !self.indexes().kinds(range.type_id).ordering {
            return 0;
        }
        about_lists(&self.lists, range) as usize
    }
}
