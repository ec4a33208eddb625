// A tree that is asked about many numbers, one after the other. Numbers that stand near each other cost one look-up for
// each leaf. Of numbers that follow one another, and of those that are told beforehand, entries are read ahead
// (`reading_ahead`).

ghost use Rattle.std.specs.Prelude.{◌≡◌, ◌++◌, ◌∷◌, [], ℕ, List, IfSome, Some, is_some, option_copied, true};
ghost use Rattle.std.specs.Ordering.{nat_cmp};
ghost use Rattle.std.specs.Map.{lookup};
ghost use Rattle.std.specs.BTreeMap.{is_at};
ghost use Rattle.std.specs.Option.{option_map};
ghost use Rattle.dir_tree.specs.Directory.{entry_at};
ghost use Rattle.dir_tree.specs.private.Visits.{IsVisit, IsRow, HasRow};
ghost use Rattle.dir_tree.specs.declared.place.Standing.{Standing};
ghost use Rattle.dir_tree.specs.declared.place.Place.TheVariants.{Under};

use crate::place::{Entries, Place, Standing};
use crate::reading_ahead::{Wanted, read_ahead};
use crate::shared::SharedEntry;
use crate::tree::Tree;
use dir_entry::{Cursor, Rdn};
use std::marker::Model;

/// A tree that is asked about many numbers. Contracts see the tree.
pub struct Visit<'a> {
    tree: &'a Tree,
    entries: Cursor<'a, u64, Standing>,
    wanted: Wanted,
    ahead: Cursor<'a, u64, Standing>,
    /// What was read ahead last.
    row: Option<Row<'a>>,
    /// The number behind those that were asked about or read ahead.
    next: u64,
    /// The number behind those whose leaves were read ahead.
    leaves: u64,
    /// What was read ahead, added up: nobody asks for it, but without it the compiler would leave these reads out.
    read: u64,
}

/// So many entries are read ahead together where numbers follow one another.
const TOGETHER: usize = 16;

/// So many leaves are read ahead together, and so many numbers stand in one where they follow one another.
const LEAVES: usize = 8;

const IN_LEAF: u64 = 6;

/// What stands at a number and at some behind it.
struct Row<'a> {
    from: u64,
    found: [Option<&'a Standing>; TOGETHER],
}

// Not derived: see "What the gate takes" in docs/ARCHITECTURE.md.
impl<'a> Drop for Row<'a> {
    fn drop(self) {
        let Row { from: _, found: _ } = self;
    }
}

// Not derived: see "What the gate takes" in docs/ARCHITECTURE.md.
impl<'a> Drop for Visit<'a> {
    fn drop(self) {
        let Visit {
            tree: _,
            entries: _,
            wanted: _,
            ahead: _,
            row: _,
            next: _,
            leaves: _,
            read: _,
        } = self;
    }
}

impl<'a> Model for Visit<'a> {
    ghost use Rattle.std.specs.Prelude.{◌≡◌};
    ghost use Rattle.dir_tree.specs.Directory.{TreeModel};
    ghost use Rattle.dir_tree.specs.private.Visits.{IsVisit, HasRow};

    ghost Value = { TreeModel };

    ghost view = { λ v. v.tree.now };

    ghost invariant = { λ v. IsVisit v.tree.now v.entries × (v.ahead ≡ v.entries) × HasRow v.row v.entries };
}

/// The number right above a place, and the relative name below it.
fn under(place: &Place) -> Option<(u64, &Rdn)>
    ensures { IfSome result (λ p. place.now ≡ Under p.0 p.1.now) }
{
    match place {
        Place::Root(_) => None,
        Place::Under(above, rdn) => Some((*above, rdn.get())),
    }
}

/// The same of an entry, if there is one.
fn superior_of(standing: Option<&Standing>) -> Option<(u64, &Rdn)>
    ensures { IfSome result (λ p. option_map (λ s. s.place) (option_copied standing.entry) ≡ Some (Under p.0 p.1.now)) }
{
    match standing {
        Some(standing) => under(&standing.place),
        None => None,
    }
}

/// What stands at a number and at some behind it.
fn row_from<'a>(entries: &mut Cursor<'a, u64, Standing>, number: u64) -> Row<'a>
    ensures same { entries.new ≡ entries.old }
    ensures row { IsRow result entries.old }
{
    let mut found = [None; TOGETHER];
    for i in 0..TOGETHER {
        found[i] = entries.get(&number.saturating_add(i as u64));
    }
    Row {
        from: number,
        found,
    }
}

/// What stands at a number, where a row reaches it.
fn in_row<'a>(row: &Option<Row<'a>>, number: u64) -> Option<Option<&'a Standing>>
    ensures { (es : List (ℕ × Standing)) → HasRow row.now es
        → IfSome result (λ o. option_copied o ≡ lookup (is_at (nat_cmp number)) es) }
{
    match row {
        Some(row) => {
            if number < row.from || number - row.from >= TOGETHER as u64 {
                return None;
            }
            let found = &row.found[..];
            Some(found[(number - row.from) as usize])
        }
        None => None,
    }
}

/// At how many numbers something stands.
fn count_of(found: &[Option<&Standing>]) -> u64 {
    let mut count = 0u64;
    for one in found {
        if one.is_some() {
            count = count.wrapping_add(1);
        }
    }
    count
}

impl<'a> Visit<'a> {
    /// Over a tree and its entries, of which this is wanted.
    pub(crate) fn of(tree: &'a Tree, entries: &'a Entries, wanted: Wanted) -> Visit<'a>
        requires { IsVisit tree.now entries.now }
        ensures { result ≡ tree.now }
    {
        Visit {
            tree,
            entries: Cursor::new(entries),
            wanted,
            ahead: Cursor::new(entries),
            row: None,
            next: 0,
            leaves: 0,
            read: 0,
        }
    }

    /// The tree.
    pub fn tree(&self) -> &'a Tree
        ensures { result.now ≡ self.now }
    {
        self.tree
    }

    /// The attributes of a number's entry.
    pub fn entry(&mut self, number: u64) -> Option<&'a SharedEntry>
        ensures same { self.new ≡ self.old }
        ensures entry { option_map (λ e. e.now) result ≡ option_map (λ e. e.entry) (entry_at number self.old.entries) }
    {
        self.go_on_to(number);
        match self.standing(number) {
            Some(standing) => Some(&standing.entry),
            None => None,
        }
    }

    // What stands at a number.
    fn standing(&mut self, number: u64) -> Option<&'a Standing>
        ensures same { self.new ≡ self.old }
        ensures entry { option_map (λ s. s.entry) (option_copied result) ≡ option_map (λ e. e.entry)
            (entry_at number self.old.entries) }
    {
        match in_row(&self.row, number) {
            Some(found) => found,
            None => self.entries.get(&number),
        }
    }

    /// Reads the names of the entries of these numbers ahead, since they will be shown. It may take memory; where there
    /// is none, nothing is read.
    pub fn expect(&mut self, numbers: &[u64])
        ensures { self.new ≡ self.old }
    {
        if let Ok(found) = self.tree.standing_each(numbers) {
            self.read = self.read.wrapping_add(read_ahead(&found, Wanted::Names));
        }
    }

    // Where a number is the one behind those before, reads its entry and some that follow ahead.
    fn go_on_to(&mut self, number: u64)
        ensures { self.new ≡ self.old }
    {
        if number < self.next {
            return;
        }
        if number > self.next {
            self.next = number.saturating_add(1);
            return;
        }
        if number >= self.leaves {
            self.expect_leaves(number);
        }
        let row = row_from(&mut self.ahead, number);
        self.read = self.read.wrapping_add(read_ahead(&row.found, self.wanted));
        self.row = Some(row);
        self.next = number.saturating_add(TOGETHER as u64);
    }

    // Looks up a number of each of the leaves that come next, all together.
    fn expect_leaves(&mut self, number: u64)
        ensures { self.new ≡ self.old }
    {
        let mut numbers = [number; LEAVES];
        for i in 0..LEAVES {
            numbers[i] = number.saturating_add(i as u64 * IN_LEAF);
        }
        if let Ok(found) = self.tree.standing_each(&numbers) {
            self.read = self.read.wrapping_add(count_of(&found));
        }
        self.leaves = number.saturating_add(LEAVES as u64 * IN_LEAF);
    }

    /// The number of the entry right above a number's entry, and the relative name that the entry has below it; none,
    /// where it is the root's.
    pub fn superior(&mut self, number: u64) -> Option<(u64, &'a Rdn)>
        ensures same { self.new ≡ self.old }
        ensures here { IfSome result (λ p. is_some (entry_at number self.old.entries) ≡ true) }
        ensures name { IfSome result (λ p. option_map (λ e. e.name) (entry_at number self.old.entries)
            ≡ option_map (λ e. e.name ++ p.1.now ∷ []) (entry_at p.0 self.old.entries)) }
    {
        let standing = self.entries.get(&number);
        superior_of(standing)
    }
}
