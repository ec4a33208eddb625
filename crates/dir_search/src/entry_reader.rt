//! Entries read off a tree as they are shown: their attributes, and their printed names. What is printed behind the
//! relative name of an entry stays for the next one, which mostly has the same superior.
ghost use Rattle.std.specs.Prelude.{◌≡◌, Some, IfOk, IsTrue, string_bytes, reverse};
ghost use Rattle.std.specs.Option.{option_map};
ghost use Rattle.indexed_tree.specs.ldap_dn.Printed.{printed_behind, printed_name};
ghost use Rattle.indexed_tree.specs.dir_tree.Directory.{entry_at};
ghost use Rattle.dir_search.specs.Numbered.{name_of};

use indexed_tree::{
    Schema, SharedEntry, Tree, Visit, Wanted, print_before, print_behind, print_from_leaf,
};
use std::alloc::{AllocError, Global};
use std::marker::Model;

/// Reads entries off a tree as they are shown. Contracts see the schema and the entries.
pub struct EntryReader<'a> {
    alloc: Global,
    schema: &'a Schema,
    visit: Visit<'a>,
    /// The superior of the entry before.
    superior: Option<u64>,
    /// What is printed behind the relative name of an entry right below it.
    behind: String,
}

// Not derived: see "What the gate takes" in docs/ARCHITECTURE.md.
impl<'a> Drop for EntryReader<'a> {
    fn drop(self) {
        let EntryReader {
            alloc: _,
            schema: _,
            visit: _,
            superior: _,
            behind: _,
        } = self;
    }
}

impl<'a> Model for EntryReader<'a> {
    ghost use Rattle.std.specs.Prelude.{string_bytes};
    ghost use Rattle.dir_search.specs.private.Named.{ReaderModel, IsBehind};

    ghost Value = { ReaderModel };

    ghost view = { λ r. record { schema = r.schema.now; entries = r.visit.entries } };

    ghost invariant = { λ r. IsBehind r.schema.now r.visit.entries r.superior (string_bytes r.behind) };
}

/// Whether a number is this one.
fn is_number(kept: &Option<u64>, number: u64) -> bool
    ensures { IsTrue result → kept.now ≡ Some number }
{
    match kept {
        Some(kept) => *kept == number,
        None => false,
    }
}

/// What is printed behind the relative name of an entry right below a number's; nothing, where there is no entry of the
/// number.
#[tactic(auto, using(crate::proofs::NamesAt::behind_some, crate::proofs::NamesAt::behind_none))]
fn behind_of(alloc: Global, schema: &Schema, tree: &Tree, number: u64) -> Result<String, AllocError>
    ensures { IfOk result (λ t. string_bytes t ≡ printed_behind schema.now
        (reverse (name_of (entry_at number tree.now.entries)))) }
{
    match tree.rdns_from_leaf(alloc, number)? {
        Some(rdns) => print_behind(alloc, schema, rdns.as_slice()),
        None => Ok(String::new(alloc)),
    }
}

/// The printed name of a number's entry; the empty text, where there is none. No relative name is copied.
#[tactic(auto, using(crate::proofs::NamesAt::printed_some, crate::proofs::NamesAt::printed_none))]
fn print_whole(
    alloc: Global,
    schema: &Schema,
    tree: &Tree,
    number: u64,
) -> Result<String, AllocError>
    ensures { IfOk result (λ t. string_bytes t ≡ printed_name schema.now (name_of (entry_at number tree.now.entries))) }
{
    match tree.rdns_from_leaf(alloc, number)? {
        Some(rdns) => print_from_leaf(alloc, schema, rdns.as_slice()),
        None => Ok(String::new(alloc)),
    }
}

impl<'a> EntryReader<'a> {
    /// Of the entries of a tree.
    pub fn new(alloc: Global, schema: &'a Schema, tree: &'a Tree) -> EntryReader<'a>
        ensures { result ≡ record { schema = schema.now; entries = tree.now.entries } }
    {
        EntryReader {
            alloc,
            schema,
            visit: tree.visit(Wanted::Names),
            superior: None,
            behind: String::new(alloc),
        }
    }

    /// The attributes of a number's entry.
    pub fn entry(&mut self, number: u64) -> Option<&'a SharedEntry>
        ensures same { self.new ≡ self.old }
        ensures entry { option_map (λ e. e.now) result ≡ option_map (λ e. e.entry) (entry_at number self.old.entries) }
    {
        self.visit.entry(number)
    }

    /// The printed name of a number's entry; the empty text, where there is none.
    #[tactic(auto, using(crate::proofs::NamesAt::printed_below))]
    pub fn print_name(&mut self, number: u64) -> Result<String, AllocError>
        ensures same { self.new ≡ self.old }
        ensures name { IfOk result (λ t. string_bytes t ≡ printed_name self.old.schema
            (name_of (entry_at number self.old.entries))) }
    {
        match self.visit.superior(number) {
            Some((superior, rdn)) => {
                if !is_number(&self.superior, superior) {
                    let behind = behind_of(self.alloc, self.schema, self.visit.tree(), superior)?;
                    self.superior = Some(superior);
                    self.behind = behind;
                }
                print_before(self.alloc, self.schema, rdn, &self.behind)
            }
            None => print_whole(self.alloc, self.schema, self.visit.tree(), number),
        }
    }
}
