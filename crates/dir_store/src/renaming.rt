//! Judges a modifyDN and makes the renamed entry. The tree stays as it is.
ghost use Rattle.std.specs.Prelude.{◌≡◌, ◌++◌, ◌∷◌, [], true, false, Ok, Some, IfOk, IfErr, OnOk, is_some, map};
ghost use Rattle.std.specs.Option.{option_map};
ghost use Rattle.indexed_tree.specs.ldap_dn.Names.{rdns};
ghost use Rattle.entry_updates.specs.ldap_parts.UpdateView.{modify_dn_view};
ghost use Rattle.indexed_tree.specs.dir_entry.Entry.{IsKeyedBy};
ghost use Rattle.indexed_tree.specs.dir_tree.Directory.{find, name_eq, begins};
ghost use Rattle.indexed_tree.specs.dir_tree.Placed.{name_placed};
ghost use Rattle.indexed_tree.specs.Places.{parent_of, entry_named};
ghost use Rattle.indexed_tree.specs.Stored.{named, directory, AreKeyedBy};
ghost use Rattle.dir_store.specs.Updates.{is_at_or_below as is_name_at_or_below, is_misplaced as is_move_misplaced, superior_of, is_other_than, moved_entry, move_names, move_to, move_under, move_asked as move_that_is_asked};
ghost use Rattle.indexed_tree.specs.private.Moving.{MayMove};
ghost use Rattle.dir_store.specs.private.View.{names_view, moved_view, RefusedWith};

use crate::fault::{StoreError, refused_attributes};
use crate::finding::asked_entry;
use crate::names::{asked_name, asked_rdn, asked_superior, own_rdn};
use entry_updates::{ModifyDnRequest, ResultCode, entry_renamed};
use indexed_tree::{Entry, Name, Rdn, Reply, Schema, StoredEntry, Tree, is_front, is_same};
use std::alloc::{AllocError, Global};
use std::marker::Model;

/// An entry's number, its name before and after, and its attributes after.
#[derive(Drop)]
pub struct Moved {
    pub number: u64,
    pub before: Name,
    pub after: Name,
    pub entry: Entry,
}

/// The three names of a modifyDN.
#[derive(Drop)]
pub struct MoveNames {
    pub name: Name,
    pub rdn: Rdn,
    pub above: Option<Name>,
}

/// The names of a modifyDN, in order; 34 where one can't be read.
fn asked_names(
    alloc: Global,
    schema: &Schema,
    request: &ModifyDnRequest,
) -> Result<MoveNames, StoreError>
    ensures ok { IfOk result (λ n. move_names schema.now (modify_dn_view request.now) ≡ Ok (names_view n)) }
    ensures refused { IfErr result (λ e. RefusedWith e (move_names schema.now (modify_dn_view request.now))) }
{
    let name = asked_name(alloc, schema, &request.entry)?;
    let rdn = asked_rdn(alloc, schema, &request.newrdn)?;
    let above = asked_superior(alloc, schema, &request.new_superior)?;
    Ok(MoveNames { name, rdn, above })
}

/// Whether the new superior, where one is given, is the entry or below it.
fn is_at_or_below(name: &[Rdn], above: &Option<Name>) -> bool
    ensures { result ≡ is_name_at_or_below name.now above.now }
{
    match above {
        None => false,
        Some(above) => is_front(name, above.rdns()),
    }
}

/// Whether an entry can't move there: it is the suffix's, or the new superior is it or below it.
fn is_misplaced(suffix: &[Rdn], name: &[Rdn], above: &Option<Name>) -> bool
    ensures { result ≡ is_move_misplaced suffix.now name.now above.now }
{
    is_at_or_below(name, above) || is_same(name, suffix)
}

/// The name right above a name; of the empty name itself.
fn parent(alloc: Global, name: &Name) -> Result<Name, AllocError>
    ensures { IfOk result (λ n. n ≡ parent_of name.now) }
{
    let mut rdns = name.copy(alloc)?.into_rdns();
    rdns.pop();
    Ok(Name::from_rdns(rdns))
}

/// A name with one relative name more.
fn with_rdn(alloc: Global, superior: Name, rdn: &Rdn) -> Result<Name, AllocError>
    ensures { IfOk result (λ n. n ≡ superior ++ rdn.now ∷ []) }
{
    let mut rdns = superior.into_rdns();
    rdns.push(rdn.copy(alloc)?)?;
    Ok(Name::from_rdns(rdns))
}

/// Whether another entry than that of a number has the name.
#[tactic(auto, using(crate::proofs::Others::other_none, crate::proofs::Others::other_some))]
fn is_taken_by_other(tree: &Tree, number: u64, name: &[Rdn]) -> bool
    ensures { result ≡ is_other_than number (entry_named (rdns name.now) (map named tree.now.entries)) }
{
    match tree.find(name) {
        Some(found) => number != found,
        None => false,
    }
}

/// A move that is asked of an entry of a tree.
#[derive(Drop)]
struct Move<'a> {
    alloc: Global,
    schema: &'a Schema,
    tree: &'a Tree,
    delete_old: bool,
    number: u64,
    held: &'a StoredEntry<'a>,
    rdn: &'a Rdn,
}

impl<'a> Model for Move<'a> {
    ghost use Rattle.indexed_tree.specs.Stored.{entered_of};
    ghost use Rattle.indexed_tree.specs.private.Moving.{MoveAsked, IsOfTree};

    ghost Value = { MoveAsked };

    ghost view = { λ m. record {
      schema = m.schema.now;
      tree = m.tree.now;
      delete_old = m.delete_old;
      entry =
          entered_of m.number m.held.now;
      rdn = m.rdn.now;
    } };

    ghost invariant = { λ m. IsOfTree (record {
      schema = m.schema.now;
      tree = m.tree.now;
      delete_old = m.delete_old;
      entry = entered_of m.number m.held.now;
      rdn = m.rdn.now;
    }) };
}

impl Move<'_> {
    /// The name of the superior as it is spelled: the new one's, 32 where it is no entry's, or the present one's.
    #[tactic(auto, using(crate::proofs::Moves::stands_above, crate::proofs::Moves::above_of, crate::proofs::Spelled::parent_spelled))]
    fn superior_name(&self, above: &Option<Name>) -> Result<Name, StoreError>
        requires root { name_eq (rdns self.now.entry.name) (rdns self.now.tree.suffix) ≡ false }
        requires outside { is_name_at_or_below self.now.entry.name above.now ≡ false }
        ensures ok { IfOk result (λ n. superior_of (directory self.now.schema self.now.tree) self.now.entry.name
            above.now ≡ Ok n) }
        ensures stands { IfOk result (λ n. is_some (find (rdns n) self.now.tree.entries) ≡ true) }
        ensures spelled { IfOk result (λ n. option_map (λ e. e.name) (find (rdns n) self.now.tree.entries) ≡ Some n) }
        ensures apart { IfOk result (λ n. begins (rdns self.now.entry.name) (rdns n) ≡ false) }
        ensures refused { IfErr result (λ e. RefusedWith e (superior_of (directory self.now.schema self.now.tree)
            self.now.entry.name above.now)) }
    {
        self.tree.is_directory();
        self.tree.is_spelled();
        match above {
            None => Ok(parent(self.alloc, &self.held.name)?),
            Some(above) => {
                let (_, held) = asked_entry(self.alloc, self.schema, self.tree, above.rdns())?;
                let StoredEntry { name, entry: _ } = held;
                Ok(name)
            }
        }
    }

    /// The entry under a name: what its attributes are refused for.
    fn moved_under(&self, after: Name) -> Result<Moved, StoreError>
        ensures ok { IfOk result (λ m. moved_entry self.now.schema self.now.delete_old (named self.now.entry)
            self.now.rdn after ≡ Ok (moved_view m)) }
        ensures keyed { IfOk result (λ m. IsKeyedBy self.now.schema m.entry) }
        ensures number { IfOk result (λ m. m.number ≡ self.now.entry.number) }
        ensures before { IfOk result (λ m. m.before ≡ self.now.entry.name) }
        ensures after { IfOk result (λ m. m.after ≡ after) }
        ensures refused { IfErr result (λ e. RefusedWith e (moved_entry self.now.schema self.now.delete_old
            (named self.now.entry) self.now.rdn after)) }
    {
        match entry_renamed(
            self.alloc,
            self.schema,
            own_rdn(self.held.name.rdns()),
            self.rdn.types_and_values(),
            self.delete_old,
            self.held.entry,
        ) {
            Ok(entry) => Ok(Moved {
                number: self.number,
                before: self.held.name.copy(self.alloc)?,
                after,
                entry,
            }),
            Err(error) => Err(refused_attributes(self.alloc, error)),
        }
    }

    /// The entry under a name that no other entry has: 68, then what its attributes are refused for.
    fn moved_to(&self, after: Name) -> Result<Moved, StoreError>
        ensures ok { IfOk result (λ m. move_to (directory self.now.schema self.now.tree) self.now.delete_old
            (named self.now.entry) self.now.rdn after ≡ Ok (moved_view m)) }
        ensures keyed { IfOk result (λ m. IsKeyedBy self.now.schema m.entry) }
        ensures number { IfOk result (λ m. m.number ≡ self.now.entry.number) }
        ensures before { IfOk result (λ m. m.before ≡ self.now.entry.name) }
        ensures after { IfOk result (λ m. m.after ≡ after) }
        ensures fresh { OnOk result (is_other_than self.now.entry.number
            (entry_named (rdns after) (map named self.now.tree.entries)) ≡ false) }
        ensures refused { IfErr result (λ e. RefusedWith e (move_to (directory self.now.schema self.now.tree)
            self.now.delete_old (named self.now.entry) self.now.rdn after)) }
    {
        if is_taken_by_other(self.tree, self.number, after.rdns()) {
            return Err(StoreError::Refused(Reply::only(
                self.alloc,
                ResultCode::ENTRY_ALREADY_EXISTS,
            )));
        }
        self.moved_under(after)
    }

    /// The entry under its new name: 53, 32 of the new superior, 68, then what its attributes are refused for.
    #[tactic(auto, using(crate::proofs::Moves::free_of, crate::proofs::Moves::above_last, crate::proofs::Spelled::spelled_placed))]
    fn moved(&self, above: &Option<Name>) -> Result<Moved, StoreError>
        ensures ok { IfOk result (λ m. move_under (directory self.now.schema self.now.tree) self.now.delete_old
            (named self.now.entry) self.now.rdn above.now ≡ Ok (moved_view m)) }
        ensures keyed { IfOk result (λ m. IsKeyedBy self.now.schema m.entry) }
        ensures may { IfOk result (λ m. MayMove self.now.tree m.number (rdns m.before) (rdns m.after)) }
        ensures placed { IfOk result (λ m. name_placed (rdns self.now.tree.suffix) m.after self.now.tree.entries ≡
            m.after) }
        ensures refused { IfErr result (λ e. RefusedWith e (move_under (directory self.now.schema self.now.tree)
            self.now.delete_old (named self.now.entry) self.now.rdn above.now)) }
    {
        self.tree.is_directory();
        self.tree.is_placed_as_spelled();
        if is_misplaced(self.tree.suffix().rdns(), self.held.name.rdns(), above) {
            return Err(StoreError::Refused(Reply::only(
                self.alloc,
                ResultCode::UNWILLING_TO_PERFORM,
            )));
        }
        let superior = self.superior_name(above)?;
        let after = with_rdn(self.alloc, superior, self.rdn)?;
        self.moved_to(after)
    }
}

/// What a modifyDN asks for (RFC 4511 4.9): 34 of its three names, 32, 53, 32 of the new superior, 68, then what the
/// attributes are refused for.
pub fn asked_move(
    alloc: Global,
    schema: &Schema,
    tree: &Tree,
    request: &ModifyDnRequest,
) -> Result<Moved, StoreError>
    requires keyed { AreKeyedBy schema.now tree.now.entries }
    ensures ok { IfOk result (λ m. move_that_is_asked (directory schema.now tree.now) (modify_dn_view request.now) ≡
        Ok (moved_view m)) }
    ensures keyed { IfOk result (λ m. IsKeyedBy schema.now m.entry) }
    ensures may { IfOk result (λ m. MayMove tree.now m.number (rdns m.before) (rdns m.after)) }
    ensures placed { IfOk result (λ m. name_placed (rdns tree.now.suffix) m.after tree.now.entries ≡ m.after) }
    ensures refused { IfErr result (λ e. RefusedWith e (move_that_is_asked (directory schema.now tree.now)
        (modify_dn_view request.now))) }
{
    let MoveNames { name, rdn, above } = asked_names(alloc, schema, request)?;
    let (number, held) = asked_entry(alloc, schema, tree, name.rdns())?;
    let asked = Move {
        alloc,
        schema,
        tree,
        delete_old: request.deleteoldrdn,
        number,
        held: &held,
        rdn: &rdn,
    };
    asked.moved(&above)
}
