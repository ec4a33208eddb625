//! The directory: a schema and a tree of entries, whose keys are those of the schema. What each update asks for is
//! judged before anything changes.
ghost use Rattle.std.specs.Prelude.{◌≡◌, ◌+◌, [], List, Result, IfOk, OnErr};
ghost use Rattle.std.specs.Arc.{arc_value};
ghost use Rattle.indexed_tree.specs.Stored.{directory, AreKeyedBy, NumbersBelow};
ghost use Rattle.indexed_tree.specs.Directory.{NamedEntry};
ghost use Rattle.indexed_tree.specs.directory_api.Answers.{ReplyModel};
ghost use Rattle.indexed_tree.specs.directory_api.View.{reply_view};
ghost use Rattle.entry_updates.specs.ldap_parts.UpdateView.{add_view, modify_view, modify_dn_view};
ghost use Rattle.entry_updates.specs.ldap_op.View.{update_view};
ghost use Rattle.dir_store.specs.Updates.{added, deleted, modified, renamed_all, updated, applied, reply_to};
ghost use Rattle.dir_store.specs.private.Outcome.{IsOutcome};
ghost use Rattle.dir_store.specs.private.View.{RefusedWith};

use crate::adding::{Placed, addition};
use crate::deleting::asked_out;
use crate::fault::{StoreError, reply_of_refusal};
use crate::modifying::{ChangedEntry, asked_change};
use crate::renaming::{Moved, asked_move};
use entry_updates::{AddRequest, ModifyDnRequest, ModifyRequest, Op, ResultCode, Update};
use indexed_tree::{IndexedTree, Indexes, Name, Reading, Reply, Schema, SharedEntry, Tree};
use std::alloc::{AllocError, Global};
use std::marker::Model;
use std::sync::Arc;

/// The directory under one schema: entries, each with the number of the update that added it, at and below one name;
/// and the index choice under which they are listed.
pub struct Store {
    schema: Arc<Schema>,
    held: IndexedTree,
}

// Not derived: see "What the gate takes" in docs/ARCHITECTURE.md.
impl Drop for Store {
    fn drop(self) {
        let Store { schema: _, held: _ } = self;
    }
}

impl Model for Store {
    ghost use Rattle.indexed_tree.specs.Listed.{StoreModel};
    ghost use Rattle.indexed_tree.specs.Stored.{directory, AreKeyedBy};

    ghost Value = { StoreModel };

    ghost use Rattle.std.specs.Arc.{arc_value};

    ghost view = { λ s. record { directory = directory (arc_value s.schema) s.held.tree; indexes = s.held.indexes } };

    ghost invariant = { λ s. AreKeyedBy (arc_value s.schema) s.held.tree.entries };
}

/// A store after an update, and the reply.
#[derive(Drop)]
pub struct Applied {
    pub store: Store,
    pub reply: Reply,
}

/// What becomes of a store that an update is made of.
#[derive(Drop)]
enum Outcome {
    /// The update is made.
    Made(Store),
    /// The update is refused with a reply, and the store is as it was.
    Refused(Store, Reply),
}

impl Store {
    /// A directory without entries, whose root is to have this name. The schema is shared with whoever else has it.
    pub fn new(alloc: Global, schema: Arc<Schema>, indexes: Indexes, suffix: Name) -> Store
        ensures { result ≡ record {
          directory = record { schema = arc_value schema; suffix = suffix; entries = [] };
          indexes = indexes;
        } }
    {
        Store {
            schema,
            held: IndexedTree::new(alloc, indexes, suffix),
        }
    }

    /// A second owner of the same directory: a few second owners, whatever the size.
    pub fn share(&self) -> Result<Store, AllocError>
        ensures { IfOk result (λ s. s ≡ self.now) }
    {
        let schema = Arc::try_clone(&self.schema)?;
        let held = self.held.share()?;
        Ok(Store { schema, held })
    }

    /// The schema.
    pub fn schema(&self) -> &Schema
        ensures { result.now ≡ self.now.directory.schema }
    {
        &self.schema
    }

    /// The entries as the tree has them, with their keys, which are those of the schema.
    pub fn tree(&self) -> &Tree
        ensures shown { directory self.now.directory.schema result.now ≡ self.now.directory }
        ensures keyed { AreKeyedBy self.now.directory.schema result.now.entries }
    {
        self.held.tree()
    }

    /// The store as searches read it.
    pub fn reading(&self) -> Reading<'_>
        ensures { result ≡ self.now }
    {
        Reading::new(&self.schema, &self.held)
    }

    /// Makes an update under a number above those of all entries (RFC 4511 4.6 to 4.9), or refuses it with the reply of
    /// the first check that fails. A refusal and want of memory, the only error, leave the directory as it was.
    pub fn apply(&mut self, alloc: Global, number: u64, op: &Op) -> Result<Reply, AllocError>
        requires above { NumbersBelow number self.old.directory.entries }
        ensures directory { IfOk result (λ reply. self.new.directory ≡ applied self.old.directory number op.now) }
        ensures reply { IfOk result (λ reply. reply_view reply ≡ reply_to self.old.directory number op.now) }
        ensures indexes { self.new.indexes ≡ self.old.indexes }
        ensures below { IfOk result (λ reply. NumbersBelow (number + 1) self.new.directory.entries) }
        ensures err { OnErr result (self.new ≡ self.old) }
    {
        let same = self.share()?;
        let Applied { store, reply } = same.applied(alloc, number, op)?;
        *self = store;
        Ok(reply)
    }

    /// The store after an update under a number above those of all entries, or as it was where the update is refused,
    /// and the reply. What the store alone owns is changed where it stands, except the tree's maps at a delete, its
    /// relative names and sets at a rename, and lists that an entry leaves: these are copied as far as they differ. Out
    /// of memory nothing is left.
    pub fn applied(self, alloc: Global, number: u64, op: &Op) -> Result<Applied, AllocError>
        requires above { NumbersBelow number self.directory.entries }
        ensures directory { IfOk result (λ a. a.store.directory ≡ applied self.directory number op.now) }
        ensures reply { IfOk result (λ a. reply_view a.reply ≡ reply_to self.directory number op.now) }
        ensures indexes { IfOk result (λ a. a.store.indexes ≡ self.indexes) }
        ensures below { IfOk result (λ a. NumbersBelow (number + 1) a.store.directory.entries) }
    {
        let looked = op.look(alloc)?;
        match self.updated(alloc, number, looked.update())? {
            Outcome::Made(store) => {
                let reply = Reply::only(alloc, ResultCode::SUCCESS);
                Ok(Applied { store, reply })
            }
            Outcome::Refused(store, reply) => Ok(Applied { store, reply }),
        }
    }

    /// The store after an update, or as it was where the update is refused.
    fn updated(self, alloc: Global, number: u64, update: &Update) -> Result<Outcome, AllocError>
        requires above { NumbersBelow number self.directory.entries }
        ensures { IfOk result (IsOutcome self (updated self.directory number (update_view update.now))) }
    {
        match update {
            Update::Add(request) => self.added(alloc, number, request),
            Update::Delete(name) => self.deleted(alloc, name),
            Update::Modify(request) => self.modified(alloc, request),
            Update::ModifyDn(request) => self.renamed(alloc, request),
            Update::Noop => Ok(Outcome::Made(self)),
        }
    }

    /// The store without a change, and the reply that says why.
    fn refused(self, error: StoreError) -> Result<Outcome, AllocError>
        ensures { IfOk result (λ o. (asked : Result (List NamedEntry) ReplyModel) → RefusedWith error asked →
            IsOutcome self asked o) }
    {
        let reply = reply_of_refusal(error)?;
        Ok(Outcome::Refused(self, reply))
    }

    /// The store with an entry at the end, or as it was.
    #[tactic(auto, using(indexed_tree::proofs::Shown::numbers_shown, indexed_tree::proofs::Shown::pushed_shown, indexed_tree::proofs::Shown::keyed_push))]
    fn added(self, alloc: Global, number: u64, request: &AddRequest) -> Result<Outcome, AllocError>
        requires above { NumbersBelow number self.directory.entries }
        ensures { IfOk result (IsOutcome self (added self.directory number (add_view request.now))) }
    {
        match addition(alloc, &self.schema, self.held.tree(), request) {
            Ok(placed) => {
                let Placed { name, entry } = placed;
                let entry = SharedEntry::new(alloc, entry)?;
                let Store { schema, held } = self;
                let held = held.added(number, name, entry)?;
                Ok(Outcome::Made(Store { schema, held }))
            }
            Err(error) => self.refused(error),
        }
    }

    /// The store without an entry, or as it was.
    #[tactic(auto, using(indexed_tree::proofs::Shown::deleted_shown, indexed_tree::proofs::Shown::keyed_unnumbered))]
    fn deleted(self, alloc: Global, text: &str) -> Result<Outcome, AllocError>
        ensures { IfOk result (IsOutcome self (deleted self.directory text.now)) }
    {
        match asked_out(alloc, &self.schema, self.held.tree(), text) {
            Ok(out) => {
                let (name, number) = out;
                let Store { schema, held } = self;
                let held = held.deleted(name.rdns(), number)?;
                Ok(Outcome::Made(Store { schema, held }))
            }
            Err(error) => self.refused(error),
        }
    }

    /// The store with other attributes of an entry, or as it was.
    #[tactic(auto, using(indexed_tree::proofs::Shown::replaced_shown, indexed_tree::proofs::Shown::keyed_replaced))]
    fn modified(self, alloc: Global, request: &ModifyRequest) -> Result<Outcome, AllocError>
        ensures { IfOk result (IsOutcome self (modified self.directory (modify_view request.now))) }
    {
        match asked_change(alloc, &self.schema, self.held.tree(), request) {
            Ok(changed) => {
                let ChangedEntry {
                    number,
                    touched,
                    entry,
                } = changed;
                let entry = SharedEntry::new(alloc, entry)?;
                let Store { schema, held } = self;
                let held = held.replaced_in(
                    number,
                    touched.types.as_slice(),
                    touched.named.as_slice(),
                    entry,
                )?;
                Ok(Outcome::Made(Store { schema, held }))
            }
            Err(error) => self.refused(error),
        }
    }

    /// The store with other names of an entry and of those below it, or as it was.
    #[tactic(auto, using(crate::proofs::Spelled::moved_placed, indexed_tree::proofs::Shown::keyed_moved))]
    fn renamed(self, alloc: Global, request: &ModifyDnRequest) -> Result<Outcome, AllocError>
        ensures { IfOk result (IsOutcome self (renamed_all self.directory (modify_dn_view request.now))) }
    {
        match asked_move(alloc, &self.schema, self.held.tree(), request) {
            Ok(asked) => {
                let Moved {
                    number,
                    before,
                    after,
                    entry,
                } = asked;
                let entry = SharedEntry::new(alloc, entry)?;
                let Store { schema, held } = self;
                let held = held.renamed(before.rdns(), number, after, entry)?;
                Ok(Outcome::Made(Store { schema, held }))
            }
            Err(error) => self.refused(error),
        }
    }
}
