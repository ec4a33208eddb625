//! The directory as searches read it: its schema, and its entries in a tree with their posting lists, whose keys are
//! those of the schema.
ghost use Rattle.std.specs.Prelude.{◌≡◌, IfOk, IfSome, string_bytes};
ghost use Rattle.std.specs.Arc.{arc_value};
ghost use Rattle.std.specs.Option.{option_map};
ghost use Rattle.dir_index.specs.ldap_dn.Names.{rdns};
ghost use Rattle.dir_index.specs.ldap_dn.Printed.{printed_name};
ghost use Rattle.dir_index.specs.dir_entry.Entry.{IsKeyedBy, attributes_of};
ghost use Rattle.indexed_tree.specs.Places.{entry_named};
ghost use Rattle.indexed_tree.specs.Replies.{not_found as not_found_reply};
ghost use Rattle.indexed_tree.specs.Stored.{directory, AreKeyedBy};
ghost use Rattle.directory_api.specs.View.{reply_view};

use crate::finding::{entry_of, not_found};
use crate::indexed::IndexedTree;
use dir_index::{Rdn, Schema};
use directory_api::{Reply, SharedEntry};
use std::alloc::{AllocError, Global};
use std::marker::Model;
use std::sync::Arc;

/// A directory that is lent to searches: entries at and below one name, under one schema, and the index choice under
/// which they are listed.
#[derive(Drop)]
pub struct Reading<'a> {
    schema: &'a Arc<Schema>,
    held: &'a IndexedTree,
}

impl<'a> Model for Reading<'a> {
    ghost use Rattle.indexed_tree.specs.Listed.{StoreModel};
    ghost use Rattle.indexed_tree.specs.Stored.{directory, AreKeyedBy};

    ghost Value = { StoreModel };

    ghost use Rattle.std.specs.Arc.{arc_value};

    ghost view = { λ r. record {
      directory = directory (arc_value r.schema.now) r.held.now.tree;
      indexes =
          r.held.now.indexes;
    } };

    ghost invariant = { λ r. AreKeyedBy (arc_value r.schema.now) r.held.now.tree.entries };
}

impl<'a> Reading<'a> {
    /// A schema, and a tree whose entries have the keys that it gives them.
    pub fn new(schema: &'a Arc<Schema>, held: &'a IndexedTree) -> Reading<'a>
        requires keyed { AreKeyedBy (arc_value schema.now) held.now.tree.entries }
        ensures { result ≡ record {
          directory = directory (arc_value schema.now) held.now.tree;
          indexes =
              held.now.indexes;
        } }
    {
        Reading { schema, held }
    }

    /// The schema.
    pub fn schema(&self) -> &'a Schema
        ensures { result.now ≡ self.now.directory.schema }
    {
        self.schema
    }

    /// A second owner of the schema; it takes no memory, and fails only where there are too many.
    pub fn shared_schema(&self) -> Result<Arc<Schema>, AllocError>
        ensures { IfOk result (λ s. arc_value s ≡ self.now.directory.schema) }
    {
        Arc::try_clone(self.schema)
    }

    /// The entries as the tree has them, and their posting lists under an index choice.
    pub fn indexed(&self) -> &'a IndexedTree
        ensures shown { directory self.now.directory.schema result.now.tree ≡ self.now.directory }
        ensures indexes { result.now.indexes ≡ self.now.indexes }
        ensures keyed { AreKeyedBy self.now.directory.schema result.now.tree.entries }
    {
        self.held
    }

    /// The name of the root, as it is printed.
    pub fn printed_suffix(&self, alloc: Global) -> Result<String, AllocError>
        ensures { IfOk result (λ t. string_bytes t ≡ printed_name self.now.directory.schema self.now.directory.suffix) }
    {
        self.held.tree().suffix().print(alloc, self.schema)
    }

    /// The number of a name's entry, and its attributes with their keys; none, where the name has none. It takes two
    /// look-ups for each relative name, and no memory.
    pub fn find(&self, name: &[Rdn]) -> Option<(u64, &'a SharedEntry)>
        ensures number { option_map (λ p. p.0) result
            ≡ option_map (λ e. e.number) (entry_named (rdns name.now) self.now.directory.entries) }
        ensures attributes { option_map (λ p. attributes_of p.1.now) result
            ≡ option_map (λ e. e.attributes) (entry_named (rdns name.now) self.now.directory.entries) }
        ensures keyed { IfSome result (λ p. IsKeyedBy self.now.directory.schema p.1.now) }
    {
        match entry_of(self.held.tree(), name) {
            Some((number, entry)) => Some((number, entry)),
            None => None,
        }
    }

    /// The reply where a name has no entry: noSuchObject (32), with the printed name of the entry of its longest front
    /// that has one (RFC 4511 4.1.9).
    pub fn not_found(&self, alloc: Global, name: &[Rdn]) -> Result<Reply, AllocError>
        ensures { IfOk result (λ r. reply_view r ≡ not_found_reply self.now.directory name.now) }
    {
        not_found(alloc, self.schema, self.held.tree(), name)
    }
}
