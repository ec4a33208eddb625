//! What is shown of an entry that was found: its printed name, and a second owner of its attributes.
ghost use Rattle.std.specs.Prelude.{◌≡◌, string_bytes, IfOk};
ghost use Rattle.std.specs.Arc.{arc_value};
ghost use Rattle.indexed_tree.specs.ldap_dn.Printed.{printed_name};
ghost use Rattle.indexed_tree.specs.dir_entry.Entry.{attributes_of};
ghost use Rattle.indexed_tree.specs.dir_tree.Directory.{entry_at};
ghost use Rattle.indexed_tree.specs.directory_api.FoundView.{found_view};
ghost use Rattle.dir_search.specs.Numbered.{name_of};
ghost use Rattle.dir_search.specs.Selection.{attributes_selected};
ghost use Rattle.dir_search.specs.private.View.{selectors_of, shows_of};

use crate::entry_reader::EntryReader;
use indexed_tree::{FoundEntry, Reading, Schema, SearchRequest, SharedEntry, Shows};
use std::alloc::{AllocError, Global};
use std::sync::Arc;

/// What a request has shown of each entry of a directory (RFC 4511 4.5.1.8), its selectors looked up once.
pub fn shows_for(
    alloc: Global,
    store: &Reading<'_>,
    request: &SearchRequest,
) -> Result<Arc<Shows>, AllocError>
    ensures { IfOk result (λ s. arc_value s ≡ shows_of store.now.directory.schema request.now) }
{
    let schema = store.shared_schema()?;
    let shows = Shows::new(alloc, schema, &request.attributes, request.types_only)?;
    let shows = Arc::new(alloc, shows)?;
    Ok(shows)
}

/// How a request has entries shown.
pub struct Showing<'a> {
    pub alloc: Global,
    pub schema: &'a Schema,
    pub request: &'a SearchRequest,
    pub shows: &'a Arc<Shows>,
    ghost shown_as: { arc_value shows.now ≡ shows_of schema.now request.now },
}

// Not derived: see "What the gate takes" in docs/ARCHITECTURE.md.
impl<'a> Drop for Showing<'a> {
    fn drop(self) {
        let Showing {
            alloc: _,
            schema: _,
            request: _,
            shows: _,
        } = self;
    }
}

impl Showing<'_> {
    /// What is shown of the entry of a number, whose attributes are these.
    pub fn show_entry(
        &self,
        reader: &mut EntryReader<'_>,
        number: u64,
        entry: &SharedEntry,
    ) -> Result<FoundEntry, AllocError>
        requires { reader.old.schema ≡ self.now.schema.now }
        ensures same { reader.new ≡ reader.old }
        ensures shown { IfOk result (λ e. found_view e ≡ record {
          object_name = printed_name self.now.schema.now (name_of (entry_at number reader.old.entries));
          attributes = attributes_selected self.now.schema.now (selectors_of self.now.request.now)
              self.now.request.now.types_only (attributes_of entry.now);
        }) }
    {
        let object_name = reader.print_name(number)?;
        let entry = entry.share()?;
        let shows = Arc::try_clone(self.shows)?;
        Ok(FoundEntry::stored(object_name, entry, shows))
    }
}
