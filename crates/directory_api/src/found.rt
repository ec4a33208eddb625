//! An entry that a search found, as it is shown.
ghost use Rattle.std.specs.Prelude.{◌≡◌, ◌≤◌, ◌^◌, ◌++◌, [], drop, map, length, string_bytes, IfOk, OnOk, IsErrOf};
ghost use Rattle.std.specs.Arc.{arc_value};
ghost use Rattle.dir_tree.specs.dir_entry.Entry.{attributes_of};
ghost use Rattle.ldap_msg.specs.Messages.{response, search_entry};
ghost use Rattle.ldap_msg.specs.View.{entry_view};
ghost use Rattle.ldap_msg.specs.Written.{message_bytes, message_content};
ghost use Rattle.ldap_msg.specs.ldap_parts.View.{attribute_view};
ghost use Rattle.directory_api.specs.Selection.{shown_of};
ghost use Rattle.directory_api.specs.FoundView.{found_view, found_attributes};

use crate::made_attribute::copy_all_made;
use crate::shows::Shows;
use dir_tree::{Attribute, SharedEntry};
use ldap_msg::{EncodeError, PartialAttribute, SearchResultEntry, put_search_entry};
use std::alloc::{AllocError, Global};
use std::sync::Arc;

/// Where the attributes are that are shown.
enum AttributeSource {
    /// With an entry of a directory.
    Stored(SharedEntry, Arc<Shows>),
    /// Here.
    Made(Vec<PartialAttribute>),
}

// Not derived: see "What the gate takes" in docs/ARCHITECTURE.md.
impl Drop for AttributeSource {
    fn drop(self) {
        match self {
            AttributeSource::Stored(_, _) => {}
            AttributeSource::Made(_) => {}
        }
    }
}

/// An entry that a search found: its printed name, and what is shown of its attributes.
pub struct FoundEntry {
    object_name: String,
    found: AttributeSource,
}

// Not derived: see "What the gate takes" in docs/ARCHITECTURE.md.
impl Drop for FoundEntry {
    fn drop(self) {
        let FoundEntry {
            object_name: _,
            found: _,
        } = self;
    }
}

impl AttributeSource {
    /// Copies of the attributes that are shown.
    fn copy_attributes(&self, alloc: Global) -> Result<Vec<PartialAttribute>, AllocError>
        ensures { IfOk result (λ v. map attribute_view v.items ≡ found_attributes self.now) }
    {
        match self {
            AttributeSource::Stored(entry, shows) => shows.copy_shown(alloc, entry.attributes()),
            AttributeSource::Made(attributes) => copy_all_made(alloc, attributes),
        }
    }
}

/// Writes the message without controls that shows stored attributes by this name.
fn put_stored(
    alloc: Global,
    id: u32,
    object_name: &str,
    shows: &Shows,
    attributes: &[Attribute],
    out: &mut Vec<u8>,
) -> Result<(), EncodeError>
    ensures ok { OnOk result (out.new.items ≡ out.old.items ++ message_bytes
        (record {
          id = id;
          op = response
              (search_entry (record {
                object_name = object_name.now;
                attributes = shown_of shows.now
                    (attributes_of attributes.now);
              }));
          controls = [];
        })) }
    ensures too_long { IsErrOf result EncodeError.TooLong
        → 2 ^ 32 ≤ length (message_content
        (record {
          id = id;
          op = response
              (search_entry (record {
                object_name = object_name.now;
                attributes = shown_of shows.now
                    (attributes_of attributes.now);
              }));
          controls = [];
        })) }
    ensures kept { out.new.items ≡ out.old.items ++ drop (length out.old.items) out.new.items }
{
    match shows.show_all(alloc, attributes) {
        Ok(shown) => put_search_entry(alloc, id, object_name, &shown, out),
        Err(_) => Err(EncodeError::NoMemory),
    }
}

impl FoundEntry {
    /// The attributes of the stored entry; none, where they were made.
    pub(crate) fn stored_attributes(&self) -> &[Attribute] {
        match &self.found {
            AttributeSource::Stored(entry, _) => entry.attributes(),
            AttributeSource::Made(_) => &[],
        }
    }

    /// What is shown of a stored entry, by this name.
    pub fn stored(object_name: String, entry: SharedEntry, shows: Arc<Shows>) -> FoundEntry
        ensures { found_view result ≡ record {
          object_name = string_bytes object_name;
          attributes =
              shown_of (arc_value shows) (attributes_of entry);
        } }
    {
        FoundEntry {
            object_name,
            found: AttributeSource::Stored(entry, shows),
        }
    }

    /// An entry of this name with these attributes, which stand nowhere else.
    pub fn made(object_name: String, attributes: Vec<PartialAttribute>) -> FoundEntry
        ensures { found_view result ≡ record {
          object_name = string_bytes object_name;
          attributes = map attribute_view
              attributes.items;
        } }
    {
        FoundEntry {
            object_name,
            found: AttributeSource::Made(attributes),
        }
    }

    /// Its name, printed.
    pub fn object_name(&self) -> &str
        ensures { result.now ≡ (found_view self.now).object_name }
    {
        &self.object_name
    }

    /// A copy of what is shown, by itself.
    pub fn copied(&self, alloc: Global) -> Result<SearchResultEntry, AllocError>
        ensures { IfOk result (λ e. entry_view e ≡ found_view self.now) }
    {
        let object_name = String::from_str(alloc, &self.object_name)?;
        let attributes = self.found.copy_attributes(alloc)?;
        Ok(SearchResultEntry {
            object_name,
            attributes,
        })
    }

    /// Writes the message without controls that shows it, each octet of its values once, behind what is there, which
    /// stays whatever comes. TooLong only where its content is over 4294967295 octets.
    pub fn put(&self, alloc: Global, id: u32, out: &mut Vec<u8>) -> Result<(), EncodeError>
        ensures ok { OnOk result (out.new.items ≡ out.old.items ++ message_bytes
            (record { id = id; op = response (search_entry (found_view self.now)); controls = [] })) }
        ensures too_long { IsErrOf result EncodeError.TooLong
            → 2 ^ 32 ≤ length (message_content (record {
              id = id;
              op = response (search_entry (found_view self.now));
              controls = [];
            })) }
        ensures kept { out.new.items ≡ out.old.items ++ drop (length out.old.items) out.new.items }
    {
        match &self.found {
            AttributeSource::Stored(entry, shows) => {
                put_stored(alloc, id, &self.object_name, shows, entry.attributes(), out)
            }
            AttributeSource::Made(attributes) => {
                put_search_entry(alloc, id, &self.object_name, attributes, out)
            }
        }
    }
}
