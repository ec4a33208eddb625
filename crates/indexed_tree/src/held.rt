// An entry where it is. It is made for whoever asks: the tree keeps relative names alone.

use dir_index::Name;
use directory_api::SharedEntry;

/// An entry with its name, as it is spelled.
#[derive(Drop)]
pub struct StoredEntry<'a> {
    pub name: Name,
    pub entry: &'a SharedEntry,
}
