//! Searches a text of LDIF: makes a directory of it, asks it, and writes what it finds as LDIF.

ghost use Rattle.std.specs.Prelude.{◌≡◌, Ok, IfOk, IfErr, OnOk, length, map};
ghost use Rattle.ldif.specs.Reading.{records_of as records_of_text};
ghost use Rattle.dir_store.specs.directory_api.ldap_msg.View.{entry_view, search_view};
ghost use Rattle.dir_store.specs.directory_api.FoundView.{found_view};
ghost use Rattle.dir_store.specs.indexed_tree.Stored.{NumbersBelow};
ghost use Rattle.dir_search.specs.Answer.{answer as answer_of};
ghost use Rattle.dir_search.specs.Counted.{IsCountOf};
ghost use Rattle.local_directory.specs.Filled.{IsFilled, IsFillFault};
ghost use Rattle.local_directory.specs.Searched.{IsShowFault, IsReadFault, IsSearched, IsSearchFault};
ghost use Rattle.local_directory.specs.private.Searched.{IsShown};

use crate::adding::add_records;
use crate::fault::SearchError;
use dir_search::{FoundEntry, SearchRequest, SearchResultEntry, search};
use dir_store::Store;
use ldif::{LdifError, Record, read, records_of, write};
use std::alloc::{AllocError, Global};

/// The records of a text.
pub fn read_records(alloc: Global, text: &[u8]) -> Result<Vec<Record>, SearchError>
    ensures found { IfOk result (λ v. records_of_text text.now ≡ Ok v.items) }
    ensures refused { IfErr result (λ e. IsReadFault e text.now) }
{
    match read(alloc, text) {
        Ok(records) => Ok(records),
        Err(LdifError::BadLdif { line, cause }) => Err(SearchError::BadLdif { line, cause }),
        Err(LdifError::NoMemory) => Err(SearchError::NoMemory),
    }
}

/// Copies of entries that were found.
fn copied(alloc: Global, entries: &[FoundEntry]) -> Result<Vec<SearchResultEntry>, AllocError>
    ensures { IfOk result (λ v. map entry_view v.items ≡ map found_view entries.now) }
{
    let mut copies = Vec::with_capacity(alloc, entries.len())?;
    for entry in entries {
        copies.push(entry.copied(alloc)?)?;
    }
    Ok(copies)
}

/// The text of what a search shows.
fn text_of_answer(
    alloc: Global,
    store: &Store,
    request: &SearchRequest,
) -> Result<Vec<u8>, SearchError>
    ensures written { IfOk result (λ v. IsShown (answer_of store.now.directory (search_view request.now)) v.items) }
    ensures refused { IfErr result (λ e. IsShowFault e (answer_of store.now.directory (search_view request.now))) }
{
    let answer = search(alloc, &store.reading(), request)?;
    let number = answer.code.number();
    if number != 0 {
        return Err(SearchError::Code { number });
    }
    let entries = copied(alloc, &answer.entries)?;
    let records = records_of(alloc, &entries)?;
    Ok(write(alloc, &records)?)
}

/// What is written of a search (RFC 4511 4.5) of the directory after the adds of a text's records (RFC 2849), which
/// take the numbers from 1 on: the entries that it shows, as a text of LDIF.
pub fn search_text(
    alloc: Global,
    store: Store,
    text: &[u8],
    request: &SearchRequest,
) -> Result<Vec<u8>, SearchError>
    requires empty { NumbersBelow 1 store.directory.entries }
    // What is written is the entries of the answer, over the directory with all records.
    ensures written { IfOk result (λ v. IsSearched store.directory text.now (search_view request.now) v.items) }
    // Which refusal it is: of a line, else of the first record that is refused, else of the search.
    ensures refused { IfErr result (λ e. IsSearchFault e store.directory text.now (search_view request.now)) }
{
    let mut store = store;
    let records = read_records(alloc, text)?;
    add_records(alloc, &mut store, &records)?;
    text_of_answer(alloc, &store, request)
}

/// A directory without entries with the records of a text (RFC 2849), which take the numbers from 1 on; or the first
/// line that is no LDIF, else the first record that is refused.
pub fn fill(alloc: Global, store: Store, text: &[u8]) -> Result<Store, SearchError>
    requires empty { NumbersBelow 1 store.directory.entries }
    ensures filled { IfOk result (λ s. IsFilled store text.now s) }
    ensures refused { IfErr result (λ e. IsFillFault e store.directory text.now) }
{
    let mut store = store;
    let records = read_records(alloc, text)?;
    add_records(alloc, &mut store, &records)?;
    Ok(store)
}

/// What a search costs.
#[derive(Clone, Copy, Debug, PartialEq, Eq)]
pub struct Cost {
    /// How many entries it shows.
    pub shown: usize,
    /// On how many entries its filter is evaluated.
    pub tests: usize,
}

/// What a search (RFC 4511 4.5) of a directory costs, or the code other than success that it is answered with.
pub fn search_cost(
    alloc: Global,
    store: &Store,
    request: &SearchRequest,
) -> Result<Cost, SearchError>
    ensures success { OnOk result ((answer_of store.now.directory (search_view request.now)).code ≡ 0) }
    ensures shown { IfOk result
        (λ c. c.shown ≡ length (answer_of store.now.directory (search_view request.now)).entries) }
    ensures tests { IfOk result (λ c. IsCountOf store.now (search_view request.now) c.tests) }
    ensures refused { IfErr result (λ e. IsShowFault e (answer_of store.now.directory (search_view request.now))) }
{
    let answer = search(alloc, &store.reading(), request)?;
    let number = answer.code.number();
    if number != 0 {
        return Err(SearchError::Code { number });
    }
    Ok(Cost {
        shown: answer.entries.len(),
        tests: answer.tests,
    })
}
