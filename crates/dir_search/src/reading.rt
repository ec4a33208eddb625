// Reads of one state of a directory, as whoever holds a store answers them.
ghost use Rattle.indexed_tree.specs.directory_api.ldap_msg.View.{search_view, compare_view};
ghost use Rattle.dir_search.specs.Answer.{answer};
ghost use Rattle.dir_search.specs.Compared.{compared};
ghost use Rattle.indexed_tree.specs.directory_api.Reading.{IsReadAt};
ghost use Rattle.indexed_tree.specs.directory_api.Talk.{looked};
ghost use Rattle.indexed_tree.specs.directory_api.View.{reply_view, answer_view};

use crate::comparing::compare;
use crate::searching::search;
use indexed_tree::{CompareRequest, Found, LookError, Reading, Reply, SearchAnswer, SearchRequest};
use std::alloc::Global;

/// A search of a directory that is at this number, no older than one that is named.
pub fn search_at(
    alloc: Global,
    store: &Reading<'_>,
    number: u64,
    named: u64,
    request: &SearchRequest,
) -> Result<Found<SearchAnswer>, LookError>
    ensures { IsReadAt number named (answer store.now.directory (search_view request.now)) (looked answer_view result) }
{
    if named > number {
        return Err(LookError::NotYet { at: number });
    }
    match search(alloc, store, request) {
        Ok(answer) => Ok(Found { at: number, answer }),
        Err(_) => Err(LookError::NoMemory),
    }
}

/// A compare in a directory that is at this number, no older than one that is named.
pub fn compare_at(
    alloc: Global,
    store: &Reading<'_>,
    number: u64,
    named: u64,
    request: &CompareRequest,
) -> Result<Found<Reply>, LookError>
    ensures { IsReadAt number named (compared store.now.directory (compare_view request.now))
        (looked reply_view result) }
{
    if named > number {
        return Err(LookError::NotYet { at: number });
    }
    match compare(alloc, store, request) {
        Ok(answer) => Ok(Found { at: number, answer }),
        Err(_) => Err(LookError::NoMemory),
    }
}
