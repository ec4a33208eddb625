// Lines that ask a search. How a search is written isn't here.

ghost use Rattle.std.specs.Prelude.{◌≡◌, IfOk, IsErrOf};
ghost use Rattle.dir_lab.specs.dir_search.ldap_msg.Messages.{SearchRequestValue};
ghost use Rattle.dir_lab.specs.dir_search.ldap_msg.View.{search_view};
ghost use Rattle.lab_script.specs.Events.{EventValue, event_view};
ghost use Rattle.lab_script.specs.Lines.{IsSearch, IsSearchOf};
ghost use Rattle.lab_script.specs.Searches.{IsSearchText};

use crate::cutting::search_parts;
use crate::fault::LineError;
use crate::search_texts::read_search;
use crate::text_fault::TextError;
use dir_lab::{LabEvent, SearchRequest};
use std::alloc::Global;

/// The search that a text writes.
fn search_text(alloc: Global, text: &[u8]) -> Result<SearchRequest, LineError>
    ensures found { IfOk result (λ q. IsSearchText text.now (search_view q)) }
    ensures bad { IsErrOf result LineError.BadLine → (q : SearchRequestValue) → IsSearchText text.now q → ⊥ }
{
    match read_search(alloc, text) {
        Ok(request) => Ok(request),
        Err(TextError::BadText) => Err(LineError::BadLine),
        Err(TextError::NoMemory) => Err(LineError::NoMemory),
    }
}

/// The search of these numbers and this text.
fn search_of(alloc: Global, replica: u64, named: u64, text: &[u8]) -> Result<LabEvent, LineError>
    ensures found { IfOk result (λ e. IsSearchOf (record { replica = replica; named = named; text = text.now })
        (event_view e)) }
    ensures bad { IsErrOf result LineError.BadLine → (e : EventValue) →
        IsSearchOf (record { replica = replica; named = named; text = text.now }) e → ⊥ }
{
    match search_text(alloc, text) {
        Ok(request) => Ok(LabEvent::Search {
            replica,
            named,
            request,
        }),
        Err(error) => Err(error),
    }
}

/// The event of a search, behind its word.
pub fn search_in(alloc: Global, rest: &[u8]) -> Result<LabEvent, LineError>
    ensures found { IfOk result (λ e. IsSearch rest.now (event_view e)) }
    ensures bad { IsErrOf result LineError.BadLine → (e : EventValue) → IsSearch rest.now e → ⊥ }
{
    match search_parts(rest) {
        Some(parts) => search_of(alloc, parts.replica, parts.named, parts.text),
        None => Err(LineError::BadLine),
    }
}
