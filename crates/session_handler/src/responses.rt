//! Writes the responses to a request, one behind the other.
ghost use Rattle.std.specs.Prelude.{◌≡◌, ◌≤◌, ◌^◌, ◌++◌, ◌∷◌, [], map, length, None, Ok, IfOk, OnOk, IsErrOf};
ghost use Rattle.request_checks.specs.ldap_msg.View.{response_view, result_view};
ghost use Rattle.request_checks.specs.ldap_msg.Written.{message_bytes, message_content};
ghost use Rattle.request_checks.specs.ldap_msg.Messages.{search_entry};
ghost use Rattle.request_checks.specs.Messages.{message, number_told, entry_messages, HasTooLong};
ghost use Rattle.directory_api.specs.FoundView.{found_view};
ghost use Rattle.request_checks.specs.Requests.{response_to};
ghost use Rattle.directory_api.specs.View.{reply_view, answer_view};
ghost use Rattle.directory_api.specs.Talk.{looked};
ghost use Rattle.session_handler.specs.Responses.{result_of, code_message, reply_message, search_messages, compare_messages, notice};
ghost use Rattle.session_handler.specs.Taken.{AreSaid};

use crate::answered::{Answered, Next};
use crate::rows::Responses;
use directory_api::{Found, FoundEntry, LookError, Reply, SearchAnswer, read_ahead};
use request_checks::{
    AnswerError, Answering, EncodeError, ExtendedResponse, LdapResult, Response, ResultCode,
    response_to, write_numbered, write_plain,
};
use smallvec::SmallVec;
use std::alloc::{AllocError, Global};

/// responseName of the Notice of Disconnection (RFC 4511 4.4.1).
const NOTICE_OF_DISCONNECTION: &str = "1.3.6.1.4.1.1466.20036";

/// A result with a reply's code and matchedDN, and nothing else.
pub fn result_of(alloc: Global, given: Reply) -> LdapResult
    ensures { result_view result ≡ result_of (reply_view given) }
{
    let Reply { code, matched } = given;
    LdapResult {
        code,
        matched_dn: matched,
        diagnostic_message: String::new(alloc),
        referral: Vec::new(alloc),
    }
}

/// A reply in a response of this kind.
pub fn reply_to(alloc: Global, answering: Answering, reply: Reply) -> Response
    ensures { response_view result ≡ response_to answering (result_of (reply_view reply)) None }
{
    response_to(answering, result_of(alloc, reply), None)
}

/// No response.
pub fn silence(alloc: Global, next: Next) -> Result<Answered, AnswerError>
    ensures { AreSaid [] next result }
{
    Ok(Answered {
        responses: Responses::none(alloc),
        next,
    })
}

/// One response, after which the session goes on.
fn one_answer(alloc: Global, octets: Vec<u8>) -> Result<Answered, AllocError>
    ensures responses { IfOk result (λ a. a.responses ≡ octets.items ∷ []) }
    ensures next { IfOk result (λ a. a.next ≡ Next.GoesOn) }
{
    Ok(Answered {
        responses: Responses::one(alloc, octets)?,
        next: Next::GoesOn,
    })
}

/// One response without controls, after which the session goes on.
pub fn say(alloc: Global, id: u32, response: Response) -> Result<Answered, AnswerError>
    ensures { AreSaid (message id (response_view response) [] ∷ []) Next.GoesOn result }
{
    let octets = write_plain(alloc, id, response)?;
    Ok(one_answer(alloc, octets)?)
}

/// One response with a number, where the request named one, after which the session goes on.
pub fn say_numbered(
    alloc: Global,
    id: u32,
    response: Response,
    asked: Option<u64>,
    number: u64,
) -> Result<Answered, AnswerError>
    ensures { AreSaid (message id (response_view response) (number_told asked number) ∷ []) Next.GoesOn result }
{
    let octets = write_numbered(alloc, id, response, asked, number)?;
    Ok(one_answer(alloc, octets)?)
}

/// A code alone, in a response of this kind.
pub fn say_code(
    alloc: Global,
    id: u32,
    answering: Answering,
    code: ResultCode,
) -> Result<Answered, AnswerError>
    ensures { AreSaid (code_message id answering code ∷ []) Next.GoesOn result }
{
    say(
        alloc,
        id,
        reply_to(alloc, answering, Reply::only(alloc, code)),
    )
}

/// A reply in a response of this kind, with a number where the request named one.
fn say_reply(
    alloc: Global,
    id: u32,
    answering: Answering,
    asked: Option<u64>,
    number: u64,
    reply: Reply,
) -> Result<Answered, AnswerError>
    ensures { AreSaid (reply_message id answering asked number (reply_view reply) ∷ []) Next.GoesOn result }
{
    say_numbered(alloc, id, reply_to(alloc, answering, reply), asked, number)
}

/// The Notice of Disconnection, as the last word.
pub fn disconnect(alloc: Global) -> Result<Answered, AnswerError>
    ensures { AreSaid (notice ∷ []) Next.Disconnected result }
{
    let response_name = String::from_str(alloc, NOTICE_OF_DISCONNECTION)?;
    let notice = ExtendedResponse {
        result: result_of(alloc, Reply::only(alloc, ResultCode::PROTOCOL_ERROR)),
        response_name: Some(response_name),
        response_value: None,
    };
    let octets = write_plain(alloc, 0, Response::Extended(notice))?;
    Ok(Answered {
        responses: Responses::one(alloc, octets)?,
        next: Next::Disconnected,
    })
}

/// Responses, and a last one with a number, where the request named one, after which the session goes on.
fn with_last(
    alloc: Global,
    responses: Responses,
    id: u32,
    last: Response,
    asked: Option<u64>,
    number: u64,
) -> Result<Answered, AnswerError>
    ensures written { IfOk result (λ a. a.responses
        ≡ responses ++ message_bytes (message id (response_view last) (number_told asked number)) ∷ []) }
    ensures next { IfOk result (λ a. a.next ≡ Next.GoesOn) }
    ensures too_long { IsErrOf result AnswerError.TooLong
        → 2 ^ 32 ≤ length (message_content (message id (response_view last) (number_told asked number))) }
{
    let octets = write_numbered(alloc, id, last, asked, number)?;
    Ok(Answered {
        responses: responses.and(&octets)?,
        next: Next::GoesOn,
    })
}

/// Writes the response that shows an entry, from the entry itself, behind what is there.
fn put_found(
    alloc: Global,
    id: u32,
    entry: &FoundEntry,
    octets: &mut Vec<u8>,
) -> Result<(), AnswerError>
    ensures ok { OnOk result (octets.new.items ≡ octets.old.items ++ message_bytes
        (message id (search_entry (found_view entry.now)) [])) }
    ensures too_long { IsErrOf result AnswerError.TooLong →
        2 ^ 32 ≤ length (message_content (message id (search_entry (found_view entry.now)) [])) }
{
    entry.put(alloc, id, octets).map_err(|error| match error {
        EncodeError::TooLong => AnswerError::TooLong,
        EncodeError::NoMemory => AnswerError::NoMemory,
    })
}

/// So many octets a response to a search are reserved ahead.
const ROOM: usize = 256;

/// So many octets are reserved ahead at most.
const MOST_ROOM: usize = 1_048_576;

/// Room for the responses to a search that shows so many entries; more is made as they are written.
fn room_for(alloc: Global, entries: usize) -> Result<Vec<u8>, AllocError>
    ensures { IfOk result (λ v. v.items ≡ []) }
{
    let room = entries.saturating_add(1).saturating_mul(ROOM);
    Vec::with_capacity(alloc, room.min(MOST_ROOM))
}

/// So many entries are read ahead together.
const TOGETHER: usize = 8;

/// Reads entries from a place on ahead, since they are written next.
fn read_some(entries: &[FoundEntry], from: usize) -> u64 {
    let end = from.saturating_add(TOGETHER).min(entries.len());
    if from > end {
        return 0;
    }
    read_ahead(&entries[from..end])
}

/// The response of each entry, written, in order.
fn entry_responses(
    alloc: Global,
    id: u32,
    entries: Vec<FoundEntry>,
) -> Result<Responses, AnswerError>
    ensures ok { IfOk result (λ r. r ≡ map message_bytes (entry_messages id (map found_view entries.items))) }
    ensures too_long { IsErrOf result AnswerError.TooLong →
        HasTooLong (entry_messages id (map found_view entries.items)) }
{
    let mut octets = room_for(alloc, entries.len())?;
    let mut lengths = SmallVec::with_capacity(alloc, entries.len().saturating_add(1))?;
    let mut read = 0u64;
    let mut at = 0usize;
    for entry in &entries {
        if at % TOGETHER == 0 {
            read = read.wrapping_add(read_some(&entries, at));
        }
        at = at.saturating_add(1);
        let before = octets.len();
        put_found(alloc, id, entry, &mut octets)?;
        lengths.push(octets.len().saturating_sub(before))?;
    }
    // What was read ahead says nothing; by this use the compiler keeps the reads.
    if read == u64::MAX {
        octets.reserve(1)?;
    }
    Ok(Responses::of(octets, lengths))
}

/// What a search found: its entries, and then the done message.
fn say_found(
    alloc: Global,
    id: u32,
    asked: Option<u64>,
    found: Found<SearchAnswer>,
) -> Result<Answered, AnswerError>
    ensures { AreSaid (search_messages id asked (looked answer_view (Ok found))) Next.GoesOn result }
{
    let Found { at, answer } = found;
    let SearchAnswer {
        code,
        matched,
        entries,
        ..
    } = answer;
    let responses = entry_responses(alloc, id, entries)?;
    let done = reply_to(alloc, Answering::Search, Reply { code, matched });
    with_last(alloc, responses, id, done, asked, at)
}

/// What a search came to.
pub fn say_search(
    alloc: Global,
    id: u32,
    asked: Option<u64>,
    outcome: Result<Found<SearchAnswer>, LookError>,
) -> Result<Answered, AnswerError>
    ensures { AreSaid (search_messages id asked (looked answer_view outcome)) Next.GoesOn result }
{
    match outcome {
        Ok(found) => say_found(alloc, id, asked, found),
        Err(LookError::NotYet { at }) => {
            let busy = Reply::only(alloc, ResultCode::BUSY);
            say_reply(alloc, id, Answering::Search, asked, at, busy)
        }
        Err(LookError::Gone) => say_code(alloc, id, Answering::Search, ResultCode::UNAVAILABLE),
        Err(LookError::NoMemory) => say_code(alloc, id, Answering::Search, ResultCode::OTHER),
    }
}

/// What a compare came to.
pub fn say_compare(
    alloc: Global,
    id: u32,
    asked: Option<u64>,
    outcome: Result<Found<Reply>, LookError>,
) -> Result<Answered, AnswerError>
    ensures { AreSaid (compare_messages id asked (looked reply_view outcome)) Next.GoesOn result }
{
    match outcome {
        Ok(found) => {
            let Found { at, answer } = found;
            say_reply(alloc, id, Answering::Compare, asked, at, answer)
        }
        Err(LookError::NotYet { at }) => {
            let busy = Reply::only(alloc, ResultCode::BUSY);
            say_reply(alloc, id, Answering::Compare, asked, at, busy)
        }
        Err(LookError::Gone) => say_code(alloc, id, Answering::Compare, ResultCode::UNAVAILABLE),
        Err(LookError::NoMemory) => say_code(alloc, id, Answering::Compare, ResultCode::OTHER),
    }
}
