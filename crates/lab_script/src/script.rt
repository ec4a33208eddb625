// Lines of lab scripts. What an event does isn't here.
ghost use Rattle.std.specs.Prelude.{◌≡◌, List, [], ◌∷◌, map, IfOk, IsErrOf, MatchOption};
ghost use Rattle.lab_script.specs.Events.{EventValue, event_view, happens};
ghost use Rattle.lab_script.specs.Lines.{IsLine, IsOne, IsRequest, IsSearch, deliveries_of, delivery_of, events_by_words, events_of, first_line, replicas_of, resumes};
ghost use Rattle.lab_script.specs.Words.{tokens_of, words_of};

use crate::cutting::{LineKind, kind_of};
use crate::fault::LineError;
use crate::requests::request_in;
use crate::searches::search_in;
use crate::token::{Token, token_of, words_of};
use dir_lab::{LabEvent, Op, WorldEvent};
use request_checks::GREATEST_NUMBER;
use std::alloc::{AllocError, Global};

/// How many replicas the first line names.
pub fn read_first(alloc: Global, line: &[u8]) -> Result<u64, LineError>
    ensures found { IfOk result (λ count. Some count ≡ first_line line.now) }
    ensures bad { IsErrOf result LineError.BadLine → first_line line.now ≡ None }
{
    let tokens = read_tokens(alloc, line)?;
    replicas_of(&tokens)
}

/// The events that any other line names.
pub fn read_line(alloc: Global, line: &[u8]) -> Result<Vec<LabEvent>, LineError>
    ensures found { IfOk result (λ events. IsLine line.now (map event_view events.items)) }
    ensures bad { IsErrOf result LineError.BadLine → (es : List EventValue) → IsLine line.now es → ⊥ }
{
    match kind_of(line) {
        LineKind::Request(rest) => read_request(alloc, rest),
        LineKind::Search(rest) => read_search_line(alloc, rest),
        LineKind::Plain => read_words(alloc, line),
    }
}

/// The events of a request, behind its word.
fn read_request(alloc: Global, rest: &[u8]) -> Result<Vec<LabEvent>, LineError>
    ensures found { IfOk result (λ events. IsOne (IsRequest rest.now) (map event_view events.items)) }
    ensures bad { IsErrOf result LineError.BadLine → (es : List EventValue) → IsOne (IsRequest rest.now) es → ⊥ }
{
    match request_in(alloc, rest) {
        Ok(event) => Ok(alone(alloc, event)?),
        Err(error) => Err(error),
    }
}

/// The events of a search, behind its word.
fn read_search_line(alloc: Global, rest: &[u8]) -> Result<Vec<LabEvent>, LineError>
    ensures found { IfOk result (λ events. IsOne (IsSearch rest.now) (map event_view events.items)) }
    ensures bad { IsErrOf result LineError.BadLine → (es : List EventValue) → IsOne (IsSearch rest.now) es → ⊥ }
{
    match search_in(alloc, rest) {
        Ok(event) => Ok(alone(alloc, event)?),
        Err(error) => Err(error),
    }
}

/// One event alone.
fn alone(alloc: Global, event: LabEvent) -> Result<Vec<LabEvent>, AllocError>
    ensures { IfOk result (λ events. map event_view events.items ≡ event_view event ∷ []) }
{
    let mut events = Vec::new(alloc);
    events.push(event)?;
    Ok(events)
}

/// The events of words between single spaces.
fn read_words(alloc: Global, line: &[u8]) -> Result<Vec<LabEvent>, LineError>
    ensures found { IfOk result (λ events. events_by_words line.now ≡ Some (map event_view events.items)) }
    ensures bad { IsErrOf result LineError.BadLine → events_by_words line.now ≡ None }
{
    let tokens = read_tokens(alloc, line)?;
    events_of(alloc, &tokens)
}

#[tactic(auto, using(crate::proofs::Each::word_more, crate::proofs::Each::word_none, crate::proofs::OneByOne::all_read))]
/// The words and numbers of a line.
fn read_tokens(alloc: Global, line: &[u8]) -> Result<Vec<Token>, LineError>
    ensures found { IfOk result (λ tokens. Some tokens.items ≡ tokens_of (words_of line.now)) }
    ensures bad { IsErrOf result LineError.BadLine → tokens_of (words_of line.now) ≡ None }
{
    let words = words_of(alloc, line)?;
    let mut tokens = Vec::new(alloc);
    for word in &words {
        match token_of(word) {
            Some(token) => tokens.push(token)?,
            None => return Err(LineError::BadLine),
        }
    }
    Ok(tokens)
}

/// How many replicas these words name: 3, 5 or 7.
fn replicas_of(tokens: &[Token]) -> Result<u64, LineError>
    ensures found { IfOk result (λ count. Some count ≡ replicas_of tokens.now) }
    ensures bad { IsErrOf result LineError.BadLine → replicas_of tokens.now ≡ None }
{
    match tokens {
        [Token::Replicas, Token::Number { value }] if matches!(*value, 3 | 5 | 7) => Ok(*value),
        _ => Err(LineError::BadLine),
    }
}

/// The events that these words name.
fn events_of(alloc: Global, tokens: &[Token]) -> Result<Vec<LabEvent>, LineError>
    ensures found { IfOk result (λ events. events_of tokens.now ≡ Some (map event_view events.items)) }
    ensures bad { IsErrOf result LineError.BadLine → events_of tokens.now ≡ None }
{
    let event = match tokens {
        [Token::Deliver, numbers @ ..] => return deliveries_of(alloc, numbers),
        [Token::Suspect, Token::Number { value }] => happens(WorldEvent::Suspect {
            replica: *value,
        }),
        [Token::Beat, Token::Number { value }] => happens(WorldEvent::Beat { replica: *value }),
        [Token::Crash, Token::Number { value }] => happens(WorldEvent::Crash { replica: *value }),
        [
            Token::Recover,
            Token::Number { value: replica },
            Token::Number { value: nonce },
        ] => happens(WorldEvent::Recover {
            replica: *replica,
            nonce: *nonce,
        }),
        // All is committed: no log is as long.
        [Token::Resume, Token::Number { value }] => resume(*value, GREATEST_NUMBER),
        [
            Token::Resume,
            Token::Number { value: replica },
            Token::Number {
                value: commit_number,
            },
        ] => resume(*replica, *commit_number),
        [Token::State, Token::Number { value }] => LabEvent::State { replica: *value },
        _ => return Err(LineError::BadLine),
    };
    let events = alone(alloc, event)?;
    Ok(events)
}

/// A replica goes on from its journal, with at most so many updates committed.
fn resume(replica: u64, commit_number: u64) -> LabEvent
    ensures { event_view result ≡ resumes replica commit_number }
{
    happens(WorldEvent::Resume {
        replica,
        commit_number,
    })
}

/// Something happens.
fn happens(event: WorldEvent<Op>) -> LabEvent
    ensures { event_view result ≡ happens event }
{
    LabEvent::Happens { event }
}

#[tactic(auto, using(crate::proofs::Each::delivery_more, crate::proofs::Each::delivery_none, crate::proofs::Each::deliveries_read))]
/// The messages whose numbers these are, one at least.
fn deliveries_of(alloc: Global, tokens: &[Token]) -> Result<Vec<LabEvent>, LineError>
    ensures found { IfOk result (λ events. deliveries_of tokens.now ≡ Some (map event_view events.items)) }
    ensures bad { IsErrOf result LineError.BadLine → deliveries_of tokens.now ≡ None }
{
    if tokens.is_empty() {
        return Err(LineError::BadLine);
    }
    let mut events = Vec::new(alloc);
    for token in tokens {
        match delivery_of(*token) {
            Some(event) => events.push(event)?,
            None => return Err(LineError::BadLine),
        }
    }
    Ok(events)
}

/// The message with this number comes.
fn delivery_of(token: Token) -> Option<LabEvent>
    ensures { MatchOption result (delivery_of token ≡ None) (λ e. delivery_of token ≡ Some (event_view e)) }
{
    match token {
        Token::Number { value } => Some(happens(WorldEvent::Deliver { which: value })),
        _ => None,
    }
}
