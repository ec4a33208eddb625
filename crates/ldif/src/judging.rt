//! Judges messages as the responses to a search.

ghost use Rattle.std.specs.Prelude.{◌≡◌, ◌≢◌, map, IfOk};
ghost use Rattle.std.specs.List.{list_all};
ghost use Rattle.ldap_msg.specs.View.{operation_view, response_view, entry_view};
ghost use Rattle.ldif.specs.Entries.{record_of as record_of_entry};
ghost use Rattle.ldif.specs.Exports as exports;
ghost use Rattle.ldif.specs.Exports.{Means, AllMean};

use crate::describing::is_type;
use crate::meant::Meant;
use crate::record::{AttributeValue, Record};
use crate::showing::record_of;
use ldap_msg::{MsgFault, ProtocolOp, Response, SearchResultEntry, decode};
use std::alloc::{AllocError, Global};

/// Whether the type of each line may stand in LDIF.
fn are_writable(values: &[AttributeValue]) -> bool
    ensures { result ≡ list_all exports.is_writable values.now }
{
    for value in values {
        if !is_type(value.description().as_bytes()) {
            return false;
        }
    }
    true
}

/// What an entry means.
fn meant_by_entry(alloc: Global, entry: &SearchResultEntry) -> Result<Meant, AllocError>
    ensures { IfOk result (λ m. m ≡ exports.if_writable (record_of_entry (entry_view entry.now))) }
{
    let item = record_of(alloc, entry)?;
    if are_writable(item.values()) {
        Ok(Meant::Entry(item))
    } else {
        Ok(Meant::Other)
    }
}

/// What a response means.
fn meant_by_response(alloc: Global, response: &Response) -> Result<Meant, AllocError>
    ensures { IfOk result (λ m. m ≡ exports.meant_by_response (response_view response.now)) }
{
    match response {
        Response::SearchEntry(entry) => meant_by_entry(alloc, entry),
        Response::SearchDone(result) => Ok(Meant::Done(result.code.number())),
        Response::Bind(_) => Ok(Meant::Other),
        Response::Modify(_) => Ok(Meant::Other),
        Response::Add(_) => Ok(Meant::Other),
        Response::Delete(_) => Ok(Meant::Other),
        Response::ModifyDn(_) => Ok(Meant::Other),
        Response::Compare(_) => Ok(Meant::Other),
        Response::Extended(_) => Ok(Meant::Other),
    }
}

/// What an operation means.
fn meant_by(alloc: Global, op: &ProtocolOp) -> Result<Meant, AllocError>
    ensures { IfOk result (λ m. m ≡ exports.meant_by (operation_view op.now)) }
{
    match op {
        ProtocolOp::Request(_) => Ok(Meant::Other),
        ProtocolOp::Response(response) => meant_by_response(alloc, response),
    }
}

/// What octets mean that are no message, by what is wrong with them.
fn meant_by_none(fault: MsgFault) -> Result<Meant, AllocError>
    ensures { IfOk result (λ m. (m ≡ Meant.Other) × (fault ≢ MsgFault.NoMemory)) }
{
    match fault {
        MsgFault::NoMemory => Err(AllocError),
        MsgFault::TooLarge | MsgFault::NotAMessage | MsgFault::TooDeep | MsgFault::TooManyItems =>
            Ok(Meant::Other),
    }
}

/// What octets mean.
fn meant(alloc: Global, octets: &[u8]) -> Result<Meant, AllocError>
    ensures { IfOk result (λ m. Means octets.now m) }
{
    match decode(alloc, octets) {
        Ok(message) => meant_by(alloc, &message.op),
        Err(fault) => meant_by_none(fault),
    }
}

/// What messages mean, each at its place.
pub fn meant_by_all(alloc: Global, messages: &[Vec<u8>]) -> Result<Vec<Meant>, AllocError>
    ensures { IfOk result (λ v. AllMean (map (λ x. x.items) messages.now) v.items) }
{
    let mut all = Vec::new(alloc);
    for octets in messages {
        all.push(meant(alloc, octets)?)?;
    }
    Ok(all)
}
