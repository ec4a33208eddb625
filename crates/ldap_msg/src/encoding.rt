//! Writes a message's one spelling, each octet of an entry once.

ghost use Rattle.std.specs.Prelude.{◌≡◌, ◌%◌, ◌^◌, ◌<◌, ◌≤◌, ◌++◌, ◌∷◌, ◌⊎◌, [], ℕ, List, drop, length, map, min, IfOk, IfErr, IsErrOf, OnOk, OnErr};
ghost use Rattle.ldap_requests.specs.ldap_ber.Element.{length_octets, element_bytes};
ghost use Rattle.ldap_requests.specs.ldap_ber.Written.{number_bytes};
ghost use Rattle.ldap_parts.specs.ResponsesWritten.{entry_content};
ghost use Rattle.ldap_msg.specs.Messages.{MessageValue, response, search_entry};
ghost use Rattle.ldap_msg.specs.View.{entry_view, operation_view, view};
ghost use Rattle.ldap_msg.specs.Grammar.{operation_octet, IsMessage};
ghost use Rattle.ldap_msg.specs.Written.{operation_content, operation_bytes, message_content, message_bytes, IsInRange};
ghost use Rattle.ldap_msg.specs.private.Written.{enveloped};

use crate::encoding_request::{request_content, request_octet};
use crate::encoding_response::{response_content, response_octet};
use crate::message::{Message, ProtocolOp, Response};
use ldap_parts::{
    AttributeParts, SearchResultEntry, add_lengths, element_length, entry_length, number_length,
    put_controls, put_entry, write_head,
};
use ldap_requests::{WriteError, put_number};
use std::alloc::Global;

/// The greatest length that a message's content may have: four octets say no greater one, and `write_head` writes none.
const MAX_CONTENT: usize = 0xffff_ffff;

/// The content of an operation's element.
fn operation_content(alloc: Global, op: &ProtocolOp) -> Result<Vec<u8>, WriteError>
    ensures ok { IfOk result (λ v. v.items ≡ operation_content (operation_view op.now)) }
    ensures too_long { IsErrOf result WriteError.TooLong
        → 2 ^ 32 ≤ length (operation_content (operation_view op.now)) }
{
    match op {
        ProtocolOp::Request(request) => request_content(alloc, request),
        ProtocolOp::Response(response) => response_content(alloc, response),
    }
}

/// The first octet of an operation's element.
fn operation_octet(op: &ProtocolOp) -> u8
    ensures octet { result ≡ operation_octet (operation_view op.now) }
    ensures low_tag { result % 32 < 31 }
{
    match op {
        ProtocolOp::Request(request) => request_octet(request),
        ProtocolOp::Response(response) => response_octet(response),
    }
}

/// How many octets the content of a message takes, by the lengths of its operation's content and of
/// its controls; 2^32 where there are more.
fn message_length(id: u32, content: usize, controls: usize) -> usize
    ensures { (first : ℕ) (octets ending : List ℕ)
        → min content (2 ^ 32) ≡ min (length octets) (2 ^ 32) → controls ≡ length ending
        → result ≡ min (length (enveloped id (element_bytes first octets) ending)) (2 ^ 32) }
{
    add_lengths(
        add_lengths(number_length(id), element_length(content)),
        controls,
    )
}

/// Reserves room for an element whose content has this length.
fn reserve(content: usize, out: &mut Vec<u8>) -> Result<(), WriteError>
    ensures kept { out.new.items ≡ out.old.items }
    ensures too_long { IsErrOf result WriteError.TooLong → 2 ^ 32 ≤ content }
{
    if content > MAX_CONTENT {
        return Err(WriteError::TooLong);
    }
    match out.reserve(element_length(content)) {
        Ok(()) => Ok(()),
        Err(_) => Err(WriteError::NoMemory),
    }
}

/// Reserves room for a message whose content has the length `total`, and writes all that stands before
/// the operation's content.
fn begin(
    id: u32,
    first: u8,
    content: usize,
    total: usize,
    out: &mut Vec<u8>,
) -> Result<(), WriteError>
    requires { first % 32 < 31 }
    ensures ok { OnOk result (out.new.items ≡ out.old.items
        ++ ((48 ∷ length_octets total) ++ number_bytes 2 id ++ (first ∷ length_octets content))) }
    ensures total_fits { OnOk result (total < 2 ^ 32) }
    ensures content_fits { OnOk result (content < 2 ^ 32) }
    ensures too_long { IsErrOf result WriteError.TooLong → (2 ^ 32 ≤ content) ⊎ (2 ^ 32 ≤ total) }
    ensures kept { out.new.items ≡ out.old.items ++ drop (length out.old.items) out.new.items }
{
    reserve(total, out)?;
    write_head(0x30, total, out)?;
    put_number(0x02, id, out)?;
    write_head(first, content, out)?;
    Ok(())
}

/// Writes octets that are spelled already.
fn put_octets(octets: &[u8], out: &mut Vec<u8>) -> Result<(), WriteError>
    ensures ok { OnOk result (out.new.items ≡ out.old.items ++ octets.now) }
    ensures no_memory { IfErr result (λ e. e ≡ WriteError.NoMemory) }
    ensures err { OnErr result (out.new.items ≡ out.old.items) }
{
    match out.extend_from_slice(octets) {
        Ok(()) => Ok(()),
        Err(_) => Err(WriteError::NoMemory),
    }
}

/// Writes a message that shows an entry of this name with these attributes, its controls spelled
/// already: lengths first, then each octet to its place.
fn put_entry_message<A: AttributeParts>(
    alloc: Global,
    id: u32,
    object_name: &str,
    attributes: &[A],
    controls: &[u8],
    out: &mut Vec<u8>,
) -> Result<(), WriteError>
    ensures ok { OnOk result (out.new.items ≡ out.old.items ++ element_bytes 48
        (enveloped id (element_bytes 100 (entry_content (record {
          object_name = object_name.now;
          attributes = map A.attribute attributes.now;
        }))) controls.now)) }
    ensures fits { OnOk result (length
        (enveloped id (element_bytes 100 (entry_content (record {
          object_name = object_name.now;
          attributes = map A.attribute attributes.now;
        }))) controls.now) < 2 ^ 32) }
    ensures too_long { IsErrOf result WriteError.TooLong → 2 ^ 32 ≤ length
        (enveloped id (element_bytes 100 (entry_content (record {
          object_name = object_name.now;
          attributes = map A.attribute attributes.now;
        }))) controls.now) }
    ensures kept { out.new.items ≡ out.old.items ++ drop (length out.old.items) out.new.items }
{
    let content = entry_length(object_name, attributes);
    let total = message_length(id, content, controls.len());
    begin(id, 0x64, content, total, out)?;
    put_entry(alloc, object_name, attributes, out)?;
    put_octets(controls, out)?;
    Ok(())
}

/// Writes a message without controls that shows an entry of this name with these attributes, each octet
/// of these once, behind what is there, which stays whatever comes. E3 as `encode` has it.
pub fn put_search_entry<A: AttributeParts>(
    alloc: Global,
    id: u32,
    object_name: &str,
    attributes: &[A],
    out: &mut Vec<u8>,
) -> Result<(), WriteError>
    ensures ok { OnOk result (out.new.items ≡ out.old.items ++ message_bytes (record {
      id = id;
      op = response
          (search_entry (record { object_name = object_name.now; attributes = map A.attribute attributes.now }));
      controls = [];
    })) }
    ensures fits { OnOk result (length (message_content (record {
      id = id;
      op = response
          (search_entry (record { object_name = object_name.now; attributes = map A.attribute attributes.now }));
      controls = [];
    })) < 2 ^ 32) }
    ensures too_long { IsErrOf result WriteError.TooLong → 2 ^ 32 ≤ length (message_content (record {
      id = id;
      op = response (search_entry (record {
        object_name = object_name.now;
        attributes = map A.attribute attributes.now;
      }));
      controls = [];
    })) }
    ensures kept { out.new.items ≡ out.old.items ++ drop (length out.old.items) out.new.items }
{
    put_entry_message(alloc, id, object_name, attributes, &[], out)
}

/// A message whose operation's content and controls are spelled already.
fn encode_content(
    alloc: Global,
    id: u32,
    first: u8,
    content: &[u8],
    controls: &[u8],
) -> Result<Vec<u8>, WriteError>
    requires { first % 32 < 31 }
    ensures ok { IfOk result (λ v. v.items ≡ element_bytes 48
        (enveloped id (element_bytes first content.now) controls.now)) }
    ensures fits { OnOk result (length
        (enveloped id (element_bytes first content.now) controls.now) < 2 ^ 32) }
    ensures too_long { IsErrOf result WriteError.TooLong → 2 ^ 32 ≤ length
        (enveloped id (element_bytes first content.now) controls.now) }
{
    let total = message_length(id, content.len(), controls.len());
    let mut octets = Vec::new(alloc);
    begin(id, first, content.len(), total, &mut octets)?;
    put_octets(content, &mut octets)?;
    put_octets(controls, &mut octets)?;
    Ok(octets)
}

/// A message that shows this entry, its controls spelled already.
fn encode_entry(
    alloc: Global,
    id: u32,
    entry: &SearchResultEntry,
    controls: &[u8],
) -> Result<Vec<u8>, WriteError>
    ensures ok { IfOk result (λ v. v.items ≡ element_bytes 48
        (enveloped id (element_bytes 100 (entry_content (entry_view entry.now))) controls.now)) }
    ensures fits { OnOk result (length
        (enveloped id (element_bytes 100 (entry_content (entry_view entry.now))) controls.now) < 2 ^ 32) }
    ensures too_long { IsErrOf result WriteError.TooLong → 2 ^ 32 ≤ length
        (enveloped id (element_bytes 100 (entry_content (entry_view entry.now))) controls.now) }
{
    let mut octets = Vec::new(alloc);
    put_entry_message(
        alloc,
        id,
        &entry.object_name,
        &entry.attributes,
        controls,
        &mut octets,
    )?;
    Ok(octets)
}

/// A message of this operation, its controls spelled already.
fn encode_operation(
    alloc: Global,
    id: u32,
    op: &ProtocolOp,
    controls: &[u8],
) -> Result<Vec<u8>, WriteError>
    ensures ok { IfOk result (λ v. v.items ≡ element_bytes 48
        (enveloped id (operation_bytes (operation_view op.now)) controls.now)) }
    ensures fits { OnOk result (length
        (enveloped id (operation_bytes (operation_view op.now)) controls.now) < 2 ^ 32) }
    ensures too_long { IsErrOf result WriteError.TooLong → 2 ^ 32 ≤ length
        (enveloped id (operation_bytes (operation_view op.now)) controls.now) }
{
    match op {
        ProtocolOp::Response(Response::SearchEntry(entry)) => {
            encode_entry(alloc, id, entry, controls)
        }
        _ => {
            let content = operation_content(alloc, op)?;
            encode_content(alloc, id, operation_octet(op), &content, controls)
        }
    }
}

/// The octets of a message, in the one shortest form (RFC 4511 5.1). E3 only where the content of the
/// message is over 4294967295 octets, and it is then never written.
pub fn encode(alloc: Global, message: &Message) -> Result<Vec<u8>, WriteError>
    ensures ok { IfOk result (λ v. v.items ≡ message_bytes (view message.now)) }
    ensures fits { OnOk result (length (message_content (view message.now)) < 2 ^ 32) }
    ensures too_long { IsErrOf result WriteError.TooLong
        → 2 ^ 32 ≤ length (message_content (view message.now)) }
{
    let mut controls = Vec::new(alloc);
    put_controls(alloc, &message.controls, &mut controls)?;
    encode_operation(alloc, message.id, &message.op, &controls)
}

/// What is written for values in their ranges is in the grammar.
pub fn is_message()
    ensures { (m : MessageValue) → IsInRange m → length (message_content m) < 2 ^ 32
        → IsMessage (message_bytes m) m }
{}
