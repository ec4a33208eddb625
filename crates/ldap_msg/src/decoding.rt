//! Reads a whole message.

ghost use Rattle.std.specs.Prelude.{◌≡◌, ◌≤◌, ◌++◌, ℕ, List, length, map, IfOk, IfErr, OnOk, MatchResult};
ghost use Rattle.std.specs.Bool.{OnTrue, OnFalse};
ghost use Rattle.ldap_requests.specs.ldap_ber.Faults.{IsPlainFault};
ghost use Rattle.ldap_parts.specs.Values.{ControlValue};
ghost use Rattle.ldap_parts.specs.View.{control_view};
ghost use Rattle.ldap_parts.specs.Grammar.{AreControls};
ghost use Rattle.ldap_msg.specs.Messages.{OperationValue, MessageValue};
ghost use Rattle.ldap_msg.specs.View.{operation_view, view};
ghost use Rattle.ldap_msg.specs.Grammar.{operation_octet, IsOperation, HasOperation, IsIdFor, IsMessageContent, IsMessage};
ghost use Rattle.ldap_requests.specs.Limits.{FilterStandsAt, IsLimitFault};
ghost use Rattle.ldap_msg.specs.Limits.{OperationHasFilterAt, ContentHasFilterAt, IsFault, IsWithin};

use crate::decoding_request::{is_request, request_of};
use crate::decoding_response::response_of;
use crate::message::{Message, ProtocolOp};
use ldap_parts::{Control, controls_of};
use ldap_requests::{MsgFault, element, field, number_field};
use std::alloc::Global;

/// How many octets a message may have, its header included.
pub const MAX_MESSAGE: usize = 4_194_304;

/// The operation of this first octet whose content this is.
fn operation_of(alloc: Global, first: u8, content: &[u8]) -> Result<ProtocolOp, MsgFault>
    ensures found { IfOk result (λ op. (operation_octet (operation_view op) ≡ first)
        × IsOperation (operation_view op) content.now) }
    ensures within { IfOk result (λ op. IsWithin (operation_view op)) }
    ensures fault { IfErr result (λ e. IsLimitFault e ((op : OperationValue)
        × (operation_octet op ≡ first) × IsOperation op content.now) (λ place. (first ≡ 99)
        × FilterStandsAt content.now place)) }
{
    if is_request(first) {
        Ok(ProtocolOp::Request(request_of(alloc, first, content)?))
    } else {
        Ok(ProtocolOp::Response(response_of(alloc, first, content)?))
    }
}

/// The operation at the front, and the octets after it.
fn operation_field(alloc: Global, octets: &[u8]) -> Result<(ProtocolOp, &[u8]), MsgFault>
    ensures found { IfOk result (λ x. HasOperation (operation_view x.0) octets.now x.1.now) }
    ensures within { IfOk result (λ x. IsWithin (operation_view x.0)) }
    ensures fault { IfErr result (λ e. IsLimitFault e ((op : OperationValue) × (rest : List ℕ)
        × HasOperation op octets.now rest) (OperationHasFilterAt octets.now)) }
{
    let (element, rest) = element(octets)?;
    let op = operation_of(alloc, element.first, element.content)?;
    Ok((op, rest))
}

/// Whether a messageID may stand with the operation.
fn is_id_for(op: &ProtocolOp, id: u32) -> bool
    ensures yes { OnTrue result (IsIdFor (operation_view op.now) id) }
    ensures no { OnFalse result (IsIdFor (operation_view op.now) id → ⊥) }
{
    match op {
        ProtocolOp::Request(_) => id > 0,
        ProtocolOp::Response(_) => true,
    }
}

/// The controls behind an operation; a messageID that may not stand with it is refused first.
fn controls_behind(
    alloc: Global,
    op: &ProtocolOp,
    id: u32,
    octets: &[u8],
) -> Result<Vec<Control>, MsgFault>
    ensures id_for { OnOk result (IsIdFor (operation_view op.now) id) }
    ensures found { IfOk result (λ v. AreControls (map control_view v.items) octets.now) }
    ensures fault { IfErr result (λ e. IsPlainFault e (IsIdFor (operation_view op.now) id
        × ((row : List ControlValue) × AreControls row octets.now))) }
{
    if !is_id_for(op, id) {
        return Err(MsgFault::NotAMessage);
    }
    controls_of(alloc, octets)
}

/// The message whose content this is.
fn message_of(alloc: Global, content: &[u8]) -> Result<Message, MsgFault>
    ensures found { IfOk result (λ m. IsMessageContent (view m) content.now) }
    ensures within { IfOk result (λ m. IsWithin (view m).op) }
    ensures fault { IfErr result (λ e. IsLimitFault e ((m : MessageValue)
        × IsMessageContent m content.now) (ContentHasFilterAt content.now)) }
{
    let (id, rest) = number_field(0x02, 0x8000_0000, content)?;
    let (op, rest) = operation_field(alloc, rest)?;
    let controls = controls_behind(alloc, &op, id, rest)?;
    Ok(Message { id, op, controls })
}

/// The message whose octets these are, and nothing after it (RFC 4511 4.1.1). E7 where there are more
/// than 4194304 octets, E8 only where no message is, E9 and E10 only where a filter opens at its place
/// that is too deep or of too many items.
pub fn decode(alloc: Global, octets: &[u8]) -> Result<Message, MsgFault>
    // What is read is the message of the octets, within the limits.
    ensures found { IfOk result (λ m. IsMessage octets.now (view m)) }
    ensures within { IfOk result (λ m. IsWithin (view m).op × (length octets.now ≤ 4194304)) }
    // A message within the limits is read, unless memory runs out.
    ensures only { (m : MessageValue) → IsMessage octets.now m → IsWithin m.op
        → length octets.now ≤ 4194304
        → MatchResult result (λ x. view x ≡ m) (λ e. e ≡ MsgFault.NoMemory) }
    // Which fault it is.
    ensures fault { IfErr result (λ e. IsFault e octets.now) }
{
    if octets.len() > MAX_MESSAGE {
        return Err(MsgFault::TooLarge);
    }
    let (content, rest) = field(0x30, octets)?;
    if !rest.is_empty() {
        return Err(MsgFault::NotAMessage);
    }
    message_of(alloc, content)
}

/// A spelling belongs to one message, and is no proper beginning of another's.
pub fn one_message()
    ensures { (m n : MessageValue) (a b x y : List ℕ) → IsMessage a m → IsMessage b n
        → a ++ x ≡ b ++ y → (a ≡ b) × (m ≡ n) }
{}
