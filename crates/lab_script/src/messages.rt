//! Reads the update that a message in hex asks for.

ghost use Rattle.std.specs.Prelude.{◌≡◌, ℕ, List, Ok, Some, IfOk, IsErrOf, MatchOption};
ghost use Rattle.hex.specs.Hex.{decode_of};
ghost use Rattle.ldif.specs.ldap_msg.Messages.{MessageValue};
ghost use Rattle.ldif.specs.ldap_msg.View.{view, operation_view};
ghost use Rattle.dir_lab.specs.ldap_op.Values.{OpValue};
ghost use Rattle.dir_lab.specs.ldap_op.View.{update_view};
ghost use Rattle.ldif.specs.Exports.{IsWhole};
ghost use Rattle.lab_script.specs.Updates as updates;

use crate::text_fault::TextError;
use dir_lab::Update;
use ldif::{Message, MsgFault, ProtocolOp, decode};
use std::alloc::Global;

/// The octets that digits spell, two an octet.
fn octets_of(alloc: Global, digits: &[u8]) -> Result<Vec<u8>, TextError>
    ensures found { IfOk result (λ v. decode_of digits.now ≡ Ok v.items) }
    ensures bad { IsErrOf result TextError.BadText → (octets : List ℕ) → decode_of digits.now ≡ Ok octets → ⊥ }
{
    match hex::decode(alloc, digits) {
        Ok(octets) => Ok(octets),
        Err(hex::FromHexError::OutOfMemory) => Err(TextError::NoMemory),
        Err(_) => Err(TextError::BadText),
    }
}

/// The one message that the octets are.
fn message_of(alloc: Global, octets: &[u8]) -> Result<Message, TextError>
    ensures found { IfOk result (λ x. IsWhole octets.now (view x)) }
    ensures only { IfOk result (λ x. (m : MessageValue) → IsWhole octets.now m → view x ≡ m) }
    ensures bad { IsErrOf result TextError.BadText → (m : MessageValue) → IsWhole octets.now m → ⊥ }
{
    match decode(alloc, octets) {
        Ok(message) => Ok(message),
        Err(MsgFault::NoMemory) => Err(TextError::NoMemory),
        Err(MsgFault::TooLarge) => Err(TextError::BadText),
        Err(MsgFault::NotAMessage) => Err(TextError::BadText),
        Err(MsgFault::TooDeep) => Err(TextError::BadText),
        Err(MsgFault::TooManyItems) => Err(TextError::BadText),
    }
}

/// The update that an operation is.
fn update_by(op: ProtocolOp) -> Option<Update>
    ensures { MatchOption result (updates.update_by (operation_view op) ≡ None)
        (λ u. updates.update_by (operation_view op) ≡ Some (update_view u)) }
{
    match op {
        ProtocolOp::Request(request) => match request_checks::update_in(request) {
            Ok(update) => Some(update),
            Err(_) => None,
        },
        ProtocolOp::Response(_) => None,
    }
}

/// The update that an operation is, or that it is none.
fn asked(op: ProtocolOp) -> Result<Update, TextError>
    ensures found { IfOk result (λ u. updates.update_by (operation_view op) ≡ Some (update_view u)) }
    ensures bad { IsErrOf result TextError.BadText → updates.update_by (operation_view op) ≡ None }
{
    match update_by(op) {
        Some(update) => Ok(update),
        None => Err(TextError::BadText),
    }
}

/// The update that the message of these octets asks for.
fn update_in(alloc: Global, octets: &[u8]) -> Result<Update, TextError>
    ensures found { IfOk result (λ u. updates.IsUpdateIn octets.now (update_view u)) }
    ensures bad { IsErrOf result TextError.BadText → (op : OpValue) → updates.IsUpdateIn octets.now op → ⊥ }
{
    match message_of(alloc, octets) {
        Ok(message) => asked(message.op),
        Err(error) => Err(error),
    }
}

/// The update that the message of these digits asks for.
pub fn hex_update(alloc: Global, digits: &[u8]) -> Result<Update, TextError>
    ensures found { IfOk result (λ u. updates.IsHexText digits.now (update_view u)) }
    ensures bad { IsErrOf result TextError.BadText → (op : OpValue) → updates.IsHexText digits.now op → ⊥ }
{
    let octets = octets_of(alloc, digits)?;
    update_in(alloc, &octets)
}
