//! Reads an update.

ghost use Rattle.std.specs.Prelude.{◌≡◌, IfOk, IfErr, MatchResult};
ghost use Rattle.ldap_parts.specs.ldap_ber.Faults.{IsPlainFault};
ghost use Rattle.ldap_op.specs.Values.{OpValue};
ghost use Rattle.ldap_op.specs.View.{update_view};
ghost use Rattle.ldap_op.specs.Grammar.{IsUpdate, IsOp};

use crate::op::Op;
use crate::update::Update;
use ldap_parts::{MsgFault, add_of, delete_of, element, modify_dn_of, modify_of};
use std::alloc::Global;

/// The update of this first octet whose content this is.
fn update_of(alloc: Global, first: u8, content: &[u8]) -> Result<Update, MsgFault>
    ensures found { IfOk result (λ u. IsUpdate (update_view u) first content.now) }
    ensures fault { IfErr result (λ e. IsPlainFault e ((op : OpValue)
        × IsUpdate op first content.now)) }
{
    match first {
        0x66 => Ok(Update::Modify(modify_of(alloc, content)?)),
        0x68 => Ok(Update::Add(add_of(alloc, content)?)),
        0x4a => Ok(Update::Delete(delete_of(alloc, content)?)),
        0x6c => Ok(Update::ModifyDn(modify_dn_of(alloc, content)?)),
        _ => Err(MsgFault::NotAMessage),
    }
}

/// The update whose octets these are, and nothing after it.
pub fn read_update(alloc: Global, octets: &[u8]) -> Result<Update, MsgFault>
    ensures found { IfOk result (λ u. IsOp (update_view u) octets.now) }
    ensures only { (op : OpValue) → IsOp op octets.now
        → MatchResult result (λ u. update_view u ≡ op) (λ e. e ≡ MsgFault.NoMemory) }
    ensures fault { IfErr result (λ e. IsPlainFault e ((op : OpValue) × IsOp op octets.now)) }
{
    if octets.is_empty() {
        return Ok(Update::Noop);
    }
    let (element, rest) = element(octets)?;
    if !rest.is_empty() {
        return Err(MsgFault::NotAMessage);
    }
    let update = update_of(alloc, element.first, element.content)?;
    Ok(update)
}

/// The update whose octets these are, and nothing after it: its operation's element, or none for a
/// no-op. E8 only where there is no such update.
pub fn read_op(alloc: Global, octets: &[u8]) -> Result<Op, MsgFault>
    // What is read is the update of the octets.
    ensures found { IfOk result (λ op. IsOp op octets.now) }
    // The update of the octets is read, unless memory runs out.
    ensures only { (op : OpValue) → IsOp op octets.now
        → MatchResult result (λ x. x ≡ op) (λ e. e ≡ MsgFault.NoMemory) }
    // Which fault it is.
    ensures fault { IfErr result (λ e. IsPlainFault e ((op : OpValue) × IsOp op octets.now)) }
{
    let update = read_update(alloc, octets)?;
    let op = Op::new(alloc, update)?;
    Ok(op)
}
