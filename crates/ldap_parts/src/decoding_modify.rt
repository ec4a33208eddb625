//! Reads a modify.

ghost use Rattle.std.specs.Prelude.{◌≡◌, ◌<◌, ℕ, List, IfOk, IfErr, map};
ghost use Rattle.ldap_ber.specs.Faults.{IsPlainFault};
ghost use Rattle.ldap_ber.specs.Fields.{HasPart};
ghost use Rattle.ldap_ber.specs.Rows.{AreRow};
ghost use Rattle.ldap_parts.specs.UpdateValues.{ChangeValue, ModifyRequestValue};
ghost use Rattle.ldap_parts.specs.UpdateView.{change_view, modify_view};
ghost use Rattle.ldap_parts.specs.UpdateGrammar.{modify_number, IsChange, HasChange, IsModifyRequest};

use crate::decoding_attribute::attribute_field;
use crate::modify::{Change, ModifyOperation, ModifyRequest};
use ldap_ber::{MsgFault, elements, field, number_field, text_field};
use std::alloc::Global;

/// What a change does, of a number.
fn modify_operation_of(number: u32) -> ModifyOperation
    requires { number < 4 }
    ensures { modify_number result ≡ number }
{
    match number {
        0 => ModifyOperation::Add,
        1 => ModifyOperation::Delete,
        2 => ModifyOperation::Replace,
        _ => ModifyOperation::Increment,
    }
}

/// The change whose content this is.
fn change_of(alloc: Global, content: &[u8]) -> Result<Change, MsgFault>
    ensures found { IfOk result (λ k. IsChange (change_view k) content.now) }
    ensures fault { IfErr result (λ e. IsPlainFault e ((k : ChangeValue) × IsChange k content.now)) }
{
    let (number, rest) = number_field(0x0a, 4, content)?;
    let (modification, rest) = attribute_field(alloc, rest)?;
    elements(rest)?;
    Ok(Change {
        operation: modify_operation_of(number),
        modification,
    })
}

/// The change at the front, and the octets after it.
fn change_field(alloc: Global, octets: &[u8]) -> Result<(Change, &[u8]), MsgFault>
    ensures found { IfOk result (λ x. HasChange (change_view x.0) octets.now x.1.now) }
    ensures fault { IfErr result (λ e. IsPlainFault e ((k : ChangeValue) × (rest : List ℕ)
        × HasChange k octets.now rest)) }
{
    let (content, rest) = field(0x30, octets)?;
    let change = change_of(alloc, content)?;
    Ok((change, rest))
}

/// Changes, one after the other, up to the end.
fn changes_of(alloc: Global, content: &[u8]) -> Result<Vec<Change>, MsgFault>
    ensures found { IfOk result (λ v. AreRow HasChange (map change_view v.items) content.now) }
    ensures fault { IfErr result (λ e. IsPlainFault e ((row : List ChangeValue)
        × AreRow HasChange row content.now)) }
{
    let mut changes = Vec::new(alloc);
    let mut rest = content;
    while !rest.is_empty() {
        let (change, after) = change_field(alloc, rest)?;
        changes.push(change)?;
        rest = after;
    }
    Ok(changes)
}

/// The list of changes at the front, and the octets after it.
fn changes_field(alloc: Global, octets: &[u8]) -> Result<(Vec<Change>, &[u8]), MsgFault>
    ensures found { IfOk result (λ x. HasPart (AreRow HasChange
        (map change_view x.0.items)) octets.now 48 x.1.now) }
    ensures fault { IfErr result (λ e. IsPlainFault e ((row : List ChangeValue) × (rest : List ℕ)
        × HasPart (AreRow HasChange row) octets.now 48 rest)) }
{
    let (content, rest) = field(0x30, octets)?;
    let changes = changes_of(alloc, content)?;
    Ok((changes, rest))
}

/// The modify whose content this is.
pub fn modify_of(alloc: Global, content: &[u8]) -> Result<ModifyRequest, MsgFault>
    ensures found { IfOk result (λ m. IsModifyRequest (modify_view m) content.now) }
    ensures fault { IfErr result (λ e. IsPlainFault e ((m : ModifyRequestValue)
        × IsModifyRequest m content.now)) }
{
    let (object, rest) = text_field(alloc, 0x04, content)?;
    let (changes, rest) = changes_field(alloc, rest)?;
    elements(rest)?;
    Ok(ModifyRequest { object, changes })
}
