//! Finds octets that are read as the same update again. An update in memory may be one that no octets spell.
ghost use Rattle.std.specs.Prelude.{◌≡◌, ◌^◌, ◌<◌, IsTrue, IsFalse, IsNone, length, map, IfOk, IfSome};
ghost use Rattle.std.specs.Str.{IsUtf8};
ghost use Rattle.std.specs.List.{AllByRecursion};
ghost use Rattle.ldap_parts.specs.View.{attribute_view};
ghost use Rattle.ldap_parts.specs.UpdateGrammar.{HasAValue};
ghost use Rattle.ldap_parts.specs.UpdateView.{add_view, change_view, modify_view, modify_dn_view};
ghost use Rattle.ldap_parts.specs.UpdatesWritten.{IsAddInRange, IsModifyInRange, IsModifyDnInRange};
ghost use Rattle.ldap_op.specs.View.{update_view};
ghost use Rattle.ldap_op.specs.Written.{IsOpInRange, IsSpelled, HasNoSpelling, op_content};

use crate::laws::is_op;
use crate::update::Update;
use crate::writing::write_update;
use ldap_parts::{
    AddRequest, Change, ModifyDnRequest, ModifyRequest, PartialAttribute, WriteError,
};
use std::alloc::{AllocError, Global};

/// No operation has more octets.
const MOST: usize = 0x1_0000_0000;

/// Whether each of these attributes has a value.
fn have_values(attributes: &[PartialAttribute]) -> bool
    ensures in_range { IsTrue result → AllByRecursion (λ x. IsUtf8 x.description × HasAValue x)
        (map attribute_view attributes.now) }
    ensures lacks { IsFalse result → AllByRecursion (λ x. IsUtf8 x.description × HasAValue x)
        (map attribute_view attributes.now) → ⊥ }
{
    for attribute in attributes {
        let _ = attribute.description.as_str();
        if attribute.values.as_slice().is_empty() {
            return false;
        }
    }
    true
}

/// Whether an add has octets that are read as it.
fn is_add_in_range(add: &AddRequest) -> bool
    ensures in_range { IsTrue result → IsAddInRange (add_view add.now) }
    ensures lacks { IsFalse result → IsAddInRange (add_view add.now) → ⊥ }
{
    let _ = add.entry.as_str();
    have_values(&add.attributes)
}

// prover: the descriptions are texts
fn see_changes(changes: &[Change])
    ensures { AllByRecursion (λ k. IsUtf8 k.modification.description) (map change_view changes.now) }
{
    for change in changes {
        let _ = change.modification.description.as_str();
    }
}

// prover: the parts of a modify are texts
fn see_modify(modify: &ModifyRequest)
    ensures { IsModifyInRange (modify_view modify.now) }
{
    let _ = modify.object.as_str();
    see_changes(&modify.changes);
}

// prover: the parts of a modifyDN are texts
fn see_modify_dn(modify_dn: &ModifyDnRequest)
    ensures { IsModifyDnInRange (modify_dn_view modify_dn.now) }
{
    let _ = modify_dn.entry.as_str();
    let _ = modify_dn.newrdn.as_str();
    if let Some(superior) = &modify_dn.new_superior {
        let _ = superior.as_str();
    }
}

/// Whether an update has octets that are read as it, if they aren't too many.
fn is_in_range(update: &Update) -> bool
    ensures in_range { IsTrue result → IsOpInRange (update_view update.now) }
    ensures lacks { IsFalse result → IsOpInRange (update_view update.now) → ⊥ }
{
    match update {
        Update::Add(add) => is_add_in_range(add),
        Update::Delete(name) => {
            let _ = name.as_str();
            true
        }
        Update::Modify(modify) => {
            see_modify(modify);
            true
        }
        Update::ModifyDn(modify_dn) => {
            see_modify_dn(modify_dn);
            true
        }
        Update::Noop => true,
    }
}

/// The octets of an update, in a buffer of their length; none, where no octets are read as it. The only error is want
/// of memory.
pub fn spell(alloc: Global, update: &Update) -> Result<Option<Vec<u8>>, AllocError>
    ensures spelled { IfOk result (λ spelled. IfSome spelled (λ octets. IsSpelled (update_view update.now)
        octets.items)) }
    ensures none { IfOk result (λ spelled. IsNone spelled → HasNoSpelling (update_view update.now)) }
{
    is_op();
    if !is_in_range(update) {
        return Ok(None);
    }
    match write_update(alloc, update) {
        Ok(octets) => {
            if octets.len() < MOST {
                Ok(Some(Vec::from_slice(alloc, &octets)?))
            } else {
                Ok(None)
            }
        }
        Err(WriteError::NoMemory) => Err(AllocError),
        Err(WriteError::TooLong) => Ok(None),
    }
}
