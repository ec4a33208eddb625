//! Reads the update that a text writes.

ghost use Rattle.std.specs.Prelude.{◌≡◌, IfOk, IsErrOf};
ghost use Rattle.dir_lab.specs.ldap_op.Values.{OpValue};
ghost use Rattle.dir_lab.specs.ldap_op.View.{update_view};
ghost use Rattle.lab_script.specs.Updates as updates;
ghost use Rattle.lab_script.specs.Updates.{IsUpdateText};

use crate::adds::{name_of, record_in};
use crate::kinds::{Kind, kind_of};
use crate::messages::hex_update;
use crate::text_fault::TextError;
use dir_lab::{Op, Update};
use ldif::add_of;
use std::alloc::Global;

/// The add that stands behind its word.
fn add_update(alloc: Global, text: &[u8]) -> Result<Update, TextError>
    ensures found { IfOk result (λ u. updates.add_in text.now ≡ Some (update_view u)) }
    ensures bad { IsErrOf result TextError.BadText → updates.add_in text.now ≡ None }
{
    let item = record_in(alloc, text)?;
    let add = add_of(alloc, &item)?;
    Ok(Update::Add(add))
}

/// The delete that stands behind its word.
fn delete_update(alloc: Global, name: &[u8]) -> Result<Update, TextError>
    ensures found { IfOk result (λ u. updates.delete_in name.now ≡ Some (update_view u)) }
    ensures bad { IsErrOf result TextError.BadText → updates.delete_in name.now ≡ None }
{
    let name = name_of(alloc, name)?;
    Ok(Update::Delete(name))
}

/// The update that a text writes.
fn update_in(alloc: Global, text: &[u8]) -> Result<Update, TextError>
    ensures found { IfOk result (λ u. IsUpdateText text.now (update_view u)) }
    ensures bad { IsErrOf result TextError.BadText → (op : OpValue) → IsUpdateText text.now op → ⊥ }
{
    match kind_of(text) {
        Kind::Noop => Ok(Update::Noop),
        Kind::Add(rest) => add_update(alloc, rest),
        Kind::Delete(name) => delete_update(alloc, name),
        Kind::Hex(digits) => hex_update(alloc, digits),
        Kind::Other => Err(TextError::BadText),
    }
}

/// The update that a text writes: `noop`, `add DN|type: value|..`, `delete DN`, or `hex MESSAGE`, the hexadecimal
/// digits of one whole LDAP message whose operation is an add, a delete, a modify, a modifyDN or the extended request
/// for an update that changes nothing.
pub fn read_update(alloc: Global, text: &[u8]) -> Result<Op, TextError>
    // What is read is the update that the text writes.
    ensures found { IfOk result (λ op. IsUpdateText text.now op) }
    // Only a text that writes none is bad.
    ensures bad { IsErrOf result TextError.BadText → (op : OpValue) → IsUpdateText text.now op → ⊥ }
{
    let update = update_in(alloc, text)?;
    let op = Op::new(alloc, update)?;
    Ok(op)
}
