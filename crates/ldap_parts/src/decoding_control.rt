//! Reads controls.

ghost use Rattle.std.specs.Prelude.{ℕ, List, IfOk, IfErr, map};
ghost use Rattle.ldap_ber.specs.Faults.{IsPlainFault};
ghost use Rattle.ldap_ber.specs.Rows.{AreRow, HasRowOrNone};
ghost use Rattle.ldap_parts.specs.Values.{ControlValue};
ghost use Rattle.ldap_parts.specs.View.{control_view};
ghost use Rattle.ldap_parts.specs.Grammar.{IsControl, HasControl, AreControls};

use crate::control::Control;
use ldap_ber::{MsgFault, elements, field, flag_or_false, has_first, optional_octets, text_field};
use std::alloc::Global;

/// The control whose content this is.
fn control_of(alloc: Global, content: &[u8]) -> Result<Control, MsgFault>
    ensures found { IfOk result (λ c. IsControl (control_view c) content.now) }
    ensures fault { IfErr result (λ e. IsPlainFault e ((c : ControlValue)
        × IsControl c content.now)) }
{
    let (control_type, rest) = text_field(alloc, 0x04, content)?;
    let (criticality, rest) = flag_or_false(0x01, rest)?;
    let (value, rest) = optional_octets(alloc, 0x04, rest)?;
    elements(rest)?;
    Ok(Control {
        control_type,
        criticality,
        value,
    })
}

/// The control at the front, and the octets after it.
fn control_field(alloc: Global, octets: &[u8]) -> Result<(Control, &[u8]), MsgFault>
    ensures found { IfOk result (λ x. HasControl (control_view x.0) octets.now x.1.now) }
    ensures fault { IfErr result (λ e. IsPlainFault e ((c : ControlValue) × (rest : List ℕ)
        × HasControl c octets.now rest)) }
{
    let (content, rest) = field(0x30, octets)?;
    let control = control_of(alloc, content)?;
    Ok((control, rest))
}

/// Controls, one after the other, up to the end.
fn controls(alloc: Global, content: &[u8]) -> Result<Vec<Control>, MsgFault>
    ensures found { IfOk result (λ v. AreRow HasControl (map control_view v.items) content.now) }
    ensures fault { IfErr result (λ e. IsPlainFault e ((row : List ControlValue)
        × AreRow HasControl row content.now)) }
{
    let mut controls = Vec::new(alloc);
    let mut rest = content;
    while !rest.is_empty() {
        let (control, after) = control_field(alloc, rest)?;
        controls.push(control)?;
        rest = after;
    }
    Ok(controls)
}

/// The controls at the front, none where they are left out, and the octets after them.
fn controls_or_none(alloc: Global, octets: &[u8]) -> Result<(Vec<Control>, &[u8]), MsgFault>
    ensures found { IfOk result (λ x. HasRowOrNone HasControl octets.now 160
        (map control_view x.0.items) x.1.now) }
    ensures fault { IfErr result (λ e. IsPlainFault e ((row : List ControlValue) × (rest : List ℕ)
        × HasRowOrNone HasControl octets.now 160 row rest)) }
{
    if !has_first(0xa0, octets) {
        return Ok((Vec::new(alloc), octets));
    }
    let (content, rest) = field(0xa0, octets)?;
    let controls = controls(alloc, content)?;
    Ok((controls, rest))
}

/// The controls after an operation, up to the end of the message.
pub fn controls_of(alloc: Global, octets: &[u8]) -> Result<Vec<Control>, MsgFault>
    ensures found { IfOk result (λ v. AreControls (map control_view v.items) octets.now) }
    ensures fault { IfErr result (λ e. IsPlainFault e ((row : List ControlValue)
        × AreControls row octets.now)) }
{
    let (controls, rest) = controls_or_none(alloc, octets)?;
    elements(rest)?;
    Ok(controls)
}
