//! Writes controls.

ghost use Rattle.std.specs.Prelude.{◌≡◌, ◌^◌, ◌≤◌, ◌++◌, map, drop, length, IfOk, OnErr, OnOk, IsErrOf};
ghost use Rattle.ldap_ber.specs.Rows.{row_bytes};
ghost use Rattle.ldap_parts.specs.View.{control_view};
ghost use Rattle.ldap_parts.specs.Written.{control_content, control_bytes};
ghost use Rattle.ldap_ber.specs.Written.{row_or_none_bytes};

use crate::control::Control;
use ldap_ber::{WriteError, write};
use std::alloc::Global;

/// The content of a control's element: a criticality that is false is left out.
fn control_content(alloc: Global, control: &Control) -> Result<Vec<u8>, WriteError>
    ensures ok { IfOk result (λ v. v.items ≡ control_content (control_view control.now)) }
    ensures too_long { IsErrOf result WriteError.TooLong
        → 2 ^ 32 ≤ length (control_content (control_view control.now)) }
{
    let mut content = Vec::new(alloc);
    write(0x04, control.control_type.as_bytes(), &mut content)?;
    if control.criticality {
        write(0x01, &[0xff], &mut content)?;
    }
    match &control.value {
        Some(value) => write(0x04, value, &mut content)?,
        None => {}
    }
    Ok(content)
}

/// Writes controls, one after the other.
fn put_row(alloc: Global, controls: &[Control], out: &mut Vec<u8>) -> Result<(), WriteError>
    ensures ok { OnOk result (out.new.items ≡ out.old.items ++ row_bytes control_bytes
        (map control_view controls.now)) }
    ensures too_long { IsErrOf result WriteError.TooLong
        → 2 ^ 32 ≤ length (row_bytes control_bytes (map control_view controls.now)) }
    ensures kept { out.new.items ≡ out.old.items ++ drop (length out.old.items) out.new.items }
{
    for control in controls {
        let content = control_content(alloc, control)?;
        write(0x30, &content, out)?;
    }
    Ok(())
}

/// Writes controls, or nothing where there are none.
pub fn put_controls(
    alloc: Global,
    controls: &[Control],
    out: &mut Vec<u8>,
) -> Result<(), WriteError>
    ensures ok { OnOk result (out.new.items ≡ out.old.items ++ row_or_none_bytes control_bytes 160
        (map control_view controls.now)) }
    ensures too_long { IsErrOf result WriteError.TooLong
        → 2 ^ 32 ≤ length (row_or_none_bytes control_bytes 160 (map control_view controls.now)) }
    ensures err { OnErr result (out.new.items ≡ out.old.items) }
{
    match controls {
        [] => Ok(()),
        _ => {
            let mut content = Vec::new(alloc);
            put_row(alloc, controls, &mut content)?;
            write(0xa0, &content, out)
        }
    }
}
