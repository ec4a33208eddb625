//! Writes records as LDIF.

ghost use Rattle.std.specs.Prelude.{◌≡◌, ◌++◌, drop, length, map, IfOk, OnOk};
ghost use Rattle.ldif.specs.Written as written;

use crate::record::{AttributeValue, Record};
use crate::written_value::put_pair;
use std::alloc::{AllocError, Global};

/// Puts the lines of values.
fn put_values(alloc: Global, out: &mut Vec<u8>, values: &[AttributeValue]) -> Result<(), AllocError>
    ensures ok { OnOk result (out.new.items ≡ out.old.items ++ written.lines_text (map written.value_line values.now)) }
    ensures kept { out.new.items ≡ out.old.items ++ drop (length out.old.items) out.new.items }
{
    for value in values {
        put_pair(alloc, out, value.description().as_bytes(), value.octets())?;
    }
    Ok(())
}

/// Puts a record.
fn put_record(alloc: Global, out: &mut Vec<u8>, item: &Record) -> Result<(), AllocError>
    ensures ok { OnOk result (out.new.items ≡ out.old.items ++ written.lines_text (written.record_lines item.now)) }
    ensures kept { out.new.items ≡ out.old.items ++ drop (length out.old.items) out.new.items }
{
    out.push(b'\n')?;
    put_pair(alloc, out, b"dn", item.name().as_bytes())?;
    put_values(alloc, out, item.values())
}

/// Puts records.
fn put_records(alloc: Global, out: &mut Vec<u8>, records: &[Record]) -> Result<(), AllocError>
    ensures ok { OnOk result (out.new.items ≡ out.old.items ++ written.lines_text (written.records_lines records.now)) }
    ensures kept { out.new.items ≡ out.old.items ++ drop (length out.old.items) out.new.items }
{
    for item in records {
        put_record(alloc, out, item)?;
    }
    Ok(())
}

/// The one text that is written of records (RFC 2849): `version: 1`, then for each record an empty line, its `dn:` line
/// and its values, each line ended by LF, none folded; base64 where a value is no safe string. Fails only for want of
/// memory.
pub fn write(alloc: Global, records: &[Record]) -> Result<Vec<u8>, AllocError>
    ensures { IfOk result (λ v. v.items ≡ written.ldif_text records.now) }
{
    let mut out = Vec::new(alloc);
    out.extend_from_slice(b"version: 1\n")?;
    put_records(alloc, &mut out, records)?;
    Ok(out)
}
