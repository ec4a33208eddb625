//! Writes rows and flags.

ghost use Rattle.std.specs.Prelude.{◌≡◌, ◌++◌, ◌^◌, ◌≤◌, ◌<◌, length, drop, Bool, OnOk, OnErr, IfErr, IfOk, IsErrOf, map, string_bytes, Err};
ghost use Rattle.ldap_ber.specs.Element.{element_bytes};
ghost use Rattle.ldap_ber.specs.Rows.{row_bytes};

use crate::fault::WriteError;
use crate::measuring_rows::values_length;
use crate::writing::{write, write_head};
use std::alloc::Global;

/// A copy of octets, as a content; the only error is want of memory.
pub fn copied(alloc: Global, octets: &[u8]) -> Result<Vec<u8>, WriteError>
    ensures ok { IfOk result (λ v. v.items ≡ octets.now) }
    ensures no_memory { IfErr result (λ e. e ≡ WriteError.NoMemory) }
{
    match Vec::from_slice(alloc, octets) {
        Ok(copy) => Ok(copy),
        Err(_) => Err(WriteError::NoMemory),
    }
}

/// Writes texts of first octet 04, one after the other. E3 only where the row is longer than a
/// length can say.
pub fn put_texts(texts: &[String], out: &mut Vec<u8>) -> Result<(), WriteError>
    ensures ok { OnOk result (out.new.items ≡ out.old.items ++ row_bytes (element_bytes 4)
        (map string_bytes texts.now)) }
    ensures too_long { IsErrOf result WriteError.TooLong
        → 2 ^ 32 ≤ length (row_bytes (element_bytes 4) (map string_bytes texts.now)) }
    ensures kept { out.new.items ≡ out.old.items ++ drop (length out.old.items) out.new.items }
{
    for text in texts {
        write(0x04, text.as_bytes(), out)?;
    }
    Ok(())
}

/// Writes octet strings of first octet 04, one after the other. E3 only where the row is longer than
/// a length can say.
pub fn put_values(values: &[Vec<u8>], out: &mut Vec<u8>) -> Result<(), WriteError>
    ensures ok { OnOk result (out.new.items ≡ out.old.items ++ row_bytes (element_bytes 4) (map
        (λ v. v.items) values.now)) }
    ensures too_long { IsErrOf result WriteError.TooLong
        → 2 ^ 32 ≤ length (row_bytes (element_bytes 4) (map (λ v. v.items) values.now)) }
    ensures kept { out.new.items ≡ out.old.items ++ drop (length out.old.items) out.new.items }
{
    for value in values {
        write(0x04, value, out)?;
    }
    Ok(())
}

/// Writes octet strings as a SET OF, of first octet 31 (X.690 8.12). E3 only where it is longer than a
/// length can say.
pub fn put_value_set(values: &[Vec<u8>], out: &mut Vec<u8>) -> Result<(), WriteError>
    ensures ok { OnOk result (out.new.items ≡ out.old.items ++ element_bytes 49
        (row_bytes (element_bytes 4) (map (λ v. v.items) values.now))) }
    ensures too_long { IsErrOf result WriteError.TooLong
        → 2 ^ 32 ≤ length (row_bytes (element_bytes 4) (map (λ v. v.items) values.now)) }
    ensures kept { out.new.items ≡ out.old.items ++ drop (length out.old.items) out.new.items }
{
    write_head(0x31, values_length(values), out)?;
    put_values(values, out)
}
