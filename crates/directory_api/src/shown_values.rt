//! Values that an entry keeps, as they are shown: measured, written and copied where they lie, part by part. A length of
//! 2^32 stands for each that is greater.
ghost use Rattle.std.specs.Prelude.{◌≡◌, ◌^◌, ◌≤◌, ◌++◌, drop, length, map, min, IfOk, OnOk, IsErrOf};
ghost use Rattle.ldap_msg.specs.ldap_ber.Element.{element_bytes};
ghost use Rattle.ldap_msg.specs.ldap_ber.Rows.{row_bytes};

use dir_tree::{Attribute, Octets};
use ldap_msg::{EncodeError, add_lengths, element_length, write, write_head};
use std::alloc::{AllocError, Global};

/// How many octets octet strings of first octet 04 take, one after the other; 2^32 where there are more.
fn part_length(values: &[Octets]) -> usize
    ensures { result ≡ min (length (row_bytes (element_bytes 4) values.now)) (2 ^ 32) }
{
    let mut total = 0;
    for value in values {
        total = add_lengths(total, element_length(value.as_slice().len()));
    }
    total
}

/// How many octets the values of an attribute take as octet strings of first octet 04, one after the other; 2^32 where
/// there are more.
pub fn values_length(attribute: &Attribute) -> usize
    ensures { result ≡ min (length (row_bytes (element_bytes 4) attribute.now.values)) (2 ^ 32) }
{
    let mut total = 0;
    let mut rest = attribute.parts();
    while let Some((part, others)) = rest.split_first() {
        total = add_lengths(total, part_length(part.values));
        rest = others;
    }
    total
}

/// Writes octet strings of first octet 04, one after the other. E3 only where the row is longer than a length can say.
fn put_part(values: &[Octets], out: &mut Vec<u8>) -> Result<(), EncodeError>
    ensures ok { OnOk result (out.new.items ≡ out.old.items ++ row_bytes (element_bytes 4) values.now) }
    ensures too_long { IsErrOf result EncodeError.TooLong
        → 2 ^ 32 ≤ length (row_bytes (element_bytes 4) values.now) }
    ensures kept { out.new.items ≡ out.old.items ++ drop (length out.old.items) out.new.items }
{
    for value in values {
        write(0x04, value.as_slice(), out)?;
    }
    Ok(())
}

/// Writes the values of an attribute as octet strings of first octet 04, one after the other. E3 only where the row is
/// longer than a length can say.
fn put_values(attribute: &Attribute, out: &mut Vec<u8>) -> Result<(), EncodeError>
    ensures ok { OnOk result (out.new.items ≡ out.old.items ++ row_bytes (element_bytes 4) attribute.now.values) }
    ensures too_long { IsErrOf result EncodeError.TooLong
        → 2 ^ 32 ≤ length (row_bytes (element_bytes 4) attribute.now.values) }
    ensures kept { out.new.items ≡ out.old.items ++ drop (length out.old.items) out.new.items }
{
    let mut rest = attribute.parts();
    while let Some((part, others)) = rest.split_first() {
        put_part(part.values, out)?;
        rest = others;
    }
    Ok(())
}

/// Writes the values of an attribute, which take this length, as a SET OF, of first octet 31 (X.690 8.12). E3 only where
/// it is longer than a length can say.
pub fn put_value_set(
    attribute: &Attribute,
    len: usize,
    out: &mut Vec<u8>,
) -> Result<(), EncodeError>
    requires { len ≡ min (length (row_bytes (element_bytes 4) attribute.now.values)) (2 ^ 32) }
    ensures ok { OnOk result (out.new.items ≡ out.old.items ++ element_bytes 49
        (row_bytes (element_bytes 4) attribute.now.values)) }
    ensures too_long { IsErrOf result EncodeError.TooLong
        → 2 ^ 32 ≤ length (row_bytes (element_bytes 4) attribute.now.values) }
    ensures kept { out.new.items ≡ out.old.items ++ drop (length out.old.items) out.new.items }
{
    write_head(0x31, len, out)?;
    put_values(attribute, out)
}

/// Copies of octet strings, behind those that are there.
fn copy_part(alloc: Global, copies: &mut Vec<Vec<u8>>, values: &[Octets]) -> Result<(), AllocError>
    ensures { OnOk result (map (λ v. v.items) copies.new.items ≡ map (λ v. v.items) copies.old.items ++ values.now) }
{
    for value in values {
        copies.push(value.as_slice().to_vec(alloc)?)?;
    }
    Ok(())
}

/// Copies of the values of an attribute.
pub fn copy_values(alloc: Global, attribute: &Attribute) -> Result<Vec<Vec<u8>>, AllocError>
    ensures { IfOk result (λ r. map (λ v. v.items) r.items ≡ attribute.now.values) }
{
    let mut copies = Vec::with_capacity(alloc, attribute.len())?;
    let mut rest = attribute.parts();
    while let Some((part, others)) = rest.split_first() {
        copy_part(alloc, &mut copies, part.values)?;
        rest = others;
    }
    Ok(copies)
}
