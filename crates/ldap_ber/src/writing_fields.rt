//! Writes numbers, flags and optional fields.

ghost use Rattle.std.specs.Prelude.{◌≡◌, ◌<◌, ◌≤◌, ◌%◌, ◌^◌, ◌++◌, length, OnErr, OnOk, IfErr, IsErrOf, string_bytes};
ghost use Rattle.std.specs.Option.{option_map};
ghost use Rattle.ldap_ber.specs.Element.{element_bytes};
ghost use Rattle.ldap_ber.specs.Written.{number_bytes, flag_octets, optional_bytes};

use crate::fault::WriteError;
use crate::writing::{write, write_integer};

/// Writes a number that is not below zero.
pub fn put_number(first: u8, number: u32, out: &mut Vec<u8>) -> Result<(), WriteError>
    requires { first % 32 < 31 }
    ensures ok { OnOk result (out.new.items ≡ out.old.items ++ number_bytes first number) }
    ensures no_memory { IfErr result (λ e. e ≡ WriteError.NoMemory) }
    ensures err { OnErr result (out.new.items ≡ out.old.items) }
{
    write_integer(first, i64::from(number), out)
}

/// Writes a flag of first octet 01: FF where it is true (RFC 4511 5.1).
pub fn put_flag(flag: bool, out: &mut Vec<u8>) -> Result<(), WriteError>
    ensures ok { OnOk result (out.new.items ≡ out.old.items ++ element_bytes 1 (flag_octets flag)) }
    ensures no_memory { IfErr result (λ e. e ≡ WriteError.NoMemory) }
    ensures err { OnErr result (out.new.items ≡ out.old.items) }
{
    if flag {
        write(0x01, &[0xff], out)
    } else {
        write(0x01, &[0], out)
    }
}

/// Writes a text, where there is one.
pub fn put_optional_text(
    first: u8,
    text: &Option<String>,
    out: &mut Vec<u8>,
) -> Result<(), WriteError>
    requires { first % 32 < 31 }
    ensures ok { OnOk result (out.new.items ≡ out.old.items ++ optional_bytes first
        (option_map string_bytes text.now)) }
    ensures too_long { IsErrOf result WriteError.TooLong
        → 2 ^ 32 ≤ length (optional_bytes first (option_map string_bytes text.now)) }
    ensures err { OnErr result (out.new.items ≡ out.old.items) }
{
    match text {
        Some(text) => write(first, text.as_bytes(), out),
        None => Ok(()),
    }
}

/// Writes octets, where there are any.
pub fn put_optional_octets(
    first: u8,
    octets: &Option<Vec<u8>>,
    out: &mut Vec<u8>,
) -> Result<(), WriteError>
    requires { first % 32 < 31 }
    ensures ok { OnOk result (out.new.items ≡ out.old.items ++ optional_bytes first (option_map
        (λ v. v.items) octets.now)) }
    ensures too_long { IsErrOf result WriteError.TooLong
        → 2 ^ 32 ≤ length (optional_bytes first (option_map (λ v. v.items) octets.now)) }
    ensures err { OnErr result (out.new.items ≡ out.old.items) }
{
    match octets {
        Some(octets) => write(first, octets, out),
        None => Ok(()),
    }
}
