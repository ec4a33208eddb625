//! Writes the line of a type and a value.

ghost use Rattle.std.specs.Prelude.{◌≡◌, ◌++◌, drop, length, ◌∷◌, [], string_bytes, IfOk, OnOk};
ghost use Rattle.std.specs.List.{list_all};
ghost use Rattle.base64.specs.Engines.{standard};
ghost use Rattle.base64.specs.GeneralPurpose.{encode_of};
ghost use Rattle.ldif.specs.Written as written;

use base64::engine::general_purpose::STANDARD;
use std::alloc::{AllocError, Global};

/// Whether the octet may stand as it is.
fn is_safe_octet(octet: u8) -> bool
    ensures { result ≡ written.is_safe_octet octet }
{
    octet != 0 && octet != b'\n' && octet != b'\r' && octet <= 126
}

/// Whether the octet may stand first.
fn is_safe_first(octet: u8) -> bool
    ensures { result ≡ written.is_safe_first octet }
{
    !(octet == b' ' || octet == b':' || octet == b'<')
}

/// Whether each octet may stand as it is.
fn are_safe_octets(octets: &[u8]) -> bool
    ensures { result ≡ list_all written.is_safe_octet octets.now }
{
    octets.iter().all(|octet| is_safe_octet(*octet))
}

/// Whether the octets end with a space.
fn ends_with_space(octets: &[u8]) -> bool
    ensures { result ≡ written.ends_with_space octets.now }
{
    match octets.len() {
        0 => false,
        length => octets[length - 1] == b' ',
    }
}

/// Whether the octets may stand as they are (RFC 2849, SAFE-STRING).
fn is_safe(octets: &[u8]) -> bool
    ensures { result ≡ written.is_safe octets.now }
{
    match octets {
        [] => true,
        [first, ..] => is_safe_first(*first) && are_safe_octets(octets) && !ends_with_space(octets),
    }
}

/// Puts octets as base64 behind a second colon.
fn put_base64(alloc: Global, out: &mut Vec<u8>, octets: &[u8]) -> Result<(), AllocError>
    ensures ok { OnOk result (out.new.items ≡ out.old.items ++ 58 ∷ 32 ∷ encode_of standard octets.now) }
    ensures kept { out.new.items ≡ out.old.items ++ drop (length out.old.items) out.new.items }
{
    let text = STANDARD.encode(alloc, octets)?;
    out.extend_from_slice(b": ")?;
    out.extend_from_slice(text.as_bytes())
}

/// Puts what stands behind a type's colon.
fn put_value_part(alloc: Global, out: &mut Vec<u8>, octets: &[u8]) -> Result<(), AllocError>
    ensures ok { OnOk result (out.new.items ≡ out.old.items ++ written.value_part octets.now) }
    ensures kept { out.new.items ≡ out.old.items ++ drop (length out.old.items) out.new.items }
{
    if octets.is_empty() {
        Ok(())
    } else if is_safe(octets) {
        out.push(b' ')?;
        out.extend_from_slice(octets)
    } else {
        put_base64(alloc, out, octets)
    }
}

/// Puts a line of a type and a value.
pub fn put_pair(
    alloc: Global,
    out: &mut Vec<u8>,
    word: &[u8],
    octets: &[u8],
) -> Result<(), AllocError>
    ensures ok { OnOk result (out.new.items ≡ out.old.items ++ written.pair_line word.now octets.now ++ 10 ∷ []) }
    ensures kept { out.new.items ≡ out.old.items ++ drop (length out.old.items) out.new.items }
{
    out.extend_from_slice(word)?;
    out.push(b':')?;
    put_value_part(alloc, out, octets)?;
    out.push(b'\n')?;
    Ok(())
}
