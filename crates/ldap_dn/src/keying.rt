//! Writes the key of a name as a value.

ghost use Rattle.std.specs.Prelude.{◌≡◌, ◌++◌, ◌∷◌, [], map, drop, length, OnOk, IfOk};
ghost use Rattle.ldap_dn.specs.NameKeys.{listed, itself, number_octets, pair_octets, name_key, NameKeysAreOfNames};

use crate::rdn::{Rdn, TypeAndKey};
use std::alloc::{AllocError, Global};

/// Puts a number, its lowest digit to the base 256 first.
fn put_number(out: &mut Vec<u8>, number: usize) -> Result<(), AllocError>
    ensures ok { OnOk result (out.new.items ≡ out.old.items ++ number_octets number) }
    ensures kept { out.new.items ≡ out.old.items ++ drop (length out.old.items) out.new.items }
{
    let mut left = number;
    while left > 0 {
        out.push(1)?;
        out.push((left % 256) as u8)?;
        left /= 256;
    }
    out.push(0)?;
    Ok(())
}

/// Puts octets.
fn put_octets(out: &mut Vec<u8>, octets: &[u8]) -> Result<(), AllocError>
    ensures ok { OnOk result (out.new.items ≡ out.old.items ++ listed itself octets.now) }
    ensures kept { out.new.items ≡ out.old.items ++ drop (length out.old.items) out.new.items }
{
    for octet in octets {
        out.push(1)?;
        out.push(*octet)?;
    }
    out.push(0)?;
    Ok(())
}

/// Puts a type and a key.
fn put_pair(out: &mut Vec<u8>, pair: &TypeAndKey) -> Result<(), AllocError>
    ensures ok { OnOk result (out.new.items ≡ out.old.items ++ pair_octets pair.now) }
    ensures kept { out.new.items ≡ out.old.items ++ drop (length out.old.items) out.new.items }
{
    put_number(out, pair.type_id.number())?;
    put_octets(out, pair.key.as_octets())
}

/// Puts the types and keys of a relative name.
fn put_pairs(out: &mut Vec<u8>, pairs: &[TypeAndKey]) -> Result<(), AllocError>
    ensures ok { OnOk result (out.new.items ≡ out.old.items ++ listed pair_octets pairs.now) }
    ensures kept { out.new.items ≡ out.old.items ++ drop (length out.old.items) out.new.items }
{
    for pair in pairs {
        out.push(1)?;
        put_pair(out, pair)?;
    }
    out.push(0)?;
    Ok(())
}

/// Puts a relative name.
fn put_rdn(out: &mut Vec<u8>, rdn: &Rdn) -> Result<(), AllocError>
    ensures ok { OnOk result (out.new.items ≡ out.old.items ++ listed pair_octets rdn.now.keys) }
    ensures kept { out.new.items ≡ out.old.items ++ drop (length out.old.items) out.new.items }
{
    put_pairs(out, rdn.keys.as_slice())
}

/// Puts relative names.
fn put_rdns(out: &mut Vec<u8>, rdns: &[Rdn]) -> Result<(), AllocError>
    ensures ok { OnOk result (out.new.items ≡ out.old.items ++ name_key (map (λ r. r.keys) rdns.now)) }
    ensures kept { out.new.items ≡ out.old.items ++ drop (length out.old.items) out.new.items }
{
    for rdn in rdns {
        out.push(1)?;
        put_rdn(out, rdn)?;
    }
    out.push(0)?;
    Ok(())
}

/// The octets of the key of a name.
pub fn key_octets(alloc: Global, rdns: &[Rdn]) -> Result<Vec<u8>, AllocError>
    ensures { IfOk result (λ v. v.items ≡ name_key (map (λ r. r.keys) rdns.now)) }
{
    let mut out = Vec::new(alloc);
    put_rdns(&mut out, rdns)?;
    Ok(out)
}

/// Names have one key exactly where they are one name.
pub fn name_keys_are_of_names()
    ensures { NameKeysAreOfNames }
{}
