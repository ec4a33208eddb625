//! Values that are names (RFC 4517 3.3.9).

ghost use Rattle.std.specs.Prelude.{◌≡◌, None, Some, IfOk, IsErrOf, is_some, option_map};
ghost use Rattle.ldap_match.specs.Meaning.{name_of as name_of_value};
ghost use Rattle.ldap_match.specs.Keyed.{key_of_name};
ghost use Rattle.ldap_match.specs.NameValues.{EqualValuesAreOneName};

use ldap_dn::{Key, Name, NameError, Schema, ValueError};
use std::alloc::{AllocError, Global};
use std::str;

/// The name of a text.
fn name_of_text(alloc: Global, schema: &Schema, text: &str) -> Result<Name, ValueError>
    ensures found { IfOk result (λ n. name_of_value schema.now text.now ≡ Some n) }
    ensures refused { IsErrOf result ValueError.NotInSyntax → name_of_value schema.now text.now ≡ None }
{
    match Name::read(alloc, schema, text) {
        Ok(name) => Ok(name),
        Err(NameError::BadName) => Err(ValueError::NotInSyntax),
        Err(NameError::NoMemory) => Err(ValueError::NoMemory),
    }
}

/// The name that a value spells.
fn name_of(alloc: Global, schema: &Schema, value: &[u8]) -> Result<Name, ValueError>
    ensures found { IfOk result (λ n. name_of_value schema.now value.now ≡ Some n) }
    ensures refused { IsErrOf result ValueError.NotInSyntax → name_of_value schema.now value.now ≡ None }
{
    match str::from_utf8(value) {
        Ok(text) => name_of_text(alloc, schema, text),
        Err(_) => Err(ValueError::NotInSyntax),
    }
}

/// The key of the name that a value spells: names have one key exactly where they are one name
/// (`ldap_dn::name_keys_are_of_names`).
pub fn name_key(alloc: Global, schema: &Schema, value: &[u8]) -> Result<Key, ValueError>
    ensures key { IfOk result (λ k. option_map key_of_name (name_of_value schema.now value.now) ≡ Some k) }
    ensures refused { IsErrOf result ValueError.NotInSyntax → name_of_value schema.now value.now ≡ None }
{
    let name = name_of(alloc, schema, value)?;
    Ok(name.key(alloc)?)
}

/// Whether a value spells a name. Its only error is want of memory.
pub fn is_name(alloc: Global, schema: &Schema, value: &[u8]) -> Result<bool, AllocError>
    ensures { IfOk result (λ b. b ≡ is_some (name_of_value schema.now value.now)) }
{
    match name_of(alloc, schema, value) {
        Ok(_) => Ok(true),
        Err(ValueError::NotInSyntax) => Ok(false),
        Err(ValueError::NoMemory) => Err(AllocError),
    }
}

/// Values that are names are equal exactly where they are one name, whatever their spellings.
pub fn equal_values_are_one_name()
    ensures { EqualValuesAreOneName }
{}
