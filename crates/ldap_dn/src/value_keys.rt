//! Makes the keys of values that are no names, where a schema is known.

ghost use Rattle.std.specs.Prelude.{◌≡◌, ◌↔◌, IfOk, IsErrOf, None, Some, option_map, is_some};
ghost use Rattle.ldap_dn.specs.Meaning.{meaning, named_oid as named_identifier, dotted};
ghost use Rattle.ldap_dn.specs.Keyed.{key_at};

use ldap_schema::{Family, Rule, Schema, is_numericoid};
use ldap_syntax::{Key, ValueError, has_meaning, key_of};
use std::alloc::Global;

/// The object identifier that the name of a type, or else of a class, stands for.
fn named_oid<'a>(schema: &'a Schema, name: &[u8]) -> Option<&'a str>
    ensures { option_map (λ x. x.now) result ≡ named_identifier schema.now name.now }
{
    match schema.find_octets(name) {
        Some(type_id) => Some(schema.attribute_type(type_id)?.oid()),
        None => Some(schema.object_class(schema.class_octets(name)?)?.oid()),
    }
}

/// The value's key under the rule, where a name of a type or a class stands for its object identifier (RFC 4517
/// 3.3.26). Keys of one rule are equal exactly where the meanings of the values are (`keys_compare`).
/// Under a rule of the family of names no value has a key here.
pub fn key(alloc: Global, schema: &Schema, rule: Rule, value: &[u8]) -> Result<Key, ValueError>
    ensures key { IfOk result (λ k. key_at schema.now rule value.now ≡ Some k) }

    // E11 comes exactly where the value means nothing under the rule.
    ensures not_in_syntax { IsErrOf result ValueError.NotInSyntax ↔ (meaning schema.now rule value.now ≡ None) }
{
    match rule.family {
        Family::Identifier => {
            if is_numericoid(value) {
                Ok(Key::from_slice(alloc, value)?)
            } else {
                match named_oid(schema, value) {
                    Some(oid) => Ok(Key::from_slice(alloc, oid.as_bytes())?),
                    None => Err(ValueError::NotInSyntax),
                }
            }
        }
        _ => key_of(alloc, rule, value),
    }
}

/// Whether the value means something under the rule: exactly then `key` does not answer E11. Takes no memory.
pub fn is_meaningful(schema: &Schema, rule: Rule, value: &[u8]) -> bool
    ensures { result ≡ is_some (meaning schema.now rule value.now) }
{
    match rule.family {
        Family::Identifier => is_identifier(schema, value),
        _ => has_meaning(rule, value),
    }
}

/// Whether the value is an object identifier, or a name that stands for one. Takes no memory.
pub fn is_identifier(schema: &Schema, value: &[u8]) -> bool
    ensures { result ≡ is_some (dotted schema.now value.now) }
{
    is_numericoid(value) || named_oid(schema, value).is_some()
}
