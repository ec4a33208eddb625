//! Makes the keys of values, names too, where a schema is known.

ghost use Rattle.std.specs.Prelude.{◌≡◌, ◌≢◌, true, IfOk, OnOk, IsErrOf, None, Some, is_some};
ghost use Rattle.ldap_dn.specs.ldap_words.declared.rule.Family.TheVariants as family_of;
ghost use Rattle.ldap_match.specs.Meaning.{meaning};
ghost use Rattle.ldap_match.specs.Item.{equal, at_least, at_most, is_answerable, is_of_syntax as is_of_type_syntax, is_in_syntax as is_in_schema_syntax};
ghost use Rattle.ldap_match.specs.Keyed.{key_at};

use crate::naming::{is_name, name_key};
use crate::ruling::ordering_rule;
use ldap_dn::{
    Family, Key, Rule, Schema, Syntax, TypeId, ValueError, equality_rule, is_identifier,
    is_in_syntax, is_meaningful as is_plainly_meaningful, key as plain_key,
};
use std::alloc::{AllocError, Global};

/// The value's key under the rule: of a name that of its relative names as sets (RFC 4517 4.2.15), and a name of a
/// type or a class stands for its object identifier (RFC 4517 3.3.26). Keys of one rule are equal exactly where the
/// meanings of the values are.
pub fn key(alloc: Global, schema: &Schema, rule: Rule, value: &[u8]) -> Result<Key, ValueError>
    ensures key { IfOk result (λ k. key_at schema.now rule value.now ≡ Some k) }

    // E11 comes exactly where the value means nothing under the rule; of a name that is no name's text want of memory
    // may be told instead, since it is read first.
    ensures meant { OnOk result (is_some (meaning schema.now rule value.now) ≡ true) }
    ensures not_in_syntax { IsErrOf result ValueError.NotInSyntax → meaning schema.now rule value.now ≡ None }
    ensures at_once { rule.family ≢ family_of.Name → meaning schema.now rule value.now ≡ None
        → IsErrOf result ValueError.NotInSyntax }
{
    match rule.family {
        Family::Name => name_key(alloc, schema, value),
        _ => plain_key(alloc, schema, rule, value),
    }
}

/// Whether the value is in the type's syntax: it means something under the type's EQUALITY rule, where it has one.
/// Its only error is want of memory.
pub fn is_of_syntax(
    alloc: Global,
    schema: &Schema,
    type_id: TypeId,
    value: &[u8],
) -> Result<bool, AllocError>
    ensures { IfOk result (λ b. b ≡ is_of_type_syntax schema.now type_id value.now) }
{
    let Some(attribute_type) = schema.attribute_type(type_id) else {
        return Ok(false);
    };
    match attribute_type.equality() {
        Some(rule) => is_meaningful(alloc, schema, rule, value),
        None => is_in_syntax_of(alloc, schema, attribute_type.syntax(), value),
    }
}

/// Whether an ordering item on the type can be answered: the type has an ORDERING rule, and the assertion means
/// something under it. Takes no memory.
pub fn is_ordered(schema: &Schema, type_id: TypeId, assertion: &[u8]) -> bool
    ensures at_least { result ≡ is_answerable schema.now (at_least assertion.now) type_id }
    ensures at_most { result ≡ is_answerable schema.now (at_most assertion.now) type_id }
{
    match ordering_rule(schema, type_id) {
        Some(rule) => is_plainly_meaningful(schema, rule, assertion),
        None => false,
    }
}

/// Whether an equality item on the type can be answered: the type has an EQUALITY rule, and the assertion means
/// something under it (RFC 4511 4.5.1.7). Its only error is want of memory.
pub fn is_comparable(
    alloc: Global,
    schema: &Schema,
    type_id: TypeId,
    assertion: &[u8],
) -> Result<bool, AllocError>
    ensures { IfOk result (λ b. b ≡ is_answerable schema.now (equal assertion.now) type_id) }
{
    match equality_rule(schema, type_id) {
        Some(rule) => is_meaningful(alloc, schema, rule, assertion),
        None => Ok(false),
    }
}

/// Whether the value means something under the rule. Its only error is want of memory.
pub fn is_meaningful(
    alloc: Global,
    schema: &Schema,
    rule: Rule,
    value: &[u8],
) -> Result<bool, AllocError>
    ensures { IfOk result (λ b. b ≡ is_some (meaning schema.now rule value.now)) }
{
    match rule.family {
        Family::Name => is_name(alloc, schema, value),
        _ => Ok(is_plainly_meaningful(schema, rule, value)),
    }
}

/// Whether the value is in the syntax, names too, and where a name may stand for an object identifier.
fn is_in_syntax_of(
    alloc: Global,
    schema: &Schema,
    syntax: Syntax,
    value: &[u8],
) -> Result<bool, AllocError>
    ensures { IfOk result (λ b. b ≡ is_in_schema_syntax schema.now syntax value.now) }
{
    match syntax {
        Syntax::DistinguishedName => is_name(alloc, schema, value),
        Syntax::ObjectIdentifier => Ok(is_identifier(schema, value)),
        _ => Ok(is_in_syntax(syntax, value)),
    }
}
