//! Finds the ORDERING and SUBSTR rules of a type.

ghost use Rattle.std.specs.Prelude.{◌≡◌};
ghost use Rattle.ldap_match.specs.Item.{ordering_of, substrings_of};

use ldap_dn::{Rule, Schema, TypeId, has_ordering, has_substrings};

/// The ORDERING rule in effect for the type; none, where it lacks one or is another schema's. It keys values as the
/// EQUALITY rule does.
pub fn ordering_rule(schema: &Schema, type_id: TypeId) -> Option<Rule>
    ensures { result ≡ ordering_of schema.now type_id }
{
    let attribute_type = schema.attribute_type(type_id)?;
    attribute_type.ordering()?;
    let rule = attribute_type.equality()?;
    if has_ordering(rule.family) {
        Some(rule)
    } else {
        None
    }
}

/// The SUBSTR rule in effect for the type; none, where it lacks one or is another schema's. It keys values as the
/// EQUALITY rule does.
pub fn substrings_rule(schema: &Schema, type_id: TypeId) -> Option<Rule>
    ensures { result ≡ substrings_of schema.now type_id }
{
    let attribute_type = schema.attribute_type(type_id)?;
    attribute_type.substrings()?;
    let rule = attribute_type.equality()?;
    if has_substrings(rule.family) {
        Some(rule)
    } else {
        None
    }
}
