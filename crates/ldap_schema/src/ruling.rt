//! The rule that values of a type are equal by.

ghost use Rattle.std.specs.Prelude.{◌≡◌};
ghost use Rattle.ldap_schema.specs.Rules.{equality_of};

use crate::attribute_type::TypeId;
use crate::schema::Schema;
use ldap_words::Rule;

/// The EQUALITY rule in effect for the type; none, where it lacks one or is another schema's.
pub fn equality_rule(schema: &Schema, type_id: TypeId) -> Option<Rule>
    ensures { result ≡ equality_of schema.now type_id }
{
    schema.attribute_type(type_id)?.equality()
}
