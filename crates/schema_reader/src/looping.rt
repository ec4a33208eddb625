// Finds what is wrong with the types and classes of a text.

ghost use Rattle.std.specs.Prelude.{◌≡◌, slice_get};
ghost use Rattle.schema_meaning.specs.Faults.{first_of_types};
ghost use Rattle.schema_reader.specs.Reading as reading;

use ldap_schema::{AttributeType, ObjectClass, TypeId, class_called, type_called};
use schema_meaning::{Description, Family, Rule, SchemaText, Syntax};

/// Whether the rule is objectIdentifierMatch on its syntax.
fn is_identifier_rule(rule: Option<Rule>) -> bool
    ensures { result ≡ reading.is_identifier_rule rule }
{
    match rule {
        None => false,
        Some(rule) => match rule.syntax {
            Syntax::ObjectIdentifier => rule.family == Family::Identifier,
            Syntax::Boolean
            | Syntax::DistinguishedName
            | Syntax::DirectoryString
            | Syntax::GeneralizedTime
            | Syntax::Ia5String
            | Syntax::Integer
            | Syntax::NumericString
            | Syntax::OctetString
            | Syntax::TelephoneNumber => false,
        },
    }
}

/// Whether the type of a number has objectIdentifierMatch.
fn has_identifier_rule(types: &[AttributeType], type_id: TypeId) -> bool
    ensures { result ≡ reading.has_identifier_rule (slice_get types.now type_id) }
{
    match types.get(type_id.number()) {
        None => false,
        Some(found) => is_identifier_rule(found.equality()),
    }
}

/// The type objectClass, if it is there with objectIdentifierMatch.
pub fn object_class_type(types: &[AttributeType]) -> Option<TypeId>
    ensures { result ≡ reading.object_class_in types.now }
{
    let type_id = type_called(types, b"objectClass")?;
    if has_identifier_rule(types, type_id) {
        Some(type_id)
    } else {
        None
    }
}

/// Whether the type of a number has no EQUALITY rule.
fn has_no_equality(types: &[AttributeType], number: usize) -> bool
    ensures { result ≡ reading.has_no_equality (slice_get types.now number) }
{
    match types.get(number) {
        None => false,
        Some(found) => found.equality().is_none(),
    }
}

/// The line of the first type without an EQUALITY rule.
pub fn no_equality(types: &[AttributeType], descriptions: &[Description]) -> Option<usize>
    ensures { result ≡ first_of_types (λ t d. reading.has_no_equality (slice_get types.now t)) 0 descriptions.now }
{
    for (number, description) in descriptions.iter().enumerate() {
        if has_no_equality(types, number) {
            return Some(description.line());
        }
    }
    None
}

/// The type objectClass, if it is there with objectIdentifierMatch and the class top is there.
pub fn required(types: &[AttributeType], classes: &[ObjectClass]) -> Option<TypeId>
    ensures { result ≡ reading.required_in (record { types = types.now; classes = classes.now }) }
{
    match class_called(classes, b"top") {
        Some(_) => object_class_type(types),
        None => None,
    }
}
