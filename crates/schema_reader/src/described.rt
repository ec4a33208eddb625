// Makes types and classes of descriptions.

ghost use Rattle.std.specs.Prelude.{◌≡◌, IfOk, map, string_bytes};
ghost use Rattle.schema_meaning.specs.Naming as naming;
ghost use Rattle.schema_reader.specs.Described as described;

use ldap_schema::{AttributeType, ClassId, ClassKind, ObjectClass, TypeId};
use schema_meaning::{
    Called, Description, Effect, Effects, Family, Field, Given, IndexedText, Keyword, Rule, Syntax,
    names, superior_of,
};
use std::alloc::{AllocError, Global};

/// The octets as text, if they are text.
fn text_of(alloc: Global, octets: Vec<u8>) -> String
    ensures { string_bytes result ≡ described.as_text octets.items }
{
    match String::from_utf8(octets) {
        Ok(text) => text,
        Err(_) => String::new(alloc),
    }
}

/// The octets as text.
fn as_text(alloc: Global, octets: &[u8]) -> Result<String, AllocError>
    ensures { IfOk result (λ t. string_bytes t ≡ described.as_text octets.now) }
{
    Ok(text_of(alloc, Vec::from_slice(alloc, octets)?))
}

/// The words as texts.
fn as_texts(alloc: Global, words: &[Vec<u8>]) -> Result<Vec<String>, AllocError>
    ensures { IfOk result (λ v. map string_bytes v.items ≡ map described.as_text (map (λ w. w.items) words.now)) }
{
    let mut texts = Vec::new(alloc);
    for word in words {
        texts.push(as_text(alloc, word.as_slice())?)?;
    }
    Ok(texts)
}

/// The syntax that is given.
fn known_syntax(given: Given) -> Syntax
    ensures { result ≡ described.known_syntax given }
{
    match given {
        Given::Missing | Given::Unknown => Syntax::OctetString,
        Given::Known(syntax) => syntax,
    }
}

/// The rule of a family on the syntax that is given.
fn rule_on(given: Given, family: Option<Family>) -> Option<Rule>
    ensures { result ≡ described.rule_on given family }
{
    match family {
        None => None,
        Some(family) => Some(Rule {
            family,
            syntax: known_syntax(given),
        }),
    }
}

/// The superior type of a description.
fn superior(types: &Called, description: &Description) -> Option<TypeId>
    ensures { result ≡ naming.superior_of types.now description.now }
{
    match superior_of(types, description) {
        None => None,
        Some(number) => Some(TypeId::new(number)),
    }
}

/// The type of a description with what is in effect for it.
fn type_with(
    alloc: Global,
    types: &Called,
    description: &Description,
    effect: Effect,
) -> Result<AttributeType, AllocError>
    ensures { IfOk result (λ t. t ≡ described.type_with types.now description.now effect) }
{
    Ok(AttributeType {
        oid: as_text(alloc, description.oid())?,
        names: as_texts(alloc, names(description))?,
        superior: superior(types, description),
        syntax: known_syntax(effect.syntax),
        equality: rule_on(effect.syntax, effect.equality),
        ordering: rule_on(effect.syntax, effect.ordering),
        substrings: rule_on(effect.syntax, effect.substrings),
        is_single_value: description.has(Keyword::SingleValue),
    })
}

/// The types of descriptions, in their order.
pub fn types_of(alloc: Global, types: &Called) -> Result<Vec<AttributeType>, AllocError>
    ensures { IfOk result (λ v. v.items ≡ described.types_from types.now 0 types.now) }
{
    let effects = Effects::of(alloc, types)?;
    let descriptions = types.all();
    let mut found = Vec::new(alloc);
    for (number, description) in descriptions.iter().enumerate() {
        let effect = effects.of_type(number);
        found.push(type_with(alloc, types, description, effect)?)?;
    }
    Ok(found)
}

/// The types that the words call.
fn type_numbers(alloc: Global, types: &Called, words: &[Vec<u8>]) -> Result<Vec<TypeId>, AllocError>
    ensures { IfOk result (λ v. v.items ≡ described.numbers_of types.now (map (λ w. w.items) words.now)) }
{
    let mut numbers = Vec::new(alloc);
    for word in words {
        match types.find(word.as_slice()) {
            Some(number) => numbers.push(TypeId::new(number))?,
            None => {}
        }
    }
    Ok(numbers)
}

/// The classes that the words call.
fn class_numbers(
    alloc: Global,
    classes: &Called,
    words: &[Vec<u8>],
) -> Result<Vec<ClassId>, AllocError>
    ensures { IfOk result (λ v. v.items ≡ described.numbers_of classes.now (map (λ w. w.items) words.now)) }
{
    let mut numbers = Vec::new(alloc);
    for word in words {
        match classes.find(word.as_slice()) {
            Some(number) => numbers.push(ClassId::new(number))?,
            None => {}
        }
    }
    Ok(numbers)
}

/// The kind of a class.
fn kind_of(fields: &[Field]) -> ClassKind
    ensures { result ≡ described.kind_of fields.now }
{
    for field in fields {
        match field.keyword() {
            Keyword::Abstract => return ClassKind::Abstract,
            Keyword::Structural => return ClassKind::Structural,
            Keyword::Auxiliary => return ClassKind::Auxiliary,
            Keyword::Name
            | Keyword::Desc
            | Keyword::Obsolete
            | Keyword::Sup
            | Keyword::Equality
            | Keyword::Ordering
            | Keyword::Substr
            | Keyword::Syntax
            | Keyword::SingleValue
            | Keyword::Usage
            | Keyword::Must
            | Keyword::May
            | Keyword::Extension => {}
        }
    }
    ClassKind::Structural
}

/// The class of a description.
fn class_of(
    alloc: Global,
    text: &IndexedText,
    description: &Description,
) -> Result<ObjectClass, AllocError>
    ensures { IfOk result (λ c. c ≡ described.class_of text.now description.now) }
{
    Ok(ObjectClass {
        oid: as_text(alloc, description.oid())?,
        names: as_texts(alloc, names(description))?,
        superiors: class_numbers(alloc, text.classes(), description.texts(Keyword::Sup))?,
        kind: kind_of(description.fields()),
        required: type_numbers(alloc, text.types(), description.texts(Keyword::Must))?,
        allowed: type_numbers(alloc, text.types(), description.texts(Keyword::May))?,
    })
}

/// The classes of descriptions, in their order.
pub fn classes_of(alloc: Global, text: &IndexedText) -> Result<Vec<ObjectClass>, AllocError>
    ensures { IfOk result (λ v. v.items ≡ map (described.class_of text.now) text.now.classes) }
{
    let mut found = Vec::new(alloc);
    let classes = text.classes().all();
    for description in classes {
        found.push(class_of(alloc, text, description)?)?;
    }
    Ok(found)
}
