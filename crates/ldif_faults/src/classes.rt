//! Finds which rule of its classes a record of LDIF breaks (RFC 4512 2.4). The types of the name's first part count as
//! given.
ghost use Rattle.std.specs.Prelude.{◌≡◌, ◌++◌, ◌||◌, ◌&&◌, ℕ, [], None, IfOk, OnOk, codes, false, length, map, nat_eq, nat_lt, option_map, slice_get, slice_index_or, string_bytes};
ghost use Rattle.std.specs.List.{filter, last_or, list_any};
ghost use Rattle.std.specs.Option.{unwrap_or};
ghost use Rattle.ldap_match.specs.ldap_schema.Schema.{class_name, find, type_at};
ghost use Rattle.ldap_match.specs.ldap_schema.Superclasses.{is_among};
ghost use Rattle.ldif_faults.specs.Placed as placed;
ghost use Rattle.ldif_faults.specs.Values.{first_line, is_number};
ghost use Rattle.ldif_faults.specs.Classes.{class_in, classes_in, classes_of, is_unknown_class, unknown_class, types_in, given, has, types_of};
ghost use Rattle.ldif_faults.specs.Classes.{required_of, allowed_in, allowed, is_structural_in, structural, title_in, lacks, missing, first_missing, foreign};
ghost use Rattle.ldif_faults.specs.Classes.{not_allowed, at_line_or, foreign_by, bad_types, by_chain, demanded_by, demanded, broken_class};

use crate::placed::{Placed, PlacedRecord, ValueLine, at_line, at_name, said_at_name};
use crate::values::{is_object_class, name_in, no_class, own_pairs};
use ldap_match::{ClassId, ClassKind, Schema, TypeAndValue, TypeId};
use std::alloc::{AllocError, Global};
use std::marker::Model;
use text_faults::{about_word, about_words};

/// The class that a line names.
fn class_in(schema: &Schema, line: &ValueLine<'_>) -> Option<ClassId>
    ensures { result ≡ class_in schema.now line.now }
{
    if is_object_class(schema, line) {
        schema.class_octets(line.octets())
    } else {
        None
    }
}

/// The classes that lines name.
fn classes_in(
    alloc: Global,
    schema: &Schema,
    lines: &[ValueLine<'_>],
) -> Result<Vec<ClassId>, AllocError>
    ensures { IfOk result (λ v. v.items ≡ classes_in schema.now lines.now) }
{
    let mut classes = Vec::new(alloc);
    for line in lines {
        if let Some(class) = class_in(schema, line) {
            classes.push(class)?;
        }
    }
    Ok(classes)
}

/// The classes of a record, those above them too.
fn classes_of(
    alloc: Global,
    schema: &Schema,
    lines: &[ValueLine<'_>],
) -> Result<Vec<ClassId>, AllocError>
    ensures { IfOk result (λ v. v.items ≡ classes_of schema.now lines.now) }
{
    let mut classes = classes_in(alloc, schema, lines)?;
    let above = schema.missing_superclasses(alloc, classes.as_slice())?;
    classes.extend_from_slice(above.as_slice())?;
    Ok(classes)
}

/// Whether a line names a class that the schema lacks.
fn is_unknown_class(schema: &Schema, line: &ValueLine<'_>) -> bool
    ensures { result ≡ is_unknown_class schema.now line.now }
{
    is_object_class(schema, line) && schema.class_octets(line.octets()).is_none()
}

/// The last line that names a class that the schema lacks.
fn unknown_class<'a, 'v>(schema: &Schema, lines: &'a [ValueLine<'v>]) -> Option<&'a ValueLine<'v>>
    ensures { option_map (λ x. x.now) result ≡ last_or None (filter (is_unknown_class schema.now) lines.now) }
{
    let mut last = None;
    for line in lines {
        if is_unknown_class(schema, line) {
            last = Some(line);
        }
    }
    last
}

/// The type that a line gives a value of.
fn type_in(schema: &Schema, line: &ValueLine<'_>) -> Option<TypeId>
    ensures { result ≡ find schema.now line.now.description }
{
    schema.find_octets(line.description())
}

/// The types that lines give values of.
fn types_in(
    alloc: Global,
    schema: &Schema,
    lines: &[ValueLine<'_>],
) -> Result<Vec<TypeId>, AllocError>
    ensures { IfOk result (λ v. v.items ≡ types_in schema.now lines.now) }
{
    let mut types = Vec::new(alloc);
    for line in lines {
        if let Some(type_id) = type_in(schema, line) {
            types.push(type_id)?;
        }
    }
    Ok(types)
}

/// The types of types and values.
fn kinds(alloc: Global, parts: &[TypeAndValue]) -> Result<Vec<TypeId>, AllocError>
    ensures { IfOk result (λ v. v.items ≡ map (λ x. x.kind) parts.now) }
{
    let mut types = Vec::new(alloc);
    for part in parts {
        types.push(part.type_id())?;
    }
    Ok(types)
}

/// The types that a record gives values of.
fn given(alloc: Global, schema: &Schema, item: &PlacedRecord<'_>) -> Result<Vec<TypeId>, AllocError>
    ensures { IfOk result (λ v. v.items ≡ given schema.now item.now) }
{
    let mut types = types_in(alloc, schema, item.lines())?;
    let name = name_in(alloc, schema, item.name())?;
    let above = kinds(alloc, own_pairs(&name))?;
    types.extend_from_slice(above.as_slice())?;
    Ok(types)
}

/// Marks the place of a type, where there is one.
fn mark(marks: &mut Vec<bool>, number: usize)
    ensures len { length marks.new.items ≡ length marks.old.items }
    ensures marks { (t : ℕ) → slice_index_or marks.new.items t false ≡ (slice_index_or marks.old.items t false ||
        (nat_lt t (length marks.old.items) && nat_eq t number)) }
{
    if number < marks.len() {
        marks[number] = true;
    }
}

/// A mark at the place of each of types.
fn marks_of(alloc: Global, count: usize, types: &[TypeId]) -> Result<Vec<bool>, AllocError>
    ensures { IfOk result (λ v. (t : ℕ) → slice_index_or v.items t false ≡ (nat_lt t count && is_among types.now t)) }
{
    let mut marks = vec![in alloc; false; count]?;
    for type_id in types {
        mark(&mut marks, type_id.number());
    }
    Ok(marks)
}

/// Types, of which those below a number count.
struct TypeSet {
    count: usize,
    types: Vec<TypeId>,
    marks: Vec<bool>,
}

// Not derived: see "What the gate takes" in docs/ARCHITECTURE.md.
impl Drop for TypeSet {
    fn drop(self) {
        let TypeSet {
            count: _,
            types: _,
            marks: _,
        } = self;
    }
}

impl Model for TypeSet {
    ghost use Rattle.std.specs.Prelude.{◌≡◌, ℕ, false, slice_index_or};
    ghost use Rattle.ldif_faults.specs.Classes.{TypesModel, has};

    ghost Value = { TypesModel };

    ghost view = { λ s. record { count = s.count; types = s.types.items } };

    ghost invariant = { λ s. (t : ℕ) → slice_index_or s.marks.items t false ≡
        has (record { count = s.count; types = s.types.items }) t };
}

impl TypeSet {
    /// These types, as far as they are below a number.
    fn of(alloc: Global, count: usize, types: Vec<TypeId>) -> Result<TypeSet, AllocError>
        ensures { IfOk result (λ s. s ≡ record { count = count; types = types.items }) }
    {
        let marks = marks_of(alloc, count, types.as_slice())?;
        Ok(TypeSet {
            count,
            types,
            marks,
        })
    }

    /// The number that its types are below.
    fn count(&self) -> usize
        ensures { result ≡ self.now.count }
    {
        self.count
    }

    /// Whether a type is among them.
    fn has(&self, number: usize) -> bool
        ensures { result ≡ has self.now number }
    {
        self.marks.as_slice().get(number).copied().unwrap_or(false)
    }
}

/// Types, as far as they are the schema's.
fn types_of(alloc: Global, schema: &Schema, types: Vec<TypeId>) -> Result<TypeSet, AllocError>
    ensures { IfOk result (λ s. s ≡ types_of schema.now types.items) }
{
    TypeSet::of(alloc, schema.count_of_types(), types)
}

/// The types that a class requires.
fn required_of(schema: &Schema, class: ClassId) -> &[TypeId]
    ensures { result.now ≡ required_of schema.now class }
{
    match schema.object_class(class) {
        Some(found) => found.required(),
        None => &[],
    }
}

/// Adds the types that a class requires or allows.
fn push_allowed(types: &mut Vec<TypeId>, schema: &Schema, class: ClassId) -> Result<(), AllocError>
    ensures { OnOk result (types.new.items ≡ types.old.items ++ allowed_in (slice_get schema.now.classes class)) }
{
    let Some(found) = schema.object_class(class) else {
        return Ok(());
    };
    types.extend_from_slice(found.required())?;
    types.extend_from_slice(found.allowed())
}

/// The types that classes require or allow.
fn allowed(alloc: Global, schema: &Schema, classes: &[ClassId]) -> Result<Vec<TypeId>, AllocError>
    ensures { IfOk result (λ v. v.items ≡ allowed schema.now classes.now) }
{
    let mut types = Vec::new(alloc);
    for class in classes {
        push_allowed(&mut types, schema, *class)?;
    }
    Ok(types)
}

/// Whether a class is structural.
fn is_structural(schema: &Schema, class: ClassId) -> bool
    ensures { result ≡ is_structural_in (slice_get schema.now.classes class) }
{
    match schema.object_class(class) {
        Some(found) => match found.kind() {
            ClassKind::Structural => true,
            ClassKind::Abstract | ClassKind::Auxiliary => false,
        },
        None => false,
    }
}

/// The structural classes among classes.
fn structural(
    alloc: Global,
    schema: &Schema,
    classes: &[ClassId],
) -> Result<Vec<ClassId>, AllocError>
    ensures { IfOk result (λ v. v.items ≡ structural schema.now classes.now) }
{
    let mut found = Vec::new(alloc);
    for class in classes {
        if is_structural(schema, *class) {
            found.push(*class)?;
        }
    }
    Ok(found)
}

/// The first name of a type, or its object identifier.
fn title_in(schema: &Schema, type_id: TypeId) -> &str
    ensures { result.now ≡ title_in (type_at schema.now type_id) }
{
    match schema.attribute_type(type_id) {
        Some(found) => match found.names() {
            [first, ..] => first.as_str(),
            [] => found.oid(),
        },
        None => "",
    }
}

/// The first name of a class; nothing, where there is none.
fn name_of_class(schema: &Schema, class: ClassId) -> &str
    ensures { result.now ≡ unwrap_or (class_name schema.now class) [] }
{
    match schema.class_name(class) {
        Some(name) => name,
        None => "",
    }
}

/// The first of types that isn't among others.
fn lacks(types: &TypeSet, required: &[TypeId]) -> Option<TypeId>
    ensures { result ≡ lacks types.now required.now }
{
    for type_id in required {
        if !types.has(type_id.number()) {
            return Some(*type_id);
        }
    }
    None
}

/// A type that a class requires and a record lacks.
fn missing(
    alloc: Global,
    schema: &Schema,
    type_id: TypeId,
    class: ClassId,
) -> Result<String, AllocError>
    ensures { IfOk result (λ s. string_bytes s ≡ missing schema.now type_id class) }
{
    about_words(
        alloc,
        "no value of '",
        title_in(schema, type_id).as_bytes(),
        "', which the class '",
        name_of_class(schema, class).as_bytes(),
        "' requires",
    )
}

/// The first type that a class requires and a record lacks.
fn first_missing(
    alloc: Global,
    schema: &Schema,
    types: &TypeSet,
    classes: &[ClassId],
) -> Result<Option<String>, AllocError>
    ensures { IfOk result (λ o. option_map string_bytes o ≡ first_missing schema.now types.now classes.now) }
{
    for class in classes {
        if let Some(type_id) = lacks(types, required_of(schema, *class)) {
            return Ok(Some(missing(alloc, schema, type_id, *class)?));
        }
    }
    Ok(None)
}

#[tactic(auto, using(crate::proofs::Numbers::lowest_step, crate::proofs::Numbers::lowest_none))]
/// The first type that is among some and not among others.
fn foreign(types: &TypeSet, others: &TypeSet) -> Option<TypeId>
    ensures { result ≡ foreign types.now others.now }
{
    for number in 0..types.count() {
        if types.has(number) && !others.has(number) {
            return Some(TypeId::new(number));
        }
    }
    None
}

/// A type that none of the classes allows.
fn not_allowed(alloc: Global, schema: &Schema, type_id: TypeId) -> Result<String, AllocError>
    ensures { IfOk result (λ s. string_bytes s ≡ not_allowed schema.now type_id) }
{
    about_word(
        alloc,
        "'",
        title_in(schema, type_id).as_bytes(),
        "' is allowed by none of the entry's classes",
    )
}

/// Whether this is the type.
fn is_number(type_id: TypeId, found: Option<TypeId>) -> bool
    ensures { result ≡ is_number type_id found }
{
    match found {
        Some(found) => type_id == found,
        None => false,
    }
}

/// The first line that gives a value of a type.
fn first_of<'a, 'v>(
    schema: &Schema,
    type_id: TypeId,
    lines: &'a [ValueLine<'v>],
) -> Option<&'a ValueLine<'v>>
    ensures { option_map (λ x. x.now) result ≡
        first_line (λ line. is_number type_id (find schema.now line.description)) lines.now }
{
    for line in lines {
        if is_number(type_id, type_in(schema, line)) {
            return Some(line);
        }
    }
    None
}

/// A sentence of a line, or else of the whole record.
fn at_line_or(item: &PlacedRecord<'_>, sentence: String, line: Option<&ValueLine<'_>>) -> Placed
    ensures { result ≡ at_line_or item.now (string_bytes sentence) (option_map (λ x. x.now) line.entry) }
{
    match line {
        Some(line) => at_line(line, sentence),
        None => at_name(item, sentence),
    }
}

/// A type that none of the classes allows, at its first value, or no type.
fn foreign_by(
    alloc: Global,
    schema: &Schema,
    item: &PlacedRecord<'_>,
    type_id: Option<TypeId>,
) -> Result<Placed, AllocError>
    ensures { IfOk result (λ p. p ≡ foreign_by schema.now item.now type_id) }
{
    let Some(type_id) = type_id else {
        return said_at_name(alloc, item, "the entry breaks a rule of its classes");
    };
    let sentence = not_allowed(alloc, schema, type_id)?;
    let line = first_of(schema, type_id, item.lines());
    Ok(at_line_or(item, sentence, line))
}

/// Types that classes don't allow.
fn foreign_in(
    alloc: Global,
    schema: &Schema,
    item: &PlacedRecord<'_>,
    types: &TypeSet,
    classes: &[ClassId],
) -> Result<Placed, AllocError>
    ensures { IfOk result (λ p. p ≡ foreign_by schema.now item.now
        (foreign types.now (types_of schema.now (allowed schema.now classes.now)))) }
{
    let allowed = types_of(alloc, schema, allowed(alloc, schema, classes)?)?;
    foreign_by(alloc, schema, item, foreign(types, &allowed))
}

/// Types that classes demand and don't allow.
fn bad_types(
    alloc: Global,
    schema: &Schema,
    item: &PlacedRecord<'_>,
    types: &TypeSet,
    classes: &[ClassId],
) -> Result<Placed, AllocError>
    ensures { IfOk result (λ p. p ≡ bad_types schema.now item.now types.now classes.now
        (first_missing schema.now types.now classes.now)) }
{
    match first_missing(alloc, schema, types, classes)? {
        Some(sentence) => Ok(at_name(item, sentence)),
        None => foreign_in(alloc, schema, item, types, classes),
    }
}

/// What classes demand of a record with values of these types, whose structural classes are a chain, or none.
fn by_chain(
    alloc: Global,
    schema: &Schema,
    item: &PlacedRecord<'_>,
    types: &TypeSet,
    classes: &[ClassId],
    is_chain: bool,
) -> Result<Placed, AllocError>
    ensures { IfOk result (λ p. p ≡ by_chain schema.now item.now types.now classes.now is_chain) }
{
    if is_chain {
        return bad_types(alloc, schema, item, types, classes);
    }
    said_at_name(
        alloc,
        item,
        "of two STRUCTURAL classes of the entry neither is above the other",
    )
}

/// What classes demand of a record with values of these types, by the structural ones of them.
fn demanded_by(
    alloc: Global,
    schema: &Schema,
    item: &PlacedRecord<'_>,
    types: &TypeSet,
    classes: &[ClassId],
    structural: &[ClassId],
) -> Result<Placed, AllocError>
    ensures { IfOk result (λ p. p ≡ demanded_by schema.now item.now types.now classes.now structural.now) }
{
    if structural.is_empty() {
        return said_at_name(alloc, item, "none of the entry's classes is STRUCTURAL");
    }
    let is_chain = schema.are_in_line(alloc, structural)?;
    by_chain(alloc, schema, item, types, classes, is_chain)
}

/// What classes demand of a record.
fn demanded(
    alloc: Global,
    schema: &Schema,
    item: &PlacedRecord<'_>,
    classes: &[ClassId],
) -> Result<Placed, AllocError>
    ensures { IfOk result (λ p. p ≡ demanded schema.now item.now classes.now) }
{
    if classes.is_empty() {
        return said_at_name(alloc, item, "the record has no objectClass");
    }
    let types = types_of(alloc, schema, given(alloc, schema, item)?)?;
    let structural = structural(alloc, schema, classes)?;
    demanded_by(alloc, schema, item, &types, classes, structural.as_slice())
}

/// A record whose classes are all known.
fn demanded_of(
    alloc: Global,
    schema: &Schema,
    item: &PlacedRecord<'_>,
) -> Result<Placed, AllocError>
    ensures { IfOk result (λ p. p ≡ demanded schema.now item.now (classes_of schema.now item.now.lines)) }
{
    let classes = classes_of(alloc, schema, item.lines())?;
    demanded(alloc, schema, item, classes.as_slice())
}

/// Which rule of its classes a record breaks: 65.
pub fn broken_class(
    alloc: Global,
    schema: &Schema,
    item: &PlacedRecord<'_>,
) -> Result<Placed, AllocError>
    ensures { IfOk result (λ p. p ≡ broken_class schema.now item.now) }
{
    match unknown_class(schema, item.lines()) {
        Some(line) => Ok(at_line(line, no_class(alloc, line.octets())?)),
        None => demanded_of(alloc, schema, item),
    }
}
