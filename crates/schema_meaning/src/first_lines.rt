// The first lines in which names and object identifiers stand.

ghost use Rattle.std.specs.Prelude.{◌≡◌, ◌||◌, ℕ, List, Some, cond, is_some, map, IfOk, OnOk};
ghost use Rattle.std.specs.Char.{to_ascii_lowercase};
ghost use Rattle.std.specs.List.{list_any};
ghost use Rattle.std.specs.Str.{bytes_eq};
ghost use Rattle.schema_meaning.specs.Naming as naming;
ghost use Rattle.schema_meaning.specs.private.Octets.{number_at, has_folded};
ghost use Rattle.schema_meaning.specs.Faults.{earlier_of};
ghost use Rattle.schema_meaning.specs.private.FirstLines.{noted, first_line, is_less as is_line_less};

use crate::naming::names;
use crate::octets::{Numbers, number_of, put};
use schema_text::{Description, SchemaText, lower_case};
use std::alloc::{AllocError, Global};
use std::collections::BTreeMap;
use std::marker::Model;

/// Lines by octets.
type Lines = Numbers;

/// The line, or the other one where that is lower.
fn lower_line(line: usize, other: Option<usize>) -> usize
    ensures { Some result ≡ earlier_of line other }
{
    match other {
        None => line,
        Some(other) => { if other < line { other } else { line } }
    }
}

/// The line becomes that of these octets, unless an earlier one is.
fn note(lines: &mut Lines, octets: Vec<u8>, line: usize) -> Result<(), AllocError>
    ensures { OnOk result ((q : List ℕ) → number_at lines.new.entries q ≡ noted (bytes_eq q octets.items) line
        (number_at lines.old.entries q)) }
{
    let first = lower_line(line, number_of(lines, octets.as_slice()));
    put(lines, octets, first)?;
    Ok(())
}

/// The line becomes that of each of the names in lower case, unless an earlier one is.
fn note_names(
    alloc: Global,
    lines: &mut Lines,
    names: &[Vec<u8>],
    line: usize,
) -> Result<(), AllocError>
    ensures { OnOk result ((q : List ℕ) → number_at lines.new.entries q ≡
        noted (has_folded q (map (λ v. v.items) names.now)) line (number_at lines.old.entries q)) }
{
    for name in names {
        note(lines, lower_case(alloc, name.as_slice())?, line)?;
    }
    Ok(())
}

/// Notes where a description stands.
fn note_one(
    alloc: Global,
    by_name: &mut Lines,
    by_oid: &mut Lines,
    description: &Description,
) -> Result<(), AllocError>
    ensures names { OnOk result ((q : List ℕ) → number_at by_name.new.entries q ≡
        noted (has_folded q (naming.names_of description.now)) description.now.line (number_at by_name.old.entries q)) }
    ensures oids { OnOk result ((q : List ℕ) → number_at by_oid.new.entries q ≡ noted (bytes_eq q description.now.oid)
        description.now.line (number_at by_oid.old.entries q)) }
{
    note_names(alloc, by_name, names(description), description.line())?;
    note(
        by_oid,
        Vec::from_slice(alloc, description.oid())?,
        description.line(),
    )
}

/// Notes where descriptions stand.
fn note_all(
    alloc: Global,
    by_name: &mut Lines,
    by_oid: &mut Lines,
    descriptions: &[Description],
) -> Result<(), AllocError>
    ensures names { OnOk result ((q : List ℕ) → number_at by_name.new.entries q ≡
        first_line (λ d. has_folded q (naming.names_of d)) descriptions.now (number_at by_name.old.entries q)) }
    ensures oids { OnOk result ((q : List ℕ) → number_at by_oid.new.entries q ≡ first_line (λ d. bytes_eq q d.oid)
        descriptions.now (number_at by_oid.old.entries q)) }
{
    for description in descriptions {
        note_one(alloc, by_name, by_oid, description)?;
    }
    Ok(())
}

/// Whether there is a line before this one.
fn is_less(first: Option<usize>, line: usize) -> bool
    ensures { result ≡ is_line_less first line }
{
    match first {
        None => false,
        Some(first) => first < line,
    }
}

/// Whether one of the names stands in a line before this one.
fn has_earlier_name(
    alloc: Global,
    lines: &Lines,
    names: &[Vec<u8>],
    line: usize,
) -> Result<bool, AllocError>
    ensures { IfOk result (λ b. b ≡
        list_any (λ n. is_line_less (number_at lines.now.entries (map to_ascii_lowercase n)) line)
        (map (λ v. v.items) names.now)) }
{
    for name in names {
        let folded = lower_case(alloc, name.as_slice())?;
        if is_less(number_of(lines, folded.as_slice()), line) {
            return Ok(true);
        }
    }
    Ok(false)
}

/// Whether the description has an object identifier or a name that stands in an earlier line.
fn has_earlier_line(
    alloc: Global,
    by_name: &Lines,
    by_oid: &Lines,
    description: &Description,
) -> Result<bool, AllocError>
    ensures { IfOk result (λ b. b ≡ (is_line_less (number_at by_oid.now.entries description.now.oid)
        description.now.line || list_any (λ n. is_line_less (number_at by_name.now.entries (map to_ascii_lowercase n))
        description.now.line) (naming.names_of description.now))) }
{
    if is_less(number_of(by_oid, description.oid()), description.line()) {
        return Ok(true);
    }
    has_earlier_name(alloc, by_name, names(description), description.line())
}

/// Takes a name among those that were seen, and tells whether it was there.
fn see(alloc: Global, seen: &mut Lines, name: &[u8]) -> Result<bool, AllocError>
    ensures before { IfOk result (λ b. b ≡ is_some (number_at seen.old.entries (map to_ascii_lowercase name.now))) }
    ensures taken { OnOk result ((q : List ℕ) → number_at seen.new.entries q ≡
        cond (bytes_eq q (map to_ascii_lowercase name.now)) (Some 0) (number_at seen.old.entries q)) }
{
    let folded = lower_case(alloc, name)?;
    let before = number_of(seen, folded.as_slice()).is_some();
    put(seen, folded, 0)?;
    Ok(before)
}

/// Whether one of the names comes again among them, in any case.
fn has_twice(alloc: Global, names: &[Vec<u8>]) -> Result<bool, AllocError>
    ensures { IfOk result (λ b. b ≡ naming.has_twice (map (λ v. v.items) names.now)) }
{
    let mut seen = BTreeMap::new(alloc);
    for name in names {
        let before = see(alloc, &mut seen, name.as_slice())?;
        if before {
            return Ok(true);
        }
    }
    Ok(false)
}

/// The first lines of the names and the object identifiers of a text's descriptions.
pub struct FirstLines<'a> {
    text: &'a SchemaText,
    /// By names in lower case.
    by_name: Lines,
    by_oid: Lines,
}

// Not derived: see "What the gate takes" in docs/ARCHITECTURE.md.
impl<'a> Drop for FirstLines<'a> {
    fn drop(self) {
        let FirstLines {
            text: _,
            by_name: _,
            by_oid: _,
        } = self;
    }
}

impl<'a> Model for FirstLines<'a> {
    ghost use Rattle.schema_text.specs.Texts.{SchemaTextModel};
    ghost use Rattle.schema_meaning.specs.private.FirstLines.{AreFirst};

    ghost Value = { SchemaTextModel };

    ghost view = { λ f. f.text.now };

    ghost invariant = { λ f. AreFirst f.text.now f.by_name.entries f.by_oid.entries };
}

impl<'a> FirstLines<'a> {
    /// The first lines of a text.
    pub fn of(alloc: Global, text: &'a SchemaText) -> Result<FirstLines<'a>, AllocError>
        ensures { IfOk result (λ f. f ≡ text.now) }
    {
        let mut by_name = BTreeMap::new(alloc);
        let mut by_oid = BTreeMap::new(alloc);
        note_all(alloc, &mut by_name, &mut by_oid, text.types())?;
        note_all(alloc, &mut by_name, &mut by_oid, text.classes())?;
        Ok(FirstLines {
            text,
            by_name,
            by_oid,
        })
    }

    /// The text.
    pub fn text(&self) -> &'a SchemaText
        ensures { result.now ≡ self.now }
    {
        self.text
    }

    /// Whether the description has an object identifier or a name of an earlier one.
    fn has_earlier(&self, alloc: Global, description: &Description) -> Result<bool, AllocError>
        ensures { IfOk result (λ b. b ≡ (list_any (naming.is_before description.now) self.now.types || list_any
            (naming.is_before description.now) self.now.classes)) }
    {
        let earlier = has_earlier_line(alloc, &self.by_name, &self.by_oid, description)?;
        Ok(earlier)
    }

    /// Whether the description has a name twice, or an object identifier or a name of an earlier one.
    pub fn is_repeated(&self, alloc: Global, description: &Description) -> Result<bool, AllocError>
        ensures { IfOk result (λ b. b ≡ naming.is_repeated self.now.types self.now.classes description.now) }
    {
        if has_twice(alloc, names(description))? {
            return Ok(true);
        }
        self.has_earlier(alloc, description)
    }
}
