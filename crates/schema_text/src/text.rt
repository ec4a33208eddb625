//! Reads a schema's text, line by line.

ghost use Rattle.std.specs.Prelude.{◌≡◌, ◌-◌, ◌+◌, map, take, drop, nat_eq, IfOk, OnOk};
ghost use Rattle.std.specs.List.{slice_split};
ghost use Rattle.schema_text.specs.Texts as texts;
ghost use Rattle.schema_text.specs.declared.keyword.Section.TheVariants.{AttributeTypes, ObjectClasses};

use crate::description::Description;
use crate::fields::description;
use crate::keyword::Section;
use crate::words::ends_with;
use ldap_words::is_same_word;
use std::alloc::{AllocError, Global};
use std::marker::Model;

/// What a schema's text has: its descriptions in the order written, the first line that is none, and the number behind
/// that of the last line.
pub struct SchemaText {
    types: Vec<Description>,
    classes: Vec<Description>,
    bad: Option<usize>,
    behind: usize,
}

// Not derived: see "What the gate takes" in docs/ARCHITECTURE.md.
impl Drop for SchemaText {
    fn drop(self) {
        let SchemaText {
            types: _,
            classes: _,
            bad: _,
            behind: _,
        } = self;
    }
}

impl Model for SchemaText {
    ghost use Rattle.schema_text.specs.Texts.{SchemaTextModel};

    ghost Value = { SchemaTextModel };

    ghost view = { λ t. record { types = t.types.items; classes = t.classes.items; bad = t.bad; behind = t.behind } };
}

impl SchemaText {
    /// The descriptions of attribute types, in the order written.
    pub fn types(&self) -> &[Description]
        ensures { result.now ≡ self.now.types }
    {
        self.types.as_slice()
    }

    /// The descriptions of object classes, in the order written.
    pub fn classes(&self) -> &[Description]
        ensures { result.now ≡ self.now.classes }
    {
        self.classes.as_slice()
    }

    /// The number of the first line, from 1, that is neither a description nor empty nor a comment.
    pub fn bad(&self) -> Option<usize>
        ensures { result ≡ self.now.bad }
    {
        self.bad
    }

    /// The number behind that of the last line.
    pub fn behind(&self) -> usize
        ensures { result ≡ self.now.behind }
    {
        self.behind
    }
}

/// The parts of the text that line feeds part.
fn parts(alloc: Global, text: &[u8]) -> Result<Vec<&[u8]>, AllocError>
    ensures { IfOk result (λ v. map (λ x. x.now) v.items ≡ slice_split (nat_eq 10) text.now) }
{
    text.split(|octet| b'\n' == *octet).collect(alloc)
}

/// The line without a carriage return at its end.
fn without_return(line: &[u8]) -> &[u8]
    ensures { result.now ≡ texts.without_return line.now }
{
    if ends_with(b'\r', line) {
        &line[..line.len() - 1]
    } else {
        line
    }
}

/// The lines without carriage returns at their ends.
fn ended<'a>(alloc: Global, parts: &[&'a [u8]]) -> Result<Vec<&'a [u8]>, AllocError>
    ensures { IfOk result (λ v. map (λ x. x.now) v.items ≡ map texts.without_return (map (λ x. x.now) parts.now)) }
{
    let mut lines = Vec::new(alloc);
    for part in parts {
        lines.push(without_return(*part))?;
    }
    Ok(lines)
}

/// The last part; nothing, where there is none.
fn last_part<'a>(parts: &[&'a [u8]]) -> &'a [u8]
    ensures { result.now ≡ texts.last_part (map (λ x. x.now) parts.now) }
{
    match parts.last() {
        Some(last) => *last,
        None => &[],
    }
}

/// The parts but the last one.
fn but_last<'a, 'b>(parts: &'b [&'a [u8]]) -> &'b [&'a [u8]]
    ensures { map (λ x. x.now) result.now ≡ texts.but_last (map (λ x. x.now) parts.now) }
{
    &parts[..parts.len().saturating_sub(1)]
}

/// The lines of parts: all but the last one end by a line feed.
fn lines_of_parts<'a>(alloc: Global, parts: &[&'a [u8]]) -> Result<Vec<&'a [u8]>, AllocError>
    ensures { IfOk result (λ v. map (λ x. x.now) v.items ≡ texts.lines_of_parts (map (λ x. x.now) parts.now)) }
{
    let mut lines = ended(alloc, but_last(parts))?;
    let last = last_part(parts);
    if 0 < last.len() {
        lines.push(last)?;
    }
    Ok(lines)
}

/// The lines of a text: each ends by LF or CRLF, the last one also where the text ends. Fails only for want of memory.
pub fn lines(alloc: Global, text: &[u8]) -> Result<Vec<&[u8]>, AllocError>
    ensures { IfOk result (λ v. map (λ x. x.now) v.items ≡ texts.lines_of text.now) }
{
    let parts = parts(alloc, text)?;
    lines_of_parts(alloc, parts.as_slice())
}

/// Whether the line is empty or a comment.
pub fn is_skipped(line: &[u8]) -> bool
    ensures { result ≡ texts.is_skipped line.now }
{
    match line {
        [] => true,
        [first, ..] => *first == b'#',
    }
}

/// So many octets at the front, or all.
fn front(line: &[u8], count: usize) -> &[u8]
    ensures { result.now ≡ take count line.now }
{
    if count <= line.len() {
        &line[..count]
    } else {
        line
    }
}

/// What stands behind so many octets.
fn behind(line: &[u8], count: usize) -> &[u8]
    ensures { result.now ≡ drop count line.now }
{
    if count <= line.len() {
        &line[count..]
    } else {
        &[]
    }
}

/// What stands before the descriptions of a section.
fn heading(section: Section) -> &'static [u8]
    ensures { result.now ≡ texts.heading_of section }
{
    match section {
        Section::AttributeTypes => b"attributeTypes: ",
        Section::ObjectClasses => b"objectClasses: ",
    }
}

/// Whether the line begins as those of a section do.
fn is_headed(section: Section, line: &[u8]) -> bool
    ensures { result ≡ texts.is_headed section line.now }
{
    let heading = heading(section);
    is_same_word(heading, front(line, heading.len()))
}

/// The description of a line that begins as those of the section do.
fn description_behind(
    alloc: Global,
    number: usize,
    section: Section,
    line: &[u8],
) -> Result<Option<Description>, AllocError>
    ensures { IfOk result (λ o. o ≡ texts.description_behind number section line.now) }
{
    let octets = behind(line, heading(section).len());
    description(alloc, number, section, octets)
}

/// The number, if there is none yet.
fn or_else(bad: Option<usize>, number: usize) -> Option<usize>
    ensures { result ≡ texts.or_else bad number }
{
    match bad {
        Some(first) => Some(first),
        None => Some(number),
    }
}

/// Adds a line that is no description.
fn add_bad(text: &mut SchemaText, number: usize)
    ensures { text.new ≡ texts.with_bad text.old number }
{
    text.bad = or_else(text.bad, number);
}

/// Adds the description of a type, if there is one.
fn add_type(
    text: &mut SchemaText,
    number: usize,
    description: Option<Description>,
) -> Result<(), AllocError>
    ensures { OnOk result (text.new ≡ texts.with_type text.old number description) }
{
    match description {
        Some(description) => {
            text.types.push(description)?;
        }
        None => add_bad(text, number),
    }
    Ok(())
}

/// Adds the description of a class, if there is one.
fn add_class(
    text: &mut SchemaText,
    number: usize,
    description: Option<Description>,
) -> Result<(), AllocError>
    ensures { OnOk result (text.new ≡ texts.with_class text.old number description) }
{
    match description {
        Some(description) => {
            text.classes.push(description)?;
        }
        None => add_bad(text, number),
    }
    Ok(())
}

/// Adds a line of this number.
fn add_line(
    alloc: Global,
    text: &mut SchemaText,
    number: usize,
    line: &[u8],
) -> Result<(), AllocError>
    ensures { OnOk result (text.new ≡ texts.with_line text.old number line.now) }
{
    if is_skipped(line) {
        return Ok(());
    }
    if is_headed(Section::AttributeTypes, line) {
        let found = description_behind(alloc, number, Section::AttributeTypes, line)?;
        return add_type(text, number, found);
    }
    if is_headed(Section::ObjectClasses, line) {
        let found = description_behind(alloc, number, Section::ObjectClasses, line)?;
        return add_class(text, number, found);
    }
    add_bad(text, number);
    Ok(())
}

/// What the lines have, but for the number behind them.
fn add_lines(alloc: Global, lines: &[&[u8]]) -> Result<SchemaText, AllocError>
    ensures { IfOk result (λ t. t ≡ texts.read_from texts.nothing 1 (map (λ x. x.now) lines.now)) }
{
    let mut text = SchemaText {
        types: Vec::new(alloc),
        classes: Vec::new(alloc),
        bad: None,
        behind: 1,
    };
    for (index, line) in lines.iter().enumerate() {
        add_line(alloc, &mut text, index + 1, line)?;
    }
    Ok(text)
}

/// What the lines have.
fn read_lines(alloc: Global, lines: &[&[u8]]) -> Result<SchemaText, AllocError>
    ensures { IfOk result (λ t. t ≡ texts.read_lines (map (λ x. x.now) lines.now)) }
{
    let mut text = add_lines(alloc, lines)?;
    text.behind = lines.len() + 1;
    Ok(text)
}

/// What a schema's text has.
pub fn read_text(alloc: Global, text: &[u8]) -> Result<SchemaText, AllocError>
    ensures { IfOk result (λ t. t ≡ texts.read_text text.now) }
{
    let lines = lines(alloc, text)?;
    read_lines(alloc, lines.as_slice())
}
