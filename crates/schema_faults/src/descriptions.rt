//! A line of a schema's text that is no description: what is wrong with its form (RFC 4512 4.1.1, 4.1.2).
ghost use Rattle.std.specs.Prelude.{◌≡◌, ◌<◌, ◌+◌, ◌-◌, ◌^◌, false, IfOk, IfSome, None, Some, map, take, drop, length, nat_eq, option_map, string_bytes};
ghost use Rattle.schema_meaning.specs.ldap_words.Octets.{is_empty};
ghost use Rattle.schema_meaning.specs.schema_text.Words.{ends_with};
ghost use Rattle.schema_faults.specs.private.Forms.{form_model};
ghost use Rattle.schema_faults.specs.Pieces.{pieces_of};
ghost use Rattle.schema_faults.specs.Descriptions.{heading, behind, no_heading, bad_escape, bad_parenthesis, misplaced};
ghost use Rattle.schema_faults.specs.Descriptions.{unended, unbalanced, line_with, is_field, other_owner, is_unsupported, misplaced_word, unsupported_word};
ghost use Rattle.schema_faults.specs.Descriptions.{unknown_word, no_keyword, nothing_follows, another_follows, bad_argument, second_kind, too_late};
ghost use Rattle.schema_faults.specs.declared.forms.Lines.TheVariants as kind;
ghost use Rattle.schema_faults.specs.Descriptions.{waiting_for, field_fault_from, misordered, may_follow, order_fault_from, fields_fault, pieces_fault};
ghost use Rattle.schema_faults.specs.Descriptions.{no_identifier, inside_fault, opened, not_opened, body, line_sentence, class_line};

use crate::forms::{Form, Lines, form_of, is_elsewhere};
use crate::pieces::{Scan, Stop, is_outside, pieces_of, stop_in};
use ldap_words::{is_numericoid, is_same_word};
use schema_meaning::read_text;
use std::alloc::{AllocError, Global};
use text_faults::{about_word, first_word, said, shown};

/// What stands before the descriptions of a kind.
fn heading(lines: Lines) -> &'static [u8]
    ensures { result.now ≡ heading lines }
{
    match lines {
        Lines::Types => b"attributeTypes: ",
        Lines::Classes => b"objectClasses: ",
    }
}

/// So many octets at the front, or all.
fn front(line: &[u8], count: usize) -> &[u8]
    ensures { result.now ≡ take count line.now }
{
    if count <= line.len() {
        &line[..count]
    } else {
        line
    }
}

/// What is behind so many octets.
fn rest(line: &[u8], count: usize) -> &[u8]
    ensures { result.now ≡ drop count line.now }
{
    if count <= line.len() {
        &line[count..]
    } else {
        &[]
    }
}

/// What is behind a heading; none, where the line has another front.
fn behind<'a>(heading: &[u8], line: &'a [u8]) -> Option<&'a [u8]>
    ensures { option_map (λ x. x.now) result ≡ behind heading.now line.now }
{
    if is_same_word(heading, front(line, heading.len())) {
        Some(rest(line, heading.len()))
    } else {
        None
    }
}

/// A line that is headed neither as a type nor as a class.
fn no_heading(alloc: Global, line: &[u8]) -> Result<String, AllocError>
    ensures { IfOk result (λ s. string_bytes s ≡ no_heading line.now) }
{
    match line {
        [b' ' | b'\t', ..] => said(
            alloc,
            "the line begins with a space: a description is one line, whole",
        ),
        _ => about_word(
            alloc,
            "expected 'attributeTypes: ' or 'objectClasses: ' at the front, not '",
            first_word(line),
            "'",
        ),
    }
}

/// A parenthesis that may not come: a `)` outside lists, or a `(` in one.
fn bad_parenthesis(alloc: Global, in_list: bool, column: usize) -> Result<String, AllocError>
    ensures { IfOk result (λ s. string_bytes s ≡ bad_parenthesis in_list column) }
{
    match in_list {
        false => {
            format!(in alloc;
                "the ')' at column {column} ends the description, and more follows it"
            )
        }
        true => format!(in alloc; "the '(' at column {column} is inside another list"),
    }
}

/// An octet in quotes that may not come.
fn bad_escape(alloc: Global, column: usize) -> Result<String, AllocError>
    ensures { IfOk result (λ s. string_bytes s ≡ bad_escape column) }
{
    format!(in alloc; "a backslash in quotes is \\5C and a quote \\27: see column {column}")
}

/// An octet that may not come, at this column.
fn misplaced(alloc: Global, scan: Scan, column: usize) -> Result<String, AllocError>
    ensures { IfOk result (λ s. string_bytes s ≡ misplaced scan column) }
{
    match scan {
        Scan::Bare { in_list } => bad_parenthesis(alloc, in_list, column),
        Scan::Quoted { .. } | Scan::Escape { .. } | Scan::Half { .. } => bad_escape(alloc, column),
    }
}

/// Octets that end inside a list or inside quotes.
fn unended(alloc: Global, scan: Scan) -> Result<String, AllocError>
    ensures { IfOk result (λ s. string_bytes s ≡ unended scan) }
{
    match scan {
        Scan::Bare { .. } => said(alloc, "a '(' has no ')'"),
        Scan::Quoted { .. } | Scan::Escape { .. } | Scan::Half { .. } => {
            said(alloc, "a quote has no second quote")
        }
    }
}

/// Octets between the outer parentheses that have no whole lists and quotes, the first of them at this column.
fn unbalanced(alloc: Global, stop: Stop, column: usize) -> Result<String, AllocError>
    requires { IfSome stop.index (λ index. column + index < 2 ^ 64) }
    ensures { IfOk result (λ s. string_bytes s ≡ unbalanced column stop.index stop.scan) }
{
    match stop.index {
        Some(index) => misplaced(alloc, stop.scan, column + index),
        None => unended(alloc, stop.scan),
    }
}

/// What is between the outer parentheses, from this column on.
fn inside_fault(
    alloc: Global,
    lines: Lines,
    octets: &[u8],
    column: usize,
) -> Result<String, AllocError>
    requires { column < 100 }
    ensures { IfOk result (λ s. string_bytes s ≡ inside_fault lines octets.now column) }
{
    let stop = stop_in(octets);
    if stop.index.is_none() && is_outside(stop.scan) {
        return pieces_fault(alloc, lines, octets);
    }
    unbalanced(alloc, stop, column)
}

/// Whether the last octet is a `)`.
fn is_closed(octets: &[u8]) -> bool
    ensures { result ≡ ends_with 41 octets.now }
{
    match octets.last() {
        Some(last) => *last == b')',
        None => false,
    }
}

/// What is behind the first parenthesis, from this column on.
fn opened(alloc: Global, lines: Lines, octets: &[u8], column: usize) -> Result<String, AllocError>
    requires { column < 100 }
    ensures { IfOk result (λ s. string_bytes s ≡ opened lines octets.now column) }
{
    if is_closed(octets) {
        return inside_fault(alloc, lines, &octets[..octets.len() - 1], column);
    }
    said(alloc, "expected ')' at the end of the line")
}

/// What is behind the heading, from this column on.
fn body(alloc: Global, lines: Lines, octets: &[u8], column: usize) -> Result<String, AllocError>
    requires { column < 99 }
    ensures { IfOk result (λ s. string_bytes s ≡ body lines octets.now column) }
{
    match octets {
        [b'(', inner @ ..] => opened(alloc, lines, inner, column + 1),
        _ => format!(in alloc; "expected '(' at column {column}"),
    }
}

/// The first piece that is no object identifier, or what is wrong with the fields behind it.
fn pieces_fault(alloc: Global, lines: Lines, octets: &[u8]) -> Result<String, AllocError>
    ensures { IfOk result (λ s. string_bytes s ≡ pieces_fault lines (pieces_of octets.now)) }
{
    let pieces = pieces_of(alloc, octets)?;
    match pieces.as_slice() {
        [] => said(alloc, "expected an object identifier, as 2.5.4.3"),
        [first, rest @ ..] => {
            if is_numericoid(first) {
                return fields_fault(alloc, lines, rest);
            }
            about_word(
                alloc,
                "expected an object identifier, as 2.5.4.3, not '",
                first,
                "'",
            )
        }
    }
}

/// What is wrong with the fields of a description.
fn fields_fault(alloc: Global, lines: Lines, pieces: &[&[u8]]) -> Result<String, AllocError>
    ensures { IfOk result (λ s. string_bytes s ≡ fields_fault lines (map (λ x. x.now) pieces.now)) }
{
    match field_fault(alloc, lines, pieces)? {
        Some(sentence) => Ok(sentence),
        None => order_fault(alloc, lines, pieces),
    }
}

/// A line that has this keyword alone, with these octets behind it.
fn line_with(
    alloc: Global,
    lines: Lines,
    word: &[u8],
    argument: &[u8],
) -> Result<Vec<u8>, AllocError>
    ensures { IfOk result (λ v. v.items ≡ line_with lines word.now argument.now) }
{
    let mut line = Vec::from_slice(alloc, heading(lines))?;
    line.extend_from_slice(b"( 1.1 ")?;
    line.extend_from_slice(word)?;
    line.extend_from_slice(b" ")?;
    line.extend_from_slice(argument)?;
    line.extend_from_slice(b" )")?;
    Ok(line)
}

/// Whether a keyword with these octets behind it is a field of such lines.
fn is_field(alloc: Global, lines: Lines, word: &[u8], argument: &[u8]) -> Result<bool, AllocError>
    ensures { IfOk result (λ b. b ≡ is_field lines word.now argument.now) }
{
    let line = line_with(alloc, lines, word, argument)?;
    let read = read_text(alloc, line.as_slice())?;
    Ok(read.bad().is_none())
}

/// What has the keywords that a line of this kind has not.
fn other_owner(lines: Lines) -> &'static str
    ensures { result.now ≡ other_owner lines }
{
    match lines {
        Lines::Types => " belongs to an object class",
        Lines::Classes => " belongs to an attribute type",
    }
}

/// Whether a word is a keyword of attribute types that is not read.
fn is_unsupported(word: &[u8]) -> bool
    ensures { result ≡ is_unsupported word.now }
{
    is_same_word(b"COLLECTIVE", word) || is_same_word(b"NO-USER-MODIFICATION", word)
}

/// A keyword that is not read.
fn unsupported_word(alloc: Global, word: &[u8]) -> Result<String, AllocError>
    ensures { IfOk result (λ s. string_bytes s ≡ unsupported_word word.now) }
{
    about_word(alloc, "", word, " is not supported")
}

/// A word that is no keyword of such a line.
fn no_keyword(alloc: Global, lines: Lines, word: &[u8]) -> Result<String, AllocError>
    ensures { IfOk result (λ s. string_bytes s ≡ no_keyword lines word.now) }
{
    if is_elsewhere(lines, word) {
        return about_word(alloc, "", word, other_owner(lines));
    }
    if is_unsupported(word) {
        return unsupported_word(alloc, word);
    }
    about_word(alloc, "expected a keyword, not '", word, "'")
}

/// A keyword that needs a piece behind it, and has none.
fn nothing_follows(alloc: Global, word: &[u8], wanted: &str) -> Result<String, AllocError>
    ensures { IfOk result (λ s. string_bytes s ≡ nothing_follows word.now wanted.now) }
{
    let word = shown(alloc, word)?;
    format!(in alloc; "nothing follows {word}, which needs {wanted}")
}

/// A keyword that needs another piece than the one behind it.
fn another_follows(
    alloc: Global,
    word: &[u8],
    wanted: &str,
    argument: &[u8],
) -> Result<String, AllocError>
    ensures { IfOk result (λ s. string_bytes s ≡ another_follows word.now wanted.now argument.now) }
{
    let word = shown(alloc, word)?;
    let argument = shown(alloc, argument)?;
    format!(in alloc; "{word} needs {wanted}, not: {argument}")
}

/// A keyword that needs another piece than the one behind it, or has none.
fn bad_argument(
    alloc: Global,
    word: &[u8],
    wanted: &str,
    argument: &[u8],
) -> Result<String, AllocError>
    ensures { IfOk result (λ s. string_bytes s ≡ bad_argument word.now wanted.now argument.now) }
{
    match argument {
        [] => nothing_follows(alloc, word, wanted),
        [_, ..] => another_follows(alloc, word, wanted, argument),
    }
}

/// A keyword that waits for its argument, and what it needs.
#[derive(Clone, Copy)]
struct Waiting<'a> {
    word: &'a [u8],
    wanted: &'static str,
}

/// The keyword, where it waits for an argument.
fn waiting_for<'a>(word: &'a [u8], form: Form) -> Option<Waiting<'a>>
    ensures { option_map (λ w. (w.word.now, w.wanted.now)) result ≡ waiting_for word.now (form_model form) }
{
    if form.wanted.is_empty() {
        None
    } else {
        Some(Waiting {
            word,
            wanted: form.wanted,
        })
    }
}

/// The first piece that is no field's.
fn field_fault(alloc: Global, lines: Lines, pieces: &[&[u8]]) -> Result<Option<String>, AllocError>
    ensures { IfOk result (λ o. option_map (λ s. string_bytes s) o ≡ field_fault_from lines None
        (map (λ x. x.now) pieces.now)) }
{
    let mut waiting = None;
    for piece in pieces {
        match waiting {
            None => match form_of(lines, piece) {
                None => return Ok(Some(no_keyword(alloc, lines, piece)?)),
                Some(form) => waiting = waiting_for(*piece, form),
            },
            Some(Waiting { word, wanted }) => {
                if !is_field(alloc, lines, word, piece)? {
                    return Ok(Some(bad_argument(alloc, word, wanted, piece)?));
                }
                waiting = None;
            }
        }
    }
    match waiting {
        Some(Waiting { word, wanted }) => Ok(Some(bad_argument(alloc, word, wanted, &[])?)),
        None => Ok(None),
    }
}

/// A keyword behind another of the same place.
fn second_kind(alloc: Global, before: &str, after: &str) -> Result<String, AllocError>
    ensures { IfOk result (λ s. string_bytes s ≡ second_kind before.now after.now) }
{
    format!(in alloc; "{after} behind {before}: a class has one kind")
}

/// A keyword behind one that should have come behind it.
fn too_late(alloc: Global, before: &str, after: &str) -> Result<String, AllocError>
    ensures { IfOk result (λ s. string_bytes s ≡ too_late before.now after.now) }
{
    format!(in alloc; "{after} comes before {before} in a description")
}

/// A keyword behind one that is not to come before it.
fn misordered(alloc: Global, before: Form, after: Form) -> Result<String, AllocError>
    ensures { IfOk result (λ s. string_bytes s ≡ misordered (form_model before) (form_model after)) }
{
    let word = after.word;
    if before.word == word {
        return format!(in alloc; "{word} comes twice");
    }
    match before.place == after.place {
        true => second_kind(alloc, before.word, word),
        false => too_late(alloc, before.word, word),
    }
}

/// Whether a keyword may stand behind another.
fn may_follow(before: Form, after: Form) -> bool
    ensures { result ≡ may_follow (Some (form_model before)) (form_model after) }
{
    before.place < after.place || after.place == 14
}

/// The first keyword that is not in its place. A piece that is no keyword is an argument.
fn order_fault(alloc: Global, lines: Lines, pieces: &[&[u8]]) -> Result<String, AllocError>
    ensures { IfOk result (λ s. string_bytes s ≡ order_fault_from lines false None (map (λ x. x.now) pieces.now)) }
{
    let mut last: Option<Form> = None;
    let mut is_argument = false;
    for piece in pieces {
        if is_argument {
            is_argument = false;
            continue;
        }
        let Some(form) = form_of(lines, piece) else {
            continue;
        };
        match last {
            Some(before) if !may_follow(before, form) => {
                return misordered(alloc, before, form);
            }
            _ => {}
        }
        is_argument = !form.wanted.is_empty();
        last = Some(form);
    }
    said(
        alloc,
        "no description of an attribute type or an object class",
    )
}

/// A line that is not headed as a type.
fn class_line(alloc: Global, line: &[u8]) -> Result<String, AllocError>
    ensures { IfOk result (λ s. string_bytes s ≡ class_line line.now (behind (heading Lines.Classes) line.now)) }
{
    match behind(heading(Lines::Classes), line) {
        Some(octets) => body(alloc, Lines::Classes, octets, 16),
        None => no_heading(alloc, line),
    }
}

/// What is wrong with a line that is no description.
pub fn line_fault(alloc: Global, line: &[u8]) -> Result<String, AllocError>
    ensures { IfOk result (λ s. string_bytes s ≡ line_sentence line.now) }
{
    match behind(heading(Lines::Types), line) {
        Some(octets) => body(alloc, Lines::Types, octets, 17),
        None => class_line(alloc, line),
    }
}
