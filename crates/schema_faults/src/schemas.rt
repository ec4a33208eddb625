//! Texts of schemas: what is wrong with the line that is refused.
ghost use Rattle.std.specs.Prelude.{◌≡◌, ◌-◌, [], IfOk, map, slice_get, string_bytes};
ghost use Rattle.std.specs.Option.{unwrap_or};
ghost use Rattle.schema_meaning.specs.schema_text.Descriptions.{first_text_at};
ghost use Rattle.schema_faults.specs.Indexes.{line_of};
ghost use Rattle.schema_meaning.specs.Inheriting.{effect_of};
ghost use Rattle.schema_faults.specs.Repeats.{in_line};
ghost use Rattle.schema_faults.specs.Rules.{unfit};
ghost use Rattle.schema_faults.specs.Schemas.{title};
ghost use Rattle.schema_faults.specs.SchemaFaults.{bad_type, bad_class, bad_beside, unknown_in, unknown_in_class, IsLoop, IsLoopOfClass};
ghost use Rattle.schema_faults.specs.SchemaFaults.{lacks_equality, no_equality, is_no_description, IsFault, IsSchemaSentence};

use crate::descriptions::line_fault;
use crate::refusal::SchemaRefusal;
use crate::repeats::{at_line, first_name, repeated};
use crate::rules::unfit;
use crate::{loops, unknown};
use schema_meaning::{Description, Effect, Effects, IndexedText, Keyword, SchemaText, read_text};
use schema_text::lines;
use std::alloc::{AllocError, Global};
use text_faults::{about_word, about_words, said};

/// The line of an index; nothing, where there is none.
fn line_in<'a>(lines: &[&'a [u8]], index: usize) -> &'a [u8]
    ensures { result.now ≡ unwrap_or (slice_get (map (λ x. x.now) lines.now) index) [] }
{
    match lines.get(index) {
        Some(line) => *line,
        None => &[],
    }
}

/// The line of a number, counted from 1, as the reader of schemas cuts it.
pub fn numbered_line<'a>(
    alloc: Global,
    text: &'a [u8],
    number: usize,
) -> Result<&'a [u8], AllocError>
    ensures { IfOk result (λ line. line.now ≡ line_of text.now (number - 1)) }
{
    let lines = lines(alloc, text)?;
    Ok(line_in(lines.as_slice(), number.saturating_sub(1)))
}

/// What is in effect for the type of a number.
fn effect_in(alloc: Global, text: &IndexedText, number: usize) -> Result<Effect, AllocError>
    ensures { IfOk result (λ e. e ≡ effect_of text.now.types number) }
{
    let effects = Effects::of(alloc, text.types())?;
    Ok(effects.of_type(number))
}

/// A type whose rules and syntax don't fit one another.
fn unfit_type(
    alloc: Global,
    text: &IndexedText,
    number: usize,
    description: &Description,
) -> Result<String, AllocError>
    ensures { IfOk result (λ s. string_bytes s ≡ unfit description.now (effect_of text.now.types number)) }
{
    let effect = effect_in(alloc, text, number)?;
    unfit(alloc, description, effect)
}

/// A type that is bad beside the others: what it repeats, or else its rules.
fn bad_type(
    alloc: Global,
    text: &IndexedText,
    number: usize,
    description: &Description,
) -> Result<String, AllocError>
    ensures { IfOk result (λ s. string_bytes s ≡ bad_type text.now (number, description.now)) }
{
    match repeated(alloc, text, description)? {
        Some(sentence) => Ok(sentence),
        None => unfit_type(alloc, text, number, description),
    }
}

/// A class that is bad beside the others, or a line of neither.
fn bad_class(alloc: Global, text: &IndexedText, line: usize) -> Result<String, AllocError>
    ensures { IfOk result (λ s. string_bytes s ≡ bad_class text.now (in_line text.now.classes line)) }
{
    let found = match at_line(text.classes().all(), line) {
        Some((_, description)) => repeated(alloc, text, description)?,
        None => None,
    };
    match found {
        Some(sentence) => Ok(sentence),
        None => said(alloc, "a name or an object identifier is given before"),
    }
}

/// A description that is bad beside the others: E12.
fn bad_beside(alloc: Global, text: &IndexedText, line: usize) -> Result<String, AllocError>
    ensures { IfOk result (λ s. string_bytes s ≡ bad_beside text.now (in_line text.now.types line)
        (in_line text.now.classes line)) }
{
    match at_line(text.types().all(), line) {
        Some((number, description)) => bad_type(alloc, text, number, description),
        None => bad_class(alloc, text, line),
    }
}

/// A line of no type that names what is not there.
fn unknown_in_class(alloc: Global, text: &IndexedText, line: usize) -> Result<String, AllocError>
    ensures { IfOk result (λ s. string_bytes s ≡ unknown_in_class text.now (in_line text.now.classes line)) }
{
    match at_line(text.classes().all(), line) {
        Some((_, description)) => unknown::of_class(alloc, text, description),
        None => unknown::at_end(alloc, text),
    }
}

/// A line that names what is not there: E13.
fn unknown_at(alloc: Global, text: &IndexedText, line: usize) -> Result<String, AllocError>
    ensures { IfOk result (λ s. string_bytes s ≡ unknown_in text.now (in_line text.now.types line)
        (in_line text.now.classes line)) }
{
    match at_line(text.types().all(), line) {
        Some((_, description)) => unknown::of_type(alloc, text, description),
        None => unknown_in_class(alloc, text, line),
    }
}

/// A line of no type whose SUP leads back to it.
fn class_loop_at(alloc: Global, text: &IndexedText, line: usize) -> Result<String, AllocError>
    ensures { IfOk result (λ s. IsLoopOfClass text.now (in_line text.now.classes line) (string_bytes s)) }
{
    match at_line(text.classes().all(), line) {
        Some((number, _)) => loops::of_class(alloc, text.classes(), number),
        None => said(alloc, "SUP leads back"),
    }
}

/// A line whose SUP leads back to it: E14.
fn loop_at(alloc: Global, text: &IndexedText, line: usize) -> Result<String, AllocError>
    ensures { IfOk result (λ s. IsLoop text.now (in_line text.now.types line) (in_line text.now.classes line)
        (string_bytes s)) }
{
    match at_line(text.types().all(), line) {
        Some((number, _)) => loops::of_type(alloc, text.types(), number),
        None => class_loop_at(alloc, text, line),
    }
}

/// A type without EQUALITY.
fn lacks_equality(alloc: Global, description: &Description) -> Result<String, AllocError>
    ensures { IfOk result (λ s. string_bytes s ≡ lacks_equality (title description.now)
        (first_text_at 4 description.now.fields)) }
{
    let name = first_name(description);
    match description.text(Keyword::Sup) {
        Some(superior) => about_words(
            alloc,
            "'",
            name,
            "' has no EQUALITY, and none by its SUP '",
            superior,
            "'",
        ),
        None => about_word(
            alloc,
            "'",
            name,
            "' has no EQUALITY, and no SUP to have it from",
        ),
    }
}

/// A line of a type without EQUALITY: E15.
fn no_equality_at(alloc: Global, text: &IndexedText, line: usize) -> Result<String, AllocError>
    ensures { IfOk result (λ s. string_bytes s ≡ no_equality (in_line text.now.types line)) }
{
    match at_line(text.types().all(), line) {
        Some((_, description)) => lacks_equality(alloc, description),
        None => said(alloc, "no EQUALITY"),
    }
}

/// What is wrong beside the other lines.
fn fault_of(
    alloc: Global,
    text: &SchemaText,
    refusal: SchemaRefusal,
    line: usize,
) -> Result<String, AllocError>
    ensures { IfOk result (λ s. IsFault text.now refusal line (string_bytes s)) }
{
    let text = IndexedText::of(alloc, text)?;
    match refusal {
        SchemaRefusal::BadDescription => bad_beside(alloc, &text, line),
        SchemaRefusal::UnknownName => unknown_at(alloc, &text, line),
        SchemaRefusal::Loop => loop_at(alloc, &text, line),
        SchemaRefusal::NoEquality => no_equality_at(alloc, &text, line),
    }
}

/// Whether a line is refused as the first that is no description.
fn is_no_description(text: &SchemaText, refusal: SchemaRefusal, line: usize) -> bool
    ensures { result ≡ is_no_description text.now refusal line }
{
    match refusal {
        SchemaRefusal::BadDescription => match text.bad() {
            Some(bad) => bad == line,
            None => false,
        },
        SchemaRefusal::UnknownName | SchemaRefusal::Loop | SchemaRefusal::NoEquality => false,
    }
}

/// What is wrong with a schema's text in the line that is refused so. The text is read once more, in time that grows as
/// the text.
pub fn schema_fault(
    alloc: Global,
    text: &str,
    refusal: SchemaRefusal,
    line: usize,
) -> Result<String, AllocError>
    ensures { IfOk result (λ s. IsSchemaSentence text.now refusal line (string_bytes s)) }
{
    let octets = text.as_bytes();
    let read = read_text(alloc, octets)?;
    if is_no_description(&read, refusal, line) {
        return line_fault(alloc, numbered_line(alloc, octets, line)?);
    }
    fault_of(alloc, &read, refusal, line)
}
