// Reads the lines of an index choice, or says what is wrong first.

ghost use Rattle.std.specs.Prelude.{◌≡◌, ℕ, List, Result, map, Ok, Err, None, Some, IfOk, IfErr, OnOk, OnErr};
ghost use Rattle.index_choice.specs.declared.line.IndexLine.{IndexLine};
ghost use Rattle.index_choice.specs.declared.error.IndexError.TheVariants.{BadDescription, NoMemory};
ghost use Rattle.dir_entry.specs.ldap_schema.Schema.{find};
ghost use Rattle.index_choice.specs.Texts.{named_by, line_of_words as said_by_words, index_line as said, index_lines as lines_said, line_said, lines_from, after, is_unknown as is_unknown_line, lacks_rules as lacks_rules_for, has_rules as has_rules_for, implies as is_implied, first_line, fault_in, IsFaultOf};
ghost use Rattle.index_choice.specs.private.Texts.{IsBadLine};

use crate::error::IndexError;
use crate::kinds::Kinds;
use crate::line::{IndexLine, Named};
use crate::words::{are_kinds, but_last, is_head, kinds_of_words, parts};
use dir_entry::{Schema, TypeId, equality_rule, ordering_rule, substrings_rule};
use schema_text::{is_skipped, lines};
use std::alloc::{AllocError, Global};

/// What a name stands for.
fn named(schema: &Schema, name: &[u8]) -> Named
    ensures { result ≡ named_by (find schema.now name.now) }
{
    match schema.find_octets(name) {
        Some(type_id) => Named::Known(type_id),
        None => Named::Unknown,
    }
}

/// What the words of a line say.
fn line_of_words(
    alloc: Global,
    schema: &Schema,
    number: usize,
    words: &[&[u8]],
) -> Result<Option<IndexLine>, AllocError>
    ensures { IfOk result (λ o. o ≡ said_by_words schema.now number (map (λ x. x.now) words.now)) }
{
    match words.split_first() {
        Some((head, kinds)) => {
            if !is_head(*head) || !are_kinds(kinds) {
                return Ok(None);
            }
            Ok(Some(IndexLine {
                number,
                named: named(schema, but_last(*head)),
                kinds: kinds_of_words(kinds),
            }))
        }
        None => Ok(None),
    }
}

/// What a line says.
fn index_line(
    alloc: Global,
    schema: &Schema,
    number: usize,
    line: &[u8],
) -> Result<Option<IndexLine>, AllocError>
    ensures { IfOk result (λ o. o ≡ said schema.now number line.now) }
{
    let words = parts(alloc, line, b' ')?;
    line_of_words(alloc, schema, number, words.as_slice())
}

/// Whether a kind of index that is asked for has its rule.
fn implies(asked: bool, has: bool) -> bool
    ensures { result ≡ is_implied asked has }
{
    !asked || has
}

/// Whether a type has the rules that kinds of index need.
fn has_rules(schema: &Schema, kinds: Kinds, type_id: TypeId) -> bool
    ensures { result ≡ has_rules_for schema.now kinds type_id }
{
    implies(kinds.equality, equality_rule(schema, type_id).is_some())
        && (implies(kinds.ordering, ordering_rule(schema, type_id).is_some())
            && implies(kinds.substrings, substrings_rule(schema, type_id).is_some()))
}

/// Whether a line names a type that is not there.
fn is_unknown(line: &IndexLine) -> bool
    ensures { result ≡ is_unknown_line line.now }
{
    match line.named {
        Named::Known(_) => false,
        Named::Unknown => true,
    }
}

/// Whether a line asks for an index by a rule that its type lacks.
fn lacks_rules(schema: &Schema, line: &IndexLine) -> bool
    ensures { result ≡ lacks_rules_for schema.now line.now }
{
    match line.named {
        Named::Known(type_id) => !has_rules(schema, line.kinds, type_id),
        Named::Unknown => false,
    }
}

/// The number of the first line that names a type that is not there.
fn unknown_line(lines: &[IndexLine]) -> Option<usize>
    ensures { result ≡ first_line is_unknown_line lines.now }
{
    match lines.iter().find(|line| is_unknown(line)) {
        Some(line) => Some(line.number),
        None => None,
    }
}

/// The number of the first line that asks for an index by a rule that its type lacks.
fn ruleless_line(schema: &Schema, lines: &[IndexLine]) -> Option<usize>
    ensures { result ≡ first_line (lacks_rules_for schema.now) lines.now }
{
    match lines.iter().find(|line| lacks_rules(schema, line)) {
        Some(line) => Some(line.number),
        None => None,
    }
}

/// What lines say, in the order written, or the first of them that says nothing.
pub fn index_lines(
    alloc: Global,
    schema: &Schema,
    text: &[u8],
) -> Result<Vec<IndexLine>, IndexError>
    ensures found { IfOk result (λ v. lines_said schema.now text.now ≡ Ok v.items) }
    ensures refused { IfErr result (IsBadLine (lines_said schema.now text.now)) }
{
    let lines = lines(alloc, text)?;
    said_by_lines(alloc, schema, lines.as_slice())
}

/// Puts what a line says behind what lines before it say. An `Err` puts nothing.
fn push_line(
    alloc: Global,
    schema: &Schema,
    number: usize,
    line: &[u8],
    said: &mut Vec<IndexLine>,
) -> Result<(), IndexError>
    ensures ok { OnOk result ((rest : Result (List IndexLine) ℕ) → after said.new.items rest ≡ after said.old.items
        (line_said schema.now number line.now rest)) }
    ensures refused { IfErr result (λ e. (rest : Result (List IndexLine) ℕ) →
        IsBadLine (line_said schema.now number line.now rest) e) }
    ensures err { OnErr result (said.new.items ≡ said.old.items) }
{
    if is_skipped(line) {
        return Ok(());
    }
    match index_line(alloc, schema, number, line)? {
        Some(
            IndexLine {
                number,
                named,
                kinds,
            },
        ) => {
            said.push(IndexLine {
                number,
                named,
                kinds,
            })?;
            Ok(())
        }
        None => Err(IndexError::BadDescription { line: number }),
    }
}

/// What lines say, from line 1 on.
fn said_by_lines(
    alloc: Global,
    schema: &Schema,
    lines: &[&[u8]],
) -> Result<Vec<IndexLine>, IndexError>
    ensures found { IfOk result (λ v. lines_from schema.now 1 (map (λ x. x.now) lines.now) ≡ Ok v.items) }
    ensures refused { IfErr result (IsBadLine (lines_from schema.now 1 (map (λ x. x.now) lines.now))) }
{
    let mut said = Vec::new(alloc);
    for (i, line) in lines.iter().enumerate() {
        push_line(alloc, schema, i + 1, *line, &mut said)?;
    }
    Ok(said)
}

/// Whether nothing is wrong with lines together.
pub fn check(schema: &Schema, lines: &[IndexLine]) -> Result<(), IndexError>
    ensures ok { OnOk result (fault_in schema.now (Ok lines.now) ≡ None) }
    ensures refused { IfErr result (λ e. fault_in schema.now (Ok lines.now) ≡ Some e) }
{
    if let Some(line) = unknown_line(lines) {
        return Err(IndexError::UnknownName { line });
    }
    if let Some(line) = ruleless_line(schema, lines) {
        return Err(IndexError::IndexWithoutRule { line });
    }
    Ok(())
}
