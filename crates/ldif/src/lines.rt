//! Unfolds the lines of a text, and numbers them.

ghost use Rattle.std.specs.Prelude.{◌≡◌, ◌++◌, map, drop, length, nat_eq, true, false, IfOk, OnOk, OnErr, MatchOption};
ghost use Rattle.std.specs.List.{slice_split};
ghost use Rattle.ldif.specs.Lines as lines;
ghost use Rattle.ldif.specs.private.Folding as folding;

use std::alloc::{AllocError, Global};
use std::marker::Model;

/// A line: the number of its first part, from 1, and its octets, unfolded.
pub struct Line {
    number: usize,
    text: Vec<u8>,
}

// Not derived: see "What the gate takes" in docs/ARCHITECTURE.md.
impl Drop for Line {
    fn drop(self) {
        let Line { number: _, text: _ } = self;
    }
}

impl Model for Line {
    ghost use Rattle.ldif.specs.Lines.{LineModel};

    ghost Value = { LineModel };

    ghost view = { λ l. record { number = l.number; text = l.text.items } };
}

impl Line {
    /// A line of one part.
    fn new(alloc: Global, number: usize, part: &[u8]) -> Result<Line, AllocError>
        ensures { IfOk result (λ l. l ≡ record { number = number; text = part.now }) }
    {
        Ok(Line {
            number,
            text: Vec::from_slice(alloc, part)?,
        })
    }

    /// The number of its first part.
    pub fn number(&self) -> usize
        ensures { result ≡ self.now.number }
    {
        self.number
    }

    /// Its octets, unfolded.
    pub fn text(&self) -> &[u8]
        ensures { result.now ≡ self.now.text }
    {
        self.text.as_slice()
    }

    /// The line with what stands behind the space of a part. An `Err` leaves it as it was.
    fn extend(&mut self, octets: &[u8]) -> Result<(), AllocError>
        ensures ok { OnOk result (self.new ≡ record { number = self.old.number; text = self.old.text ++ octets.now }) }
        ensures err { OnErr result (self.new ≡ self.old) }
    {
        self.text.extend_from_slice(octets)
    }
}

/// The parts of a text that line feeds part. Fails only for want of memory.
pub fn line_parts(alloc: Global, text: &[u8]) -> Result<Vec<&[u8]>, AllocError>
    ensures { IfOk result (λ v. map (λ x. x.now) v.items ≡ slice_split (nat_eq 10) text.now) }
{
    text.split(|octet| b'\n' == *octet).collect(alloc)
}

/// A part without a carriage return at its end.
pub fn without_return(part: &[u8]) -> &[u8]
    ensures { result.now ≡ lines.without_return part.now }
{
    match part.len() {
        0 => part,
        length => {
            if part[length - 1] == b'\r' {
                &part[..length - 1]
            } else {
                part
            }
        }
    }
}

/// What a part adds to a line that it continues: what stands behind its space.
fn continuation<'a>(line: &[u8], part: &'a [u8]) -> Option<&'a [u8]>
    ensures { MatchOption result (lines.continues line.now part.now ≡ false)
        (λ t. (lines.continues line.now part.now ≡ true) × (t.now ≡ drop 1 part.now)) }
{
    match part {
        [b' ', rest @ ..] => { if line.is_empty() { None } else { Some(rest) } }
        _ => None,
    }
}

/// Puts a part behind lines: it continues the last one, or is one of its own. After an `Err` no line is there but the
/// first ones, as they were.
fn put_part(
    alloc: Global,
    lines: &mut Vec<Line>,
    number: usize,
    part: &[u8],
) -> Result<(), AllocError>
    ensures ok { OnOk result (folding.Puts lines.old.items (record { number = number; text = part.now })
        lines.new.items) }
    ensures err { OnErr result (lines.old.items ≡ lines.new.items ++ drop (length lines.new.items) lines.old.items) }
{
    let Some(mut last) = lines.pop() else {
        lines.push(Line::new(alloc, number, part)?)?;
        return Ok(());
    };
    match continuation(last.text(), part) {
        Some(rest) => {
            last.extend(rest)?;
            lines.push(last)?;
        }
        None => {
            lines.push(last)?;
            lines.push(Line::new(alloc, number, part)?)?;
        }
    }
    Ok(())
}

/// The lines of parts.
fn unfolded(alloc: Global, parts: &[&[u8]]) -> Result<Vec<Line>, AllocError>
    ensures { IfOk result (λ v. v.items ≡ lines.unfolded 1 (map lines.without_return (map (λ x. x.now) parts.now))) }
{
    let mut lines = Vec::new(alloc);
    for (index, part) in parts.iter().enumerate() {
        put_part(alloc, &mut lines, index + 1, without_return(part))?;
    }
    Ok(lines)
}

/// The lines of a text.
pub fn lines_of(alloc: Global, text: &[u8]) -> Result<Vec<Line>, AllocError>
    ensures { IfOk result (λ v. v.items ≡ lines.lines_of text.now) }
{
    let parts = line_parts(alloc, text)?;
    unfolded(alloc, parts.as_slice())
}
