// A whole script: its lines become events, and a lab plays them.
ghost use Rattle.std.specs.Prelude.{◌≡◌, ℕ, List, map, IfOk};
ghost use Rattle.std.specs.Arc.{arc_value};
ghost use Rattle.dir_lab.specs.Shown.{shown_view};
ghost use Rattle.lab_script.specs.Events.{EventValue, event_view};
ghost use Rattle.lab_script.specs.Lines.{IsLine, first_line};
ghost use Rattle.lab_script.specs.Played.{IsPlayed};
ghost use Rattle.lab_script.specs.Script.{AreEvents, IsBadLine, IsFirstBad, IsSchedule, lines_in};

use crate::fault::{LineError, ScriptError};
use crate::script::{read_first, read_line};
use dir_lab::{Indexes, Lab, LabEvent, LabReply, Name, Schema};
use std::alloc::Global;
use std::sync::Arc;

/// Plays a script from the first world on, with as many replicas as its first line names, each of which begins with a
/// directory without entries over this schema, with these indexes and this name of the root.
pub fn play(
    alloc: Global,
    schema: Arc<Schema>,
    indexes: Indexes,
    suffix: Name,
    lines: &[Vec<u8>],
) -> Result<Vec<LabReply>, ScriptError>
    // What is shown is what the schedule shows that the lines name, and all that a lab promises holds of that schedule;
    // whatever the indexes.
    ensures shown { IfOk result (λ shown. IsPlayed (arc_value schema) suffix (lines_in lines.now)
        (map shown_view shown.items)) }
    // A bad line is the first that isn't in the language.
    ensures bad { (n : ℕ) → result ≡ Err (ScriptError.BadLine n) → IsBadLine (lines_in lines.now) n }
{
    let script = read_script(alloc, lines)?;
    let lab = Lab::new(schema, indexes, suffix, script.count);
    let shown = lab.run(alloc, script.events)?;
    Ok(shown)
}

/// A script, as it is read.
#[derive(Drop)]
struct Script {
    count: u64,
    events: Vec<LabEvent>,
}

/// Reads a script: its first line, and then the others.
fn read_script(alloc: Global, lines: &[Vec<u8>]) -> Result<Script, ScriptError>
    ensures found { IfOk result (λ s. IsSchedule (lines_in lines.now) s.count (map event_view s.events.items)) }
    ensures bad { (n : ℕ) → result ≡ Err (ScriptError.BadLine n) → IsBadLine (lines_in lines.now) n }
{
    if lines.is_empty() {
        return Err(ScriptError::BadLine { number: 1 });
    }
    let count = count_in(alloc, &lines[0])?;
    let events = events_in(alloc, &lines[1..])?;
    Ok(Script { count, events })
}

/// How many replicas the first line names.
fn count_in(alloc: Global, line: &[u8]) -> Result<u64, ScriptError>
    ensures found { IfOk result (λ count. Some count ≡ first_line line.now) }
    ensures bad { (n : ℕ) → result ≡ Err (ScriptError.BadLine n) → (first_line line.now ≡ None) × (n ≡ 1) }
{
    match read_first(alloc, line) {
        Ok(count) => Ok(count),
        Err(LineError::BadLine) => Err(ScriptError::BadLine { number: 1 }),
        Err(LineError::NoMemory) => Err(ScriptError::NoMemory),
    }
}

/// The events of all lines after the first.
fn events_in(alloc: Global, lines: &[Vec<u8>]) -> Result<Vec<LabEvent>, ScriptError>
    ensures found { IfOk result (λ events. AreEvents (lines_in lines.now) (map event_view events.items)) }
    ensures bad { (n : ℕ) → result ≡ Err (ScriptError.BadLine n) → IsFirstBad 2 (lines_in lines.now) n }
{
    let mut events = Vec::new(alloc);
    for at in 0..lines.len() {
        let mut found = events_at(alloc, &lines[at], at as u64 + 2)?;
        events.append(&mut found)?;
    }
    Ok(events)
}

/// The events of the line with this number.
fn events_at(alloc: Global, line: &[u8], number: u64) -> Result<Vec<LabEvent>, ScriptError>
    ensures found { IfOk result (λ events. IsLine line.now (map event_view events.items)) }
    ensures bad { (n : ℕ) → result ≡ Err (ScriptError.BadLine n) → ((es : List EventValue) → IsLine line.now es → ⊥)
        × (n ≡ number) }
{
    match read_line(alloc, line) {
        Ok(events) => Ok(events),
        Err(LineError::BadLine) => Err(ScriptError::BadLine { number }),
        Err(LineError::NoMemory) => Err(ScriptError::NoMemory),
    }
}
