//! Runs a lab: reads the lines of a script and prints what real replicas answer.
ghost use Rattle.std.specs.Prelude.{map, IfOk, IfErr, IfSome, OnOk};
ghost use Rattle.std.specs.Arc.{arc_value};
ghost use Rattle.lab_script.specs.dir_lab.Shown.{shown_view};
ghost use Rattle.dird_commands.specs.private.Texts.{Turns};
ghost use Rattle.dird_commands.specs.private.Undone.{IsUnread};
ghost use Rattle.dird_commands.specs.private.Played.{AreLines, IsScriptCause, IsUnplayed, IsShownOf, IsPlayedText};

use crate::explaining::{script_refusal, session_refusal};
use crate::fault::Fault;
use crate::local::root_name;
use crate::reasons::write_refusal;
use crate::refusal::Refusal;
use crate::replies::write_replies;
use lab_script::{LabReply, play};
use local_directory::{Indexes, Schema, next_line};
use std::alloc::Global;
use std::io::{BufRead, Write};
use std::sync::Arc;

#[tactic(auto, using(crate::proofs::Playing::turned))]
/// Plays a script over replicas with this schema and these indexes, once it is read whole: a line that isn't in the
/// language refuses all of it.
pub fn play_script<R: BufRead, W: Write>(
    alloc: Global,
    schema: Arc<Schema>,
    indexes: Indexes,
    input: &mut R,
    output: &mut W,
) -> Result<(), Refusal>
    // The output grows by all that a lab shows of the script, in order.
    ensures ok { OnOk result (Turns (IsPlayedText (arc_value schema)) (R.remaining input.old)
        (W.contents output.old) (W.contents output.new)) }
    // Nothing is written but where the output can't be written; which refusal it is.
    ensures err { IfErr result (λ refusal. IsUnplayed (arc_value schema) refusal.fault (R.remaining input.old)
        (W.contents output.old) (W.contents output.new)) }
{
    let replies = match replies_of(alloc, schema, indexes, input) {
        Ok(replies) => replies,
        Err(refusal) => return Err(refusal),
    };
    match write_replies(replies.as_slice(), output) {
        Ok(()) => Ok(()),
        Err(error) => Err(write_refusal(alloc, error.kind())),
    }
}

#[tactic(auto, using(crate::proofs::Playing::shown_of))]
/// What a script shows.
fn replies_of<R: BufRead>(
    alloc: Global,
    schema: Arc<Schema>,
    indexes: Indexes,
    input: &mut R,
) -> Result<Vec<LabReply>, Refusal>
    ensures ok { IfOk result (λ v. IfSome (R.remaining input.old) (λ text. IsShownOf (arc_value schema) text
        (map shown_view v.items))) }
    ensures err { IfErr result (λ refusal. IsScriptCause (arc_value schema) refusal.fault (R.remaining input.old)) }
{
    let suffix = match root_name(alloc, &schema) {
        Ok(suffix) => suffix,
        Err(fault) => return Err(Refusal::from(fault)),
    };
    let lines = match read_lines(alloc, input) {
        Ok(lines) => lines,
        Err(fault) => return Err(session_refusal(alloc, fault)),
    };
    match play(alloc, schema, indexes, suffix, &lines) {
        Ok(replies) => Ok(replies),
        Err(error) => Err(script_refusal(alloc, &lines, Fault::from(error))),
    }
}

/// All lines, without their ends. The 18446744073709551615th counts as one that can't be read.
fn read_lines<R: BufRead>(alloc: Global, input: &mut R) -> Result<Vec<Vec<u8>>, Fault>
    ensures ok { IfOk result (λ v. IfSome (R.remaining input.old)
        (λ text. AreLines text (map (λ line. line.items) v.items))) }
    ensures err { IfErr result IsUnread }
{
    let mut lines = Vec::new(alloc);
    for _ in 0..u64::MAX {
        match next_line(alloc, input)? {
            Some(line) => lines.push(line)?,
            None => return Ok(lines),
        }
    }
    Err(Fault::CannotRead)
}
