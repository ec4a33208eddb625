//! Writes what a lab shows, a line for each thing and one more for each entry of an answer.
ghost use Rattle.std.specs.Prelude.{◌≡◌, ◌++◌, map, codes, decimal, flat_map, OnOk};
ghost use Rattle.std.specs.Io.KnownBytes.{Appends};
ghost use Rattle.lab_script.specs.dir_lab.Shown.{shown_view};
ghost use Rattle.lab_script.specs.dir_lab.dir_search.directory_api.View.{answer_view};
ghost use Rattle.dird_commands.specs.private.Replies.{line_of, reply_line, entry_line, answer_line, answer_text, status_word, state_line, text_of};

use lab_script::{LabReply, ReplyBy, SearchAnswer, Status};
use std::io::Write;

/// Writes what a lab shows, in order.
pub fn write_replies<W: Write>(replies: &[LabReply], output: &mut W) -> std::io::Result<()>
    ensures { OnOk result (Appends (W.contents output.old) (W.contents output.new)
        (flat_map text_of (map shown_view replies.now))) }
{
    for reply in replies {
        write_reply(reply, output)?;
    }
    Ok(())
}

/// Writes what a lab shows at once: a line, and one more for each entry of an answer.
fn write_reply<W: Write>(reply: &LabReply, output: &mut W) -> std::io::Result<()>
    ensures { OnOk result (Appends (W.contents output.old) (W.contents output.new) (text_of (shown_view reply.now))) }
{
    match reply {
        LabReply::Replied { by, code } => write_replied(by, code.number(), output),
        LabReply::Unavailable => writeln!(output, "unavailable"),
        LabReply::NotYet { at } => write_not_yet(*at, output),
        LabReply::Answered { at, answer } => write_answer(*at, answer, output),
        LabReply::Standing {
            replica,
            view_number,
            status,
            op_number,
            commit_number,
        } => write_state(
            *replica,
            *view_number,
            *status,
            *op_number,
            *commit_number,
            output,
        ),
        LabReply::Down { replica } => write_down(*replica, output),
    }
}

/// Writes that a replica hasn't come so far yet.
fn write_not_yet<W: Write>(at: u64, output: &mut W) -> std::io::Result<()>
    ensures { OnOk result (Appends (W.contents output.old) (W.contents output.new)
        (line_of (codes "notyet at=" ++ decimal at))) }
{
    writeln!(output, "notyet at={at}")
}

/// Writes that a replica is down.
fn write_down<W: Write>(replica: u64, output: &mut W) -> std::io::Result<()>
    ensures { OnOk result (Appends (W.contents output.old) (W.contents output.new)
        (line_of (codes "state replica=" ++ decimal replica ++ codes " down"))) }
{
    writeln!(output, "state replica={replica} down")
}

/// Writes the state of a replica.
fn write_state<W: Write>(
    replica: u64,
    view: u64,
    status: Status,
    op: u64,
    commit: u64,
    output: &mut W,
) -> std::io::Result<()>
    ensures { OnOk result (Appends (W.contents output.old) (W.contents output.new) (state_line replica view status op
        commit)) }
{
    let status = status_word(status);
    writeln!(
        output,
        "state replica={replica} view={view} status={status} log={op} commit={commit}"
    )
}

/// Writes a reply to an update.
fn write_replied<W: Write>(by: &ReplyBy, code: u32, output: &mut W) -> std::io::Result<()>
    ensures { OnOk result (Appends (W.contents output.old) (W.contents output.new) (reply_line by.now code)) }
{
    writeln!(
        output,
        "reply replica={} client={} number={} op={} code={code}",
        by.replica, by.reply.client.number, by.reply.request_number, by.reply.op_number
    )
}

/// Writes the code of an answer and how many entries it has.
fn write_answered<W: Write>(at: u64, code: u32, count: usize, output: &mut W) -> std::io::Result<()>
    ensures { OnOk result (Appends (W.contents output.old) (W.contents output.new) (answer_line at code count)) }
{
    writeln!(output, "answer at={at} code={code} entries={count}")
}

/// Writes the name of an entry.
fn write_entry<W: Write>(name: &str, output: &mut W) -> std::io::Result<()>
    ensures { OnOk result (Appends (W.contents output.old) (W.contents output.new) (entry_line name.now)) }
{
    writeln!(output, "entry {name}")
}

/// Writes the answer of a search: its code and how many entries it has, and then the name of each.
fn write_answer<W: Write>(at: u64, answer: &SearchAnswer, output: &mut W) -> std::io::Result<()>
    ensures { OnOk result (Appends (W.contents output.old) (W.contents output.new)
        (answer_text at (answer_view answer.now))) }
{
    let entries = answer.entries.as_slice();
    write_answered(at, answer.code.number(), entries.len(), output)?;
    for entry in entries {
        write_entry(entry.object_name(), output)?;
    }
    Ok(())
}

/// The word for a status.
fn status_word(status: Status) -> &'static str
    ensures { result.now ≡ status_word status }
{
    match status {
        Status::Normal => "normal",
        Status::ViewChange => "changing",
        Status::Recovering => "recovering",
    }
}
