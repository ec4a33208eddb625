//! Nothing else here touches the system.
use crate::checking::check_file;
use crate::cost::explain_input;
use crate::explaining::opening_refusal;
use crate::files::ReadFiles;
use crate::lab::play_script;
use crate::local::{Options, answer_session};
use crate::opening::{empty_of, indexes_of, schema_of};
use crate::reasons::write_refusal;
use crate::refusal::Refusal;
use crate::service::{Service, service_of};
use crate::status::ExitStatus;
use crate::texts::{export_input, import_input, search_input};
use command_line::{Checking, Error, Job, Opening, Question, read_words};
use local_directory::SessionEnd;
use std::alloc::Global;
use std::io::{BufRead, Write};
use std::sync::Arc;

/// What became of a run.
#[derive(Drop)]
pub enum RunOutcome<'a> {
    /// It has ended.
    Ended(ExitStatus),
    /// It asks for a replica that serves this, until it is stopped. `listening ADDR` goes to the output once clients
    /// are heard.
    Serves(Service<'a>),
}

/// Runs the job that the words ask for. Responses go to `output`, which is flushed at the end, and faults to `faults`.
pub fn run<'a, S: ReadFiles, R: BufRead, W: Write, F: Write>(
    system: &S,
    alloc: Global,
    words: &'a [String],
    input: &mut R,
    output: &mut W,
    faults: &mut F,
) -> RunOutcome<'a> {
    let job = match read_words(alloc, words) {
        Ok(job) => job,
        Err(error) => {
            if error.use_stderr() {
                let _ = write!(faults, "{error}");
                return RunOutcome::Ended(ExitStatus::BadCommandLine);
            }
            return RunOutcome::Ended(tell(alloc, output, faults, &error));
        }
    };
    match perform_whole(system, alloc, job, input, output) {
        Ok(ran) => ran,
        Err(refusal) => {
            refusal.tell(faults);
            RunOutcome::Ended(ExitStatus::Refused)
        }
    }
}

/// The exit status of a session that ended so.
fn status_of(end: SessionEnd) -> ExitStatus {
    match end {
        SessionEnd::EndOfInput | SessionEnd::Unbound => ExitStatus::Done,
        SessionEnd::Truncated
        | SessionEnd::Disconnected
        | SessionEnd::ReadFailed
        | SessionEnd::WriteFailed
        | SessionEnd::NoMemory => ExitStatus::Refused,
    }
}

/// Tells what the words ask to be told: how the program is used, or its version.
fn tell<W: Write, F: Write>(
    alloc: Global,
    output: &mut W,
    faults: &mut F,
    text: &Error,
) -> ExitStatus {
    match write_text(output, text) {
        Ok(()) => ExitStatus::Done,
        Err(error) => {
            write_refusal(alloc, error.kind()).tell(faults);
            ExitStatus::Refused
        }
    }
}

/// Writes a text, and hands it on.
fn write_text<W: Write>(output: &mut W, text: &Error) -> std::io::Result<()> {
    write!(output, "{text}")?;
    output.flush()
}

/// Does the job, and hands on all that it wrote.
fn perform_whole<'a, S: ReadFiles, R: BufRead, W: Write>(
    system: &S,
    alloc: Global,
    job: Job<'a>,
    input: &mut R,
    output: &mut W,
) -> Result<RunOutcome<'a>, Refusal> {
    let ran = perform(system, alloc, job, input, output)?;
    match output.flush() {
        Ok(()) => Ok(ran),
        Err(error) => Err(write_refusal(alloc, error.kind())),
    }
}

/// Does the job.
fn perform<'a, S: ReadFiles, R: BufRead, W: Write>(
    system: &S,
    alloc: Global,
    job: Job<'a>,
    input: &mut R,
    output: &mut W,
) -> Result<RunOutcome<'a>, Refusal> {
    match job {
        Job::Answer(opening) => answer(system, alloc, opening, input, output),
        Job::Search(question) => done(search(system, alloc, &question, input, output)),
        Job::Check(checking) => check(system, alloc, &checking, output),
        Job::Import => done(import_input(alloc, input, output)),
        Job::Export => done(export_input(alloc, input, output)),
        Job::Lab(index) => done(lab(system, alloc, index, input, output)),
        Job::Serve(words) => Ok(RunOutcome::Serves(service_of(system, alloc, words)?)),
    }
}

/// What became of a run whose job has no status of its own.
fn done<'a>(told: Result<(), Refusal>) -> Result<RunOutcome<'a>, Refusal> {
    told?;
    Ok(RunOutcome::Ended(ExitStatus::Done))
}

/// One session, once the schema and the index choice are read.
fn answer<'a, S: ReadFiles, R: BufRead, W: Write>(
    system: &S,
    alloc: Global,
    opening: Opening<'_>,
    input: &mut R,
    output: &mut W,
) -> Result<RunOutcome<'a>, Refusal> {
    let schema = schema_of(system, alloc, opening.schema)?;
    let indexes = indexes_of(system, alloc, &schema, opening.index)?;
    let options = Options {
        schema: Arc::try_clone(&schema)?,
        indexes,
        sample: opening.sample,
    };
    match answer_session(alloc, options, input, output) {
        Ok(end) => Ok(RunOutcome::Ended(status_of(end))),
        Err(fault) => Err(opening_refusal(alloc, &schema, fault)),
    }
}

/// One search of the directory of the input's records, once the schema, the index choice and the suffix are read; or
/// what it costs.
fn search<S: ReadFiles, R: BufRead, W: Write>(
    system: &S,
    alloc: Global,
    question: &Question<'_>,
    input: &mut R,
    output: &mut W,
) -> Result<(), Refusal> {
    let empty = empty_of(system, alloc, &question.ground)?;
    match question.explains {
        true => explain_input(alloc, &empty, question, input, output),
        false => search_input(alloc, &empty, question, input, output),
    }
}

/// What a directory would refuse of a file, once the schema, the index choice and the suffix are read.
fn check<'a, S: ReadFiles, W: Write>(
    system: &S,
    alloc: Global,
    checking: &Checking<'_>,
    output: &mut W,
) -> Result<RunOutcome<'a>, Refusal> {
    let empty = empty_of(system, alloc, &checking.ground)?;
    let text = system.read_octets(alloc, checking.file)?;
    let status = check_file(alloc, &empty, checking.file, &text, output)?;
    Ok(RunOutcome::Ended(status))
}

/// One script, once the index choice is read, under the built-in schema.
fn lab<S: ReadFiles, R: BufRead, W: Write>(
    system: &S,
    alloc: Global,
    index: Option<&str>,
    input: &mut R,
    output: &mut W,
) -> Result<(), Refusal> {
    let schema = schema_of(system, alloc, None)?;
    let indexes = indexes_of(system, alloc, &schema, index)?;
    play_script(alloc, schema, indexes, input, output)
}
