//! Answers a session over lines of hex.
ghost use Rattle.std.specs.Prelude.{◌≡◌, IfOk, IfErr};
ghost use Rattle.std.specs.Io.KnownBytes.{Appends};
ghost use Rattle.ldap_session.specs.session_handler.View.{config_view};
ghost use Rattle.ldap_session.specs.View.{session_view};
ghost use Rattle.local_directory.specs.private.Lines.{hex_lines};
ghost use Rattle.local_directory.specs.private.Faults.{IsCutOff};
ghost use Rattle.local_directory.specs.Answered.{Answers, Fails, IsProperEnd};
ghost use Rattle.local_directory.specs.private.Answered.{HasPut, HasWorked, HasFailed, HasFlushed, HasNotFlushed, HasFed, HasFailedAt, Takes, FailsAt, EndsProperly};
ghost use Rattle.ldap_session.specs.Progress.{IsAtLast};

use crate::line::Line;
use crate::line_fault::LineFault;
use crate::lines::{next_piece, write_lines};
use ldap_session::{Answered, Config, Directory, Next, Session, SessionEnd};
use std::alloc::Global;
use std::io::{BufRead, Write};

/// Whether a session goes on.
#[derive(Clone, Copy, Debug)]
pub enum Flow {
    Goes,
    Ends(SessionEnd),
}

/// Writes what a message is answered with.
fn put_answered<W: Write>(
    alloc: Global,
    answered: &Answered,
    output: &mut W,
) -> Result<Next, LineFault>
    ensures ok { IfOk result (λ next. HasPut (W.contents output.old) (W.contents output.new) answered.now next) }
    ensures err { IfErr result (λ fault. IsCutOff (W.contents output.old) (W.contents output.new)
        (hex_lines answered.now.responses) fault) }
{
    write_lines(alloc, &answered.responses, output)?;
    Ok(answered.next)
}

/// Sees to it that what is written goes on its way before more input is awaited.
fn flush_output<W: Write>(output: &mut W, next: Next) -> Result<Next, LineFault>
    ensures ok { IfOk result (λ after. HasFlushed (W.contents output.old) (W.contents output.new) next after) }
    ensures err { IfErr result (λ fault. HasNotFlushed (W.contents output.old) (W.contents output.new) next fault) }
{
    match (next, output.flush()) {
        (Next::GoesOn, Err(_)) => Err(LineFault::CannotWrite),
        _ => Ok(next),
    }
}

/// How a session ends where its input does: between two messages, or inside one.
fn end_of_input(session: &Session) -> SessionEnd
    ensures at_last { IsAtLast (session_view session.now) result }
    ensures proper { IsProperEnd result }
{
    match session.end_of_input() {
        SessionEnd::EndOfInput => SessionEnd::EndOfInput,
        _ => SessionEnd::Truncated,
    }
}

/// What each answer of a session needs beside the session.
#[derive(Clone, Copy)]
struct AnswerContext<'a> {
    alloc: Global,
    config: Config<'a>,
}

impl AnswerContext<'_> {
    /// Answers all whole messages that are there.
    fn answer_ready<W: Write, D: Directory>(
        &self,
        session: &mut Session,
        directory: &mut D,
        output: &mut W,
    ) -> Result<Next, LineFault>
        ensures ok { IfOk result (λ next. HasWorked D.allows (config_view self.now.config) directory.old directory.new
            (session_view session.old) (session_view session.new) (W.contents output.old) (W.contents output.new)
            next) }
        ensures err { IfErr result (λ fault. HasFailed D.allows (config_view self.now.config) directory.old
            directory.new
            (session_view session.old) (W.contents output.old) (W.contents output.new) fault) }
    {
        loop {
            match session.answer(self.alloc, &self.config, directory) {
                Ok(None) => return Ok(Next::GoesOn),
                Ok(Some(answered)) => match put_answered(self.alloc, &answered, output) {
                    Ok(Next::GoesOn) => {}
                    Ok(Next::Unbound) => return Ok(Next::Unbound),
                    Ok(Next::Disconnected) => return Ok(Next::Disconnected),
                    Err(fault) => return Err(fault),
                },
                Err(error) => return Err(LineFault::from(error)),
            }
        }
    }

    /// Answers the messages that a piece of the stream completes.
    fn answer_piece<W: Write, D: Directory>(
        &self,
        session: &mut Session,
        piece: &[u8],
        directory: &mut D,
        output: &mut W,
    ) -> Result<Next, LineFault>
        ensures ok { IfOk result (λ next. HasFed D.allows (config_view self.now.config) directory.old directory.new
            (session_view session.old) (session_view session.new) piece.now (W.contents output.old)
            (W.contents output.new) next) }
        ensures err { IfErr result (λ fault. HasFailedAt D.allows (config_view self.now.config) directory.old
            directory.new
            (session_view session.old) piece.now (W.contents output.old) (W.contents output.new) fault) }
    {
        match session.feed(piece) {
            Ok(()) => match self.answer_ready(session, directory, output) {
                Ok(next) => flush_output(output, next),
                Err(fault) => Err(fault),
            },
            Err(_) => Err(LineFault::NoMemory),
        }
    }

    /// Answers what the next line is.
    fn answer_line<W: Write, D: Directory>(
        &self,
        session: &mut Session,
        line: Line,
        directory: &mut D,
        output: &mut W,
    ) -> Result<Flow, LineFault>
        ensures ok { IfOk result (λ flow. Takes D.allows (config_view self.now.config) directory.old directory.new
            (session_view session.old) (session_view session.new) line (W.contents output.old) (W.contents output.new)
            flow) }
        ensures end { IfOk result EndsProperly }
        ensures err { IfErr result (λ fault. FailsAt D.allows (config_view self.now.config) directory.old directory.new
            (session_view session.old) line (W.contents output.old) (W.contents output.new) fault) }
    {
        match line {
            Line::End => Ok(Flow::Ends(end_of_input(session))),
            Line::Blank => Ok(Flow::Goes),
            Line::Piece(piece) => match self.answer_piece(session, &piece, directory, output)? {
                Next::GoesOn => Ok(Flow::Goes),
                Next::Unbound => Ok(Flow::Ends(SessionEnd::Unbound)),
                Next::Disconnected => Ok(Flow::Ends(SessionEnd::Disconnected)),
            },
        }
    }
}

/// Answers an input line by line, up to its end or what ends the session: each line is a piece of the stream in hex,
/// each response a line; empty lines are skipped. What is written is flushed before the next line is read. The
/// 18446744073709551615th line counts as one that can't be read.
pub fn answer_lines<R: BufRead, W: Write, D: Directory>(
    alloc: Global,
    config: &Config,
    directory: &mut D,
    input: &mut R,
    output: &mut W,
) -> Result<SessionEnd, LineFault>
    // The output grows by the responses of a session over the stream that the lines spell.
    ensures ok { IfOk result (λ end. Answers D.allows (config_view config.now) directory.old directory.new
        (R.remaining input.old) (R.remaining input.new)
        (W.contents output.old) (W.contents output.new) end) }
    // Whatever the input and the output are, a session that ends so was not cut short by a read or a write that failed,
    // nor by want of memory.
    ensures end { IfOk result IsProperEnd }
    // Before a line that can't be read all is answered and written; a front of that, where it can't be written or
    // memory is wanting.
    ensures err { IfErr result (λ fault. Fails D.allows (config_view config.now) directory.old directory.new
        (R.remaining input.old)
        (W.contents output.old) (W.contents output.new) fault) }
{
    let terms = AnswerContext {
        alloc,
        config: *config,
    };
    let mut session = Session::new(alloc);
    for number in 1..u64::MAX {
        let line = next_piece(alloc, input, number)?;
        match terms.answer_line(&mut session, line, directory, output) {
            Ok(Flow::Goes) => {}
            Ok(Flow::Ends(end)) => return Ok(end),
            Err(fault) => return Err(fault),
        }
    }
    Err(LineFault::CannotRead)
}
