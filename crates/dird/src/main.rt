//! The program: gives its commands the system's words, files, streams and sockets, and the system
//! their exit status.
//!
//! `main` gives `dird_commands` the system's files and streams; `serving` hands what a replica is to serve to `server`.
#![tactic(auto)]

mod serving;
mod words;

use command_line::BUILD;
use dird_commands::{ExitStatus, RunOutcome, SystemFiles, run};
use server::takes_a_line;
use serving::serve_as_replica;
use std::io::{self, BufReader, BufWriter, Eprint, Write};
use std::process::ExitCode;
use words::system_words;

/// What a program says first whose proofs were not checked.
const UNPROVED: &str =
    "unproved build: the same sources, their proofs not checked; ./prove checks them and builds the proved program\n";

/// How long it is waited for that standard error takes what is told at the end, in milliseconds: a program that has
/// ended stays for nobody who doesn't read.
const FAREWELL: i32 = 1_000;

/// Tells what went wrong, where somebody reads it.
fn tell<R: Eprint>(rt: &R, faults: &[u8]) -> io::Result<()> {
    if faults.is_empty() || !takes_a_line(FAREWELL) {
        return Ok(());
    }
    match str::from_utf8(faults) {
        Ok(text) => rt.eprint(text),
        Err(_) => Ok(()),
    }
}

fn main(rt: HostRuntime) -> io::Result<ExitCode> {
    let alloc = rt.alloc();
    let words = system_words(alloc, &rt)?;
    let mut input = BufReader::new(alloc, rt.reader())?;
    let mut output = BufWriter::new(alloc, io::writer(&rt))?;
    let mut faults = Vec::new(alloc);
    if !BUILD.is_proved() {
        rt.eprint(UNPROVED)?;
    }
    let ran = run(
        &SystemFiles(&rt),
        alloc,
        &words,
        &mut input,
        &mut output,
        &mut faults,
    );
    let status = match ran {
        RunOutcome::Ended(status) => status,
        RunOutcome::Serves(service) => serve_as_replica(&rt, alloc, service, &mut faults),
    };
    // The run has flushed it and told of it; what an early end left is handed on where it can be.
    let _ = output.flush();
    tell(&rt, &faults)?;
    Ok(ExitCode::from(status.code()))
}
