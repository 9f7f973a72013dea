//! Counts a participatory budgeting election by the Method of Equal Shares, and audits the journal of
//! the desk that took its ballots.
#![tactic(auto)]

mod admitted;
mod command_run;
mod deciding;
mod export;
mod keeping_watch;
mod marks;
mod notes;
mod page;
mod page_count;
mod page_maker;
mod perform;
mod published;
mod run_page;
mod run_same;
mod same_page;
mod serve;
mod spent;
mod system;
mod tables;
mod tongue;
mod what_if;
mod worded;
mod words;

use crate::notes::Notes;
use crate::perform::perform;
use crate::system::System;
use pb_command_line::parse::parse;
use pb_command_line::{Asked, Parsed, Task};
use pb_commands::{AppFault, BAD_ARGUMENTS, rows_status};
use pb_streams::{End, Output, ProgressLine};
use pb_warnings::warnings::Warnings;
use std::io::{IsTerminal, Write};
use std::process::ExitCode;
use std::rt::Env;
use std::time::Instant;
use std::{env, io};

/// Which streams are terminals.
#[derive(Clone, Copy)]
pub(crate) struct Terminals {
    pub(crate) input: bool,
    pub(crate) output: bool,
    pub(crate) error: bool,
}

fn main(rt: HostRuntime) -> ExitCode {
    let terminals = Terminals {
        input: rt.stdin().is_terminal(),
        output: rt.stdout().is_terminal(),
        error: rt.stderr().is_terminal(),
    };
    match start(&rt, terminals) {
        Ok(status) => ExitCode::from(status),
        Err(fault) => ExitCode::from(write_fault(&rt, fault)),
    }
}

/// Reads the arguments, and does what they ask for. Answers the status.
fn start<R: Env + System>(rt: &R, terminals: Terminals) -> Result<u8, AppFault> {
    let arguments: Vec<String> = match env::args(rt) {
        Ok(arguments) => arguments.collect(rt.alloc())?,
        Err(error) if error.kind() == io::ErrorKind::OutOfMemory => return Err(AppFault::Memory),
        Err(_) => {
            let _ = eprintln!(rt;
                "error: an argument is not UTF-8 text. If it names a file, rename the file."
            );
            return Ok(BAD_ARGUMENTS);
        }
    };
    if terminals.input && arguments.len() <= 1 {
        words::say_usage(rt);
        return Ok(BAD_ARGUMENTS);
    }
    obey(rt, arguments.as_slice(), terminals)
}

/// Does what these arguments ask for.
fn obey<R: System>(rt: &R, arguments: &[String], terminals: Terminals) -> Result<u8, AppFault> {
    match parse(rt, rt.alloc(), arguments) {
        Ok(Parsed::Asks(asked)) => Ok(done(rt, &asked, terminals)),
        Ok(Parsed::Ends(status)) => {
            if status == BAD_ARGUMENTS {
                words::say_mistaken(rt, arguments);
            }
            Ok(status)
        }
        Err(_) => Err(AppFault::Memory),
    }
}

/// Does a task, and says on standard error what came of it.
fn done<'a, R: System>(rt: &'a R, asked: &'a Asked<'a>, terminals: Terminals) -> u8 {
    let mut output = Output::new(rt, asked, terminals.output);
    let warnings = match &asked.task {
        Task::Check(_) => Warnings::of_check(rt.alloc()),
        _ => Warnings::of_count(rt.alloc(), asked.is_strict),
    };
    let mut notes = Notes::new(rt.alloc(), asked.rule, warnings);
    let progress = ProgressLine::new(rt, asked.shows.unwrap_or(terminals.error));
    let begun = Instant::now(rt).ok();
    let result = perform(asked, &mut output, &mut notes, &progress, terminals.input);
    progress.clear();
    let has_result = result.is_ok();
    let status = match result {
        Ok(()) => {
            words::say_result(rt, asked, &notes);
            status_of(&notes)
        }
        Err(refusal) => {
            let took = begun.and_then(|begun| begun.elapsed(rt).ok());
            let (end, failure) = (refusal.end(), output.failure.as_ref());
            let status = write_end(rt, end);
            words::say_refusal(rt, asked, refusal, failure, &notes);
            if words::is_spent(end) {
                words::say_spent(rt, asked, &notes, took, &progress);
            }
            status
        }
    };
    words::say_warnings(rt, asked, &notes.seen);
    if has_result {
        words::say_rule(rt, asked, &notes);
    }
    words::say_lacking(rt, &asked.task, &notes.lacking);
    drop(progress);
    drop(notes);
    drop(output);
    status
}

/// The status of a run with a result: that of the last fault that a check lists, or of rows that were refused.
fn status_of(notes: &Notes) -> u8 {
    match notes.faults.last() {
        Some(fault) => AppFault::Read(*fault).status(),
        None => rows_status(notes.refused),
    }
}

/// Writes the line of a run without a result to standard output, and answers the status.
fn write_end<R: Print>(rt: &R, end: End) -> u8 {
    match end {
        End::Fault(fault) => write_fault(rt, fault),
        End::Words(refusal) => {
            let _ = refusal.write_line(&mut io::writer(rt));
            refusal.status()
        }
        End::Page(refusal) => {
            let _ = refusal.write_line(&mut io::writer(rt));
            refusal.status()
        }
        End::Arguments => BAD_ARGUMENTS,
    }
}

/// Writes the line of a fault to standard output, and answers the status.
fn write_fault<R: Print>(rt: &R, fault: AppFault) -> u8 {
    // Where the line can't be written either, the status alone tells.
    let _ = fault.write_line(&mut io::writer(rt));
    fault.status()
}
