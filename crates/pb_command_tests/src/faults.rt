//! A writer that can't be flushed, and what the faults of a script and of a run say of themselves.

use crate::checks::{THREE_VOTERS, same};
use pb_commands::AppFault;
use pb_commands::run_audit::run_audit;
use pb_commands::run_count::run_count;
use pb_commands::run_desk::run_desk;
use pb_core::gate::NoGate;
use pb_desk::AuditFault;
use pb_faults::RunText;
use pb_read::{ReadFault, ReadKind};
use pb_rounds::count_fault::CountFault;
use pb_rounds::options::CountOptions;
use pb_script::{ScriptFault, ServeFault};
use std::alloc::Global;
use std::fmt::Display;
use std::io;
use std::io::Write;
use std::process::Abort;
use std::thread::Threads;

/// A writer that takes each text, and then can't hand it on.
#[derive(Drop)]
struct Stuck;

impl Write for Stuck {
    fn write(&mut self, text: &[u8]) -> io::Result<usize> {
        Ok(text.len())
    }

    fn flush(&mut self) -> io::Result<()> {
        Err(io::Error::from(io::ErrorKind::Other))
    }
}

/// A journal or a script of no row.
const NOTHING: &[u8] = b"";

/// What a count that writes to it ends with.
fn counted(rt: &(impl Threads + Sync), alloc: Global) -> Result<(), AppFault> {
    let file = THREE_VOTERS.as_bytes();
    run_count(rt, alloc, file, &mut Stuck, &CountOptions::standard())
}

/// What an audit ends with.
fn audited(rt: &(impl Threads + Sync), alloc: Global) -> Result<(), AppFault> {
    let (file, options) = (THREE_VOTERS.as_bytes(), CountOptions::standard());
    run_audit(rt, alloc, file, NOTHING, &mut Stuck, &options)
}

/// What a desk ends with.
fn served(rt: &(impl Threads + Sync), alloc: Global) -> Result<(), AppFault> {
    let file = THREE_VOTERS.as_bytes();
    run_desk(rt, alloc, file, NOTHING, 1, false, &NoGate, &mut Stuck)
}

#[test]
fn a_writer_that_cannot_be_flushed_has_failed(rt: HostRuntime) {
    let failed = Err(AppFault::Write);
    same(&rt, counted(&rt, rt.alloc()), failed, "a count");
    same(&rt, audited(&rt, rt.alloc()), failed, "an audit");
    same(&rt, served(&rt, rt.alloc()), failed, "a desk");
}

const FAULTS: &[(ScriptFault, &str)] = &[
    (
        ScriptFault::ReadFailed(7),
        "1 ReadFailed: the reader failed at row 7",
    ),
    (
        ScriptFault::BadRow(7),
        "2 BadRow: row 7 has not the form of a request by a clerk of this run",
    ),
    (
        ScriptFault::TooManyRows,
        "3 TooManyRows: there are too many rows",
    ),
    (ScriptFault::NoMemory, "4 NoMemory: out of memory"),
    (
        ScriptFault::UnknownId(7),
        "5 UnknownId: row 7 names an id that no project has",
    ),
    (
        ScriptFault::NotOnRoll(7),
        "6 NotOnRoll: the voter of row 7 is not on the roll",
    ),
    (
        ScriptFault::TooFew(7),
        "7 TooFew: the ballot of row 7 has too few projects",
    ),
    (
        ScriptFault::FromFile(7),
        "8 FromFile: the ballot of the voter of row 7 came with the file, and is kept",
    ),
    (
        ScriptFault::NoShut(7),
        "9 NoShut: row 7 shuts the desk, and no row may",
    ),
];

/// The fault's number, name and text are these.
fn tells(rt: &impl Abort, alloc: Global, fault: &ScriptFault, wanted: &str) {
    let (number, name) = (fault.number(), fault.name());
    let shown = format!(in alloc; "{number} {name}: {fault}").expect(rt, "memory");
    same(rt, shown.as_str(), wanted, wanted);
    drop(shown);
}

/// Why a run ends without what it was to write, and what is said of it.
const RUN_FAULTS: &[(AppFault, &str)] = &[
    (
        AppFault::Read(ReadFault {
            kind: ReadKind::EmptyId,
            at: 7,
        }),
        "file: record 7: an id is empty",
    ),
    (
        AppFault::Script(ScriptFault::TooManyRows),
        "script: there are too many rows",
    ),
    (AppFault::ClerkCount, "the number of clerks is not 1 to 64"),
    (
        AppFault::Audit(AuditFault::WrongNumber(7)),
        "journal: row 7 has another number",
    ),
    (AppFault::OpenDesk, "the desk is open"),
    (
        AppFault::Count(CountFault::RaisesSpent),
        "count: the raises are spent",
    ),
    (
        AppFault::TooManyRuns,
        "ties: the count rests on too many runs",
    ),
    (
        AppFault::Open(RunText::Journal),
        "file 2 could not be opened",
    ),
    (AppFault::Write, "the writer failed"),
    (AppFault::Memory, "out of memory"),
];

/// Why there is no journal of a script, and what is said of it.
const SERVE_FAULTS: &[(ServeFault, &str)] = &[
    (
        ServeFault::Script(ScriptFault::TooManyRows),
        "there are too many rows",
    ),
    (
        ServeFault::ClerkCount,
        "the number of clerks is not 1 to 64",
    ),
];

/// It is shown as this text.
pub(crate) fn shows<D: Display>(rt: &impl Abort, alloc: Global, fault: &D, wanted: &str) {
    let shown = format!(in alloc; "{fault}").expect(rt, "memory");
    same(rt, shown.as_str(), wanted, wanted);
    drop(shown);
}

#[test]
fn a_run_tells_its_faults(rt: HostRuntime) {
    for (fault, wanted) in RUN_FAULTS {
        shows(&rt, rt.alloc(), fault, wanted);
    }
    for (fault, wanted) in SERVE_FAULTS {
        shows(&rt, rt.alloc(), fault, wanted);
    }
}

/// A fault of the device, and the line of it.
const LINES: &[(AppFault, &[u8])] = &[
    (AppFault::Write, b"fault;write\n"),
    (AppFault::Open(RunText::Journal), b"fault;open;2\n"),
];

/// A writer that takes all has taken the whole line, and the call says so.
fn writes_line(rt: &impl Abort, alloc: Global, fault: &AppFault, wanted: &[u8]) {
    let mut line = Vec::new(alloc);
    let written = fault.write_line(&mut line).is_ok();
    same(rt, written, true, "a line that is written");
    same(rt, line.as_slice(), wanted, "a line");
    drop(line);
}

#[test]
fn a_line_that_is_taken_is_written(rt: HostRuntime) {
    for (fault, wanted) in LINES {
        writes_line(&rt, rt.alloc(), fault, wanted);
    }
}

#[test]
fn a_script_tells_its_faults(rt: HostRuntime) {
    for (fault, wanted) in FAULTS {
        tells(&rt, rt.alloc(), fault, wanted);
    }
}
