//! The commands that write a report, a table, a list or the journal of a script.

use crate::admitted::{RowNotice, rules_of};
use crate::command_run::CommandRun;
use crate::deciding::decide_of;
use crate::notes::Notes;
use crate::system::System;
use pb_command_line::{
    AuditRun, Ballots, BallotsRun, CheckRun, CompareRun, CountRun, DeskRun, most_votes_beside,
};
use pb_commands::run_audit::{AuditInputs, run_audit_watched};
use pb_commands::run_ballots::run_ballots;
use pb_commands::run_beside::{OtherRule, run_beside};
use pb_commands::run_check::{run_check, run_check_against};
use pb_commands::run_decided::{DecidedTable, run_decided};
use pb_commands::run_decided_audit::{DecidedAudit, run_decided_audit};
use pb_commands::run_desk::run_admitted_desk;
use pb_commands::run_history::run_history;
use pb_commands::run_table::run_table;
use pb_commands::run_ties::run_ties;
use pb_commands::{AppFault, CountedBy, Demand, Digests, Table, write_digested, write_out};
use pb_core::gate::NoGate;
use pb_faults::RunText;
use pb_read::read_pb;
use pb_streams::{Hex, LineCount, Shown, open_both, open_shown};
use pb_warnings::warnings::Warnings;
use std::io::Write;
use std::mem;

/// Counts these ballots, and writes this table of the outcome; where it is asked which of two rules stands, by that one.
pub(crate) fn tell<'a, R: System, W: Write>(
    run: &CommandRun<'a, R>,
    ballots: &Ballots<'a>,
    table: Table,
    writer: &mut W,
    seen: &mut Warnings,
) -> Result<(), AppFault> {
    let inputs = run.inputs(ballots)?;
    match decide_of(run.asked) {
        Some(decide) => {
            let decided = DecidedTable { table, decide };
            run_decided(&run.counting, inputs, seen, writer, &decided)
        }
        None => run_table(&run.counting, inputs, seen, writer, table),
    }
}

/// Counts ballots, and writes how the rule compares with another: the one that is named, or most votes first.
pub(crate) fn compare<'a, R: System, W: Write>(
    run: &CommandRun<'a, R>,
    asked: &CompareRun<'a>,
    writer: &mut W,
    seen: &mut Warnings,
) -> Result<(), AppFault> {
    let inputs = run.inputs(&asked.ballots)?;
    let beside = OtherRule {
        rule: match asked.beside {
            Some(rule) => rule,
            None => most_votes_beside(run.counting.rule),
        },
        by_project: asked.by_project,
    };
    run_beside(&run.counting, inputs, seen, writer, &beside)
}

/// Counts these ballots, and writes the table of all ties.
pub(crate) fn ties<'a, R: System, W: Write>(
    run: &CommandRun<'a, R>,
    ballots: &Ballots<'a>,
    writer: &mut W,
    seen: &mut Warnings,
) -> Result<(), AppFault> {
    let inputs = run.inputs(ballots)?;
    run_ties(&run.counting, inputs, seen, writer)
}

/// Counts ballots: the report, alone or below the digests of what was read.
pub(crate) fn count<'a, R: System, W: Write>(
    run: &CommandRun<'a, R>,
    asked: &CountRun<'a>,
    writer: &mut W,
    seen: &mut Warnings,
) -> Result<(), AppFault> {
    if !asked.digests {
        return tell(run, &asked.ballots, Table::Report, writer, seen);
    }
    let mut text = Vec::new(run.counting.alloc);
    let told = tell(run, &asked.ballots, Table::Report, &mut text, seen);
    put_below_digests(run, told.map(|()| true), text, writer)
}

/// Checks a .pb file, and keeps its faults and warnings.
pub(crate) fn check<R: System, W: Write>(
    run: &CommandRun<'_, R>,
    asked: &CheckRun<'_>,
    writer: &mut W,
    notes: &mut Notes,
) -> Result<(), AppFault> {
    let file = open_shown(run.counting.gate, &asked.file)?;
    let listed = if asked.compares {
        run_check_against(&run.counting, file, writer, &mut notes.seen)
    } else {
        run_check(run.counting.alloc, file, writer, &mut notes.seen)
    };
    drop(mem::replace(&mut notes.faults, listed?));
    Ok(())
}

/// Lets clerks serve a script on the desk of a .pb file. What is typed at a terminal is not shown a second
/// time. A fault of the file is told before one of the roll.
pub(crate) fn desk<R: System, W: Write>(
    run: &CommandRun<'_, R>,
    asked: &DeskRun<'_>,
    writer: &mut W,
    notes: &mut Notes,
) -> Result<(), AppFault> {
    let (rt, alloc) = (run.counting.rt, run.counting.alloc);
    let (file, script) = open_both(rt, &asked.file, &asked.script, RunText::Script)?;
    let file = Shown::new(file, run.counting.gate);
    let rules = match rules_of(rt, &asked.admits) {
        Ok(rules) => rules,
        Err(fault) => {
            drop(script);
            drop(read_pb(alloc, file)?);
            return Err(fault);
        }
    };
    let (clerks, shuts) = (asked.clerks, asked.shuts);
    let notice = RowNotice::new(run);
    let counts = &mut notes.entries;
    run_admitted_desk(
        rt, alloc, file, script, clerks, shuts, &NoGate, rules, &notice, counts, writer,
    )
}

/// Audits a journal on a .pb file: the report, alone or below the digests of what was read. Nothing is written
/// before the whole text is there: a refusal is its line alone.
pub(crate) fn audit<'a, R: System, W: Write>(
    run: &CommandRun<'a, R>,
    asked: &AuditRun<'a>,
    writer: &mut W,
    notes: &mut Notes,
) -> Result<(), AppFault> {
    if !asked.digests {
        return report(run, asked, writer, notes);
    }
    let mut text = Vec::new(run.counting.alloc);
    let told = counting_report(run, asked, &mut text, notes);
    put_below_digests(run, told, text, writer)
}

/// Writes the report of an audit, and answers whether it counts: that of an open desk, which does not, has one
/// row.
fn counting_report<'a, R: System, W: Write>(
    run: &CommandRun<'a, R>,
    asked: &AuditRun<'a>,
    writer: &mut W,
    notes: &mut Notes,
) -> Result<bool, AppFault> {
    let mut lines = LineCount::new(writer);
    report(run, asked, &mut lines, notes)?;
    Ok(lines.lines > 1)
}

/// Writes this text, if it was told whole, below the digests of what was read for it, and where it counts below
/// the name of the rule.
fn put_below_digests<R: System, W: Write>(
    run: &CommandRun<'_, R>,
    told: Result<bool, AppFault>,
    text: Vec<u8>,
    writer: &mut W,
) -> Result<(), AppFault> {
    let passed = match told {
        Ok(counts) => write_below_digests(run, counts, text.as_slice(), writer),
        // A text in memory is refused for memory alone.
        Err(AppFault::Write) => Err(AppFault::Memory),
        Err(fault) => Err(fault),
    };
    drop(text);
    passed
}

/// Writes this report below the digests of what was read for it.
fn write_below_digests<R: System, W: Write>(
    run: &CommandRun<'_, R>,
    counts: bool,
    report: &[u8],
    writer: &mut W,
) -> Result<(), AppFault> {
    let (file, journal) = (run.kinship.file.get(), run.kinship.journal.get());
    match &file {
        Some(file) => {
            let digests = digests_of(file, journal.as_ref());
            let by = CountedBy {
                rule: run.counting.rule,
                decide: decide_of(run.asked),
            };
            let by = counts.then_some(&by);
            write_digested(run.counting.alloc, &digests, by, report, writer)
        }
        None => write_out(writer, report, AppFault::Write),
    }
}

/// The digests of a .pb file and of a journal, as texts.
fn digests_of<'x>(file: &'x Hex, journal: Option<&'x Hex>) -> Digests<'x> {
    match journal {
        Some(journal) => Digests {
            file: file.text(),
            journal: Some(journal.text()),
        },
        None => Digests {
            file: file.text(),
            journal: None,
        },
    }
}

/// Writes the report of an audit, and notes how many entries have which answer.
fn report<'a, R: System, W: Write>(
    run: &CommandRun<'a, R>,
    asked: &AuditRun<'a>,
    writer: &mut W,
    notes: &mut Notes,
) -> Result<(), AppFault> {
    let (file, journal) = run.with_journal(&asked.file, &asked.journal)?;
    let inputs = AuditInputs {
        file,
        journal,
        demand: if asked.requires_shut {
            Demand::Shut
        } else {
            Demand::Any
        },
    };
    let Notes { entries, seen, .. } = notes;
    match decide_of(run.asked) {
        Some(decide) => {
            let audit = DecidedAudit { inputs, decide };
            run_decided_audit(&run.counting, audit, entries, seen, writer)
        }
        None => run_audit_watched(&run.counting, inputs, entries, seen, writer),
    }
}

/// Writes the table of the ballots that a journal leaves on the desk of a file, or of what one voter's ballot
/// was. Where one voter is named it notes whether that voter has none.
pub(crate) fn ballots<'a, R: System, W: Write>(
    run: &CommandRun<'a, R>,
    asked: &BallotsRun<'a>,
    writer: &mut W,
    notes: &mut Notes,
) -> Result<(), AppFault> {
    let (file, journal) = run.with_journal(&asked.file, &asked.journal)?;
    let voter = asked.voter.map(|voter| voter.trim());
    if let (Some(voter), true) = (voter, asked.history) {
        return run_history(run.counting.alloc, file, journal, voter, writer);
    }
    let mut table = LineCount::new(writer);
    run_ballots(run.counting.alloc, file, journal, voter, &mut table)?;
    // The first line is the head.
    notes.has_no_ballot = voter.is_some() && table.lines <= 1;
    Ok(())
}
