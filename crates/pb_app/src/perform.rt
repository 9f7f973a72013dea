//! What the command line asks for, done on real files.

use crate::command_run::CommandRun;
use crate::deciding::{decide_by, decide_of};
use crate::export::export;
use crate::notes::Notes;
use crate::page::page;
use crate::published::Published;
use crate::same_page::{Compared, same_page};
use crate::serve::serve;
use crate::system::System;
use crate::tables::{audit, ballots, check, compare, count, desk, tell, ties};
use crate::what_if::what_if;
use crate::words::is_quiet;
use pb_command_line::{Asked, PageRun, Task, refuses_page};
use pb_commands::{AppFault, Counting, Table};
use pb_rounds::rule::Rule;
use pb_streams::{End, Kinship, Output, ProgressLine, RunRefusal, Telling, Typing};
use pb_warnings::warnings::Warnings;
use std::io::Write;

/// What is asked for, and what was read of it first.
#[derive(Clone, Copy)]
struct Prepared<'a> {
    asked: &'a Asked<'a>,
    /// The rule of the count.
    rule: &'a Rule,
    /// What a page is compared with.
    published: &'a Published,
}

/// Does what the arguments ask for, and writes the result to its place. What the result would replace is
/// looked at first; then a published page is read that is compared; and then files are opened, in their order,
/// before any is read.
pub(crate) fn perform<'a, R: System>(
    asked: &'a Asked<'a>,
    output: &mut Output<'a, R>,
    notes: &mut Notes,
    progress: &ProgressLine<'_, R>,
    is_typed: bool,
) -> Result<(), RunRefusal> {
    output.look()?;
    let published = Published::of(progress.rt, asked)?;
    let rule = published.rule(&*asked);
    notes.rule = published.rule(&*asked);
    notes.beside = published.beside(&*asked);
    let prepared = Prepared {
        asked,
        rule: &rule,
        published: &published,
    };
    let done = write_result(&prepared, output, notes, progress, is_typed);
    drop(published);
    if done.is_err() {
        output.give_up();
        return done;
    }
    output.finish()
}

/// Does what is asked for, and writes the result, which is put in its place later.
fn write_result<'a, R: System, W: Write>(
    prepared: &'a Prepared<'a>,
    writer: &mut W,
    notes: &mut Notes,
    progress: &ProgressLine<'_, R>,
    is_typed: bool,
) -> Result<(), RunRefusal> {
    let asked = prepared.asked;
    let kinship = Kinship::new(asked.takes_other, asked.task.shows_digests());
    let telling = match (is_quiet(asked), is_typed) {
        (true, _) => Telling::Nothing,
        (false, true) => Telling::All,
        (false, false) => Telling::FirstRows,
    };
    let typing = Typing::new(telling, asked.task.admits().by_id);
    let run = CommandRun {
        counting: Counting {
            rt: progress.rt,
            alloc: progress.rt.alloc(),
            gate: progress,
            rule: prepared.rule,
        },
        asked,
        kinship: &kinship,
        published: prepared.published,
        typing: &typing,
    };
    let done = ended(do_task(&run, writer, notes), &notes.seen);
    drop(run);
    let done = match (done, kinship.refusal.replace(None)) {
        // Of a journal that is refused no more is known than that it could not be read.
        (Err(unread), Some(refusal)) => {
            drop(unread);
            Err(refusal)
        }
        (done, _) => done,
    };
    drop(kinship);
    done
}

/// How a task has ended, whose file was seen so. Where memory ran out as warnings were sought, the first one may
/// be another: then a file that a warning refuses is not refused for it, but for memory.
fn ended(done: Result<(), RunRefusal>, seen: &Warnings) -> Result<(), RunRefusal> {
    let is_warned = matches!(&done, Err(RunRefusal::Fault(AppFault::Warned(_))));
    if is_warned && seen.found().is_some_and(|found| !found.is_whole()) {
        drop(done);
        return Err(RunRefusal::Fault(AppFault::Memory));
    }
    done
}

/// Does a task.
fn do_task<'a, R: System, W: Write>(
    run: &CommandRun<'a, R>,
    writer: &mut W,
    notes: &mut Notes,
) -> Result<(), RunRefusal> {
    let done = match &run.asked.task {
        Task::Count(asked) => count(run, asked, writer, &mut notes.seen),
        Task::Projects(ballots) | Task::Voters(ballots) | Task::Fairness(ballots) => {
            tell(
                run,
                ballots,
                table_of(&run.asked.task),
                writer,
                &mut notes.seen,
            )
        }
        Task::Compare(asked) => compare(run, asked, writer, &mut notes.seen),
        Task::Ties(ballots) => ties(run, ballots, writer, &mut notes.seen),
        Task::WhatIf(asked) => return what_if(run, asked, writer, &mut notes.seen),
        Task::Page(asked) => {
            return page_or_same(run, asked, writer, &mut notes.seen);
        }
        Task::Export(ballots) => export(run, ballots, writer, notes),
        Task::Check(asked) => check(run, asked, writer, notes),
        Task::Desk(asked) => desk(run, asked, writer, notes),
        Task::Audit(asked) => audit(run, asked, writer, notes),
        Task::Ballots(asked) => ballots(run, asked, writer, notes),
        Task::Serve(asked) => return serve(run, asked, writer, notes),
    };
    Ok(done?)
}

/// Writes the page that is asked for, or says whether the published one is just that page.
fn page_or_same<'a, R: System, W: Write>(
    run: &CommandRun<'a, R>,
    asked: &'a PageRun<'a>,
    writer: &mut W,
    seen: &mut Warnings,
) -> Result<(), RunRefusal> {
    let published = run.published;
    let (Some(text), Some(marks)) = (&published.text, &published.marks) else {
        return page(run, asked, decide_of(run.asked), writer, seen);
    };
    let filled = marks.filled(asked);
    match refuses_page(run.counting.rt, run.counting.alloc, &filled) {
        Ok(false) => {}
        Ok(true) => {
            let said = String::new(run.counting.alloc);
            return Err(RunRefusal::Told(End::Arguments, Ok(said)));
        }
        Err(_) => return Err(RunRefusal::Fault(AppFault::Memory)),
    }
    let compared = Compared {
        page: text.as_slice(),
        decide: decide_by(filled.decides(run.asked.rule.options.workers)),
    };
    same_page(run, &filled, &compared, writer, seen)
}

/// The table that a task writes which writes one and no report.
fn table_of(task: &Task<'_>) -> Table {
    match task {
        Task::Voters(_) => Table::Voters,
        Task::Fairness(_) => Table::Fairness,
        _ => Table::Projects,
    }
}
