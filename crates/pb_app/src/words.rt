//! What is said on standard error, beside what programs read.

use crate::notes::Notes;
use crate::spent::look_further;
use crate::system::System;
use pb_command_line::{Asked, BallotsRun, Task};
use pb_commands::{AppFault, ServingFault};
use pb_desk::desk::MOST_CLERKS;
use pb_durable::file_beside::read_file_beside;
use pb_export::ExportFault;
use pb_faults::RunText;
use pb_rounds::count_fault::CountFault;
use pb_rounds::rule::Rule;
use pb_script::ScriptFault;
use pb_streams::{End, ProgressLine, RunRefusal, behind_link};
use pb_warnings::warning_words::{rule_words, warning_words};
use pb_warnings::warnings::Warnings;
use pb_witness::audited::AuditPaths;
use pb_witness::text::is_file;
use pb_words::belonging_words::other_file_words;
use pb_words::count_words::{count_words, spent_words, too_many_runs_words};
use pb_words::either_words::{OfTwo, either_count_words, other_spent_words};
use pb_words::export_words::{comma_words, heading_words, lacking_words};
use pb_words::journal_words::journal_words;
use pb_words::read_words::{list_words, read_words};
use pb_words::refused_words::roll_words;
use pb_words::same_words::unread_input_words;
use pb_words::script_words::{Taking, script_words};
use pb_words::serve_words::{
    bad_rows_words, changed_words, locked_words, open_desk_words, spelling_words, unanswered_words,
};
use pb_words::tally_words::{by_rule_words, no_ballot_words, tally_words};
use pb_words::{Said, mistaken_words, open_words, said, say, say_words, unread_words, write_words};
use std::alloc::{AllocError, Global};
use std::fs;
use std::io::Error;
use std::time::Duration;

/// What is said of a file that a warning refuses.
const STRICT: &str =
    "The file can be counted, but `--strict` refuses it because of these warnings:\n";

/// How the program is used.
const USAGE: &str = "pb_app counts a participatory budgeting election: pb_app count FILE
Without a command it counts what another program sends to it, and here nothing is sent.
For more: pb_app --help
";

/// Says how the program is used, where it would wait for what nobody types.
pub(crate) fn say_usage<R: System>(rt: &R) {
    say(rt, USAGE);
}

/// Says what was meant, where the first argument is a file and no command.
pub(crate) fn say_mistaken<R: System>(rt: &R, arguments: &[String]) {
    if let Some(path) = arguments.get(1) {
        if is_file(rt, path.as_str()) {
            say_words(rt, mistaken_words(rt.alloc(), path.as_str()))
        }
    }
}

/// Says what is to be said of a result.
pub(crate) fn say_result<R: System>(rt: &R, asked: &Asked<'_>, notes: &Notes) {
    if !is_quiet(asked) {
        say_counts(rt, &asked.task, notes);
    }
    let bad = notes.bad_rows();
    if bad > 0 {
        say_words(rt, bad_rows_words(rt.alloc(), bad));
    }
    let faults = notes.faults.as_slice();
    if !faults.is_empty() {
        let (file, _) = asked.task.paths();
        let witness = &notes.seen.witness;
        say_words(rt, list_words(rt, rt.alloc(), file, faults, witness));
    }
}

/// Whether nothing is said of how a run goes.
pub(crate) fn is_quiet(asked: &Asked<'_>) -> bool {
    asked.shows == Some(false)
}

/// Says how many requests were carried out and answered no, where a journal was written or audited, or that
/// the voter whose ballot was asked for has none.
fn say_counts<R: System>(rt: &R, task: &Task<'_>, notes: &Notes) {
    let alloc = rt.alloc();
    match task {
        Task::Count(_)
        | Task::Projects(_)
        | Task::Voters(_)
        | Task::Fairness(_)
        | Task::Compare(_)
        | Task::Ties(_)
        | Task::WhatIf(..)
        | Task::Page(..)
        | Task::Export(_)
        | Task::Check(_) => {}
        Task::Desk(..) | Task::Serve(..) => {
            say_words(rt, tally_words(alloc, &notes.entries, "recorded"));
            say_words(rt, by_rule_words(alloc, &notes.by_rule))
        }
        Task::Audit(..) => say_words(rt, tally_words(alloc, &notes.entries, "checked")),
        Task::Ballots(BallotsRun { journal, voter, .. }) => match voter {
            Some(voter) if notes.has_no_ballot => {
                say_words(rt, no_ballot_words(alloc, journal.path(), voter.trim()))
            }
            _ => {}
        },
    }
}

/// Says what in a file that was read is probably not meant.
pub(crate) fn say_warnings<R: System>(rt: &R, asked: &Asked<'_>, seen: &Warnings) {
    if !matches!(
        asked.task,
        Task::Desk(..) | Task::Serve(..) | Task::Ballots(..)
    ) {
        let (file, _) = asked.task.paths();
        say_words(rt, warning_words(rt, rt.alloc(), file, seen.found()));
    }
}

/// Says that a file which was counted names another rule.
pub(crate) fn say_rule<R: System>(rt: &R, asked: &Asked<'_>, notes: &Notes) {
    let counts = match &asked.task {
        Task::Check(run) => run.compares && notes.faults.is_empty(),
        Task::Desk(..) | Task::Serve(..) | Task::Ballots(..) => false,
        _ => true,
    };
    let (file, _) = asked.task.paths();
    if let (Some(named), true) = (notes.seen.rule(), counts) {
        // A decision is by two rules, and the file may name the other one.
        let is_other = match (&asked.task, notes.beside) {
            (Task::Compare(_), _) | (_, None) => false,
            (_, Some(other)) => named.0.eq_ignore_ascii_case(other.word()),
        };
        if !is_other {
            say_words(rt, rule_words(rt, rt.alloc(), file, named, &notes.rule));
        }
    }
}

/// Says which keys an exported file lacks.
pub(crate) fn say_lacking<R: System>(rt: &R, task: &Task<'_>, lacking: &[bool; 6]) {
    let (file, _) = task.paths();
    say_words(rt, lacking_words(rt.alloc(), file, lacking));
}

/// Says why a run has no result; this is why a write failed, if one did.
pub(crate) fn say_refusal<R: System>(
    rt: &R,
    asked: &Asked<'_>,
    refusal: RunRefusal,
    failure: Option<&Error>,
    notes: &Notes,
) {
    let words = match refusal {
        RunRefusal::Fault(fault) => words_of(rt, asked, fault, failure, notes),
        RunRefusal::Told(_, words) => words,
    };
    say_words(rt, words);
}

/// Words for the fault of a run; there are none where they were said before.
fn words_of<R: System>(
    rt: &R,
    asked: &Asked<'_>,
    fault: AppFault,
    failure: Option<&Error>,
    notes: &Notes,
) -> Said {
    let (alloc, task) = (rt.alloc(), &asked.task);
    let (first, second) = task.paths();
    let path = path_of(asked, RunText::Journal);
    let counted = task.journal().unwrap_or(task.texts().0);
    match fault {
        AppFault::Open(RunText::Page) => unread_page_words(rt, published_path(task)),
        AppFault::Read(fault) => read_words(rt, alloc, first, &fault, &notes.seen.witness),
        AppFault::Script(fault) => words_of_script(rt, task, fault),
        AppFault::ClerkCount => script_words(rt, alloc, second, None, taking_of(task)),
        AppFault::Audit(fault) => {
            let paths = AuditPaths {
                file: first,
                journal: second,
                is_served: is_serve(task),
            };
            journal_words(rt, alloc, paths, fault)
        }
        AppFault::OtherFile => words_of_other_file(rt, first, path),
        AppFault::OpenDesk => open_desk_words(alloc, second),
        AppFault::Count(fault) => words_of_count(alloc, asked, fault, notes),
        AppFault::TooManyRuns => too_many_runs_words(alloc, counted.path()),
        AppFault::Export(ExportFault::SectionWord) => heading_words(rt, alloc, first, second),
        AppFault::Export(_) => comma_words(rt, alloc, first, task.journal().is_some()),
        AppFault::Open(text) => open_words(rt, alloc, path_of(asked, text)),
        AppFault::Write => write_words(alloc, asked.output, failure),
        AppFault::Memory => Err(AllocError),
        AppFault::Warned(_) => said(alloc, STRICT, &[]),
        AppFault::Roll(fault) => roll_words(rt, alloc, path_of(asked, RunText::Roll), fault),
        AppFault::Serving(fault) => match fault {
            ServingFault::Spelling => spelling_words(alloc, path),
            ServingFault::Moved => changed_words(alloc, path),
            ServingFault::Locked(_) => locked_words(alloc, path),
            ServingFault::Output => unanswered_words(alloc, failure),
        },
    }
}

/// Words for a count that was refused, or where two rules are compared for one of both.
fn words_of_count(alloc: Global, asked: &Asked<'_>, fault: CountFault, notes: &Notes) -> Said {
    let (task, options) = (&asked.task, &notes.rule.options);
    let counted = task.journal().unwrap_or(task.texts().0);
    match notes.beside {
        Some(other) => { either_count_words(alloc, counted.path(), fault, options, &other.options) }
        None => count_words(alloc, counted.path(), fault, options),
    }
}

/// Words for the published page with this path, which was not read.
fn unread_page_words<R: System>(rt: &R, path: Option<&str>) -> Said {
    let Some(path) = path else {
        return unread_input_words(rt.alloc());
    };
    match fs::open(rt, path) {
        Ok(file) => {
            drop(file);
            unread_words(rt, rt.alloc(), path)
        }
        Err(_) => open_words(rt, rt.alloc(), path),
    }
}

/// The path of the published page; standard input has none.
fn published_path<'a>(task: &Task<'a>) -> Option<&'a str> {
    task.published().and_then(|page| page.path())
}

/// The path of a text; one without a path is standard input or standard output.
fn path_of<'a>(asked: &Asked<'a>, text: RunText) -> &'a str {
    let (first, second) = asked.task.paths();
    let path = match text {
        RunText::File => first,
        RunText::Script | RunText::Journal => second,
        RunText::Roll | RunText::Words => asked.task.third(),
        RunText::Page => published_path(&asked.task),
        RunText::Output => asked.output,
    };
    path.unwrap_or("-")
}

/// Words for the fault of a script. That a rule refuses a row was said when the row was read.
fn words_of_script<R: System>(rt: &R, task: &Task<'_>, fault: ScriptFault) -> Said {
    let alloc = rt.alloc();
    match fault {
        ScriptFault::UnknownId(_)
        | ScriptFault::NotOnRoll(_)
        | ScriptFault::TooFew(_)
        | ScriptFault::FromFile(_)
        | ScriptFault::NoShut(_) => said(alloc, "", &[]),
        _ => {
            let script = if is_serve(task) { None } else { task.paths().1 };
            script_words(rt, alloc, script, Some(fault), taking_of(task))
        }
    }
}

/// Words where the journal with this path belongs to another .pb file than the one with that path.
fn words_of_other_file<R: System>(rt: &R, file: Option<&str>, journal: &str) -> Said {
    let alloc = rt.alloc();
    let own = behind_link(rt, journal).unwrap_or(None);
    let journal = match &own {
        Some(own) => own.as_str(),
        None => journal,
    };
    let text = match read_file_beside(rt, alloc, journal) {
        Ok(Some(text)) => text,
        _ => Vec::new(alloc),
    };
    let words = other_file_words(alloc, file, journal, text.as_slice());
    drop(text);
    drop(own);
    words
}

fn is_serve(task: &Task<'_>) -> bool {
    matches!(task, Task::Serve(_))
}

/// How a run takes the rows of requests.
fn taking_of(task: &Task<'_>) -> Taking {
    let clerks = match task {
        Task::Desk(run) => run.clerks,
        Task::Serve(_) => MOST_CLERKS,
        _ => 1,
    };
    let by_id = task.admits().by_id;
    Taking { clerks, by_id }
}

/// Whether the raises were spent.
pub(crate) fn is_spent(end: End) -> bool {
    matches!(end, End::Fault(AppFault::Count(CountFault::RaisesSpent)))
}

/// Says what to do where the raises were spent, by a count that took so long. Whether more would decide is
/// looked for first, after it was said why there is no result. Where both of two rules raise shares, that said it.
pub(crate) fn say_spent<R: System>(
    rt: &R,
    asked: &Asked<'_>,
    notes: &Notes,
    took: Option<Duration>,
    progress: &ProgressLine<'_, R>,
) {
    let own = &notes.rule;
    let Some(other) = notes.beside else {
        return say_spent_by(rt, asked, own, took, progress);
    };
    match OfTwo::of(CountFault::RaisesSpent, &own.options, &other.options) {
        OfTwo::Own => say_spent_by(rt, asked, own, took, progress),
        OfTwo::Other => {
            let found = look_further(rt, &asked.task, &other, took, progress);
            progress.clear();
            say_words(rt, other_spent_words(rt.alloc(), found.deciding));
        }
        OfTwo::Either => {}
    }
}

/// Says what to do where the raises of the count by this rule were spent.
fn say_spent_by<R: System>(
    rt: &R,
    asked: &Asked<'_>,
    rule: &Rule,
    took: Option<Duration>,
    progress: &ProgressLine<'_, R>,
) {
    let found = look_further(rt, &asked.task, rule, took, progress);
    progress.clear();
    let words = spent_words(rt.alloc(), &rule.options, found.deciding, found.step);
    say_words(rt, words);
}
