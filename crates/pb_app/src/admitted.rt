//! Which requests the desk admits, and what is said of those that it does not.

use crate::command_run::CommandRun;
use crate::system::System;
use pb_command_line::{Admits, Task};
use pb_commands::AppFault;
use pb_commands::run_desk::Rules;
use pb_core::answer::Answer;
use pb_faults::RunText;
use pb_script::{Admission, Notice, RowRefusal, read_roll};
use pb_streams::{Typing, open_file};
use pb_words::refused_words::{RefusedRow, refused_words};
use pb_words::say_words;

/// Says on standard error why a row is refused.
#[derive(Drop)]
pub(crate) struct RowNotice<'a, R> {
    rt: &'a R,
    /// The path of the script with the rows; none is standard input.
    path: Option<&'a str>,
    admits: Admits<'a>,
    /// Whether a row that is refused refuses the script.
    refuses_script: bool,
    /// Who is told of rows that are not of the form, and of answers.
    typing: &'a Typing,
}

impl<'a, R: System> RowNotice<'a, R> {
    /// Of the rows that this run takes.
    pub(crate) fn new(run: &CommandRun<'a, R>) -> RowNotice<'a, R> {
        let (path, refuses_script) = match &run.asked.task {
            Task::Desk(asked) => (asked.script.path(), true),
            _ => (None, false),
        };
        RowNotice {
            rt: run.counting.rt,
            path,
            admits: run.asked.task.admits(),
            refuses_script,
            typing: run.typing,
        }
    }
}

impl<R: System> Notice for RowNotice<'_, R> {
    fn refused(&self, row: u64, why: RowRefusal, unknown: &str) {
        self.typing.hear_refused(row);
        if why == RowRefusal::Bad {
            return self.typing.hear_bad_row(row);
        }
        let refused = RefusedRow {
            row,
            why,
            unknown,
            path: self.path,
            roll: self.admits.roll,
            least: self.admits.least,
            refuses_script: self.refuses_script,
        };
        say_words(self.rt, refused_words(self.rt, self.rt.alloc(), &refused));
    }

    fn answered(&self, answer: Answer) {
        self.typing.hear_answer(self.rt, answer);
    }
}

/// The rules that the command line gives; a voters' roll is read.
pub(crate) fn rules_of<R: System>(rt: &R, admits: &Admits<'_>) -> Result<Rules, AppFault> {
    let roll = match admits.roll {
        Some(path) => Some(read_roll(rt.alloc(), open_file(rt, path, RunText::Roll)?)?),
        None => None,
    };
    Ok(Rules {
        by_id: admits.by_id,
        keeps_file: admits.keeps_file,
        admission: Admission {
            ids: None,
            roll,
            least: admits.least,
            kept: None,
            may_shut: admits.may_shut,
        },
    })
}
