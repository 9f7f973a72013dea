//! The published page that a run compares with the one that it makes.

use crate::marks::Marks;
use crate::system::System;
use pb_command_line::{Asked, Decider, Task};
use pb_commands::AppFault;
use pb_faults::RunText;
use pb_rounds::rule::Rule;
use pb_streams::read_text;

/// The published page that a run compares with the one that it makes, if it compares one.
#[derive(Drop)]
pub(crate) struct Published {
    pub(crate) text: Option<Vec<u8>>,
    /// What it marks.
    pub(crate) marks: Option<Marks>,
}

impl Published {
    /// Reads the page that is asked about, if one is.
    pub(crate) fn of<R: System>(rt: &R, asked: &Asked<'_>) -> Result<Published, AppFault> {
        let Some(source) = asked.task.published() else {
            return Ok(Published {
                text: None,
                marks: None,
            });
        };
        let text = read_text(rt, &source, RunText::Page)?;
        match Marks::of(rt.alloc(), text.as_slice()) {
            Ok(marks) => Ok(Published {
                text: Some(text),
                marks: Some(marks),
            }),
            Err(_) => {
                drop(text);
                Err(AppFault::Memory)
            }
        }
    }

    /// The rule that is asked for, and where a page is compared, what is not given as the page marks it.
    pub(crate) fn rule<'a>(&'a self, asked: &'a Asked<'a>) -> Rule {
        match (&asked.task, &self.marks) {
            (Task::Page(run), Some(marks)) => {
                let filled = marks.filled(run);
                filled.given.rule(asked.rule.options.workers)
            }
            _ => asked.rule,
        }
    }

    /// In the same way the other rule by which the ballots are counted too, or which may apply, if any.
    pub(crate) fn beside<'a>(&'a self, asked: &'a Asked<'a>) -> Option<Rule> {
        match (&asked.task, &self.marks) {
            (Task::Page(run), Some(marks)) => {
                let filled = marks.filled(run);
                other_of(filled.decides(asked.rule.options.workers))
            }
            _ => asked.beside(),
        }
    }
}

/// The other rule, if it may apply.
fn other_of(decides: Option<(Decider, Rule)>) -> Option<Rule> {
    let (_, other) = decides?;
    Some(other)
}
