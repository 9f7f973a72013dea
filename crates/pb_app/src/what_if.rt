//! The command `whatif`: what would have made a project win.

use crate::command_run::CommandRun;
use crate::system::System;
use pb_command_line::{OneChange, WhatIfRun, Whose};
use pb_commands::{
    AppFault, Changes, WhatIfFault, election_of, losers_text, what_if_text, write_out,
};
use pb_reasons::Change;
use pb_streams::{End, RunRefusal};
use pb_warnings::warnings::Warnings;
use pb_words::Said;
use pb_words::what_if_words::{no_cost_words, no_project_words, too_many_voters_words};
use std::alloc::Global;
use std::io::Write;

/// Counts changed elections of these ballots, and writes the rows of what their counts say. What refuses the
/// file and the journal, and when, is as for the tables.
pub(crate) fn what_if<'a, R: System, W: Write>(
    run: &CommandRun<'a, R>,
    asked: &WhatIfRun<'a>,
    writer: &mut W,
    seen: &mut Warnings,
) -> Result<(), RunRefusal> {
    let alloc = run.counting.alloc;
    let election = election_of(alloc, run.inputs(&asked.ballots)?, seen)?;
    let text = match asked.whose {
        Whose::Losers(first) => {
            match losers_text(&run.counting, election, first as usize) {
                Ok(text) => text,
                Err(fault) => return Err(RunRefusal::from(AppFault::from(fault))),
            }
        }
        Whose::Project(project, _) => {
            let id = project.unwrap_or("");
            match what_if_text(&run.counting, election, id, changes_of(asked)) {
                Ok(text) => text,
                Err(fault) => return Err(refusal(alloc, asked, id, fault)),
            }
        }
    };
    Ok(write_out(writer, text.as_slice(), AppFault::Write)?)
}

/// The changes that are asked about.
fn changes_of(asked: &WhatIfRun<'_>) -> Changes {
    match asked.whose {
        Whose::Project(_, Some(OneChange::Cost(cost))) => Changes::One(Change::Cost, cost.0),
        Whose::Project(_, Some(OneChange::Voters(further))) => {
            Changes::One(Change::Voters, u64::from(further))
        }
        _ => Changes::Searched,
    }
}

/// What refuses the rows about the project with this id.
fn refusal(alloc: Global, asked: &WhatIfRun<'_>, id: &str, fault: WhatIfFault) -> RunRefusal {
    match fault {
        WhatIfFault::Count(fault) => RunRefusal::from(AppFault::from(fault)),
        WhatIfFault::NoProject => {
            let words = no_project_words(alloc, id, asked.ballots.file.path());
            RunRefusal::Told(End::Arguments, words)
        }
        WhatIfFault::OutOfRange(most) => {
            RunRefusal::Told(End::Arguments, range_words(alloc, asked, most))
        }
    }
}

/// Words for a change that is out of its range, whose largest value is this.
fn range_words(alloc: Global, asked: &WhatIfRun<'_>, most: u64) -> Said {
    match asked.whose {
        Whose::Project(_, Some(OneChange::Voters(_))) => too_many_voters_words(alloc, most),
        _ => no_cost_words(alloc),
    }
}
