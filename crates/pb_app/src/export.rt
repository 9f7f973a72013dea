//! The command `export`: the .pb file of a count, with what the file that was read has further.

use crate::command_run::CommandRun;
use crate::deciding::decide_of;
use crate::keeping_watch::KeepingWatch;
use crate::notes::Notes;
use crate::system::System;
use pb_command_line::Ballots;
use pb_commands::AppFault;
use pb_commands::run_decided_export::run_decided_export;
use pb_commands::run_export::run_export;
use pb_export::Carried;
use pb_words::export_words::ASKED_FOR;
use std::io::Write;

/// Counts these ballots, and writes their .pb file with what the count came to.
pub(crate) fn export<'a, R: System, W: Write>(
    run: &CommandRun<'a, R>,
    ballots: &Ballots<'a>,
    writer: &mut W,
    notes: &mut Notes,
) -> Result<(), AppFault> {
    let inputs = run.inputs(ballots)?;
    let mut watch = KeepingWatch {
        warnings: &mut notes.seen,
        keeper: Carried::new(run.counting.alloc, run.asked.keeps_voters),
    };
    let done = match decide_of(run.asked) {
        Some(decide) => run_decided_export(&run.counting, inputs, &mut watch, writer, &decide),
        None => run_export(&run.counting, inputs, &mut watch, writer),
    };
    let lacking = lacking_of(&watch.keeper);
    drop(watch);
    done?;
    notes.lacking = lacking;
    Ok(())
}

/// Which of the keys that Pabulib asks for are lacking.
fn lacking_of(carried: &Carried) -> [bool; 6] {
    let mut lacking = [false; 6];
    for place in 0..6usize {
        lacking[place] = !carried.has_key(ASKED_FOR[place]);
    }
    lacking
}
