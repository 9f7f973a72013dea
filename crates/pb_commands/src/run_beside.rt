//! The run that compares two rules: it counts an election by both.

ghost use Rattle.std.specs.Prelude.{◌≡◌, IfErr, IfOk};
ghost use Rattle.pb_commands.specs.Beside.{BesideRefuses, IsBeside};
ghost use Rattle.pb_commands.specs.Closed.{Gives};
ghost use Rattle.pb_commands.specs.Ends.{Runs, known};
ghost use Rattle.pb_commands.specs.Inner.Beside.{IsRefusedBeside};

use crate::beside_table::{Sides, text_of_sides};
use crate::counting::{Counting, not_counted};
use crate::inputs::{Inputs, election_of};
use crate::won_by_both::won_by_both;
use pb_core::election::Election;
use pb_core::gate::Gate;
use pb_faults::{AppFault, write_out};
use pb_read::Heed;
use pb_rounds::count_fault::CountFault;
use pb_rounds::rule::Rule;
use std::io::{Read, Write};
use std::thread::Threads;

/// With which rule another is compared, and how it is told.
#[derive(Clone, Copy)]
pub struct OtherRule {
    pub rule: Rule,
    /// A row for each project, in place of one for each rule.
    pub by_project: bool,
}

/// Reads an election, counts it by the rule and by the one beside it, and writes how both compare.
///
/// The file is refused before the journal, the journal before an open desk, and that before the options of both
/// rules. Nothing is written but the whole table. Where the fault is `Write` some of the table may have gone out;
/// on any other fault the writer is as it was. Who looks on while the file is read may refuse it for a warning,
/// before the journal is judged.
pub fn run_beside<T: Threads + Sync, P: Read + Drop, J: Read + Drop, G: Gate, H: Heed, W: Write>(
    counting: &Counting<T, G>,
    inputs: Inputs<P, J>,
    watch: &mut H,
    writer: &mut W,
    beside: &OtherRule,
) -> Result<(), AppFault>
    ensures { Runs (Gives (IsBeside beside.now.by_project counting.now.rule.now beside.now.rule))
        (BesideRefuses counting.now.rule.now beside.now.rule) (P.remaining inputs.file)
        (known J.remaining inputs.journal)
        (H.refused_for watch.new, H.shown watch.old, H.shown watch.new) W.contents writer.old writer.new result }
{
    let election = match election_of(counting.alloc, inputs, watch) {
        Ok(election) => election,
        Err(fault) => return Err(fault),
    };
    match text_beside(counting, election, beside) {
        Ok(text) => write_out(writer, text.as_slice(), AppFault::Write),
        Err(fault) => Err(not_counted(fault)),
    }
}

/// How both rules compare on this election, as text.
fn text_beside<T: Threads + Sync, G: Gate>(
    counting: &Counting<T, G>,
    election: Election,
    beside: &OtherRule,
) -> Result<Vec<u8>, CountFault>
    ensures ok { IfOk result (λ text.
        IsBeside beside.now.by_project counting.now.rule.now beside.now.rule election text.items) }
    ensures fault { IfErr result (IsRefusedBeside counting.now.rule.now beside.now.rule election) }
{
    let won = match won_by_both(counting, election, &beside.rule) {
        Ok(won) => won,
        Err(fault) => return Err(fault),
    };
    let sides = Sides {
        rule: counting.rule,
        winners: won.winners.as_slice(),
        other: &beside.rule,
        others: won.others.as_slice(),
    };
    Ok(text_of_sides(counting.alloc, &won.election, &sides, beside.by_project)?)
}
