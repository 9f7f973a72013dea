//! The run that writes the table of all ties of a count.

ghost use Rattle.pb_commands.specs.AllTies.{IsTiesOf, TiesRefuse};
ghost use Rattle.pb_commands.specs.Closed.{Gives};
ghost use Rattle.pb_commands.specs.Ends.{Runs, known};

use crate::counting::{Counting, count_inputs};
use crate::inputs::Inputs;
use crate::ties_table::ties_text;
use pb_core::gate::Gate;
use pb_faults::{AppFault, write_out};
use pb_read::Heed;
use std::io::{Read, Write};
use std::thread::Threads;

/// Reads an election, counts it by the rule, and writes the table of all pairs of equal projects that only the rule
/// for ties separated, in each run on which the count rests.
///
/// The file is refused before the journal, the journal before an open desk, that before the options, and then a
/// count that rests on more than a thousand runs. Nothing is written but the whole table. Where the fault is
/// `Write` some of the table may have gone out; on any other fault the writer is as it was. Who looks on while the
/// file is read may refuse it for a warning, before the journal is judged.
pub fn run_ties<T: Threads + Sync, P: Read + Drop, J: Read + Drop, G: Gate, H: Heed, W: Write>(
    counting: &Counting<T, G>,
    inputs: Inputs<P, J>,
    watch: &mut H,
    writer: &mut W,
) -> Result<(), AppFault>
    ensures { Runs (Gives (IsTiesOf counting.now.rule.now))
        (TiesRefuse counting.now.rule.now) (P.remaining inputs.file)
        (known J.remaining inputs.journal)
        (H.refused_for watch.new, H.shown watch.old, H.shown watch.new) W.contents writer.old writer.new result }
{
    let count = match count_inputs(counting, inputs, watch) {
        Ok(count) => count,
        Err(fault) => return Err(fault),
    };
    match ties_text(counting, count) {
        Ok(text) => write_out(writer, text.as_slice(), AppFault::Write),
        Err(fault) => Err(fault),
    }
}
