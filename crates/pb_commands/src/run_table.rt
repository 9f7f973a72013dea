//! Runs that write the report of a count, or a table: who won and why, who lost and by how much, who paid, and
//! how fair that is.

ghost use Rattle.std.specs.Prelude.{◌≡◌, ◌++◌, IfOk, OnOk};
ghost use Rattle.pb_commands.specs.Closed.{CountRefuses, Gives};
ghost use Rattle.pb_commands.specs.Ends.{Runs, known};
ghost use Rattle.pb_commands.specs.Tables.{IsTableOf, table_of};

use crate::counting::{Counting, count_inputs};
use crate::fairness_table::put_fairness;
use crate::inputs::Inputs;
use crate::projects_table::put_projects;
use crate::report::{put_report, whole};
use crate::table::Table;
use crate::voters_table::put_voters;
use pb_core::gate::Gate;
use pb_core::no_memory::NoMemory;
use pb_faults::{AppFault, write_out};
use pb_read::Heed;
use pb_reasons::CountedElection;
use pb_rows::RowsWriter;
use std::alloc::Global;
use std::io::{Read, Write};
use std::thread::Threads;

/// Reads an election, counts it by the rule, and writes the report or this table of the count.
///
/// The file is refused before the journal, the journal before an open desk, and that before the options.
/// Nothing is written but the whole table. Where the fault is `Write` some of the table may have gone out; on
/// any other fault the writer is as it was. Who looks on while the file is read may refuse it for a warning,
/// before the journal is judged.
pub fn run_table<T: Threads + Sync, P: Read + Drop, J: Read + Drop, G: Gate, H: Heed, W: Write>(
    counting: &Counting<T, G>,
    inputs: Inputs<P, J>,
    watch: &mut H,
    writer: &mut W,
    table: Table,
) -> Result<(), AppFault>
    ensures { Runs (Gives (IsTableOf table counting.now.rule.now))
        (CountRefuses counting.now.rule.now) (P.remaining inputs.file)
        (known J.remaining inputs.journal)
        (H.refused_for watch.new, H.shown watch.old, H.shown watch.new) W.contents writer.old writer.new result }
{
    let count = match count_inputs(counting, inputs, watch) {
        Ok(count) => count,
        Err(fault) => return Err(fault),
    };
    let made = table_text(counting.alloc, &count, table);
    drop(count);
    let text = made?;
    write_out(writer, text.as_slice(), AppFault::Write)
}

/// This table of a count.
pub(crate) fn table_text(
    alloc: Global,
    count: &CountedElection,
    table: Table,
) -> Result<Vec<u8>, NoMemory>
    ensures { IfOk result (λ text. text.items ≡ table_of table count.now) }
{
    let mut rows = RowsWriter::start(alloc);
    match put_outcome(&mut rows, alloc, count, table) {
        Ok(()) => whole(rows),
        Err(refused) => {
            drop(rows);
            Err(refused)
        }
    }
}

/// Puts this table of what a count comes to after the rows that stand there.
fn put_outcome(
    rows: &mut RowsWriter,
    alloc: Global,
    count: &CountedElection,
    table: Table,
) -> Result<(), NoMemory>
    ensures { OnOk result (rows.new.text ≡ rows.old.text ++ table_of table count.now) }
{
    match table {
        Table::Report => put_report(rows, count),
        Table::Projects => put_projects(rows, count),
        Table::Voters => put_voters(rows, alloc, count),
        Table::Fairness => put_fairness(rows, alloc, count),
    }
}
