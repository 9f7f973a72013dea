//! The run that writes the report or a table by the rule that applies after the comparison step.

ghost use Rattle.std.specs.Prelude.{◌≡◌, ◌++◌, IfOk};
ghost use Rattle.pb_commands.specs.Beside.{BesideRefuses};
ghost use Rattle.pb_commands.specs.Closed.{Gives};
ghost use Rattle.pb_commands.specs.Decided.{IsDecided, below};
ghost use Rattle.pb_commands.specs.Ends.{Runs, known};
ghost use Rattle.pb_commands.specs.Tables.{table_of};

use crate::counting::Counting;
use crate::decide::{Decide, DecidedCount, decided_inputs, decided_row};
use crate::inputs::Inputs;
use crate::run_table::table_text;
use crate::table::Table;
use pb_core::gate::Gate;
use pb_core::no_memory::NoMemory;
use pb_faults::{AppFault, write_out};
use pb_read::Heed;
use std::alloc::Global;
use std::io::{Read, Write};
use std::thread::Threads;

/// Reads an election, counts it by the rule and by the other one, and writes the report or this table by the one
/// that applies; the last row of the report says which one does.
///
/// The file is refused before the journal, the journal before an open desk, and that before the options of both
/// rules. Nothing is written but the whole text. Where the fault is `Write` some of it may have gone out; on any
/// other fault the writer is as it was. Who looks on while the file is read may refuse it for a warning, before the
/// journal is judged.
pub fn run_decided<T: Threads + Sync, P: Read + Drop, J: Read + Drop, G: Gate, H: Heed, W: Write>(
    counting: &Counting<T, G>,
    inputs: Inputs<P, J>,
    watch: &mut H,
    writer: &mut W,
    asked: &DecidedTable,
) -> Result<(), AppFault>
    ensures { Runs (Gives (IsDecided asked.now.table asked.now.decide counting.now.rule.now))
        (BesideRefuses counting.now.rule.now asked.now.decide.other) (P.remaining inputs.file)
        (known J.remaining inputs.journal)
        (H.refused_for watch.new, H.shown watch.old, H.shown watch.new) W.contents writer.old writer.new result }
{
    let decided = match decided_inputs(counting, inputs, watch, &asked.decide) {
        Ok(decided) => decided,
        Err(fault) => return Err(fault),
    };
    let made = decided_table(counting.alloc, &decided, asked.table);
    drop(decided);
    let text = made?;
    write_out(writer, text.as_slice(), AppFault::Write)
}

/// What is written, and how it is decided which rule applies.
#[derive(Clone, Copy)]
pub struct DecidedTable {
    pub table: Table,
    pub decide: Decide,
}

/// This table of the count by the rule that applies, and below a report the row that says which one does.
pub(crate) fn decided_table(
    alloc: Global,
    decided: &DecidedCount,
    table: Table,
) -> Result<Vec<u8>, NoMemory>
    ensures { IfOk result (λ text. text.items ≡ table_of table decided.now.count
        ++ below table (decided.now.count.rule, decided.now.own, decided.now.other)) }
{
    let mut text = table_text(alloc, &decided.count, table)?;
    let row = row_below(alloc, decided, table)?;
    text.extend_from_slice(row.as_slice())?;
    Ok(text)
}

/// The row that says which rule applies, where it is written below a report; nothing below a table.
fn row_below(alloc: Global, decided: &DecidedCount, table: Table) -> Result<Vec<u8>, NoMemory>
    ensures { IfOk result (λ row. row.items
        ≡ below table (decided.now.count.rule, decided.now.own, decided.now.other)) }
{
    match table {
        Table::Report => decided_row(alloc, decided),
        Table::Projects | Table::Voters | Table::Fairness => Ok(Vec::new(alloc)),
    }
}
