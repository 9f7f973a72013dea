//! The command `count`: a file's report.

ghost use Rattle.std.specs.Prelude.{None, Some};
ghost use Rattle.pb_rounds.specs.TieOrder.{by_file};
ghost use Rattle.pb_rounds.specs.declared.rule.FillUp.TheVariants.{Nothing};
ghost use Rattle.pb_commands.specs.Closed.{CountRefuses, Gives};
ghost use Rattle.pb_commands.specs.Ends.{Runs};
ghost use Rattle.pb_commands.specs.Tables.{IsTableOf};
ghost use Rattle.pb_commands.specs.declared.table.Table.TheVariants.{Report};

use crate::counting::Counting;
use crate::inputs::Inputs;
use crate::run_table::run_table;
use crate::table::Table;
use pb_core::gate::NoGate;
use pb_faults::AppFault;
use pb_read::NoWatch;
use pb_rounds::options::CountOptions;
use pb_rounds::rule::{FillUp, Rule};
use pb_rounds::tie_rule::TieRule;
use std::alloc::Global;
use std::io::{Read, Write};
use std::thread::Threads;

/// Reads a .pb file, counts it with these options, and writes the report.
///
/// The file is refused before the options are looked at, and nothing is written but the whole report.
/// Where the fault is `Write` some of the report may have gone out; on any other fault the writer is as it
/// was. No warning refuses the file.
pub fn run_count<T: Threads + Sync, R: Read + Drop, W: Write>(
    rt: &T,
    alloc: Global,
    reader: R,
    writer: &mut W,
    options: &CountOptions,
) -> Result<(), AppFault>
    ensures { Runs (Gives (IsTableOf Report (record { options = options.now; fill_up = Nothing; ties = by_file })))
        (CountRefuses (record { options = options.now; fill_up = Nothing; ties = by_file }))
        (R.remaining reader) (Some None) (None, None, None) W.contents writer.old writer.new result }
{
    let rule = Rule {
        options: *options,
        fill_up: FillUp::Nothing,
        ties: TieRule::file(),
    };
    let counting = Counting {
        rt,
        alloc,
        gate: &NoGate,
        rule: &rule,
    };
    let inputs = Inputs {
        file: reader,
        journal: None::<R>,
    };
    run_table(&counting, inputs, &mut NoWatch, writer, Table::Report)
}
