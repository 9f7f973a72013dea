//! The run that writes the file of a counted election.

ghost use Rattle.std.specs.Prelude.{◌≡◌, List, IfErr, None, ℕ};
ghost use Rattle.pb_export.specs.declared.further.Further.{Further};
ghost use Rattle.pb_commands.specs.Closed.{CountRefuses, Gives};
ghost use Rattle.pb_commands.specs.Ends.{IfBothKnown, Runs, known};
ghost use Rattle.pb_faults.specs.Fault.{told};
ghost use Rattle.pb_commands.specs.Exported.{ExportRefuses, IsExportOf};
ghost use Rattle.pb_reasons.specs.CountedElection.{IsCountIn};
ghost use Rattle.pb_rounds.specs.RuleNames.{rule_text};

use crate::counting::{Counting, count_inputs};
use crate::export_text::export_text;
use crate::inputs::Inputs;
use pb_core::gate::Gate;
use pb_export::Carry;
use pb_faults::{AppFault, write_out};
use pb_read::Heed;
use std::io::{Read, Write};
use std::thread::Threads;

/// Reads an election, counts it by the rule, and writes the file of the election with what the count came to:
/// it is read back as the same election. It also has the comment, further keys and further columns that
/// `watch` keeps of the file that is read.
///
/// The file is refused before the journal, the journal before an open desk, that before the options, and then
/// an election that no file would be read back as. Nothing is written but the whole file. Where the fault is
/// `Write` some of the file may have gone out; on any other fault the writer is as it was. Who looks on while
/// the file is read may refuse it for a warning, before the journal is judged.
pub fn run_export<
    T: Threads + Sync,
    P: Read + Drop,
    J: Read + Drop,
    G: Gate,
    H: Heed + Carry,
    W: Write,
>(
    counting: &Counting<T, G>,
    inputs: Inputs<P, J>,
    watch: &mut H,
    writer: &mut W,
) -> Result<(), AppFault>
    ensures runs { Runs (Gives (IsExportOf counting.now.rule.now (rule_text counting.now.rule.now) (H.keeps watch.new)))
        (ExportRefuses (IsCountIn counting.now.rule.now) (CountRefuses counting.now.rule.now)) (P.remaining inputs.file)
        (known J.remaining inputs.journal)
        (H.refused_for watch.new, H.shown watch.old, H.shown watch.new) W.contents writer.old writer.new result }

    // What can be exported with whatever further keys and columns is, unless a fault comes from outside, or a
    // warning.
    ensures accepts { H.refused_for watch.new ≡ None → IfErr result (λ fault.
        IfBothKnown (P.remaining inputs.file) (known J.remaining inputs.journal) (λ bytes journal.
        (kept : Further) (text : List ℕ)
        → Gives (IsExportOf counting.now.rule.now (rule_text counting.now.rule.now) kept) bytes journal text
        → (told fault).0 ≡ 3)) }
{
    let count = match count_inputs(counting, inputs, watch) {
        Ok(count) => count,
        Err(fault) => return Err(fault),
    };
    match export_text(counting.alloc, count, watch.carried(), "") {
        Ok(text) => write_out(writer, text.as_slice(), AppFault::Write),
        Err(fault) => Err(fault),
    }
}
