//! The run that writes the file of an election by the rule that applies after the comparison step.

ghost use Rattle.std.specs.Prelude.{◌≡◌, ◌++◌, List, IfErr, IfOk, None, Some, codes, ℕ};
ghost use Rattle.std.specs.List.{join_with_byte};
ghost use Rattle.pb_core.specs.Election.{ElectionView, IsElection};
ghost use Rattle.pb_export.specs.declared.further.Further.{Further};
ghost use Rattle.pb_commands.specs.Beside.{BesideRefuses};
ghost use Rattle.pb_commands.specs.Closed.{Gives};
ghost use Rattle.pb_commands.specs.Decided.{Applies, IsDecidedExport, names_of};
ghost use Rattle.pb_commands.specs.Ends.{IfBothKnown, Runs, known};
ghost use Rattle.pb_commands.specs.Exported.{ExportRefuses, IsExportOf};
ghost use Rattle.pb_commands.specs.Inner.Exporting.{IsStopped};
ghost use Rattle.pb_faults.specs.Fault.{merged, told};
ghost use Rattle.pb_rounds.specs.RuleNames.{rule_text};
ghost use Rattle.pb_rounds.specs.TieOrder.{IsSortedFor};

use crate::counting::Counting;
use crate::decide::{Decide, DecidedCount, decided_inputs};
use crate::decided_name::decided_words;
use crate::export_text::export_text;
use crate::inputs::Inputs;
use pb_core::gate::Gate;
use pb_export::{Carried, Carry};
use pb_faults::{AppFault, write_out};
use pb_read::Heed;
use pb_rounds::rule::Rule;
use std::alloc::Global;
use std::io::{Read, Write};
use std::thread::Threads;

/// Reads an election, counts it by the rule and by the other one, and writes the file of the election as `run_export`
/// does, by the one that applies. Its comment also says that this was decided.
///
/// What refuses it, and when, is as for `run_export`, with the options of both rules. Nothing is written but the whole
/// file. Where the fault is `Write` some of the file may have gone out; on any other fault the writer is as it was.
pub fn run_decided_export<
    T: Threads + Sync,
    P: Read + Drop,
    J: Read + Drop,
    G: Gate,
    H: Heed + Carry,
    W: Write,
>(
    counting: &Counting<T, G>,
    inputs: Inputs<P, J>,
    watch: &mut H,
    writer: &mut W,
    decide: &Decide,
) -> Result<(), AppFault>
    ensures runs { Runs (Gives (IsDecidedExport decide.now counting.now.rule.now (H.keeps watch.new)))
        (ExportRefuses (Applies decide.now counting.now.rule.now) (BesideRefuses counting.now.rule.now decide.now.other))
        (P.remaining inputs.file)
        (known J.remaining inputs.journal)
        (H.refused_for watch.new, H.shown watch.old, H.shown watch.new) W.contents writer.old writer.new result }

    // What can be exported with whatever further keys and columns is, unless a fault comes from outside, or a
    // warning.
    ensures accepts { H.refused_for watch.new ≡ None → IfErr result (λ fault.
        IfBothKnown (P.remaining inputs.file) (known J.remaining inputs.journal) (λ bytes journal.
        (kept : Further) (text : List ℕ)
        → Gives (IsDecidedExport decide.now counting.now.rule.now kept) bytes journal text
        → (told fault).0 ≡ 3)) }
{
    let decided = match decided_inputs(counting, inputs, watch, decide) {
        Ok(decided) => decided,
        Err(fault) => return Err(fault),
    };
    match text_of(
        counting.alloc,
        decided,
        watch.carried(),
        counting.rule,
        decide,
    ) {
        Ok(text) => write_out(writer, text.as_slice(), AppFault::Write),
        Err(fault) => Err(fault),
    }
}

/// The file of the election that was counted by the rule that applies.
fn text_of(
    alloc: Global,
    decided: DecidedCount,
    carried: &Carried,
    rule: &Rule,
    decide: &Decide,
) -> Result<Vec<u8>, AppFault>
    ensures ok { (e : ElectionView) → IsElection e
        → IsSortedFor decided.count.rule.ties e decided.count.order decided.count.election
        → IfOk result (λ text. IsExportOf decided.count.rule (rule_text decided.count.rule
        ++ (codes ". Decided by " ++ join_with_byte 32 (names_of rule.now (Some decide.now))))
        carried.now.further e text.items) }
    ensures fault { (e : ElectionView) → IsElection e
        → IsSortedFor decided.count.rule.ties e decided.count.order decided.count.election
        → IfErr result (IsStopped e) }
    ensures merged { IfErr result (λ fault. merged fault ≡ fault) }
{
    let words = decided_words(alloc, rule, decide)?;
    export_text(alloc, decided.count, carried, words.as_str())
}
