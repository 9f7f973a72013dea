//! The command `audit`: what a journal says of a file.

ghost use Rattle.std.specs.Prelude.{◌≡◌, ◌≢◌, ◌++◌, ℕ, List, IfErr, IfOk, IfSome, OnOk, None, Some, false};
ghost use Rattle.std.specs.Prelude.{length, true};
ghost use Rattle.pb_desk.specs.Desk.{DeskView, closed_election, standing_of};
ghost use Rattle.pb_reasons.specs.CountedElection.{IsCountIn, IsCountedElection};
ghost use Rattle.pb_rounds.specs.Counted.{IsCountOf};
ghost use Rattle.pb_rounds.specs.declared.count_fault.CountFault.TheVariants as count;
ghost use Rattle.pb_rounds.specs.TieOrder.{by_file};
ghost use Rattle.pb_rounds.specs.declared.rule.FillUp.TheVariants.{Nothing};
ghost use Rattle.pb_script.specs.EntryCounts.{counts_of};
ghost use Rattle.pb_commands.specs.Audited.{AuditWrites, IsDeskOf, IsReport, IsTextOf};
ghost use Rattle.pb_commands.specs.Closed.{CountRefuses};
ghost use Rattle.pb_commands.specs.declared.demand.Demand.TheVariants.{Any, Shut};
ghost use Rattle.pb_commands.specs.Ends.{IfBothKnown, Runs};
ghost use Rattle.pb_commands.specs.Inner.Audited.{IsRefusedDesk};

use crate::counting::Counting;
use crate::demand::Demand;
use crate::inputs::audited_desk;
use crate::report::put_report;
use pb_closing::close_and_count::count_desk;
use pb_closing::{CloseFault, Closing, DeskCount};
use pb_core::gate::{Gate, NoGate};
use pb_core::no_memory::NoMemory;
use pb_desk::Desk;
use pb_faults::{AppFault, put_entries, write_out};
use pb_read::{Heed, NoWatch};
use pb_reasons::CountedElection;
use pb_rounds::count_fault::CountFault;
use pb_rounds::options::CountOptions;
use pb_rounds::rule::{FillUp, Rule};
use pb_rounds::tie_rule::TieRule;
use pb_rows::RowsWriter;
use pb_script::EntryCounts;
use std::alloc::Global;
use std::io::{Read, Write};
use std::thread::Threads;

/// What is read for an audit, and what is demanded of it.
#[derive(Drop)]
pub struct AuditInputs<P, J> {
    /// The .pb file.
    pub file: P,
    pub journal: J,
    /// What is demanded of the desk after the journal's last entry.
    pub demand: Demand,
}

/// Reads a .pb file and a journal, audits the journal, and writes how many entries it has and whether
/// its desk is shut. Where it is shut, the ballots that it leaves are counted with these options, and
/// their report follows.
///
/// The file is refused before the journal, and the journal before the options. Nothing is written but
/// the whole text. Where the fault is `Write` some of it may have gone out; on any other fault the writer
/// is as it was. No warning refuses the file.
pub fn run_audit<T: Threads + Sync, P: Read + Drop, J: Read + Drop, W: Write>(
    rt: &T,
    alloc: Global,
    file: P,
    journal: J,
    writer: &mut W,
    options: &CountOptions,
) -> Result<(), AppFault>
    ensures runs { Runs (AuditWrites Any (IsReport (record { options = options.now; fill_up = Nothing; ties = by_file })))
        (λ bytes rows. CountRefuses (record { options = options.now; fill_up = Nothing; ties = by_file }) bytes (Some rows)) (P.remaining file) (J.remaining journal)
        (None, None, None) W.contents writer.old writer.new result }

    // An open desk is not refused.
    ensures any { IfErr result (λ fault. fault ≢ AppFault.OpenDesk) }
{
    let rule = Rule {
        options: *options,
        fill_up: FillUp::Nothing,
        ties: TieRule::file(),
    };
    let counting = Counting {
        rt,
        alloc,
        gate: &NoGate,
        rule: &rule,
    };
    let inputs = AuditInputs {
        file,
        journal,
        demand: Demand::Any,
    };
    let mut counts = EntryCounts::new();
    run_audit_watched(&counting, inputs, &mut counts, &mut NoWatch, writer)
}

/// Audits as `run_audit` does, by this rule, and tells the gate of raises before they are tried. `counts` gets
/// the entries of the journal, once it is accepted. Where a shut desk is demanded an open one is refused, before
/// the options. Who looks on while the file is read may refuse it for a warning, before the journal is judged.
pub fn run_audit_watched<
    T: Threads + Sync,
    P: Read + Drop,
    J: Read + Drop,
    G: Gate,
    H: Heed,
    W: Write,
>(
    counting: &Counting<T, G>,
    inputs: AuditInputs<P, J>,
    counts: &mut EntryCounts,
    watch: &mut H,
    writer: &mut W,
) -> Result<(), AppFault>
    ensures runs { Runs (AuditWrites inputs.demand (IsReport counting.now.rule.now))
        (λ bytes rows. CountRefuses counting.now.rule.now bytes (Some rows))
        (P.remaining inputs.file) (J.remaining inputs.journal) (H.refused_for watch.new, H.shown watch.old, H.shown watch.new)
        W.contents writer.old writer.new result }

    // The counts are those of the desk that was audited.
    ensures counts { OnOk result (IfBothKnown (P.remaining inputs.file) (J.remaining inputs.journal)
        (λ bytes journal. (d : DeskView) × IsDeskOf bytes journal d × (counts.new.counts ≡ counts_of d.journal))) }

    // An open desk is refused only where a shut one is demanded.
    ensures demanded { IfErr result (λ fault. fault ≡ AppFault.OpenDesk → inputs.demand ≡ Shut) }
{
    let AuditInputs {
        file,
        journal,
        demand,
    } = inputs;
    let desk = audited_desk(counting.alloc, file, journal, watch)?;
    *counts = EntryCounts::of(&desk, 0);
    if is_refused(&desk, demand) {
        drop(desk);
        return Err(AppFault::OpenDesk);
    }
    let text = desk_text(counting, desk)?;
    write_out(writer, text.as_slice(), AppFault::Write)
}

/// Whether a desk is open, and a shut one is demanded.
pub(crate) fn is_refused(desk: &Desk, demand: Demand) -> bool
    ensures refused { result ≡ true → (demand ≡ Shut) × ((standing_of desk.now).is_shut ≡ false) }
    ensures passed { result ≡ false → demand ≡ Shut → (standing_of desk.now).is_shut ≡ true }
{
    match demand {
        Demand::Any => false,
        Demand::Shut => !desk.is_shut(),
    }
}

/// What is said of a desk.
fn desk_text<T: Threads + Sync, G: Gate>(
    counting: &Counting<T, G>,
    desk: Desk,
) -> Result<Vec<u8>, CountFault>
    ensures ok { IfOk result (λ text. IsTextOf (IsReport counting.now.rule.now) desk text.items) }
    ensures fault { IfErr result (IsRefusedDesk desk counting.now.rule.now) }
{
    let mut rows = RowsWriter::start(counting.alloc);
    match put_desk(counting, &mut rows, desk) {
        Ok(()) => finished(rows),
        Err(fault) => {
            drop(rows);
            Err(fault)
        }
    }
}

/// Writes what is said of a desk.
fn put_desk<T: Threads + Sync, G: Gate>(
    counting: &Counting<T, G>,
    rows: &mut RowsWriter,
    desk: Desk,
) -> Result<(), CountFault>
    ensures ok { OnOk result ((text : List ℕ)
        × IsTextOf (IsReport counting.now.rule.now) desk text × (rows.new.text ≡ rows.old.text ++ text)) }
    ensures fault { IfErr result (IsRefusedDesk desk counting.now.rule.now) }
{
    match put_entries(rows, &desk) {
        Ok(()) => {}
        Err(_) => {
            drop(desk);
            return Err(CountFault::NoMemory);
        }
    }
    let count = match desk_count(counting, desk) {
        Ok(Some(count)) => count,
        Ok(None) => return Ok(()),
        Err(fault) => return Err(fault),
    };
    let put = put_report(rows, &count);
    drop(count);
    match put {
        Ok(()) => Ok(()),
        Err(_) => Err(CountFault::NoMemory),
    }
}

/// The count of the ballots that a shut desk leaves; nothing where the desk is open.
fn desk_count<T: Threads + Sync, G: Gate>(
    counting: &Counting<T, G>,
    desk: Desk,
) -> Result<Option<CountedElection>, CountFault>
    ensures open { IfOk result (λ count. count ≡ None → (standing_of desk).is_shut ≡ false) }
    ensures shut { IfOk result (λ count. IfSome count (λ x. ((standing_of desk).is_shut ≡ true)
        × IsCountedElection x × IsCountIn counting.now.rule.now (closed_election desk) x)) }
    ensures fault { IfErr result (IsRefusedDesk desk counting.now.rule.now) }
{
    let (rt, alloc) = (counting.rt, counting.alloc);
    match count_desk(rt, alloc, desk, counting.rule, counting.gate) {
        Ok(Closing::Open(desk)) => {
            drop(desk);
            Ok(None)
        }
        Ok(Closing::Counted(count)) => match told_of(counting, count) {
            Ok(count) => Ok(Some(count)),
            Err(_) => Err(CountFault::NoMemory),
        },
        Err(CloseFault::NotCounted(fault, order, election)) => {
            drop(order);
            drop(election);
            Err(fault)
        }
        Err(CloseFault::NotSorted(election)) => {
            drop(election);
            Err(CountFault::NoMemory)
        }
        Err(CloseFault::NoMemory(desk)) => {
            drop(desk);
            Err(CountFault::NoMemory)
        }
        // No clerk is out.
        Err(CloseFault::Unfinished(_)) => unreachable!(),
    }
}

/// The count of a desk, with what is told of it.
fn told_of<T, G>(counting: &Counting<T, G>, count: DeskCount) -> Result<CountedElection, NoMemory>
    requires outcome { IsCountOf count.election counting.now.rule.now.options count.outcome }
    requires one_each { length count.order ≡ length count.election.projects }
    ensures { IfOk result (λ x. IsCountedElection x × (x.election ≡ count.election) × (x.order ≡ count.order)
        × (x.rule ≡ counting.now.rule.now)) }
{
    let DeskCount {
        election,
        order,
        outcome,
        ..
    } = count;
    let count = CountedElection::of(counting.alloc, election, order, *counting.rule, outcome)?;
    // What is true of every count is so of this one.
    let _election = count.election();
    Ok(count)
}

/// The text of these rows.
fn finished(rows: RowsWriter) -> Result<Vec<u8>, CountFault>
    ensures text { IfOk result (λ text. text.items ≡ rows.text) }
    ensures fault { IfErr result (λ fault. fault ≡ count.NoMemory) }
{
    match rows.finish() {
        Ok(text) => Ok(text),
        Err(_) => Err(CountFault::NoMemory),
    }
}
