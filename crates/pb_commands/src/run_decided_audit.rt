//! The command `audit` with the comparison step: what a journal says of a file, by the rule that applies.

ghost use Rattle.std.specs.Prelude.{◌≡◌, ◌++◌, IfErr, IfOk, OnOk, Some};
ghost use Rattle.pb_desk.specs.Desk.{DeskView};
ghost use Rattle.pb_script.specs.EntryCounts.{counts_of};
ghost use Rattle.pb_commands.specs.Audited.{AuditWrites, IsDeskOf, IsTextOf};
ghost use Rattle.pb_commands.specs.Beside.{BesideRefuses};
ghost use Rattle.pb_commands.specs.Decided.{IsDecided, below};
ghost use Rattle.pb_commands.specs.declared.demand.Demand.TheVariants.{Shut};
ghost use Rattle.pb_commands.specs.Ends.{IfBothKnown, Runs};
ghost use Rattle.pb_commands.specs.Inner.Audited.{IsRefusedDeskBeside};
ghost use Rattle.pb_commands.specs.Tables.{table_of};
ghost use Rattle.pb_commands.specs.declared.table.Table.TheVariants.{Report};
ghost use Rattle.pb_faults.specs.DeskRow.{entries_row};
ghost use Rattle.pb_rows.specs.Writing.{text_of_row};

use crate::counting::Counting;
use crate::decide::{Decide, DecidedCount, decided};
use crate::inputs::{audited_desk, left_by};
use crate::report::whole;
use crate::run_audit::{AuditInputs, is_refused};
use crate::run_decided::decided_table;
use crate::table::Table;
use pb_core::gate::Gate;
use pb_core::no_memory::NoMemory;
use pb_desk::Desk;
use pb_faults::{AppFault, put_entries, write_out};
use pb_read::Heed;
use pb_rounds::count_fault::CountFault;
use pb_rows::RowsWriter;
use pb_script::EntryCounts;
use std::alloc::Global;
use std::io::{Read, Write};
use std::thread::Threads;

/// What is read for an audit, and how it is decided which rule applies.
#[derive(Drop)]
pub struct DecidedAudit<P, J> {
    pub inputs: AuditInputs<P, J>,
    pub decide: Decide,
}

/// Audits as `run_audit_watched` does. Where the desk is shut, the ballots that it leaves are counted by the rule and
/// by the other one, and the report is by the one that applies; its last row says which one does.
pub fn run_decided_audit<
    T: Threads + Sync,
    P: Read + Drop,
    J: Read + Drop,
    G: Gate,
    H: Heed,
    W: Write,
>(
    counting: &Counting<T, G>,
    audit: DecidedAudit<P, J>,
    counts: &mut EntryCounts,
    watch: &mut H,
    writer: &mut W,
) -> Result<(), AppFault>
    ensures runs { Runs (AuditWrites audit.inputs.demand (IsDecided Report audit.decide counting.now.rule.now))
        (λ bytes rows. BesideRefuses counting.now.rule.now audit.decide.other bytes (Some rows))
        (P.remaining audit.inputs.file) (J.remaining audit.inputs.journal) (H.refused_for watch.new, H.shown watch.old, H.shown watch.new)
        W.contents writer.old writer.new result }

    // The counts are those of the desk that was audited.
    ensures counts { OnOk result (IfBothKnown (P.remaining audit.inputs.file) (J.remaining audit.inputs.journal)
        (λ bytes journal. (d : DeskView) × IsDeskOf bytes journal d × (counts.new.counts ≡ counts_of d.journal))) }

    // An open desk is refused only where a shut one is demanded.
    ensures demanded { IfErr result (λ fault. fault ≡ AppFault.OpenDesk → audit.inputs.demand ≡ Shut) }
{
    let DecidedAudit { inputs, decide } = audit;
    let AuditInputs {
        file,
        journal,
        demand,
    } = inputs;
    let desk = audited_desk(counting.alloc, file, journal, watch)?;
    *counts = EntryCounts::of(&desk, 0);
    if is_refused(&desk, demand) {
        drop(desk);
        return Err(AppFault::OpenDesk);
    }
    let text = desk_text(counting, desk, &decide)?;
    write_out(writer, text.as_slice(), AppFault::Write)
}

/// What is said of a desk.
fn desk_text<T: Threads + Sync, G: Gate>(
    counting: &Counting<T, G>,
    desk: Desk,
    decide: &Decide,
) -> Result<Vec<u8>, CountFault>
    ensures ok { IfOk result (λ text.
        IsTextOf (IsDecided Report decide.now counting.now.rule.now) desk text.items) }
    ensures fault { IfErr result (IsRefusedDeskBeside desk counting.now.rule.now decide.now.other) }
{
    let row = row_of(counting.alloc, &desk)?;
    if !desk.is_shut() {
        drop(desk);
        return Ok(row);
    }
    let election = match left_by(desk) {
        Ok(election) => election,
        Err(_) => return Err(CountFault::NoMemory),
    };
    let decided = match decided(counting, election, decide) {
        Ok(decided) => decided,
        Err(fault) => return Err(fault),
    };
    let text = text_with(counting.alloc, row, &decided)?;
    drop(decided);
    Ok(text)
}

/// This row, and below it the report by the rule that applies.
fn text_with(alloc: Global, row: Vec<u8>, decided: &DecidedCount) -> Result<Vec<u8>, NoMemory>
    ensures { IfOk result (λ text. text.items
        ≡ row.items ++ (table_of Report decided.now.count
        ++ below Report (decided.now.count.rule, decided.now.own, decided.now.other))) }
{
    let report = decided_table(alloc, decided, Table::Report)?;
    let mut text = row;
    text.extend_from_slice(report.as_slice())?;
    Ok(text)
}

/// The row of a desk.
fn row_of(alloc: Global, desk: &Desk) -> Result<Vec<u8>, NoMemory>
    ensures { IfOk result (λ row. row.items ≡ text_of_row (entries_row desk.now)) }
{
    let mut rows = RowsWriter::start(alloc);
    match put_entries(&mut rows, desk) {
        Ok(()) => whole(rows),
        Err(_) => {
            drop(rows);
            Err(NoMemory)
        }
    }
}
