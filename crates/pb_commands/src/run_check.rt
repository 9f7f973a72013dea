//! The command `check`: all that is wrong with a file, and what is probably not meant.

ghost use Rattle.std.specs.Prelude.{◌≡◌, ◌≢◌, ◌⊎◌, ◌++◌, ◌<◌, ℕ, List, [], None, Some, IfErr, IfOk, IfSome, OnOk, map};
ghost use Rattle.std.specs.Prelude.{length, slice_index, take};
ghost use Rattle.std.specs.Io.KnownBytes.{Appends};
ghost use Rattle.pb_core.specs.Election.{ElectionView};
ghost use Rattle.pb_reasons.specs.Counted.{winners_of};
ghost use Rattle.pb_reasons.specs.CountedElection.{CountedElectionView, IsCountIn, IsFaultIn};
ghost use Rattle.pb_rows.specs.Reading.{records_of};
ghost use Rattle.pb_rows.specs.Writing.{text_of_row, text_of_rows};
ghost use Rattle.pb_read.specs.Listed.{AreListed};
ghost use Rattle.pb_read.specs.Shown.{IsAll, WereShown};
ghost use Rattle.pb_read.specs.StandsFor.{StandsFor};
ghost use Rattle.pb_commands.specs.Checked.{IsTextOfCheck, warning_row};
ghost use Rattle.pb_commands.specs.Closed.{Gives};
ghost use Rattle.pb_commands.specs.Inner.Checked.{fault_row};

use crate::counting::{Counting, counted};
use crate::report::{put_row, whole};
use itoa::Buffer;
use pb_core::election::Election;
use pb_core::gate::Gate;
use pb_core::no_memory::NoMemory;
use pb_faults::{AppFault, write_out};
use pb_read::{Checked, Compare, ReadFault, Warn, WarningRow, check_pb};
use pb_rounds::count_fault::CountFault;
use pb_rows::RowsWriter;
use std::alloc::Global;
use std::io::{Read, Write};
use std::thread::Threads;

/// Checks a .pb file, and writes a row for each fault, and after them the warnings.
///
/// The rows of faults are `fault;read;NUMBER;NAME;RECORD`, as `check_pb` lists them: the first is that of
/// `read_pb`, and there is none where `read_pb` accepts the file. They are answered too. All other rows begin
/// with `warning`. It fails only where memory is refused or the writer fails.
pub fn run_check<R: Read + Drop, W: Write, N: Warn>(
    alloc: Global,
    reader: R,
    writer: &mut W,
    notes: &mut N,
) -> Result<Vec<ReadFault>, AppFault>
    // Where the reader's bytes are known, the faults that are answered are theirs, and who looks on was shown
    // the file with them; of 1,000 faults that is not said. The rows are those of the faults, and of the
    // warnings that who looks on has answered.
    ensures faults { IfSome (R.remaining reader) (λ bytes. IfOk result (λ faults.
        AreListed 0 (records_of bytes) faults.items × (length faults.items < 1000
        → WereShown (records_of bytes) faults.items (IsAll (records_of bytes)) (N.shown notes.old) (N.shown notes.new)))) }
    ensures written { IfOk result (λ faults.
        (text : List ℕ) × IsTextOfCheck faults.items (N.warns notes.new) text
        × Appends (W.contents writer.old) (W.contents writer.new) text) }

    // It fails only where the writer fails or memory is refused. It writes nothing, unless the fault is the
    // writer's.
    ensures fault { IfErr result (λ fault. (fault ≡ AppFault.Write) ⊎ (fault ≡ AppFault.Memory)) }
    ensures unchanged { IfErr result (λ fault. fault ≢ AppFault.Write → writer.new ≡ writer.old) }

    // Where the writer fails, what went out is the front of such a text.
    ensures front { IfErr result (λ fault. fault ≡ AppFault.Write → (faults : List ReadFault)
        × IfSome (R.remaining reader) (λ bytes. AreListed 0 (records_of bytes) faults × (length faults < 1000
        → WereShown (records_of bytes) faults (IsAll (records_of bytes)) (N.shown notes.old) (N.shown notes.new)))
        × (text : List ℕ) × (n : ℕ) × IsTextOfCheck faults (N.warns notes.new) text
        × Appends (W.contents writer.old) (W.contents writer.new) (take n text)) }
{
    let checked = check_pb(alloc, reader, notes)?;
    let faults = checked.into_faults();
    let warnings = notes.warnings()?;
    let text = check_text(alloc, faults.as_slice(), warnings)?;
    match write_out(writer, text.as_slice(), AppFault::Write) {
        Ok(()) => Ok(faults),
        Err(fault) => Err(fault),
    }
}

/// Checks as `run_check` does. A file without a fault is also counted, and what it claims is compared with
/// the winners.
///
/// A file with a fault is not counted. If the count is refused, its fault is the answer, and nothing is
/// written.
pub fn run_check_against<T: Threads + Sync, R: Read + Drop, G: Gate, W: Write, N: Compare>(
    counting: &Counting<T, G>,
    reader: R,
    writer: &mut W,
    notes: &mut N,
) -> Result<Vec<ReadFault>, AppFault>
    // Where the reader's bytes are known, the faults that are answered are theirs, and who looks on was shown
    // the file with them; of 1,000 faults that is not said. The rows are those of the faults, and of the
    // warnings that who looks on has answered.
    ensures faults { IfSome (R.remaining reader) (λ bytes. IfOk result (λ faults.
        AreListed 0 (records_of bytes) faults.items × (length faults.items < 1000
        → WereShown (records_of bytes) faults.items (IsAll (records_of bytes)) (N.shown notes.old) (N.shown notes.new)))) }
    ensures written { IfOk result (λ faults.
        (text : List ℕ) × IsTextOfCheck faults.items (N.warns notes.new) text
        × Appends (W.contents writer.old) (W.contents writer.new) text) }

    // Where there is no fault, what the file claims was compared with the winners of its count by the rule.
    ensures compared { IfSome (R.remaining reader) (λ bytes. IfOk result (λ faults. faults.items ≡ [] →
        (e : ElectionView) × StandsFor (records_of bytes) e
        × (x : CountedElectionView) × IsCountIn counting.now.rule.now e x × N.has_compared notes.new
        (map (slice_index x.order) (winners_of x.counted)))) }

    // A fault of the run is the writer's, or says that memory was refused, or is that of the count of the
    // file's election. It writes nothing, unless it is the writer's.
    ensures fault { IfErr result (λ fault. IfSome (R.remaining reader) (λ bytes.
        (fault ≡ AppFault.Write) ⊎ (fault ≡ AppFault.Memory)
        ⊎ ((why : CountFault) × (fault ≡ AppFault.Count why) × (why ≢ CountFault.NoMemory)
        × Gives (IsFaultIn counting.now.rule.now) bytes None why))) }
    ensures unchanged { IfErr result (λ fault. fault ≢ AppFault.Write → writer.new ≡ writer.old) }

    // Where the writer fails, what went out is the front of such a text, after the same comparison.
    ensures front { IfErr result (λ fault. fault ≡ AppFault.Write → (faults : List ReadFault)
        × IfSome (R.remaining reader) (λ bytes. (AreListed 0 (records_of bytes) faults × (length faults < 1000
        → WereShown (records_of bytes) faults (IsAll (records_of bytes)) (N.shown notes.old) (N.shown notes.new)))
        × (faults ≡ [] → (e : ElectionView) × StandsFor (records_of bytes) e
        × (x : CountedElectionView) × IsCountIn counting.now.rule.now e x × N.has_compared notes.new
        (map (slice_index x.order) (winners_of x.counted))))
        × (text : List ℕ) × (n : ℕ) × IsTextOfCheck faults (N.warns notes.new) text
        × Appends (W.contents writer.old) (W.contents writer.new) (take n text)) }
{
    let checked = check_pb(counting.alloc, reader, notes)?;
    let Checked { faults, election } = checked;
    let warnings = warnings_against(counting, election, notes)?;
    let rows = check_text(counting.alloc, faults.as_slice(), warnings)?;
    match write_out(writer, rows.as_slice(), AppFault::Write) {
        Ok(()) => Ok(faults),
        Err(fault) => Err(fault),
    }
}

/// The warnings of what was checked; where it handed out an election, those beside its count.
fn warnings_against<T: Threads + Sync, G: Gate, N: Compare>(
    counting: &Counting<T, G>,
    election: Option<Election>,
    notes: &mut N,
) -> Result<Vec<WarningRow>, CountFault>
    ensures compared { OnOk result (IfSome election (λ e.
        (x : CountedElectionView) × IsCountIn counting.now.rule.now e x
        × N.has_compared notes.new (map (slice_index x.order) (winners_of x.counted)))) }
    ensures rows { IfOk result (λ rows. N.warns notes.new rows.items) }
    ensures fault { IfErr result (λ fault. fault ≢ CountFault.NoMemory
        → (e : ElectionView) × (election ≡ Some e) × IsFaultIn counting.now.rule.now e fault) }
    ensures shown { N.shown notes.new ≡ N.shown notes.old }
{
    let Some(election) = election else {
        return Ok(notes.warnings()?);
    };
    let count = match counted(counting, election) {
        Ok(count) => count,
        Err(fault) => return Err(fault),
    };
    let winners = count.winners_in_file(counting.alloc)?;
    drop(count);
    let warnings = notes.warnings_beside(winners.as_slice());
    drop(winners);
    Ok(warnings?)
}

/// The text of the rows of these faults, and of these warnings.
fn check_text(
    alloc: Global,
    faults: &[ReadFault],
    warnings: Vec<WarningRow>,
) -> Result<Vec<u8>, NoMemory>
    ensures { IfOk result (λ text. text.items
        ≡ text_of_rows (map fault_row faults.now ++ map warning_row warnings.items)) }
{
    let mut rows = RowsWriter::start(alloc);
    put_faults(&mut rows, faults)?;
    put_warnings(&mut rows, warnings.as_slice())?;
    whole(rows)
}

/// Puts a row for each fault.
fn put_faults(rows: &mut RowsWriter, faults: &[ReadFault]) -> Result<(), NoMemory>
    ensures { OnOk result (rows.new.text ≡ rows.old.text ++ text_of_rows (map fault_row faults.now)) }
{
    for fault in faults {
        put_fault(rows, fault)?;
    }
    Ok(())
}

/// Puts the row of a fault.
fn put_fault(rows: &mut RowsWriter, fault: &ReadFault) -> Result<(), NoMemory>
    ensures { OnOk result (rows.new.text ≡ rows.old.text ++ text_of_row (fault_row fault.now)) }
{
    let mut number_digits = Buffer::new();
    let mut at_digits = Buffer::new();
    let number = number_digits.format(fault.number());
    put_row(
        rows,
        &[
            "fault",
            "read",
            number,
            fault.name(),
            at_digits.format(fault.at),
        ],
    )
}

/// Puts a row for each warning.
fn put_warnings(rows: &mut RowsWriter, warnings: &[WarningRow]) -> Result<(), NoMemory>
    ensures { OnOk result (rows.new.text ≡ rows.old.text ++ text_of_rows (map warning_row warnings.now)) }
{
    for warning in warnings {
        put_warning(rows, warning)?;
    }
    Ok(())
}

/// Puts the row of a warning.
fn put_warning(rows: &mut RowsWriter, warning: &WarningRow) -> Result<(), NoMemory>
    ensures { OnOk result (rows.new.text ≡ rows.old.text ++ text_of_row (warning_row warning.now)) }
{
    let mut digits = Buffer::new();
    match warning {
        WarningRow::Of(warning) => {
            let number = digits.format(warning.at);
            put_row(rows, &["warning", warning.oddity.name(), number])
        }
        WarningRow::MoreOf(oddity, more) => {
            let number = digits.format(*more);
            put_row(rows, &["warning", "MoreOf", oddity.name(), number])
        }
    }
}
