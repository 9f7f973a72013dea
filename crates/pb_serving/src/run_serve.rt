//! The command `serve`, once its journal is open.

ghost use denote.Enum.Declared.{tag_of};
ghost use Rattle.std.specs.Prelude.{◌≡◌, ◌≢◌, ◌⊎◌, ◌+◌, ◌-◌, ◌^◌, ◌<◌, ◌≤◌, ◌++◌, ◌==◌, ℕ, List, [], All, None};
ghost use Rattle.std.specs.Prelude.{filter_map, map, Result};
ghost use Rattle.std.specs.List.{count_by, range_with_len};
ghost use Rattle.std.specs.Result.{result_err};
ghost use Rattle.std.specs.Prelude.{drop, length, min, take, true, IfErr, IfOk, IfSome, IsErrOf, OnOk};
ghost use Rattle.std.specs.Io.KnownBytes.{Appends};
ghost use Rattle.pb_core.specs.Request.{EntryView};
ghost use Rattle.pb_core.specs.declared.answer.Answer.{Answer};
ghost use Rattle.pb_desk.specs.Replay.{most_clerks, IsLegal};
ghost use Rattle.pb_desk.specs.Rows.{journal_text, rows_from};
ghost use Rattle.pb_durable.specs.Device.{LeavesOnly, Only};
ghost use Rattle.pb_durable.specs.DurableDesk.{IsDurable};
ghost use Rattle.pb_durable.specs.Inner.Entries.{entries_of};
ghost use Rattle.pb_durable.specs.Inner.Either.{StandsForEither};
ghost use Rattle.pb_rows.specs.Reading.{Fields};
ghost use Rattle.pb_rows.specs.Writing.{text_of_rows};
ghost use Rattle.pb_script.specs.Admission.{broken_rule};
ghost use Rattle.pb_script.specs.EntryCounts.{counts_of};
ghost use Rattle.pb_script.specs.contracts.admission.RowRefusal.{the_type};
ghost use Rattle.pb_script.specs.declared.admission.RowRefusal.{RowRefusal};
ghost use Rattle.pb_script.specs.declared.script_fault.ScriptFault.TheVariants.{ReadFailed};
ghost use Rattle.pb_script.specs.RowsView.{HasFailed, HasGiven};
ghost use Rattle.pb_script.specs.ScriptReading.{fault_of_row};
ghost use Rattle.pb_faults.specs.Fault.{line, told};
ghost use Rattle.pb_serving.specs.Answered.{heading, Answers, Halts, IsBehind, StandsWithin};
ghost use Rattle.pb_serving.specs.Inner.Room.{HasNoRoom};
ghost use Rattle.pb_serving.specs.Inner.Admitted.{AddsAdmitted};
ghost use Rattle.pb_serving.specs.Inner.Durable.{of_durable};
ghost use Rattle.pb_serving.specs.Inner.Refused.{refusals_of};

use crate::batch::{BatchEnd, next_batch};
use crate::heading::heading;
use crate::refused_rows::RefusedRows;
use crate::rows_at_hand::RowsAtHand;
use crate::session::Session;
use pb_core::answer::Answer;
use pb_core::no_memory::NoMemory;
use pb_desk::DeskFault;
use pb_durable::{ClerkRequest, Device, DurableDesk, DurableFault, Recorded};
use pb_faults::{AppFault, ServingFault, write_out, write_refused_row};
use pb_script::{EntryCounts, Notice, RequestRows, RowRefusal, ScriptFault};
use std::alloc::Global;
use std::io::{Read, Write};

/// A run has fewer batches.
const MOST_BATCHES: u64 = 1 << 50;

/// What a run has served.
#[derive(Clone, Copy)]
pub struct ServedRows {
    /// The rows that were refused.
    pub refused: RefusedRows,
    /// The entries that came to the journal.
    pub counts: EntryCounts,
}

/// Says `torn;BYTES` where bytes were cut off the journal, and `entries;N;open` or `entries;N;shut`, and then
/// answers each row of the input in turn: by its journal row, once that is durable, or by the line of why it
/// is refused, which changes nothing. What the session's `pace` says is at hand is served together, up to
/// 4096 rows, and each answer is flushed before the next row is waited for. The session's `notice` is told
/// which rows are refused, and the answer to each other row once it is written. At the end of the input the
/// journal is closed. Answers how many rows were refused for which reason, and what came of the others.
///
/// It ends early where the input or the writer fails, where the journal is not written, or out of memory.
/// What was answered stands.
pub fn run_serve<D: Device, R: Read, P: RowsAtHand, N: Notice, W: Write>(
    alloc: Global,
    desk: &mut DurableDesk<D>,
    rows: &mut RequestRows<R>,
    session: &Session<'_, P, N>,
    writer: &mut W,
) -> Result<ServedRows, AppFault>
    requires { D.tells → IsDurable D.seen D.may_leave desk.old }

    // Each row that was given has its answer, and the rows alone decide the text: all rows, where they are
    // known.
    ensures answered { IfOk result (λ served. (records : List Fields)
        × (became : List (Result EntryView RowRefusal)) × (text : List ℕ)
        × IfSome rows.old.left (λ left. left ≡ records)
        × HasGiven rows.old rows.new (length records)
        × Answers session.now.admission.now records became desk.old.desk.journal desk.new.desk.journal text
        × Appends (W.contents writer.old) (W.contents writer.new)
        (heading session.now.torn desk.old.desk ++ text)
        × (served.refused.all + length desk.new.desk.journal ≡ length records + length desk.old.desk.journal)
        × (served.refused.counts ≡ map (λ n. count_by (λ why. tag_of the_type why == n)
        (filter_map result_err became)) (range_with_len 0 6))) }
    ensures counts { IfOk result (λ served. served.counts.counts
        ≡ counts_of (drop (length desk.old.desk.journal) desk.new.desk.journal)) }

    // Each entry that it adds breaks none of the desk's rules, however it ends.
    ensures admitted { (more : List EntryView) × (desk.new.desk.journal ≡ desk.old.desk.journal ++ more)
        × All (λ x. broken_rule session.now.admission.now x.request ≡ None) more }
    ensures legal { IsLegal desk.new.desk.opening desk.new.desk.journal }
    ensures opening { desk.new.desk.opening ≡ desk.old.desk.opening }
    ensures closed { D.tells → OnOk result (D.seen desk.new.file.device
        ≡ journal_text desk.new.desk.opening.version desk.new.desk.journal) }
    ensures durable { D.tells → OnOk result
        (Only (D.seen desk.new.file.device) (D.may_leave desk.new.file.device)) }

    // Where it ends early, some first rows have their answers, and nothing else was said, unless the writer
    // failed: then what went out is the front of the text of the answers. Before its first words nothing was
    // done. What was answered stands in what a crash leaves.
    ensures stopped { IfErr result (λ fault. (kept : List EntryView) × (text unsaid : List ℕ)
        × Halts session.now.admission.now fault rows.old rows.new desk.old.desk.journal kept
        desk.new.desk.journal text unsaid
        × (fault ≢ AppFault.Serving ServingFault.Output
        → Appends (W.contents writer.old) (W.contents writer.new)
        (heading session.now.torn desk.old.desk ++ text)
        ⊎ ((writer.new ≡ writer.old) × (rows.new ≡ rows.old) × (desk.new ≡ desk.old)))
        × (fault ≡ AppFault.Serving ServingFault.Output
        → (n : ℕ) × Appends (W.contents writer.old) (W.contents writer.new)
        (take n (heading session.now.torn desk.old.desk ++ text ++ unsaid)))
        × (D.tells → (c : List ℕ) → D.may_leave desk.new.file.device c
        → StandsWithin desk.new.desk.opening.version kept desk.new.desk.journal c)) }

    // The input is blamed only where it failed, and all is well only where it did not.
    ensures blame { (i : ℕ) → IsErrOf result (AppFault.Script (ReadFailed i)) → HasFailed rows.new }
    ensures read { OnOk result (rows.new.fault ≡ None) }

    // A failure of the device is told, and only there, or where at some entry the journal, or its file, had
    // no room for a batch more.
    ensures told { D.tells → D.failures desk.old.file.device < D.failures desk.new.file.device
        → IsErrOf result (AppFault.Write) }
    ensures write { D.tells → IsErrOf result (AppFault.Write)
        → (D.failures desk.old.file.device < D.failures desk.new.file.device)
        ⊎ ((early more : List EntryView) × (desk.new.desk.journal ≡ early ++ more)
        × ((desk.new.desk.room < length early + 4096)
        ⊎ (2 ^ 60 ≤ length (journal_text desk.new.desk.opening.version early)))) }

    // Where the writer fails, all that was served stands.
    ensures output { D.tells → IsErrOf result (AppFault.Serving ServingFault.Output)
        → IsDurable D.seen D.may_leave desk.new }

    // A crash at any moment leaves what stood, and a first part of what was served.
    ensures any_moment { D.tells → LeavesOnly D.moment D.left_since desk.old.file.device desk.new.file.device
        (StandsWithin desk.old.desk.opening.version desk.old.desk.journal desk.new.desk.journal) }
{
    // The desk's journal is legal.
    let before = desk.desk().entries();
    let opened = heading(alloc, session.torn, desk.desk())?;
    write_out(
        writer,
        opened.as_slice(),
        AppFault::Serving(ServingFault::Output),
    )?;
    let refused = serve_rows(alloc, desk, rows, session, writer)?;
    desk.close()?;
    Ok(ServedRows {
        refused,
        counts: EntryCounts::of(desk.desk(), before),
    })
}

/// Answers the rows that are left.
fn serve_rows<D: Device, R: Read, P: RowsAtHand, N: Notice, W: Write>(
    alloc: Global,
    desk: &mut DurableDesk<D>,
    rows: &mut RequestRows<R>,
    session: &Session<'_, P, N>,
    writer: &mut W,
) -> Result<RefusedRows, AppFault>
    requires durable { D.tells → IsDurable D.seen D.may_leave desk.old }
    requires legal { IsLegal desk.old.desk.opening desk.old.desk.journal }
    ensures answered { IfOk result (λ refused. (records : List Fields)
        × (became : List (Result EntryView RowRefusal)) × (text : List ℕ)
        × IfSome rows.old.left (λ left. left ≡ records)
        × HasGiven rows.old rows.new (length records)
        × Answers session.now.admission.now records became desk.old.desk.journal desk.new.desk.journal text
        × Appends (W.contents writer.old) (W.contents writer.new) text
        × (refused.all + length desk.new.desk.journal ≡ length records + length desk.old.desk.journal)
        × (refused.counts ≡ refusals_of became)) }
    ensures durable { D.tells → OnOk result (IsDurable D.seen D.may_leave desk.new) }
    ensures legal { IsLegal desk.new.desk.opening desk.new.desk.journal }
    ensures opening { desk.new.desk.opening ≡ desk.old.desk.opening }
    ensures blame { (i : ℕ) → IsErrOf result (AppFault.Script (ReadFailed i)) → HasFailed rows.new }
    ensures read { OnOk result (rows.new.fault ≡ None) }
    ensures grown { AddsAdmitted session.now.admission.now desk.old.desk.journal desk.new.desk.journal }
    ensures stopped { IfErr result (λ fault. (kept : List EntryView) × (text unsaid : List ℕ)
        × Halts session.now.admission.now fault rows.old rows.new desk.old.desk.journal kept
        desk.new.desk.journal text unsaid
        × (fault ≢ AppFault.Serving ServingFault.Output → Appends (W.contents writer.old)
        (W.contents writer.new) text)
        × (fault ≡ AppFault.Serving ServingFault.Output → (n : ℕ) × Appends (W.contents writer.old)
        (W.contents writer.new) (take n (text ++ unsaid)))
        × (D.tells → (c : List ℕ) → D.may_leave desk.new.file.device c
        → StandsWithin desk.new.desk.opening.version kept desk.new.desk.journal c)) }
    ensures steady { D.tells → D.failures desk.old.file.device ≤ D.failures desk.new.file.device }
    ensures told { D.tells → D.failures desk.old.file.device < D.failures desk.new.file.device
        → IsErrOf result (AppFault.Write) }
    ensures write { D.tells → IsErrOf result (AppFault.Write)
        → (D.failures desk.old.file.device < D.failures desk.new.file.device) ⊎ HasNoRoom desk.new.desk }
    ensures output { D.tells → IsErrOf result (AppFault.Serving ServingFault.Output)
        → IsDurable D.seen D.may_leave desk.new }
    ensures any_moment { D.tells → LeavesOnly D.moment D.left_since desk.old.file.device desk.new.file.device
        (StandsWithin desk.old.desk.opening.version desk.old.desk.journal desk.new.desk.journal) }
{
    let mut row = 0u64;
    let mut refused = RefusedRows::new();
    for _ in 0..MOST_BATCHES {
        let mut asks = Vec::new(alloc);
        let end = next_batch(alloc, rows, session, &mut asks);
        let asking = asks.len() as u64;
        answer(alloc, desk, asks, session.notice, writer)?;
        row += asking;
        match end {
            BatchEnd::More => {}
            BatchEnd::Over => return Ok(refused),
            BatchEnd::ReadFailed => return Err(read_failed(row + 1)),
            BatchEnd::NoMemory => return Err(AppFault::Memory),
            BatchEnd::Refused(why) => {
                row += 1;
                refused.add(why);
                say_refused(alloc, writer, why, row)?;
            }
        }
    }
    Err(AppFault::Script(ScriptFault::TooManyRows))
}

/// The fault of an input that was not read at this row, from 1.
fn read_failed(row: u64) -> AppFault
    ensures { result ≡ AppFault.Script (ReadFailed (min row (2 ^ 32 - 1))) }
{
    let row = u32::try_from(row).unwrap_or(u32::MAX);
    AppFault::Script(ScriptFault::ReadFailed(row))
}

/// Serves these requests, says their rows once they are durable, and then tells the answers.
fn answer<D: Device, N: Notice, W: Write>(
    alloc: Global,
    desk: &mut DurableDesk<D>,
    asks: Vec<ClerkRequest>,
    notice: &N,
    writer: &mut W,
) -> Result<(), AppFault>
    requires durable { D.tells → IsDurable D.seen D.may_leave desk.old }
    requires clerks { All (λ a. a.clerk < most_clerks) asks.items }
    ensures said { OnOk result ((answers : List Answer) × (length answers ≡ length asks.items)
        × (desk.new.desk.journal ≡ desk.old.desk.journal ++ entries_of asks.items answers)
        × Appends (W.contents writer.old) (W.contents writer.new)
        (text_of_rows (rows_from (length desk.old.desk.journal + 1) (entries_of asks.items answers)))) }
    ensures durable { D.tells → OnOk result (IsDurable D.seen D.may_leave desk.new) }
    ensures output { D.tells → IsErrOf result (AppFault.Serving ServingFault.Output)
        → IsDurable D.seen D.may_leave desk.new }
    ensures other { IfErr result (λ fault. (answered served unserved : ℕ) → served + unserved ≤ 4097
        → (fault ≡ AppFault.Serving ServingFault.Output → unserved ≡ 0)
        → IsBehind fault answered served unserved) }
    ensures not_read { (i : ℕ) → IsErrOf result (AppFault.Script (ReadFailed i)) → ⊥ }
    ensures steady { D.tells → D.failures desk.old.file.device ≤ D.failures desk.new.file.device }
    ensures told { D.tells → D.failures desk.old.file.device < D.failures desk.new.file.device
        → IsErrOf result (AppFault.Write) }
    ensures write { D.tells → IsErrOf result (AppFault.Write)
        → (D.failures desk.old.file.device < D.failures desk.new.file.device)
        ⊎ (desk.old.desk.room < length desk.old.desk.journal + length asks.items)
        ⊎ (2 ^ 60 ≤ length (journal_text desk.old.desk.opening.version desk.old.desk.journal)) }
    ensures room { desk.new.desk.room ≡ desk.old.desk.room }
    ensures some { IfErr result (λ fault. 0 < length asks.items) }
    ensures unsaid { IfErr result (λ fault. fault ≢ AppFault.Serving ServingFault.Output
        → W.contents writer.new ≡ W.contents writer.old) }
    ensures asked { (answers : List Answer)
        × (desk.new.desk.journal ≡ desk.old.desk.journal ++ entries_of asks.items answers)
        × (IsErrOf result (AppFault.Serving ServingFault.Output) → (length answers ≡ length asks.items)
        × (n : ℕ) × Appends (W.contents writer.old) (W.contents writer.new) (take n
        (text_of_rows (rows_from (length desk.old.desk.journal + 1) (entries_of asks.items answers))))) }
    ensures legal { IsLegal desk.new.desk.opening desk.new.desk.journal }
    ensures opening { desk.new.desk.opening ≡ desk.old.desk.opening }
    ensures any_moment { D.tells → LeavesOnly D.moment D.left_since desk.old.file.device desk.new.file.device
        (StandsForEither (journal_text desk.old.desk.opening.version desk.old.desk.journal)
        (journal_text desk.old.desk.opening.version desk.new.desk.journal)) }
{
    // The desk's journal is legal.
    let _entries = desk.desk().entries();
    if asks.is_empty() {
        return Ok(());
    }
    let Recorded { answers, rows } = match desk.serve_all(alloc, asks) {
        Ok(recorded) => recorded,
        Err(fault) => return Err(unanswered(fault)),
    };
    write_out(
        writer,
        rows.as_slice(),
        AppFault::Serving(ServingFault::Output),
    )?;
    tell(notice, &answers);
    Ok(())
}

/// The fault of requests that were not answered.
fn unanswered(fault: DurableFault) -> AppFault
    ensures { result ≡ of_durable fault }
{
    match fault {
        DurableFault::Desk(DeskFault::NoMemory) => AppFault::Memory,
        DurableFault::Desk(DeskFault::JournalFull) => AppFault::Write,
        DurableFault::Device(why) => AppFault::from(why),
    }
}

/// Tells these answers, in their order.
fn tell<N: Notice>(notice: &N, answers: &[Answer]) {
    for answer in answers {
        notice.answered(*answer);
    }
}

/// Says why this row, from 1, is refused.
fn say_refused<W: Write>(
    alloc: Global,
    writer: &mut W,
    why: RowRefusal,
    row: u64,
) -> Result<(), AppFault>
    ensures ok { OnOk result (Appends (W.contents writer.old) (W.contents writer.new)
        (line (told (AppFault.Script (fault_of_row why row))).1)) }
    ensures fault { IfErr result (λ fault. (fault ≡ AppFault.Serving ServingFault.Output)
        ⊎ (fault ≡ AppFault.Memory)) }
    ensures unsaid { IfErr result (λ fault. fault ≢ AppFault.Serving ServingFault.Output
        → W.contents writer.new ≡ W.contents writer.old) }
    ensures front { IfErr result (λ fault. fault ≡ AppFault.Serving ServingFault.Output
        → (n : ℕ) × Appends (W.contents writer.old) (W.contents writer.new)
        (take n (line (told (AppFault.Script (fault_of_row why row))).1))) }
{
    let said = refused_line(alloc, why, row)?;
    write_out(
        writer,
        said.as_slice(),
        AppFault::Serving(ServingFault::Output),
    )
}

/// The line of why this row, from 1, is refused.
fn refused_line(alloc: Global, why: RowRefusal, row: u64) -> Result<Vec<u8>, NoMemory>
    ensures { IfOk result (λ text. text.items ≡ line (told (AppFault.Script (fault_of_row why row))).1) }
{
    let mut text = Vec::new(alloc);
    match write_refused_row(&mut text, why, row) {
        Ok(()) => Ok(text),
        Err(_) => {
            drop(text);
            Err(NoMemory)
        }
    }
}
