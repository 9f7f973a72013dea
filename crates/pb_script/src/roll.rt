//! The reader of a voters' roll: the ids of those who may vote, one a row.

ghost use Rattle.std.specs.Prelude.{◌≡◌, ◌<◌, ◌≤◌, ◌+◌, ◌++◌, ℕ, List, [], Some, false, true, is_some};
ghost use Rattle.std.specs.Prelude.{IfErr, IfOk, IfSome, IsErrOf, OnOk};
ghost use Rattle.std.specs.FinMap as map;
ghost use Rattle.std.specs.Str.{trim};
ghost use Rattle.csv.specs.Records.{AllText, fields_of};
ghost use Rattle.pb_read.specs.Rows.{field};
ghost use Rattle.pb_read.specs.Voting.{is_among};
ghost use Rattle.pb_rows.specs.Reading.{Fields, IsNext, records_of};
ghost use Rattle.pb_script.specs.Roll.{AreRoll, IsNextRollFault, ids_of};
ghost use Rattle.pb_script.specs.Inner.Roll.{IsRoll, IsRollFault};
ghost use Rattle.pb_script.specs.Inner.Roll.{BlamesRollReader, IsFaultAfter, PutsId};
ghost use Rattle.pb_read.specs.StandsFor.{most_records};

use csv::StringRecord;
use pb_core::no_memory::NoMemory;
use pb_ids::IdTable;
use pb_rows::{Records, RecordsFault};
use std::alloc::{AllocError, Global};
use std::io::Read;
use thiserror::Error;

/// The most ids that a roll has.
pub const MOST_IDS: u32 = 2_000_000;

/// Why a roll is not accepted. The first faulty row decides. Rows have their numbers from 1.
#[derive(Clone, Copy, Debug, PartialEq, Eq, Error)]
pub enum RollFault {
    /// The reader failed at this row.
    #[error("the reader failed at row {0}")]
    ReadFailed(u32),
    /// This row is not UTF-8.
    #[error("row {0} is no text")]
    NotText(u32),
    /// This row has an id beyond the 2,000,000th.
    #[error("row {0} has an id too many")]
    TooManyIds(u32),
    /// Memory was refused.
    #[error("out of memory")]
    NoMemory,
}

impl From<NoMemory> for RollFault {
    ghost use Rattle.std.specs.Prelude.{◌≡◌};
    ghost use Rattle.pb_script.specs.declared.roll.RollFault.TheVariants as fault;

    ghost from_gives = { λ _ e. e ≡ fault.NoMemory };

    fn from(_refused: NoMemory) -> RollFault {
        RollFault::NoMemory
    }
}

impl From<AllocError> for RollFault {
    ghost use Rattle.std.specs.Prelude.{◌≡◌};
    ghost use Rattle.pb_script.specs.declared.roll.RollFault.TheVariants as fault;

    ghost from_gives = { λ _ e. e ≡ fault.NoMemory };

    fn from(_refused: AllocError) -> RollFault {
        RollFault::NoMemory
    }
}

/// Reads the ids of a roll, the first field of each row, without white space at its ends: the table has these
/// and no others. A first row that begins with `voter_id` is a header.
///
/// The first faulty row decides: the rows before it are a roll; within a row a reader that fails comes first,
/// then what is no text, then the limit of 2,000,000 ids.
pub fn read_roll<R: Read + Drop>(alloc: Global, reader: R) -> Result<IdTable, RollFault>
    ensures roll { IfOk result (λ roll. IfSome (R.remaining reader)
        (λ bytes. AreRoll (records_of bytes) × ((voter : List ℕ)
        → is_some (map.get roll voter) ≡ is_among (ids_of (records_of bytes)) voter))) }
    ensures fault { IfErr result (λ fault. IfSome (R.remaining reader) (λ bytes.
        (before left : List Fields) × (records_of bytes ≡ before ++ left)
        × AreRoll before × IsNextRollFault before left fault)) }
{
    let mut records = Records::new(alloc, reader);
    let roll = read_roll_records(alloc, &mut records);
    drop(records);
    roll
}

/// Reads the records of a roll, none of which was read, as `read_roll` reads those of a text. Where it blames
/// the reader, the reader has failed.
pub fn read_roll_records<R: Read>(
    alloc: Global,
    records: &mut Records<R>,
) -> Result<IdTable, RollFault>
    ensures roll { IfOk result (λ roll. IfSome records.old.left (λ rows. AreRoll rows × ((voter : List ℕ)
        → is_some (map.get roll voter) ≡ is_among (ids_of rows) voter))) }
    ensures fault { IfErr result (λ fault. IfSome records.old.left (λ rows.
        (before left : List Fields) × (rows ≡ before ++ left)
        × AreRoll before × IsNextRollFault before left fault)) }
    ensures blame { (row : ℕ) → IsErrOf result (RollFault.ReadFailed row) →
        records.new.fault ≡ Some RecordsFault.ReadFailed }
{
    let mut roll = IdTable::new(alloc);
    match read_ids(alloc, records, &mut roll) {
        Ok(()) => Ok(roll),
        Err(fault) => {
            drop(roll);
            Err(fault)
        }
    }
}

/// Reads the rows that are left into this table, of a roll of which none was read so far.
fn read_ids<R: Read>(
    alloc: Global,
    records: &mut Records<R>,
    roll: &mut IdTable,
) -> Result<(), RollFault>
    requires { roll.old ≡ map.empty }
    ensures roll { OnOk result (IfSome records.old.left (λ rows. IsRoll rows roll.new)) }
    ensures fault { IfErr result (λ fault. IfSome records.old.left (λ rows. IsRollFault rows fault)) }
    ensures blame { IfErr result (λ fault. BlamesRollReader fault records.new.fault) }
{
    let mut row = StringRecord::new(alloc);
    let mut rows = 0u32;
    let mut ids = 0u32;
    'rows: loop {
        match next_row(records, &mut row, rows, ids) {
            Ok(true) => {}
            Ok(false) => return Ok(()),
            Err(fault) => return Err(fault),
        }
        if put_id(alloc, roll, &row, rows == 0)? {
            ids += 1;
        }
        rows += 1;
    }
}

/// Reads the next row, where this many came before it with this many ids, and answers whether there was one.
fn next_row<R: Read>(
    records: &mut Records<R>,
    row: &mut StringRecord,
    rows: u32,
    ids: u32,
) -> Result<bool, RollFault>
    requires { rows ≤ most_records + 1 }
    ensures next { IfOk result (λ found. IsNext records.old.left records.new.left found (fields_of row.new)) }
    ensures end { IfOk result (λ found. found ≡ false → records.new.left ≡ Some []) }
    ensures text { OnOk result (AllText (fields_of row.new)) }
    ensures few { IfOk result (λ found. found ≡ true → ids < most_records) }
    ensures fault { IfErr result (λ fault. IfSome records.old.left
        (λ left. IsFaultAfter rows ids left fault)) }
    ensures blame { IfErr result (λ fault. BlamesRollReader fault records.new.fault) }
{
    match records.read(row) {
        Ok(true) => {}
        Ok(false) => return Ok(false),
        Err(RecordsFault::ReadFailed) => return Err(RollFault::ReadFailed(rows + 1)),
        Err(RecordsFault::NotText) => return Err(RollFault::NotText(rows + 1)),
        Err(RecordsFault::NoMemory) => return Err(RollFault::NoMemory),
    }
    if ids >= MOST_IDS {
        return Err(RollFault::TooManyIds(rows + 1));
    }
    Ok(true)
}

/// Puts the id of a row into the table, and answers whether it has one: a header has none.
fn put_id(
    alloc: Global,
    roll: &mut IdTable,
    row: &StringRecord,
    is_first: bool,
) -> Result<bool, AllocError>
    ensures ok { IfOk result (λ has_id. PutsId (fields_of row.now) is_first has_id roll.old roll.new) }
{
    let id = id_of(row);
    if is_first && id == "voter_id" {
        return Ok(false);
    }
    roll.insert(alloc, id, 0)?;
    Ok(true)
}

/// The first field of a row, without white space at its ends.
fn id_of(row: &StringRecord) -> &str
    ensures { result.now ≡ trim (field (fields_of row.now) 0) }
{
    row.get(0).unwrap_or("").trim()
}
