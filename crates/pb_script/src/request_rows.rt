//! The rows of requests, read one at a time while they come in.

ghost use Rattle.std.specs.Prelude.{◌≡◌, [], None, option_map, true, IfOk, IfSome, IsErrOf, MatchOption};
ghost use Rattle.std.specs.Prelude.{OnErr, OnOk};
ghost use Rattle.csv.specs.Records.{AllText, fields_of};
ghost use Rattle.pb_rows.specs.Reading.{records_of, Fields, IsNext};
ghost use Rattle.pb_desk.specs.Replay.{most_clerks};
ghost use Rattle.pb_script.specs.Admission.{Judges};
ghost use Rattle.pb_script.specs.RowsView.{HasFailed, HasGiven};

use crate::admission::{Admission, Notice, RowRefusal};
use crate::script::{ScriptRow, read_row};
use csv::{ByteRecord, StringRecord};
use pb_core::no_memory::NoMemory;
use pb_desk::desk::MOST_CLERKS;
use pb_rows::{Records, RecordsFault};
use std::alloc::Global;
use std::io::Read;
use std::marker::Model;
use std::mem;
use thiserror::Error;

/// Why there is no next row.
#[derive(Clone, Copy, Debug, PartialEq, Eq, Error)]
pub enum RowsFault {
    /// The reader failed.
    #[error("the reader failed")]
    ReadFailed,
    /// Memory was refused.
    #[error("out of memory")]
    NoMemory,
}

impl From<NoMemory> for RowsFault {
    ghost use Rattle.std.specs.Prelude.{◌≡◌};
    ghost use Rattle.pb_script.specs.declared.request_rows.RowsFault.TheVariants as fault;

    ghost from_gives = { λ _ e. e ≡ fault.NoMemory };

    fn from(_refused: NoMemory) -> RowsFault {
        RowsFault::NoMemory
    }
}

/// The rows of requests that a reader gives, for 64 clerks, read one at a time. One that is refused stops
/// nothing. A contract sees `left`, the records that are still to come, and `fault`, as it does for
/// `Records`; and `count`, how many rows were given, as far as 64 bits count them.
#[derive(Drop)]
pub struct RequestRows<R: Read> {
    records: Records<R>,
    /// Where the next row is read to.
    raw: ByteRecord,
    places: Vec<u32>,
    /// How many rows were given.
    count: u64,
}

impl<R: Read> Model for RequestRows<R> {
    ghost use Rattle.pb_script.specs.RowsView.{RowsView};

    ghost Value = { RowsView };

    ghost view = { λ rows. record {
      left = rows.records.left;
      fault = rows.records.fault;
      count = rows.count;
    } };
}

/// The record as text, if each of its fields is text. Then `raw` is empty afterwards.
fn text_of(alloc: Global, raw: &mut ByteRecord) -> Option<StringRecord>
    ensures { MatchOption result (¬ AllText (fields_of raw.old))
        (λ row. (fields_of row ≡ fields_of raw.old) × AllText (fields_of row)) }
{
    let bytes = mem::replace(raw, ByteRecord::new(alloc));
    match StringRecord::from_byte_record(bytes) {
        Ok(row) => Some(row),
        Err(refused) => {
            drop(mem::replace(raw, refused.into_byte_record()));
            None
        }
    }
}

/// What this row, which is text, says, or why it is refused. Who hears of that is told the row's number, from
/// 1.
fn judge<N: Notice>(
    alloc: Global,
    row: &StringRecord,
    places: &mut Vec<u32>,
    admission: &Admission,
    told: (u64, &N),
) -> Result<Result<ScriptRow, RowRefusal>, NoMemory>
    requires { AllText (fields_of row.now) }
    ensures { IfOk result (Judges admission.now most_clerks (fields_of row.now)) }
{
    match read_row(alloc, row, places, MOST_CLERKS, admission)? {
        Ok(said) => Ok(Ok(said)),
        Err(why) => {
            let (number, notice) = told;
            notice.refused(number, why, admission.unknown_in(row, places));
            Ok(Err(why))
        }
    }
}

impl<R: Read> RequestRows<R> {
    /// The rows that `reader` gives.
    pub fn new(alloc: Global, reader: R) -> RequestRows<R>
        ensures left { result.left ≡ option_map records_of (R.remaining reader) }
        ensures fault { result.fault ≡ None }
        ensures count { result.count ≡ 0 }
    {
        RequestRows {
            records: Records::new(alloc, reader),
            raw: ByteRecord::new(alloc),
            places: Vec::new(alloc),
            count: 0,
        }
    }

    /// What the next row says, or why it is refused, if there is one. Stop at the first fault: no row is given with it.
    pub fn next<N: Notice>(
        &mut self,
        alloc: Global,
        admission: &Admission,
        notice: &N,
    ) -> Result<Option<Result<ScriptRow, RowRefusal>>, RowsFault>
        ensures next { IfOk result (λ next. MatchOption next (IfSome self.old.left (λ left. left ≡ []))
            (λ row. (fields : Fields) × IsNext self.old.left self.new.left true fields
            × Judges admission.now most_clerks fields row)) }
        ensures given { IfOk result (λ next. MatchOption next (self.new.count ≡ self.old.count)
            (λ _. HasGiven self.old self.new 1)) }
        ensures none_given { OnErr result (self.new.count ≡ self.old.count) }
        ensures goes_on { OnOk result (self.new.fault ≡ None) }

        // The reader is blamed where it failed, and only there.
        ensures blame { IsErrOf result RowsFault.ReadFailed → HasFailed self.new }
        ensures memory { IsErrOf result RowsFault.NoMemory → ¬ HasFailed self.new }
    {
        match self.records.read_bytes(&mut self.raw) {
            Ok(true) => {}
            Ok(false) => return Ok(None),
            Err(RecordsFault::NoMemory) => return Err(RowsFault::NoMemory),
            Err(_) => return Err(RowsFault::ReadFailed),
        }
        let count = self.count.saturating_add(1);
        let Some(row) = text_of(alloc, &mut self.raw) else {
            self.count = count;
            // A field is no text.
            notice.refused(count, RowRefusal::Bad, "");
            return Ok(Some(Err(RowRefusal::Bad)));
        };
        let judged = judge(alloc, &row, &mut self.places, admission, (count, notice));
        // The next row is read into the same memory.
        drop(mem::replace(&mut self.raw, row.into_byte_record()));
        let judged = judged?;
        self.count = count;
        Ok(Some(judged))
    }
}
