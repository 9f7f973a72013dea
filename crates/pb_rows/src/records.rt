//! The records of a text, one at a time.

ghost use Rattle.std.specs.Prelude.{◌≡◌, [], false, Some, None, IfOk, IfErr, IfSome, IsSomeAnd, OnErr};
ghost use Rattle.std.specs.Prelude.{OnOk, option_map};
ghost use Rattle.std.specs.Prelude.{slice_get};
ghost use Rattle.csv.specs.Records.{AllText, fields_of};
ghost use Rattle.pb_rows.specs.Reading.{IsNext, records_of};

use crate::fault::RecordsFault;
use csv::{ByteRecord, Reader, ReaderBuilder, StringRecord};
use std::alloc::Global;
use std::io::Read;
use std::marker::Model;

/// The records of a text, with `;` between fields and of any lengths, read one at a time.
///
/// A contract sees `left`, the records that are still to come (`None` where the bytes of the reader
/// underneath are not known, and after a fault), and `fault`, what stopped the reading. It is ReadFailed only
/// where csv's reader has failed.
#[derive(Drop)]
pub struct Records<R: Read> {
    reader: Reader<R>,
    fault: Option<RecordsFault>,
    has_ended: bool,
}

impl<R: Read> Model for Records<R> {
    ghost use Rattle.std.specs.Prelude.{◌≡◌, None, Some, true};
    ghost use Rattle.csv.specs.Reading.{has_failed};
    ghost use Rattle.pb_rows.specs.Inner.Reading.{IsSetUp};
    ghost use Rattle.pb_rows.specs.Reading.{Left, left_of};
    ghost use Rattle.pb_rows.specs.declared.fault.RecordsFault.TheVariants.{ReadFailed};

    ghost Value = { Left };

    ghost view = { λ s. record {
      left = left_of R.remaining s.reader s.fault s.has_ended;
      fault = s.fault;
    } };

    ghost invariant = { λ s. (s.fault ≡ None → IsSetUp s.reader)
        × (s.fault ≡ Some ReadFailed → has_failed s.reader ≡ true) };
}

impl<R: Read> Records<R> {
    /// The records of the text that `reader` gives. One byte order mark at its start is no part of
    /// a field.
    pub fn new(alloc: Global, reader: R) -> Records<R>
        ensures left { result.left ≡ option_map records_of (R.remaining reader) }
        ensures fault { result.fault ≡ None }
    {
        let reader = ReaderBuilder::new()
            .delimiter(b';')
            .has_headers(false)
            .flexible(true)
            .from_reader(alloc, reader);
        Records {
            reader,
            fault: None,
            has_ended: false,
        }
    }

    /// Reads the next record into `row`, and answers whether there was one. Its fields are
    /// `row.get(i)`, or `row.iter()`; a contract has them as csv's `fields_of row`, and the one at
    /// `i` as `field_at (fields_of row) i`.
    ///
    /// After the end of the text there is no record any more, whatever the reader would still give.
    /// Stop at the first fault: each later call answers that fault again.
    pub fn read(&mut self, row: &mut StringRecord) -> Result<bool, RecordsFault>
        ensures next { IfOk result (λ found. IsNext self.old.left self.new.left found (fields_of row.new)) }
        ensures end { IfOk result (λ found. found ≡ false → self.new.left ≡ Some []) }
        ensures text { OnOk result (AllText (fields_of row.new)) }
        ensures goes_on { OnOk result (self.new.fault ≡ None) }
        ensures stops { IfErr result (λ fault. self.new.fault ≡ Some fault) }
        ensures unknown { OnErr result (self.new.left ≡ None) }
        ensures again { IfSome self.old.fault (λ fault. result ≡ Err fault) }
        ensures not_text { result ≡ Err RecordsFault.NotText → IfSome self.old.left (λ records.
            IsSomeAnd (slice_get records 0) (λ next. ¬ AllText next)) }
    {
        if let Some(fault) = self.fault {
            return Err(fault);
        }
        if self.has_ended {
            row.clear();
            return Ok(false);
        }
        match self.reader.read_record(row) {
            Ok(found) => {
                self.has_ended = !found;
                Ok(found)
            }
            Err(error) => {
                let fault = RecordsFault::of(error);
                self.fault = Some(fault);
                Err(fault)
            }
        }
    }

    /// Reads the next record into `row` as bytes, which need not be text, and answers whether there was one.
    ///
    /// At the end of the text and after a fault it is as `read`.
    pub fn read_bytes(&mut self, row: &mut ByteRecord) -> Result<bool, RecordsFault>
        ensures next { IfOk result (λ found. IsNext self.old.left self.new.left found (fields_of row.new)) }
        ensures end { IfOk result (λ found. found ≡ false → self.new.left ≡ Some []) }
        ensures goes_on { OnOk result (self.new.fault ≡ None) }
        ensures stops { IfErr result (λ fault. self.new.fault ≡ Some fault) }
        ensures unknown { OnErr result (self.new.left ≡ None) }
        ensures again { IfSome self.old.fault (λ fault. result ≡ Err fault) }
        ensures bytes { result ≡ Err RecordsFault.NotText → self.old.fault ≡ Some RecordsFault.NotText }
    {
        if let Some(earlier) = self.fault {
            return Err(earlier);
        }
        if self.has_ended {
            return Ok(false);
        }
        match self.reader.read_byte_record(row) {
            Ok(is_record) => {
                self.has_ended = !is_record;
                Ok(is_record)
            }
            Err(refused) => {
                let fault = RecordsFault::of(refused);
                self.fault = Some(fault);
                Err(fault)
            }
        }
    }
}
