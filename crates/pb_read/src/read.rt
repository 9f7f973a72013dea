//! The reader of a whole file.

ghost use Rattle.std.specs.Prelude.{◌≡◌, [], ◌∷◌, length, None, Some, IfOk, IfErr, IfSome, MatchResult};
ghost use Rattle.pb_rows.specs.Reading.{records_of};
ghost use Rattle.pb_rows.specs.Inner.Reading.{HasReadAtMost};
ghost use Rattle.pb_read.specs.FirstFault.{IsFaultAt, ReadsTo};
ghost use Rattle.pb_read.specs.Inner.Progresses.{BlamesReader};
ghost use Rattle.pb_read.specs.StandsFor.{StandsFor};
ghost use Rattle.pb_read.specs.Shown.{IsAll, WereShown};

use crate::check::Check;
use crate::fault::{ReadFault, ReadKind};
use crate::watch::{NoWatch, Watch};
use pb_core::election::Election;
use pb_rows::{Records, RecordsFault};
use std::alloc::Global;
use std::io::Read;

/// The most records that a file has.
pub const MOST_RECORDS: u32 = 2_000_000;

/// Reads a .pb file, Pabulib's format, with approval votes: the records, numbered from 1, have `;`
/// between fields, and give the sections META, PROJECTS and VOTES one after another.
///
/// Answers the election exactly where the records stand for one, and otherwise the first fault
/// with the number of its record; the end of the file counts as a record. A reader that fails is
/// `ReadFailed` and refused memory `NoMemory`; then the records before that number have no fault. At
/// most 2,000,001 records are read, and the memory in use grows with the election and the longest
/// record, not with the file. Ids are found by hash with a fixed seed, and those that crowd a table are
/// kept in order.
pub fn read_pb<R: Read + Drop>(alloc: Global, reader: R) -> Result<Election, ReadFault>
    ensures { ReadsTo (R.remaining reader) result }
{
    read_pb_watched(alloc, reader, &mut NoWatch)
}

/// Reads as `read_pb` does. Who looks on is shown each record that has passed, and then what is refused, or
/// that the file has ended and stands for an election.
pub fn read_pb_watched<R: Read + Drop, W: Watch>(
    alloc: Global,
    reader: R,
    watch: &mut W,
) -> Result<Election, ReadFault>
    ensures reads { ReadsTo (R.remaining reader) result }

    // Who looks on was shown all records and the end, or the records before the fault, and the fault.
    ensures shown { IfSome (R.remaining reader) (λ bytes. MatchResult result
        (λ _. WereShown (records_of bytes) [] (IsAll (records_of bytes)) (W.shown watch.old) (W.shown watch.new))
        (λ fault. WereShown (records_of bytes) (fault ∷ []) (λ new. length new ≡ fault.at)
        (W.shown watch.old) (W.shown watch.new))) }
{
    let mut records = Records::new(alloc, reader);
    read_pb_records(alloc, &mut records, watch)
}

/// Reads these records as `read_pb_watched` reads those of a text. Where it blames the reader, the reader has
/// failed.
pub fn read_pb_records<R: Read, W: Watch>(
    alloc: Global,
    records: &mut Records<R>,
    watch: &mut W,
) -> Result<Election, ReadFault>
    ensures ok { IfSome records.old.left (λ all. IfOk result (λ e. StandsFor all e)) }
    ensures fault { IfSome records.old.left (λ all.
        IfErr result (λ fault. IsFaultAt all fault.kind fault.at)) }
    ensures blame { records.old.fault ≡ None → IfErr result (λ fault.
        fault.kind ≡ ReadKind.ReadFailed → records.new.fault ≡ Some RecordsFault.ReadFailed) }
    ensures shown { IfSome records.old.left (λ all. MatchResult result
        (λ _. WereShown all [] (IsAll all) (W.shown watch.old) (W.shown watch.new))
        (λ fault. WereShown all (fault ∷ []) (λ new. length new ≡ fault.at)
        (W.shown watch.old) (W.shown watch.new))) }
{
    read_records(alloc, records, watch)
}

/// Reads these records up to the first fault, or to the end: the check, stopped where it would list a fault.
fn read_records<R: Read, W: Watch>(
    alloc: Global,
    records: &mut Records<R>,
    watch: &mut W,
) -> Result<Election, ReadFault>
    ensures ok { IfSome records.old.left (λ all. IfOk result (λ e. StandsFor all e)) }
    ensures fault { IfSome records.old.left (λ all.
        IfErr result (λ fault. IsFaultAt all fault.kind fault.at)) }
    ensures blame { records.old.fault ≡ None →
        IfErr result (λ fault. BlamesReader fault.kind records.new.fault) }
    ensures read { HasReadAtMost 2000001 records.old.left records.new.left }
    ensures shown { IfSome records.old.left (λ all. MatchResult result
        (λ _. WereShown all [] (IsAll all) (W.shown watch.old) (W.shown watch.new))
        (λ fault. WereShown all (fault ∷ []) (λ new. length new ≡ fault.at)
        (W.shown watch.old) (W.shown watch.new))) }
{
    let mut check = Check::new(alloc);
    let answer = match check.read_to_fault(records, watch, 0, 0) {
        Ok(()) => Ok(check.take_election()),
        Err(refused) => Err(refused.fault),
    };
    // Letting go of it by a call keeps this function's proof short.
    drop(check);
    answer
}
