//! The check of a whole file: it goes on after a faulty row.

ghost use Rattle.std.specs.Prelude.{◌≡◌, ◌≢◌, ◌≤◌, ◌<◌, ◌+◌, [], true, List, Option, None, Some, length};
ghost use Rattle.std.specs.Prelude.{All, IfErr, IfOk, IfSome, MatchOption, OnOk};
ghost use Rattle.pb_rows.specs.Reading.{Fields, records_of};
ghost use Rattle.pb_rows.specs.Inner.Reading.{HasReadAtMost};
ghost use Rattle.pb_read.specs.Inner.Checking.{AreBlamed, Blames, GoesOn, IsGoing, IsHandedOut, IsRefusal};
ghost use Rattle.pb_read.specs.Inner.Checking.{Judges, JudgesEnd, JudgesRow, Stops};
ghost use Rattle.pb_read.specs.Listed.{AreListed};
ghost use Rattle.pb_read.specs.StandsFor.{StandsFor};
ghost use Rattle.pb_read.specs.Shown.{IsAll, Sight, WereShown};
ghost use Rattle.pb_read.specs.Inner.Showing.{IsShownNext, IsShownRow, Shows, ShowsStop};
ghost use Rattle.pb_read.specs.Inner.Progresses.{BlamesReader, IsReady, place_of};
ghost use Rattle.pb_read.specs.Inner.Opening.{empty};
ghost use Rattle.pb_read.specs.declared.fault.ReadFault.{ReadFault};
ghost use Rattle.pb_read.specs.declared.progress.Stage.TheVariants.{Start};

use crate::fault::{ReadFault, ReadKind};
use crate::progress::Progress;
use crate::read::MOST_RECORDS;
use crate::refusal::Refusal;
use crate::row::{Found, Row};
use crate::watch::Watch;
use csv::ByteRecord;
use pb_core::election::Election;
use pb_core::no_memory::NoMemory;
use pb_rows::{Records, RecordsFault};
use std::alloc::Global;
use std::io::Read;

/// The most faults that are listed.
pub const MOST_FAULTS: usize = 1_000;

/// The most records that are looked at: those that are kept, and the 1,000 whose faults are listed.
const MOST_CHECKED: u32 = 2_001_000;

/// What a check of a whole file comes to.
#[derive(Drop)]
pub struct Checked {
    /// Its faults, in the order of their records; up to 1,000.
    pub faults: Vec<ReadFault>,
    /// The election that it stands for, where it has no fault.
    pub election: Option<Election>,
}

impl Checked {
    /// Its faults alone.
    pub fn into_faults(self) -> Vec<ReadFault>
        ensures { result ≡ self.faults }
    {
        drop(self.election);
        self.faults
    }
}

/// Lists what is wrong with a .pb file: a fault for each row of PROJECTS and VOTES that is refused, up to
/// 1,000; and hands out the election where there is none: the one that `read_pb` would answer.
///
/// A row that is refused is left out, and the rows after it are read as if it were not there; votes for a
/// project that was left out are `UnknownProject`. Any other fault ends the reading. After the 1,000th fault
/// none is listed, and reading goes on for who looks on. Within the rows that are left out the reader is
/// `read_pb`'s: where there is no fault it would answer an election, and otherwise the first of these. A
/// reader that fails is the last fault.
pub fn check_pb<R: Read + Drop, W: Watch>(
    alloc: Global,
    reader: R,
    watch: &mut W,
) -> Result<Checked, NoMemory>
    ensures faults { IfSome (R.remaining reader) (λ bytes.
        IfOk result (λ checked. AreListed 0 (records_of bytes) checked.faults.items)) }
    ensures election { IfSome (R.remaining reader) (λ bytes.
        IfOk result (λ checked. MatchOption checked.election (checked.faults.items ≢ [])
        (λ e. (checked.faults.items ≡ []) × StandsFor (records_of bytes) e))) }

    // Who looks on was shown each record that was read, with these faults, and the end unless a fault ended
    // the check; of 1,000 faults nothing is said.
    ensures shown { IfSome (R.remaining reader) (λ bytes. IfOk result (λ checked.
        length checked.faults.items < 1000 → WereShown (records_of bytes) checked.faults.items
        (IsAll (records_of bytes)) (W.shown watch.old) (W.shown watch.new))) }
{
    let mut records = Records::new(alloc, reader);
    let checked = check_pb_records(alloc, &mut records, watch);
    // Letting go of them by a call keeps this function's proof short.
    drop(records);
    checked
}

/// Checks these records as `check_pb` checks those of a text. Where a fault blames the reader, the reader has
/// failed.
pub fn check_pb_records<R: Read, W: Watch>(
    alloc: Global,
    records: &mut Records<R>,
    watch: &mut W,
) -> Result<Checked, NoMemory>
    ensures faults { IfSome records.old.left (λ all.
        IfOk result (λ checked. AreListed 0 all checked.faults.items)) }
    ensures election { IfSome records.old.left (λ all.
        IfOk result (λ checked. MatchOption checked.election (checked.faults.items ≢ [])
        (λ e. (checked.faults.items ≡ []) × StandsFor all e))) }
    ensures blame { records.old.fault ≡ None → IfOk result (λ checked.
        All (λ fault. fault.kind ≡ ReadKind.ReadFailed → records.new.fault ≡ Some RecordsFault.ReadFailed)
        checked.faults.items) }
    ensures shown { IfSome records.old.left (λ all. IfOk result (λ checked.
        length checked.faults.items < 1000 → WereShown all checked.faults.items (IsAll all)
        (W.shown watch.old) (W.shown watch.new))) }
{
    let mut faults = Vec::new(alloc);
    let mut check = Check::new(alloc);
    let listed = check.list(records, watch, &mut faults);
    // Letting go of it by a call keeps this function's proof short.
    drop(check);
    match listed {
        Ok(election) => Ok(Checked { faults, election }),
        Err(refused) => {
            drop(faults);
            Err(refused)
        }
    }
}

/// A record that is refused, or the end of a file that may not end there.
#[derive(Clone, Copy)]
pub(crate) struct Refused {
    pub(crate) fault: ReadFault,
    /// Whether it is a row that is left out: reading goes on as if it were not there.
    is_left_out: bool,
}

/// What comes of the next record, or of the end.
#[derive(Clone, Copy)]
pub(crate) enum Verdict {
    /// The record has no fault.
    Passes,
    /// The record is left out by this fault, and reading goes on.
    LeavesOut(ReadKind),
    /// Reading ends by this fault.
    Ends(ReadKind),
    /// The file ends here, and nothing is wrong with that.
    Done,
}

/// How far a file was checked.
#[derive(Drop)]
pub(crate) struct Check {
    pub(crate) progress: Progress,
    /// The record that was read last, where it is text.
    row: Row,
    /// The record that was read last, where it is none.
    raw: ByteRecord,
    alloc: Global,
}

impl Check {
    /// Nothing was read yet.
    pub(crate) fn new(alloc: Global) -> Check
        ensures start { place_of result.progress ≡ (Start, empty) }
        ensures ready { IsReady result.progress }
    {
        Check {
            progress: Progress::new(alloc),
            row: Row::new(alloc),
            raw: ByteRecord::new(alloc),
            alloc,
        }
    }

    /// Reads all records, lists their faults, and hands out the election where there are none.
    fn list<R: Read, W: Watch>(
        &mut self,
        records: &mut Records<R>,
        watch: &mut W,
        faults: &mut Vec<ReadFault>,
    ) -> Result<Option<Election>, NoMemory>
        requires at_start { place_of self.old.progress ≡ (Start, empty) }
        requires ready { IsReady self.old.progress }
        requires none { faults.old.items ≡ [] }
        ensures faults { OnOk result (IfSome records.old.left (λ all. AreListed 0 all faults.new.items)) }
        ensures election { IfOk result (λ election.
            IfSome records.old.left (λ all. IsHandedOut all faults.new.items election)) }
        ensures blame { records.old.fault ≡ None →
            OnOk result (AreBlamed records.new.fault faults.new.items) }
        ensures shown { OnOk result (IfSome records.old.left (λ all. length faults.new.items < 1000 →
            WereShown all faults.new.items (IsAll all) (W.shown watch.old) (W.shown watch.new))) }
    {
        let mut kept = 0;
        for left_out in 0..MOST_FAULTS as u32 {
            match self.read_to_fault(records, watch, kept, left_out) {
                Ok(()) => return Ok(self.hand_out(faults)),
                Err(refused) => {
                    if refused.fault.kind == ReadKind::NoMemory {
                        return Err(NoMemory);
                    }
                    faults.push(refused.fault)?;
                    if !refused.is_left_out {
                        return Ok(None);
                    }
                    kept = refused.fault.at - left_out - 1;
                }
            }
        }
        self.read_on(records, watch, kept + MOST_FAULTS as u32);
        Ok(None)
    }

    /// The election of the rows that were accepted, where the file may end, and has no fault.
    fn hand_out(&mut self, faults: &[ReadFault]) -> Option<Election>
        ensures whole { faults.now ≡ [] → result ≡ Some self.old.progress.draft.election }
        ensures faulty { faults.now ≢ [] → result ≡ None }
    {
        if faults.is_empty() {
            Some(self.take_election())
        } else {
            None
        }
    }

    /// Hands out the election of the rows that were accepted.
    pub(crate) fn take_election(&mut self) -> Election
        ensures { result ≡ self.old.progress.draft.election }
    {
        self.progress.draft.take_election()
    }

    /// Reads on after this many records, for who looks on.
    fn read_on<R: Read, W: Watch>(&mut self, records: &mut Records<R>, watch: &mut W, done: u32)
        requires { IsReady self.old.progress }
    {
        for before in done..MOST_CHECKED {
            match self.next(records, watch, 0, before + 1) {
                Verdict::Passes | Verdict::LeavesOut(_) => {}
                Verdict::Ends(_) => return,
                Verdict::Done => return watch.end(&self.progress.draft.election),
            }
        }
    }

    /// Reads on to the next fault, or to the end, after so many records that were kept, and so many that were
    /// left out.
    pub(crate) fn read_to_fault<R: Read, W: Watch>(
        &mut self,
        records: &mut Records<R>,
        watch: &mut W,
        kept: u32,
        left_out: u32,
    ) -> Result<(), Refused>
        requires ready { IsReady self.old.progress }
        requires kept { kept ≤ 2000000 }
        requires left_out { left_out < 1000 }
        ensures ready { IfErr result (λ refused. refused.is_left_out ≡ true → IsReady self.new.progress) }
        ensures at { IfErr result (λ refused.
            (left_out < refused.fault.at) × (refused.fault.at ≤ left_out + 2000001)) }
        ensures stops { (all : Option (List Fields)) → (faults : List ReadFault) → length faults ≡ left_out →
            IsGoing all records.old.left (kept + left_out) faults (place_of self.old.progress) →
            Stops all records.new.left faults (place_of self.new.progress) result }
        ensures shown { (all : Option (List Fields)) → (faults : List ReadFault) →
            (before : Option (List Sight)) → length faults ≡ left_out →
            Shows all records.old.left (kept + left_out) faults (place_of self.old.progress) before
            (W.shown watch.old) →
            ShowsStop all records.new.left faults (place_of self.new.progress) before (W.shown watch.new) result }
        ensures blame { records.old.fault ≡ None →
            IfErr result (λ refused. BlamesReader refused.fault.kind records.new.fault) }
        ensures goes_on { IfErr result (λ refused. refused.is_left_out ≡ true → records.new.fault ≡ None) }
        ensures read { kept ≡ 0 → left_out ≡ 0 → HasReadAtMost 2000001 records.old.left records.new.left }
    {
        for before in kept..MOST_RECORDS + 1 {
            let at = before + left_out + 1;
            let (kind, is_left_out) = match self.next(records, watch, before, at) {
                Verdict::Passes => continue,
                Verdict::LeavesOut(kind) => (kind, true),
                Verdict::Ends(kind) => (kind, false),
                Verdict::Done => {
                    watch.end(&self.progress.draft.election);
                    return Ok(());
                }
            };
            let fault = ReadFault { kind, at };
            return Err(Refused { fault, is_left_out });
        }
        // The record after the most is refused, so none is left to read here.
        let kind = ReadKind::TooManyRecords;
        let fault = ReadFault {
            kind,
            at: MOST_RECORDS + left_out + 1,
        };
        Err(Refused {
            fault,
            is_left_out: false,
        })
    }

    /// Reads the next record, number `at`, after so many that were kept, and judges it.
    fn next<R: Read, W: Watch>(
        &mut self,
        records: &mut Records<R>,
        watch: &mut W,
        kept: u32,
        at: u32,
    ) -> Verdict
        requires { IsReady self.old.progress }
        ensures judged { Judges kept records.old.left records.new.left
            (place_of self.old.progress) (place_of self.new.progress) result }
        ensures ready { GoesOn result → IsReady self.new.progress }
        ensures shown { IsShownNext records.old.left records.new.left at (place_of self.old.progress)
            (place_of self.new.progress) (W.shown watch.old) (W.shown watch.new) result }
        ensures blame { records.old.fault ≡ None → Blames result records.new.fault }
        ensures goes_on { GoesOn result → records.new.fault ≡ None }
        ensures read { HasReadAtMost 1 records.old.left records.new.left }
    {
        match self.row.read_any(self.alloc, &mut self.raw, records) {
            Ok(Found::Text) => self.judge(watch, kept, at),
            Ok(Found::NoText) => {
                let kind = ReadKind::NotText;
                let refusal = Refusal::of(ReadFault { kind, at });
                watch.refuse(&self.raw, refusal, &self.progress.stage);
                self.refused_by(kind)
            }
            Ok(Found::End) => self.judge_end(watch, at),
            Err(stopped) => {
                let kind = match stopped {
                    RecordsFault::NoMemory => ReadKind::NoMemory,
                    // No field of a record of bytes has to be text.
                    RecordsFault::ReadFailed | RecordsFault::NotText => ReadKind::ReadFailed,
                };
                self.raw.clear();
                let refusal = Refusal::of(ReadFault { kind, at });
                watch.refuse(&self.raw, refusal, &self.progress.stage);
                Verdict::Ends(kind)
            }
        }
    }

    /// Judges the row that was read, number `at`, after so many that were kept.
    fn judge<W: Watch>(&mut self, watch: &mut W, kept: u32, at: u32) -> Verdict
        requires { IsReady self.old.progress }
        ensures judged { JudgesRow kept self.old.row
            (place_of self.old.progress) (place_of self.new.progress) result }
        ensures ready { GoesOn result → IsReady self.new.progress }
        ensures shown { IsShownRow self.old.row at (place_of self.old.progress)
            (place_of self.new.progress) (W.shown watch.old) (W.shown watch.new) result }
        ensures blame { Blames result None }
    {
        if kept == MOST_RECORDS {
            let kind = ReadKind::TooManyRecords;
            let refusal = Refusal::of(ReadFault { kind, at });
            watch.refuse(self.row.bytes(), refusal, &self.progress.stage);
            return Verdict::Ends(kind);
        }
        match self.progress.read(&self.row) {
            Ok(part) => {
                watch.see(self.row.bytes(), at, part, &self.progress.draft.election);
                Verdict::Passes
            }
            Err(kind) => {
                let refusal = self.progress.refusal(&self.row, ReadFault { kind, at });
                watch.refuse(self.row.bytes(), refusal, &self.progress.stage);
                self.refused_by(kind)
            }
        }
    }

    /// Judges the end of the file, where record `at` would stand.
    fn judge_end<W: Watch>(&self, watch: &mut W, at: u32) -> Verdict
        ensures judged { JudgesEnd (place_of self.now.progress) result }
        ensures shown { IsShownRow [] at (place_of self.now.progress) (place_of self.now.progress)
            (W.shown watch.old) (W.shown watch.new) result }
        ensures blame { Blames result None }
    {
        match self.progress.may_end() {
            Ok(()) => Verdict::Done,
            Err(kind) => {
                let refusal = Refusal::of(ReadFault { kind, at });
                watch.refuse(&self.raw, refusal, &self.progress.stage);
                Verdict::Ends(kind)
            }
        }
    }

    /// What comes of a fault of this kind.
    fn refused_by(&self, kind: ReadKind) -> Verdict
        ensures { IsRefusal self.now.progress.stage kind result }
    {
        match kind {
            ReadKind::NoMemory => Verdict::Ends(kind),
            _ if self.progress.leaves_out(kind) => Verdict::LeavesOut(kind),
            _ => Verdict::Ends(kind),
        }
    }
}
