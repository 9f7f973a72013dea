//! Who looks on while a file is read.

ghost use Rattle.std.specs.Prelude.{◌≡◌, ◌∷◌, ℕ, List, map, Option, Some, IfOk, IfSome, OnOk};
ghost use Rattle.std.specs.Str.{trim};
ghost use Rattle.csv.specs.Records.{fields_of};
ghost use Rattle.pb_read.specs.Shown.{Sight, ended, refused, seen};
ghost use Rattle.pb_read.specs.declared.warning.Warning.{Warning};
ghost use Rattle.pb_read.specs.declared.warning.WarningRow.{WarningRow};

use crate::columns::{ProjectColumns, VoteColumns};
use crate::progress::Stage;
use crate::refusal::Refusal;
use crate::section::Section;
use crate::warning::{Warning, WarningRow};
use csv::ByteRecord;
use pb_core::election::Election;
use pb_core::no_memory::NoMemory;

/// What a record of a file is, by where it stands.
#[derive(Clone, Copy)]
pub enum Part {
    /// Neither a row nor a head: it is blank. One that comes before META is refused.
    Other,
    /// The head of this section.
    Head(Section),
    /// The row of column names of this section.
    Names(Section),
    /// A row of META: a key and its value.
    Key,
    /// A row of PROJECTS, with the places of its columns.
    Project(ProjectColumns),
    /// A row of VOTES, with the places of its columns.
    Vote(VoteColumns),
}

/// Who looks on while a file is read. It is only shown what the reader reads, so it changes nothing of it.
pub trait Watch {
    ghost use Rattle.std.specs.Prelude.{None};

    /// What it was shown, where it says so; the last comes first.
    ghost shown: { Self → Option (List Sight) } = { λ _. None };

    /// Sees the record with this number, from 1, as it stands in the file, and what it is. The reader has
    /// accepted it: a row of PROJECTS or of VOTES is the last project or voter of the election so far.
    fn see(&mut self, record: &ByteRecord, at: u32, part: Part, election: &Election)
        ensures shown { IfSome (shown self.old) (λ old. shown self.new
            ≡ Some (seen at (map trim (fields_of record.now)) election.now ∷ old)) };

    /// Sees the record that the reader refuses, why, and how far the file was read before it. The record has
    /// no field where there is none: the file ends, or its reader failed.
    fn refuse(&mut self, record: &ByteRecord, refusal: Refusal, stage: &Stage)
        ensures shown { IfSome (shown self.old) (λ old. shown self.new ≡ Some (refused refusal ∷ old)) };

    /// Learns that the file has ended, and may end there: all of its rows were shown, and those that were
    /// accepted gave this election.
    fn end(&mut self, election: &Election)
        ensures shown { IfSome (shown self.old) (λ old. shown self.new ≡ Some (ended election.now ∷ old)) };
}

/// Who looks on at a check, and then warns.
pub trait Warn: Watch {
    /// It has answered these as its warnings.
    ghost warns: { Self → List WarningRow → Type 0 };

    /// The warnings of what was seen, in the order in which they are written.
    fn warnings(&mut self) -> Result<Vec<WarningRow>, NoMemory>
        ensures rows { IfOk result (λ rows. warns self.new rows.items) }
        ensures shown { Self.shown self.new ≡ Self.shown self.old };
}

/// Who looks on at a check, and then also warns of claims in the file that differ from a count.
pub trait Compare: Warn {
    /// It has compared what the file claims with these winners: places of projects, from 0.
    ghost has_compared: { Self → List ℕ → Type 0 };

    /// The warnings of what was seen, and of each claim that differs from these winners, in the order in
    /// which they are written. The winners are the places of the elected, in order of election, and then of
    /// the added in theirs.
    fn warnings_beside(&mut self, winners: &[u32]) -> Result<Vec<WarningRow>, NoMemory>
        ensures compared { OnOk result (has_compared self.new winners.now) }
        ensures rows { IfOk result (λ rows. Self.warns self.new rows.items) }
        ensures shown { Self.shown self.new ≡ Self.shown self.old };
}

/// Who looks on at the file of a count, and may refuse it for a warning.
pub trait Heed: Watch {
    /// The warning for which it refuses what it saw, if there is one.
    ghost refused_for: { Self → Option Warning };

    /// The warning for which it refuses what it saw, if there is one.
    fn refusal(&self) -> Option<Warning>
        ensures { result ≡ refused_for self.now };
}

/// Nobody looks on.
#[derive(Clone, Copy)]
pub struct NoWatch;

impl Watch for NoWatch {
    fn see(&mut self, _record: &ByteRecord, _at: u32, _part: Part, _election: &Election) {}

    fn refuse(&mut self, _record: &ByteRecord, _refusal: Refusal, _stage: &Stage) {}

    fn end(&mut self, _election: &Election) {}
}

impl Heed for NoWatch {
    ghost use Rattle.std.specs.Prelude.{None};

    ghost refused_for = { λ _. None };

    fn refusal(&self) -> Option<Warning> {
        None
    }
}
