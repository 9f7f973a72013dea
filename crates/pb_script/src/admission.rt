//! Which requests are admitted, and how their rows name projects.

ghost use Rattle.std.specs.FinMap.{get};
ghost use Rattle.std.specs.Option.{option_map_or};
ghost use Rattle.std.specs.Prelude.{◌≡◌, false, is_some, Some, true};
ghost use Rattle.pb_core.specs.Request.{asked};
ghost use Rattle.pb_read.specs.Rows.{field};
ghost use Rattle.pb_rows.specs.Reading.{Fields};
ghost use Rattle.pb_script.specs.Admission.{broken_rule, open_to_all, refusal_of};
ghost use Rattle.pb_script.specs.Inner.Admission.{broken_for, has_enough, knows_ids};
ghost use Rattle.pb_script.specs.ScriptReading.{fault_of_row};

use crate::script_fault::ScriptFault;
use csv::StringRecord;
use pb_core::answer::Answer;
use pb_core::request::Request;
use pb_desk::request_fields::{brought, voter_of};
use pb_ids::IdTable;
use pb_read::ProjectIds;

/// Which requests are admitted, and how their rows name projects.
#[derive(Drop)]
pub struct Admission {
    /// The ids by which rows name projects; with none they name them by their places.
    pub ids: Option<ProjectIds>,
    /// The voters' roll; with none a request may be for anybody.
    pub roll: Option<IdTable>,
    /// How many projects a ballot has at least.
    pub least: u32,
    /// The voters of the file, for whom no request is admitted; where it is None there may be one for anybody.
    pub kept: Option<IdTable>,
    /// Whether a request may shut the desk.
    pub may_shut: bool,
}

/// Why a row is refused, and changes nothing.
#[derive(Clone, Copy, Debug, PartialEq, Eq)]
pub enum RowRefusal {
    /// It has not the form of a script's row, or its clerk is none of this run.
    Bad,
    /// It names an id that no project has.
    UnknownId,
    /// Its voter is not on the roll.
    NotOnRoll,
    /// Its ballot has too few projects.
    TooFew,
    /// The ballot of its voter came with the file, and is kept.
    FromFile,
    /// It shuts the desk, and no request may.
    NoShut,
}

impl RowRefusal {
    /// The fault of a script with this row, from 1.
    pub fn of_row(self, row: u32) -> ScriptFault
        ensures { result ≡ fault_of_row self row }
    {
        match self {
            RowRefusal::Bad => ScriptFault::BadRow(row),
            RowRefusal::UnknownId => ScriptFault::UnknownId(row),
            RowRefusal::NotOnRoll => ScriptFault::NotOnRoll(row),
            RowRefusal::TooFew => ScriptFault::TooFew(row),
            RowRefusal::FromFile => ScriptFault::FromFile(row),
            RowRefusal::NoShut => ScriptFault::NoShut(row),
        }
    }
}

/// Whoever hears of the rows that are refused, and of the answers to the others.
pub trait Notice {
    /// The row with this number, from 1, is refused; `unknown` is the id that no project has, where that is
    /// why.
    fn refused(&self, row: u64, why: RowRefusal, unknown: &str);

    /// An entry of the journal has this answer.
    fn answered(&self, answer: Answer);
}

/// Nobody listens.
#[derive(Clone, Copy, Debug)]
pub struct NoNotice;

impl Notice for NoNotice {
    fn refused(&self, _row: u64, _why: RowRefusal, _unknown: &str) {}

    fn answered(&self, _answer: Answer) {}
}

impl Admission {
    /// All requests are admitted, and name projects by their places.
    pub fn open() -> Admission
        ensures { result ≡ open_to_all }
    {
        Admission {
            ids: None,
            roll: None,
            least: 0,
            kept: None,
            may_shut: true,
        }
    }

    /// The same requests are admitted, and name projects by these ids.
    pub fn by_ids(self, ids: ProjectIds) -> Admission
        ensures { result ≡ record self { ids = Some ids } }
    {
        let Admission {
            ids: before,
            roll,
            least,
            kept,
            may_shut,
        } = self;
        drop(before);
        Admission {
            ids: Some(ids),
            roll,
            least,
            kept,
            may_shut,
        }
    }

    /// The same requests are admitted, but none for these voters.
    pub fn keeping(self, voters: IdTable) -> Admission
        ensures { result ≡ record self { kept = Some voters } }
    {
        let Admission {
            ids,
            roll,
            least,
            kept: before,
            may_shut,
        } = self;
        drop(before);
        Admission {
            ids,
            roll,
            least,
            kept: Some(voters),
            may_shut,
        }
    }

    /// The first id of a row that no project has; empty where there is none. It is looked up by way of
    /// `list`.
    pub(crate) fn unknown_in<'a>(&self, row: &'a StringRecord, list: &mut Vec<u32>) -> &'a str {
        let (Some(ids), Some(field)) = (&self.ids, row.get(3)) else {
            return "";
        };
        for id in field.split(',') {
            if let Ok(false) = ids.find_places(id, list) {
                return id.trim();
            }
        }
        ""
    }

    /// Why a request is refused, where it is; `is_known` says whether each id that it names is a project's.
    pub(crate) fn refusal_of(&self, is_known: bool, request: &Request) -> Option<RowRefusal>
        ensures { (row : Fields) → is_known ≡ knows_ids self.now.ids (field row 3)
            → result ≡ refusal_of self.now row (asked request.now) }
    {
        if is_known {
            self.broken_rule(request)
        } else {
            Some(RowRefusal::UnknownId)
        }
    }

    /// The first rule of the desk that a request breaks, if it breaks one.
    fn broken_rule(&self, request: &Request) -> Option<RowRefusal>
        ensures { result ≡ broken_rule self.now (asked request.now) }
    {
        match request {
            Request::Shut => {
                if self.may_shut {
                    None
                } else {
                    Some(RowRefusal::NoShut)
                }
            }
            _ => self.broken_for(voter_of(request), self.has_enough(request)),
        }
    }

    /// Whether the ballot that a request brings, if it brings one, has enough projects.
    fn has_enough(&self, request: &Request) -> bool
        ensures { result ≡ has_enough self.now.least (asked request.now) }
    {
        match brought(request) {
            Some((_voter, ballot)) => ballot.places().len() >= self.least as usize,
            None => true,
        }
    }

    /// The same for a request of the voter with this id, whose ballot, if it has one, has enough projects or
    /// not.
    fn broken_for(&self, voter: &str, has_enough: bool) -> Option<RowRefusal>
        ensures { result ≡ broken_for self.now voter.now has_enough }
    {
        if !self.is_on_roll(voter) {
            Some(RowRefusal::NotOnRoll)
        } else if !has_enough {
            Some(RowRefusal::TooFew)
        } else if self.keeps(voter) {
            Some(RowRefusal::FromFile)
        } else {
            None
        }
    }

    /// Whether the voter with this id is on the roll; without a roll each is.
    fn is_on_roll(&self, voter: &str) -> bool
        ensures { result ≡ option_map_or (λ roll. is_some (get roll voter.now)) self.now.roll true }
    {
        match &self.roll {
            Some(roll) => roll.get(voter).is_some(),
            None => true,
        }
    }

    /// Whether the voter with this id is one of the file, for whom no request is taken.
    fn keeps(&self, voter: &str) -> bool
        ensures { result ≡ option_map_or (λ kept. is_some (get kept voter.now)) self.now.kept false }
    {
        match &self.kept {
            Some(kept) => kept.get(voter).is_some(),
            None => false,
        }
    }
}
