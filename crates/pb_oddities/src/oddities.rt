//! What is accepted in a .pb file and probably not meant, as it is found.

ghost use Rattle.std.specs.Prelude.{◌≡◌, ◌≢◌, ◌<◌, ℕ, if◌then◌else◌, nat_eq, nat_lt, slice_index};
ghost use Rattle.std.specs.Prelude.{find};
ghost use Rattle.std.specs.Option.{option_map};
ghost use denote.Enum.Declared.{tag_of};
ghost use Rattle.pb_read.specs.contracts.warning.Oddity.{the_type};

use crate::prelude::*;
use pb_core::no_memory::NoMemory;
use pb_read::{Warning, WarningRow};

/// The kinds in the order in which a check lists them. Where no record is named behind a kind, its record is
/// the row of the project or the voter that it is about.
const LISTED: [Oddity; 27] = [
    Oddity::VotesMissing, // META's row, or the last one
    Oddity::ProjectsMissing, // META's row
    Oddity::SurplusFields,
    Oddity::TooLongBallot,
    Oddity::TooShortBallot,
    Oddity::EmptyBallot,
    Oddity::NoSupporter,
    Oddity::OverBudget,
    Oddity::CommaInId,
    Oddity::ThousandsMark, // the project's row, or META's
    Oddity::RepeatedKey, // META's row, or the project's
    Oddity::FooterRow,
    Oddity::VotesOf,
    Oddity::SelectedOf,
    Oddity::BudgetBelowCosts, // META's row
    Oddity::NoteRows, // the first of these rows
    Oddity::SwallowedRows, // the row with such a field, in any section
    Oddity::IdBehindVote, // once a column: its first row with an id
    Oddity::TwiceInVote,
    Oddity::RepeatedColumn, // the row of column names
    Oddity::VotesWithPoints, // the row of column names
    Oddity::ValidColumn, // once a column: the first row that differs from the section's first
    Oddity::DistrictBudgets, // the first of these rows of META
    Oddity::CutName,
    Oddity::HiddenCharacter,
    Oddity::BudgetAboveCosts, // META's row
    Oddity::SeveralBallots, // the row of column names, or once a column the first row that repeats a number
];

/// The kinds that can change a result, in the order in which a count tells them; `--strict` refuses the
/// first.
const TOLD: [Oddity; 23] = [
    Oddity::VotesMissing,
    Oddity::ProjectsMissing,
    Oddity::SurplusFields,
    Oddity::CommaInId,
    Oddity::ThousandsMark,
    Oddity::RepeatedKey,
    Oddity::FooterRow,
    Oddity::TooLongBallot,
    Oddity::TooShortBallot,
    Oddity::VotesOf,
    Oddity::BudgetBelowCosts,
    Oddity::NoteRows,
    Oddity::SwallowedRows,
    Oddity::IdBehindVote,
    Oddity::TwiceInVote,
    Oddity::RepeatedColumn,
    Oddity::VotesWithPoints,
    Oddity::ValidColumn,
    Oddity::DistrictBudgets,
    Oddity::CutName,
    Oddity::HiddenCharacter,
    Oddity::BudgetAboveCosts,
    Oddity::SeveralBallots,
];

/// How many kinds there are.
const COUNT: usize = LISTED.len();

/// The most warnings of one kind that a check lists.
pub const MOST: u64 = 100;

/// The most texts that no count reads of which words speak: as many as a section has columns that are looked at.
const MOST_UNREAD: usize = 100;

/// What a row is of.
#[derive(Clone, Copy, PartialEq, Eq)]
pub enum Subject {
    Key,
    /// A row of column names is about one of them.
    Column,
    Project,
    Voter,
}

impl Subject {
    /// What words call it.
    pub fn word(self) -> &'static str {
        match self {
            Subject::Key => "key",
            Subject::Column => "column",
            Subject::Project => "project",
            Subject::Voter => "voter",
        }
    }
}

/// A record that is odd, with what words need to speak of it.
#[derive(Clone, Copy)]
pub struct Odd {
    pub oddity: Oddity,
    /// Which of the ways it is in which a record can be odd so, from 0.
    pub form: usize,
    /// Where the record begins.
    pub mark: Mark,
    /// What its row is of.
    pub subject: Subject,
    /// The places of its id and of the value that is spoken of.
    pub id_place: usize,
    pub value_place: usize,
    /// What it is measured by, as how many rows there are.
    pub number: u64,
    /// What the number should not pass, or should be, where META says so.
    pub limit: Option<u64>,
    /// The earlier row that it repeats, or differs from.
    pub before: Option<Mark>,
    /// The row of column names, where words name a column.
    pub names: Option<Mark>,
}

impl Odd {
    /// A row that is odd, with its id and its value at these places.
    fn of(oddity: Oddity, mark: Mark, subject: Subject, places: (usize, usize)) -> Odd {
        Odd {
            oddity,
            form: 0,
            mark,
            subject,
            id_place: places.0,
            value_place: places.1,
            number: 0,
            limit: None,
            before: None,
            names: None,
        }
    }

    /// A row of META that is odd.
    pub fn of_key(oddity: Oddity, mark: Mark) -> Odd {
        Odd::of(oddity, mark, Subject::Key, (0, 1))
    }

    /// A row of column names that is odd for the one at this place.
    pub fn of_column(oddity: Oddity, mark: Mark, place: usize) -> Odd {
        Odd::of(oddity, mark, Subject::Column, (place, place))
    }

    /// A row of this part that is odd.
    pub fn of_row(oddity: Oddity, mark: Mark, part: Part) -> Odd {
        match part {
            Part::Project(columns) => {
                Odd::of(oddity, mark, Subject::Project, (columns.id, columns.cost))
            }
            Part::Vote(columns) => {
                Odd::of(oddity, mark, Subject::Voter, (columns.voter, columns.vote))
            }
            _ => Odd::of_key(oddity, mark),
        }
    }

    /// The same row as odd in another way.
    pub fn as_a(self, oddity: Oddity) -> Odd {
        Odd { oddity, ..self }
    }

    /// The same, odd so in this form.
    pub fn in_form(self, form: usize) -> Odd {
        Odd { form, ..self }
    }

    /// The same, odd for the value at this place.
    pub fn at(self, value_place: usize) -> Odd {
        Odd {
            value_place,
            ..self
        }
    }

    /// The same, of a column whose name stands in this row.
    pub fn named_in(self, names: Mark) -> Odd {
        Odd {
            names: Some(names),
            ..self
        }
    }

    /// The same, which repeats this earlier one.
    pub fn repeats(self, earlier: Odd) -> Odd {
        Odd {
            before: Some(earlier.mark),
            ..self
        }
    }

    /// The same, measured by this number.
    pub fn by(self, number: u64) -> Odd {
        Odd { number, ..self }
    }

    /// The first of several rows that are odd so, measured by how many there are: it, or the one before it.
    pub fn behind(self, before: Option<Odd>) -> Odd {
        let first = before.unwrap_or(self.by(0));
        first.by(first.number.saturating_add(1))
    }
}

/// What was found: so many odd records of each kind at most, and how many there are of each.
#[derive(Drop)]
pub struct Oddities {
    alloc: Global,
    /// The kinds that are told, in their order.
    pub kinds: &'static [Oddity],
    most: u64,
    found: Vec<Odd>,
    /// Texts that no count reads, of which words alone speak: no row of a check names them.
    pub unread: Vec<Odd>,
    counts: [u64; COUNT],
    firsts: [u64; COUNT],
    /// Whether the file has no row of VOTES, as that of a desk that has not opened.
    pub has_no_votes: bool,
    /// Whether META says how many rows VOTES has.
    pub has_number: bool,
    /// Whether a row of VOTES was refused, which may have named a project that no other row names.
    pub refuses_votes: bool,
    /// Whether the budget or a cost has one or two decimals.
    pub has_decimals: bool,
    /// Whether `min_length` is more than `max_length`.
    pub has_no_length: bool,
    /// How many voters the file has.
    pub voters: u64,
    /// How many ballots are too long or too short by what their projects cost together, and not by their
    /// number.
    pub costly: u64,
    is_whole: bool,
}

impl Oddities {
    /// For a check, which lists all kinds. Nothing was found yet.
    pub fn of_check(alloc: Global) -> Oddities {
        Oddities::new(alloc, &LISTED, MOST)
    }

    /// For a count, which tells once of each kind that can change its result. Nothing was found yet.
    pub fn of_count(alloc: Global) -> Oddities {
        Oddities::new(alloc, &TOLD, 1)
    }

    fn new(alloc: Global, kinds: &'static [Oddity], most: u64) -> Oddities {
        Oddities {
            alloc,
            kinds,
            most,
            found: Vec::new(alloc),
            unread: Vec::new(alloc),
            counts: [0; COUNT],
            firsts: [0; COUNT],
            has_no_votes: false,
            has_number: false,
            refuses_votes: false,
            has_decimals: false,
            has_no_length: false,
            voters: 0,
            costly: 0,
            is_whole: true,
        }
    }

    /// Whether a kind is told.
    pub fn tells(&self, oddity: Oddity) -> bool {
        self.kinds.contains(&oddity)
    }

    /// Takes an odd record. The first of its kind that is taken stays; of other kinds nothing changes.
    pub fn take(&mut self, odd: Odd)
        ensures first { slice_index self.new.firsts (tag_of the_type odd.oddity)
            ≡ (if nat_eq (slice_index self.old.counts (tag_of the_type odd.oddity)) 0
            then odd.mark.at else slice_index self.old.firsts (tag_of the_type odd.oddity)) }
        ensures counted { 0 < slice_index self.new.counts (tag_of the_type odd.oddity) }
        ensures others { (kind : ℕ) → kind ≢ tag_of the_type odd.oddity
            → (slice_index self.new.firsts kind ≡ slice_index self.old.firsts kind)
            × (slice_index self.new.counts kind ≡ slice_index self.old.counts kind) }
        ensures kinds { self.new.kinds ≡ self.old.kinds }
    {
        let place = odd.oddity as usize;
        if self.counts[place] == 0 {
            self.firsts[place] = odd.mark.at;
        }
        self.counts[place] = self.counts[place].saturating_add(1);
        if self.counts[place] <= self.most && self.found.push(odd).is_err() {
            self.is_whole = false;
        }
    }

    /// Gives those of a kind that are odd in the first of these forms the second.
    pub fn reform(&mut self, oddity: Oddity, forms: (usize, usize))
        ensures firsts { self.new.firsts ≡ self.old.firsts }
        ensures counts { self.new.counts ≡ self.old.counts }
        ensures kinds { self.new.kinds ≡ self.old.kinds }
    {
        let (before, form) = forms;
        for odd in self.found.iter_mut() {
            if odd.oddity == oddity && odd.form == before {
                odd.form = form;
            }
        }
    }

    /// Whether it is kept that this record is odd so, in any form.
    pub fn tells_of(&self, odd: Odd) -> bool {
        let is_it = |other: &Odd| other.oddity == odd.oddity && other.mark.at == odd.mark.at;
        self.found.iter().any(is_it)
    }

    /// Takes an odd record, if there is one.
    pub fn take_some(&mut self, odd: Option<Odd>)
        ensures kinds { self.new.kinds ≡ self.old.kinds }
    {
        if let Some(odd) = odd {
            self.take(odd);
        }
    }

    /// Takes a text that no count reads, unless its column or key is odd otherwise.
    pub fn take_unread(&mut self, odd: Odd) -> Result<(), AllocError>
        ensures firsts { self.new.firsts ≡ self.old.firsts }
        ensures counts { self.new.counts ≡ self.old.counts }
        ensures kinds { self.new.kinds ≡ self.old.kinds }
    {
        let is_it = |other: &Odd| match (other.names, odd.names) {
            (Some(one), Some(names)) => one.at == names.at && other.value_place == odd.value_place,
            (None, None) => other.mark.at == odd.mark.at,
            _ => false,
        };
        if self.unread.len() < MOST_UNREAD && !self.found.iter().any(is_it) {
            self.unread.push(odd)?;
        }
        Ok(())
    }

    /// Takes these, by where they stand.
    pub fn take_in_order(&mut self, mut all: Vec<Odd>) -> Result<(), AllocError> {
        let sorted = all.sort_by_key(|odd: &Odd| odd.mark.at);
        for odd in &all {
            self.take(*odd);
        }
        drop(all);
        sorted
    }

    /// Says that memory was refused.
    pub fn fail(&mut self)
        ensures firsts { self.new.firsts ≡ self.old.firsts }
        ensures counts { self.new.counts ≡ self.old.counts }
        ensures kinds { self.new.kinds ≡ self.old.kinds }
    {
        self.is_whole = false;
    }

    /// Whether no memory was refused.
    pub fn is_whole(&self) -> bool {
        self.is_whole
    }

    /// Whether there are any of a kind.
    pub fn has(&self, oddity: Oddity) -> bool
        ensures { result ≡ nat_lt 0 (slice_index self.now.counts (tag_of the_type oddity)) }
    {
        self.counts[oddity as usize] > 0
    }

    /// How many there are of a kind.
    pub fn count(&self, oddity: Oddity) -> u64 {
        self.counts[oddity as usize]
    }

    /// Whether a check lists them, and not a count that tells of each kind once.
    pub fn is_of_check(&self) -> bool {
        self.most == MOST
    }

    /// How many there are of a kind beyond those that are kept.
    pub fn more(&self, oddity: Oddity) -> u64 {
        self.counts[oddity as usize].saturating_sub(self.most)
    }

    /// Those that are kept, in the order in which they were found.
    pub fn found(&self) -> &[Odd] {
        self.found.as_slice()
    }

    /// The first of the first kind that is told.
    pub fn first(&self) -> Option<Warning>
        ensures { result ≡ option_map (λ oddity. record {
          oddity = oddity;
          at = slice_index self.now.firsts (tag_of the_type oddity);
        })
            (find (λ oddity. nat_lt 0 (slice_index self.now.counts (tag_of the_type oddity)))
            self.now.kinds.now) }
    {
        let oddity = *self.kinds.iter().find(|oddity| self.has(**oddity))?;
        let at = self.firsts[oddity as usize];
        Some(Warning { oddity, at })
    }

    /// The rows of all, by their kinds, with how many more there are of each.
    pub fn rows(&self) -> Result<Vec<WarningRow>, NoMemory> {
        let mut rows = Vec::new(self.alloc);
        for oddity in self.kinds.iter().copied() {
            for odd in self.found.iter().filter(|odd| odd.oddity == oddity) {
                let at = odd.mark.at;
                rows.push(WarningRow::Of(Warning { oddity, at }))?;
            }
            let more = self.more(oddity);
            if more > 0 {
                rows.push(WarningRow::MoreOf(oddity, more))?;
            }
        }
        if self.is_whole {
            Ok(rows)
        } else {
            Err(NoMemory)
        }
    }
}
