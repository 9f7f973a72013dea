//! What is accepted in a file, and probably not meant.

ghost use Rattle.std.specs.Prelude.{◌≡◌};
ghost use Rattle.pb_core.specs.Numbered.{numbered};
ghost use Rattle.pb_read.specs.contracts.warning.Oddity.{the_type};

use pb_core::names::name_at;

/// The names of `Oddity`, in the order of its variants.
pub const NAMES: [&str; 27] = [
    "VotesMissing",
    "ProjectsMissing",
    "SurplusFields",
    "TooLongBallot",
    "TooShortBallot",
    "EmptyBallot",
    "NoSupporter",
    "OverBudget",
    "CommaInId",
    "ThousandsMark",
    "RepeatedKey",
    "FooterRow",
    "VotesOf",
    "SelectedOf",
    "BudgetBelowCosts",
    "NoteRows",
    "SwallowedRows",
    "IdBehindVote",
    "TwiceInVote",
    "RepeatedColumn",
    "VotesWithPoints",
    "ValidColumn",
    "DistrictBudgets",
    "CutName",
    "HiddenCharacter",
    "BudgetAboveCosts",
    "SeveralBallots",
];

/// What is accepted in a file, and probably not meant, in the order in which warnings are written.
#[derive(Clone, Copy, PartialEq, Eq, Debug)]
pub enum Oddity {
    /// META's `num_votes` is not the number of votes.
    VotesMissing,
    /// META's `num_projects` is not the number of projects.
    ProjectsMissing,
    /// A vote has more fields than the row of column names, or META's budget has a further amount behind it.
    SurplusFields,
    /// A ballot approves more projects than META's `max_length`.
    TooLongBallot,
    /// A ballot approves fewer projects than META's `min_length`.
    TooShortBallot,
    /// A ballot approves nothing.
    EmptyBallot,
    /// Nobody approves a project.
    NoSupporter,
    /// A project costs more than the budget.
    OverBudget,
    /// A project's id has a comma, so no vote can name it.
    CommaInId,
    /// An amount has exactly three digits behind its mark, and is read as decimals.
    ThousandsMark,
    /// A key of META that the count uses is repeated; the last value counts.
    RepeatedKey,
    /// The first or last row of PROJECTS, or the last of VOTES, looks like a sum or a note.
    FooterRow,
    /// The column `votes` has another number than that of the ballots that approve the project.
    VotesOf,
    /// The column `selected` says of a project what a count does not.
    SelectedOf,
    /// The budget is less than every cost.
    BudgetBelowCosts,
    /// Rows of VOTES without a vote look like notes: the last two or more, or others by their ids.
    NoteRows,
    /// A field in quotation marks has lines in it that look like rows, or META's row of column names is one.
    SwallowedRows,
    /// A field behind the vote, or any field of a row without a vote, has a project's id.
    IdBehindVote,
    /// A vote names a project twice; it counts once.
    TwiceInVote,
    /// A needed column stands twice in a row of column names; the first counts.
    RepeatedColumn,
    /// VOTES has a column of points, which no count reads.
    VotesWithPoints,
    /// A column says which rows are valid, and no count reads it.
    ValidColumn,
    /// META has further budgets, which no count reads.
    DistrictBudgets,
    /// A row of PROJECTS has more fields than there are column names, so a name was probably cut; or it has a
    /// list of ids, as a vote has.
    CutName,
    /// The id of a voter is that of another but for characters at its ends that can't be seen.
    HiddenCharacter,
    /// All costs together are less than a hundredth of the budget.
    BudgetAboveCosts,
    /// VOTES has a column that says how many ballots a row is, which no count reads.
    SeveralBallots,
}

impl Oddity {
    /// Its name, as rows and fault lines print it.
    pub fn name(&self) -> &'static str
        ensures { result.now ≡ (numbered the_type NAMES self.now).1 }
    {
        name_at(&NAMES, *self as usize)
    }
}

/// A warning: what is odd, and in which record.
#[derive(Clone, Copy, PartialEq, Eq, Debug)]
pub struct Warning {
    pub oddity: Oddity,
    /// The number of the record, from 1.
    pub at: u64,
}

/// A row of a list of warnings.
#[derive(Clone, Copy)]
pub enum WarningRow {
    /// A warning.
    Of(Warning),
    /// So many more of the name are not listed.
    MoreOf(Oddity, u64),
}
