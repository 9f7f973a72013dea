//! Why a file is refused, and where.

ghost use Rattle.std.specs.Prelude.{◌≡◌};
ghost use Rattle.pb_core.specs.Numbered.{numbered};
ghost use Rattle.pb_read.specs.Kinds.{number_of};
ghost use Rattle.pb_read.specs.contracts.fault.ReadKind.{the_type};

use pb_core::money_fault::MoneyFault;
use pb_core::names::name_at;
use pb_core::no_memory::NoMemory;
use std::alloc::AllocError;
use thiserror::Error;

/// The names of `ReadKind`, in the order of its variants.
pub const NAMES: [&str; 22] = [
    "ReadFailed",
    "NotText",
    "TooManyRecords",
    "NoSection",
    "SectionOrder",
    "NoHeader",
    "MissingColumn",
    "MissingField",
    "MissingKey",
    "VoteType",
    "BadMoney",
    "MoneyTooFine",
    "MoneyTooLarge",
    "ZeroCost",
    "EmptyId",
    "RepeatedProject",
    "RepeatedVoter",
    "UnknownProject",
    "TooManyProjects",
    "TooManyVoters",
    "NoMemory",
    "BadLength",
];

/// Why a file is refused. Within one record the checks run in rising number.
#[derive(Clone, Copy, PartialEq, Eq, Debug, Error)]
pub enum ReadKind {
    /// The reader failed; the records before this one have no fault.
    #[error("the reader failed")]
    ReadFailed,
    /// A field of this record is not UTF-8.
    #[error("a field is not UTF-8")]
    NotText,
    /// This is record 2,000,001.
    #[error("too many records")]
    TooManyRecords,
    /// A section's head was due: the first record that is not blank is none, or the file ends
    /// before META, or while PROJECTS or VOTES is still to come.
    #[error("a section is missing")]
    NoSection,
    /// A section's head that is not the next in order.
    #[error("a section out of order")]
    SectionOrder,
    /// A section's head, or the end of the file, where a header row is due.
    #[error("a section has no header row")]
    NoHeader,
    /// A header row of PROJECTS or VOTES lacks a needed column.
    #[error("a needed column is missing")]
    MissingColumn,
    /// A row of PROJECTS or VOTES ends before a needed column.
    #[error("a needed field is missing")]
    MissingField,
    /// At PROJECTS' head: META lacks `budget` or `vote_type`.
    #[error("a needed key of META is missing")]
    MissingKey,
    /// At PROJECTS' head: the vote type is not `approval`.
    #[error("the vote type is not approval")]
    VoteType,
    /// The budget, at PROJECTS' head, or a project's cost is no money text.
    #[error("an amount is malformed")]
    BadMoney,
    /// The budget or a project's cost is finer than a hundredth.
    #[error("an amount is finer than a hundredth")]
    MoneyTooFine,
    /// The budget or a project's cost is above the largest amount.
    #[error("an amount is too large")]
    MoneyTooLarge,
    /// A project's cost is 0.
    #[error("a project costs nothing")]
    ZeroCost,
    /// A project's or a voter's id is empty.
    #[error("an id is empty")]
    EmptyId,
    /// The project's id stood in an earlier row.
    #[error("a project's id is repeated")]
    RepeatedProject,
    /// The voter's id stood in an earlier row.
    #[error("a voter's id is repeated")]
    RepeatedVoter,
    /// A vote names an id that no project has.
    #[error("a vote names an unknown project")]
    UnknownProject,
    /// The 10,001st project row.
    #[error("too many projects")]
    TooManyProjects,
    /// The 1,000,001st vote row.
    #[error("too many voters")]
    TooManyVoters,
    /// Memory was refused; the records before this one have no fault.
    #[error("out of memory")]
    NoMemory,
    /// At PROJECTS' head: META's `max_length` is no number, perhaps with zeros as decimals, nor empty.
    #[error("the limit on a ballot's length is malformed")]
    BadLength,
}

impl ReadKind {
    ghost use Rattle.pb_read.specs.Inner.MoneyKinds.{kind_of_money};

    /// The kind of an amount's fault.
    pub(crate) fn of_money(fault: MoneyFault) -> ReadKind
        ensures { result ≡ kind_of_money fault }
    {
        match fault {
            MoneyFault::BadMoney => ReadKind::BadMoney,
            MoneyFault::MoneyTooFine => ReadKind::MoneyTooFine,
            MoneyFault::MoneyTooLarge => ReadKind::MoneyTooLarge,
        }
    }

    /// The kind's number, from 1.
    pub fn number(&self) -> u32
        ensures { result ≡ number_of self.now }
    {
        *self as u32 + 1
    }

    /// The kind's name, as fault lines print it.
    pub fn name(&self) -> &'static str
        ensures { result.now ≡ (numbered the_type NAMES self.now).1 }
    {
        name_at(&NAMES, *self as usize)
    }
}

impl From<NoMemory> for ReadKind {
    ghost use Rattle.std.specs.Prelude.{◌≡◌};
    ghost use Rattle.pb_read.specs.declared.fault.ReadKind.TheVariants.{NoMemory};

    ghost from_gives = { λ _ kind. kind ≡ NoMemory };

    fn from(_refused: NoMemory) -> ReadKind {
        ReadKind::NoMemory
    }
}

impl From<AllocError> for ReadKind {
    ghost use Rattle.std.specs.Prelude.{◌≡◌};
    ghost use Rattle.pb_read.specs.declared.fault.ReadKind.TheVariants.{NoMemory};

    ghost from_gives = { λ _ kind. kind ≡ NoMemory };

    fn from(_refused: AllocError) -> ReadKind {
        ReadKind::NoMemory
    }
}

/// A refused file: the kind of its first fault, and the record in which that fault stands.
/// Records are numbered from 1, blank ones too; the end of the file counts as one past the last.
#[derive(Clone, Copy, PartialEq, Eq, Debug, Error)]
#[error("record {at}: {kind}")]
pub struct ReadFault {
    pub kind: ReadKind,
    pub at: u32,
}

impl ReadFault {
    /// The number of its kind, from 1.
    pub fn number(&self) -> u32
        ensures { result ≡ number_of self.now.kind }
    {
        self.kind.number()
    }

    /// The name of its kind, as fault lines print it.
    pub fn name(&self) -> &'static str
        ensures { result.now ≡ (numbered the_type NAMES self.now.kind).1 }
    {
        self.kind.name()
    }
}
