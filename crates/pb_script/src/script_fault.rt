//! Why a script is refused.

ghost use Rattle.std.specs.Prelude.{◌≡◌};
ghost use Rattle.pb_core.specs.Numbered.{numbered};
ghost use Rattle.pb_script.specs.ScriptFault.{at_row};
ghost use Rattle.pb_script.specs.contracts.script_fault.ScriptFault.{the_type};

use crate::script::MOST_ROWS;
use pb_core::names::name_at;
use pb_core::no_memory::NoMemory;
use std::alloc::AllocError;
use thiserror::Error;

/// The names of `ScriptFault`, in the order of its variants.
pub const NAMES: [&str; 9] = [
    "ReadFailed",
    "BadRow",
    "TooManyRows",
    "NoMemory",
    "UnknownId",
    "NotOnRoll",
    "TooFew",
    "FromFile",
    "NoShut",
];

/// Why a script was not accepted. The first faulty row decides. Rows have their numbers from 1.
#[derive(Clone, Copy, Debug, PartialEq, Eq, Error)]
pub enum ScriptFault {
    /// The reader failed at this row.
    #[error("the reader failed at row {0}")]
    ReadFailed(u32),
    /// This row has not the form of a script's row, or its clerk is none of this run.
    #[error("row {0} has not the form of a request by a clerk of this run")]
    BadRow(u32),
    /// There are more than 2,000,000 rows.
    #[error("there are too many rows")]
    TooManyRows,
    /// Memory was refused.
    #[error("out of memory")]
    NoMemory,
    /// This row names an id that no project has.
    #[error("row {0} names an id that no project has")]
    UnknownId(u32),
    /// The voter of this row is not on the roll.
    #[error("the voter of row {0} is not on the roll")]
    NotOnRoll(u32),
    /// The ballot of this row has too few projects.
    #[error("the ballot of row {0} has too few projects")]
    TooFew(u32),
    /// The file lists the voter of this row, and the ballots that came with it are kept.
    #[error("the ballot of the voter of row {0} came with the file, and is kept")]
    FromFile(u32),
    /// This row shuts the desk, and no row may.
    #[error("row {0} shuts the desk, and no row may")]
    NoShut(u32),
}

impl From<NoMemory> for ScriptFault {
    ghost use Rattle.std.specs.Prelude.{◌≡◌};
    ghost use Rattle.pb_script.specs.declared.script_fault.ScriptFault.TheVariants as fault;

    ghost from_gives = { λ _ e. e ≡ fault.NoMemory };

    fn from(_refused: NoMemory) -> ScriptFault {
        ScriptFault::NoMemory
    }
}

impl From<AllocError> for ScriptFault {
    ghost use Rattle.std.specs.Prelude.{◌≡◌};
    ghost use Rattle.pb_script.specs.declared.script_fault.ScriptFault.TheVariants as fault;

    ghost from_gives = { λ _ e. e ≡ fault.NoMemory };

    fn from(_refused: AllocError) -> ScriptFault {
        ScriptFault::NoMemory
    }
}

impl ScriptFault {
    /// The fault's number, from 1.
    pub fn number(&self) -> u32
        ensures { result ≡ (numbered the_type NAMES self.now).0 }
    {
        match self {
            ScriptFault::ReadFailed(_) => 1,
            ScriptFault::BadRow(_) => 2,
            ScriptFault::TooManyRows => 3,
            ScriptFault::NoMemory => 4,
            ScriptFault::UnknownId(_) => 5,
            ScriptFault::NotOnRoll(_) => 6,
            ScriptFault::TooFew(_) => 7,
            ScriptFault::FromFile(_) => 8,
            ScriptFault::NoShut(_) => 9,
        }
    }

    /// The fault's name.
    pub fn name(&self) -> &'static str
        ensures { result.now ≡ (numbered the_type NAMES self.now).1 }
    {
        name_at(&NAMES, self.number() as usize - 1)
    }

    /// The number of the row, from 1; 0 where memory was refused, which is the fault of no row.
    pub fn at(&self) -> u32
        ensures { result ≡ at_row self.now }
    {
        match self {
            ScriptFault::ReadFailed(row)
            | ScriptFault::BadRow(row)
            | ScriptFault::UnknownId(row)
            | ScriptFault::NotOnRoll(row)
            | ScriptFault::TooFew(row)
            | ScriptFault::FromFile(row)
            | ScriptFault::NoShut(row) => *row,
            ScriptFault::TooManyRows => MOST_ROWS + 1,
            ScriptFault::NoMemory => 0,
        }
    }
}
