//! Why a count gives no outcome.

ghost use Rattle.std.specs.Prelude.{◌≡◌};
ghost use Rattle.pb_core.specs.Numbered.{numbered};
ghost use Rattle.pb_rounds.specs.contracts.count_fault.CountFault.{the_type};
ghost use Rattle.pb_rounds.specs.declared.count_fault.CountFault.TheVariants as fault;

use pb_core::names::name_at;
use pb_core::no_memory::NoMemory;
use thiserror::Error;

/// The names of `CountFault`, in the order of its variants.
pub const NAMES: [&str; 6] = [
    "WorkerCount",
    "StepRange",
    "RaisesRange",
    "RaisesSpent",
    "NoMemory",
    "TooFine",
];

/// Why a count gives no outcome. The first of these faults that applies is the one that is given.
#[derive(Clone, Copy, Debug, PartialEq, Eq, Error)]
pub enum CountFault {
    /// The number of workers is not 1 to 64.
    #[error("the number of workers is not 1 to 64")]
    WorkerCount,
    /// The step is not 1 to 1,000,000,000 hundredths.
    #[error("the step is not 1 to 1,000,000,000 hundredths")]
    StepRange,
    /// The limit of raises is above 1,000,000.
    #[error("the limit of raises is above 1,000,000")]
    RaisesRange,
    /// No outcome up to the limit of raises was over the budget or exhausted.
    #[error("the raises are spent")]
    RaisesSpent,
    /// An allocation was refused.
    #[error("out of memory")]
    NoMemory,
    /// The largest share that there can be, or a cost, is too large to be counted so finely.
    #[error("the amounts are too large to be counted so finely")]
    TooFine,
}

impl CountFault {
    /// The fault's number, from 1.
    pub fn number(&self) -> u32
        ensures { result ≡ (numbered the_type NAMES self.now).0 }
    {
        *self as u32 + 1
    }

    /// The fault's name.
    pub fn name(&self) -> &'static str
        ensures { result.now ≡ (numbered the_type NAMES self.now).1 }
    {
        name_at(&NAMES, *self as usize)
    }
}

impl From<NoMemory> for CountFault {
    ghost from_gives = { λ _ given. given ≡ fault.NoMemory };

    fn from(_refused: NoMemory) -> CountFault {
        CountFault::NoMemory
    }
}
