//! Why a run ends without a result.

use pb_faults::{AppFault, PageRefusal, WordsRefusal};
use pb_words::Said;
use std::alloc::AllocError;
use std::io::{Error, ErrorKind};

/// What programs are told of a run without a result.
#[derive(Clone, Copy)]
pub enum End {
    /// The line of this fault, and its status.
    Fault(AppFault),
    /// The line of a refused file with the words of a page, and its status.
    Words(WordsRefusal),
    /// The line of a published page that is not the one that was made, and its status.
    Page(PageRefusal),
    /// The status of refused arguments alone.
    Arguments,
}

/// Why a run ends without a result.
#[derive(Drop)]
pub enum RunRefusal {
    /// This fault tells it, also to people.
    Fault(AppFault),
    /// Programs are told this, and people in these words.
    Told(End, Result<String, AllocError>),
}

impl RunRefusal {
    /// A call of the system has failed, of which people are told in these words; refused memory is `Memory`.
    pub fn of_call(error: &Error, fault: AppFault, words: Said) -> RunRefusal {
        if error.kind() == ErrorKind::OutOfMemory {
            drop(words);
            return RunRefusal::Fault(AppFault::Memory);
        }
        RunRefusal::Told(End::Fault(fault), words)
    }

    /// What programs are told.
    pub fn end(&self) -> End {
        match self {
            RunRefusal::Fault(fault) => End::Fault(*fault),
            RunRefusal::Told(end, _) => *end,
        }
    }
}

impl From<AppFault> for RunRefusal {
    ghost use Rattle.std.specs.Prelude.{◌≡◌};
    ghost use Rattle.pb_streams.specs.declared.run_refusal.RunRefusal.TheVariants.{Fault};

    ghost from_gives = { λ fault refusal. refusal ≡ Fault fault };

    fn from(fault: AppFault) -> RunRefusal {
        RunRefusal::Fault(fault)
    }
}
