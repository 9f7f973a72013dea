//! Why a request was not served on a shared desk.

ghost use Rattle.std.specs.Prelude.{◌≡◌};
ghost use Rattle.pb_core.specs.Numbered.{numbered};
ghost use Rattle.pb_shared.specs.contracts.shared_fault.SharedFault.{the_type};

use pb_core::names::name_at;
use thiserror::Error;

/// The names of `SharedFault`, in the order of its variants.
pub(crate) const NAMES: [&str; 3] = ["Busy", "JournalFull", "NoMemory"];

/// Why a request was not served on a shared desk. Nothing was appended.
#[derive(Clone, Copy, Debug, PartialEq, Eq, Error)]
pub enum SharedFault {
    /// The clerk with this number held the lock at the call's last exchange.
    #[error("clerk {0} holds the lock")]
    Busy(u32),
    /// The journal has as many entries as the desk has room for.
    #[error("the journal is full")]
    JournalFull,
    /// Memory was refused.
    #[error("out of memory")]
    NoMemory,
}

impl SharedFault {
    /// The fault's number, from 1.
    pub fn number(&self) -> u32
        ensures { result ≡ (numbered the_type NAMES self.now).0 }
    {
        match self {
            SharedFault::Busy(_) => 1,
            SharedFault::JournalFull => 2,
            SharedFault::NoMemory => 3,
        }
    }

    /// The fault's name.
    pub fn name(&self) -> &'static str
        ensures { result.now ≡ (numbered the_type NAMES self.now).1 }
    {
        name_at(&NAMES, self.number() as usize - 1)
    }
}
