//! Why the desk did not serve a request.

ghost use Rattle.std.specs.Prelude.{◌≡◌};
ghost use Rattle.pb_core.specs.Numbered.{numbered};
ghost use Rattle.pb_desk.specs.contracts.desk_fault.DeskFault.{the_type};
ghost use Rattle.pb_desk.specs.declared.desk_fault.DeskFault.TheVariants as fault;

use pb_core::names::name_at;
use pb_core::no_memory::NoMemory;
use std::alloc::AllocError;
use thiserror::Error;

/// The names of `DeskFault`, in the order of its variants.
pub(crate) const NAMES: [&str; 2] = ["JournalFull", "NoMemory"];

/// Why the desk did not serve a request. Nothing was appended, and nothing changed.
#[derive(Clone, Copy, Debug, PartialEq, Eq, Error)]
pub enum DeskFault {
    /// The journal has as many entries as the desk has room for.
    #[error("the journal is full")]
    JournalFull,
    /// Memory was refused.
    #[error("out of memory")]
    NoMemory,
}

impl From<NoMemory> for DeskFault {
    ghost from_gives = { λ _ e. e ≡ fault.NoMemory };

    fn from(_refused: NoMemory) -> DeskFault {
        DeskFault::NoMemory
    }
}

impl From<AllocError> for DeskFault {
    ghost from_gives = { λ _ e. e ≡ fault.NoMemory };

    fn from(_refused: AllocError) -> DeskFault {
        DeskFault::NoMemory
    }
}

impl DeskFault {
    /// The fault's number, from 1.
    pub fn number(&self) -> u32
        ensures { result ≡ (numbered the_type NAMES self.now).0 }
    {
        *self as u32 + 1
    }

    /// The fault's name.
    pub fn name(&self) -> &'static str
        ensures { result.now ≡ (numbered the_type NAMES self.now).1 }
    {
        name_at(&NAMES, *self as usize)
    }
}
