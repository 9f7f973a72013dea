//! Why a desk was not shared.

use pb_core::names::name_at;
use pb_desk::desk::Desk;
use std::fmt;
use thiserror::Error;

/// The names of `ShareFault`, in the order of its variants.
pub(crate) const NAMES: [&str; 2] = ["ClerkCount", "NoMemory"];

/// Why a desk was not shared. It carries the desk back, unchanged.
#[derive(Drop, Error)]
pub enum ShareFault {
    /// The number of clerks is not 1 to `MOST_CLERKS`.
    #[error("the number of clerks is not 1 to 64")]
    ClerkCount(Desk),
    /// Memory was refused.
    #[error("out of memory")]
    NoMemory(Desk),
}

impl fmt::Debug for ShareFault {
    fn fmt<W: fmt::Write>(&self, f: &mut fmt::Formatter<W>) -> fmt::Result {
        f.write_str(self.name())
    }
}

impl ShareFault {
    ghost use Rattle.std.specs.Prelude.{◌≡◌};
    ghost use Rattle.pb_core.specs.Numbered.{numbered};
    ghost use Rattle.pb_shared.specs.contracts.share_fault.ShareFault.{the_type};

    /// The fault's number, from 1.
    pub fn number(&self) -> u32
        ensures { result ≡ (numbered the_type NAMES self.now).0 }
    {
        match self {
            ShareFault::ClerkCount(_) => 1,
            ShareFault::NoMemory(_) => 2,
        }
    }

    /// The fault's name.
    pub fn name(&self) -> &'static str
        ensures { result.now ≡ (numbered the_type NAMES self.now).1 }
    {
        name_at(&NAMES, self.number() as usize - 1)
    }
}
