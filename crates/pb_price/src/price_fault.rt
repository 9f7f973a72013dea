//! Why a list of projects gets no prices.

ghost use Rattle.std.specs.Prelude.{◌≡◌};
ghost use Rattle.pb_core.specs.Numbered.{numbered};
ghost use Rattle.pb_price.specs.contracts.price_fault.PriceFault.{the_type};
ghost use Rattle.pb_price.specs.declared.price_fault.PriceFault.TheVariants as fault;

use pb_core::names::name_at;
use pb_core::no_memory::NoMemory;
use std::alloc::{AllocError, AllocFailed};
use thiserror::Error;

/// The names of `PriceFault`, in the order of its variants.
pub(crate) const NAMES: [&str; 2] = ["WorkerCount", "NoMemory"];

/// Why `price_all` gives no prices. The first of these faults that applies is the one that is given.
#[derive(Clone, Copy, Debug, PartialEq, Eq, Error)]
pub enum PriceFault {
    /// The number of workers is not 1 to 64.
    #[error("the number of workers is not 1 to 64")]
    WorkerCount,
    /// An allocation was refused.
    #[error("out of memory")]
    NoMemory,
}

impl PriceFault {
    /// The fault's number, from 1.
    pub fn number(&self) -> u32
        ensures { result ≡ (numbered the_type NAMES self.now).0 }
    {
        *self as u32 + 1
    }

    /// The fault's name.
    pub fn name(&self) -> &'static str
        ensures { result.now ≡ (numbered the_type NAMES self.now).1 }
    {
        name_at(&NAMES, *self as usize)
    }
}

impl From<NoMemory> for PriceFault {
    ghost from_gives = { λ _ given. given ≡ fault.NoMemory };

    fn from(_refused: NoMemory) -> PriceFault {
        PriceFault::NoMemory
    }
}

impl From<AllocError> for PriceFault {
    ghost from_gives = { λ _ given. given ≡ fault.NoMemory };

    fn from(_refused: AllocError) -> PriceFault {
        PriceFault::NoMemory
    }
}

impl<T: Drop> From<AllocFailed<T>> for PriceFault {
    ghost from_gives = { λ _ given. given ≡ fault.NoMemory };

    fn from(_refused: AllocFailed<T>) -> PriceFault {
        PriceFault::NoMemory
    }
}
