//! Why a desk was not started.

ghost use Rattle.std.specs.Prelude.{◌≡◌};

use pb_core::election::Election;
use std::alloc::{Allocator, Global};
use std::fmt;
use thiserror::Error;

/// The name of `NoMemory`.
pub(crate) const NO_MEMORY: &str = "NoMemory";

/// Why a desk was not started. It carries the election back.
#[derive(Drop, Error)]
pub enum StartFault<A: Allocator = Global> {
    /// Memory was refused.
    #[error("out of memory")]
    NoMemory(Election<A>),
}

impl<A: Allocator> fmt::Debug for StartFault<A> {
    fn fmt<W: fmt::Write>(&self, f: &mut fmt::Formatter<W>) -> fmt::Result {
        f.write_str(self.name())
    }
}

impl<A: Allocator> StartFault<A> {
    /// The fault's number, from 1.
    pub fn number(&self) -> u32
        ensures { result ≡ 1 }
    {
        match self {
            StartFault::NoMemory(_) => 1,
        }
    }

    /// The fault's name.
    pub fn name(&self) -> &'static str
        ensures { result.now ≡ NO_MEMORY.now }
    {
        match self {
            StartFault::NoMemory(_) => NO_MEMORY,
        }
    }
}
