//! Why a desk was not made into an election.

ghost use Rattle.std.specs.Prelude.{◌≡◌};
ghost use Rattle.pb_core.specs.Numbered.{numbered};
ghost use Rattle.pb_desk.specs.contracts.into_fault.IntoFault.{the_type};

use crate::desk::Desk;
use pb_core::names::name_at;
use std::alloc::{Allocator, Global};
use std::fmt;
use thiserror::Error;

/// The names of `IntoFault`, in the order of its variants.
pub(crate) const NAMES: [&str; 2] = ["NotShut", "NoMemory"];

/// Why a desk was not made into an election. It carries the desk back, unchanged.
#[derive(Drop, Error)]
pub enum IntoFault<A: Allocator = Global> {
    /// The desk is not shut.
    #[error("the desk is not shut")]
    NotShut(Desk<A>),
    /// Memory was refused.
    #[error("out of memory")]
    NoMemory(Desk<A>),
}

impl<A: Allocator> fmt::Debug for IntoFault<A> {
    fn fmt<W: fmt::Write>(&self, f: &mut fmt::Formatter<W>) -> fmt::Result {
        f.write_str(self.name())
    }
}

impl<A: Allocator> IntoFault<A> {
    /// The fault's number, from 1.
    pub fn number(&self) -> u32
        ensures { result ≡ (numbered (the_type A.row A.Allocator) NAMES self.now).0 }
    {
        match self {
            IntoFault::NotShut(_) => 1,
            IntoFault::NoMemory(_) => 2,
        }
    }

    /// The fault's name.
    pub fn name(&self) -> &'static str
        ensures { result.now ≡ (numbered (the_type A.row A.Allocator) NAMES self.now).1 }
    {
        name_at(&NAMES, self.number() as usize - 1)
    }
}
