//! Why a shared desk is not closed and counted.

use pb_core::election::Election;
use pb_core::order::ProjectOrder;
use pb_desk::desk::Desk;
use pb_rounds::count_fault::CountFault;
use std::fmt;
use thiserror::Error;

/// Why a shared desk is not closed and counted.
#[derive(Drop, Error)]
pub enum CloseFault {
    /// A clerk who was not handed back holds the lock, whose word this is: the clerk's number and 1. The desk
    /// is given up.
    #[error("the lock word is {0}")]
    Unfinished(u64),
    /// The desk is shut, and memory was refused before its ballots were an election. Here is the desk.
    #[error("out of memory")]
    NoMemory(Desk),
    /// The desk is shut, and memory was refused for the order in which ties take its projects. Here is the election.
    #[error("out of memory")]
    NotSorted(Election),
    /// The desk is shut, and the count of its ballots is refused. Here is the election, to be counted again, with its
    /// projects in this order, in which ties take them.
    #[error("{0}")]
    NotCounted(CountFault, ProjectOrder, Election),
}

impl fmt::Debug for CloseFault {
    fn fmt<W: fmt::Write>(&self, f: &mut fmt::Formatter<W>) -> fmt::Result {
        f.write_str(match self {
            CloseFault::Unfinished(_) => "Unfinished",
            CloseFault::NoMemory(_) => "NoMemory",
            CloseFault::NotSorted(_) => "NotSorted",
            CloseFault::NotCounted(_, _, _) => "NotCounted",
        })
    }
}
