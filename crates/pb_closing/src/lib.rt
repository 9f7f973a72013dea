//! From a shared desk to its winners: its clerks come back, and where it is shut its ballots are counted.
#![tactic(auto)]

pub mod close_and_count;
pub mod close_fault;
pub mod closing;

pub use close_fault::CloseFault;
pub use closing::{Closing, DeskCount};
