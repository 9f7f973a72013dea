//! Tests of the desk, of its journal and of the shared desk: what no contract says, and each public call once
//! with ample memory.
//!
//! A test is a table and a short body, which compares by `checks`: an assertion in a body takes the prover
//! seconds, a call next to nothing.
#![tactic(auto)]

#[cfg(test)]
mod auditing;
#[cfg(test)]
mod checks;
#[cfg(test)]
mod elections;
#[cfg(test)]
mod faults;
#[cfg(test)]
mod serving;
#[cfg(test)]
mod share_faults;
#[cfg(test)]
mod sharing;
#[cfg(test)]
mod withdrawals;
