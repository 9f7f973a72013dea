//! What no run of the program shows of its commands: the count of a shared desk, clerks side by side, a
//! writer that can't be flushed, what the faults of a script and of a run say of themselves, what a count
//! tells of its raises, and when the answers of `serve` leave.
//!
//! These tests stand apart from those of `pb_desk_tests`, which so need not wait for the proof of
//! `pb_commands`.
//!
//! `MemoryDevice` is no test: it is proved to be a device as `pb_durable` speaks of them, so there is one
//! that tells its bytes, and what a crash may leave.
#![tactic(auto)]

#[cfg(test)]
mod checks;
#[cfg(test)]
mod clerks;
#[cfg(test)]
mod closing;
#[cfg(test)]
mod faults;
mod memory_device;
#[cfg(test)]
mod raises;
#[cfg(test)]
mod serving;
