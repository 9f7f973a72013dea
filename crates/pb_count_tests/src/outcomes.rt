//! Outcomes of counts.

use pb_core::election::Election;
use pb_rounds::count::count;
use pb_rounds::options::CountOptions;
use pb_rounds::outcome::Outcome;
use std::alloc::Global;
use std::process::Abort;
use std::thread::Threads;

/// The outcome of a count that ends.
pub(crate) fn counted(
    rt: &(impl Abort + Threads + Sync),
    alloc: Global,
    election: &Election,
    options: &CountOptions,
) -> Outcome {
    count(rt, alloc, election, options).expect(rt, "an outcome")
}
