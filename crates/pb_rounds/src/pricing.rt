//! What the rounds of a count price by, and with how many workers.

ghost use Rattle.std.specs.Prelude.{◌≡◌, ◌<◌, ◌≤◌, All, length, true};
ghost use Rattle.pb_price.specs.PriceFault.{is_worker_count};
ghost use Rattle.pb_rounds.specs.Inner.Threads.{workers_for};

use crate::measure::Measure;
use pb_price::supporters::Supporters;
use std::alloc::Allocator;

/// How many approvals are worth a thread.
const APPROVALS_A_THREAD: u64 = 100_000;

/// How many approvals of an election are worth trials in threads of their own.
const APPROVALS_A_TRIAL: u64 = 500_000;

/// What all rounds of a count price by.
#[derive(Drop)]
pub(crate) struct Pricing<'a, R, G, A: Allocator> {
    pub(crate) rt: &'a R,
    pub(crate) gate: &'a G,
    pub(crate) alloc: A,
    /// How many workers price side by side: 1 to 64.
    pub(crate) workers: u32,
    pub(crate) measure: Measure,
    pub(crate) supporters: &'a Supporters<A>,
    pub(crate) ghost few_workers: { is_worker_count workers ≡ true },
}

/// How many of the workers price these projects: one, and one more for each share of the approvals that is
/// worth a thread, as far as there are workers.
pub(crate) fn workers_for<A: Allocator>(
    workers: u32,
    supporters: &Supporters<A>,
    places: &[u32],
) -> u32
    requires known { All (λ place. place < length supporters.now.costs) places.now }
    requires workers { is_worker_count workers ≡ true }
    ensures { result ≡ workers_for workers supporters.now places.now }
{
    let mut approvals: u64 = 0;
    for place in places {
        approvals = approvals.saturating_add(supporters.of(*place).len() as u64);
    }
    let threads = 1 + approvals / APPROVALS_A_THREAD;
    threads.min(u64::from(workers)) as u32
}

/// How many of the workers try raises side by side: all, unless a trial takes no longer than starting a
/// thread.
pub(crate) fn workers_for_trials<A: Allocator>(workers: u32, supporters: &Supporters<A>) -> u32
    requires { is_worker_count workers ≡ true }
    ensures { (0 < result) × (result ≤ workers) }
{
    let mut approvals: u64 = 0;
    for place in 0..supporters.projects() {
        approvals = approvals.saturating_add(supporters.of(place).len() as u64);
    }
    if approvals < APPROVALS_A_TRIAL {
        1
    } else {
        workers
    }
}
