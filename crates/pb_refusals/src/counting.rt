//! Each allocation of a count refused in turn.

use crate::checks::are;
use crate::refusing::Refusing;
use crate::walk::{Heap, MOST, goes_on, refused};
use pb_core::gate::NoGate;
use pb_core::{Election, Money, NoMemory};
use pb_price::{Price, PriceFault, Supporters, Tally, price_all};
use pb_read::read_pb;
use pb_rounds::count::{count, equal_shares};
use pb_rounds::count_fault::CountFault;
use pb_rounds::options::CountOptions;
use pb_rounds::outcome::Outcome;
use std::alloc::Global;
use std::process::Abort;
use std::thread::Threads;

/// Four voters and four projects. At a share of 10.00 p1 is elected at 4.00, and then p3 at 6.50.
const FOUR_VOTERS: &str =
    "META\nkey;value\nbudget;40\nvote_type;approval\nPROJECTS\nproject_id;cost\np1;12\np2;19\np3;6.50\np4;9.90\nVOTES\nvoter_id;vote\nv1;p1,p2\nv2;p1,p2\nv3;p1\nv4;p2,p3,p4\n";

/// The calls whose allocations are refused. They may start threads.
enum Call {
    Supporters,
    Prices(u32),
    Shares,
    Count,
}

impl Call {
    /// Makes ready, lets the nth allocation from then on be refused, calls, and answers whether all is as it
    /// should be.
    fn run<R: Threads + Sync + Abort>(
        &self,
        rt: &R,
        heap: Heap<'_>,
        election: &Election,
        nth: u64,
    ) -> Result<bool, NoMemory> {
        match self {
            Call::Supporters => supported(heap, election, nth),
            Call::Prices(workers) => all_priced(rt, heap, election, *workers, nth),
            Call::Shares => shared_equally(rt, heap, election, nth),
            Call::Count => counted(rt, heap, election, nth),
        }
    }
}

/// Refuses each allocation of the call in turn.
fn walk<R: Threads + Sync + Abort>(rt: &R, alloc: Global, election: &Election, call: &Call) {
    for nth in 1..=MOST {
        let heap = Refusing::new(alloc);
        let answer = call.run(rt, &heap, election, nth);
        let goes_on = goes_on(rt, &heap, nth, answer);
        drop(heap);
        if !goes_on {
            return;
        }
    }
}

fn supported(heap: Heap<'_>, election: &Election, nth: u64) -> Result<bool, NoMemory> {
    heap.refuse(nth);
    let supporters = Supporters::build(heap, election)?;
    let is_whole = are_supporters(&supporters);
    drop(supporters);
    Ok(is_whole)
}

/// Whether these are the supporters of the four projects.
fn are_supporters(supporters: &Supporters<Heap<'_>>) -> bool {
    supporters.projects() == 4
        && supporters.voters() == 4
        && are(supporters.of(1), &[0, 1, 3])
        && supporters.cost(1) == Money(1_900)
}

/// What is left to the voters once p1 is elected.
const RESTS: [Money; 4] = [Money(600), Money(600), Money(600), Money(1_000)];

/// The supporters of the election's projects.
fn supporters<'a>(rt: &impl Abort, heap: Heap<'a>, election: &Election) -> Supporters<Heap<'a>> {
    Supporters::build(heap, election).expect(rt, "memory")
}

/// The prices of p2 and p4 by this many workers.
fn prices_of<'a, R: Threads + Sync + Abort>(
    rt: &R,
    heap: Heap<'a>,
    supporters: &Supporters<Heap<'a>>,
    workers: u32,
    tally: &mut Tally,
) -> Result<Vec<Option<Price>, Heap<'a>>, PriceFault> {
    assert!(rt; supporters.voters() == 4 && supporters.projects() == 4);
    price_all(
        rt,
        heap,
        workers,
        &NoGate,
        &[1, 3],
        supporters,
        &RESTS,
        tally,
    )
}

/// p2 takes 6.00 of two and 7.00 of the third; p4 takes 9.90 of v4 alone.
fn all_priced<R: Threads + Sync + Abort>(
    rt: &R,
    heap: Heap<'_>,
    election: &Election,
    workers: u32,
    nth: u64,
) -> Result<bool, NoMemory> {
    let supporters = supporters(rt, heap, election);
    let mut tally = Tally::new();
    heap.refuse(nth);
    let prices = prices_of(rt, heap, &supporters, workers, &mut tally);
    let answer = are_the_prices(&prices, tally.count());
    drop(prices);
    drop(supporters);
    answer
}

/// Whether these are both prices, and this many were counted.
fn are_the_prices(
    prices: &Result<Vec<Option<Price>, Heap<'_>>, PriceFault>,
    counted: u64,
) -> Result<bool, NoMemory> {
    match prices {
        Ok(prices) => {
            let wanted = [
                Some(Price::whole(Money(700))),
                Some(Price::whole(Money(990))),
            ];
            Ok(are(prices.as_slice(), &wanted) && counted == 2)
        }
        Err(fault) => refused(*fault == PriceFault::NoMemory && counted == 0),
    }
}

/// A run at a share of 10.00.
fn run_of<'a, R: Threads + Sync>(
    rt: &R,
    heap: Heap<'a>,
    election: &Election,
) -> Result<Outcome<Heap<'a>>, CountFault> {
    equal_shares(
        rt,
        heap,
        election,
        Money(1_000),
        &CountOptions::standard(),
        &NoGate,
    )
}

fn shared_equally<R: Threads + Sync>(
    rt: &R,
    heap: Heap<'_>,
    election: &Election,
    nth: u64,
) -> Result<bool, NoMemory> {
    heap.refuse(nth);
    let outcome = run_of(rt, heap, election);
    let answer = match &outcome {
        Ok(outcome) => Ok(is_run(outcome)),
        Err(fault) => refused(*fault == CountFault::NoMemory),
    };
    drop(outcome);
    answer
}

/// Whether p1 and p3 were elected.
fn is_run(outcome: &Outcome<Heap<'_>>) -> bool {
    let rests = [Money(600), Money(600), Money(600), Money(350)];
    outcome.elected.len() == 2
        && are(outcome.priced.as_slice(), &[4, 2, 2])
        && are(outcome.rests.as_slice(), &rests)
}

/// A count with Add1.
fn count_of<'a, R: Threads + Sync>(
    rt: &R,
    heap: Heap<'a>,
    election: &Election,
) -> Result<Outcome<Heap<'a>>, CountFault> {
    count(rt, heap, election, &CountOptions::standard())
}

/// At 10.00, 11.00 and 12.00 two projects are elected, and what is left of the budget would pay for another.
/// At 13.00 p1 takes 4.00 of three voters, p2 6.34 of three, and p3 6.50 of v4's 6.66; 2.50 of the budget is
/// left, and p4 costs 9.90.
fn counted<R: Threads + Sync>(
    rt: &R,
    heap: Heap<'_>,
    election: &Election,
    nth: u64,
) -> Result<bool, NoMemory> {
    heap.refuse(nth);
    let outcome = count_of(rt, heap, election);
    let answer = match &outcome {
        Ok(outcome) => Ok(
            outcome.raised == 3 && outcome.share == Money(1_300) && outcome.elected.len() == 3,
        ),
        Err(fault) => refused(*fault == CountFault::NoMemory),
    };
    drop(outcome);
    answer
}

const CALLS: &[Call] = &[
    Call::Supporters,
    Call::Prices(1),
    Call::Prices(2),
    Call::Shares,
    Call::Count,
];

#[test]
fn calls_of_a_count_end_or_memory_is_refused(rt: HostRuntime) {
    let election = read_pb(rt.alloc(), FOUR_VOTERS.as_bytes()).expect(&rt, "accepted");
    for call in CALLS {
        walk(&rt, rt.alloc(), &election, call);
    }
    drop(election);
}
