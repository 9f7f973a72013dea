//! Supporters, prices, and workers who price side by side.

ghost use Rattle.std.specs.Prelude.{◌<◌, ◌≤◌, All, length};
ghost use Rattle.std.specs.Bool.{OnTrue};
ghost use Rattle.pb_core.specs.Election.{most_projects};
ghost use Rattle.pb_price.specs.Price.{AreRests};

use crate::checks::{same, tells};
use crate::crowd::Crowd;
use crate::elections::{THREE_VOTERS, amounts, push_amount, read};
use pb_core::gate::{Gate, NoGate};
use pb_core::money::Money;
use pb_price::price::price;
use pb_price::{Price, PriceFault, Supporters, Tally, price_all};
use std::alloc::Global;
use std::process::Abort;
use std::sync::atomic::AtomicU32;
use std::sync::atomic::Ordering::SeqCst;
use std::thread::Threads;

/// The largest share of a voter.
const LARGEST_SHARE: Money = Money(2_000_000_000_000_000);

/// The supporters of the projects of this file.
fn supporters(rt: &impl Abort, alloc: Global, file: &str) -> Supporters {
    let election = read(rt, alloc, file);
    let supporters = Supporters::build(alloc, &election).expect(rt, "memory");
    drop(election);
    supporters
}

/// Whether there is a rest for each voter, none above the largest share, and a project at each of these
/// places.
fn can_price(supporters: &Supporters, rests: &[Money], projects: &[u32]) -> bool
    ensures rests { OnTrue result (AreRests supporters.now.voters rests.now) }
    ensures known { OnTrue result (All (λ place. place < length supporters.now.costs) projects.now) }
    ensures few { OnTrue result (length projects.now ≤ most_projects) }
{
    rests.len() == supporters.voters() as usize
        && projects.len() <= 10_000
        && projects.iter().all(|place| *place < supporters.projects())
        && rests.iter().all(|rest| *rest <= LARGEST_SHARE)
}

/// The price of the project at this place, which the tally counts.
fn priced(
    rt: &impl Abort,
    alloc: Global,
    supporters: &Supporters,
    rests: &[Money],
    place: u32,
) -> Option<Price> {
    assert!(rt; can_price(supporters, rests, &[]) && place < supporters.projects());
    let mut tally = Tally::new();
    let found = price(alloc, supporters, rests, place, &mut tally);
    same(rt, tally.count(), 1, "the tally");
    found.expect(rt, "memory")
}

/// The project at this place has these supporters and this cost.
fn is_supported(rt: &impl Abort, supporters: &Supporters, place: u32, by: &[u32], cost: u64) {
    assert!(rt; place < supporters.projects());
    same(rt, supporters.of(place), by, "supporters");
    same(rt, supporters.cost(place), Money(cost), "a cost");
}

#[test]
fn lists_supporters(rt: HostRuntime) {
    let supporters = supporters(&rt, rt.alloc(), THREE_VOTERS);
    same(&rt, supporters.projects(), 2, "projects");
    same(&rt, supporters.voters(), 3, "voters");
    is_supported(&rt, &supporters, 0, &[0, 1], 3000);
    is_supported(&rt, &supporters, 1, &[1, 2], 6000);
}

/// A row for each of these numbers: a voter, who supports the project where the number is not 0.
fn add_voters(rt: &impl Abort, file: &mut String, numbers: &[u32]) {
    for (i, number) in numbers.iter().enumerate() {
        let vote = if *number > 0 { "p" } else { "" };
        write!(file, "{i};{vote}\n").expect(rt, "memory");
    }
}

/// The start of a file with one project, up to its cost.
const BEFORE_COST: &str =
    "META\nkey;value\nbudget;0\nvote_type;approval\nPROJECTS\nproject_id;cost\np;";

/// The supporters of one project of this cost: of as many voters as there are numbers, those whose number is
/// not 0.
fn some_support(rt: &impl Abort, alloc: Global, cost: u64, numbers: &[u32]) -> Supporters {
    let mut file = String::from_str(alloc, BEFORE_COST).expect(rt, "memory");
    push_amount(rt, alloc, &mut file, cost);
    file.push_str("\nVOTES\nvoter_id;vote\n")
        .expect(rt, "memory");
    add_voters(rt, &mut file, numbers);
    supporters(rt, alloc, file.as_str())
}

/// A cost, a number for each voter (all of these support it), what is left to each of them, and the price.
const PRICES: &[(u64, &[u32], &[u64], Option<u64>)] = &[
    (1, &[1], &[5], Some(1)),
    (7, &[1, 1, 1], &[3, 3, 3], Some(3)),
    (6, &[1, 1, 1], &[4, 1, 4], Some(3)),
    (1000, &[1, 1, 1], &[0, 1000, 0], Some(1000)),
    (1001, &[1, 1, 1], &[0, 1000, 0], None),
    (1900, &[1, 1, 1], &[600, 600, 1000], Some(700)),
    (5, &[], &[], None),
    (
        1_000_000_000_000_000,
        &[1, 1, 1],
        &[
            2_000_000_000_000_000,
            2_000_000_000_000_000,
            2_000_000_000_000_000,
        ],
        Some(333_333_333_333_334),
    ),
    (
        1_000_000_000_000_000,
        &[1, 1, 1],
        &[
            2_000_000_000_000_000,
            100_000_000_000_000,
            100_000_000_000_000,
        ],
        Some(800_000_000_000_000),
    ),
];

/// With these voters and rests the project has this price.
fn has_price(
    rt: &impl Abort,
    alloc: Global,
    supporters: &Supporters,
    rests: &[u64],
    wanted: Option<u64>,
) {
    let rests = amounts(rt, alloc, rests);
    let found = priced(rt, alloc, supporters, rests.as_slice(), 0);
    let wanted = wanted.map(|price| Price::whole(Money(price)));
    same(rt, found, wanted, "a price");
    drop(rests);
}

#[test]
fn prices_by_what_is_left(rt: HostRuntime) {
    for (cost, voters, rests, wanted) in PRICES {
        let supporters = some_support(&rt, rt.alloc(), *cost, voters);
        has_price(&rt, rt.alloc(), &supporters, rests, *wanted);
        drop(supporters);
    }
}

/// What is left to each of the three voters.
const SHARE: [Money; 3] = [Money(3333), Money(3333), Money(3333)];

/// These prices, in hundredths.
fn found(rt: &impl Abort, alloc: Global, hundredths: &[u64]) -> Vec<Option<Price>> {
    let mut prices = Vec::new(alloc);
    for price in hundredths {
        prices
            .push(Some(Price::whole(Money(*price))))
            .expect(rt, "memory");
    }
    prices
}

/// The prices of these projects of the three voters by this many workers, where this share is left to each,
/// or the fault; and how far the tally grew.
fn priced_by<R: Threads + Abort + Sync, G: Gate>(
    rt: &R,
    alloc: Global,
    workers: u32,
    gate: &G,
    projects: &[u32],
) -> (Result<Vec<Option<Price>>, PriceFault>, u64) {
    let supporters = supporters(rt, alloc, THREE_VOTERS);
    assert!(rt; can_price(&supporters, &SHARE, projects));
    let mut tally = Tally::new();
    let prices = price_all(
        rt,
        alloc,
        workers,
        gate,
        projects,
        &supporters,
        &SHARE,
        &mut tally,
    );
    (prices, tally.count())
}

/// The workers give these prices, and the tally grows by as many.
fn prices_as<R: Threads + Abort + Sync, G: Gate>(
    rt: &R,
    alloc: Global,
    workers: u32,
    gate: &G,
    batch: &PricedBatch,
) {
    let PricedBatch(projects, wanted, _) = batch;
    let (prices, tally) = priced_by(rt, alloc, workers, gate, projects);
    let (prices, wanted) = (prices.expect(rt, "prices"), found(rt, alloc, wanted));
    same(rt, prices.as_slice(), wanted.as_slice(), "prices");
    same(rt, tally, projects.len() as u64, "the tally");
}

/// How often each piece came to the gate, in digits: piece 0 has the last, piece 1 the one before it, and so
/// on.
#[derive(Drop)]
struct Visits {
    digits: AtomicU32,
}

impl Gate for Visits {
    fn at(&self, _worker: u32, piece: u32) {
        let one = match piece {
            0 => 1,
            1 => 10,
            2 => 100,
            3 => 1_000,
            _ => 10_000,
        };
        self.digits.fetch_add(one, SeqCst);
    }
}

/// Projects to be priced, their prices, and how often each piece comes to the gate.
struct PricedBatch(&'static [u32], &'static [u64], u32);

const BATCHES: &[PricedBatch] = &[
    PricedBatch(&[], &[], 0),
    PricedBatch(&[1], &[3000], 1),
    PricedBatch(&[0, 1], &[1500, 3000], 11),
    PricedBatch(&[1, 0, 1, 1], &[3000, 1500, 3000, 3000], 1_111),
];

/// This many workers give the answers of one worker, and draw each piece once.
fn prices_by<R: Threads + Abort + Sync>(rt: &R, alloc: Global, workers: u32) {
    for batch in BATCHES {
        let gate = Visits {
            digits: AtomicU32::new(0),
        };
        prices_as(rt, alloc, workers, &gate, batch);
        same(rt, gate.digits.load(SeqCst), batch.2, "visits");
    }
}

/// Some numbers of workers.
const WORKERS: &[u32] = &[1, 2, 3, 64];

#[test]
fn prices_all_by_any_number_of_workers(rt: HostRuntime) {
    for workers in WORKERS {
        prices_by(&rt, rt.alloc(), *workers);
    }
}

/// Numbers of workers that there can't be.
const NO_WORKERS: &[u32] = &[0, 65, u32::MAX];

#[test]
fn refuses_a_number_of_workers(rt: HostRuntime) {
    for workers in NO_WORKERS {
        let (prices, tally) = priced_by(&rt, rt.alloc(), *workers, &NoGate, &[0, 1]);
        same(&rt, prices.err(), Some(PriceFault::WorkerCount), "workers");
        same(&rt, tally, 0, "the tally");
    }
}

/// As many projects of the three voters as there are workers at most, a and b in turn.
const IN_TURN: [u32; 64] = [
    0, 1, 0, 1, 0, 1, 0, 1, 0, 1, 0, 1, 0, 1, 0, 1, 0, 1, 0, 1, 0, 1, 0, 1, 0, 1, 0, 1, 0, 1, 0, 1,
    0, 1, 0, 1, 0, 1, 0, 1, 0, 1, 0, 1, 0, 1, 0, 1, 0, 1, 0, 1, 0, 1, 0, 1, 0, 1, 0, 1, 0, 1, 0, 1,
];

/// This many workers meet at as many pieces, each at one, and no worker comes twice: so none was priced
/// before each of the others was drawn by a worker of its own.
fn meet(rt: &(impl Threads + Abort + Sync), alloc: Global, workers: u32, numbers: u64) {
    let gate = Crowd::of(workers);
    let projects = IN_TURN.get(..workers as usize).expect(rt, "projects");
    let (prices, tally) = priced_by(rt, alloc, workers, &gate, projects);
    same(rt, prices.is_ok(), true, "prices");
    same(rt, tally, u64::from(workers), "the tally");
    gate.has_met(rt);
    gate.was_of(rt, numbers);
    drop(prices);
}

/// Numbers of workers, and the sum of as many powers of two from 1 on.
const CROWDS: &[(u32, u64)] = &[(2, 3), (3, 7), (64, u64::MAX)];

/// The workers run side by side, each under its own number.
#[test]
fn prices_side_by_side(rt: HostRuntime) {
    for (workers, numbers) in CROWDS {
        meet(&rt, rt.alloc(), *workers, *numbers);
    }
}

const FAULTS: &[(PriceFault, &str)] = &[
    (
        PriceFault::WorkerCount,
        "1 WorkerCount: the number of workers is not 1 to 64",
    ),
    (PriceFault::NoMemory, "2 NoMemory: out of memory"),
];

#[test]
fn names_its_faults(rt: HostRuntime) {
    for (fault, wanted) in FAULTS {
        let named = (fault.number(), fault.name());
        tells(&rt, rt.alloc(), named, fault, wanted);
    }
}
