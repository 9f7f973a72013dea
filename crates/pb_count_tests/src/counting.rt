//! Counts worked by hand, with what is left to each voter and how many prices each round computed. What a
//! count's report shows as well stands in the cases of the program.

use crate::checks;
use crate::checks::{holds, same};
use crate::crowd::Crowd;
use crate::elections::{THREE_VOTERS, amounts, read};
use crate::outcomes::counted;
use pb_core::gate::{Gate, NoGate};
use pb_core::money::Money;
use pb_price::{Grain, Price};
use pb_rounds::count::equal_shares;
use pb_rounds::count_fault::CountFault;
use pb_rounds::key::Key;
use pb_rounds::measure::Measure;
use pb_rounds::options::{Completion, CountOptions};
use pb_rounds::outcome::{Elected, Outcome};
use std::alloc::Global;
use std::process::Abort;
use std::sync::atomic::AtomicU32;
use std::sync::atomic::Ordering::SeqCst;
use std::thread::Threads;

/// p1 costs 12.00 (v1, v2, v3), p2 19.00 (v1, v2, v4), p3 6.50 and p4 9.90 (v4).
const FOUR_VOTERS: &str =
    "META\nkey;value\nbudget;40\nvote_type;approval\nPROJECTS\nproject_id;cost\np1;12\np2;19\np3;6.50\np4;9.90\nVOTES\nvoter_id;vote\nv1;p1,p2\nv2;p1,p2\nv3;p1\nv4;p2,p3,p4\n";

/// x costs 10.00 (v1, v2), y 30.00 (all four).
const DEARER: &str =
    "META\nkey;value\nbudget;40\nvote_type;approval\nPROJECTS\nproject_id;cost\nx;10\ny;30\nVOTES\nvoter_id;vote\nv1;x,y\nv2;x,y\nv3;y\nv4;y\n";

/// x costs 1.00 and y 3.00; all three approve both.
const ROUNDED: &str =
    "META\nkey;value\nbudget;6\nvote_type;approval\nPROJECTS\nproject_id;cost\nx;1\ny;3\nVOTES\nvoter_id;vote\nv1;x,y\nv2;x,y\nv3;x,y\n";

/// Two projects of 10.00 and 20.00; both voters approve both.
const RISING: &str =
    "META\nkey;value\nbudget;60\nvote_type;approval\nPROJECTS\nproject_id;cost\nx;10\ny;20\nVOTES\nvoter_id;vote\nv1;x,y\nv2;x,y\n";

/// The same in the other order.
const FALLING: &str =
    "META\nkey;value\nbudget;60\nvote_type;approval\nPROJECTS\nproject_id;cost\ny;20\nx;10\nVOTES\nvoter_id;vote\nv1;x,y\nv2;x,y\n";

/// What a count has to tell: the share, each elected project's place, price and what it collected, what is
/// left to each voter, and how many prices each round computed; amounts in hundredths.
struct Told {
    share: u64,
    elected: &'static [(u32, u64, u64)],
    rests: &'static [u64],
    priced: &'static [u64],
}

const THREE_TOLD: Told = Told {
    share: 3333,
    elected: &[(0, 1500, 3000)],
    rests: &[1833, 1833, 3333],
    priced: &[2, 1],
};

/// By one worker or two.
const FOUR_TOLD: Told = Told {
    share: 1000,
    elected: &[(0, 400, 1200), (2, 650, 650)],
    rests: &[600, 600, 600, 350],
    priced: &[4, 2, 2],
};

/// By three workers and more: they price p2, p3 and p4 at once in the second round.
const FOUR_BY_MORE: Told = Told {
    priced: &[4, 3, 2],
    ..FOUR_TOLD
};

const DEARER_BY_VOTES: Told = Told {
    share: 1000,
    elected: &[(0, 500, 1000), (1, 1000, 3000)],
    rests: &[0, 0, 0, 0],
    priced: &[2, 1, 0],
};

const DEARER_BY_COST: Told = Told {
    share: 1000,
    elected: &[(1, 750, 3000)],
    rests: &[250, 250, 250, 250],
    priced: &[2, 1],
};

const ROUNDED_BY_VOTES: Told = Told {
    share: 200,
    elected: &[(0, 34, 102), (1, 100, 300)],
    rests: &[66, 66, 66],
    priced: &[2, 1, 0],
};

const ROUNDED_BY_COST: Told = Told {
    elected: &[(1, 100, 300), (0, 34, 102)],
    ..ROUNDED_BY_VOTES
};

const RISING_TOLD: Told = Told {
    share: 3000,
    elected: &[(0, 500, 1000), (1, 1000, 2000)],
    rests: &[1500, 1500],
    priced: &[2, 1, 0],
};

const FALLING_BY_VOTES: Told = Told {
    elected: &[(1, 500, 1000), (0, 1000, 2000)],
    ..RISING_TOLD
};

const FALLING_BY_COST: Told = Told {
    elected: &[(0, 1000, 2000), (1, 500, 1000)],
    ..RISING_TOLD
};

/// A file, the number of workers, the measure, and what a plain count has to tell.
const COUNTED: &[(&str, u32, Measure, Told)] = &[
    (THREE_VOTERS, 1, Measure::Votes, THREE_TOLD),
    (FOUR_VOTERS, 1, Measure::Votes, FOUR_TOLD),
    (FOUR_VOTERS, 2, Measure::Votes, FOUR_TOLD),
    (FOUR_VOTERS, 3, Measure::Votes, FOUR_BY_MORE),
    (FOUR_VOTERS, 64, Measure::Votes, FOUR_BY_MORE),
    (DEARER, 1, Measure::Votes, DEARER_BY_VOTES),
    (DEARER, 1, Measure::Cost, DEARER_BY_COST),
    (ROUNDED, 1, Measure::Votes, ROUNDED_BY_VOTES),
    (ROUNDED, 1, Measure::Cost, ROUNDED_BY_COST),
    (RISING, 1, Measure::Votes, RISING_TOLD),
    (RISING, 1, Measure::Cost, RISING_TOLD),
    (FALLING, 1, Measure::Votes, FALLING_BY_VOTES),
    (FALLING, 1, Measure::Cost, FALLING_BY_COST),
];

/// The projects of these places, prices and sums, elected.
fn elected(rt: &impl Abort, alloc: Global, parts: &[(u32, u64, u64)]) -> Vec<Elected> {
    let mut elected = Vec::new(alloc);
    for (place, price, collected) in parts {
        let winner = Elected {
            place: *place,
            price: Money(*price),
            exact: Price::whole(Money(*price)),
            collected: Money(*collected),
        };
        elected.push(winner).expect(rt, "memory");
    }
    elected
}

/// A plain count by this many workers and by this measure.
fn plain(workers: u32, measure: Measure) -> CountOptions {
    CountOptions {
        step: Money(100),
        max_raises: 0,
        workers,
        completion: Completion::Plain,
        measure,
        grain: Grain::Hundredths,
    }
}

/// The outcome tells this, and no share was raised.
fn tells(rt: &impl Abort, alloc: Global, outcome: &Outcome, told: &Told) {
    let winners = elected(rt, alloc, told.elected);
    let rests = amounts(rt, alloc, told.rests);
    same(rt, outcome.share.0, told.share, "the share");
    same(rt, outcome.raised, 0, "the raises");
    same(
        rt,
        outcome.elected.as_slice(),
        winners.as_slice(),
        "the elected",
    );
    same(rt, outcome.rests.as_slice(), rests.as_slice(), "the rests");
    same(rt, outcome.priced.as_slice(), told.priced, "the prices");
    drop(winners);
    drop(rests);
}

/// A count of this file tells this.
fn counts_as(
    rt: &(impl Abort + Threads + Sync),
    alloc: Global,
    file: &str,
    options: &CountOptions,
    told: &Told,
) {
    let election = read(rt, alloc, file);
    let outcome = counted(rt, alloc, &election, options);
    tells(rt, alloc, &outcome, told);
    drop(outcome);
    drop(election);
}

#[test]
fn counts(rt: HostRuntime) {
    for (file, workers, measure, told) in COUNTED {
        counts_as(&rt, rt.alloc(), file, &plain(*workers, *measure), told);
    }
}

/// Counts how often it is met.
#[derive(Drop)]
struct CountingGate {
    met: AtomicU32,
}

impl Gate for CountingGate {
    fn at(&self, _worker: u32, _piece: u32) {
        self.met.fetch_add(1, SeqCst);
    }
}

/// Workers, how often the gate is met in a run of the four voters at their share, and what that tells.
const RUNS: &[(u32, u32, Told)] = &[
    (1, 8, FOUR_TOLD),
    (2, 8, FOUR_TOLD),
    (3, 9, FOUR_BY_MORE),
    (64, 9, FOUR_BY_MORE),
];

/// A run at a share of 10.00, by measure votes.
fn run<R: Abort + Threads + Sync, G: Gate>(
    rt: &R,
    alloc: Global,
    file: &str,
    workers: u32,
    gate: &G,
) -> Result<Outcome, CountFault> {
    let election = read(rt, alloc, file);
    let mut options = CountOptions::standard();
    options.workers = workers;
    let outcome = equal_shares(rt, alloc, &election, Money(1000), &options, gate);
    drop(election);
    outcome
}

/// A run of the four voters by this many workers meets the gate so often, and tells this.
fn meets(rt: &(impl Abort + Threads + Sync), alloc: Global, workers: u32, met: u32, told: &Told) {
    let gate = CountingGate {
        met: AtomicU32::new(0),
    };
    let outcome = run(rt, alloc, FOUR_VOTERS, workers, &gate).expect(rt, "an outcome");
    same(rt, gate.met.load(SeqCst), met, "the gate");
    tells(rt, alloc, &outcome, told);
    drop(outcome);
}

#[test]
fn prices_the_heads_of_the_queue(rt: HostRuntime) {
    for (workers, met, told) in RUNS {
        meets(&rt, rt.alloc(), *workers, *met, told);
    }
    let refused = run(&rt, rt.alloc(), THREE_VOTERS, 65, &NoGate).err();
    same(&rt, refused, Some(CountFault::WorkerCount), "65 workers");
}

/// The start of a file, up to its projects.
const BEFORE_PROJECTS: &str =
    "META\nkey;value\nbudget;1\nvote_type;approval\nPROJECTS\nproject_id;cost\n";

/// 200 projects that cost 1,500.00 each, and 600 voters who approve all: 120,000 approvals.
fn town(rt: &impl Abort, alloc: Global) -> String {
    let mut file = String::from_str(alloc, BEFORE_PROJECTS).expect(rt, "memory");
    for project in 0..200 {
        write!(file, "{project};1500\n").expect(rt, "memory");
    }
    file.push_str("VOTES\nvoter_id;vote\n").expect(rt, "memory");
    for voter in 0..600 {
        write!(file, "{voter};").expect(rt, "memory");
        for project in 0..200 {
            write!(file, "{project},").expect(rt, "memory");
        }
        file.push('\n').expect(rt, "memory");
    }
    file
}

/// Four projects at 2.50 take each voter's 10.00.
const TOWN_ELECTED: &[(u32, u64, u64)] = &[
    (0, 250, 150_000),
    (1, 250, 150_000),
    (2, 250, 150_000),
    (3, 250, 150_000),
];

/// 120,000 approvals are worth two threads: two workers meet in the first round.
#[test]
fn workers_meet_in_a_round(rt: HostRuntime) {
    let file = town(&rt, rt.alloc());
    let gate = Crowd::of(2);
    let outcome = run(&rt, rt.alloc(), file.as_str(), 2, &gate).expect(&rt, "an outcome");
    let winners = elected(&rt, rt.alloc(), TOWN_ELECTED);
    let (found, wanted) = (outcome.elected.as_slice(), winners.as_slice());
    same(&rt, found, wanted, "the elected");
    gate.has_met(&rt);
    drop(winners);
    drop(outcome);
    drop(file);
}

/// Price, weight and place of two keys, of which the first comes before the second.
const KEYS: &[((u64, u64, u32), (u64, u64, u32))] = &[
    ((399, 3, 3), (400, 3, 2)),
    ((400, 3, 2), (400, 3, 3)),
    ((800, 6, 1), (400, 3, 2)),
    ((400, 3, 2), (800, 6, 3)),
    ((400, 4, 9), (400, 3, 2)),
    ((400, 3, 1), (800, 6, 2)),
    ((400, 3, 2), (800, 6, 2)),
    ((u64::MAX - 1, u64::MAX, 9), (u64::MAX, u64::MAX, 0)),
];

/// The key with these parts.
fn key(rt: &impl Abort, parts: (u64, u64, u32)) -> Key {
    let (price, weight, place) = parts;
    assert!(rt; 1 <= weight);
    let key = Key::new(Price::whole(Money(price)), weight, place);
    same(
        rt,
        (key.price().amount.0, key.weight(), key.place()),
        parts,
        "a key",
    );
    key
}

/// The first comes before the second.
fn comes_before<T: PartialOrd + Copy>(rt: &impl Abort, first: T, second: T) {
    holds(rt, first < second, "less");
    holds(rt, second > first, "greater");
    holds(rt, first != second, "not equal");
}

#[test]
fn orders_keys(rt: HostRuntime) {
    for (first, second) in KEYS {
        comes_before(&rt, key(&rt, *first), key(&rt, *second));
    }
}

/// Faults, and what is said of them.
const FAULTS: &[(CountFault, &str)] = &[
    (
        CountFault::WorkerCount,
        "1 WorkerCount: the number of workers is not 1 to 64",
    ),
    (
        CountFault::StepRange,
        "2 StepRange: the step is not 1 to 1,000,000,000 hundredths",
    ),
    (
        CountFault::RaisesRange,
        "3 RaisesRange: the limit of raises is above 1,000,000",
    ),
    (
        CountFault::RaisesSpent,
        "4 RaisesSpent: the raises are spent",
    ),
    (CountFault::NoMemory, "5 NoMemory: out of memory"),
];

#[test]
fn tells_faults(rt: HostRuntime) {
    for (fault, wanted) in FAULTS {
        let named = (fault.number(), fault.name());
        checks::tells(&rt, rt.alloc(), named, fault, wanted);
    }
}
