//! A count of so many approvals that raises are tried in threads of their own, beside the count of one worker.

use crate::checks::{holds, same};
use crate::elections::{push_amount, read};
use crate::outcomes::counted;
use pb_core::election::Election;
use pb_core::money::Money;
use pb_price::Grain;
use pb_rounds::measure::Measure;
use pb_rounds::options::{Completion, CountOptions};
use pb_rounds::outcome::Outcome;
use std::alloc::Global;
use std::process::Abort;
use std::thread::Threads;

/// The next number of a simple recurrence, below this one, which is not 0.
fn draw(seed: &mut u64, below: u64) -> u64 {
    *seed = seed
        .wrapping_mul(6_364_136_223_846_793_005)
        .wrapping_add(1_442_695_040_888_963_407);
    (*seed / 8_589_934_592).checked_rem(below).unwrap_or(0)
}

/// The next number from 1 up to this one.
fn draw_from_one(seed: &mut u64, last: u64) -> u64 {
    draw(seed, last).saturating_add(1)
}

/// The row of a project that costs this much, in hundredths.
fn add_project(rt: &impl Abort, alloc: Global, file: &mut String, place: u64, cost: u64) {
    write!(file, "{place};").expect(rt, "memory");
    push_amount(rt, alloc, file, cost);
    file.push('\n').expect(rt, "memory");
}

/// The row of a voter who approves some of these projects.
fn add_voter(rt: &impl Abort, file: &mut String, seed: &mut u64, voter: u64, projects: u64) {
    write!(file, "{voter};").expect(rt, "memory");
    let among = draw(seed, 4).saturating_add(2);
    let mut comma = "";
    for place in 0..projects {
        if draw(seed, among) == 0 {
            write!(file, "{comma}{place}").expect(rt, "memory");
            comma = ",";
        }
    }
    file.push('\n').expect(rt, "memory");
}

/// The sections of a file up to its budget, and from there to its projects.
const SECTIONS: (&str, &str) = (
    "META\nkey;value\nbudget;",
    "\nvote_type;approval\nPROJECTS\nproject_id;cost\n",
);

/// How large a made election is.
#[derive(Clone, Copy)]
struct Size {
    /// The budget, in hundredths.
    budget: u64,
    projects: u64,
    /// What a project costs at most, in hundredths.
    most: u64,
    voters: u64,
}

/// A file of this size.
fn made_file(rt: &impl Abort, alloc: Global, seed: &mut u64, size: &Size) -> String {
    let mut file = String::from_str(alloc, SECTIONS.0).expect(rt, "memory");
    push_amount(rt, alloc, &mut file, size.budget);
    file.push_str(SECTIONS.1).expect(rt, "memory");
    for place in 0..size.projects {
        add_project(rt, alloc, &mut file, place, draw_from_one(seed, size.most));
    }
    file.push_str("VOTES\nvoter_id;vote\n").expect(rt, "memory");
    for voter in 0..size.voters {
        add_voter(rt, &mut file, seed, voter, size.projects);
    }
    file
}

/// How many approvals the ballots have.
fn approvals(election: &Election) -> u64 {
    let mut approvals: u64 = 0;
    for voter in election.voters() {
        approvals = approvals.saturating_add(voter.ballot.places().len() as u64);
    }
    approvals
}

/// 200 projects that cost up to 10,000.00, and 9,000 voters, with a budget of 100,000.00.
const TOWN: Size = Size {
    budget: 10_000_000,
    projects: 200,
    most: 1_000_000,
    voters: 9_000,
};

/// Raises by 0.10.
const RAISED: CountOptions = CountOptions {
    step: Money(10),
    max_raises: 40,
    workers: 1,
    completion: Completion::Add1,
    measure: Measure::Votes,
    grain: Grain::Hundredths,
};

/// Some numbers of workers.
const WORKERS: &[u32] = &[2, 3, 64];

/// The two have the same share, the same elected, and the same left to each voter.
fn are_same(rt: &impl Abort, counted: &Outcome, alone: &Outcome) {
    same(rt, counted.share, alone.share, "the share");
    let (found, wanted) = (counted.elected.as_slice(), alone.elected.as_slice());
    same(rt, found, wanted, "the elected");
    let (found, wanted) = (counted.rests.as_slice(), alone.rests.as_slice());
    same(rt, found, wanted, "the rests");
}

/// This many workers count as one does.
fn counts_alike(
    rt: &(impl Abort + Threads + Sync),
    alloc: Global,
    election: &Election,
    workers: u32,
    alone: &Outcome,
) {
    let options = CountOptions { workers, ..RAISED };
    let counted = counted(rt, alloc, election, &options);
    are_same(rt, &counted, alone);
    drop(counted);
}

/// 500,000 approvals are worth trials in threads of their own.
#[test]
fn counts_groups_of_raises(rt: HostRuntime) {
    let mut seed = 1;
    let file = made_file(&rt, rt.alloc(), &mut seed, &TOWN);
    let election = read(&rt, rt.alloc(), file.as_str());
    holds(&rt, approvals(&election) >= 500_000, "approvals");
    let alone = counted(&rt, rt.alloc(), &election, &RAISED);
    for workers in WORKERS {
        counts_alike(&rt, rt.alloc(), &election, *workers, &alone);
    }
    drop(alone);
    drop(election);
    drop(file);
}
