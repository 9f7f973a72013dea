//! Amounts, ids, ballots and elections.

ghost use Rattle.std.specs.Prelude.{◌<◌, All, length};
ghost use Rattle.std.specs.Bool.{OnTrue};

use crate::checks::{holds, same, shows, tells};
use crate::elections::{ballot, shown, voter_id};
use pb_core::laws::{money_is_what_its_text_names, money_reads_back};
use pb_core::{Ballot, Election, Money, MoneyFault, NoMemory, Project, Voter, VoterId};
use std::alloc::Global;
use std::process::Abort;

/// Texts that are amounts, in hundredths.
const AMOUNTS: &[(&str, u64)] = &[
    ("0", 0),
    ("7", 700),
    ("007", 700),
    ("12.3", 1230),
    ("12,3", 1230),
    ("12.03", 1203),
    ("12.30", 1230),
    ("12.34", 1234),
    ("12,34", 1234),
    ("12.3400", 1234),
    ("00.50", 50),
    ("0.05", 5),
    ("1,200", 120),
    ("1200.50", 120_050),
    ("5000,00", 500_000),
    ("10000000000000", 1_000_000_000_000_000),
    ("10000000000000.00", 1_000_000_000_000_000),
];

/// Texts that are none, and why.
const NO_AMOUNTS: &[(&str, MoneyFault)] = &[
    ("", MoneyFault::BadMoney),
    (" ", MoneyFault::BadMoney),
    (" 5", MoneyFault::BadMoney),
    ("5 ", MoneyFault::BadMoney),
    ("1 200", MoneyFault::BadMoney),
    ("-5", MoneyFault::BadMoney),
    ("+5", MoneyFault::BadMoney),
    (".", MoneyFault::BadMoney),
    (",", MoneyFault::BadMoney),
    (".5", MoneyFault::BadMoney),
    (",5", MoneyFault::BadMoney),
    ("100.", MoneyFault::BadMoney),
    ("100,", MoneyFault::BadMoney),
    ("1.2.3", MoneyFault::BadMoney),
    ("1,200.50", MoneyFault::BadMoney),
    ("1.200,50", MoneyFault::BadMoney),
    ("1..2", MoneyFault::BadMoney),
    ("1'200", MoneyFault::BadMoney),
    ("1;2", MoneyFault::BadMoney),
    ("1_200", MoneyFault::BadMoney),
    ("1e6", MoneyFault::BadMoney),
    ("0x10", MoneyFault::BadMoney),
    ("5.x", MoneyFault::BadMoney),
    ("½", MoneyFault::BadMoney),
    ("٣", MoneyFault::BadMoney),
    ("1.005", MoneyFault::MoneyTooFine),
    ("12.3401", MoneyFault::MoneyTooFine),
    ("0,001", MoneyFault::MoneyTooFine),
    ("10000000000000.005", MoneyFault::MoneyTooFine),
    ("10000000000000.01", MoneyFault::MoneyTooLarge),
    ("10000000000001", MoneyFault::MoneyTooLarge),
    ("99999999999999999999", MoneyFault::MoneyTooLarge),
];

#[test]
fn reads_money(rt: HostRuntime) {
    money_is_what_its_text_names();
    money_reads_back();
    for (text, hundredths) in AMOUNTS {
        same(&rt, Money::read(text), Ok(Money(*hundredths)), text);
    }
    for (text, fault) in NO_AMOUNTS {
        same(&rt, Money::read(text), Err(*fault), text);
    }
}

/// Amounts in hundredths, and their texts.
const TEXTS: &[(u64, &str)] = &[
    (0, "0.00"),
    (1, "0.01"),
    (1234, "12.34"),
    (120_050, "1200.50"),
    (u64::MAX, "184467440737095516.15"),
];

#[test]
fn writes_money(rt: HostRuntime) {
    for (hundredths, wanted) in TEXTS {
        let text = Money(*hundredths).text(rt.alloc()).expect(&rt, "memory");
        same(&rt, text.as_str(), *wanted, "a text of money");
    }
}

/// Faults, and what is said of them.
const FAULTS: &[(MoneyFault, &str)] = &[
    (MoneyFault::BadMoney, "1 BadMoney: not an amount of money"),
    (
        MoneyFault::MoneyTooFine,
        "2 MoneyTooFine: finer than a hundredth",
    ),
    (
        MoneyFault::MoneyTooLarge,
        "3 MoneyTooLarge: above ten million million",
    ),
];

#[test]
fn tells_faults(rt: HostRuntime) {
    for (fault, wanted) in FAULTS {
        let named = (fault.number(), fault.name());
        tells(&rt, rt.alloc(), named, fault, wanted);
    }
    shows(&rt, rt.alloc(), &NoMemory, "out of memory");
}

/// Texts of which nothing is left.
const BLANKS: &[&str] = &["", " \t ", "\r\n", "\u{a0}\u{3000}"];

/// Texts, and the ids that are left of them.
const IDS: &[(&str, &str)] = &[
    ("ann", "ann"),
    ("  ann b ", "ann b"),
    ("\tann\r\n", "ann"),
    ("a;\"b", "a;\"b"),
];

/// The text has no id.
fn is_blank(rt: &impl Abort, alloc: Global, text: &str) {
    let id = VoterId::new(alloc, text).expect(rt, "memory");
    holds(rt, id.is_none(), text);
    drop(id);
}

/// The text has this id, and so has a copy of it.
fn is_trimmed(rt: &impl Abort, alloc: Global, text: &str, wanted: &str) {
    let id = voter_id(rt, alloc, text);
    same(rt, id.text(), wanted, text);
    let copy = id.copy(alloc).expect(rt, "memory");
    same(rt, copy.text(), wanted, text);
    drop(copy);
    drop(id);
}

#[test]
fn trims_voter_ids(rt: HostRuntime) {
    for blank in BLANKS {
        is_blank(&rt, rt.alloc(), blank);
    }
    for (text, wanted) in IDS {
        is_trimmed(&rt, rt.alloc(), text, wanted);
    }
}

/// The ballot has these places, and so has a copy of it.
fn has_places(rt: &impl Abort, alloc: Global, ballot: &Ballot, wanted: &[u32]) {
    same(rt, ballot.places(), wanted, "a ballot");
    let copy = ballot.copy(alloc).expect(rt, "memory");
    same(rt, copy.places(), wanted, "its copy");
    drop(copy);
}

#[test]
fn orders_ballots(rt: HostRuntime) {
    let few = ballot(&rt, rt.alloc(), &[9, 0, 2, 9]);
    has_places(&rt, rt.alloc(), &few, &[0, 2, 9]);
    holds(&rt, few.has(2), "2 of 0, 2, 9");
    holds(&rt, !few.has(3), "3 of 0, 2, 9");
    drop(few);
}

fn voter(rt: &impl Abort, alloc: Global, id: &str, places: &[u32]) -> Voter {
    Voter {
        id: voter_id(rt, alloc, id),
        ballot: ballot(rt, alloc, places),
    }
}

/// A project of this id and name that costs 30.00.
fn project(rt: &impl Abort, alloc: Global, id: &str, name: &str) -> Project {
    let id = String::from_str(alloc, id).expect(rt, "memory");
    let name = String::from_str(alloc, name).expect(rt, "memory");
    assert!(rt; !id.is_empty());
    Project::new(id, name, Money(3_000))
}

fn add_project(rt: &impl Abort, election: &mut Election, project: Project) {
    assert!(rt; election.voters().is_empty() && election.projects().len() < 10_000);
    assert!(rt; !election.has_project(project.id()));
    election.add_project(project).expect(rt, "memory");
}

/// Whether each place that the ballot approves is one of a project.
fn knows(election: &Election, ballot: &Ballot) -> bool
    ensures { OnTrue result (All (λ place. place < length election.now.projects) ballot.now) }
{
    let projects = election.projects().len();
    ballot
        .places()
        .iter()
        .all(|place| (*place as usize) < projects)
}

fn add_voter(rt: &impl Abort, election: &mut Election, voter: Voter) {
    assert!(rt; election.voters().len() < 1_000_000 && !election.has_voter(&voter.id));
    assert!(rt; knows(election, &voter.ballot));
    election.add_voter(voter).expect(rt, "memory");
}

/// The election holds this, and has this limit on a ballot's length.
fn is_shown(rt: &impl Abort, alloc: Global, election: &Election, limit: Option<u32>, wanted: &str) {
    let text = shown(rt, alloc, election);
    same(rt, text.as_str(), wanted, "an election");
    same(rt, election.max_length(), limit, "the limit");
    drop(text);
}

/// The election has one project, a.
fn has_a(rt: &impl Abort, alloc: Global, election: &Election) {
    holds(rt, election.has_project("a"), "a");
    holds(rt, !election.has_project("Park"), "no id");
    is_shown(rt, alloc, election, None, "10000;a,Park,3000;|");
}

/// The election takes the voter v1, who approves its one project.
fn takes_v1(rt: &impl Abort, alloc: Global, election: &mut Election) {
    let v1 = voter(rt, alloc, "v1", &[0]);
    let name = voter_id(rt, alloc, "v1");
    holds(rt, !election.has_voter(&name), "before v1");
    add_voter(rt, election, v1);
    holds(rt, election.has_voter(&name), "after v1");
    drop(name);
}

#[test]
fn holds_projects_and_voters(rt: HostRuntime) {
    let alloc = rt.alloc();
    let mut election = Election::start(alloc, Money(10_000));
    add_project(&rt, &mut election, project(&rt, alloc, "a", "Park"));
    has_a(&rt, alloc, &election);
    election.set_max_length(Some(0));
    takes_v1(&rt, alloc, &mut election);
    is_shown(&rt, alloc, &election, Some(0), "10000;a,Park,3000;|v1 0;");
    election.set_max_length(None);
    is_shown(&rt, alloc, &election, None, "10000;a,Park,3000;|v1 0;");
    drop(election);
}
