//! Elections read from texts, values made by calls, lists of amounts, and elections as text.

use pb_core::{Ballot, Election, Money, Project, Voter, VoterId};
use pb_read::read_pb;
use std::alloc::Global;
use std::process::Abort;

/// Budget 100.00; a costs 30.00, b costs 60.00; v1 approves a, v2 both, v3 b.
pub(crate) const THREE_VOTERS: &str =
    "META\nkey;value\nbudget;100\nvote_type;approval\nPROJECTS\nproject_id;cost\na;30\nb;60\nVOTES\nvoter_id;vote\nv1;a\nv2;a,b\nv3;b\n";

/// The election of this file.
pub(crate) fn read(rt: &impl Abort, alloc: Global, file: &str) -> Election {
    read_pb(alloc, file.as_bytes()).expect(rt, "an election")
}

/// These amounts, in hundredths.
pub(crate) fn amounts(rt: &impl Abort, alloc: Global, hundredths: &[u64]) -> Vec<Money> {
    let mut amounts = Vec::new(alloc);
    for amount in hundredths {
        amounts.push(Money(*amount)).expect(rt, "memory");
    }
    amounts
}

/// The text of this amount, in hundredths, after what stands in the file.
pub(crate) fn push_amount(rt: &impl Abort, alloc: Global, file: &mut String, hundredths: u64) {
    let text = Money(hundredths).text(alloc).expect(rt, "memory");
    file.push_str(text.as_str()).expect(rt, "memory");
    drop(text);
}

pub(crate) fn voter_id(rt: &impl Abort, alloc: Global, id: &str) -> VoterId {
    VoterId::new(alloc, id)
        .expect(rt, "memory")
        .expect(rt, "an id")
}

pub(crate) fn ballot(rt: &impl Abort, alloc: Global, places: &[u32]) -> Ballot {
    Ballot::of(alloc, places).expect(rt, "memory")
}

/// Each project's id, name and cost.
fn show_projects(rt: &impl Abort, text: &mut String, projects: &[Project]) {
    for project in projects {
        let (id, name, cost) = (project.id(), project.name(), project.cost().0);
        write!(text, "{id},{name},{cost};").expect(rt, "memory");
    }
}

/// A voter's id, and the places of the ballot.
fn show_voter(rt: &impl Abort, text: &mut String, voter: &Voter) {
    text.push_str(voter.id.text()).expect(rt, "memory");
    for place in voter.ballot.places() {
        write!(text, " {place}").expect(rt, "memory");
    }
    text.push(';').expect(rt, "memory");
}

/// Each voter.
fn show_voters(rt: &impl Abort, text: &mut String, voters: &[Voter]) {
    for voter in voters {
        show_voter(rt, text, voter);
    }
}

/// Budget and projects, and the voters after a bar.
pub(crate) fn shown(rt: &impl Abort, alloc: Global, election: &Election) -> String {
    let budget = election.budget().0;
    let mut text = format!(in alloc; "{budget};").expect(rt, "memory");
    show_projects(rt, &mut text, election.projects());
    text.push('|').expect(rt, "memory");
    show_voters(rt, &mut text, election.voters());
    text
}
