//! Elections that grow: a refused addition leaves them as they were.

ghost use Rattle.std.specs.Prelude.{◌<◌, All, length};
ghost use Rattle.std.specs.Bool.{OnTrue};

use crate::walk::{Call, Heap, refused, walk};
use pb_core::{Ballot, Election, Money, NoMemory, Project, Voter, VoterId};
use std::process::Abort;

/// An id of this text.
pub fn id<'a>(rt: &impl Abort, heap: Heap<'a>, text: &str) -> VoterId<Heap<'a>> {
    VoterId::new(heap, text)
        .expect(rt, "memory")
        .expect(rt, "an id")
}

/// A project of this id that costs 30.00.
fn project<'a>(rt: &impl Abort, heap: Heap<'a>, name: &str) -> Project<Heap<'a>> {
    let id = String::from_str(heap, name).expect(rt, "memory");
    let name = String::new(heap);
    assert!(rt; !id.is_empty());
    Project::new(id, name, Money(3_000))
}

/// A voter of this id who approves project 0.
fn voter<'a>(rt: &impl Abort, heap: Heap<'a>, name: &str) -> Voter<Heap<'a>> {
    Voter {
        id: id(rt, heap, name),
        ballot: Ballot::of(heap, &[0]).expect(rt, "memory"),
    }
}

/// Adds a project, which the election can take.
fn add_project<'a>(
    rt: &impl Abort,
    election: &mut Election<Heap<'a>>,
    project: Project<Heap<'a>>,
) -> Result<(), NoMemory> {
    assert!(rt; election.voters().is_empty() && election.projects().len() < 10_000);
    assert!(rt; !election.has_project(project.id()));
    election.add_project(project)
}

/// Whether each place that the ballot approves is one of a project.
fn knows<'a>(election: &Election<Heap<'a>>, ballot: &Ballot<Heap<'a>>) -> bool
    ensures { OnTrue result (All (λ place. place < length election.now.projects) ballot.now) }
{
    let projects = election.projects().len();
    ballot
        .places()
        .iter()
        .all(|place| (*place as usize) < projects)
}

/// Adds a voter, whom the election can take.
fn add_voter<'a>(
    rt: &impl Abort,
    election: &mut Election<Heap<'a>>,
    voter: Voter<Heap<'a>>,
) -> Result<(), NoMemory> {
    assert!(rt; election.voters().len() < 1_000_000 && !election.has_voter(&voter.id));
    assert!(rt; knows(election, &voter.ballot));
    election.add_voter(voter)
}

/// One project.
fn one_project<'a>(rt: &impl Abort, heap: Heap<'a>) -> Election<Heap<'a>> {
    let mut election = Election::start(heap, Money(10_000));
    add_project(rt, &mut election, project(rt, heap, "a")).expect(rt, "memory");
    election
}

/// One project, and one voter, v1, who approves it.
pub fn one_voter<'a>(rt: &impl Abort, heap: Heap<'a>) -> Election<Heap<'a>> {
    let mut election = one_project(rt, heap);
    add_voter(rt, &mut election, voter(rt, heap, "v1")).expect(rt, "memory");
    election
}

/// Whether the election has no project still, and takes the one that it had no room for.
fn takes_project<'a>(rt: &impl Abort, heap: Heap<'a>, election: &mut Election<Heap<'a>>) -> bool {
    let was_empty = election.projects().is_empty();
    add_project(rt, election, project(rt, heap, "a")).expect(rt, "memory");
    was_empty && election.has_project("a")
}

fn project_added(rt: &impl Abort, heap: Heap<'_>, nth: u64) -> Result<bool, NoMemory> {
    let mut election = Election::start(heap, Money(10_000));
    let project = project(rt, heap, "a");
    heap.refuse(nth);
    let answer = match add_project(rt, &mut election, project) {
        Ok(()) => Ok(election.projects().len() == 1),
        Err(NoMemory) => refused(takes_project(rt, heap, &mut election)),
    };
    drop(election);
    answer
}

/// Whether the election has no voter still, and takes the one whom it had no room for.
fn takes_voter<'a>(rt: &impl Abort, heap: Heap<'a>, election: &mut Election<Heap<'a>>) -> bool {
    let name = id(rt, heap, "v1");
    let was_empty = election.voters().is_empty() && !election.has_voter(&name);
    add_voter(rt, election, voter(rt, heap, "v1")).expect(rt, "memory");
    let has_voter = election.has_voter(&name);
    drop(name);
    was_empty && has_voter
}

fn voter_added(rt: &impl Abort, heap: Heap<'_>, nth: u64) -> Result<bool, NoMemory> {
    let mut election = one_project(rt, heap);
    let (voter, name) = (voter(rt, heap, "v1"), id(rt, heap, "v1"));
    heap.refuse(nth);
    let answer = match add_voter(rt, &mut election, voter) {
        Ok(()) => Ok(election.has_voter(&name)),
        Err(NoMemory) => refused(takes_voter(rt, heap, &mut election)),
    };
    drop(name);
    drop(election);
    answer
}

/// The calls whose allocations are refused.
enum ElectionCall {
    Project,
    Voter,
}

impl Call for ElectionCall {
    fn run<R: Abort>(&self, rt: &R, heap: Heap<'_>, nth: u64) -> Result<bool, NoMemory> {
        match self {
            ElectionCall::Project => project_added(rt, heap, nth),
            ElectionCall::Voter => voter_added(rt, heap, nth),
        }
    }
}

#[test]
fn projects_and_voters_are_added_or_memory_is_refused(rt: HostRuntime) {
    walk(&rt, rt.alloc(), &ElectionCall::Project);
    walk(&rt, rt.alloc(), &ElectionCall::Voter);
}
