//! The order in which equal projects come.

ghost use Rattle.std.specs.Prelude.{◌≡◌, ◌<◌, ◌≤◌, IfOk, OnErr, [], length, map, slice_index_or};
ghost use Rattle.std.specs.List.{range_with_len};
ghost use Rattle.pb_core.specs.Election.{most_projects, project_ids};
ghost use Rattle.pb_core.specs.Order.{in_order};
ghost use Rattle.pb_rounds.specs.Inner.Tied.{drawn, keyed, tied_of};
ghost use Rattle.pb_rounds.specs.TieOrder.{IsTieOrder};

use crate::tie_rule::{TieKeys, TieRule};
use arrayvec::ArrayString;
use pb_core::election::Election;
use pb_core::no_memory::NoMemory;
use pb_core::order::ProjectOrder;
use pb_price::Supporters;
use sha2::{Digest, Sha256};
use std::alloc::Global;
use std::cmp::Reverse;

/// A project, as ties are broken by it: a number that the rule doesn't name is 0.
#[derive(Clone, Copy, PartialEq, Eq, PartialOrd, Ord)]
pub(crate) struct Tied {
    /// How many ballots approve it.
    pub votes: Reverse<usize>,
    /// Its cost, in hundredths.
    pub cost: u64,
    /// How many ballots approve it, where the cost comes first.
    pub then_votes: Reverse<usize>,
    /// What is drawn for it.
    pub lot: [u8; 32],
    /// Its place in the file, from 0.
    pub place: u32,
}

/// The order in which equal projects of an election come by this rule.
pub fn tie_order(
    alloc: Global,
    election: &Election,
    ties: &TieRule,
) -> Result<ProjectOrder, NoMemory>
    ensures { IfOk result (IsTieOrder ties.now election.now) }
{
    // What is true of every election holds of its projects.
    let _projects = election.projects();
    let mut tied = all_tied(alloc, election, ties)?;
    tied.sort_unstable();
    let places = places_of(alloc, tied.as_slice())?;
    Ok(ProjectOrder::of(alloc, places)?)
}

/// The order of a file with so many projects.
fn file_order(alloc: Global, projects: u32) -> Result<ProjectOrder, NoMemory>
    requires { projects ≤ most_projects }
    ensures { IfOk result (λ order. order ≡ range_with_len 0 projects) }
{
    let mut places = Vec::new(alloc);
    for place in 0..projects {
        places.push(place)?;
    }
    Ok(ProjectOrder::of(alloc, places)?)
}

/// Puts the projects of an election in the order in which equal ones come by this rule, which is the answer.
/// Where memory is refused all stays as it is.
pub fn put_in_tie_order(
    alloc: Global,
    election: &mut Election,
    ties: &TieRule,
) -> Result<ProjectOrder, NoMemory>
    ensures order { IfOk result (IsTieOrder ties.now election.old) }
    ensures sorted { IfOk result (λ order. election.new ≡ in_order order election.old) }
    ensures err { OnErr result (election.new ≡ election.old) }
{
    if ties.is_file() {
        let projects = election.projects().len();
        return file_order(alloc, projects as u32);
    }
    let order = tie_order(alloc, election, ties)?;
    election.put_in_order(alloc, &order)?;
    Ok(order)
}

/// Each project as ties are broken by it, in the order of the file.
fn all_tied(alloc: Global, election: &Election, ties: &TieRule) -> Result<Vec<Tied>, NoMemory>
    ensures { IfOk result (λ tied. tied.items
        ≡ map (tied_of ties.now election.now) (range_with_len 0 (length election.now.projects))) }
{
    let supporters = Supporters::build(alloc, election)?;
    let mut tied = Vec::new(alloc);
    for place in 0..supporters.projects() {
        let votes = supporters.of(place).len();
        let cost = supporters.cost(place).0;
        let lot = drawn_at(election, place, &ties.lot);
        tied.push(keyed(ties.keys, votes, cost, place, lot))?;
    }
    Ok(tied)
}

/// What is drawn for the project at this place.
fn drawn_at(election: &Election, place: u32, lot: &Option<ArrayString<64>>) -> [u8; 32]
    requires { place < length election.now.projects }
    ensures { result ≡ drawn lot.now (slice_index_or (project_ids election.now) place []) }
{
    let project = &election.projects()[place as usize];
    draw(lot, project.id())
}

/// A project with so many votes and this cost as these keys order it.
fn keyed(keys: TieKeys, votes: usize, cost: u64, place: u32, lot: [u8; 32]) -> Tied
    ensures { result ≡ keyed keys votes cost place lot }
{
    let (votes, cost, then_votes) = match keys {
        TieKeys::Nothing => (0, 0, 0),
        TieKeys::Votes => (votes, 0, 0),
        TieKeys::Cost => (0, cost, 0),
        TieKeys::VotesThenCost => (votes, cost, 0),
        TieKeys::CostThenVotes => (0, cost, votes),
    };
    Tied {
        votes: Reverse(votes),
        cost,
        then_votes: Reverse(then_votes),
        lot,
        place,
    }
}

/// What is drawn for the project with this id: the SHA-256 of the seed, a line feed and the id; zeros where
/// there is no lot.
fn draw(lot: &Option<ArrayString<64>>, id: &str) -> [u8; 32]
    ensures { result ≡ drawn lot.now id.now }
{
    match lot {
        None => [0; 32],
        Some(seed) => {
            let mut hasher = Sha256::new();
            hasher.update(seed.as_str().as_bytes());
            hasher.update(b"\n".as_slice());
            hasher.update(id.as_bytes());
            hasher.finalize()
        }
    }
}

/// The places of these.
fn places_of(alloc: Global, tied: &[Tied]) -> Result<Vec<u32>, NoMemory>
    ensures { IfOk result (λ places. places.items ≡ map (λ t. t.place) tied.now) }
{
    let mut places = Vec::with_capacity(alloc, tied.len())?;
    for project in tied {
        places.push(project.place)?;
    }
    Ok(places)
}
