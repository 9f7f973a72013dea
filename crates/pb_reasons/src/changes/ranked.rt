//! The losers of a count in the order of their votes.

ghost use Rattle.std.specs.Prelude.{◌≡◌, IfOk, length, map, take};
ghost use Rattle.pb_reasons.specs.Inner.Losers.{AreFirst, others_of, ranked_of};

use crate::counted::Counted;
use crate::winners::flags_of;
use pb_core::election::Election;
use pb_core::no_memory::NoMemory;
use pb_core::order::ProjectOrder;
use pb_price::supporters::Supporters;
use std::alloc::Global;
use std::cmp::Reverse;

/// A project that lost. The one with more votes comes first, among equals the one that stands first in the
/// file.
#[derive(Clone, Copy, PartialEq, Eq, PartialOrd, Ord)]
pub(crate) struct Ranked {
    /// How many ballots approve it.
    pub votes: Reverse<usize>,
    /// Its place in the file, from 0.
    pub place: u32,
}

/// The first so many losers of what a count comes to, by their places in the file: those with most votes, equal
/// ones in the order of the file. The projects of the election stand in this order of their places.
pub(crate) fn first_losers(
    alloc: Global,
    election: &Election,
    counted: &Counted,
    order: &ProjectOrder,
    first: usize,
) -> Result<Vec<u32>, NoMemory>
    requires { length order.now ≡ length election.now.projects }
    ensures { IfOk result (λ places. AreFirst election.now counted.now order.now first places.items) }
{
    // What is true of every order is true of this one.
    let _places = order.places();
    let winners = counted.winners(alloc)?;
    let supporters = Supporters::build(alloc, election)?;
    let mut losers = others(alloc, &supporters, winners.as_slice(), order)?;
    losers.sort_unstable();
    first_places(alloc, losers.as_slice(), first)
}

/// The projects that are not among these winners, in the order of the election.
fn others(
    alloc: Global,
    supporters: &Supporters,
    winners: &[u32],
    order: &ProjectOrder,
) -> Result<Vec<Ranked>, NoMemory>
    requires { length order.now ≡ length supporters.now.costs }
    ensures { IfOk result (λ losers. losers.items
        ≡ map (ranked_of supporters.now order.now) (others_of supporters.now winners.now)) }
{
    let projects = supporters.projects();
    let has_won = flags_of(alloc, winners, projects as usize)?;
    let mut losers = Vec::new(alloc);
    for place in 0..projects {
        if !has_won[place as usize] {
            let votes = Reverse(supporters.of(place).len());
            let place = order.places()[place as usize];
            losers.push(Ranked { votes, place })?;
        }
    }
    Ok(losers)
}

/// The places of the first so many of these.
fn first_places(alloc: Global, losers: &[Ranked], first: usize) -> Result<Vec<u32>, NoMemory>
    ensures { IfOk result (λ places. places.items ≡ take first (map (λ l. l.place) losers.now)) }
{
    let mut places = Vec::with_capacity(alloc, losers.len())?;
    for loser in losers {
        places.push(loser.place)?;
    }
    places.truncate(first);
    Ok(places)
}
