//! How many of each voter's choices won.

ghost use Rattle.std.specs.Prelude.{◌≡◌, IfOk, length, map};
ghost use Rattle.std.specs.List.{range_with_len};
ghost use Rattle.pb_page.specs.Inner.Counted.{at_least, exactly};
ghost use Rattle.pb_price.specs.Supporters.{ballot_at};
ghost use Rattle.pb_reasons.specs.Comparison.{choices_of};
ghost use Rattle.pb_reasons.specs.Counted.{winners_of};

use pb_core::election::Election;
use pb_core::no_memory::NoMemory;
use pb_reasons::{CountedElection, Winners};
use std::alloc::Global;

/// A row of the histogram.
#[derive(Clone, Copy)]
pub struct BallotsRow {
    /// The key of what is said of so many winners.
    pub said: u16,
    /// So many winners.
    pub number: u32,
    /// On this many ballots.
    pub ballots: u64,
}

/// How many of each voter's choices won, voters in the order of the file.
pub(crate) fn won_by_voter(alloc: Global, count: &CountedElection) -> Result<Vec<u32>, NoMemory>
    ensures { IfOk result (λ won. won.items
        ≡ map (λ v. choices_of (winners_of count.now.counted) v.ballot) count.now.election.voters) }
{
    choices_among(alloc, count.election(), count.winners())
}

/// How many of each voter's choices are among these places, voters in the order of the file.
fn choices_among(alloc: Global, election: &Election, places: &[u32]) -> Result<Vec<u32>, NoMemory>
    ensures { IfOk result (λ won. won.items
        ≡ map (λ voter. choices_of places.now (ballot_at election.now voter))
        (range_with_len 0 (length election.now.voters))) }
{
    let winners = Winners::of(alloc, election, places)?;
    let won = winners.choices_by_voter(alloc);
    drop(winners);
    won
}

/// On how many ballots so many choices won.
pub(crate) fn exactly(number: u32, won: &[u32]) -> u64
    ensures { result ≡ exactly number won.now }
{
    won.iter().filter(|each| **each == number).count() as u64
}

/// On how many ballots so many choices won, or more.
pub(crate) fn at_least(number: u32, won: &[u32]) -> u64
    ensures { result ≡ at_least number won.now }
{
    won.iter().filter(|each| number <= **each).count() as u64
}
