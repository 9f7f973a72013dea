//! Filling up by votes.

ghost use Rattle.std.specs.Prelude.{◌≡◌, IfOk};
ghost use Rattle.pb_rounds.specs.Inner.Candidates.{affordable};
ghost use Rattle.pb_rounds.specs.MostVotes.{most_votes_first};

use crate::by_votes::candidate::{Candidate, candidates};
use pb_core::money::Money;
use pb_core::no_memory::NoMemory;
use pb_price::Supporters;
use std::alloc::Allocator;

/// The projects that most votes first adds to those that are taken already, by place, in the order in which
/// they are added: while a project fits, the one with the most supporters is added, among equals the cheaper,
/// among equals the one that stands first. A project fits where it has a supporter, is not taken,
/// and costs at most what is left, in hundredths; what an added one costs is no longer left.
///
/// With nothing taken and the whole budget left it is the whole rule. The order in which `taken` names places
/// says nothing, nor does a place that no project has.
pub fn most_votes_first<A: Allocator, B: Allocator>(
    alloc: A,
    supporters: &Supporters<B>,
    taken: &[u32],
    left: Money,
) -> Result<Vec<u32, A>, NoMemory>
where
    A: Copy,
    ensures { IfOk result (λ added. added.items ≡ most_votes_first supporters.now taken.now left) }
{
    let mut candidates = candidates(alloc, supporters, taken)?;
    candidates.sort_unstable();
    affordable(alloc, candidates.as_slice(), left)
}

/// The candidates that can be paid one after the other, by place: who costs more than is left is passed over.
fn affordable<A: Allocator>(
    alloc: A,
    candidates: &[Candidate],
    left: Money,
) -> Result<Vec<u32, A>, NoMemory>
    ensures { IfOk result (λ places. places.items ≡ affordable left candidates.now) }
{
    let mut left = left.0;
    let mut places = Vec::new(alloc);
    for candidate in candidates {
        if candidate.cost.0 <= left {
            left -= candidate.cost.0;
            places.push(candidate.place)?;
        }
    }
    Ok(places)
}
