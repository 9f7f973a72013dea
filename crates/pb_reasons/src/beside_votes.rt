//! What a count elects beside what most votes first elects.

ghost use Rattle.std.specs.Prelude.{◌≡◌, IfOk};
ghost use Rattle.pb_reasons.specs.BesideVotes.{beside_votes, elected_by_votes};

use crate::comparison::{Comparison, compare};
use crate::counted_election::CountedElection;
use pb_core::no_memory::NoMemory;
use pb_rounds::most_votes_first;
use std::alloc::Global;

/// Whom most votes first elects, by place: from an empty list, and with the whole budget.
pub fn elected_by_votes(alloc: Global, count: &CountedElection) -> Result<Vec<u32>, NoMemory>
    ensures { IfOk result (λ places. places.items ≡ elected_by_votes count.now.election) }
{
    most_votes_first(alloc, count.supporters(), &[], count.election().budget())
}

/// Compares what this count elects and adds with what most votes first elects.
pub fn compare_with_votes(alloc: Global, count: &CountedElection) -> Result<Comparison, NoMemory>
    ensures { IfOk result (λ rules. rules ≡ beside_votes count.now.election count.now.counted) }
{
    let other = elected_by_votes(alloc, count)?;
    let compared = compare(alloc, count.election(), count.winners(), other.as_slice());
    drop(other);
    compared
}
