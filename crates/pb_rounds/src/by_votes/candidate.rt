//! The projects that may be added, in the order in which they are looked at.

ghost use Rattle.std.specs.Prelude.{◌≡◌, ◌<◌, map, length, IfOk};
ghost use Rattle.std.specs.List.{range_with_len};
ghost use Rattle.pb_price.specs.Supporters.{IsSupport};
ghost use Rattle.pb_rounds.specs.Inner.Candidates.{candidates_of};
ghost use Rattle.pb_rounds.specs.MostVotes.{is_taken};

use pb_core::money::Money;
use pb_core::no_memory::NoMemory;
use pb_price::Supporters;
use std::alloc::Allocator;
use std::cmp::Reverse;

/// A project that may be added. The one with more votes comes first, among equals the cheaper, among equals
/// the one that stands first.
#[derive(Clone, Copy, PartialEq, Eq, PartialOrd, Ord)]
pub(crate) struct Candidate {
    /// How many ballots approve it: at least 1.
    pub votes: Reverse<usize>,
    /// What it costs, in hundredths.
    pub cost: Money,
    /// Its place in the election, from 0.
    pub place: u32,
}

/// The projects that have a supporter and are not taken, in file order.
pub(crate) fn candidates<A: Allocator, B: Allocator>(
    alloc: A,
    supporters: &Supporters<B>,
    taken: &[u32],
) -> Result<Vec<Candidate, A>, NoMemory>
where
    A: Copy,
    ensures candidates { IfOk result
        (λ candidates. candidates.items ≡ candidates_of supporters.now taken.now) }
    ensures is_support { IsSupport supporters.now }
{
    let projects = supporters.projects();
    let is_taken = taken_flags(alloc, projects, taken)?;
    let mut candidates = Vec::new(alloc);
    for place in 0..projects {
        let votes = supporters.of(place).len();
        if votes > 0 && !is_taken[place as usize] {
            candidates.push(Candidate {
                votes: Reverse(votes),
                cost: supporters.cost(place),
                place,
            })?;
        }
    }
    Ok(candidates)
}

/// Whether each of this many projects is taken, in file order.
fn taken_flags<A: Allocator>(
    alloc: A,
    projects: u32,
    taken: &[u32],
) -> Result<Vec<bool, A>, NoMemory>
    ensures flags { IfOk result (λ flags. flags.items ≡ map (is_taken taken.now)
        (range_with_len 0 projects)) }
    ensures one_each { IfOk result (λ flags. length flags.items ≡ projects) }
{
    let mut flags = vec![in alloc; false; projects as usize]?;
    for place in taken {
        if *place < projects {
            flags[*place as usize] = true;
        }
    }
    Ok(flags)
}
