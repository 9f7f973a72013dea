//! Which projects are elected, and whether another could be added.

ghost use Rattle.std.specs.Prelude.{◌≡◌, ◌<◌, List, OnOk, false, length, nat_le, nat_lt, replicate};
ghost use Rattle.std.specs.Prelude.{slice_set, true, ◌&&◌};
ghost use Rattle.pb_price.specs.Supporters.{supporters_at, cost_at};
ghost use Rattle.pb_rounds.specs.Count.{spent_on, is_exhausted};
ghost use Rattle.pb_rounds.specs.Inner.Queue.{AreMarked};
ghost use Rattle.pb_rounds.specs.Run.{ElectedView};

use pb_core::money::Money;
use pb_core::no_memory::NoMemory;
use pb_price::supporters::Supporters;
use std::alloc::Allocator;

/// A mark for each project, in place of what the list held: none is elected.
pub(crate) fn clear_marks<A: Allocator>(
    marks: &mut Vec<bool, A>,
    projects: u32,
) -> Result<(), NoMemory>
    ensures { OnOk result (marks.new.items ≡ replicate projects false) }
{
    marks.clear();
    marks.resize(projects as usize, false)?;
    Ok(())
}

/// Marks the project at this place.
pub(crate) fn mark<A: Allocator>(marks: &mut Vec<bool, A>, place: u32)
    requires { place < length marks.old.items }
    ensures { marks.new.items ≡ slice_set marks.old.items place true }
{
    marks[place as usize] = true;
}

/// Whether this project has a supporter and costs at most this much.
fn is_affordable<A: Allocator>(supporters: &Supporters<A>, place: u32, money: u128) -> bool
    requires { place < length supporters.now.costs }
    ensures { result
        ≡ (nat_lt 0 (length (supporters_at supporters.now place))
        && nat_le (cost_at supporters.now place) money) }
{
    !supporters.of(place).is_empty() && u128::from(supporters.cost(place).0) <= money
}

/// Whether the elected are within the budget, and no other project could be added to them: the marks say of
/// each project whether it is elected, and `spent` is what the elected cost together, in hundredths.
pub(crate) fn is_exhausted<A: Allocator>(
    supporters: &Supporters<A>,
    budget: Money,
    spent: u128,
    marks: &[bool],
) -> bool
    requires { length marks.now ≡ length supporters.now.costs }
    ensures { (elected : List ElectedView) → AreMarked supporters.now elected marks.now
        → spent ≡ spent_on supporters.now elected → result ≡ is_exhausted supporters.now budget elected }
{
    let budget = u128::from(budget.0);
    if spent > budget {
        return false;
    }
    for place in 0..supporters.projects() {
        if !marks[place as usize] && is_affordable(supporters, place, budget - spent) {
            return false;
        }
    }
    true
}
