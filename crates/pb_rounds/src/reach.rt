//! The raises that decide nothing since their shares leave room, which a completion needs not run.

ghost use Rattle.std.specs.Prelude.{◌≡◌, ◌+◌, ◌*◌, ◌<◌, ◌≤◌, ◌⊎◌, ℕ, Some, true};
ghost use Rattle.pb_price.specs.Price.{largest_share};
ghost use Rattle.pb_rounds.specs.CountFault.{most_raises};
ghost use Rattle.pb_rounds.specs.Inner.Reach.{LeavesRoom};

use pb_core::money::Money;
use pb_price::supporters::Supporters;
use std::alloc::Allocator;

/// The share after this many raises.
pub(crate) fn raised_share(opening: Money, raised: u32, step: Money) -> Money
    requires { opening + raised * step ≤ largest_share }
    ensures { result ≡ opening + raised * step }
{
    Money(opening.0 + u64::from(raised) * step.0)
}

/// The lesser of two costs, of which there may be only one.
fn lesser(least: Option<Money>, cost: Money) -> Option<Money>
    ensures { (result ≡ least) ⊎ (result ≡ Some cost) }
{
    match least {
        Some(money) if money <= cost => Some(money),
        _ => Some(cost),
    }
}

/// Whether the projects within reach of this share leave of the budget what some other project with
/// supporters costs.
fn leaves_room<A: Allocator>(supporters: &Supporters<A>, budget: Money, share: Money) -> bool
    ensures { result ≡ true → LeavesRoom supporters.now budget share }
{
    let mut within: u128 = 0;
    let mut least = None;
    for place in 0..supporters.projects() {
        let cost = supporters.cost(place);
        let parts = supporters.cost_in_parts(place);
        let count = supporters.of(place).len() as u64;
        if u128::from(parts.0) <= u128::from(count) * u128::from(share.0) {
            within += u128::from(cost.0);
        } else if count > 0 {
            least = lesser(least, cost);
        }
    }
    match least {
        Some(cost) => within + u128::from(cost.0) <= u128::from(budget.0),
        None => false,
    }
}

/// How many raises, the unraised share among them, leave room and so decide nothing. They are the first ones,
/// since more projects are within reach as the share grows.
pub(crate) fn raises_with_room<A: Allocator>(
    supporters: &Supporters<A>,
    budget: Money,
    opening: Money,
    step: Money,
    max_raises: u32,
) -> u32
    requires share { opening + max_raises * step ≤ largest_share }
    requires raises { max_raises ≤ most_raises }
    ensures few { result ≤ max_raises + 1 }
    ensures room { (raises : ℕ) → raises < result
        → LeavesRoom supporters.now budget (opening + raises * step) }
{
    let mut low = 0;
    let mut high = max_raises + 1;
    while low < high {
        let middle = low + (high - low) / 2;
        if leaves_room(supporters, budget, raised_share(opening, middle, step)) {
            low = middle + 1;
        } else {
            high = middle;
        }
    }
    low
}
