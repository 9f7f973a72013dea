//! What an approval is worth.

ghost use Rattle.std.specs.Prelude.{◌≡◌, ◌*◌, ◌<◌, ◌≤◌, ◌^◌, length};
ghost use Rattle.pb_price.specs.Price.{HasPayers, PriceView};
ghost use Rattle.pb_price.specs.Supporters.{IsSupport};
ghost use Rattle.pb_rounds.specs.Run.{weight_of};

use pb_price::supporters::Supporters;
use std::alloc::Allocator;

/// What an elected project is worth to a voter who approves it: its utility in Equal Shares.
#[derive(Clone, Copy)]
pub enum Measure {
    /// One for each approved project: a round elects the least price.
    Votes,
    /// The project's cost: a round elects the least price over cost.
    Cost,
}

impl Measure {
    /// What the price of the project at this place is divided by.
    pub(crate) fn weight<A: Allocator>(self, supporters: &Supporters<A>, place: u32) -> u64
        requires { place < length supporters.now.costs }
        ensures weight { result ≡ weight_of self supporters.now place }
        ensures positive { 1 ≤ result }
        ensures is_support { IsSupport supporters.now }
        ensures fits { (price : PriceView) → HasPayers supporters.now price → price.payers * result < 2 ^ 64 }
    {
        // What is true of all supporters holds of how many vote.
        let _voters = supporters.voters();
        match self {
            Measure::Votes => 1,
            Measure::Cost => supporters.cost(place).0,
        }
    }
}
