//! The price of one project.

ghost use Rattle.std.specs.Prelude.{◌≡◌, ◌+◌, ◌<◌, length, IfOk, OnOk};
ghost use Rattle.std.specs.Prelude.{OnErr};
ghost use Rattle.std.specs.Io.Iter.{u64_saturate};
ghost use Rattle.pb_price.specs.Price.{AreRests, IsPrice};

use crate::amount_each::Price;
use crate::steps::PriceSearch;
use crate::supporters::Supporters;
use crate::tally::Tally;
use pb_core::money::Money;
use pb_core::no_memory::NoMemory;
use std::alloc::Allocator;

/// The price of the project at this place. In hundredths it is the least payment by which its supporters cover
/// its cost, where each pays this amount, or all that is left to them where that is less. In fine money it is
/// the payment by which they cover it exactly, which need not be whole. There is none where all that is left to
/// them together is below the cost. (Peters, Pierczynski and Skowron 2021.)
///
/// `rests` has what is left to each voter. A price that was computed counts one in the tally. It takes no
/// memory.
pub fn price<A: Allocator, B: Allocator>(
    _alloc: A,
    supporters: &Supporters<B>,
    rests: &[Money],
    place: u32,
    tally: &mut Tally,
) -> Result<Option<Price>, NoMemory>
    requires rests { AreRests supporters.now.voters rests.now }
    requires known { place < length supporters.now.costs }
    ensures price { IfOk result (IsPrice supporters.now rests.now place) }
    ensures counted { OnOk result (tally.new
        ≡ record tally.old { prices = u64_saturate (tally.old.prices + 1) }) }
    ensures err { OnErr result (tally.new ≡ tally.old) }
{
    let sought = PriceSearch {
        supporters,
        rests,
        place,
    };
    let price = sought.price_in_steps();
    tally.add_one();
    Ok(price)
}
