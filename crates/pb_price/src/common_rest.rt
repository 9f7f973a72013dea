//! Prices where all rests are equal, as in the first round of a run: no supporter has to be visited.

ghost use Rattle.std.specs.Prelude.{◌≡◌, ◌<◌, ℕ, List, All, IfSome, length};
ghost use Rattle.pb_price.specs.Price.{AreRests, HasPayers, IsPrice, price_at};

use crate::amount_each::Price;
use crate::base::base;
use crate::steps::PriceSearch;
use crate::supporters::Supporters;
use pb_core::money::Money;
use std::alloc::Allocator;

/// The rest that all voters have, where it was found to be one. Only for a list of as many pieces as there
/// are projects, as a first round has it, are the rests looked at: for a few projects a look would take
/// longer than their prices.
pub(crate) fn common_rest<A: Allocator>(
    supporters: &Supporters<A>,
    rests: &[Money],
    pieces: usize,
) -> Option<Money>
    ensures { IfSome result (λ share. All (λ rest. rest ≡ share) rests.now) }
{
    if pieces < supporters.projects() as usize {
        return None;
    }
    let share = *rests.first()?;
    for rest in rests {
        if *rest != share {
            return None;
        }
    }
    Some(share)
}

impl<'a, A: Allocator> PriceSearch<'a, A> {
    /// The price of the project, where the common rest is that of all voters, if there is one.
    pub(crate) fn price_by(&self, common: &Option<Money>) -> Option<Price>
        requires common { IfSome common.now (λ share. All (λ rest. rest ≡ share) self.now.rests.now) }
        ensures { result ≡ price_at self.now.supporters.now self.now.rests.now self.now.place }
    {
        // What is true of all supporters holds of this project's.
        let _projects = self.supporters.projects();
        match common {
            Some(share) => price_at_share(self.supporters, *share, self.place),
            None => self.price_in_steps(),
        }
    }
}

/// The price where each voter has this share left: the cost divided by the number of supporters, unless that is
/// more than the share.
pub fn price_at_share<A: Allocator>(
    supporters: &Supporters<A>,
    share: Money,
    place: u32,
) -> Option<Price>
    requires { place < length supporters.now.costs }
    ensures price { (rests : List ℕ) → AreRests supporters.now.voters rests → All (λ rest. rest ≡ share) rests
        → IsPrice supporters.now rests place result }
    ensures payers { IfSome result (HasPayers supporters.now) }
{
    let price = base(supporters, place)?;
    if price.is_within(share) {
        Some(price)
    } else {
        None
    }
}
