//! The least price that a project can have.

ghost use Rattle.std.specs.Prelude.{◌≡◌, ◌*◌, ◌<◌, ℕ, All, List, IfSome, MatchBool, None, Some, length, nat_le};
ghost use Rattle.pb_price.specs.Price.{AtMost, HasPayers, IsPrice};
ghost use Rattle.pb_price.specs.Supporters.{IsSupport};

use crate::amount_each::Price;
use crate::grain::Grain;
use crate::supporters::Supporters;
use pb_core::money::Money;
use std::alloc::Allocator;

/// The cost of the project at this place divided by the number of its supporters: its price where each of them
/// can pay that, and below it there is none. None where it has no supporter.
pub(crate) fn base<A: Allocator>(supporters: &Supporters<A>, place: u32) -> Option<Price>
    requires { place < length supporters.now.costs }
    ensures is_support { IsSupport supporters.now }
    ensures none { result ≡ None → (rests : List ℕ) → IsPrice supporters.now rests place None }
    ensures payers { IfSome result (HasPayers supporters.now) }
    ensures at_share { IfSome result (λ base. (rests : List ℕ) (share : ℕ) → length rests ≡ supporters.now.voters
        → All (λ rest. rest ≡ share) rests → MatchBool (nat_le base.amount (share * base.payers))
        (IsPrice supporters.now rests place (Some base)) (IsPrice supporters.now rests place None)) }
    ensures bound { IfSome result (λ base. (rests : List ℕ) (price : _)
        → IsPrice supporters.now rests place (Some price) → AtMost base price) }
{
    let list = supporters.of(place);
    if list.is_empty() {
        return None;
    }
    let cost = supporters.cost_in_parts(place);
    let payers = list.len() as u32;
    match supporters.grain() {
        Grain::Hundredths => Some(Price::whole(Money(cost.0.div_ceil(u64::from(payers))))),
        Grain::Fine => Some(Price {
            amount: cost,
            payers,
        }),
    }
}
