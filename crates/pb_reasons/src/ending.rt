//! What a project lacked.

ghost use Rattle.std.specs.Prelude.{◌≡◌, ◌-◌, ◌<◌, All, length};
ghost use Rattle.pb_price.specs.Price.{total_rest};

use crate::project_reason::Lost;
use pb_core::money::Money;

/// What a project of this cost lacks at what its supporters have left.
pub(crate) fn lost(supporters: &[u32], cost: Money, rests: &[Money]) -> Lost
    requires known { All (λ voter. voter < length rests.now) supporters.now }
    requires short { total_rest supporters.now rests.now < cost }
    ensures { result ≡ record {
      left = total_rest supporters.now rests.now;
      missing = cost - total_rest supporters.now rests.now;
    } }
{
    let cost = cost.0;
    let mut left = 0;
    for voter in supporters {
        let rest = &rests[*voter as usize];
        left += rest.0;
    }
    Lost {
        left: Money(left),
        missing: Money(cost - left),
    }
}
