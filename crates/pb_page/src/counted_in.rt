//! Amounts of the parts that are counted.

ghost use Rattle.std.specs.Prelude.{◌≡◌, true};
ghost use Rattle.pb_page.specs.Amount.{rounded};
ghost use Rattle.pb_page.specs.Page.{counted_in};
ghost use Rattle.pb_price.specs.Price.{HasPayers};
ghost use Rattle.pb_price.specs.Supporters.{support_in};

use crate::markup::Divided;
use pb_core::money::Money;
use pb_price::Price;
use pb_reasons::CountedElection;

/// So many parts.
pub(crate) fn counted_in(count: &CountedElection, is_up: bool, amount: Money) -> Divided
    ensures { result ≡ counted_in count.now is_up 1 amount }
{
    parts_in(count, is_up, u128::from(amount.0))
}

/// The same, where they may be more than an amount of money.
pub(crate) fn parts_in(count: &CountedElection, is_up: bool, amount: u128) -> Divided
    ensures { result ≡ counted_in count.now is_up 1 amount }
{
    let divisor = count.parts();
    Divided {
        amount,
        divisor,
        is_up,
    }
}

/// So many parts in whole hundredths, as people see them.
pub(crate) fn hundredths_in(count: &CountedElection, is_up: bool, amount: Money) -> Money
    ensures { result ≡ rounded (counted_in count.now is_up 1 amount) }
{
    let divisor = count.parts().max(1);
    if is_up {
        Money(amount.0.div_ceil(divisor))
    } else {
        Money(amount.0 / divisor)
    }
}

/// A price, as it is.
pub(crate) fn price_in(count: &CountedElection, price: Price) -> Divided
    requires { HasPayers (support_in count.now.rule.options.grain count.now.election) price }
    ensures { result ≡ counted_in count.now true price.payers price.amount }
{
    // What is true of every election bounds its voters.
    let _election = count.election();
    let amount = price.amount;
    let payers = price.payers;
    let divisor = u64::from(payers) * count.parts();
    Divided {
        amount: u128::from(amount.0),
        divisor,
        is_up: true,
    }
}
