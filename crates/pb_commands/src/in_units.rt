//! The fields of amounts in the parts that are counted.

ghost use Rattle.std.specs.Prelude.{◌≡◌};
ghost use Rattle.pb_price.specs.Price.{HasPayers};
ghost use Rattle.pb_price.specs.Supporters.{support_in};
ghost use Rattle.pb_rows.specs.Tables.{field_text};
ghost use Rattle.pb_commands.specs.Report.{in_units};

use pb_core::money::Money;
use pb_price::Price;
use pb_reasons::CountedElection;
use pb_rows::Field;

/// The field of an amount, which each pays alone.
pub(crate) fn in_units(count: &CountedElection, amount: Money) -> Field<'static>
    ensures { field_text result ≡ in_units count.now amount 1 }
{
    Field::Exact(u128::from(amount.0), count.parts())
}

/// The field of a price, as it is.
pub(crate) fn price_in_units(count: &CountedElection, price: Price) -> Field<'static>
    requires { HasPayers (support_in count.now.rule.options.grain count.now.election) price }
    ensures { field_text result ≡ in_units count.now price.amount price.payers }
{
    // What is true of every election bounds its voters.
    let _election = count.election();
    let amount = price.amount;
    let payers = price.payers;
    let divisor = u64::from(payers) * count.parts();
    Field::Exact(u128::from(amount.0), divisor)
}
