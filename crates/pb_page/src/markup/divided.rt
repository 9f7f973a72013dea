//! An amount that may be no whole number of hundredths.

ghost use Rattle.std.specs.Prelude.{◌≡◌};
ghost use Rattle.pb_page.specs.Amount.{rounded};

/// An amount in hundredths, divided by so much (by 0 as by 1), which people see rounded.
#[derive(Clone, Copy)]
pub struct Divided {
    pub amount: u128,
    pub divisor: u64,
    /// Whether it is rounded up.
    pub is_up: bool,
}

/// The whole hundredths that people see.
pub(crate) fn rounded(amount: &Divided) -> u128
    ensures { result ≡ rounded amount.now }
{
    let divisor = u128::from(amount.divisor.max(1));
    if amount.is_up {
        amount.amount.div_ceil(divisor)
    } else {
        amount.amount / divisor
    }
}
