//! What a price is.

ghost use Rattle.std.specs.Prelude.{◌≡◌, ◌+◌, ◌*◌, ◌≤◌, ◌/◌, ◌%◌, min, nat_le};
ghost use Rattle.pb_price.specs.Price.{due};

use pb_core::money::Money;
use std::marker::Model;

/// A price: an amount, divided by how many supporters pay it together. In hundredths each pays it alone, and
/// it is rounded up. In fine money it is not rounded.
#[derive(Clone, Copy, Debug, PartialEq, Eq)]
pub struct Price {
    /// What the payers pay together.
    pub amount: Money,
    /// How many they are: at least 1.
    pub payers: u32,
}

impl Model for Price {
    ghost use Rattle.pb_price.specs.Price.{PriceView};

    ghost Value = { PriceView };

    ghost view = { λ p. record { amount = p.amount; payers = p.payers } };

    ghost inverse = { λ p. record { amount = p.amount; payers = p.payers } };
}

impl Price {
    /// A whole price, which each pays alone.
    pub fn whole(amount: Money) -> Price
        ensures { result ≡ record { amount = amount; payers = 1 } }
    {
        Price { amount, payers: 1 }
    }

    /// What a supporter pays at most: the price, rounded down.
    pub fn due(self) -> Money
        requires { 1 ≤ self.payers }
        ensures { result ≡ due self }
    {
        Money(self.amount.0 / u64::from(self.payers))
    }

    /// The least that a supporter must have left to pay it in full: the price, rounded up.
    pub fn least_rest(self) -> Money
        requires { 1 ≤ self.payers }
        ensures { result ≡ self.amount / self.payers + min 1 (self.amount % self.payers) }
    {
        Money(self.amount.0.div_ceil(u64::from(self.payers)))
    }

    /// Whether it is at most this.
    pub fn is_within(self, rest: Money) -> bool
        ensures { result ≡ nat_le self.amount (rest * self.payers) }
    {
        u128::from(self.amount.0) <= u128::from(rest.0) * u128::from(self.payers)
    }
}
