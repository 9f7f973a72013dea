//! What a round orders projects by.

ghost use Rattle.std.specs.Prelude.{◌≡◌, ◌*◌, ◌<◌, ◌≤◌, ◌^◌};
ghost use Rattle.pb_rounds.specs.Key.{divisor};

use pb_core::money::Money;
use pb_price::Price;
use std::cmp::Ordering;
use std::marker::Model;

/// What a round orders projects by: the smaller price over weight comes first, and among equals the project
/// that stands earlier. (The place decides before the weight and the payers, which only tell apart keys that
/// are made by hand.)
#[derive(Clone, Copy, PartialEq, Eq)]
pub struct Key {
    amount: Money,
    weight: u64,
    payers: u32,
    place: u32,
}

impl Model for Key {
    ghost use Rattle.std.specs.Prelude.{◌*◌, ◌<◌, ◌≤◌, ◌^◌};
    ghost use Rattle.pb_rounds.specs.Key.{KeyView};

    ghost Value = { KeyView };

    ghost view = { λ k. record {
      price = record { amount = k.amount; payers = k.payers };
      weight = k.weight;
      place = k.place;
    } };

    ghost invariant = { λ k. (1 ≤ k.weight) × (1 ≤ k.payers) × (k.payers * k.weight < 2 ^ 64) };

    ghost inverse = { λ k. record {
      amount = k.price.amount;
      weight = k.weight;
      payers = k.price.payers;
      place = k.place;
    } };
}

impl Key {
    /// The key of the project at this place, at this price and this weight, which is at least 1.
    pub fn new(price: Price, weight: u64, place: u32) -> Key
        requires weight { 1 ≤ weight }
        requires payers { 1 ≤ price.payers }
        requires fits { price.payers * weight < 2 ^ 64 }
        ensures { result ≡ record { price = price; weight = weight; place = place } }
    {
        Key {
            amount: price.amount,
            weight,
            payers: price.payers,
            place,
        }
    }

    /// What each supporter pays at most.
    pub fn price(&self) -> Price
        ensures price { result ≡ self.now.price }
        ensures positive { 1 ≤ result.payers }
        ensures fits { result.payers * self.now.weight < 2 ^ 64 }
    {
        Price {
            amount: self.amount,
            payers: self.payers,
        }
    }

    /// What the amount of its price is divided by: by the payers, and by the weight.
    fn divisor(&self) -> u64
        ensures { result ≡ divisor self.now }
    {
        u64::from(self.payers) * self.weight
    }

    /// What the price is divided by: at least 1.
    pub fn weight(&self) -> u64
        ensures weight { result ≡ self.now.weight }
        ensures positive { 1 ≤ result }
    {
        self.weight
    }

    /// The project's place in the election, from 0.
    pub fn place(&self) -> u32
        ensures { result ≡ self.now.place }
    {
        self.place
    }
}

impl Ord for Key {
    ghost use Rattle.pb_rounds.specs.Key.{key_cmp};
    ghost use Rattle.pb_rounds.specs.Inner.KeyOrder.{fields_tie, key_cmp-total};
    ghost use Rattle.std.proofs.Common.{refl};

    ghost cmp = { key_cmp };

    ghost total = { key_cmp-total };

    ghost matches_partial_cmp = { λ x y. refl };

    ghost matches_eq = { fields_tie };

    fn cmp(&self, other: &Key) -> Ordering {
        let ratio = u128::from(self.amount.0) * u128::from(other.divisor());
        let other_ratio = u128::from(other.amount.0) * u128::from(self.divisor());
        let by_ratio = ratio.cmp(&other_ratio);
        let by_place = self.place.cmp(&other.place);
        let by_weight = self.weight.cmp(&other.weight);
        by_ratio.then(by_place.then(by_weight.then(self.payers.cmp(&other.payers))))
    }
}

impl PartialOrd for Key {
    ghost use Rattle.std.specs.Cmp.{partial_order_from_own_ties, partial_order_from_total};
    ghost use Rattle.std.specs.Ordering.{as_partial_cmp};
    ghost use Rattle.pb_rounds.specs.Key.{key_cmp};
    ghost use Rattle.pb_rounds.specs.Inner.KeyOrder.{fields_tie, key_cmp-total};

    ghost partial_cmp = { as_partial_cmp key_cmp };

    ghost laws = { partial_order_from_own_ties (partial_order_from_total key_cmp-total) fields_tie };

    fn partial_cmp(&self, other: &Key) -> Option<Ordering> {
        Some(self.cmp(other))
    }
}
