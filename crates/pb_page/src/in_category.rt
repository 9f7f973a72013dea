//! What a category has of the winners.

ghost use Rattle.std.specs.Prelude.{◌≡◌, ◌+◌, ◌<◌, ◌^◌};

use pb_core::money::Money;

/// What a category has of the winners.
#[derive(Clone, Copy)]
pub struct InCategory {
    /// How many of them are of it.
    pub winners: u64,
    /// What these cost together.
    pub cost: Money,
}

impl InCategory {
    /// These winners and one more, of this cost.
    pub(crate) fn with(self, cost: Money) -> InCategory
        requires winners { self.winners + 1 < 2 ^ 64 }
        requires cost { self.cost + cost < 2 ^ 64 }
        ensures { result ≡ record { winners = self.winners + 1; cost = self.cost + cost } }
    {
        InCategory {
            winners: self.winners + 1,
            cost: Money(self.cost.0 + cost.0),
        }
    }
}
