//! The terms of an election: what META sets for its desk and its count.

ghost use Rattle.std.specs.Prelude.{◌≡◌, None};

use crate::money::Money;

/// What META sets for the desk and the count. Whatever passes an election on takes its terms whole, so that
/// a further key of META is a further field here.
#[derive(Clone, Copy)]
pub struct Terms {
    /// The budget, in hundredths.
    pub budget: Money,
    /// The most projects that a ballot may approve where a clerk asks for it; none where there is no limit.
    pub max_length: Option<u32>,
}

impl Terms {
    /// The terms where META sets this budget alone.
    pub fn of_budget(budget: Money) -> Terms
        ensures { result ≡ record { budget = budget; max_length = None } }
    {
        Terms {
            budget,
            max_length: None,
        }
    }
}
