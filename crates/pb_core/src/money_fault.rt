//! Why a text names no amount of money.

ghost use Rattle.std.specs.Prelude.{◌≡◌};
ghost use Rattle.pb_core.specs.Numbered.{numbered};
ghost use Rattle.pb_core.specs.contracts.money_fault.MoneyFault.{the_type};

use crate::names::name_at;
use thiserror::Error;

/// The names of the faults, in the order of `MoneyFault`.
pub(crate) const NAMES: [&str; 3] = ["BadMoney", "MoneyTooFine", "MoneyTooLarge"];

/// Why a text is no amount of money. The first of these that applies is answered.
#[derive(Clone, Copy, Debug, PartialEq, Eq, Error)]
pub enum MoneyFault {
    /// The text is not digits, or digits, a point or comma, and digits.
    #[error("not an amount of money")]
    BadMoney,
    /// A digit after the second decimal is not `0`.
    #[error("finer than a hundredth")]
    MoneyTooFine,
    /// The amount is above `Money::LARGEST`.
    #[error("above ten million million")]
    MoneyTooLarge,
}

impl MoneyFault {
    /// The fault's number, from 1.
    pub fn number(&self) -> u32
        ensures { result ≡ (numbered the_type NAMES self.now).0 }
    {
        *self as u32 + 1
    }

    /// The fault's name.
    pub fn name(&self) -> &'static str
        ensures { result.now ≡ (numbered the_type NAMES self.now).1 }
    {
        name_at(&NAMES, *self as usize)
    }
}
