//! A payment of a voter.

use pb_core::money::Money;

/// What a voter paid for an elected project.
#[derive(Clone, Copy)]
pub struct Payment {
    /// The project's place in the election, from 0.
    pub place: u32,
    /// The amount, in the parts that are counted.
    pub amount: Money,
}
