//! What a voter's ballot came to.

use pb_core::money::Money;

/// What a voter's ballot came to.
#[derive(Clone, Copy)]
pub struct VoterReason {
    /// How many projects the ballot approves.
    pub votes: u32,
    /// How many of these are elected, also where nothing was paid, or added.
    pub elected: u32,
    /// What the voter paid, in the parts that are counted.
    pub paid: Money,
    /// What is left of the voter's share, in the same.
    pub left: Money,
}
