//! Why a project is elected or added, or is neither.

use pb_core::money::Money;
use pb_price::Price;

/// How an elected project was paid.
#[derive(Clone, Copy)]
pub struct Won {
    /// The round that elected it, from 1.
    pub round: u32,
    /// The most that a supporter paid, rounded down, in the parts that are counted, as all of this.
    pub price: Money,
    /// The price as it is: in fine money it is not rounded.
    pub exact: Price,
    /// What the payments sum to.
    pub collected: Money,
    /// How many supporters paid the whole price.
    pub in_full: u32,
}

/// A project that is added by votes to the elected.
#[derive(Clone, Copy)]
pub struct Added {
    /// Its number in the order in which projects are added, from 1.
    pub number: u64,
}

/// What a project that is neither elected nor added lacked.
#[derive(Clone, Copy)]
pub struct Lost {
    /// What its supporters have left together, in the parts that are counted.
    pub left: Money,
    /// Its cost less that, in the same.
    pub missing: Money,
}

/// How a project ended.
#[derive(Clone, Copy)]
pub enum Ending {
    /// It is elected.
    Won(Won),
    /// It is added by votes.
    Added(Added),
    /// It is neither.
    Lost(Lost),
}

/// Why a project is elected or added, or is neither.
#[derive(Clone, Copy)]
pub struct ProjectReason {
    /// How many ballots approve it.
    pub votes: u32,
    /// How it ended.
    pub ending: Ending,
}
