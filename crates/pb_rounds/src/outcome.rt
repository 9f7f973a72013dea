//! What a count gives.

use pb_core::money::Money;
use pb_price::Price;
use std::alloc::{Allocator, Global};
use std::marker::Model;

/// An elected project.
#[derive(Clone, Copy, Debug, PartialEq, Eq)]
pub struct Elected {
    /// Its place in the election, from 0.
    pub place: u32,
    /// What each supporter paid at most: the price, rounded down.
    pub price: Money,
    /// The price as it is.
    pub exact: Price,
    /// The sum of the payments: in hundredths at least the cost, in fine money at most.
    pub collected: Money,
}

impl Model for Elected {
    ghost use Rattle.pb_rounds.specs.Run.{ElectedView};

    ghost Value = { ElectedView };

    ghost view = { λ w. record { place = w.place; price = w.price; exact = w.exact; collected = w.collected } };

    ghost inverse = { λ w. record { place = w.place; price = w.price; exact = w.exact; collected = w.collected } };
}

/// What a run of Equal Shares gives.
#[derive(Drop)]
pub struct Outcome<A: Allocator = Global> {
    /// Each voter's share of the budget, in the parts that are counted.
    pub share: Money,
    /// How many times the share was raised.
    pub raised: u32,
    /// The elected projects, in order of election.
    pub elected: Vec<Elected, A>,
    /// What is left of each voter's share, in file order, in the same parts.
    pub rests: Vec<Money, A>,
    /// How many prices each round computed, the last round, which elects nothing, included.
    pub priced: Vec<u64, A>,
}

impl<A: Allocator> Model for Outcome<A> {
    ghost use Rattle.pb_rounds.specs.Outcome.{OutcomeView};

    ghost Value = { OutcomeView };

    ghost view = { λ o. record {
      share = o.share;
      raised = o.raised;
      elected = o.elected.items;
      rests = o.rests.items;
      priced = o.priced.items;
    } };
}

impl<A: Allocator> Outcome<A> {
    /// An outcome that no run has filled yet.
    pub(crate) fn unfilled(alloc: A) -> Outcome<A>
    where
        A: Copy,
    {
        Outcome {
            share: Money(0),
            raised: 0,
            elected: Vec::new(alloc),
            rests: Vec::new(alloc),
            priced: Vec::new(alloc),
        }
    }
}
