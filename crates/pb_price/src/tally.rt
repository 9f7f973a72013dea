//! How many prices were computed, and by how many workers.

ghost use Rattle.std.specs.Prelude.{◌≡◌, ◌+◌};
ghost use Rattle.std.specs.Io.Iter.{u64_saturate};

use std::marker::Model;

/// How many prices were computed, and how many workers computed them, list by list. At the largest `u64`
/// either stays there.
#[derive(Drop)]
pub struct Tally {
    prices: u64,
    workers: u64,
}

impl Model for Tally {
    ghost use Rattle.pb_price.specs.Price.{TallyView};

    ghost Value = { TallyView };

    ghost view = { λ t. record { prices = t.prices; workers = t.workers } };
}

impl Tally {
    /// A tally of no price.
    pub fn new() -> Tally
        ensures { result ≡ record { prices = 0; workers = 0 } }
    {
        Tally {
            prices: 0,
            workers: 0,
        }
    }

    /// The number of prices that were computed.
    pub fn count(&self) -> u64
        ensures { result ≡ self.now.prices }
    {
        self.prices
    }

    /// The number of workers who priced a list, added up over the lists.
    pub fn workers(&self) -> u64
        ensures { result ≡ self.now.workers }
    {
        self.workers
    }

    /// One more price was computed, without a worker.
    pub(crate) fn add_one(&mut self)
        ensures { self.new ≡ record self.old { prices = u64_saturate (self.old.prices + 1) } }
    {
        self.prices = self.prices.saturating_add(1);
    }

    /// This many more prices were computed, by this many workers.
    pub(crate) fn add(&mut self, prices: u64, workers: u32)
        ensures { self.new ≡ record {
          prices = u64_saturate (self.old.prices + prices);
          workers = u64_saturate (self.old.workers + workers);
        } }
    {
        self.prices = self.prices.saturating_add(prices);
        self.workers = self.workers.saturating_add(u64::from(workers));
    }
}
