//! How an election is counted.

ghost use Rattle.std.specs.Prelude.{◌≡◌};
ghost use Rattle.pb_price.specs.declared.grain.Grain.TheVariants.{Hundredths};
ghost use Rattle.pb_rounds.specs.CountFault.{most_raises};
ghost use Rattle.pb_rounds.specs.declared.measure.Measure.TheVariants.{Votes};
ghost use Rattle.pb_rounds.specs.declared.options.Completion.TheVariants.{Add1};

use crate::measure::Measure;
use pb_core::money::Money;
use pb_price::Grain;

/// The most that a raise lifts everyone's share by, in hundredths.
pub const LARGEST_STEP: Money = Money(1_000_000_000);

/// The most raises.
pub const MOST_RAISES: u32 = 1_000_000;

/// What is done with the money that a first run leaves; or that no shares are given.
#[derive(Clone, Copy)]
pub enum Completion {
    /// Nothing: the outcome at the opening share stands.
    Plain,
    /// Everyone's share is raised step by step, until the elected cost too much or nothing more could be
    /// bought.
    Add1,
    /// Nobody has a share, so nothing is elected: with filling up, most votes first as a rule of its own.
    NoShares,
}

/// How to count.
#[derive(Clone, Copy)]
pub struct CountOptions {
    /// By how much a raise lifts everyone's share, in hundredths: 1 to 1,000,000,000.
    pub step: Money,
    /// How many raises there are at most: 0 to 1,000,000.
    pub max_raises: u32,
    /// How many workers compute prices side by side: 1 to 64. The outcome is the same for any number.
    pub workers: u32,
    /// Whether an outcome is completed by raises.
    pub completion: Completion,
    /// What a round orders projects by.
    pub measure: Measure,
    /// How finely money is counted.
    pub grain: Grain,
}

impl CountOptions {
    /// One worker, steps of 1.00, up to 1,000,000 raises, completion by raises, measure votes, and hundredths.
    pub fn standard() -> CountOptions
        ensures { result
            ≡ record {
              step = 100;
              max_raises = most_raises;
              workers = 1;
              completion = Add1;
              measure = Votes;
              grain = Hundredths;
            } }
    {
        CountOptions {
            step: Money(100),
            max_raises: MOST_RAISES,
            workers: 1,
            completion: Completion::Add1,
            measure: Measure::Votes,
            grain: Grain::Hundredths,
        }
    }
}
