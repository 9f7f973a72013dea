//! The numbers of the whole.

ghost use Rattle.std.specs.Prelude.{◌≡◌};
ghost use Rattle.pb_page.specs.Inner.Counted.{figures_of};

use crate::rule::has_no_shares;
use pb_core::money::Money;
use pb_price::Grain;
use pb_reasons::CountedElection;

/// The numbers of the whole.
#[derive(Clone, Copy)]
pub struct Figures {
    pub voters: u64,
    pub projects: u64,
    pub won: u64,
    pub budget: Money,
    /// What the winners cost together.
    pub spent: Money,
    /// The budget less that.
    pub left: Money,
    /// What was paid beyond the costs of the elected, or is left uncovered of them, in the parts that are counted.
    pub surplus: Money,
    /// How many of these a hundredth has.
    pub parts: u64,
    /// How finely money is counted.
    pub grain: Grain,
    /// Nobody has a share.
    pub by_votes: bool,
}

impl Figures {
    /// Those of a counted election.
    pub(crate) fn of(count: &CountedElection) -> Figures
        ensures { result ≡ figures_of count.now }
    {
        let election = count.election();
        let totals = count.totals();
        let budget = election.budget();
        Figures {
            voters: election.voters().len() as u64,
            projects: election.projects().len() as u64,
            won: count.winners().len() as u64,
            budget,
            spent: totals.spent,
            left: Money(budget.0.saturating_sub(totals.spent.0)),
            surplus: totals.surplus,
            parts: count.parts(),
            grain: count.rule().options.grain,
            by_votes: has_no_shares(&count.rule()),
        }
    }
}
