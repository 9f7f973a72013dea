//! What the winners by a rule cost, and what they are to the voters.

ghost use Rattle.std.specs.Prelude.{◌≡◌, ◌^◌, ◌<◌, ◌≤◌, ℕ};
ghost use Rattle.pb_core.specs.Election.{most_voters};
ghost use Rattle.pb_reasons.specs.Inner.Comparing.{IsSmall, with_voter};

use crate::content::Content;

/// What the winners by a rule cost, and what they are to the voters, beside the winners by another rule.
#[derive(Clone, Copy)]
pub struct RuleRow {
    /// How many projects win.
    pub projects: usize,
    /// What these cost, in hundredths.
    pub spent: u128,
    /// What they leave of the budget, in hundredths; 0 where they cost more than it.
    pub left: u128,
    /// How many voters have no winner among their choices, those with an empty ballot too.
    pub without: u32,
    /// How many of a voter's choices win, added up over the voters.
    pub choices: u64,
    /// What these cost, in hundredths, added up over the voters.
    pub worth: u128,
    /// How many voters have more winners among their choices by this rule than by the other.
    pub more_choices: u32,
    /// How many voters have choices that win and cost more by this rule than by the other.
    pub more_worth: u32,
}

impl RuleRow {
    /// The row with one voter more, whose ballot has so much of the winners by this rule, and so much of
    /// those by the other.
    pub(crate) fn with(self, own: Content, other: Content) -> RuleRow
        requires room { (voters : ℕ) × (voters < most_voters) × IsSmall voters self }
        requires small { own.worth ≤ 2 ^ 96 }
        ensures { result ≡ with_voter self own other }
    {
        RuleRow {
            without: self.without + u32::from(own.choices == 0),
            choices: self.choices + u64::from(own.choices),
            worth: self.worth + own.worth,
            more_choices: self.more_choices + u32::from(own.choices > other.choices),
            more_worth: self.more_worth + u32::from(own.worth > other.worth),
            ..self
        }
    }
}
