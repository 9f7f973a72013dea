//! By which rule the winners of an election are chosen.

ghost use Rattle.std.specs.Prelude.{◌≡◌, false, true};
ghost use Rattle.pb_rounds.specs.RuleNames.{fills_up};

use crate::options::CountOptions;
use crate::tie_rule::TieRule;

/// What is done with what the elected leave of the budget.
#[derive(Clone, Copy)]
pub enum FillUp {
    /// Nothing.
    Nothing,
    /// Projects are added, most votes first, each where it still fits.
    MostVotes,
}

impl FillUp {
    /// Whether projects may be added.
    pub fn fills_up(self) -> bool
        ensures { result ≡ fills_up self }
    {
        match self {
            FillUp::Nothing => false,
            FillUp::MostVotes => true,
        }
    }
}

/// By which rule the winners of an election are chosen.
#[derive(Clone, Copy)]
pub struct Rule {
    /// How projects are elected.
    pub options: CountOptions,
    /// What is done with what they leave of the budget.
    pub fill_up: FillUp,
    /// Which of equal projects comes first.
    pub ties: TieRule,
}
