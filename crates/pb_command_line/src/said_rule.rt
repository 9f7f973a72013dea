//! A rule, as far as options or a page say it.

use crate::method::Method;
use pb_core::money::Money;
use pb_price::Grain;
use pb_rounds::measure::Measure;
use pb_rounds::options::{Completion, CountOptions};
use pb_rounds::rule::{FillUp, Rule};
use pb_rounds::tie_rule::TieRule;

/// A rule, as far as options or a page say it.
#[derive(Clone, Copy)]
pub struct SaidRule {
    /// The method, if it is named.
    pub method: Option<Method>,
    /// The first option that says how shares are used, by its place among these, if one is given.
    pub of_shares: Option<usize>,
    pub measure: Option<Measure>,
    /// Whether shares are raised.
    pub completion: Option<Completion>,
    /// How what is left is filled up; it is said where the completion is.
    pub fill_up: Option<FillUp>,
    /// How much a raise adds to a share.
    pub step: Option<Money>,
    /// The most raises that are allowed.
    pub max_raises: Option<u32>,
    /// How finely money is counted.
    pub grain: Option<Grain>,
    /// Which of equal projects comes first.
    pub ties: Option<TieRule>,
}

impl SaidRule {
    /// The same with this completion, if it is one.
    pub fn completed(&self, said: Option<(Completion, FillUp)>) -> SaidRule {
        let mut rule = *self;
        if let Some((completion, fill_up)) = said {
            rule.completion = Some(completion);
            rule.fill_up = Some(fill_up);
        }
        rule
    }

    /// What the name of this rule says.
    pub fn named(rule: &Rule) -> SaidRule {
        let options = &rule.options;
        let step = match options.completion {
            Completion::Add1 => Some(options.step),
            Completion::Plain => None,
            Completion::NoShares => return SaidRule::most_votes(rule.ties),
        };
        SaidRule {
            method: Some(Method::EqualShares),
            of_shares: None,
            measure: Some(options.measure),
            completion: Some(options.completion),
            fill_up: Some(rule.fill_up),
            step,
            max_raises: None,
            grain: Some(options.grain),
            ties: Some(rule.ties),
        }
    }

    /// The method alone is said.
    pub fn method(method: Method) -> SaidRule {
        let mut rule = SaidRule::nothing();
        rule.method = Some(method);
        rule
    }

    /// Most votes first is said, and this rule for ties.
    fn most_votes(ties: TieRule) -> SaidRule {
        let mut rule = SaidRule::method(Method::MostVotes);
        rule.ties = Some(ties);
        rule
    }

    /// Nothing is said.
    pub fn nothing() -> SaidRule {
        SaidRule {
            method: None,
            of_shares: None,
            measure: None,
            completion: None,
            fill_up: None,
            step: None,
            max_raises: None,
            grain: None,
            ties: None,
        }
    }

    /// What this one says, and for the rest what the other one says.
    pub fn or(&self, other: &SaidRule) -> SaidRule {
        SaidRule {
            method: self.method.or(other.method),
            of_shares: self.of_shares.or(other.of_shares),
            measure: self.measure.or(other.measure),
            completion: self.completion.or(other.completion),
            fill_up: self.fill_up.or(other.fill_up),
            step: self.step.or(other.step),
            max_raises: self.max_raises.or(other.max_raises),
            grain: self.grain.or(other.grain),
            ties: match self.ties {
                Some(ties) => Some(ties),
                None => other.ties,
            },
        }
    }

    /// Whether it is most votes first.
    pub fn is_most_votes(&self) -> bool {
        matches!(self.method, Some(Method::MostVotes))
    }

    /// The rule of a count by so many workers; what is not said is as in the standard one.
    pub fn rule(&self, workers: u32) -> Rule {
        let standard = CountOptions::standard();
        let ties = match self.ties {
            Some(ties) => ties,
            None => TieRule::file(),
        };
        if self.is_most_votes() {
            return most_votes(workers, ties);
        }
        let options = CountOptions {
            step: self.step.unwrap_or(standard.step),
            max_raises: self.max_raises.unwrap_or(standard.max_raises),
            workers,
            completion: self.completion.unwrap_or(standard.completion),
            measure: self.measure.unwrap_or(standard.measure),
            grain: self.grain.unwrap_or(standard.grain),
        };
        Rule {
            options,
            fill_up: self.fill_up.unwrap_or(FillUp::Nothing),
            ties,
        }
    }
}

/// Most votes first, by as many workers as this rule, and with its rule for ties.
pub fn most_votes_beside(rule: &Rule) -> Rule {
    most_votes(rule.options.workers, rule.ties)
}

/// Most votes first, by so many workers, with this rule for ties.
fn most_votes(workers: u32, ties: TieRule) -> Rule {
    let mut options = CountOptions::standard();
    options.workers = workers;
    options.completion = Completion::NoShares;
    Rule {
        options,
        fill_up: FillUp::MostVotes,
        ties,
    }
}
