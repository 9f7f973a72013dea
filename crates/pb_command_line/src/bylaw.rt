//! A rule in the words of a by-law.

use crate::decider::{BEFORE, Decider};
use pb_core::money::Money;
use pb_price::Grain;
use pb_rounds::measure::Measure;
use pb_rounds::options::{Completion, LARGEST_STEP};
use pb_rounds::rule::{FillUp, Rule};
use pb_rounds::tie_rule::{TieKeys, ties_named};
use std::alloc::{AllocError, Global};

/// The method, and what of it goes by how finely money is counted, up to the rule by which a round chooses.
const METHOD: &str =
    "The winning projects are found by the Method of Equal Shares (Peters, Pierczyński and Skowron, Proportional Participatory Budgeting with Additive Utilities, 2021).";

const IN_HUNDREDTHS: &str =
    "Each voter has an equal share of the budget, rounded down to a whole hundredth of the currency. A project can be paid for if what its supporters have left of their shares covers its cost. Its price is the least amount in whole hundredths that covers the cost if each supporter pays this amount, or all that the supporter has left where that is less.";

const IN_PARTS: &str =
    "Money is counted in small parts of the currency: a hundredth has 10,000 parts for each voter. Each voter has an equal share of the budget. A project can be paid for if what its supporters have left of their shares covers its cost. Its price is not rounded: it is the amount that covers the cost exactly if each supporter pays this amount, or all that the supporter has left where that is less. Only what a supporter then pays of a price is rounded down to a whole part.";

/// The method that chooses by votes alone.
const MOST_VOTES: &str =
    "The winning projects are found by the number of their supporters. The budget goes to projects that have supporters: those with the most supporters first, among these the cheapest first, each if what is left of the budget covers its cost. What remains is not spent.";

/// How a round ends.
const ROUND: &str =
    "wins, and its supporters pay for it. This is repeated until no project can be paid for.";

/// What follows where no project is added.
const KEPT: &str = "What is left of the budget is not spent.";

/// What follows where projects are added.
const FILLED_UP: &str =
    "What is left of the budget then goes to other projects that have supporters: those with the most supporters first, among these the cheapest first, each if what is left covers its cost. What still remains is not spent.";

/// Who wins among equals, where nothing else decides.
const FIRST_LISTED: &str = "the one that comes first in the published list wins.";

/// How a lot is drawn: its seed may not be known while ballots can still change, so a by-law has no seed.
const LOT: &str =
    "a lot decides. Its seed is drawn in public after the ballots are closed, for example as the winning numbers of a lottery on a day that is named before the vote. For each of the equal projects the SHA-256 of the seed, a line feed and the id of the project is taken, and the one with the least wins.";

/// The second count, where one decides.
const SECOND: &str =
    " These projects are the first result. For a second result, the whole budget goes to projects that have supporters: those with the most supporters first, among these the cheapest first, each if what is left covers its cost. Equal projects come in the same order as above. What remains is not spent. For each voter it is found out by which of the two results";

/// What of the choices of a voter that win is compared.
const BY_CHOICES: &str = "more of the projects that the voter approved win";

const BY_WORTH: &str = "the winning projects that the voter approved cost more together";

/// Which result applies.
const APPLIES: &str =
    "If the voters of whom this is the second result outnumber those of whom it is the first, the second result applies. Otherwise, also if they are equally many, the first one applies.";

/// What stands behind the name of a rule with a lot.
const SEED_OF_NAME: &str = ", with the seed in place of SEED";

/// Whether a count can raise shares by the step of this rule, if it raises them.
pub(crate) fn has_a_step(rule: &Rule) -> bool {
    let step = rule.options.step;
    let is_step = step >= Money(1) && step <= LARGEST_STEP;
    is_step || rule.options.completion != Completion::Add1
}

/// The paragraph of a by-law that asks for this rule, and its name.
pub(crate) fn bylaw_text(
    alloc: Global,
    rule: &Rule,
    decider: Option<Decider>,
) -> Result<String, AllocError> {
    let behind = if rule.ties.lot.is_some() {
        SEED_OF_NAME
    } else {
        ""
    };
    let name = named_text(alloc, rule, decider)?;
    let winners = winners_text(alloc, rule)?;
    let ties = ties_text(alloc, rule)?;
    let decision = decision_text(alloc, decider)?;
    format!(in alloc; "{winners} {ties}{decision} The name of this rule is {name}{behind}.\n")
}

/// The name of this rule, with the word SEED for the seed of its lot, and behind it what decides.
fn named_text(alloc: Global, rule: &Rule, decider: Option<Decider>) -> Result<String, AllocError> {
    let Ok(name) = unseeded(rule).profile(alloc) else {
        return Err(AllocError);
    };
    match decider {
        None => Ok(name),
        Some(decider) => {
            let by = decider.name();
            format!(in alloc; "{name}{BEFORE}{by}")
        }
    }
}

/// How it is decided whether a second result applies, if it is.
fn decision_text(alloc: Global, decider: Option<Decider>) -> Result<String, AllocError> {
    match decider {
        None => Ok(String::new(alloc)),
        Some(Decider::Choices) => format!(in alloc; "{SECOND} {BY_CHOICES}. {APPLIES}"),
        Some(Decider::Worth) => format!(in alloc; "{SECOND} {BY_WORTH}. {APPLIES}"),
    }
}

/// The same rule, with the word SEED for the seed of its lot, if it has one.
fn unseeded(rule: &Rule) -> Rule {
    let mut unseeded = *rule;
    if unseeded.ties.lot.is_some() {
        unseeded.ties.lot = match ties_named("lot:SEED") {
            Some(ties) => ties.lot,
            None => None,
        };
    }
    unseeded
}

/// Who wins among equals. By most votes first these have as many votes and the same cost, so that keys decide nothing.
fn ties_text(alloc: Global, rule: &Rule) -> Result<String, AllocError> {
    let keys = match (rule.options.completion, rule.ties.keys) {
        (Completion::NoShares, _) | (_, TieKeys::Nothing) => None,
        (_, TieKeys::Votes) => Some("the one with the most supporters wins"),
        (_, TieKeys::Cost) => Some("the cheapest one wins"),
        (_, TieKeys::VotesThenCost) => {
            Some("the one with the most supporters wins, and among these the cheapest")
        }
        (_, TieKeys::CostThenVotes) => {
            Some("the cheapest one wins, and among these the one with the most supporters")
        }
    };
    let last = if rule.ties.lot.is_some() {
        LOT
    } else {
        FIRST_LISTED
    };
    let equal = "Where projects are equal by these rules";
    match keys {
        None => format!(in alloc; "{equal}, {last}"),
        Some(keys) => { format!(in alloc; "{equal}, {keys}. Where they are still equal, {last}") }
    }
}

/// How this rule finds the winners, but for ties.
fn winners_text(alloc: Global, rule: &Rule) -> Result<String, AllocError> {
    let raises = match rule.options.completion {
        Completion::NoShares => return String::from_str(alloc, MOST_VOTES),
        Completion::Plain => String::new(alloc),
        Completion::Add1 => raises_text(alloc, rule)?,
    };
    let first = match rule.options.measure {
        Measure::Votes => "the project with the lowest price",
        Measure::Cost => "the project whose price divided by its cost is lowest",
    };
    let last = match rule.fill_up {
        FillUp::Nothing => KEPT,
        FillUp::MostVotes => FILLED_UP,
    };
    let money = match rule.options.grain {
        Grain::Hundredths => IN_HUNDREDTHS,
        Grain::Fine => IN_PARTS,
    };
    let text = format!(in alloc; "{METHOD} {money} In each round {first} {ROUND}{raises} {last}");
    drop(raises);
    text
}

/// How shares are raised.
fn raises_text(alloc: Global, rule: &Rule) -> Result<String, AllocError> {
    let Ok(step) = rule.options.step.text(alloc) else {
        return Err(AllocError);
    };
    let text = format!(in alloc;
        " If a project that has supporters and does not win costs no more than what is left of the budget, each share is raised by {step}, and all winners are found anew with these shares. This is repeated until there is no such project, or until the winners would cost more than the budget; then those that were found before that raise win."
    );
    drop(step);
    text
}
