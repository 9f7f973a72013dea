//! What projects cost together and beside each other, and the budget beside them.

use crate::prelude::*;
use pb_core::project::Project;

/// The fewest projects of which most should not cost more than the budget.
const MANY: usize = 5;

/// The fewest projects whose sum may stand in place of an amount, and the most digits of one.
const SUMMED: usize = 4;

const DIGITS: u32 = 18;

/// The fewest costs in thousands, and the fewest others.
const FEWEST: usize = 2;

/// How many times as much the least of the others is, and how far thousands may be from them.
const APART: u64 = 100;

const NEAR: u64 = 3;

/// Whether there are projects, and the budget is less than what each of them costs.
pub fn is_below_costs(election: &Election) -> bool {
    let count = above_budget(election);
    count > 0 && count == election.projects().len()
}

/// Whether there are five projects or more, and the budget is less than what more than half of them cost.
pub fn is_below_most(election: &Election) -> bool {
    let count = election.projects().len();
    count >= MANY && above_budget(election).saturating_mul(2) > count
}

/// How many projects cost more than the budget.
fn above_budget(election: &Election) -> usize {
    let budget = election.budget().0;
    let projects = election.projects().iter();
    projects.filter(|project| project.cost().0 > budget).count()
}

/// Whether these projects, four or more, of which most cost something else than the one before, cost just this amount
/// together, and it is not rounder than their costs: then it may be their sum.
pub fn may_be_sum(projects: &[Project], amount: u64) -> bool {
    let (mut sum, mut before, mut differ) = (0u64, 0u64, 0usize);
    for project in projects {
        let cost = project.cost().0;
        sum = sum.saturating_add(cost);
        differ = differ.saturating_add(usize::from(cost != before));
        before = cost;
    }
    if sum != amount || projects.len() < SUMMED || differ.saturating_mul(2) <= projects.len() {
        return false;
    }
    projects
        .iter()
        .all(|project| zeros_of(amount) <= zeros_of(project.cost().0))
}

/// In how many zeros an amount ends, in hundredths.
fn zeros_of(amount: u64) -> u64 {
    let (mut rest, mut zeros) = (amount, 0u64);
    for _ in 0..DIGITS {
        if rest == 0 || rest % 10 != 0 {
            return zeros;
        }
        rest /= 10;
        zeros = zeros.saturating_add(1);
    }
    zeros
}

/// What all projects cost together.
pub fn sum_of_costs(election: &Election) -> u64 {
    let projects = election.projects().iter();
    projects.fold(0, |sum: u64, project| sum.saturating_add(project.cost().0))
}

/// What all projects cost together, if there are any and it is less than a hundredth of the budget; or less
/// than a tenth, and a hundredth of the budget is more than each cost, as where the budget is in cents.
pub fn sum_below_budget(election: &Election) -> Option<(u64, usize)> {
    let (sum, budget) = (sum_of_costs(election), election.budget().0);
    let are_below = |times: u64, amount: u64| amount.saturating_mul(times) < budget;
    let mut projects = election.projects().iter();
    let are_all_below = projects.all(|project| are_below(100, project.cost().0));
    match sum {
        0 => None,
        _ if are_below(100, sum) => Some((sum, 0)),
        _ if are_below(10, sum) && are_all_below => Some((sum, 1)),
        _ => None,
    }
}

/// The largest of several costs that are probably in thousands, in hundredths: the least of the others, which are several too, is a
/// hundred times as much, and a thousand times each of them is among the others or near them.
pub fn largest_in_thousands(
    alloc: Global,
    projects: &[Project],
) -> Result<Option<u64>, AllocError> {
    let mut costs = Vec::new(alloc);
    for project in projects {
        costs.push(project.cost().0)?;
    }
    let sorted = costs.sort();
    let found = split_by_thousands(costs.as_slice());
    drop(costs);
    sorted?;
    Ok(found)
}

/// The same of these costs, which rise.
fn split_by_thousands(costs: &[u64]) -> Option<u64> {
    let (least, most) = (*costs.first()?, *costs.last()?);
    let is_gap = |pair: &(&u64, &u64)| pair.0.saturating_mul(APART) <= *pair.1;
    let below = costs
        .iter()
        .zip(costs.get(1..)?)
        .position(|pair| is_gap(&pair))?;
    let (largest, other) = (*costs.get(below)?, *costs.get(below.saturating_add(1))?);
    let many = below.saturating_add(1);
    let are_several = many >= FEWEST && costs.len().saturating_sub(many) >= FEWEST;
    let is_near = least.saturating_mul(1_000).saturating_mul(NEAR) >= other
        && largest.saturating_mul(1_000) <= most.saturating_mul(NEAR);
    (are_several && is_near).then_some(largest)
}
