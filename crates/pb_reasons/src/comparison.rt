//! Two rules side by side.

ghost use Rattle.std.specs.Prelude.{◌≡◌, IfOk};
ghost use Rattle.pb_reasons.specs.Comparison.{comparison_of};

use crate::rule_row::RuleRow;
use crate::winners::Winners;
use pb_core::election::Election;
use pb_core::no_memory::NoMemory;
use std::alloc::Global;

/// Two rules side by side: each one's row, beside the other.
#[derive(Clone, Copy)]
pub struct Comparison {
    /// The rule that is asked of.
    pub own: RuleRow,
    /// The rule beside it.
    pub other: RuleRow,
}

/// Compares the winners by a rule with those by another, both by place: what they cost, and what they are to
/// the voters. The order in which they stand says nothing, and a place that no project has costs nothing.
///
/// Each approval is looked at once for each rule.
pub fn compare(
    alloc: Global,
    election: &Election,
    winners: &[u32],
    other: &[u32],
) -> Result<Comparison, NoMemory>
    ensures { IfOk result (λ comparison. comparison ≡ comparison_of election.now winners.now other.now) }
{
    let winners = Winners::of(alloc, election, winners)?;
    let other = Winners::of(alloc, election, other)?;
    let compared = compared(election, &winners, &other);
    drop(other);
    drop(winners);
    Ok(compared)
}

/// Compares two rules, once it is known which projects are winners.
fn compared(election: &Election, winners: &Winners, other: &Winners) -> Comparison
    requires winners { winners.now.0 ≡ election.now }
    requires other { other.now.0 ≡ election.now }
    ensures { result ≡ comparison_of election.now winners.now.1 other.now.1 }
{
    let mut rows = Comparison {
        own: winners.row(),
        other: other.row(),
    };
    for voter in election.voters() {
        let ballot = voter.ballot.places();
        let own = winners.content(ballot);
        let beside = other.content(ballot);
        rows = Comparison {
            own: rows.own.with(own, beside),
            other: rows.other.with(beside, own),
        };
    }
    rows
}
