//! What would have made a project win.

ghost use Rattle.std.specs.Prelude.{◌≡◌, ◌≢◌, ◌*◌, ◌-◌, ◌<◌, IfErr, IfOk, Some, length, min};
ghost use Rattle.pb_core.specs.Election.{most_voters};
ghost use Rattle.pb_core.specs.Money.{largest_money};
ghost use Rattle.pb_price.specs.Supporters.{cost_at, support_of};
ghost use Rattle.pb_rounds.specs.CountFault.{refusal_of};
ghost use Rattle.pb_reasons.specs.CountedElection.{IsFaultIn};
ghost use Rattle.pb_reasons.specs.declared.changes.change.Change.TheVariants.{Cost, Voters};
ghost use Rattle.pb_reasons.specs.declared.changes.change.Verdict.TheVariants.{Lost, Won};
ghost use Rattle.pb_reasons.specs.WhatIf.{CanBe, IsFound, IsTrue, IsWhatIf, seen};
ghost use Rattle.pb_reasons.specs.Inner.Doubling.{NoneWins};
ghost use Rattle.pb_reasons.specs.Inner.Searching.{AreKnown, IsSaid};

use crate::changes::change::{Change, Row, Verdict};
use crate::changes::changing::Changing;
use crate::changes::found::{Found, WhatIf};
use crate::changes::recount::{Recount, has_won, verdict_of};
use crate::changes::search::{between, doubled};
use pb_core::election::{Election, MOST_VOTERS};
use pb_core::gate::Gate;
use pb_core::money::Money;
use pb_core::no_memory::NoMemory;
use pb_rounds::count_fault::CountFault;
use std::thread::Threads;

/// Searches what would have made the project win, or lose. A loser is searched from a cost of 0.01 to its
/// own, and from no further voter to as many again, or to as many as an election may still have; a winner
/// from its own cost to ten times it, or to the largest cost of a file.
///
/// Each row is of a whole count. Nothing is claimed of changes between the rows, nor beyond them. RaisesSpent
/// is answered where the election's own count is refused; a changed election whose count is refused is taken for
/// one that the project does not win, and the search goes on past it.
pub fn what_if<T: Threads + Sync, G: Gate>(
    recount: &Recount<T, G>,
    election: Election,
) -> Result<WhatIf, CountFault>
    requires known { recount.now.question.place < length election.projects }
    ensures found { IfOk result (IsWhatIf election recount.now.question
        (cost_at (support_of election) recount.now.question.place)) }
    ensures fault { IfErr result (λ fault. fault ≢ CountFault.NoMemory
        → IsFaultIn recount.now.question.rule election fault) }
{
    let mut election = election;
    let cost = election.projects()[recount.question.place as usize].cost();
    match has_won(recount, &mut election) {
        Ok(won) => {
            let found = searched(recount, election, cost, won)?;
            Ok(found)
        }
        Err(fault) => {
            drop(election);
            Err(fault)
        }
    }
}

/// Searches an election whose project costs so much, and has won or not.
fn searched<T: Threads + Sync, G: Gate>(
    recount: &Recount<T, G>,
    election: Election,
    cost: Money,
    won: bool,
) -> Result<WhatIf, NoMemory>
    requires said { IsSaid election recount.now.question cost won }
    ensures found { IfOk result (IsWhatIf election recount.now.question cost) }
{
    let mut changing = Changing::of(recount.alloc, election)?;
    let found = if won {
        winner(recount, &mut changing, cost)
    } else {
        loser(recount, &mut changing, cost)
    };
    drop(changing);
    found
}

/// Counts an election that is changed once.
pub fn one_change<T: Threads + Sync, G: Gate>(
    recount: &Recount<T, G>,
    election: Election,
    change: Change,
    value: u64,
) -> Result<Row, CountFault>
    requires known { recount.now.question.place < length election.projects }
    requires can_be { CanBe (seen election) change value }
    ensures row { IfOk result (IsTrue (seen election) recount.now.question change) }
    ensures value { IfOk result (λ row. row.value ≡ value) }
    ensures fault { IfErr result (λ fault. fault ≢ CountFault.NoMemory
        → refusal_of recount.now.question.rule.options ≡ Some fault) }
{
    let mut changing = Changing::of(recount.alloc, election)?;
    let lent = changing.lend(recount.alloc, change, recount.question.place, value);
    drop(changing);
    let mut changed = lent?;
    let verdict = verdict_of(recount, &mut changed);
    drop(changed);
    Ok(Row {
        value,
        verdict: verdict?,
    })
}

/// What is found for a winner.
fn winner<T: Threads + Sync, G: Gate>(
    recount: &Recount<T, G>,
    changing: &mut Changing,
    cost: Money,
) -> Result<WhatIf, NoMemory>
    requires won { AreKnown changing.old recount.now.question cost Won }
    ensures cost { IfOk result (λ found.
        IsFound changing.old recount.now.question Cost cost (min (10 * cost) largest_money)
        found.cost.first found.cost.second) }
    ensures voters { IfOk result (λ found.
        IsFound changing.old recount.now.question Voters 0 0 found.voters.first found.voters.second) }
{
    let nobody = row_of(0, Verdict::Won);
    let found = dearer(recount, changing, cost)?;
    Ok(WhatIf {
        cost: found,
        voters: alone(nobody),
    })
}

/// What is found of a winner's cost.
fn dearer<T: Threads + Sync, G: Gate>(
    recount: &Recount<T, G>,
    changing: &mut Changing,
    cost: Money,
) -> Result<Found, NoMemory>
    requires won { AreKnown changing.old recount.now.question cost Won }
    ensures found { IfOk result (λ found.
        IsFound changing.old recount.now.question Cost cost (min (10 * cost) largest_money)
        found.first found.second) }
{
    let own = row_of(cost.0, Verdict::Won);
    let most = (10 * cost.0).min(Money::LARGEST.0);
    if cost.0 < most {
        let high = changing.row(recount, Change::Cost, most)?;
        between(recount, changing, Change::Cost, own, high)
    } else {
        Ok(alone(own))
    }
}

/// What is found for a loser.
pub(crate) fn loser<T: Threads + Sync, G: Gate>(
    recount: &Recount<T, G>,
    changing: &mut Changing,
    cost: Money,
) -> Result<WhatIf, NoMemory>
    requires lost { AreKnown changing.old recount.now.question cost Lost }
    ensures cost { IfOk result (λ found.
        IsFound changing.old recount.now.question Cost 1 cost found.cost.first found.cost.second) }
    ensures voters { IfOk result (λ found. IsFound changing.old recount.now.question Voters 0
        (min (length changing.old.ballots) (most_voters - length changing.old.ballots))
        found.voters.first found.voters.second) }
    ensures doubled { IfOk result (λ found.
        NoneWins changing.old recount.now.question found.voters.second.value) }
{
    let found = cheaper(recount, changing, cost)?;
    let voters = changing.voters();
    let most = voters.min(MOST_VOTERS - voters);
    Ok(WhatIf {
        cost: found,
        voters: doubled(recount, changing, most as u64)?,
    })
}

/// What is found of a loser's cost.
fn cheaper<T: Threads + Sync, G: Gate>(
    recount: &Recount<T, G>,
    changing: &mut Changing,
    cost: Money,
) -> Result<Found, NoMemory>
    requires lost { AreKnown changing.old recount.now.question cost Lost }
    ensures found { IfOk result (λ found.
        IsFound changing.old recount.now.question Cost 1 cost found.first found.second) }
    ensures kept { IfOk result (λ _. changing.new ≡ changing.old) }
{
    let own = row_of(cost.0, Verdict::Lost);
    if 1 < cost.0 {
        let low = changing.row(recount, Change::Cost, 1)?;
        between(recount, changing, Change::Cost, low, own)
    } else {
        Ok(alone(own))
    }
}

/// What a count says where this value is changed.
fn row_of(value: u64, verdict: Verdict) -> Row
    ensures { result ≡ record { value = value; verdict = verdict } }
{
    Row { value, verdict }
}

/// The row of a range that is one value.
fn alone(row: Row) -> Found
    ensures { result ≡ record { first = row; second = row } }
{
    Found {
        first: row,
        second: row,
    }
}
