//! Searches of one kind of change.

ghost use Rattle.std.specs.Prelude.{◌≡◌, ◌≢◌, ◌+◌, ◌*◌, ◌<◌, ◌≤◌, IfOk, false, length, max, min, true};
ghost use Rattle.pb_core.specs.Election.{most_voters};
ghost use Rattle.pb_reasons.specs.declared.changes.change.Change.TheVariants.{Voters};
ghost use Rattle.pb_reasons.specs.declared.changes.change.Verdict.TheVariants.{Lost};
ghost use Rattle.pb_reasons.specs.WhatIf.{CanBe, IsFound, IsTrue, wins};
ghost use Rattle.pb_reasons.specs.Inner.Doubling.{NoneWins};
ghost use Rattle.pb_reasons.specs.Inner.Searching.{AreEnds, AreNear};

use crate::changes::change::{Change, Row, Verdict};
use crate::changes::changing::Changing;
use crate::changes::found::Found;
use crate::changes::recount::Recount;
use pb_core::gate::Gate;
use pb_core::no_memory::NoMemory;
use std::thread::Threads;

/// What is found between the ends of a range.
pub(crate) fn between<T: Threads + Sync, G: Gate>(
    recount: &Recount<T, G>,
    changing: &mut Changing,
    change: Change,
    low: Row,
    high: Row,
) -> Result<Found, NoMemory>
    requires ends { AreEnds changing.old recount.now.question change low high }
    ensures found { IfOk result (λ found.
        IsFound changing.old recount.now.question change low.value high.value found.first found.second) }
    ensures kept { IfOk result (λ _. changing.new ≡ changing.old) }
{
    if is_alike(low.verdict, high.verdict) {
        return Ok(Found {
            first: low,
            second: high,
        });
    }
    halved(recount, changing, change, low, high)
}

/// Halves a range of which one end wins and the other does not, until its ends are one step apart. The end that
/// wins stays one that wins. A count that is refused is taken for one that does not win.
fn halved<T: Threads + Sync, G: Gate>(
    recount: &Recount<T, G>,
    changing: &mut Changing,
    change: Change,
    low: Row,
    high: Row,
) -> Result<Found, NoMemory>
    requires ends { AreEnds changing.old recount.now.question change low high }
    requires one_wins { wins low.verdict ≢ wins high.verdict }
    ensures near { IfOk result (λ found.
        AreNear changing.old recount.now.question change low.value high.value found.first found.second) }
    ensures high { IfOk result (λ found. wins found.second.verdict ≡ wins high.verdict) }
    ensures kept { IfOk result (λ _. changing.new ≡ changing.old) }
{
    let (mut low, mut high) = (low, high);
    'halving: while low.value + 1 < high.value {
        let row = changing.row(recount, change, middle(low.value, high.value))?;
        if is_alike(low.verdict, row.verdict) {
            low = row;
        } else {
            high = row;
        }
    }
    Ok(Found {
        first: low,
        second: high,
    })
}

/// Doubles the number of further voters until the project wins, up to so many, and halves between the last
/// two numbers. It goes on past a count that is refused.
pub(crate) fn doubled<T: Threads + Sync, G: Gate>(
    recount: &Recount<T, G>,
    changing: &mut Changing,
    most: u64,
) -> Result<Found, NoMemory>
    requires known { recount.now.question.place < length changing.old.costs }
    requires nobody { IsTrue changing.old recount.now.question Voters (record { value = 0; verdict = Lost }) }
    requires can_be { CanBe changing.old Voters most }
    ensures found { IfOk result (λ found.
        IsFound changing.old recount.now.question Voters 0 most found.first found.second) }
    ensures doubled { IfOk result (λ found. NoneWins changing.old recount.now.question found.second.value) }
{
    let nobody = Row {
        value: 0,
        verdict: Verdict::Lost,
    };
    let mut last = nobody;
    'doubling: while last.value < most {
        let row = changing.row(recount, Change::Voters, next_value(last.value, most))?;
        if is_won(row.verdict) {
            return halved(recount, changing, Change::Voters, last, row);
        }
        last = row;
    }
    Ok(Found {
        first: nobody,
        second: last,
    })
}

/// Whether two verdicts both say that the project wins, or both that it does not.
fn is_alike(one: Verdict, other: Verdict) -> bool
    ensures alike { result ≡ true → wins one ≡ wins other }
    ensures differ { result ≡ false → wins one ≢ wins other }
{
    match one {
        Verdict::Won => is_won(other),
        _ => !is_won(other),
    }
}

/// Whether a verdict is that the project wins.
fn is_won(verdict: Verdict) -> bool
    ensures { result ≡ wins verdict }
{
    match verdict {
        Verdict::Won => true,
        _ => false,
    }
}

/// A value between two.
fn middle(low: u64, high: u64) -> u64
    requires apart { low + 1 < high }
    ensures above { low < result }
    ensures below { result < high }
{
    low + (high - low) / 2
}

/// Twice a number, at least 1 and at most this limit.
fn next_value(value: u64, most: u64) -> u64
    requires below { value < most }
    requires small { most ≤ most_voters }
    ensures doubled { result ≡ min (max (2 * value) 1) most }
    ensures more { value < result }
    ensures within { result ≤ most }
{
    (2 * value).max(1).min(most)
}
