//! The queue of the projects that may tie.

ghost use Rattle.std.specs.Prelude.{◌≡◌, ◌<◌, ◌≤◌, ◌*◌, ◌^◌, IfOk, IfSome, MatchOption, OnOk, Some, length, ◌∷◌};
ghost use Rattle.pb_price.specs.Price.{HasPayers, PriceView};
ghost use Rattle.pb_price.specs.Supporters.{IsSupport};
ghost use Rattle.pb_reasons.specs.Inner.TieQueue.{PutsBound, TakesDue};
ghost use Rattle.pb_rounds.specs.Inner.Queue.{IsDone, IsFull};
ghost use Rattle.pb_rounds.specs.Run.{key_of, weight_of};

use pb_core::money::Money;
use pb_core::no_memory::NoMemory;
use pb_price::Price;
use pb_price::supporters::Supporters;
use pb_rounds::key::Key;
use pb_rounds::measure::Measure;
use std::alloc::Global;
use std::collections::BTreeSet;

/// What the price of the project at this place is divided by.
pub(crate) fn weight_of(measure: Measure, supporters: &Supporters, place: u32) -> u64
    requires { place < length supporters.now.costs }
    ensures weight { result ≡ weight_of measure supporters.now place }
    ensures positive { 1 ≤ result }
    ensures is_support { IsSupport supporters.now }
    ensures fits { (price : PriceView) → HasPayers supporters.now price → price.payers * result < 2 ^ 64 }
{
    // What is true of all supporters holds of how many vote.
    let _voters = supporters.voters();
    match measure {
        Measure::Votes => 1,
        Measure::Cost => supporters.cost(place).0,
    }
}

/// The key of the project at this place, of whose price this is a lower bound.
fn key_of(measure: Measure, supporters: &Supporters, place: u32, bound: Price) -> Key
    requires known { place < length supporters.now.costs }
    requires payers { HasPayers supporters.now bound }
    ensures { result ≡ key_of measure supporters.now place bound }
{
    let weight = weight_of(measure, supporters, place);
    Key::new(bound, weight, place)
}

/// The queue before the first round: each project, with the lower bound 0.
pub(crate) fn opening_queue(
    alloc: Global,
    measure: Measure,
    supporters: &Supporters,
) -> Result<BTreeSet<Key>, NoMemory>
    ensures { IfOk result (λ queue.
        IsFull measure supporters.now (length supporters.now.costs) queue.keys) }
{
    let mut queue = BTreeSet::new(alloc);
    for place in 0..supporters.projects() {
        let key = key_of(measure, supporters, place, Price::whole(Money(0)));
        queue.insert(key)?;
    }
    Ok(queue)
}

/// Takes the head of the queue out, unless there is none or it comes after the limit.
fn take_head(queue: &mut BTreeSet<Key>, limit: Key) -> Option<Key>
    ensures { MatchOption result
        (IsDone (Some limit) queue.old.keys × (queue.new.keys ≡ queue.old.keys))
        (λ head. queue.old.keys ≡ head ∷ queue.new.keys) }
{
    let head = *queue.first()?;
    if limit < head {
        return None;
    }
    queue.pop_first()
}

/// Takes all that do not come after the limit out of the queue: their places, rising.
pub(crate) fn take_due(
    alloc: Global,
    queue: &mut BTreeSet<Key>,
    limit: Key,
) -> Result<Vec<u32>, NoMemory>
    ensures { IfOk result (λ due. TakesDue limit queue.old.keys queue.new.keys due.items) }
{
    let mut due = Vec::new(alloc);
    while let Some(head) = take_head(queue, limit) {
        due.push(head.place())?;
    }
    due.sort_unstable();
    due.dedup();
    Ok(due)
}

/// Puts the project at this place into the queue, with this lower bound of its price, if it has one.
pub(crate) fn put_bound(
    queue: &mut BTreeSet<Key>,
    measure: Measure,
    supporters: &Supporters,
    place: u32,
    bound: Option<Price>,
) -> Result<(), NoMemory>
    requires known { place < length supporters.now.costs }
    requires payers { IfSome bound (HasPayers supporters.now) }
    ensures { OnOk result
        (PutsBound measure supporters.now place bound queue.old.keys queue.new.keys) }
{
    if let Some(bound) = bound {
        let key = key_of(measure, supporters, place, bound);
        queue.insert(key)?;
    }
    Ok(())
}
