//! The queue of a trial: the projects that may still be paid, each with a lower bound of its price.

ghost use Rattle.std.specs.Prelude.{◌+◌, ◌<◌, ◌≤◌, ℕ, List, IfOk, OnOk, length};
ghost use Rattle.pb_price.specs.Price.{AreRests, largest_share};
ghost use Rattle.pb_price.specs.Supporters.{IsSupport};
ghost use Rattle.pb_rounds.specs.Inner.Bounds.{FindsBest, HasBounds, IsOpening};
ghost use Rattle.pb_rounds.specs.declared.measure.Measure.{Measure};

use crate::key::Key;
use crate::measure::Measure;
use crate::queue::take_head;
use pb_core::money::Money;
use pb_core::no_memory::NoMemory;
use pb_price::supporters::Supporters;
use pb_price::{next_bound, price_at_share};
use std::alloc::Allocator;
use std::collections::BTreeSet;

/// Fills the queue with the projects that can be paid at this share, each at its price there, in place of
/// what it held.
pub(crate) fn fill_opening<A: Allocator + Clone, B: Allocator>(
    queue: &mut BTreeSet<Key, A>,
    measure: Measure,
    supporters: &Supporters<B>,
    share: Money,
) -> Result<(), NoMemory>
    requires { share ≤ largest_share }
    ensures { OnOk result
        (IsOpening measure supporters.now share (length supporters.now.costs) queue.new.keys) }
{
    queue.clear();
    for place in 0..supporters.projects() {
        put_opening(queue, measure, supporters, share, place)?;
    }
    Ok(())
}

/// Puts the project at this place into the queue, where it can be paid at this share.
fn put_opening<A: Allocator + Clone, B: Allocator>(
    queue: &mut BTreeSet<Key, A>,
    measure: Measure,
    supporters: &Supporters<B>,
    share: Money,
    place: u32,
) -> Result<(), NoMemory>
    requires share { share ≤ largest_share }
    requires known { place < length supporters.now.costs }
    requires before { IsOpening measure supporters.now share place queue.old.keys }
    ensures { OnOk result (IsOpening measure supporters.now share (place + 1) queue.new.keys) }
{
    let weight = measure.weight(supporters, place);
    if let Some(price) = price_at_share(supporters, share, place) {
        queue.insert(Key::new(price, weight, place))?;
    }
    Ok(())
}

/// Takes the best project out of the queue, at its price, unless there is none up to the limit. The head's
/// bound is its price where its supporters cover its cost by it, and then no other project can come before;
/// else the head goes back with a higher bound, or is left out where it has no price.
pub(crate) fn next_best<A: Allocator + Clone, B: Allocator>(
    supporters: &Supporters<B>,
    rests: &[Money],
    limit: &Option<Key>,
    queue: &mut BTreeSet<Key, A>,
) -> Result<Option<Key>, NoMemory>
    requires support { IsSupport supporters.now }
    requires rests { AreRests supporters.now.voters rests.now }
    requires bounds { (m : Measure) × (left : List ℕ)
        × HasBounds m supporters.now rests.now left queue.old.keys }
    ensures { (m : Measure) (left : List ℕ) → HasBounds m supporters.now rests.now left queue.old.keys
        → IfOk result (FindsBest m supporters.now rests.now left limit.now queue.new.keys) }
{
    while let Some(head) = take_head(queue, limit) {
        let bound = head.price();
        match next_bound(supporters, rests, head.place(), bound) {
            None => {}
            Some(next) if next == bound => return Ok(Some(head)),
            Some(next) => {
                queue.insert(Key::new(next, head.weight(), head.place()))?;
            }
        }
    }
    Ok(None)
}
