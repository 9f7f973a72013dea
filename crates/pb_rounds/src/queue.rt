//! The queue of stale prices.

ghost use Rattle.std.specs.Prelude.{◌≡◌, ◌<◌, MatchOption, OnOk, length, [], ◌∷◌};
ghost use Rattle.pb_rounds.specs.Inner.Queue.{IsDone, IsFull, IsTaken, PutsBack, Rises, TakesHeads};

use crate::key::Key;
use crate::measure::Measure;
use pb_core::money::Money;
use pb_core::no_memory::NoMemory;
use pb_price::Price;
use pb_price::supporters::Supporters;
use std::alloc::Allocator;
use std::collections::BTreeSet;

/// Fills the queue with every project, in place of what it held. Each is known to cost its supporters at
/// least 0.
pub(crate) fn fill<A: Allocator + Clone, B: Allocator>(
    queue: &mut BTreeSet<Key, A>,
    measure: Measure,
    supporters: &Supporters<B>,
) -> Result<(), NoMemory>
    ensures { OnOk result (IsFull measure supporters.now (length supporters.now.costs) queue.new.keys) }
{
    queue.clear();
    for place in 0..supporters.projects() {
        let weight = measure.weight(supporters, place);
        queue.insert(Key::new(Price::whole(Money(0)), weight, place))?;
    }
    Ok(())
}

/// Takes the head of the queue out, unless there is none, or the best that was priced in this round comes
/// before it.
pub(crate) fn take_head<A: Allocator>(
    queue: &mut BTreeSet<Key, A>,
    best: &Option<Key>,
) -> Option<Key>
    ensures { MatchOption result
        (IsDone best.now queue.old.keys × (queue.new.keys ≡ queue.old.keys))
        (λ head. (queue.old.keys ≡ head ∷ queue.new.keys) × IsTaken best.now head) }
{
    let head = *queue.first()?;
    match best {
        Some(best) if *best < head => None,
        _ => queue.pop_first(),
    }
}

/// Takes heads of the queue out, at most this many, up to the first that the best of this round comes before,
/// and puts their places after the others.
pub(crate) fn take_heads<A: Allocator, B: Allocator>(
    queue: &mut BTreeSet<Key, A>,
    best: &Option<Key>,
    most: u32,
    places: &mut Vec<u32, B>,
) -> Result<(), NoMemory>
    requires { 0 < most }
    ensures { OnOk result
        (TakesHeads best.now most queue.old.keys queue.new.keys places.old.items places.new.items) }
{
    for _ in 0..most {
        let Some(head) = take_head(queue, best) else {
            return Ok(());
        };
        places.push(head.place())?;
    }
    Ok(())
}

/// Puts these keys back into the queue, but the one of this place.
pub(crate) fn put_back<A: Allocator + Clone>(
    queue: &mut BTreeSet<Key, A>,
    fresh: &[Key],
    place: u32,
) -> Result<(), NoMemory>
    requires { Rises queue.old.keys }
    ensures { OnOk result (PutsBack place fresh.now queue.old.keys queue.new.keys) }
{
    for key in fresh {
        put_back_unless(queue, *key, place)?;
    }
    Ok(())
}

/// Puts this key back, unless it is the one of this place.
fn put_back_unless<A: Allocator + Clone>(
    queue: &mut BTreeSet<Key, A>,
    key: Key,
    place: u32,
) -> Result<(), NoMemory>
    requires { Rises queue.old.keys }
    ensures { OnOk result (PutsBack place (key ∷ []) queue.old.keys queue.new.keys) }
{
    if key.place() != place {
        queue.insert(key)?;
    }
    Ok(())
}
