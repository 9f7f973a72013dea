//! One round: the heads of the queue are priced until the best project is known.

ghost use Rattle.std.specs.Prelude.{◌≡◌, ◌+◌, ◌∷◌, ◌++◌, [], ◌<◌, ◌≤◌, ◌^◌, All, length, max, min};
ghost use Rattle.std.specs.Prelude.{IfOk, None, OnOk, Some};
ghost use Rattle.std.specs.List.Sorted.{IsStrictlyIncreasing};
ghost use Rattle.std.specs.Io.Iter.{u64_saturate};
ghost use Rattle.pb_core.specs.Election.{most_projects};
ghost use Rattle.pb_price.specs.Price.{due, paid_at, price_at, AreRests};
ghost use Rattle.pb_price.specs.Supporters.{supporters_at};
ghost use Rattle.pb_rounds.specs.Inner.Key.{better_of};
ghost use Rattle.pb_rounds.specs.Inner.Queue.{IsDone, IsIn, PricesHeads};
ghost use Rattle.pb_rounds.specs.Key.{KeyView, first_least, is_before};
ghost use Rattle.pb_rounds.specs.Run.{charged, elected_by, keys_at};
ghost use Rattle.pb_rounds.specs.Inner.Threads.{workers_for};

use crate::key::Key;
use crate::outcome::{Elected, Outcome};
use crate::pricing::{Pricing, workers_for};
use crate::queue::take_heads;
use crate::run::Run;
use pb_core::gate::Gate;
use pb_core::money::Money;
use pb_core::no_memory::NoMemory;
use pb_price::supporters::Supporters;
use pb_price::tally::Tally;
use pb_price::{Pieces, price_pieces};
use std::alloc::Allocator;
use std::thread::Threads;

/// The key that comes first.
fn better(best: &Option<Key>, key: Key) -> Key
    ensures { result ≡ better_of best.now key }
{
    match best {
        Some(best) if key >= *best => *best,
        _ => key,
    }
}

/// The fresh keys of a round: those of the projects that it priced.
#[derive(Drop)]
pub(crate) struct Fresh<A: Allocator> {
    pub(crate) keys: Vec<Key, A>,
    /// The first of them.
    best: Option<Key>,
}

impl<A: Allocator> Fresh<A> {
    pub(crate) fn new(alloc: A) -> Fresh<A> {
        Fresh {
            keys: Vec::new(alloc),
            best: None,
        }
    }

    /// Begins a round: nothing is priced.
    fn clear(&mut self)
        ensures keys { self.new.keys.items ≡ [] }
        ensures best { self.new.best ≡ None }
    {
        self.keys.clear();
        self.best = None;
    }
}

/// Prices these projects, and puts the keys of those that have a price after the fresh ones.
fn price_heads<R: Threads + Sync, G: Gate, A: Allocator + Copy + Send + Sync>(
    pricing: &Pricing<R, G, A>,
    rests: &[Money],
    heads: &[u32],
    fresh: &mut Fresh<A>,
    tally: &mut Tally,
) -> Result<(), NoMemory>
    requires rests { AreRests pricing.now.supporters.now.voters rests.now }
    requires known { All (λ place. place < length pricing.now.supporters.now.costs) heads.now }
    requires few { length heads.now ≤ most_projects }
    requires best { fresh.old.best ≡ first_least is_before fresh.old.keys.items }
    ensures fresh { OnOk result (fresh.new.keys.items
        ≡ fresh.old.keys.items ++ keys_at pricing.now.measure pricing.now.supporters.now rests.now
        heads.now) }
    ensures best { OnOk result (fresh.new.best ≡ first_least is_before fresh.new.keys.items) }
    ensures counted { OnOk result
        (tally.new.prices ≡ u64_saturate (tally.old.prices + length heads.now)) }
    ensures workers { OnOk result (tally.new.workers ≡ u64_saturate (tally.old.workers + max 1 (min (length heads.now)
        (workers_for pricing.now.workers pricing.now.supporters.now heads.now)))) }
{
    // What is true of all supporters holds of those of these projects.
    let _projects = pricing.supporters.projects();
    let workers = workers_for(pricing.workers, pricing.supporters, heads);
    let pieces = Pieces {
        gate: pricing.gate,
        projects: heads,
        supporters: pricing.supporters,
        rests,
    };
    let answers = price_pieces(pricing.rt, pricing.alloc, workers, &pieces, tally)?;
    for (i, place) in heads.iter().enumerate() {
        if let Some(price) = answers[i] {
            let weight = pricing.measure.weight(pricing.supporters, *place);
            let key = Key::new(price, weight, *place);
            fresh.keys.push(key)?;
            fresh.best = Some(better(&fresh.best, key));
        }
    }
    Ok(())
}

impl<A: Allocator + Copy + Send + Sync> Run<A> {
    /// Prices the heads of the queue, in batches of at most this many, until the best that was priced comes
    /// before the head, and gives that best. The places that were priced and the fresh keys are those of this
    /// round alone; the number of prices goes after the outcome's others.
    pub(crate) fn price_round<R: Threads + Sync, G: Gate>(
        &mut self,
        pricing: &Pricing<R, G, A>,
        most: u32,
        outcome: &mut Outcome<A>,
    ) -> Result<Option<Key>, NoMemory>
        requires most { 0 < most }
        requires rests { AreRests pricing.now.supporters.now.voters outcome.old.rests }
        requires known { (k : KeyView) → IsIn k self.old.queue.keys → k.place
            < length pricing.now.supporters.now.costs }
        requires few { length self.old.queue.keys ≤ most_projects }
        ensures priced { IfOk result
            (PricesHeads pricing.now.measure pricing.now.supporters.now outcome.old.rests most
            self.old.queue.keys self.new.queue.keys self.new.places.items self.new.fresh.keys.items) }
        ensures done { IfOk result (λ best. IsDone best self.new.queue.keys) }
        ensures outcome { OnOk result (outcome.new
            ≡ record outcome.old { priced = outcome.old.priced ++ length self.new.places.items ∷ [] }) }
    {
        self.places.clear();
        self.fresh.clear();
        let mut tally = Tally::new();
        let rests = outcome.rests.as_slice();
        loop {
            let before = self.places.len();
            take_heads(&mut self.queue, &self.fresh.best, most, &mut self.places)?;
            if self.places.len() == before {
                break;
            }
            let heads = &self.places[before..];
            price_heads(pricing, rests, heads, &mut self.fresh, &mut tally)?;
        }
        outcome.priced.push(tally.count())?;
        Ok(self.fresh.best)
    }
}

/// Elects the project of this key: its supporters pay.
pub(crate) fn elect<A: Allocator>(
    supporters: &Supporters<A>,
    best: Key,
    outcome: &mut Outcome<A>,
) -> Result<(), NoMemory>
    requires rests { AreRests supporters.now.voters outcome.old.rests }
    requires known { best.place < length supporters.now.costs }
    requires price { price_at supporters.now outcome.old.rests best.place ≡ Some best.price }
    ensures { OnOk result (outcome.new ≡ record outcome.old {
      elected = outcome.old.elected ++ elected_by supporters.now outcome.old.rests best ∷ [];
      rests = charged (supporters_at supporters.now best.place) (due best.price) outcome.old.rests;
    }) }
{
    let place = best.place();
    let exact = best.price();
    let price = exact.due();
    let collected = charge(supporters.of(place), price, &mut outcome.rests);
    outcome.elected.push(Elected {
        place,
        price,
        exact,
        collected,
    })?;
    Ok(())
}

/// Takes the price from the rest of each of these supporters, or the whole rest where that is less: what all
/// paid together.
fn charge(supporters: &[u32], price: Money, rests: &mut [Money]) -> Money
    requires known { All (λ voter. voter < length rests.old) supporters.now }
    requires rise { IsStrictlyIncreasing supporters.now }
    requires fits { paid_at supporters.now rests.old price < 2 ^ 64 }
    ensures collected { result ≡ paid_at supporters.now rests.old price }
    ensures rests { rests.new ≡ charged supporters.now price rests.old }
{
    let mut collected = 0;
    for voter in supporters {
        let rest = &mut rests[*voter as usize];
        let payment = rest.0.min(price.0);
        rest.0 -= payment;
        collected += payment;
    }
    Money(collected)
}
