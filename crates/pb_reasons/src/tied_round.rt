//! The ties of one round.

ghost use Rattle.std.specs.Prelude.{◌≡◌, [], ◌*◌, ◌<◌, ◌≤◌, IfOk, OnOk, Some, filter, length, replicate};
ghost use Rattle.std.specs.List.{range_with_len};
ghost use Rattle.pb_price.specs.Inner.Payment.{nothing};
ghost use Rattle.pb_price.specs.Price.{AreRests, HasPayers};
ghost use Rattle.pb_price.specs.Supporters.{IsSupport};
ghost use Rattle.pb_reasons.specs.Inner.Rounds.{AreTieBounds, IsTieBound, scaled, target};
ghost use Rattle.pb_reasons.specs.Inner.TieQueue.{AreQueued, limit_of};
ghost use Rattle.pb_reasons.specs.Ties.{is_tied};
ghost use Rattle.pb_rounds.specs.Run.{weight_of};

use crate::tie_queue::{put_bound, take_due, weight_of};
use pb_core::money::Money;
use pb_core::no_memory::NoMemory;
use pb_price::supporters::Supporters;
use pb_price::{Price, next_bound};
use pb_rounds::key::Key;
use pb_rounds::measure::Measure;
use pb_rounds::outcome::Elected;
use std::alloc::Global;
use std::collections::BTreeSet;

/// A round whose ties are looked for.
#[derive(Clone, Copy)]
pub(crate) struct TiedRound<'a> {
    pub(crate) measure: Measure,
    pub(crate) supporters: &'a Supporters,
    /// The elected, which do not tie.
    pub(crate) elected: &'a [Elected],
    /// What is left to each voter before the round.
    pub(crate) rests: &'a [Money],
    pub(crate) winner: Elected,
    ghost known: { winner.place < length supporters.now.costs },
    ghost payers: { HasPayers supporters.now winner.exact },
    ghost are_rests: { AreRests supporters.now.voters rests.now },
}

/// What a look at a project finds: whether it ties, and a lower bound of its price from then on.
#[derive(Clone, Copy)]
struct Look {
    is_tied: bool,
    bound: Option<Price>,
}

impl<'a> TiedRound<'a> {
    /// What a price counts for.
    fn scaled(&self, price: Price) -> u128
        ensures { result ≡ scaled self.now.measure self.now.supporters.now self.now.winner price }
    {
        let weight = weight_of(self.measure, self.supporters, self.winner.place);
        times(price.amount, u64::from(self.winner.exact.payers) * weight)
    }

    /// What a price of the project at this place, of so many payers, has to count for, to be as good as the
    /// winner's.
    fn target(&self, place: u32, price: Price) -> u128
        requires known { place < length self.now.supporters.now.costs }
        requires payers { HasPayers self.now.supporters.now price }
        ensures { result ≡ target self.now.measure self.now.supporters.now self.now.winner place price }
    {
        let weight = weight_of(self.measure, self.supporters, place);
        times(self.winner.exact.amount, u64::from(price.payers) * weight)
    }

    /// Looks at the project at this place: from a lower bound of its price up, from bound to bound, as long as they
    /// leave room for a tie.
    fn look(&self, place: u32, bound: Option<Price>) -> Look
        requires known { place < length self.now.supporters.now.costs }
        requires bound { IsTieBound self.now.supporters.now self.now.elected.now self.now.rests.now place bound }
        ensures tied { result.is_tied ≡ is_tied self.now.measure self.now.supporters.now self.now.elected.now
            self.now.rests.now self.now.winner place }
        ensures bound { IsTieBound self.now.supporters.now self.now.elected.now self.now.rests.now place result.bound }
    {
        // What is true of all supporters holds of this project's.
        let _projects = self.supporters.projects();
        let mut bound = match bound {
            Some(least) => least,
            None => {
                return Look {
                    is_tied: false,
                    bound: None,
                };
            }
        };
        while self.scaled(bound) <= self.target(place, bound) {
            match next_bound(self.supporters, self.rests, place, bound) {
                None => {
                    return Look {
                        is_tied: false,
                        bound: None,
                    };
                }
                Some(next) => {
                    if next == bound {
                        return Look {
                            is_tied: self.scaled(bound) == self.target(place, bound),
                            bound: Some(bound),
                        };
                    }
                    bound = next;
                }
            }
        }
        Look {
            is_tied: false,
            bound: Some(bound),
        }
    }

    /// What a lower bound that leaves room for a tie does not come after.
    fn limit(&self) -> Key
        ensures limit { result ≡ limit_of self.now.measure self.now.supporters.now self.now.winner }
        ensures positive { 1 ≤ weight_of self.now.measure self.now.supporters.now self.now.winner.place }
        ensures is_support { IsSupport self.now.supporters.now }
    {
        let weight = weight_of(self.measure, self.supporters, self.winner.place);
        Key::new(self.winner.exact, weight, self.supporters.projects())
    }

    /// The projects that tie in this round, by place, rising; makes the lower bounds better. It looks only at projects
    /// whose lower bounds leave room for a tie: these leave the queue, and those that may tie later enter it again.
    pub(crate) fn others(
        &self,
        alloc: Global,
        bounds: &mut Vec<Option<Price>>,
        queue: &mut BTreeSet<Key>,
    ) -> Result<Vec<u32>, NoMemory>
        requires bounds { AreTieBounds self.now.supporters.now self.now.elected.now self.now.rests.now
            bounds.old.items }
        requires queued { AreQueued self.now.measure self.now.supporters.now [] bounds.old.items queue.old.keys }
        ensures bounds { OnOk result
            (AreTieBounds self.now.supporters.now self.now.elected.now self.now.rests.now bounds.new.items) }
        ensures queued { OnOk result
            (AreQueued self.now.measure self.now.supporters.now [] bounds.new.items queue.new.keys) }
        ensures others { IfOk result (λ others. others.items ≡ filter
            (is_tied self.now.measure self.now.supporters.now self.now.elected.now self.now.rests.now self.now.winner)
            (range_with_len 0 (length self.now.supporters.now.costs))) }
    {
        let due = take_due(alloc, queue, self.limit())?;
        let mut others = Vec::new(alloc);
        let places = due.as_slice();
        for place in places {
            let look = self.look(*place, bounds[*place as usize]);
            bounds[*place as usize] = look.bound;
            put_bound(queue, self.measure, self.supporters, *place, look.bound)?;
            if look.is_tied {
                others.push(*place)?;
            }
        }
        drop(due);
        Ok(others)
    }
}

/// What is left to each of this many voters before the first round.
pub(crate) fn opening_rests(
    alloc: Global,
    share: Money,
    voters: u32,
) -> Result<Vec<Money>, NoMemory>
    ensures { IfOk result (λ rests. rests.items ≡ replicate voters share) }
{
    let rests = vec![in alloc; share; voters as usize]?;
    Ok(rests)
}

/// For each of this many projects 0, which is a lower bound of every price.
pub(crate) fn opening_bounds(alloc: Global, projects: usize) -> Result<Vec<Option<Price>>, NoMemory>
    ensures { IfOk result (λ bounds. bounds.items ≡ replicate projects (Some nothing)) }
{
    let bounds = vec![in alloc; Some(Price::whole(Money(0))); projects]?;
    Ok(bounds)
}

/// An amount, so many times.
fn times(amount: Money, number: u64) -> u128
    ensures { result ≡ amount * number }
{
    u128::from(amount.0) * u128::from(number)
}
