//! The price of one project in steps: from a lower bound up, without memory.

ghost use Rattle.std.specs.Prelude.{◌≡◌, ◌≢◌, ◌<◌, ◌≤◌, ◌*◌, ◌^◌, ℕ, All, IfSome, None, Some, length};
ghost use Rattle.pb_price.specs.Inner.Payment.{IsPriceFor, payers_above, payers_from, total_below};
ghost use Rattle.pb_price.specs.Price.{AreRests, AtMost, HasPayers, IsLeastPayment, IsPrice, IsUnrounded, PriceView, largest_share, paid_at, total_rest};
ghost use Rattle.pb_price.specs.Supporters.{cost_in_parts, supporters_at};
ghost use Rattle.pb_price.specs.declared.grain.Grain.TheVariants.{Fine, Hundredths};

use crate::amount_each::Price;
use crate::base::base;
use crate::grain::Grain;
use crate::supporters::Supporters;
use pb_core::money::Money;
use std::alloc::Allocator;

/// What supporters pay together at a payment, how many of them could pay more, and what is left to all of them
/// together before they pay.
#[derive(Clone, Copy)]
struct Collected {
    total: u64,
    payers_above: u64,
    rests: u128,
}

/// How many supporters have a payment left, what the others have together, and what is left to all of them.
#[derive(Clone, Copy)]
struct Split {
    payers: u32,
    below: u64,
    rests: u128,
}

/// A search for the price of a project, with what is left to each voter.
#[derive(Drop)]
pub(crate) struct PriceSearch<'a, A: Allocator> {
    pub(crate) supporters: &'a Supporters<A>,
    pub(crate) rests: &'a [Money],
    pub(crate) place: u32,
    ghost are_rests: { AreRests supporters.now.voters rests.now },
    ghost known: { place < length supporters.now.costs },
}

impl<'a, A: Allocator> PriceSearch<'a, A> {
    /// The price of the project.
    ///
    /// It starts at the cost divided by the number of supporters, and goes on from bound to bound.
    pub(crate) fn price_in_steps(&self) -> Option<Price>
        ensures { IsPrice self.now.supporters.now self.now.rests.now self.now.place result }
    {
        let mut bound = base(self.supporters, self.place)?;
        loop {
            let next = next_bound(self.supporters, self.rests, self.place, bound)?;
            if next == bound {
                return Some(bound);
            }
            bound = next;
        }
    }

    /// From a lower bound of the least payment of whole parts by which the supporters of this project cover its
    /// cost to a better one, at most the cost.
    ///
    /// While they pay less than the cost, each who could pay more has to pay an equal part of what is missing,
    /// rounded up. No step passes the least payment, because the others have nothing more to give: so the first
    /// bound that covers the cost is it.
    fn next_payment(&self, bound: Money) -> Option<Money>
        requires hundredths { self.now.supporters.now.grain ≡ Hundredths }
        requires bound { (payment : ℕ) → IsLeastPayment (supporters_at self.now.supporters.now self.now.place) self.now.rests.now
            (cost_in_parts self.now.supporters.now self.now.place) payment → bound ≤ payment }
        ensures none { result ≡ None
            → total_rest (supporters_at self.now.supporters.now self.now.place) self.now.rests.now < cost_in_parts self.now.supporters.now self.now.place }
        ensures rises { IfSome result (λ next. bound ≤ next) }
        ensures least { IfSome result (λ next. next ≡ bound → IsLeastPayment (supporters_at self.now.supporters.now self.now.place)
            self.now.rests.now (cost_in_parts self.now.supporters.now self.now.place) bound) }
        ensures bound { IfSome result (λ next. (payment : ℕ) → IsLeastPayment (supporters_at self.now.supporters.now self.now.place)
            self.now.rests.now (cost_in_parts self.now.supporters.now self.now.place) payment → next ≤ payment) }
        ensures small { IfSome result (λ next. bound < next → next ≤ cost_in_parts self.now.supporters.now self.now.place) }
    {
        let cost = self.supporters.cost_in_parts(self.place).0;
        let collected = collect(self.supporters.of(self.place), self.rests, bound.0);
        if collected.total >= cost {
            return Some(bound);
        }
        if collected.rests < u128::from(cost) {
            return None;
        }
        let missing = cost - collected.total;
        Some(Money(bound.0 + missing.div_ceil(collected.payers_above)))
    }

    /// From a lower bound of the unrounded price of this project to a better one.
    ///
    /// Who has less left than the bound has to give all of it, and the others pay what is missing together. That is
    /// no more than the price, since who has less than the price can't give more.
    fn next_unrounded(&self, bound: Price) -> Option<Price>
        requires fine { self.now.supporters.now.grain ≡ Fine }
        requires payers { HasPayers self.now.supporters.now bound }
        requires bound { (price : PriceView) → IsUnrounded (supporters_at self.now.supporters.now self.now.place) self.now.rests.now
            (cost_in_parts self.now.supporters.now self.now.place) price → AtMost bound price }
        ensures none { result ≡ None
            → total_rest (supporters_at self.now.supporters.now self.now.place) self.now.rests.now < cost_in_parts self.now.supporters.now self.now.place }
        ensures payers { IfSome result (HasPayers self.now.supporters.now) }
        ensures rises { IfSome result (AtMost bound) }
        ensures price { IfSome result (λ next. next ≡ bound → IsUnrounded (supporters_at self.now.supporters.now self.now.place) self.now.rests.now
            (cost_in_parts self.now.supporters.now self.now.place) bound) }
        ensures bound { IfSome result (λ next. (price : PriceView) → IsUnrounded (supporters_at self.now.supporters.now self.now.place)
            self.now.rests.now (cost_in_parts self.now.supporters.now self.now.place) price → AtMost next price) }
        ensures small { IfSome result (λ next. next.amount ≤ cost_in_parts self.now.supporters.now self.now.place) }
    {
        let cost = self.supporters.cost_in_parts(self.place).0;
        let split = tell_payers(
            self.supporters.of(self.place),
            self.rests,
            bound.least_rest().0,
        );
        if split.rests < u128::from(cost) {
            return None;
        }
        Some(Price {
            amount: Money(cost - split.below),
            payers: split.payers,
        })
    }
}

/// From a lower bound of the price of the project at this place to a better one: the same bound, where it is
/// the price; else a higher one, and none where the project has no price.
///
/// It takes one look at each supporter. No step passes the price: so the first bound that is the next one too
/// is the price.
pub fn next_bound<A: Allocator>(
    supporters: &Supporters<A>,
    rests: &[Money],
    place: u32,
    bound: Price,
) -> Option<Price>
    requires rests { AreRests supporters.now.voters rests.now }
    requires known { place < length supporters.now.costs }
    requires payers { HasPayers supporters.now bound }
    requires bound { (price : PriceView) → IsPrice supporters.now rests.now place (Some price) → AtMost bound price }
    ensures none { result ≡ None → IsPrice supporters.now rests.now place None }
    ensures payers { IfSome result (HasPayers supporters.now) }
    ensures rises { IfSome result (AtMost bound) }
    ensures price { IfSome result
        (λ next. next ≡ bound → IsPrice supporters.now rests.now place (Some bound)) }
    ensures bound { IfSome result (λ next. (price : PriceView)
        → IsPrice supporters.now rests.now place (Some price) → AtMost next price) }
    ensures small { IfSome result (λ next. next ≢ bound → next.amount ≤ cost_in_parts supporters.now place) }
{
    let sought = PriceSearch {
        supporters,
        rests,
        place,
    };
    match supporters.grain() {
        Grain::Hundredths => {
            let next = sought.next_payment(bound.amount)?;
            Some(Price::whole(next))
        }
        Grain::Fine => sought.next_unrounded(bound),
    }
}

/// What these supporters pay at this payment.
fn collect(supporters: &[u32], rests: &[Money], payment: u64) -> Collected
    requires known { All (λ voter. voter < length rests.now) supporters.now }
    requires bounded { All (λ rest. rest ≤ largest_share) rests.now }
    requires fits { paid_at supporters.now rests.now payment < 2 ^ 64 }
    ensures total { result.total ≡ paid_at supporters.now rests.now payment }
    ensures payers_above { result.payers_above ≡ payers_above supporters.now rests.now payment }
    ensures rests { result.rests ≡ total_rest supporters.now rests.now }
{
    let mut total = 0;
    let mut payers_above = 0;
    let mut all: u128 = 0;
    for voter in supporters {
        let rest = rests[*voter as usize];
        total += rest.0.min(payment);
        payers_above += u64::from(rest.0 > payment);
        all += u128::from(rest.0);
    }
    Collected {
        total,
        payers_above,
        rests: all,
    }
}

/// Which of these supporters have this payment left.
fn tell_payers(supporters: &[u32], rests: &[Money], payment: u64) -> Split
    requires known { All (λ voter. voter < length rests.now) supporters.now }
    requires bounded { All (λ rest. rest ≤ largest_share) rests.now }
    requires few { length supporters.now < 2 ^ 32 }
    requires fits { total_below supporters.now rests.now payment < 2 ^ 64 }
    ensures payers { result.payers ≡ payers_from supporters.now rests.now payment }
    ensures below { result.below ≡ total_below supporters.now rests.now payment }
    ensures rests { result.rests ≡ total_rest supporters.now rests.now }
{
    let mut payers = 0;
    let mut below = 0;
    let mut all: u128 = 0;
    for voter in supporters {
        let rest = rests[*voter as usize];
        let is_payer = rest.0 >= payment;
        payers += u32::from(is_payer);
        below += if is_payer { 0 } else { rest.0 };
        all += u128::from(rest.0);
    }
    Split {
        payers,
        below,
        rests: all,
    }
}
