//! A trial of a raise: only how the run at its share ends, and whom it elects.

ghost use Rattle.std.specs.Prelude.{◌≤◌, IfOk};
ghost use Rattle.pb_price.specs.Price.{largest_share};
ghost use Rattle.pb_rounds.specs.Inner.Front.{IsFront};
ghost use Rattle.pb_rounds.specs.Inner.RaiseEnds.{IsTried};

use crate::bounds::next_best;
use crate::exhaustion::{is_exhausted, mark};
use crate::front::Front;
use crate::key::Key;
use crate::outcome::Outcome;
use crate::raise_end::RaiseEnd;
use crate::round::elect;
use pb_core::money::Money;
use pb_core::no_memory::NoMemory;
use std::alloc::{Allocator, Global};
use std::collections::BTreeSet;

/// A trial of one raise after the other, with what it uses again from raise to raise.
#[derive(Drop)]
pub(crate) struct Trial<A: Allocator = Global> {
    /// The projects that may still be paid, each with a lower bound of its price.
    pub(crate) queue: BTreeSet<Key, A>,
    /// For each project whether it is elected.
    marks: Vec<bool, A>,
    /// What the elected cost together, in hundredths.
    pub(crate) spent: u128,
    /// The share, whom it elects, and the rests. No prices are counted.
    pub(crate) outcome: Outcome<A>,
    /// How a worker's last raise ended.
    pub(crate) end: Result<RaiseEnd, NoMemory>,
}

impl<A: Allocator> Trial<A> {
    pub(crate) fn new(alloc: A) -> Trial<A>
    where
        A: Copy,
    {
        Trial {
            queue: BTreeSet::new(alloc),
            marks: Vec::new(alloc),
            spent: 0,
            outcome: Outcome::unfilled(alloc),
            end: Ok(RaiseEnd::GoesOn),
        }
    }

    /// How a run at this share ends, and whom it elects, unless it is over. It begins behind the front, and
    /// goes no further once the elected cost more than the budget.
    pub(crate) fn end_of(
        &mut self,
        front: &Front<'_, A>,
        budget: Money,
        share: Money,
    ) -> Result<RaiseEnd, NoMemory>
    where
        A: Copy,
        requires front { IsFront front.now }
        requires from { front.now.outcome.share ≤ share }
        requires small { share ≤ largest_share }
        ensures { IfOk result (IsTried front.now.measure front.now.support budget share
            self.new.outcome.elected) }
    {
        let supporters = front.supporters;
        let most = u128::from(budget.0);
        let (queue, marks) = (&mut self.queue, &mut self.marks);
        let (spent, outcome) = (&mut self.spent, &mut self.outcome);
        *spent = front.start(share, queue, marks, outcome)?;
        if *spent > most {
            return Ok(RaiseEnd::Over);
        }
        while let Some(best) = next_best(supporters, outcome.rests.as_slice(), &None, queue)? {
            elect(supporters, best, outcome)?;
            let place = best.place();
            mark(marks, place);
            *spent += u128::from(supporters.cost(place).0);
            if *spent > most {
                return Ok(RaiseEnd::Over);
            }
        }
        if is_exhausted(supporters, budget, *spent, marks.as_slice()) {
            return Ok(RaiseEnd::Exhausted);
        }
        Ok(RaiseEnd::GoesOn)
    }
}
