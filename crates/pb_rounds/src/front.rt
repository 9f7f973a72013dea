//! The front of a completion: the first rounds of its runs, as far as they are the same at every larger
//! share.

ghost use Rattle.std.specs.Prelude.{◌≡◌, ◌+◌, ◌-◌, ◌∷◌, ◌<◌, ◌≤◌, All, IfOk, MatchOption, OnOk, length, map};
ghost use Rattle.std.specs.Prelude.{slice_index, true};
ghost use Rattle.pb_price.specs.Price.{largest_share};
ghost use Rattle.pb_rounds.specs.Inner.Front.{CanAllPay, IsFront, IsFrontAt, IsCopyUpTo, raised_by};
ghost use Rattle.pb_rounds.specs.Inner.Front.{with_next};
ghost use Rattle.pb_rounds.specs.Inner.Queue.{IsIn};
ghost use Rattle.pb_rounds.specs.Key.{KeyView};

use crate::bounds::fill_opening;
use crate::exhaustion::{clear_marks, mark};
use crate::key::Key;
use crate::measure::Measure;
use crate::outcome::Outcome;
use crate::round::elect;
use crate::run::open;
use pb_core::money::Money;
use pb_core::no_memory::NoMemory;
use pb_price::supporters::Supporters;
use std::alloc::Allocator;
use std::collections::BTreeSet;
use std::marker::Model;

/// The largest share of the budget that a voter is given.
const LARGEST_SHARE: Money = Money(u64::MAX);

/// The first rounds of a run, as far as each elects the next project in the order of the prices that all have
/// where everybody can pay, and each of its supporters can pay that. They are the same at every larger share:
/// there nobody has less, and no price falls below those.
#[derive(Drop)]
pub(crate) struct Front<'a, A: Allocator> {
    pub(crate) measure: Measure,
    pub(crate) supporters: &'a Supporters<A>,
    /// The projects left that somebody supports, each at its price where everybody can pay.
    queue: BTreeSet<Key, A>,
    /// For each project whether it is elected.
    marks: Vec<bool, A>,
    /// What the elected cost together, in hundredths.
    spent: u128,
    /// The share, whom these rounds elect, and the rests. No prices are counted.
    outcome: Outcome<A>,
}

impl<'a, A: Allocator> Model for Front<'a, A> {
    ghost use Rattle.pb_rounds.specs.Key.{KeyView};
    ghost use Rattle.pb_rounds.specs.Inner.Front.{FrontView};

    ghost Value = { FrontView };

    ghost view = { λ f. record {
      measure = f.measure;
      support = f.supporters.now;
      queue = f.queue.keys;
      marks = f.marks.items;
      spent = f.spent;
      outcome = f.outcome;
    } };
}

impl<'a, A: Allocator + Copy> Front<'a, A> {
    /// The front of no rounds, at this share.
    pub(crate) fn open(
        alloc: A,
        measure: Measure,
        supporters: &'a Supporters<A>,
        share: Money,
    ) -> Result<Front<'a, A>, NoMemory>
        requires { share ≤ largest_share }
        ensures front { IfOk result IsFront }
        ensures of { IfOk result (IsFrontAt measure supporters.now share) }
    {
        let mut queue = BTreeSet::new(alloc);
        let mut marks = Vec::new(alloc);
        let mut outcome = Outcome::unfilled(alloc);
        fill_opening(&mut queue, measure, supporters, LARGEST_SHARE)?;
        clear_marks(&mut marks, supporters.projects())?;
        open(&mut outcome, share, 0, supporters.voters())?;
        Ok(Front {
            measure,
            supporters,
            queue,
            marks,
            spent: 0,
            outcome,
        })
    }

    /// Goes on at this share, which is no smaller, as far as that is the same at every larger share.
    pub(crate) fn extend(&mut self, share: Money) -> Result<(), NoMemory>
        requires front { IsFront self.old }
        requires from { self.old.outcome.share ≤ share }
        requires small { share ≤ largest_share }
        ensures front { OnOk result (IsFront self.new) }
        ensures of { OnOk result (IsFrontAt self.old.measure self.old.support share self.new) }
    {
        raise(&mut self.outcome, share);
        while let Some(head) = take_next(self.supporters, &self.outcome, &mut self.queue) {
            self.elect(head)?;
        }
        Ok(())
    }

    /// Elects this project, which was the next one, and for which all of its supporters can pay.
    fn elect(&mut self, head: Key) -> Result<(), NoMemory>
        requires front { IsFront (with_next head self.old) }
        requires can_pay { CanAllPay self.old.support self.old.outcome.rests head }
        ensures front { OnOk result (IsFront self.new) }
        ensures of { OnOk result (IsFrontAt self.old.measure self.old.support self.old.outcome.share
            self.new) }
        ensures queue { OnOk result (self.new.queue ≡ self.old.queue) }
    {
        let place = head.place();
        elect(self.supporters, head, &mut self.outcome)?;
        mark(&mut self.marks, place);
        self.spent += u128::from(self.supporters.cost(place).0);
        Ok(())
    }

    /// Begins a run at this share, which is no smaller, behind these rounds: the queue has who can be paid of
    /// those left, and lists are used again. What the elected cost together, in hundredths.
    pub(crate) fn start(
        &self,
        share: Money,
        queue: &mut BTreeSet<Key, A>,
        marks: &mut Vec<bool, A>,
        outcome: &mut Outcome<A>,
    ) -> Result<u128, NoMemory>
        requires front { IsFront self.now }
        requires from { self.now.outcome.share ≤ share }
        requires small { share ≤ largest_share }
        ensures spent { IfOk result (λ spent. spent ≡ self.now.spent) }
        ensures queue { OnOk result (IsCopyUpTo share self.now.queue queue.new.keys) }
        ensures marks { OnOk result (marks.new.items ≡ self.now.marks) }
        ensures outcome { OnOk result
            (outcome.new ≡ raised_by (share - self.now.outcome.share) self.now.outcome) }
    {
        copy_up_to(queue, &self.queue, share)?;
        marks.clear();
        marks.extend_from_slice(self.marks.as_slice())?;
        copy_outcome(&self.outcome, outcome)?;
        raise(outcome, share);
        Ok(self.spent)
    }
}

/// Takes the next project out of the queue, where all of its supporters can pay.
fn take_next<A: Allocator>(
    supporters: &Supporters<A>,
    outcome: &Outcome<A>,
    queue: &mut BTreeSet<Key, A>,
) -> Option<Key>
    requires known { (k : KeyView) → IsIn k queue.old.keys → k.place < length supporters.now.costs }
    requires rests { length outcome.now.rests ≡ supporters.now.voters }
    ensures { MatchOption result (queue.new.keys ≡ queue.old.keys) (λ head.
        (queue.old.keys ≡ head ∷ queue.new.keys) × CanAllPay supporters.now outcome.now.rests head) }
{
    let head = *queue.first()?;
    let list = supporters.of(head.place());
    let least = head.price().least_rest();
    if !can_pay(list, outcome.rests.as_slice(), least) {
        return None;
    }
    queue.pop_first()
}

/// Raises an outcome to this share, which is no smaller: everybody has as much more.
fn raise<A: Allocator>(outcome: &mut Outcome<A>, share: Money)
    requires from { outcome.old.share ≤ share }
    requires small { All (λ rest. rest + (share - outcome.old.share) ≤ largest_share) outcome.old.rests }
    ensures { outcome.new ≡ raised_by (share - outcome.old.share) outcome.old }
{
    let more = Money(share.0 - outcome.share.0);
    outcome.share = share;
    add_to_each(&mut outcome.rests, more);
}

/// Copies an outcome into one whose lists are used again.
fn copy_outcome<A: Allocator>(from: &Outcome<A>, outcome: &mut Outcome<A>) -> Result<(), NoMemory>
    ensures { OnOk result (outcome.new ≡ from.now) }
{
    outcome.share = from.share;
    outcome.raised = from.raised;
    outcome.elected.clear();
    outcome.elected.extend_from_slice(from.elected.as_slice())?;
    outcome.rests.clear();
    outcome.rests.extend_from_slice(from.rests.as_slice())?;
    outcome.priced.clear();
    outcome.priced.extend_from_slice(from.priced.as_slice())?;
    Ok(())
}

/// Whether each of these supporters has this much left.
fn can_pay(supporters: &[u32], rests: &[Money], least: Money) -> bool
    requires { All (λ voter. voter < length rests.now) supporters.now }
    ensures { result ≡ true → All (λ voter. least ≤ slice_index rests.now voter) supporters.now }
{
    for voter in supporters {
        if rests[*voter as usize] < least {
            return false;
        }
    }
    true
}

/// Adds this much to each of these rests.
fn add_to_each<A: Allocator>(rests: &mut Vec<Money, A>, more: Money)
    requires { All (λ rest. rest + more ≤ largest_share) rests.old.items }
    ensures { rests.new.items ≡ map (λ rest. rest + more) rests.old.items }
{
    for i in 0..rests.len() {
        rests[i] = Money(rests[i].0 + more.0);
    }
}

/// Puts those of these keys whose price is at most the share into the queue, in place of what it held.
fn copy_up_to<A: Allocator + Clone>(
    queue: &mut BTreeSet<Key, A>,
    from: &BTreeSet<Key, A>,
    share: Money,
) -> Result<(), NoMemory>
    ensures { OnOk result (IsCopyUpTo share from.now.keys queue.new.keys) }
{
    queue.clear();
    for key in from {
        if key.price().is_within(share) {
            queue.insert(*key)?;
        }
    }
    Ok(())
}
