//! Where the money of the supporters of projects went, told project by project.

ghost use Rattle.std.specs.Prelude.{◌≡◌, ◌+◌, ◌<◌, ℕ, All, IfOk, OnOk, length, slice_index, slice_index_or, sum_by};
ghost use Rattle.std.specs.Prelude.{◌-◌, ◌≤◌, [], take};
ghost use Rattle.std.specs.List.{insert};
ghost use Rattle.pb_reasons.specs.Inner.Money.{AreKnown, ArePayments, paid_to, sums_for};
ghost use Rattle.pb_reasons.specs.Money.{money_of, paid_together, with_payment};
ghost use Rattle.pb_reasons.specs.declared.payment.Payment.{Payment};

use crate::counted_election::CountedElection;
use crate::money_paid::{MoneyPaid, VoterPayments};
use crate::payment::Payment;
use crate::voter_teller::VoterTeller;
use pb_core::money::Money;
use pb_core::no_memory::NoMemory;
use pb_rounds::outcome::Elected;
use std::alloc::Global;
use std::marker::Model;

/// So many payments are told one by one.
const MOST: usize = 5;

/// Tells where the money of the supporters of the projects of a counted election went.
///
/// A contract sees the counted election.
#[derive(Drop)]
pub struct MoneyTeller<'a> {
    count: &'a CountedElection,
    payments: Vec<VoterPayments>,
}

impl<'a> Model for MoneyTeller<'a> {
    ghost use Rattle.pb_reasons.specs.CountedElection.{CountedElectionView};
    ghost use Rattle.pb_reasons.specs.Inner.Money.{ArePayments};

    ghost Value = { CountedElectionView };

    ghost view = { λ t. t.count.now };

    ghost invariant = { λ t. ArePayments t.count.now t.payments.items };
}

impl<'a> MoneyTeller<'a> {
    /// A teller of this counted election: each voter's payments are made once.
    pub fn of(alloc: Global, count: &'a CountedElection) -> Result<MoneyTeller<'a>, NoMemory>
        ensures { IfOk result (λ teller. teller ≡ count.now) }
    {
        let payments = payments_of(alloc, count)?;
        Ok(MoneyTeller { count, payments })
    }

    /// The counted election.
    pub fn count(&self) -> &'a CountedElection
        ensures { result.now ≡ self.now }
    {
        self.count
    }

    /// What the supporters of the project at this place paid for the elected.
    ///
    /// Each payment of each supporter is looked at once, and then each of the elected.
    pub fn money(&self, alloc: Global, place: u32) -> Result<MoneyPaid, NoMemory>
        requires { place < length self.now.election.projects }
        ensures { IfOk result (λ money.
            money ≡ money_of (paid_together self.now.election self.now.counted.outcome place)) }
    {
        let count = self.count;
        let projects = count.election().projects();
        let mut sums = vec![in alloc; 0; projects.len()]?;
        let supporters = count.supporters().of(place);
        sum_up(self.payments.as_slice(), supporters, &mut sums)?;
        let elected = count.outcome().elected.as_slice();
        largest(alloc, sums.as_slice(), elected)
    }
}

/// What each voter paid, in the order of the file.
fn payments_of(alloc: Global, count: &CountedElection) -> Result<Vec<VoterPayments>, NoMemory>
    ensures { IfOk result (λ all. ArePayments count.now all.items) }
{
    let voters = count.election().voters();
    let mut teller = VoterTeller::of(alloc, count)?;
    let mut all = Vec::with_capacity(alloc, voters.len())?;
    for position in 0..voters.len() {
        let mut list = Vec::new(alloc);
        teller.tell(position as u32, &mut list)?;
        all.push(VoterPayments { list })?;
    }
    Ok(all)
}

/// Adds what these voters paid to the sums, by place.
fn sum_up(all: &[VoterPayments], supporters: &[u32], sums: &mut Vec<u64>) -> Result<(), NoMemory>
    requires voters { All (λ voter. voter < length all.now) supporters.now }
    requires known { All (AreKnown (length sums.old.items)) all.now }
    ensures one_each { length sums.new.items ≡ length sums.old.items }
    ensures summed { OnOk result ((place : ℕ) → slice_index sums.new.items place ≡ slice_index sums.old.items place
        + sum_by (λ voter. paid_to place (slice_index_or all.now voter [])) supporters.now) }
{
    for voter in supporters {
        let payments = &all[*voter as usize];
        add_up(payments.list(), sums)?;
    }
    Ok(())
}

/// Adds these payments to the sums, by place.
fn add_up(payments: &[Payment], sums: &mut Vec<u64>) -> Result<(), NoMemory>
    requires { AreKnown (length sums.old.items) payments.now }
    ensures one_each { length sums.new.items ≡ length sums.old.items }
    ensures summed { OnOk result ((place : ℕ) → slice_index sums.new.items place ≡ slice_index sums.old.items place + paid_to place payments.now) }
{
    for payment in payments {
        let sum = &mut sums[payment.place as usize];
        *sum = together(*sum, payment.amount.0)?;
    }
    Ok(())
}

/// Two amounts together. Those paid for one of the elected fit, and others are refused.
fn together(one: u64, other: u64) -> Result<u64, NoMemory>
    ensures { IfOk result (λ both. both ≡ one + other) }
{
    match one.checked_add(other) {
        Some(both) => Ok(both),
        None => Err(NoMemory),
    }
}

/// The five largest of the sums of the elected, and the others together.
fn largest(alloc: Global, sums: &[u64], elected: &[Elected]) -> Result<MoneyPaid, NoMemory>
    requires { All (λ w. w.place < length sums.now) elected.now }
    ensures { IfOk result (λ money. money ≡ money_of (sums_for sums.now elected.now)) }
{
    let mut most = Vec::new(alloc);
    let mut all: u128 = 0;
    for winner in elected {
        let amount = sums[winner.place as usize];
        if amount > 0 {
            all += u128::from(amount);
            let payment = Payment {
                place: winner.place,
                amount: Money(amount),
            };
            note(&mut most, payment)?;
        }
    }
    let others = without(all, most.as_slice());
    Ok(MoneyPaid { most, others })
}

/// An amount less these payments.
fn without(amount: u128, payments: &[Payment]) -> u128
    ensures { result ≡ amount - sum_by (λ p. p.amount) payments.now }
{
    let mut left = amount;
    for payment in payments {
        left = left.saturating_sub(u128::from(payment.amount.0));
    }
    left
}

/// Takes a payment among the largest, if it is one of the first five then.
fn note(most: &mut Vec<Payment>, payment: Payment) -> Result<(), NoMemory>
    requires { length most.old.items ≤ 5 }
    ensures { OnOk result (most.new.items ≡ take 5 (with_payment most.old.items payment)) }
{
    if payment.amount.0 == 0 {
        return Ok(());
    }
    let at = number_behind(most.as_slice(), payment.amount);
    most.insert(at, payment)?;
    most.truncate(MOST);
    Ok(())
}

/// How many of these payments stand before the first that is less than this amount.
fn number_behind(most: &[Payment], amount: Money) -> usize
    ensures { (p : Payment) → p.amount ≡ amount → 0 < p.amount
        → (result ≤ length most.now) × (insert most.now result p ≡ with_payment most.now p) }
{
    for at in 0..most.len() {
        let other = &most[at];
        if other.amount.0 < amount.0 {
            return at;
        }
    }
    most.len()
}
