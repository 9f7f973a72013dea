//! How fair a count is to all supporters of each project that lost.

ghost use Rattle.std.specs.Prelude.{◌≡◌, ◌*◌, ℕ, ◌<◌, All, IfOk, false, if◌then◌else◌, length, nat_le};
ghost use Rattle.std.specs.Prelude.{slice_index, true};
ghost use Rattle.pb_price.specs.Supporters.{support_in, support_of};
ghost use Rattle.pb_rounds.specs.MostVotes.{is_taken, votes_at};
ghost use Rattle.pb_reasons.specs.Counted.{winners_of};
ghost use Rattle.pb_reasons.specs.Fairness.{needed, spent};
ghost use Rattle.pb_reasons.specs.Inner.Spending.{NotesSpent, within_need};

use crate::counted_election::CountedElection;
use crate::payment::Payment;
use crate::tie_queue::weight_of;
use crate::voter_teller::VoterTeller;
use pb_core::money::Money;
use pb_core::no_memory::NoMemory;
use pb_price::supporters::Supporters;
use std::alloc::Global;

/// What the project at this place would have cost each of its supporters, rounded up, in the parts that are counted.
pub fn needed(supporters: &Supporters, place: u32) -> Money
    requires known { place < length supporters.now.costs }
    requires supported { 0 < votes_at supporters.now place }
    ensures { result ≡ needed supporters.now place }
{
    let votes = supporters.of(place).len();
    let cost = supporters.cost_in_parts(place);
    Money(cost.0.div_ceil(votes as u64))
}

/// For each project that is neither elected nor added, in their order, the most that one of its
/// supporters paid for elected projects that each took at most what this one would have cost each supporter
/// (under measure cost, for their cost), in the parts that are counted; 0 for each winner.
///
/// Each voter's payments are looked at once for each of the voter's choices that lost.
pub fn most_spent(alloc: Global, count: &CountedElection) -> Result<Vec<u128>, NoMemory>
    ensures one_each { IfOk result (λ most. length most.items ≡ length count.now.election.projects) }
    ensures spent { IfOk result (λ most. (place : ℕ) → place < length count.now.election.projects
        → is_taken (winners_of count.now.counted) place ≡ false → slice_index most.items place
        ≡ spent count.now.rule.options.measure (support_in count.now.rule.options.grain count.now.election)
        count.now.counted.outcome place) }
    ensures winners { IfOk result (λ most. (place : ℕ) → place < length count.now.election.projects
        → is_taken (winners_of count.now.counted) place ≡ true → slice_index most.items place ≡ 0) }
{
    let projects = count.election().projects();
    let voters = count.election().voters();
    let mut most = vec![in alloc; 0; projects.len()]?;
    let mut teller = VoterTeller::of(alloc, count)?;
    let mut payments = Vec::new(alloc);
    for position in 0..voters.len() {
        teller.tell(position as u32, &mut payments)?;
        let voter = &voters[position];
        note_spent(count, voter.ballot.places(), payments.as_slice(), &mut most);
    }
    Ok(most)
}

/// Notes for each of the ballot's projects that lost what these payments of its voter come to, if that is the
/// most so far.
fn note_spent(count: &CountedElection, ballot: &[u32], payments: &[Payment], most: &mut Vec<u128>)
    requires ballot { All (λ place. place < length count.now.election.projects) ballot.now }
    requires supported { All (λ place. 0 < votes_at (support_of count.now.election) place) ballot.now }
    requires payments { All (λ p. p.place < length count.now.election.projects) payments.now }
    requires one_each { length most.old.items ≡ length count.now.election.projects }
    ensures { NotesSpent (winners_of count.now.counted)
        (λ place. within_need count.now.rule.options.measure
        (support_in count.now.rule.options.grain count.now.election) place payments.now)
        ballot.now most.old.items most.new.items }
{
    for place in ballot {
        if !count.has_won(*place) {
            let spent = within_need(count, *place, payments);
            let most = &mut most[*place as usize];
            *most = (*most).max(spent);
        }
    }
}

/// What those of these payments come to that took at most what the project at this place would have cost.
fn within_need(count: &CountedElection, place: u32, payments: &[Payment]) -> u128
    requires known { place < length count.now.election.projects }
    requires supported { 0 < votes_at (support_of count.now.election) place }
    requires payments { All (λ p. p.place < length count.now.election.projects) payments.now }
    ensures { result ≡ within_need count.now.rule.options.measure
        (support_in count.now.rule.options.grain count.now.election) place payments.now }
{
    let measure = count.rule().options.measure;
    let supporters = count.supporters();
    let need = Need {
        amount: needed(supporters, place).0,
        weight: weight_of(measure, supporters, place),
    };
    let mut spent = 0;
    for payment in payments {
        let weight = weight_of(measure, supporters, payment.place);
        spent += u128::from(need.counted(payment.amount, weight));
    }
    spent
}

/// What a project would have cost each of its supporters, and what its price is divided by.
#[derive(Clone, Copy)]
struct Need {
    /// In the parts that are counted.
    amount: u64,
    weight: u64,
}

impl Need {
    /// What counts of what was paid for a project of this weight: all, or nothing where it took more.
    fn counted(&self, paid: Money, weight: u64) -> u64
        ensures { result
            ≡ if nat_le (paid * self.now.weight) (self.now.amount * weight) then paid else 0 }
    {
        if u128::from(paid.0) * u128::from(self.weight)
            <= u128::from(self.amount) * u128::from(weight)
        {
            paid.0
        } else {
            0
        }
    }
}
