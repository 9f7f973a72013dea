//! What the ballots came to, told voter by voter.

ghost use Rattle.std.specs.Prelude.{◌≡◌, ◌<◌, All, ◌^◌, IfOk, OnOk, count_by, filter, length, map, nat_lt};
ghost use Rattle.std.specs.Prelude.{slice_index};
ghost use Rattle.pb_reasons.specs.Inner.OfOutcome.{outcome_voter};
ghost use Rattle.pb_reasons.specs.Inner.Told.{CanBeTold};
ghost use Rattle.pb_reasons.specs.Inner.Turns.{amount_at};
ghost use Rattle.pb_reasons.specs.Reasons.{voter_payments, voter_reason};

use crate::counted_election::CountedElection;
use crate::payment::Payment;
use crate::purse::Purse;
use crate::voter_reason::VoterReason;
use pb_core::election::Election;
use pb_core::money::Money;
use pb_core::no_memory::NoMemory;
use pb_rounds::outcome::Outcome;
use std::alloc::Global;
use std::marker::Model;

/// Tells what the ballots of a counted election came to, one voter after the other.
///
/// A contract sees the counted election.
#[derive(Drop)]
pub struct VoterTeller<'a> {
    count: &'a CountedElection,
    turns: Turns<'a>,
}

impl<'a> Model for VoterTeller<'a> {
    ghost use Rattle.std.specs.Prelude.{◌≡◌};
    ghost use Rattle.pb_reasons.specs.CountedElection.{CountedElectionView};

    ghost Value = { CountedElectionView };

    ghost view = { λ t. t.count.now };

    ghost invariant = { λ t. t.turns ≡ (t.count.now.election, t.count.now.counted.outcome) };
}

impl<'a> VoterTeller<'a> {
    /// A teller of this counted election.
    pub fn of(alloc: Global, count: &'a CountedElection) -> Result<VoterTeller<'a>, NoMemory>
        ensures { IfOk result (λ teller. teller ≡ count.now) }
    {
        let turns = Turns::of(alloc, count)?;
        Ok(VoterTeller { count, turns })
    }

    /// What the ballot of the voter at this position came to; the payments come into the list, in place of
    /// what it held.
    pub fn tell(&mut self, voter: u32, payments: &mut Vec<Payment>) -> Result<VoterReason, NoMemory>
        requires { voter < length self.old.election.voters }
        ensures reason { IfOk result (λ reason.
            reason ≡ voter_reason self.old.election self.old.counted voter) }
        ensures payments { OnOk result
            (payments.new.items ≡ voter_payments self.old.election self.old.counted.outcome voter) }
        ensures same { self.new ≡ self.old }
    {
        let reason = self.turns.tell(voter, payments)?;
        let count = self.count;
        let owner = &count.election().voters()[voter as usize];
        let ballot = owner.ballot.places();
        let numbers = count.kept().numbers();
        let added = count_added(numbers, count.added().len(), ballot);
        Ok(VoterReason {
            votes: reason.votes,
            elected: reason.elected + added,
            paid: reason.paid,
            left: reason.left,
        })
    }
}

/// How many of the ballot's places have a number below this.
fn count_added(numbers: &[usize], added: usize, ballot: &[u32]) -> u32
    requires known { All (λ place. place < length numbers.now) ballot.now }
    requires few { length ballot.now < 2 ^ 32 }
    ensures { result ≡ count_by (λ place. nat_lt (slice_index numbers.now place) added) ballot.now }
{
    let mut count = 0;
    for place in ballot {
        let number = numbers[*place as usize];
        if number < added {
            count += 1;
        }
    }
    count
}

/// What the voters paid for the elected, one voter's turns after the other's.
#[derive(Drop)]
struct Turns<'a> {
    election: &'a Election,
    outcome: &'a Outcome,
    rounds: &'a [u32],
    purse: Purse,
}

impl<'a> Model for Turns<'a> {
    ghost use Rattle.std.specs.Prelude.{◌≡◌, length};
    ghost use Rattle.pb_core.specs.Election.{ElectionView};
    ghost use Rattle.pb_rounds.specs.Outcome.{OutcomeView};
    ghost use Rattle.pb_reasons.specs.Inner.Kept.{AreRounds};
    ghost use Rattle.pb_reasons.specs.Inner.Told.{IsTold};

    ghost Value = { ElectionView × OutcomeView };

    ghost view = { λ k. (k.election.now, k.outcome.now) };

    ghost invariant = { λ k. IsTold k.election.now k.outcome.now
        × AreRounds (length k.election.now.projects) k.outcome.now.elected k.rounds.now
        × (length k.purse ≡ length k.outcome.now.elected) };
}

impl<'a> Turns<'a> {
    fn of(alloc: Global, count: &'a CountedElection) -> Result<Turns<'a>, NoMemory>
        ensures { IfOk result (λ turns. turns ≡ (count.now.election, count.now.counted.outcome)) }
    {
        let outcome = count.outcome();
        let rounds = count.kept().rounds();
        let purse = Purse::with_rounds(alloc, outcome.elected.len())?;
        Ok(Turns {
            election: count.election(),
            outcome,
            rounds,
            purse,
        })
    }

    fn tell(&mut self, voter: u32, payments: &mut Vec<Payment>) -> Result<VoterReason, NoMemory>
        requires { voter < length self.old.0.voters }
        ensures reason { IfOk result (λ reason. reason ≡ outcome_voter self.old.0 self.old.1 voter) }
        ensures payments { OnOk result (payments.new.items ≡ voter_payments self.old.0 self.old.1 voter) }
        ensures same { self.new ≡ self.old }
    {
        let election = self.election;
        let outcome = self.outcome;
        let owner = &election.voters()[voter as usize];
        let ballot = owner.ballot.places();
        let share = outcome.share;
        let rounds = self.rounds;
        self.purse
            .pay(rounds, ballot, share, outcome.elected.as_slice())?;
        let elected = list_payments(rounds, self.purse.amounts(), ballot, payments)?;
        let left = outcome.rests[voter as usize];
        Ok(VoterReason {
            votes: ballot.len() as u32,
            elected,
            paid: Money(share.0 - left.0),
            left,
        })
    }
}

/// Lists the payments above 0 for the ballot's places, in place of what the list held; how many of them have
/// a round.
fn list_payments(
    rounds: &[u32],
    amounts: &[Money],
    ballot: &[u32],
    payments: &mut Vec<Payment>,
) -> Result<u32, NoMemory>
    requires known { All (λ place. place < length rounds.now) ballot.now }
    requires few { length ballot.now < 2 ^ 32 }
    ensures elected { IfOk result (λ elected.
        elected ≡ count_by (λ place. nat_lt (slice_index rounds.now place) (length amounts.now)) ballot.now) }
    ensures listed { OnOk result (payments.new.items ≡ filter (λ p. nat_lt 0 p.amount)
        (map (λ place. record {
          place = place;
          amount =
              amount_at rounds.now amounts.now place;
        }) ballot.now)) }
{
    payments.clear();
    let mut elected = 0;
    for place in ballot {
        let round = rounds[*place as usize] as usize;
        if round < amounts.len() {
            elected += 1;
            let amount = amounts[round];
            if amount.0 > 0 {
                payments.push(Payment {
                    place: *place,
                    amount,
                })?;
            }
        }
    }
    Ok(elected)
}
