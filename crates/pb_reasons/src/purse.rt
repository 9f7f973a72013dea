//! What one voter pays out of the share, round by round.

ghost use Rattle.std.specs.Prelude.{◌≡◌, ℕ, ◌<◌, List, All, AllPairs, IfOk, OnOk, filter, length, map};
ghost use Rattle.std.specs.Prelude.{nat_lt, slice_index};
ghost use Rattle.std.specs.List.Sorted.{IsStrictlyIncreasing};
ghost use Rattle.pb_core.specs.Ballot.{HasSameMembers};
ghost use Rattle.pb_reasons.specs.Inner.Kept.{AreRounds};
ghost use Rattle.pb_reasons.specs.Inner.Told.{AreApart};
ghost use Rattle.pb_reasons.specs.Inner.Turns.{AreDue, ArePaid, HasPaid};

use pb_core::money::Money;
use pb_core::no_memory::NoMemory;
use pb_rounds::outcome::Elected;
use std::alloc::Global;
use std::marker::Model;

/// What one voter after the other pays, round by round: its memory is used again for the next voter.
#[derive(Drop)]
pub(crate) struct Purse {
    due: Vec<u32>,
    amounts: Vec<Money>,
}

impl Model for Purse {
    ghost use Rattle.std.specs.Prelude.{List, ℕ};

    ghost Value = { List ℕ };

    ghost view = { λ p. p.amounts.items };
}

impl Purse {
    /// A purse for this many rounds.
    pub(crate) fn with_rounds(alloc: Global, rounds: usize) -> Result<Purse, NoMemory>
        ensures { IfOk result (λ purse. length purse ≡ rounds) }
    {
        let amounts = vec![in alloc; Money(0); rounds]?;
        Ok(Purse {
            due: Vec::new(alloc),
            amounts,
        })
    }

    /// The amount of each round; one in which the voter paid last does not pay is of an earlier voter.
    pub(crate) fn amounts(&self) -> &[Money]
        ensures { result.now ≡ self.now }
    {
        self.amounts.as_slice()
    }

    /// Pays for the elected that this ballot approves, in order of election, out of this share; `rounds` says
    /// which round elected which project.
    pub(crate) fn pay(
        &mut self,
        rounds: &[u32],
        ballot: &[u32],
        share: Money,
        elected: &[Elected],
    ) -> Result<(), NoMemory>
        requires one_each { length self.old ≡ length elected.now }
        requires numbered { AreRounds (length rounds.now) elected.now rounds.now }
        requires apart { AllPairs AreApart elected.now }
        requires known { All (λ place. place < length rounds.now) ballot.now }
        ensures one_each { length self.new ≡ length elected.now }
        ensures paid { OnOk result (HasPaid elected.now ballot.now share self.new) }
    {
        gather(rounds, elected.len(), ballot, &mut self.due)?;
        pay_due(self.due.as_slice(), elected, share, &mut self.amounts);
        Ok(())
    }
}

/// Puts the rounds of the ballot's places that are below this number into the list, rising, in place of what
/// it held.
fn gather(
    rounds: &[u32],
    elected: usize,
    ballot: &[u32],
    due: &mut Vec<u32>,
) -> Result<(), NoMemory>
    requires { All (λ place. place < length rounds.now) ballot.now }
    ensures rise { OnOk result (IsStrictlyIncreasing due.new.items) }
    ensures members { OnOk result (HasSameMembers
        (filter (λ round. nat_lt round elected)
        (map (λ place. slice_index rounds.now place) ballot.now)) due.new.items) }
{
    due.clear();
    for place in ballot {
        let round = rounds[*place as usize];
        if (round as usize) < elected {
            due.push(round)?;
        }
    }
    due.sort_unstable();
    due.dedup();
    Ok(())
}

/// Pays for the elected of these rounds out of this share, each its price, or all that is left where that is
/// less.
fn pay_due(due: &[u32], elected: &[Elected], share: Money, amounts: &mut Vec<Money>)
    requires one_each { length amounts.old.items ≡ length elected.now }
    requires known { All (λ round. round < length elected.now) due.now }
    ensures one_each { length amounts.new.items ≡ length elected.now }
    ensures paid { (ballot : List ℕ) → AreDue elected.now ballot due.now
        → ArePaid elected.now ballot share due.now amounts.new.items }
{
    let mut rest = share.0;
    for round in due {
        let winner = &elected[*round as usize];
        let price = winner.price;
        let amount = rest.min(price.0);
        rest -= amount;
        amounts[*round as usize] = Money(amount);
    }
}
