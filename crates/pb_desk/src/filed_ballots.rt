//! The slots of a desk's ballots, one after the other.

ghost use Rattle.std.specs.Prelude.{◌≡◌, ℕ, List, [], ◌∷◌, MatchOption};
ghost use Rattle.std.specs.Iterator.{YieldsFirstBy};
ghost use Rattle.pb_desk.specs.Inner.Slots.{filed};

use crate::ballot_box::found_in;
use crate::source::Source;
use pb_core::ballot::Ballot;
use pb_core::entry::Entry;
use pb_core::voter::Voter;
use pb_core::voter_id::VoterId;
use std::alloc::{Allocator, Global};
use std::marker::Model;

/// The slots that are left, and where their ballots are. A contract sees the ballots, each a voter's id and
/// the places that the voter approves.
#[derive(Drop)]
pub(crate) struct FiledBallots<'a, A: Allocator = Global> {
    pub(crate) voters: &'a [Voter<A>],
    pub(crate) journal: &'a [Entry<A>],
    pub(crate) slots: &'a [Option<(VoterId<A>, Source)>],
}

impl<'a, A: Allocator> Model for FiledBallots<'a, A> {
    ghost use Rattle.std.specs.Prelude.{ℕ, List};
    ghost use Rattle.pb_desk.specs.Inner.Slots.{filed};
    ghost use Rattle.pb_desk.specs.Inner.Sources.{ballots_at, AreFound};

    ghost Value = { List (List ℕ × List ℕ) };

    ghost view = { λ b. ballots_at b.voters.now b.journal.now (filed b.slots.now) };

    ghost invariant = { λ b. AreFound b.voters.now b.journal.now (filed b.slots.now) };
}

/// Where the first ballot of these slots stands, and the slots behind it.
fn first_filed<'a, A: Allocator>(
    slots: &'a [Option<(VoterId<A>, Source)>],
) -> Option<(Source, &'a [Option<(VoterId<A>, Source)>])>
    ensures { MatchOption result (filed slots.now ≡ [])
        (λ p. (id : List ℕ) × (filed slots.now ≡ (id, p.0) ∷ filed p.1.now)) }
{
    let mut left = slots;
    while let Some((slot, behind)) = left.split_first() {
        if let Some((_voter, source)) = slot {
            return Some((*source, behind));
        }
        left = behind;
    }
    None
}

impl<'a, A: Allocator> FiledBallots<'a, A> {
    /// Takes out the first ballot.
    pub(crate) fn take(&mut self) -> Option<(&'a VoterId<A>, &'a Ballot<A>)>
        ensures { YieldsFirstBy (λ p. (p.0.now, p.1.now)) (λ b. b) self.old result self.new }
    {
        let (source, behind) = first_filed(self.slots)?;
        self.slots = behind;
        found_in(self.voters, self.journal, source)
    }
}
