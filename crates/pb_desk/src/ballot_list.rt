//! Voters and where their ballots stand, in the order in which they were cast.

ghost use Rattle.std.specs.Prelude.{◌≡◌, ◌≤◌, None, [], ◌∷◌, ◌++◌, is_some, length, map, slice_get, IfOk};
ghost use Rattle.std.specs.Prelude.{OnOk, OnErr};
ghost use Rattle.std.specs.Option.{option_map};
ghost use Rattle.std.specs.Map.{lookup, remove_entry, set_value};
ghost use Rattle.std.specs.Str.{bytes_eq};
ghost use Rattle.pb_core.specs.Inner.Ids.{AreDistinct};
ghost use Rattle.pb_core.specs.Election.{most_voters};
ghost use Rattle.pb_desk.specs.Inner.Slots.{filed};
ghost use Rattle.pb_desk.specs.Inner.Sources.{opened_from};

use crate::source::Source;
use pb_core::no_memory::NoMemory;
use pb_core::voter::Voter;
use pb_core::voter_id::VoterId;
use pb_ids::IdTable;
use std::alloc::Allocator;
use std::marker::Model;

mod take_voters;

/// The voters who have ballots, and where these stand, in the order in which they were cast.
///
/// A ballot that is cast gets the next slot. A withdrawal leaves a gap there, which is never used again, and
/// the table goes on naming that slot. So no call but `at` and `take_voters` goes over the slots.
#[derive(Drop)]
pub(crate) struct BallotList<A: Allocator> {
    slot_of: IdTable<A>,
    slots: Vec<Option<(VoterId<A>, Source)>, A>,
    count: usize,
}

impl<A: Allocator> Model for BallotList<A> {
    ghost use Rattle.std.specs.Prelude.{ℕ, List};
    ghost use Rattle.std.specs.FinMap as map;
    ghost use Rattle.pb_desk.specs.Inner.Slots.{filed, IsListing};
    ghost use Rattle.pb_desk.specs.declared.source.Source.{Source};

    ghost Value = { List (List ℕ × Source) };

    ghost view = { λ b. filed b.slots.items };

    ghost invariant = { λ b. IsListing (map.get b.slot_of) b.slots.items b.count };
}

/// The ballot in a slot stands there from now on.
fn set_source<A: Allocator>(slot: &mut Option<(VoterId<A>, Source)>, source: Source)
    ensures { slot.new ≡ option_map (λ b. (b.0, source)) slot.old }
{
    if let Some((_voter, standing)) = slot {
        *standing = source;
    }
}

/// Where the ballot at this place in the order of the slots stands, from 0.
fn nth<A: Allocator>(slots: &[Option<(VoterId<A>, Source)>], place: usize) -> Option<Source>
    ensures { result ≡ option_map (λ b. b.1) (slice_get (filed slots.now) place) }
{
    let mut left = place;
    for slot in slots {
        match slot {
            Some((_voter, source)) => {
                if left == 0 {
                    return Some(*source);
                }
                left -= 1;
            }
            None => {}
        }
    }
    None
}

impl<A: Allocator> BallotList<A> {
    /// No ballots, with room for this many.
    fn with_capacity(alloc: A, n: usize) -> Result<BallotList<A>, NoMemory>
    where
        A: Copy,
        ensures { IfOk result (λ ballots. ballots ≡ []) }
    {
        let slots = Vec::with_capacity(alloc, n)?;
        Ok(BallotList {
            slot_of: IdTable::new(alloc),
            slots,
            count: 0,
        })
    }

    /// The ballots of an election's voters, in their order.
    pub(crate) fn open(alloc: A, voters: &[Voter<A>]) -> Result<BallotList<A>, NoMemory>
    where
        A: Copy,
        requires few { length voters.now ≤ most_voters }
        requires differ { AreDistinct (map (λ v. v.id) voters.now) }
        ensures { IfOk result (λ ballots. ballots ≡ opened_from 0 voters.now) }
    {
        let mut ballots = BallotList::with_capacity(alloc, voters.len())?;
        match ballots.fill(alloc, voters) {
            Ok(()) => Ok(ballots),
            Err(NoMemory) => {
                drop(ballots);
                Err(NoMemory)
            }
        }
    }

    /// Adds the ballots of an election's voters, in their order, where there are none.
    fn fill(&mut self, alloc: A, voters: &[Voter<A>]) -> Result<(), NoMemory>
    where
        A: Copy,
        requires none { self.old ≡ [] }
        requires few { length voters.now ≤ most_voters }
        requires differ { AreDistinct (map (λ v. v.id) voters.now) }
        ensures { OnOk result (self.new ≡ opened_from 0 voters.now) }
    {
        let mut place = 0u32;
        for voter in voters {
            self.push(alloc, &voter.id, Source::Opening(place))?;
            place += 1;
        }
        Ok(())
    }

    /// How many ballots there are.
    pub(crate) fn len(&self) -> usize
        ensures { result ≡ length self.now }
    {
        self.count
    }

    /// Whether the voter has a ballot.
    pub(crate) fn has(&self, voter: &VoterId<A>) -> bool
        ensures { result ≡ is_some (lookup (bytes_eq voter.now) self.now) }
    {
        self.get(voter).is_some()
    }

    /// Where the voter's ballot stands.
    pub(crate) fn get(&self, voter: &VoterId<A>) -> Option<Source>
        ensures { result ≡ lookup (bytes_eq voter.now) self.now }
    {
        let slot = self.slot_of.get(voter.text())?;
        match &self.slots[slot as usize] {
            Some((_voter, source)) => Some(*source),
            None => None,
        }
    }

    /// Where the ballot at this place in the order stands, from 0. It goes through the slots.
    pub(crate) fn at(&self, place: usize) -> Option<Source>
        ensures { result ≡ option_map (λ s. s.1) (slice_get self.now place) }
    {
        nth(self.slots.as_slice(), place)
    }

    /// The slots, each with a voter's ballot or a gap.
    pub(crate) fn slots(&self) -> &[Option<(VoterId<A>, Source)>]
        ensures { filed result.now ≡ self.now }
    {
        self.slots.as_slice()
    }

    /// Adds a voter who has no ballot, after the others.
    pub(crate) fn push(
        &mut self,
        alloc: A,
        voter: &VoterId<A>,
        source: Source,
    ) -> Result<(), NoMemory>
    where
        A: Copy,
        requires { lookup (bytes_eq voter.now) self.old ≡ None }
        ensures ok { OnOk result (self.new ≡ self.old ++ (voter.now, source) ∷ []) }
        ensures err { OnErr result (self.new ≡ self.old) }
    {
        let Ok(slot) = u32::try_from(self.slots.len()) else {
            return Err(NoMemory);
        };
        self.slots.reserve(1)?;
        let own = voter.copy(alloc)?;
        match self.slot_of.insert(alloc, voter.text(), slot) {
            Ok(_) => {}
            Err(_) => {
                drop(own);
                return Err(NoMemory);
            }
        }
        self.slots.push(Some((own, source))).unwrap();
        self.count += 1;
        Ok(())
    }

    /// The ballot of a voter who has one stands there from now on.
    pub(crate) fn replace(&mut self, voter: &VoterId<A>, source: Source)
        ensures { self.new ≡ set_value (bytes_eq voter.now) self.old source }
    {
        if let Some(slot) = self.slot_of.get(voter.text()) {
            set_source(&mut self.slots[slot as usize], source);
        }
    }

    /// Takes the voter out; the others keep their order.
    pub(crate) fn remove(&mut self, voter: &VoterId<A>)
        ensures { self.new ≡ remove_entry (bytes_eq voter.now) self.old }
    {
        if let Some(slot) = self.slot_of.get(voter.text()) {
            if self.slots[slot as usize].take().is_some() {
                self.count -= 1;
            }
        }
    }
}
