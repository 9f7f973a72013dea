//! A list of voters, by position.

ghost use Rattle.std.specs.Prelude.{◌≡◌, ℕ, ◌<◌, List, [], ◌∷◌, ◌++◌, All, length, IfOk, OnOk, OnErr};
ghost use Rattle.std.specs.List.Sorted.{IsStrictlyIncreasing};
ghost use Rattle.pb_price.specs.Inner.Lists.{AddsVoter};

use pb_core::no_memory::NoMemory;
use std::alloc::{Allocator, Global};
use std::marker::Model;

/// The voters who support one project, by position.
#[derive(Drop)]
pub(crate) struct VoterList<A: Allocator = Global> {
    voters: Vec<u32, A>,
}

impl<A: Allocator> Model for VoterList<A> {
    ghost Value = { List ℕ };

    ghost view = { λ l. l.voters.items };
}

impl<A: Allocator> VoterList<A> {
    /// No voter yet, with room for this many.
    pub(crate) fn with_room(alloc: A, room: usize) -> Result<VoterList<A>, NoMemory>
        ensures { IfOk result (λ list. list ≡ []) }
    {
        let voters = Vec::with_capacity(alloc, room)?;
        Ok(VoterList { voters })
    }

    pub(crate) fn voters(&self) -> &[u32]
        ensures { result.now ≡ self.now }
    {
        self.voters.as_slice()
    }

    /// Adds a voter after the others.
    pub(crate) fn push(&mut self, voter: u32) -> Result<(), NoMemory>
        ensures ok { OnOk result (self.new ≡ self.old ++ voter ∷ []) }
        ensures err { OnErr result (self.new ≡ self.old) }
    {
        self.voters.push(voter)?;
        Ok(())
    }
}

/// Adds the voter to the list of each project that the ballot approves.
pub(crate) fn add_ballot<A: Allocator>(
    lists: &mut Vec<VoterList<A>, A>,
    voter: u32,
    ballot: &[u32],
) -> Result<(), NoMemory>
    requires rises { IsStrictlyIncreasing ballot.now }
    requires known { All (λ place. place < length lists.old.items) ballot.now }
    ensures { OnOk result (AddsVoter lists.old.items lists.new.items voter ballot.now) }
{
    for place in ballot {
        let list = &mut lists[*place as usize];
        list.push(voter)?;
    }
    Ok(())
}
