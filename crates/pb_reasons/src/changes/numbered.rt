//! Voters whose ids are numbers.

ghost use Rattle.std.specs.Prelude.{◌≡◌, ◌+◌, ◌<◌, ◌≤◌, ◌++◌, ◌∷◌, [], All, List, IfOk, OnOk, decimal};
ghost use Rattle.std.specs.Prelude.{length, map, replicate};
ghost use Rattle.pb_core.specs.Election.{IsVoter, VoterView, most_voters};
ghost use Rattle.pb_reasons.specs.Inner.Numbered.{AreNumbered};

use itoa::Buffer;
use pb_core::ballot::Ballot;
use pb_core::no_memory::NoMemory;
use pb_core::voter::Voter;
use pb_core::voter_id::VoterId;
use std::alloc::Global;

/// Gives the voters numbers for ids, from 0, in their order. Their ballots are moved.
pub(crate) fn with_number_ids(
    alloc: Global,
    voters: Vec<Voter>,
    projects: usize,
) -> Result<Vec<Voter>, NoMemory>
    requires few { length voters.items ≤ most_voters }
    requires are_voters { All (IsVoter projects) voters.items }
    ensures numbered { IfOk result (λ own. AreNumbered projects own.items) }
    ensures ballots { IfOk result (λ own. map (λ v. v.ballot) own.items ≡ map (λ v. v.ballot) voters.items) }
{
    let mut own = Vec::with_capacity(alloc, voters.len())?;
    for voter in voters {
        let Voter { id, ballot } = voter;
        drop(id);
        add_numbered(alloc, &mut own, ballot)?;
    }
    Ok(own)
}

/// Voters with the same ids and ballots, in memory of their own.
pub(crate) fn copied(alloc: Global, voters: &[Voter]) -> Result<Vec<Voter>, NoMemory>
    ensures { IfOk result (λ own. own.items ≡ voters.now) }
{
    let mut own = Vec::with_capacity(alloc, voters.len())?;
    for voter in voters {
        let id = voter.id.copy(alloc)?;
        add_copy(alloc, &mut own, id, &voter.ballot)?;
    }
    Ok(own)
}

/// Adds a voter with this id and a copy of a ballot.
fn add_copy(
    alloc: Global,
    voters: &mut Vec<Voter>,
    id: VoterId,
    ballot: &Ballot,
) -> Result<(), NoMemory>
    ensures { OnOk result (voters.new.items ≡ voters.old.items
        ++ record { id = id; ballot = ballot.now } ∷ []) }
{
    let ballot = ballot.copy(alloc)?;
    voters.push(Voter { id, ballot })?;
    Ok(())
}

/// Adds so many further voters, who approve the project at this place alone.
pub(crate) fn add_further(
    alloc: Global,
    voters: &mut Vec<Voter>,
    place: u32,
    further: usize,
    projects: usize,
) -> Result<(), NoMemory>
    requires numbered { AreNumbered projects voters.old.items }
    requires few { length voters.old.items + further ≤ most_voters }
    requires known { place < projects }
    ensures numbered { OnOk result (AreNumbered projects voters.new.items) }
    ensures grown { OnOk result ((more : List VoterView) × (voters.new.items ≡ voters.old.items ++ more)
        × (map (λ v. v.ballot) more ≡ replicate further (place ∷ []))) }
{
    for _further in 0..further {
        let ballot = Ballot::of(alloc, &[place])?;
        add_numbered(alloc, voters, ballot)?;
    }
    Ok(())
}

/// Adds a voter with this ballot, whose id is the number of the voters before.
fn add_numbered(alloc: Global, voters: &mut Vec<Voter>, ballot: Ballot) -> Result<(), NoMemory>
    ensures { OnOk result (voters.new.items ≡ voters.old.items
        ++ record { id = decimal (length voters.old.items); ballot = ballot } ∷ []) }
{
    match number_id(alloc, voters.len()) {
        Ok(id) => {
            voters.push(Voter { id, ballot })?;
            Ok(())
        }
        Err(refused) => {
            drop(ballot);
            Err(refused)
        }
    }
}

/// The id that a number is.
fn number_id(alloc: Global, number: usize) -> Result<VoterId, NoMemory>
    ensures { IfOk result (λ id. id ≡ decimal number) }
{
    let mut digits = Buffer::new();
    let id = VoterId::new(alloc, digits.format(number))?;
    Ok(id.unwrap())
}
