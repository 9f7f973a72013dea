//! The ids of an election's projects, for those who name projects by them.

ghost use Rattle.std.specs.Prelude.{◌≡◌, ◌≢◌, ◌++◌, ◌∷◌, [], IfOk, OnOk, map, string_bytes, true};
ghost use Rattle.std.specs.FinMap as places;
ghost use Rattle.std.specs.List.{AllPairs};
ghost use Rattle.pb_core.specs.Ballot.{HasSameMembers};
ghost use Rattle.pb_core.specs.Election.{project_ids};
ghost use Rattle.pb_read.specs.Inner.Ids.{Finds};
ghost use Rattle.pb_read.specs.Voting.{ballot_of, names_only};

use crate::vote::find_places;
use pb_core::election::Election;
use pb_core::no_memory::NoMemory;
use pb_ids::IdTable;
use std::alloc::Global;
use std::marker::Model;

/// The ids of an election's projects. A contract sees them as a list, in file order.
#[derive(Drop)]
pub struct ProjectIds {
    ids: Vec<String>,
    table: IdTable,
    ghost tied: { Finds table (map string_bytes ids.items) },
    ghost differ: { AllPairs (λ a b. a ≢ b) (map string_bytes ids.items) },
}

impl Model for ProjectIds {
    ghost use Rattle.std.specs.Prelude.{List, ℕ, map, string_bytes};

    ghost Value = { List (List ℕ) };

    ghost view = { λ p. map string_bytes p.ids.items };
}

impl ProjectIds {
    /// The ids of this election's projects.
    pub fn of(alloc: Global, election: &Election) -> Result<ProjectIds, NoMemory>
        ensures { IfOk result (λ ids. ids ≡ project_ids election.now) }
    {
        let mut ids = Vec::new(alloc);
        let mut table = IdTable::new(alloc);
        for project in election.projects() {
            let place = ids.len() as u32;
            note(alloc, &mut ids, &mut table, project.id(), place)?;
        }
        Ok(ProjectIds { ids, table })
    }

    /// Puts the places of the projects that a vote names into `places`, and answers whether it names nothing
    /// else. They may stand in any order, and with repeats.
    pub fn find_places(&self, vote: &str, places: &mut Vec<u32>) -> Result<bool, NoMemory>
        ensures known { IfOk result (λ all. all ≡ names_only self.now vote.now) }
        ensures places { IfOk result (λ all. all ≡ true
            → HasSameMembers places.new.items (ballot_of self.now vote.now)) }
    {
        find_places(&self.table, vote, places)
    }
}

/// Notes the next project's id, and its place.
fn note(
    alloc: Global,
    ids: &mut Vec<String>,
    table: &mut IdTable,
    id: &str,
    place: u32,
) -> Result<(), NoMemory>
    ensures ids { OnOk result (map string_bytes ids.new.items ≡ map string_bytes ids.old.items
        ++ id.now ∷ []) }
    ensures table { OnOk result (table.new ≡ places.insert table.old id.now place) }
{
    table.insert(alloc, id, place)?;
    ids.push(String::from_str(alloc, id)?)?;
    Ok(())
}
