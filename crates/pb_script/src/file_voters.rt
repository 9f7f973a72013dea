//! The voters whom a file lists.

ghost use Rattle.std.specs.Prelude.{◌≡◌, IfOk, fold};
ghost use Rattle.std.specs.FinMap as table;
ghost use Rattle.pb_core.specs.Election.{voter_ids};

use pb_core::election::Election;
use pb_core::no_memory::NoMemory;
use pb_ids::IdTable;
use std::alloc::Global;

/// The ids of an election's voters, and no others, each with the place 0.
pub fn voters_of(alloc: Global, election: &Election) -> Result<IdTable, NoMemory>
    ensures { IfOk result (λ ids. ids
        ≡ fold (λ ids id. table.insert ids id 0) table.empty (voter_ids election.now)) }
{
    let mut ids = IdTable::new(alloc);
    for voter in election.voters() {
        ids.insert(alloc, voter.id.text(), 0)?;
    }
    Ok(ids)
}
