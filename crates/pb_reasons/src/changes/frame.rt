//! The budget and the projects of a changed election.

ghost use Rattle.std.specs.Prelude.{◌≡◌, ◌<◌, ◌≤◌, [], IfOk, OnOk, length, map, slice_set};
ghost use Rattle.pb_core.specs.Election.{project_ids};
ghost use Rattle.pb_core.specs.Money.{largest_money};
ghost use Rattle.pb_reasons.specs.WhatIf.{CanBe, changed, seen};

use crate::changes::change::Change;
use pb_core::election::Election;
use pb_core::money::Money;
use pb_core::no_memory::NoMemory;
use pb_core::project::Project;
use std::alloc::Global;

/// The budget and the projects of an election so changed.
pub(crate) fn changed_frame(
    alloc: Global,
    frame: &Election,
    change: Change,
    place: u32,
    value: u64,
) -> Result<Election, NoMemory>
    requires known { place < length frame.now.projects }
    requires can_be { CanBe (seen frame.now) change value }
    ensures budget { IfOk result (λ own. own.budget ≡ frame.now.budget) }
    ensures voters { IfOk result (λ own. own.voters ≡ []) }
    ensures ids { IfOk result (λ own. project_ids own ≡ project_ids frame.now) }
    ensures costs { IfOk result (λ own. map (λ p. p.cost) own.projects
        ≡ (changed change place value (seen frame.now)).costs) }
{
    let cost = match change {
        Change::Cost => Money(value),
        Change::Voters => frame.projects()[place as usize].cost(),
    };
    let mut own = Election::start_with(alloc, frame.terms());
    copy_projects(alloc, frame, &mut own, place, cost)?;
    Ok(own)
}

/// Gives an election that has no project yet those of another one, with this cost for the one at this place.
fn copy_projects(
    alloc: Global,
    frame: &Election,
    own: &mut Election,
    place: u32,
    cost: Money,
) -> Result<(), NoMemory>
    requires no_project_yet { own.old.projects ≡ [] }
    requires no_voter_yet { own.old.voters ≡ [] }
    requires costs { 0 < cost }
    requires affordable { cost ≤ largest_money }
    ensures ids { OnOk result (project_ids own.new ≡ project_ids frame.now) }
    ensures kept { OnOk result (own.new ≡ record own.old { projects = own.new.projects }) }
    ensures costs { OnOk result (map (λ p. p.cost) own.new.projects
        ≡ slice_set (map (λ p. p.cost) frame.now.projects) place cost) }
{
    for (number, project) in frame.projects().iter().enumerate() {
        let id = String::from_str(alloc, project.id())?;
        let name = String::from_str(alloc, project.name())?;
        let cost = if number == place as usize {
            cost
        } else {
            project.cost()
        };
        own.add_project(Project::new(id, name, cost))?;
    }
    Ok(())
}
