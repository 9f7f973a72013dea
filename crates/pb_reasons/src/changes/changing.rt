//! An election that is changed for one count at a time.

ghost use Rattle.std.specs.Prelude.{◌≡◌, ◌<◌, ◌≤◌, [], IfOk, None, OnOk, length, map};
ghost use Rattle.std.specs.Prelude.{slice_index, take};
ghost use Rattle.pb_core.specs.Election.{most_voters};
ghost use Rattle.pb_reasons.specs.WhatIf.{CanBe, IsTrue, seen};
ghost use Rattle.pb_rounds.specs.CountFault.{refusal_of};
ghost use Rattle.pb_reasons.specs.Inner.Numbered.{AreNumbered};
ghost use Rattle.pb_reasons.specs.Inner.Searching.{IsLent, further_of};

use crate::changes::change::{Change, Row};
use crate::changes::frame::changed_frame;
use crate::changes::numbered::{add_further, copied, with_number_ids};
use crate::changes::recount::{Recount, verdict_of};
use pb_core::election::Election;
use pb_core::gate::Gate;
use pb_core::money::Money;
use pb_core::no_memory::NoMemory;
use pb_core::voter::Voter;
use pb_rounds::count_fault::CountFault;
use std::alloc::Global;
use std::marker::Model;
use std::mem;
use std::thread::Threads;

/// An election that is changed for one count at a time. Its voters have numbers for ids, so that further ones
/// can be added, and their ballots are moved into each changed election and back.
///
/// A contract sees what a count reads of it.
#[derive(Drop)]
pub(crate) struct Changing {
    /// The budget and the projects.
    frame: Election,
    voters: Vec<Voter>,
}

impl Model for Changing {
    ghost use Rattle.std.specs.Prelude.{◌≡◌, [], length, map};
    ghost use Rattle.pb_reasons.specs.WhatIf.{Seen};
    ghost use Rattle.pb_core.specs.Election.{project_ids};
    ghost use Rattle.pb_reasons.specs.Inner.Numbered.{AreNumbered};

    ghost Value = { Seen };

    ghost view = { λ c. record {
      budget = c.frame.budget;
      ids = project_ids c.frame;
      costs = map (λ p. p.cost) c.frame.projects;
      ballots = map (λ v. v.ballot) c.voters.items;
    } };

    ghost invariant = { λ c. (c.frame.voters ≡ []) × AreNumbered (length c.frame.projects) c.voters.items };
}

impl Changing {
    /// The same election, whose voters get numbers for ids.
    pub(crate) fn of(alloc: Global, election: Election) -> Result<Changing, NoMemory>
        ensures { IfOk result (λ own. own ≡ seen election) }
    {
        let mut frame = election;
        let projects = frame.projects().len();
        let voters = frame.replace_voters(Vec::new(alloc));
        let voters = with_number_ids(alloc, voters, projects)?;
        Ok(Changing { frame, voters })
    }

    /// A copy, to be changed about the project at this place.
    pub(crate) fn copy_about(&self, alloc: Global, place: u32) -> Result<Changing, NoMemory>
        requires { place < length self.now.costs }
        ensures { IfOk result (λ own. own ≡ self.now) }
    {
        let voters = copied(alloc, self.voters.as_slice())?;
        let frame = changed_frame(alloc, &self.frame, Change::Voters, place, 0)?;
        Ok(Changing { frame, voters })
    }

    /// How many voters it has.
    pub(crate) fn voters(&self) -> usize
        ensures voters { result ≡ length self.now.ballots }
        ensures few { result ≤ most_voters }
    {
        self.voters.len()
    }

    /// The cost of the project at this place.
    pub(crate) fn cost(&self, place: u32) -> Money
        requires { place < length self.now.costs }
        ensures { result ≡ slice_index self.now.costs place }
    {
        self.frame.projects()[place as usize].cost()
    }

    /// Counts the election so changed, by options that are in their ranges, and changes it back.
    pub(crate) fn row<T: Threads + Sync, G: Gate>(
        &mut self,
        recount: &Recount<T, G>,
        change: Change,
        value: u64,
    ) -> Result<Row, NoMemory>
        requires known { recount.now.question.place < length self.old.costs }
        requires can_be { CanBe self.old change value }
        requires in_range { refusal_of recount.now.question.rule.options ≡ None }
        ensures is_true { IfOk result (IsTrue self.old recount.now.question change) }
        ensures value { IfOk result (λ row. row.value ≡ value) }
        ensures kept { IfOk result (λ _. self.new ≡ self.old) }
    {
        let (alloc, place) = (recount.alloc, recount.question.place);
        let own = self.voters.len();
        let mut changed = self.lend(alloc, change, place, value)?;
        match verdict_of(recount, &mut changed) {
            Ok(verdict) => {
                self.take_back(alloc, changed, own);
                Ok(Row { value, verdict })
            }
            Err(CountFault::NoMemory) => {
                drop(changed);
                Err(NoMemory)
            }
            // The options are in their ranges, so nothing but want of memory leaves no verdict.
            Err(_) => unreachable!(),
        }
    }

    /// The election so changed, to which it lends its voters.
    pub(crate) fn lend(
        &mut self,
        alloc: Global,
        change: Change,
        place: u32,
        value: u64,
    ) -> Result<Election, NoMemory>
        requires known { place < length self.old.costs }
        requires can_be { CanBe self.old change value }
        ensures lent { IfOk result (IsLent self.old change place value) }
        ensures left { OnOk result (self.new ≡ record self.old { ballots = [] }) }
    {
        let projects = self.frame.projects().len();
        let mut changed = changed_frame(alloc, &self.frame, change, place, value)?;
        let mut voters = mem::replace(&mut self.voters, Vec::new(alloc));
        add_further(
            alloc,
            &mut voters,
            place,
            further_of(change, value),
            projects,
        )?;
        drop(changed.replace_voters(voters));
        Ok(changed)
    }

    /// Takes so many voters back from a changed election, and lets go of its further ones.
    fn take_back(&mut self, alloc: Global, changed: Election, own: usize)
        requires { AreNumbered (length self.old.costs) (take own changed.voters) }
        ensures { self.new ≡ record self.old { ballots = map (λ v. v.ballot) (take own changed.voters) } }
    {
        let mut changed = changed;
        let mut voters = changed.replace_voters(Vec::new(alloc));
        drop(changed);
        voters.truncate(own);
        drop(mem::replace(&mut self.voters, voters));
    }
}

/// How many further voters a change has.
fn further_of(change: Change, value: u64) -> usize
    ensures { result ≡ further_of change value }
{
    match change {
        Change::Cost => 0,
        Change::Voters => value as usize,
    }
}
