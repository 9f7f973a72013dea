//! The election as far as its rows were read.

ghost use Rattle.std.specs.Prelude.{◌≡◌, ◌≢◌, ◌≤◌, [], ◌∷◌, ◌++◌, IfErr, IfOk, OnOk, None};
ghost use Rattle.pb_core.specs.Election.{project_ids, voter_ids};
ghost use Rattle.pb_core.specs.Inner.Terms.{opening};
ghost use Rattle.pb_core.specs.Money.{largest_money};
ghost use Rattle.pb_read.specs.Inner.Drafts.{HasVoter, IsAsBefore, IsTied};
ghost use Rattle.pb_read.specs.Inner.Ids.{Finds};
ghost use Rattle.pb_read.specs.Inner.Machine.{Explains, project_row_checks, vote_row_checks, with_project};
ghost use Rattle.pb_read.specs.Inner.Machine.{with_voter};
ghost use Rattle.pb_read.specs.Rows.{field};
ghost use Rattle.pb_read.specs.Voting.{ballot_of};

use crate::columns::{ProjectColumns, VoteColumns};
use crate::fault::ReadKind;
use crate::row::Row;
use crate::vote::find_places;
use pb_core::ballot::Ballot;
use pb_core::election::{Election, MOST_PROJECTS, MOST_VOTERS};
use pb_core::money::Money;
use pb_core::project::Project;
use pb_core::terms::Terms;
use pb_core::voter::Voter;
use pb_core::voter_id::VoterId;
use pb_ids::IdTable;
use std::alloc::Global;
use std::mem;

/// An election as far as its rows were read, with its ids.
#[derive(Drop)]
pub(crate) struct Draft {
    pub(crate) election: Election,
    pub(crate) project_ids: IdTable,
    pub(crate) voter_ids: IdTable,
    /// The places that the vote in work names; used again for each row.
    pub(crate) places: Vec<u32>,
    pub(crate) alloc: Global,
}

impl Draft {
    /// An election of these terms, without projects and voters yet.
    pub(crate) fn new(alloc: Global, terms: Terms) -> Draft
        requires { terms.budget ≤ largest_money }
        ensures election { result.election ≡ opening terms }
        ensures tied { IsTied result }
    {
        Draft {
            election: Election::start_with(alloc, terms),
            project_ids: IdTable::new(alloc),
            voter_ids: IdTable::new(alloc),
            places: Vec::new(alloc),
            alloc,
        }
    }

    /// Hands out the election, and keeps an empty one.
    pub(crate) fn take_election(&mut self) -> Election
        ensures { result ≡ self.old.election }
    {
        let empty = Election::start(self.alloc, Money(0));
        mem::replace(&mut self.election, empty)
    }

    /// Adds the project of a row of PROJECTS, or answers why it gives none.
    pub(crate) fn add_project(&mut self, columns: ProjectColumns, row: &Row) -> Result<(), ReadKind>
        requires tied { IsTied self.old }
        requires no_voter { self.old.election.voters ≡ [] }
        ensures ok { OnOk result ((project_row_checks columns row.now self.old.election ≡ None)
            × (self.new.election ≡ with_project columns row.now self.old.election) × IsTied self.new) }
        ensures err { IfErr result (λ kind.
            Explains kind (project_row_checks columns row.now self.old.election)) }
        ensures stays { IfErr result (λ kind. kind ≢ ReadKind.NoMemory → IsAsBefore self.old self.new) }
    {
        let (id, cost) = match columns.id_and_cost(row) {
            Ok(found) => found,
            Err(kind) => return Err(kind),
        };
        let place = self.election.projects().len();
        let before = self.project_ids.get(id);
        if before.is_some() {
            return Err(ReadKind::RepeatedProject);
        }
        if place >= MOST_PROJECTS {
            return Err(ReadKind::TooManyProjects);
        }
        self.project_ids.insert(self.alloc, id, place as u32)?;
        let name = String::from_str(self.alloc, columns.name(row))?;
        let id = String::from_str(self.alloc, id)?;
        self.election.add_project(Project::new(id, name, cost))?;
        Ok(())
    }

    /// Adds the voter of a row of VOTES, or answers why it gives none.
    pub(crate) fn add_voter(&mut self, columns: VoteColumns, row: &Row) -> Result<(), ReadKind>
        requires { IsTied self.old }
        ensures ok { OnOk result ((vote_row_checks columns row.now self.old.election ≡ None)
            × (self.new.election ≡ with_voter columns row.now self.old.election) × IsTied self.new) }
        ensures err { IfErr result (λ kind.
            Explains kind (vote_row_checks columns row.now self.old.election)) }
        ensures stays { IfErr result (λ kind. kind ≢ ReadKind.NoMemory → IsAsBefore self.old self.new) }
    {
        let id = match columns.voter_id(self.alloc, row) {
            Ok(id) => id,
            Err(kind) => return Err(kind),
        };
        match self.note_voter(columns, row, &id) {
            Ok(ballot) => {
                self.election.add_voter(Voter { id, ballot })?;
                Ok(())
            }
            Err(kind) => Err(kind),
        }
    }

    /// Notes the id of a row of VOTES as that of the next voter, and answers the row's ballot, or why it
    /// gives none.
    fn note_voter(
        &mut self,
        columns: VoteColumns,
        row: &Row,
        id: &VoterId,
    ) -> Result<Ballot, ReadKind>
        requires tied { IsTied self.old }
        requires id { HasVoter columns row.now id.now }
        ensures ok { IfOk result (λ ballot. (vote_row_checks columns row.now self.old.election ≡ None)
            × (ballot ≡ ballot_of (project_ids self.old.election) (field row.now columns.vote))) }
        ensures noted { OnOk result (Finds self.new.voter_ids
            (voter_ids self.old.election ++ id.now ∷ [])) }
        ensures kept { (self.new.election ≡ self.old.election)
            × (self.new.project_ids ≡ self.old.project_ids) }
        ensures err { IfErr result (λ kind.
            Explains kind (vote_row_checks columns row.now self.old.election)) }
        ensures stays { IfErr result (λ kind. kind ≢ ReadKind.NoMemory → IsAsBefore self.old self.new) }
    {
        let place = self.election.voters().len();
        let before = self.voter_ids.get(id.text());
        if before.is_some() {
            return Err(ReadKind::RepeatedVoter);
        }
        let vote = row.field(columns.vote);
        if !find_places(&self.project_ids, vote, &mut self.places)? {
            return Err(ReadKind::UnknownProject);
        }
        if place >= MOST_VOTERS {
            return Err(ReadKind::TooManyVoters);
        }
        self.voter_ids.insert(self.alloc, id.text(), place as u32)?;
        let ballot = Ballot::of(self.alloc, &self.places)?;
        // The clause of `places` tells the proof that the ballot rises.
        let _places = ballot.places();
        Ok(ballot)
    }
}
