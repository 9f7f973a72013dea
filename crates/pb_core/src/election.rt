//! An election: its terms, its projects, and its voters with their ballots.

ghost use Rattle.std.specs.Prelude.{◌≡◌, ◌≢◌, ◌<◌, ◌≤◌, ◌↔◌, ◌++◌, ◌∷◌, [], length, map, All, IsTrue};
ghost use Rattle.std.specs.Prelude.{Contains};
ghost use Rattle.std.specs.Prelude.{IfOk, OnOk, OnErr, None, filter_map, slice_get};
ghost use Rattle.pb_core.specs.Money.{largest_money};
ghost use Rattle.pb_core.specs.Inner.Order.{voter_in};

use crate::ballot::Ballot;
use crate::money::Money;
use crate::no_memory::NoMemory;
use crate::order::ProjectOrder;
use crate::project::Project;
use crate::terms::Terms;
use crate::voter::Voter;
use crate::voter_id::VoterId;
use std::alloc::{Allocator, Global};
use std::marker::Model;
use std::mem;

/// The most projects that an election has.
pub const MOST_PROJECTS: usize = 10_000;

/// The most voters that an election has.
pub const MOST_VOTERS: usize = 1_000_000;

/// The terms, the projects in file order, and the voters in file order with their ballots. Where the terms
/// limit how many projects a ballot may approve, the desk keeps to it at clerks' requests; the ballots here
/// may be longer.
#[derive(Drop)]
pub struct Election<A: Allocator = Global> {
    terms: Terms,
    projects: Vec<Project<A>, A>,
    voters: Vec<Voter<A>, A>,
}

impl<A: Allocator> Model for Election<A> {
    ghost use Rattle.pb_core.specs.Election.{ElectionView, IsElection};

    ghost Value = { ElectionView };

    ghost view = { λ e. record {
      budget = e.terms.budget;
      max_length = e.terms.max_length;
      projects = e.projects.items;
      voters = e.voters.items;
    } };

    ghost invariant = { λ e. IsElection (record {
      budget = e.terms.budget;
      max_length = e.terms.max_length;
      projects = e.projects.items;
      voters = e.voters.items;
    }) };
}

impl<A: Allocator> Election<A> {
    ghost use Rattle.std.specs.List.{AllPairs};
    ghost use Rattle.pb_core.specs.Election.{IsElection, IsVoter, project_ids, voter_ids};
    ghost use Rattle.pb_core.specs.Election.{most_projects, most_voters};
    ghost use Rattle.pb_core.specs.Order.{in_order};

    /// An election with this budget, without a limit, and with neither projects nor voters yet.
    pub fn start(alloc: A, budget: Money) -> Election<A>
    where
        A: Copy,
        requires { budget ≤ largest_money }
        ensures { result ≡ record { budget = budget; max_length = None; projects = []; voters = [] } }
    {
        Election::start_with(alloc, Terms::of_budget(budget))
    }

    /// An election of these terms, with neither projects nor voters yet.
    pub fn start_with(alloc: A, terms: Terms) -> Election<A>
    where
        A: Copy,
        requires { terms.budget ≤ largest_money }
        ensures { result
            ≡ record { budget = terms.budget; max_length = terms.max_length; projects = []; voters = [] } }
    {
        Election {
            terms,
            projects: Vec::new(alloc),
            voters: Vec::new(alloc),
        }
    }

    /// The terms: what META sets for the desk and the count.
    pub fn terms(&self) -> Terms
        ensures terms { result ≡ record { budget = self.now.budget; max_length = self.now.max_length } }
        ensures is_election { IsElection self.now }
    {
        self.terms
    }

    /// The budget, in hundredths.
    pub fn budget(&self) -> Money
        ensures budget { result ≡ self.now.budget }
        ensures is_election { IsElection self.now }
    {
        self.terms.budget
    }

    /// The most projects that a ballot may approve where a clerk asks for it; none where there is no limit.
    pub fn max_length(&self) -> Option<u32>
        ensures { result ≡ self.now.max_length }
    {
        self.terms.max_length
    }

    /// Sets the limit on how many projects a ballot may approve, or takes it away. All else stays as it
    /// is, longer ballots too.
    pub fn set_max_length(&mut self, max_length: Option<u32>)
        ensures { self.new ≡ record self.old { max_length = max_length } }
    {
        self.terms.max_length = max_length;
    }

    /// The projects, in file order: a project's place is its index here, from 0.
    pub fn projects(&self) -> &[Project<A>]
        ensures projects { result.now ≡ self.now.projects }
        ensures is_election { IsElection self.now }
    {
        self.projects.as_slice()
    }

    /// The voters, in file order.
    pub fn voters(&self) -> &[Voter<A>]
        ensures voters { result.now ≡ self.now.voters }
        ensures is_election { IsElection self.now }
    {
        self.voters.as_slice()
    }

    /// Whether a project has this id. It looks through all of them.
    pub fn has_project(&self, id: &str) -> bool
        ensures { IsTrue result ↔ Contains (project_ids self.now) id.now }
    {
        for project in self.projects.iter() {
            if project.id() == id {
                return true;
            }
        }
        false
    }

    /// Whether a voter has this id. It looks through all of them.
    pub fn has_voter(&self, id: &VoterId<A>) -> bool
        ensures { IsTrue result ↔ Contains (voter_ids self.now) id.now }
    {
        for voter in self.voters.iter() {
            if voter.id.text() == id.text() {
                return true;
            }
        }
        false
    }

    /// Adds a project after the others. Where memory is refused the project is given up.
    pub fn add_project(&mut self, project: Project<A>) -> Result<(), NoMemory>
        requires no_voter_yet { self.old.voters ≡ [] }
        requires room { length self.old.projects < most_projects }
        requires new_id { ¬ Contains (project_ids self.old) project.id }
        ensures ok { OnOk result (self.new
            ≡ record self.old { projects = self.old.projects ++ project ∷ [] }) }
        ensures err { OnErr result (self.new ≡ self.old) }
    {
        let _checked = project.cost();
        self.projects.push(project)?;
        Ok(())
    }

    /// Adds a voter after the others. Where memory is refused the voter is given up.
    pub fn add_voter(&mut self, voter: Voter<A>) -> Result<(), NoMemory>
        requires room { length self.old.voters < most_voters }
        requires new_id { ¬ Contains (voter_ids self.old) voter.id }
        requires known { All (λ place. place < length self.old.projects) voter.ballot }
        ensures ok { OnOk result (self.new
            ≡ record self.old { voters = self.old.voters ++ voter ∷ [] }) }
        ensures err { OnErr result (self.new ≡ self.old) }
    {
        let _checked = (voter.id.text().len(), voter.ballot.places().len());
        self.voters.push(voter)?;
        Ok(())
    }

    /// Puts these voters in the place of its own, which it hands out. It needs no memory.
    pub fn replace_voters(&mut self, voters: Vec<Voter<A>, A>) -> Vec<Voter<A>, A>
        requires few { length voters.items ≤ most_voters }
        requires are_voters { All (IsVoter (length self.old.projects)) voters.items }
        requires differ { AllPairs (λ a b. a ≢ b) (map (λ v. v.id) voters.items) }
        ensures handed_out { result.items ≡ self.old.voters }
        ensures replaced { self.new ≡ record self.old { voters = voters.items } }
    {
        mem::replace(&mut self.voters, voters)
    }

    /// Puts its projects in this order; each ballot approves the same projects. Where memory is refused all
    /// stays as it is.
    pub fn put_in_order(&mut self, alloc: A, order: &ProjectOrder<A>) -> Result<(), NoMemory>
    where
        A: Copy,
        requires { length order.now ≡ length self.old.projects }
        ensures ok { OnOk result (self.new ≡ in_order order.now self.old) }
        ensures err { OnErr result (self.new ≡ self.old) }
    {
        let projects = copied(alloc, self.projects.as_slice(), order.places())?;
        put_ballots_in_order(&mut self.voters, order);
        drop(mem::replace(&mut self.projects, projects));
        Ok(())
    }
}

/// The projects at these places, in memory of their own.
fn copied<A: Allocator>(
    alloc: A,
    projects: &[Project<A>],
    places: &[u32],
) -> Result<Vec<Project<A>, A>, NoMemory>
where
    A: Copy,
    requires { All (λ place. place < length projects.now) places.now }
    ensures { IfOk result (λ copies. copies.items ≡ filter_map (slice_get projects.now) places.now) }
{
    let mut copies = Vec::with_capacity(alloc, places.len())?;
    for place in places {
        let project = projects[*place as usize].copy(alloc)?;
        copies.push(project)?;
    }
    Ok(copies)
}

/// Lets each ballot approve the same projects by their positions in this order.
fn put_ballots_in_order<A: Allocator>(voters: &mut Vec<Voter<A>, A>, order: &ProjectOrder<A>)
    requires { All (λ v. All (λ place. place < length order.now) v.ballot) voters.old.items }
    ensures { voters.new.items ≡ map (voter_in order.now) voters.old.items }
{
    for i in 0..voters.len() {
        let voter = &mut voters[i];
        voter.put_in_order(order);
    }
}
