//! The supporters of each project.

ghost use Rattle.std.specs.Prelude.{◌≡◌, ◌<◌, ◌^◌, All, length, map, replicate, [], IfOk};
ghost use Rattle.pb_price.specs.Grain.{in_parts};
ghost use Rattle.pb_price.specs.Supporters.{support_in, support_of};
ghost use Rattle.pb_price.specs.declared.grain.Grain.TheVariants.{Hundredths};

use crate::grain::Grain;
use crate::voter_list::{VoterList, add_ballot};
use pb_core::election::Election;
use pb_core::money::Money;
use pb_core::no_memory::NoMemory;
use std::alloc::{Allocator, Global};
use std::marker::Model;

/// The supporters of each project of an election, and what each project costs: all that prices need.
/// It takes about 4 bytes for each approval on a ballot.
#[derive(Drop)]
pub struct Supporters<A: Allocator = Global> {
    grain: Grain,
    voters: u32,
    costs: Vec<Money, A>,
    lists: Vec<VoterList<A>, A>,
}

impl<A: Allocator> Model for Supporters<A> {
    ghost use Rattle.pb_price.specs.Inner.Support.{HasSupportForm};
    ghost use Rattle.pb_price.specs.Supporters.{SupportView, IsSupport};

    ghost Value = { SupportView };

    ghost view = { λ s. record { grain = s.grain; voters = s.voters; costs = s.costs.items; supporters = s.lists.items } };

    ghost invariant = { λ s. IsSupport
        (record { grain = s.grain; voters = s.voters; costs = s.costs.items; supporters = s.lists.items })
        × HasSupportForm
        (record { grain = s.grain; voters = s.voters; costs = s.costs.items; supporters = s.lists.items }) };
}

impl<A: Allocator> Supporters<A> {
    ghost use Rattle.pb_price.specs.Supporters.{IsSupport, supporters_at, cost_at, cost_in_parts};

    /// The supporters of each project of this election, for a count in hundredths: the voters whose ballot
    /// approves it.
    pub fn build<B: Allocator>(alloc: A, election: &Election<B>) -> Result<Supporters<A>, NoMemory>
    where
        A: Copy,
        ensures { IfOk result (λ supporters. supporters ≡ support_of election.now) }
    {
        // What is true of every election holds of its costs.
        let _projects = election.projects();
        Supporters::build_in(alloc, election, Grain::Hundredths)
    }

    /// The supporters of each project of this election, for a count so fine.
    pub fn build_in<B: Allocator>(
        alloc: A,
        election: &Election<B>,
        grain: Grain,
    ) -> Result<Supporters<A>, NoMemory>
    where
        A: Copy,
        requires { All (λ p. in_parts grain (length election.now.voters) p.cost < 2 ^ 64) election.now.projects }
        ensures { IfOk result (λ supporters. supporters ≡ support_in grain election.now) }
    {
        let costs = costs_of(alloc, election)?;
        let lists = lists_of(alloc, election)?;
        let voters = election.voters().len() as u32;
        Ok(Supporters {
            grain,
            voters,
            costs,
            lists,
        })
    }

    /// The supporters of the project at this place: positions in the list of voters, from 0, rising.
    pub fn of(&self, place: u32) -> &[u32]
        requires { place < length self.now.costs }
        ensures supporters { result.now ≡ supporters_at self.now place }
        ensures is_support { IsSupport self.now }
    {
        let list = &self.lists[place as usize];
        list.voters()
    }

    /// What the project at this place costs, in hundredths: at least 1.
    pub fn cost(&self, place: u32) -> Money
        requires { place < length self.now.costs }
        ensures cost { result ≡ cost_at self.now place }
        ensures is_support { IsSupport self.now }
    {
        self.costs[place as usize]
    }

    /// What the project at this place costs, in the parts that are counted.
    pub fn cost_in_parts(&self, place: u32) -> Money
        requires { place < length self.now.costs }
        ensures cost { result ≡ cost_in_parts self.now place }
        ensures is_support { IsSupport self.now }
    {
        let cost = self.costs[place as usize];
        Money(self.grain.parts(self.voters) * cost.0)
    }

    /// How finely money is counted.
    pub fn grain(&self) -> Grain
        ensures grain { result ≡ self.now.grain }
        ensures is_support { IsSupport self.now }
    {
        self.grain
    }

    /// How many projects there are.
    pub fn projects(&self) -> u32
        ensures projects { result ≡ length self.now.costs }
        ensures is_support { IsSupport self.now }
    {
        self.costs.len() as u32
    }

    /// How many voters there are, with or without approvals.
    pub fn voters(&self) -> u32
        ensures voters { result ≡ self.now.voters }
        ensures is_support { IsSupport self.now }
    {
        self.voters
    }
}

/// What each project costs, in file order.
fn costs_of<A: Allocator, B: Allocator>(
    alloc: A,
    election: &Election<B>,
) -> Result<Vec<Money, A>, NoMemory>
    ensures { IfOk result (λ costs. costs.items ≡ map (λ project. project.cost) election.now.projects) }
{
    let costs = election
        .projects()
        .iter()
        .map(|project| project.cost())
        .collect(alloc)?;
    Ok(costs)
}

/// Counts the ballot at each project that it approves.
fn count_ballot<A: Allocator>(counts: &mut Vec<u32, A>, ballot: &[u32])
    requires known { All (λ place. place < length counts.old.items) ballot.now }
    ensures { length counts.new.items ≡ length counts.old.items }
{
    for place in ballot {
        let count = &mut counts[*place as usize];
        *count = count.saturating_add(1);
    }
}

/// How many supporters each project has. Only the room for the lists depends on it.
fn supporter_counts<A: Allocator, B: Allocator>(
    alloc: A,
    election: &Election<B>,
) -> Result<Vec<u32, A>, NoMemory>
    ensures { IfOk result (λ counts. length counts.items ≡ length election.now.projects) }
{
    let mut counts = vec![in alloc; 0u32; election.projects().len()]?;
    for voter in election.voters() {
        count_ballot(&mut counts, voter.ballot.places());
    }
    Ok(counts)
}

/// An empty list for each project, with room for this many supporters.
fn empty_lists<A: Allocator>(alloc: A, counts: &[u32]) -> Result<Vec<VoterList<A>, A>, NoMemory>
where
    A: Copy,
    ensures { IfOk result (λ lists. lists.items ≡ replicate (length counts.now) []) }
{
    let mut lists = Vec::with_capacity(alloc, counts.len())?;
    for count in counts {
        let list = VoterList::with_room(alloc, *count as usize)?;
        lists.push(list)?;
    }
    Ok(lists)
}

/// The supporters of each project, in file order: the voters one after the other, each to the projects of
/// their ballot.
fn lists_of<A: Allocator, B: Allocator>(
    alloc: A,
    election: &Election<B>,
) -> Result<Vec<VoterList<A>, A>, NoMemory>
where
    A: Copy,
    ensures { IfOk result (λ lists. lists.items ≡ (support_of election.now).supporters) }
{
    let counts = supporter_counts(alloc, election)?;
    let mut lists = empty_lists(alloc, counts.as_slice())?;
    for (position, voter) in election.voters().iter().enumerate() {
        add_ballot(&mut lists, position as u32, voter.ballot.places())?;
    }
    Ok(lists)
}
