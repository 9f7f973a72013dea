//! An election, and what its count by a rule comes to.

ghost use Rattle.std.specs.Prelude.{◌≡◌, ◌<◌, All, IfOk, length, map, slice_index};
ghost use Rattle.std.specs.List.{range_with_len};
ghost use Rattle.pb_core.specs.Order.{in_order, position_in};
ghost use Rattle.pb_price.specs.Grain.{in_parts};
ghost use Rattle.pb_price.specs.Supporters.{support_in};
ghost use Rattle.pb_reasons.specs.Counted.{counted, winners_of};
ghost use Rattle.pb_reasons.specs.CountedElection.{IsCountedElection};
ghost use Rattle.pb_reasons.specs.Inner.Kept.{IsKept};
ghost use Rattle.pb_reasons.specs.Reasons.{project_reason};
ghost use Rattle.pb_reasons.specs.Totals.{totals_of};
ghost use Rattle.pb_rounds.specs.Counted.{IsCountOf};
ghost use Rattle.pb_rounds.specs.MostVotes.{is_taken};

use crate::counted::Counted;
use crate::kept::Kept;
use crate::project_reason::ProjectReason;
use crate::totals::Totals;
use pb_core::election::Election;
use pb_core::no_memory::NoMemory;
use pb_core::order::ProjectOrder;
use pb_price::supporters::Supporters;
use pb_rounds::outcome::Outcome;
use pb_rounds::rule::Rule;
use std::alloc::Global;
use std::marker::Model;

/// An election, and what its count by a rule comes to: the outcome, what is added to that, the winners, what
/// they come to together, the supporters of each project and what these paid, each made once.
#[derive(Drop)]
pub struct CountedElection {
    /// Its projects stand in the order in which ties take them.
    election: Election,
    order: ProjectOrder,
    rule: Rule,
    counted: Counted,
    totals: Totals,
    kept: Kept,
}

impl Model for CountedElection {
    ghost use Rattle.std.specs.Prelude.{◌≡◌};
    ghost use Rattle.pb_reasons.specs.CountedElection.{CountedElectionView, IsCountedElection};
    ghost use Rattle.pb_reasons.specs.Inner.Kept.{IsKept};
    ghost use Rattle.pb_reasons.specs.Totals.{totals_of};

    ghost Value = { CountedElectionView };

    ghost view = { λ c. record {
      election = c.election;
      order = c.order;
      rule = c.rule;
      counted = c.counted;
    } };

    ghost invariant = { λ c. IsCountedElection (record {
      election = c.election;
      order = c.order;
      rule = c.rule;
      counted = c.counted;
    }) × IsKept c.rule.options.grain c.election c.counted c.kept
        × (c.totals ≡ totals_of c.rule.options.grain c.election c.counted) };
}

impl CountedElection {
    /// What the count of this election by the rule comes to whose outcome this is. Its projects stand in this
    /// order of their places in the file.
    pub fn of(
        alloc: Global,
        election: Election,
        order: ProjectOrder,
        rule: Rule,
        outcome: Outcome,
    ) -> Result<CountedElection, NoMemory>
        requires outcome { IsCountOf election rule.options outcome }
        requires one_each { length order ≡ length election.projects }
        ensures { IfOk result (λ c. c ≡ record {
          election = election;
          order = order;
          rule = rule;
          counted = counted election rule.fill_up outcome;
        }) }
    {
        // What is true of every election bounds the sums of its outcome, and every order has each place.
        let _budget = election.budget();
        let _places = order.places();
        let counted = Counted::of(alloc, &election, outcome, rule.fill_up)?;
        let grain = rule.options.grain;
        let totals = Totals::of(&election, &counted, grain);
        let kept = Kept::of(alloc, &election, &counted, grain)?;
        Ok(CountedElection {
            election,
            order,
            rule,
            counted,
            totals,
            kept,
        })
    }

    /// The election.
    pub fn election(&self) -> &Election
        ensures election { result.now ≡ self.now.election }
        ensures is_counted { IsCountedElection self.now }
    {
        &self.election
    }

    /// The place in the file, from 0, of the project at this place of the election.
    pub fn place(&self, position: u32) -> u32
        requires { position < length self.now.election.projects }
        ensures place { result ≡ slice_index self.now.order position }
        ensures known { result < length self.now.election.projects }
    {
        self.order.places()[position as usize]
    }

    /// The place in the election, from 0, of the project at this place of the file.
    pub fn position(&self, place: u32) -> u32
        requires { place < length self.now.election.projects }
        ensures position { result ≡ position_in self.now.order place }
        ensures known { result < length self.now.election.projects }
    {
        self.order.position(place)
    }

    /// For each place of the election, the place of its project in the file.
    pub fn order(&self) -> &ProjectOrder
        ensures { result.now ≡ self.now.order }
    {
        &self.order
    }

    /// The rule by which it is counted.
    pub fn rule(&self) -> Rule
        ensures { result ≡ self.now.rule }
    {
        self.rule
    }

    /// How many parts a hundredth has, in which shares, prices, payments and rests are counted.
    pub fn parts(&self) -> u64
        ensures { result ≡ in_parts self.now.rule.options.grain (length self.now.election.voters) 1 }
    {
        let voters = self.election.voters().len() as u32;
        self.rule.options.grain.parts(voters)
    }

    /// The outcome of the count.
    pub fn outcome(&self) -> &Outcome
        ensures outcome { result.now ≡ self.now.counted.outcome }
        ensures is_counted { IsCountedElection self.now }
    {
        &self.counted.outcome
    }

    /// The projects that are added, by place, in the order in which they are added.
    pub fn added(&self) -> &[u32]
        ensures { result.now ≡ self.now.counted.added }
    {
        self.counted.added()
    }

    /// The places of the elected, in order of election, and then of the added in theirs.
    pub fn winners(&self) -> &[u32]
        ensures { result.now ≡ winners_of self.now.counted }
    {
        self.kept.winners()
    }

    /// Whether the project at this place is elected or added.
    pub fn has_won(&self, place: u32) -> bool
        requires { place < length self.now.election.projects }
        ensures { result ≡ is_taken (winners_of self.now.counted) place }
    {
        self.kept.has_won(place)
    }

    /// The winners by their places in the file, in the same order.
    pub fn winners_in_file(&self, alloc: Global) -> Result<Vec<u32>, NoMemory>
        ensures { IfOk result (λ places. places.items
            ≡ map (slice_index self.now.order) (winners_of self.now.counted)) }
    {
        places_at(alloc, self.order.places(), self.kept.winners())
    }

    /// The election, with its projects in the order in which ties take them.
    pub(crate) fn into_election(self) -> Election
        ensures { result ≡ self.election }
    {
        let CountedElection { election, .. } = self;
        election
    }

    /// The election as it stands in the file.
    pub fn into_file(self, alloc: Global) -> Result<Election, NoMemory>
        ensures { IfOk result (λ election. election
            ≡ in_order (map (position_in self.order) (range_with_len 0 (length self.order))) self.election) }
    {
        let CountedElection {
            election,
            order,
            ..
        } = self;
        let mut election = election;
        let back = order.back(alloc)?;
        election.put_in_order(alloc, &back)?;
        Ok(election)
    }

    /// What the winners come to together.
    pub fn totals(&self) -> Totals
        ensures { result ≡ totals_of self.now.rule.options.grain self.now.election self.now.counted }
    {
        self.totals
    }

    /// The supporters of each project.
    pub fn supporters(&self) -> &Supporters
        ensures { result.now ≡ support_in self.now.rule.options.grain self.now.election }
    {
        self.kept.supporters()
    }

    /// What is kept of the count.
    pub(crate) fn kept(&self) -> &Kept
        ensures kept { IsKept self.now.rule.options.grain self.now.election self.now.counted result.now }
        ensures is_counted { IsCountedElection self.now }
    {
        &self.kept
    }

    /// Why the project at this place is elected or added, or is neither.
    pub fn project(&self, place: u32) -> ProjectReason
        requires { place < length self.now.election.projects }
        ensures { result ≡ project_reason self.now.rule.options.grain self.now.election self.now.counted place }
    {
        self.kept.project(&self.election, &self.counted, place)
    }
}

/// What stands at these positions of an order.
fn places_at(alloc: Global, order: &[u32], positions: &[u32]) -> Result<Vec<u32>, NoMemory>
    requires { All (λ position. position < length order.now) positions.now }
    ensures { IfOk result (λ places. places.items ≡ map (slice_index order.now) positions.now) }
{
    let mut places = Vec::with_capacity(alloc, positions.len())?;
    for position in positions {
        places.push(order[*position as usize])?;
    }
    Ok(places)
}
