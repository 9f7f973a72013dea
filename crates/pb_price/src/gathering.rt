//! How the workers' answers become the prices, after all workers have stopped.

ghost use Rattle.std.specs.Prelude.{◌≡◌, ◌+◌, ◌<◌, ◌≤◌, None, All, length, map, replicate, IfOk, OnOk};
ghost use Rattle.std.specs.Prelude.{sum_by};
ghost use Rattle.std.specs.Io.Iter.{u64_saturate};
ghost use Rattle.pb_core.specs.Election.{most_projects};
ghost use Rattle.pb_price.specs.Inner.Claims.{all_joined, joined};
ghost use Rattle.pb_price.specs.Price.{price_at};
ghost use Rattle.pb_price.specs.Inner.Working.{gathered, placed, IsBatch};

use crate::amount_each::Price;
use crate::answer::Answer;
use crate::claims::{Claim, Claims};
use crate::common_rest::common_rest;
use crate::pieces::Pieces;
use crate::steps::PriceSearch;
use crate::tally::Tally;
use crate::worker::Worker;
use pb_core::gate::Gate;
use pb_core::no_memory::NoMemory;
use std::alloc::Allocator;

/// The price of each piece, how many prices were computed, and by how many workers. It is made in this file
/// alone.
#[derive(Drop)]
pub(crate) struct Gathered<A: Allocator> {
    prices: Vec<Option<Price>, A>,
    priced: u64,
    workers: u32,
}

impl<A: Allocator> Gathered<A> {
    /// The prices by one worker, which is the caller.
    pub(crate) fn in_turn<B: Allocator, G: Gate>(
        alloc: A,
        pieces: &Pieces<G, B>,
    ) -> Result<Gathered<A>, NoMemory>
        requires batch { IsBatch pieces.now.supporters.now pieces.now.rests.now pieces.now.projects.now
            (length pieces.now.projects.now) }
        ensures prices { IfOk result (λ g. g.prices.items
            ≡ map (price_at pieces.now.supporters.now pieces.now.rests.now) pieces.now.projects.now) }
        ensures priced { IfOk result (λ g. g.priced ≡ length pieces.now.projects.now) }
        ensures workers { IfOk result (λ g. g.workers ≡ 1) }
    {
        let common = common_rest(pieces.supporters, pieces.rests, pieces.projects.len());
        let mut prices = Vec::with_capacity(alloc, pieces.projects.len())?;
        for (piece, place) in pieces.projects.iter().enumerate() {
            pieces.gate.at(0, piece as u32);
            let sought = PriceSearch {
                supporters: pieces.supporters,
                rests: pieces.rests,
                place: *place,
            };
            prices.push(sought.price_by(&common))?;
        }
        Ok(Gathered {
            prices,
            priced: pieces.projects.len() as u64,
            workers: 1,
        })
    }

    /// The prices. The tally grows by how many were computed, and by the workers.
    pub(crate) fn into_prices(self, tally: &mut Tally) -> Vec<Option<Price>, A>
        ensures prices { result.items ≡ self.prices.items }
        ensures counted { tally.new ≡ record {
          prices = u64_saturate (tally.old.prices + self.priced);
          workers = u64_saturate (tally.old.workers + self.workers);
        } }
    {
        let Gathered {
            prices,
            priced,
            workers,
        } = self;
        tally.add(priced, workers);
        prices
    }
}

/// Reads the prices of this many pieces off what these workers answered, and joins their claims to `stock`.
pub(crate) fn gather<A: Allocator>(
    alloc: A,
    claims: &Claims<A>,
    stock: &mut Claim,
    pieces: usize,
    mut done: Vec<Worker<A>, A>,
) -> Result<Gathered<A>, NoMemory>
    requires stock { stock.old.seat.table_id ≡ claims.now.table.shared.table_id }
    requires same { All (λ w. w.claim.seat.table_id ≡ claims.now.table.shared.table_id) done.items }
    requires known { All (λ w. All (λ answer. answer.piece < pieces) w.answers.items) done.items }
    requires few { All (λ w. length w.answers.items ≤ most_projects) done.items }
    requires workers { length done.items ≤ 64 }
    ensures same { stock.new.seat.table_id ≡ claims.now.table.shared.table_id }
    ensures joined { OnOk result (stock.new.seat.me.0
        ≡ all_joined (λ w. w.claim.seat.me.0) stock.old.seat.me.0 done.items) }
    ensures prices { IfOk result (λ g.
        g.prices.items ≡ gathered (λ w. w.answers.items) (replicate pieces None) done.items) }
    ensures priced { IfOk result (λ g. g.priced ≡ sum_by (λ w. length w.answers.items) done.items) }
    ensures workers { IfOk result (λ g. g.workers ≡ length done.items) }
{
    let mut prices = vec![in alloc; None; pieces]?;
    let mut priced = 0;
    let mut workers = 0;
    while let Some(worker) = done.pop() {
        priced += take_in(claims, stock, &mut prices, worker);
        workers += 1;
    }
    Ok(Gathered {
        prices,
        priced,
        workers,
    })
}

/// Joins the claim of a worker that is done, puts its answers in the places of their pieces, and says how
/// many they are.
fn take_in<A: Allocator>(
    claims: &Claims<A>,
    stock: &mut Claim,
    prices: &mut Vec<Option<Price>, A>,
    worker: Worker<A>,
) -> u64
    requires stock { stock.old.seat.table_id ≡ claims.now.table.shared.table_id }
    requires worker { worker.claim.seat.table_id ≡ claims.now.table.shared.table_id }
    requires known { All (λ answer. answer.piece < length prices.old.items) worker.answers.items }
    ensures stock { stock.new.seat.table_id ≡ claims.now.table.shared.table_id }
    ensures joined { stock.new.seat.me.0 ≡ joined stock.old.seat.me.0 worker.claim.seat.me.0 }
    ensures prices { prices.new.items ≡ placed prices.old.items worker.answers.items }
    ensures priced { result ≡ length worker.answers.items }
{
    let Worker {
        number: _,
        claim,
        answers,
    } = worker;
    place(prices, answers.as_slice());
    claims.join(stock, claim);
    answers.len() as u64
}

/// Puts each answer in the place of its piece.
fn place<A: Allocator>(prices: &mut Vec<Option<Price>, A>, answers: &[Answer])
    requires known { All (λ answer. answer.piece < length prices.old.items) answers.now }
    ensures { prices.new.items ≡ placed prices.old.items answers.now }
{
    for answer in answers {
        prices[answer.piece as usize] = answer.price;
    }
}
