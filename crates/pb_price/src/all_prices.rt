//! The prices of a list of projects, by several workers.

ghost use Rattle.std.specs.Prelude.{◌≡◌, ◌+◌, ◌<◌, ◌≤◌, [], All, length, map, max, min, true, Err, IfOk};
ghost use Rattle.std.specs.Prelude.{OnOk, OnErr, MatchBool, IsOkUnless, List, ℕ};
ghost use Rattle.std.specs.List.{AllZip};
ghost use Rattle.std.specs.Io.Iter.{u64_saturate};
ghost use Rattle.pb_core.specs.Election.{most_projects};
ghost use Rattle.pb_price.specs.Inner.Claims.{drawn};
ghost use Rattle.pb_price.specs.Price.{price_at, AreRests, IsPrice};
ghost use Rattle.pb_price.specs.PriceFault.{is_worker_count};
ghost use Rattle.pb_price.specs.Supporters.{SupportView};
ghost use Rattle.pb_price.specs.Inner.Working.{AreGathered, IsBatch, IsDone};

use crate::amount_each::Price;
use crate::claims::rule::Batch;
use crate::claims::{Claim, Claims};
use crate::gathering::{Gathered, gather};
use crate::pieces::Pieces;
use crate::price_fault::PriceFault;
use crate::supporters::Supporters;
use crate::tally::Tally;
use crate::worker::{Worker, staff};
use pb_core::gate::Gate;
use pb_core::money::Money;
use pb_core::no_memory::NoMemory;
use std::alloc::Allocator;
use std::thread::{self, Threads};

/// Whether this many workers may be asked for: 1 to 64.
pub fn is_worker_count(workers: u32) -> bool
    ensures { result ≡ is_worker_count workers }
{
    (1..=64).contains(&workers)
}

/// The prices of these projects, in the order of the list: answer i is the price of `projects[i]`, as `price`
/// gives it, for every number of workers. The list has at most 10,000 places, which may repeat, or none.
///
/// Pricing the i-th project of the list is piece i. As many workers as were asked for, but at most one for
/// each piece, draw the pieces one by one and price them side by side, and each calls `gate` with its own
/// number and the piece's before it prices the piece. Where it is one worker, that is the caller.
///
/// The answer is WorkerCount where the number of workers is not 1 to 64, and NoMemory where an allocation was
/// refused. Otherwise the tally grows by the number of pieces, and of workers who priced them; a refusal
/// leaves it.
pub fn price_all<
    R: Threads + Sync,
    A: Allocator + Copy + Send + Sync,
    B: Allocator + Sync,
    G: Gate,
>(
    rt: &R,
    alloc: A,
    workers: u32,
    gate: &G,
    projects: &[u32],
    supporters: &Supporters<B>,
    rests: &[Money],
    tally: &mut Tally,
) -> Result<Vec<Option<Price>, A>, PriceFault>
    requires rests { AreRests supporters.now.voters rests.now }
    requires known { All (λ place. place < length supporters.now.costs) projects.now }
    requires few { length projects.now ≤ most_projects }
    // which refusals come
    ensures workers { MatchBool (is_worker_count workers) (IsOkUnless result PriceFault.NoMemory)
        (result ≡ Err PriceFault.WorkerCount) }
    // what is answered
    ensures prices { IfOk result (λ answers. AllZip
        (IsPrice supporters.now rests.now) projects.now answers.items) }
    // what becomes of the tally
    ensures counted { OnOk result (tally.new ≡ record {
      prices = u64_saturate (tally.old.prices + length projects.now);
      workers = u64_saturate (tally.old.workers + max 1 (min workers (length projects.now)));
    }) }
    ensures refused { OnErr result (tally.new ≡ tally.old) }
{
    if !is_worker_count(workers) {
        return Err(PriceFault::WorkerCount);
    }
    let pieces = Pieces {
        gate,
        projects,
        supporters,
        rests,
    };
    let prices = price_pieces(rt, alloc, workers, &pieces, tally)?;
    Ok(prices)
}

/// The prices of the projects of these pieces, in their order.
/// Only memory can be refused.
pub fn price_pieces<
    R: Threads + Sync,
    A: Allocator + Copy + Send + Sync,
    B: Allocator + Sync,
    G: Gate,
>(
    rt: &R,
    alloc: A,
    workers: u32,
    pieces: &Pieces<G, B>,
    tally: &mut Tally,
) -> Result<Vec<Option<Price>, A>, NoMemory>
    requires workers { is_worker_count workers ≡ true }
    requires rests { AreRests pieces.now.supporters.now.voters pieces.now.rests.now }
    requires known { All (λ place. place < length pieces.now.supporters.now.costs) pieces.now.projects.now }
    requires few { length pieces.now.projects.now ≤ most_projects }
    ensures prices { IfOk result (λ answers. AllZip (IsPrice pieces.now.supporters.now pieces.now.rests.now)
        pieces.now.projects.now answers.items) }
    ensures counted { OnOk result (tally.new ≡ record {
      prices = u64_saturate (tally.old.prices + length pieces.now.projects.now);
      workers = u64_saturate (tally.old.workers + max 1 (min workers (length pieces.now.projects.now)));
    }) }
    ensures refused { OnErr result (tally.new ≡ tally.old) }
{
    // What is true of all supporters holds of those of these pieces.
    let _projects = pieces.supporters.projects();
    let workers = workers_for(workers, pieces.projects.len());
    let gathered = if workers == 1 {
        Gathered::in_turn(alloc, pieces)?
    } else {
        price_side_by_side(rt, alloc, workers, pieces)?
    };
    Ok(gathered.into_prices(tally))
}

/// How many workers price this many pieces: as many as were asked for, but at most one for each piece, and at
/// least one.
fn workers_for(workers: u32, pieces: usize) -> u32
    requires { pieces ≤ most_projects }
    ensures { result ≡ max 1 (min workers pieces) }
{
    workers.min(pieces as u32).max(1)
}

/// The prices by this many workers side by side, who draw the pieces by claims. After the join each piece was
/// drawn, by one worker.
fn price_side_by_side<
    R: Threads + Sync,
    A: Allocator + Copy + Send + Sync,
    B: Allocator + Sync,
    G: Gate,
>(rt: &R, alloc: A, workers: u32, pieces: &Pieces<G, B>) -> Result<Gathered<A>, NoMemory>
    requires batch { IsBatch pieces.now.supporters.now pieces.now.rests.now pieces.now.projects.now
        (length pieces.now.projects.now) }
    requires workers { (0 < workers) × (workers ≤ 64) }
    ensures prices { IfOk result (λ g. g.prices.items
        ≡ map (price_at pieces.now.supporters.now pieces.now.rests.now) pieces.now.projects.now) }
    ensures priced { IfOk result (λ g. g.priced ≡ length pieces.now.projects.now) }
    ensures workers { IfOk result (λ g. g.workers ≡ workers) }
{
    let batch = Batch {
        pieces: pieces.projects.len() as u32,
        workers,
    };
    let (claims, mut stock) = Claims::open(alloc, batch)?;
    match draw_and_gather(rt, alloc, &claims, &mut stock, pieces) {
        Ok(gathered) => {
            claims.close(stock);
            Ok(gathered)
        }
        Err(refused) => Err(refused),
    }
}

/// Lets the workers of the batch work, and gathers their answers; all their seats and numbers are then in
/// `stock`.
fn draw_and_gather<
    R: Threads + Sync,
    A: Allocator + Copy + Send + Sync,
    B: Allocator + Sync,
    G: Gate,
>(
    rt: &R,
    alloc: A,
    claims: &Claims<A>,
    stock: &mut Claim,
    pieces: &Pieces<G, B>,
) -> Result<Gathered<A>, NoMemory>
    requires same { stock.old.seat.table_id ≡ claims.now.table.shared.table_id }
    requires seats { stock.old.seat.me.0 ≡ drawn claims.now.batch.workers [] }
    requires few { claims.now.batch.workers ≤ 64 }
    requires batch { IsBatch pieces.now.supporters.now pieces.now.rests.now pieces.now.projects.now
        claims.now.batch.pieces }
    ensures same { stock.new.seat.table_id ≡ claims.now.table.shared.table_id }
    ensures all { OnOk result (stock.new.seat.me.0.seats ≡ claims.now.batch.workers) }
    ensures gathered { IfOk result (λ g. AreGathered pieces.now.supporters.now pieces.now.rests.now
        pieces.now.projects.now stock.new.seat.me.0 g.prices.items g.priced) }
    ensures workers { IfOk result (λ g. g.workers ≡ claims.now.batch.workers) }
{
    let staff = staff(alloc, claims, stock, claims.batch.workers)?;
    let done = work_side_by_side(rt, alloc, staff, claims, pieces)?;
    gather(alloc, claims, stock, pieces.projects.len(), done)
}

/// Lets all these workers work, each in a thread of its own where one can be made, until all have stopped.
fn work_side_by_side<
    R: Threads + Sync,
    A: Allocator + Copy + Send + Sync,
    B: Allocator + Sync,
    G: Gate,
>(
    rt: &R,
    alloc: A,
    staff: Vec<Worker<A>, A>,
    claims: &Claims<A>,
    pieces: &Pieces<G, B>,
) -> Result<Vec<Worker<A>, A>, NoMemory>
    requires same { All (λ w. w.claim.seat.table_id ≡ claims.now.table.shared.table_id) staff.items }
    requires fresh { All (λ w. (w.claim.seat.me.0 ≡ drawn 1 []) × (w.answers.items ≡ [])) staff.items }
    requires batch { IsBatch pieces.now.supporters.now pieces.now.rests.now pieces.now.projects.now
        claims.now.batch.pieces }
    ensures all { IfOk result (λ done. length done.items ≡ length staff.items) }
    ensures done { IfOk result (λ done. All (λ w.
        (w.claim.seat.table_id ≡ claims.now.table.shared.table_id)
        × IsDone pieces.now.supporters.now pieces.now.rests.now pieces.now.projects.now
        w.claim.seat.me.0 w.answers.items) done.items) }
{
    let work = |worker: Worker<A>| -> Result<Worker<A>, NoMemory>
        requires same { worker.claim.seat.table_id ≡ claims.now.table.shared.table_id }
        requires fresh { (worker.claim.seat.me.0 ≡ drawn 1 []) × (worker.answers.items ≡ []) }
        requires batch { IsBatch pieces.now.supporters.now pieces.now.rests.now pieces.now.projects.now
            claims.now.batch.pieces }
        ensures { IfOk result (λ w. (w.claim.seat.table_id ≡ claims.entry.now.table.shared.table_id)
            × IsDone pieces.entry.now.supporters.now pieces.entry.now.rests.now pieces.entry.now.projects.now
            w.claim.seat.me.0 w.answers.items) }
    { worker.work(claims, pieces) };
    let ended = thread::map_vec(rt, staff, &work)?;
    all_done(alloc, ended)
}

/// The workers that have stopped, the last one first, unless one of them was refused memory.
fn all_done<A: Allocator>(
    alloc: A,
    mut ended: Vec<Result<Worker<A>, NoMemory>, A>,
) -> Result<Vec<Worker<A>, A>, NoMemory>
    ensures all { IfOk result (λ done. length done.items ≡ length ended.items) }
    ensures done { (id : _) (s : SupportView) (rests projects : List ℕ)
        → All (λ r. IfOk r (λ w. (w.claim.seat.table_id ≡ id)
        × IsDone s rests projects w.claim.seat.me.0 w.answers.items)) ended.items
        → IfOk result (λ done. All (λ w. (w.claim.seat.table_id ≡ id)
        × IsDone s rests projects w.claim.seat.me.0 w.answers.items) done.items) }
{
    let mut done = Vec::with_capacity(alloc, ended.len())?;
    while let Some(worker) = ended.pop() {
        done.push(worker?)?;
    }
    Ok(done)
}
