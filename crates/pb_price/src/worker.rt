//! A worker who draws pieces of work and prices them.

ghost use Rattle.std.specs.Prelude.{◌≡◌, [], All, length, IfOk, OnOk};
ghost use Rattle.pb_price.specs.Inner.Claims.{drawn};
ghost use Rattle.pb_price.specs.Inner.Working.{IsBatch, IsDone};

use crate::answer::Answer;
use crate::claims::{Claim, Claims};
use crate::common_rest::common_rest;
use crate::pieces::Pieces;
use crate::steps::PriceSearch;
use pb_core::gate::Gate;
use pb_core::no_memory::NoMemory;
use std::alloc::Allocator;

/// One of the workers of a batch: its number, from 0, its claim, and the answers that it has found.
#[derive(Drop)]
pub(crate) struct Worker<A: Allocator> {
    pub(crate) number: u32,
    pub(crate) claim: Claim,
    pub(crate) answers: Vec<Answer, A>,
}

impl<A: Allocator> Worker<A> {
    /// Draws pieces and prices them until none is left. Each piece meets the gate before it is priced.
    pub(crate) fn work<B: Allocator, C: Allocator, G: Gate>(
        mut self,
        claims: &Claims<C>,
        pieces: &Pieces<G, B>,
    ) -> Result<Worker<A>, NoMemory>
        requires same { self.claim.seat.table_id ≡ claims.now.table.shared.table_id }
        requires fresh { (self.claim.seat.me.0 ≡ drawn 1 []) × (self.answers.items ≡ []) }
        requires batch { IsBatch pieces.now.supporters.now pieces.now.rests.now pieces.now.projects.now
            claims.now.batch.pieces }
        ensures { IfOk result (λ w. (w.claim.seat.table_id ≡ claims.now.table.shared.table_id)
            × IsDone pieces.now.supporters.now pieces.now.rests.now pieces.now.projects.now
            w.claim.seat.me.0 w.answers.items) }
    {
        let common = common_rest(pieces.supporters, pieces.rests, pieces.projects.len());
        loop {
            let number = claims.draw(&mut self.claim);
            let Some(place) = pieces.projects.get(number as usize) else {
                return Ok(self);
            };
            let piece = number as u32;
            pieces.gate.at(self.number, piece);
            let sought = PriceSearch {
                supporters: pieces.supporters,
                rests: pieces.rests,
                place: *place,
            };
            let price = sought.price_by(&common);
            self.answers.push(Answer { piece, price })?;
        }
    }
}

/// The workers of a batch, each with a claim of its own, which is split off the claim that has all seats.
pub(crate) fn staff<A: Allocator + Copy>(
    alloc: A,
    claims: &Claims<A>,
    stock: &mut Claim,
    workers: u32,
) -> Result<Vec<Worker<A>, A>, NoMemory>
    requires same { stock.old.seat.table_id ≡ claims.now.table.shared.table_id }
    requires seats { stock.old.seat.me.0 ≡ drawn workers [] }
    ensures same { stock.new.seat.table_id ≡ claims.now.table.shared.table_id }
    ensures seats { OnOk result (stock.new.seat.me.0 ≡ drawn 0 []) }
    ensures all { IfOk result (λ v. length v.items ≡ workers) }
    ensures claims { IfOk result (λ v.
        All (λ w. w.claim.seat.table_id ≡ claims.now.table.shared.table_id) v.items) }
    ensures fresh { IfOk result (λ v.
        All (λ w. (w.claim.seat.me.0 ≡ drawn 1 []) × (w.answers.items ≡ [])) v.items) }
{
    let mut staff = Vec::with_capacity(alloc, workers as usize)?;
    for number in 0..workers {
        let claim = claims.split(stock);
        let answers = Vec::new(alloc);
        staff.push(Worker {
            number,
            claim,
            answers,
        })?;
    }
    Ok(staff)
}
