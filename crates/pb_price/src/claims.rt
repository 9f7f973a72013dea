//! The claims on the pieces of a batch: each worker draws its next number from one word, so that each piece
//! is drawn once.

ghost use Rattle.std.specs.Prelude.{◌≡◌, ◌+◌, ◌-◌, ◌<◌, ◌≤◌, ◌^◌, [], ◌∷◌, ◌++◌, ℕ, IfOk, sum_by};
ghost use Rattle.std.specs.List.{range_with_len};
ghost use Rattle.pb_price.specs.Inner.Claims.{drawn, joined, past_end, AreBelowOnce};

pub(crate) mod drawn;
pub(crate) mod rule;

use crate::claims::drawn::Drawn;
use crate::claims::rule::{Batch, Draw, EachOnce, OneSeat, Together};
use atomic_table::{Seat, Table};
use pb_core::no_memory::NoMemory;
use std::alloc::Allocator;

/// The claims on the pieces of one batch.
#[derive(Drop)]
pub(crate) struct Claims<A: Allocator> {
    pub(crate) batch: Batch,
    pub(crate) table: Table<(), Drawn, Batch, EachOnce, A>,
    ghost of_batch: { table.shared.key ≡ batch },
    ghost one_word: { table.shared.table_id.words ≡ 1 },
    ghost no_slots: { table.shared.table_id.slots ≡ 0 },
}

/// A right to draw: a worker's own, or the one that is left to the caller.
#[derive(Drop)]
pub(crate) struct Claim {
    pub(crate) seat: Seat<(), Drawn>,
    ghost no_slots: { seat.me.1 ≡ [] },
}

impl<A: Allocator> Claims<A> {
    /// The claims on a batch, of which nothing is drawn yet, and the claim that has all the workers' seats.
    pub(crate) fn open(alloc: A, batch: Batch) -> Result<(Claims<A>, Claim), NoMemory>
        requires { batch.pieces + batch.workers < 2 ^ 63 }
        ensures batch { IfOk result (λ c. c.0.batch ≡ batch) }
        ensures claim { IfOk result (λ c. c.1.seat.table_id ≡ c.0.table.shared.table_id) }
        ensures seats { IfOk result (λ c. c.1.seat.me.0 ≡ drawn batch.workers []) }
    {
        let (table, seat) = Table::of_words(alloc, &[0], &batch)?;
        Ok((Claims { batch, table }, Claim { seat }))
    }

    /// Splits off the claim of one worker.
    pub(crate) fn split(&self, claim: &mut Claim) -> Claim
        requires same { claim.old.seat.table_id ≡ self.now.table.shared.table_id }
        requires seats { 0 < claim.old.seat.me.0.seats }
        requires fresh { claim.old.seat.me.0.numbers ≡ [] }
        ensures same { claim.new.seat.table_id ≡ self.now.table.shared.table_id }
        ensures left { claim.new.seat.me.0 ≡ drawn (claim.old.seat.me.0.seats - 1) [] }
        ensures worker { (result.seat.table_id ≡ self.now.table.shared.table_id)
            × (result.seat.me.0 ≡ drawn 1 []) }
    {
        let seat = self.table.shared.split_seat::<OneSeat>(&mut claim.seat);
        Claim { seat }
    }

    /// Draws the next number. Where it is below the number of pieces, that piece is the claim's alone.
    pub(crate) fn draw(&self, claim: &mut Claim) -> u64
        requires same { claim.old.seat.table_id ≡ self.now.table.shared.table_id }
        requires may_draw { past_end self.now.batch.pieces claim.old.seat.me.0.numbers
            < claim.old.seat.me.0.seats }
        ensures same { claim.new.seat.table_id ≡ self.now.table.shared.table_id }
        ensures drawn { claim.new.seat.me.0 ≡ drawn claim.old.seat.me.0.seats
            (claim.old.seat.me.0.numbers ++ result ∷ []) }
        ensures once { (weight : ℕ → ℕ) → sum_by weight claim.new.seat.me.0.numbers
            ≤ sum_by weight (range_with_len 0 (result + 1)) }
    {
        self.table.shared.fetch_add::<Draw>(&mut claim.seat, 0, 1)
    }

    /// Puts another claim's seats and numbers to this one's.
    pub(crate) fn join(&self, claim: &mut Claim, other: Claim)
        requires same { (claim.old.seat.table_id ≡ self.now.table.shared.table_id)
            × (other.seat.table_id ≡ self.now.table.shared.table_id) }
        ensures same { claim.new.seat.table_id ≡ self.now.table.shared.table_id }
        ensures joined { claim.new.seat.me.0 ≡ joined claim.old.seat.me.0 other.seat.me.0 }
    {
        let Claim { seat } = other;
        self.table
            .shared
            .join_seat::<Together>(&mut claim.seat, seat);
    }

    /// Ends the claims. A claim into which all workers' seats were joined has all numbers that were drawn,
    /// each once.
    pub(crate) fn close(self, claim: Claim)
        requires same { claim.seat.table_id ≡ self.table.shared.table_id }
        requires all { claim.seat.me.0.seats ≡ self.batch.workers }
        ensures { (next : ℕ) × AreBelowOnce claim.seat.me.0.numbers next }
    {
        let Claims { batch: _, table } = self;
        let Claim { seat } = claim;
        table.close_with(seat).free();
    }
}
