//! The ballots of a desk, one after the other.

ghost use Rattle.std.specs.Iterator.{YieldsFirstBy, item_count};

use crate::filed_ballots::FiledBallots;
use pb_core::ballot::Ballot;
use pb_core::voter_id::VoterId;
use std::alloc::{Allocator, Global};
use std::marker::Model;

/// Goes through the ballots of a desk, in the order in which they were cast; it takes one pass. A contract
/// sees those that are left, each a voter's id and the places that the voter approves.
#[derive(Drop)]
pub struct StandingBallots<'a, A: Allocator = Global> {
    pub(crate) left: FiledBallots<'a, A>,
}

impl<'a, A: Allocator> Model for StandingBallots<'a, A> {
    ghost use Rattle.std.specs.Prelude.{ℕ, List};

    ghost Value = { List (List ℕ × List ℕ) };

    ghost view = { λ b. b.left };
}

impl<'a, A: Allocator> Iterator for StandingBallots<'a, A> {
    type Item = (&'a VoterId<A>, &'a Ballot<A>);

    ghost next_gives = { YieldsFirstBy (λ p. (p.0.now, p.1.now)) (λ b. b) };

    ghost remaining = { item_count (λ b. b) };

    fn next(&mut self) -> Option<(&'a VoterId<A>, &'a Ballot<A>)> {
        self.left.take()
    }
}
