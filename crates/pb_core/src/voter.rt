//! A voter with a ballot.

ghost use Rattle.std.specs.Prelude.{◌≡◌, ◌<◌, All, length};
ghost use Rattle.pb_core.specs.Order.{ballot_in};

use crate::ballot::Ballot;
use crate::order::ProjectOrder;
use crate::voter_id::VoterId;
use std::alloc::{Allocator, Global};
use std::marker::Model;

/// A voter and the projects that they approve.
#[derive(Drop)]
pub struct Voter<A: Allocator = Global> {
    pub id: VoterId<A>,
    pub ballot: Ballot<A>,
}

impl<A: Allocator> Model for Voter<A> {
    ghost use Rattle.pb_core.specs.Election.{VoterView};

    ghost Value = { VoterView };

    ghost view = { λ v. record { id = v.id; ballot = v.ballot } };
}

impl<A: Allocator> Voter<A> {
    /// Lets the ballot approve the same projects by their positions in this order.
    pub(crate) fn put_in_order(&mut self, order: &ProjectOrder<A>)
        requires { All (λ place. place < length order.now) self.old.ballot }
        ensures { self.new ≡ record self.old { ballot = ballot_in order.now self.old.ballot } }
    {
        self.ballot.put_in_order(order);
    }
}
