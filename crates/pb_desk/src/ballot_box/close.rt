//! The election that is left once no more changes.

ghost use Rattle.std.specs.Prelude.{◌≡◌, ◌≤◌, [], length, IfErr, IfOk};
ghost use Rattle.std.specs.Vec.{vec_capacity};
ghost use Rattle.pb_desk.specs.Inner.Desk.{IsStanding};
ghost use Rattle.pb_desk.specs.Inner.Legal.{voters_of};

use super::BallotBox;
use pb_core::election::Election;
use pb_core::voter::Voter;
use std::alloc::Allocator;

impl<A: Allocator> BallotBox<A> {
    /// The election that the desk opened with, but for the voters: they are those whose ballots stand. No
    /// ballot is copied. Where memory is refused the box comes back.
    pub(crate) fn close(self) -> Result<Election<A>, BallotBox<A>>
    where
        A: Copy,
        requires { IsStanding self.election self.standing }
        ensures ok { IfOk result (λ election. election
            ≡ record self.election { voters = voters_of self.standing.ballots }) }
        ensures err { IfErr result (λ back. back ≡ self) }
    {
        let alloc = *self.journal.allocator();
        match Vec::with_capacity(alloc, self.len()) {
            Ok(voters) => Ok(self.closed(voters)),
            Err(_) => Err(self),
        }
    }

    /// Closes the box, and puts the voters into `voters`.
    fn closed(self, mut voters: Vec<Voter<A>, A>) -> Election<A>
    where
        A: Copy,
        requires standing { IsStanding self.election self.standing }
        requires empty { voters.items ≡ [] }
        requires room { length self.standing.ballots ≤ vec_capacity voters }
        ensures { result ≡ record self.election { voters = voters_of self.standing.ballots } }
    {
        // An election's voters have ids and ballots, which stay as they are.
        let _voters = self.election.voters();
        let alloc = *self.journal.allocator();
        let BallotBox {
            mut election,
            journal,
            ballots,
            is_shut: _,
        } = self;
        let opening = election.replace_voters(Vec::new(alloc));
        ballots.take_voters(opening, journal, &mut voters);
        drop(ballots);
        drop(election.replace_voters(voters));
        election
    }
}
