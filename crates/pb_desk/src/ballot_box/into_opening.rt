//! The election that the box was opened with.

ghost use Rattle.std.specs.Prelude.{◌≡◌};

use super::BallotBox;
use pb_core::election::Election;
use std::alloc::Allocator;

impl<A: Allocator> BallotBox<A> {
    /// The election that the desk opened with, as it was. The journal is given up.
    pub(crate) fn into_opening(self) -> Election<A>
        ensures { result ≡ self.election }
    {
        let BallotBox {
            election,
            journal,
            ballots,
            is_shut: _,
        } = self;
        drop(journal);
        drop(ballots);
        election
    }
}
