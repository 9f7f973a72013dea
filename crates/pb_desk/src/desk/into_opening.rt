//! The election that a desk opened with.

ghost use Rattle.std.specs.Prelude.{◌≡◌};

use super::Desk;
use pb_core::election::Election;
use std::alloc::Allocator;

impl<A: Allocator> Desk<A> {
    /// The election that the desk opened with, with the voters and the ballots that it had then. The journal
    /// is given up. Nothing is copied.
    pub fn into_opening(self) -> Election<A>
        ensures { result ≡ self.opening.election }
    {
        let Desk {
            version: _,
            room: _,
            ballots,
        } = self;
        ballots.into_opening()
    }
}
