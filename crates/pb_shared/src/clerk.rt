//! A clerk of a shared desk.

use crate::desk_rule::Place;
use std::marker::Model;

/// A clerk of a shared desk: who has it can call on the desk. It may go to another thread.
///
/// A contract sees which desk made it, its number, the entries that it has seen, its own entries since the
/// desk was shared, the words that its exchanges found in the lock, 0 for one that was won, and the numbers
/// that its loads found in the front word.
#[derive(Drop)]
pub struct Clerk {
    pub(crate) number: u32,
    pub(crate) seat: Place,
}

impl Model for Clerk {
    ghost use Rattle.pb_shared.specs.Clerk.{ClerkView};
    ghost use Rattle.pb_shared.specs.Seats.{clerk_view};
    ghost use Rattle.pb_shared.specs.Inner.Seats.{IsIdle};

    ghost Value = { ClerkView };

    ghost view = { λ c. clerk_view c.seat.table_id c.seat.me };

    ghost invariant = { λ c. IsIdle c.number c.seat.me };
}

impl Clerk {
    ghost use Rattle.std.specs.Prelude.{◌≡◌, ◌<◌};

    /// The clerk's number, from 0. It is below the number of clerks of its desk.
    pub fn number(&self) -> u32
        ensures number { result ≡ self.now.sheet.number }
        ensures known { result < self.now.desk.clerks }
    {
        self.number
    }
}
