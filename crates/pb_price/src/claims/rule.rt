//! The rule of the claim table, and what each kind of step on it does to the views.

ghost use Rattle.std.specs.Prelude.{[]};
ghost use Rattle.pb_price.specs.Claims.{AreClaims};
ghost use Rattle.pb_price.specs.Inner.Claims.{drawn, draws, joined, one_seat, rest_of_seats, spent};

use crate::claims::drawn::Drawn;
use atomic_table::{Join, Play, Split, TableRule};

/// What the workers divide among themselves: the pieces, numbered from 0, and how many workers do so.
#[derive(Clone, Copy)]
pub(crate) struct Batch {
    pub(crate) pieces: u32,
    pub(crate) workers: u32,
}

/// Between any two steps, the numbers in all views together are those below the word, each once.
pub(crate) struct EachOnce;

impl TableRule<(), Drawn, Batch> for EachOnce {
    ghost holds = { λ batch. AreClaims batch.pieces batch.workers };

    ghost first = { λ batch. drawn batch.workers [] };
}

/// A draw: the number found goes after the others of the view.
pub(crate) struct Draw;

impl Play<(), Drawn> for Draw {
    ghost then = { draws };
}

/// A worker's seat is split off.
pub(crate) struct OneSeat;

impl Split<Drawn> for OneSeat {
    ghost left = { rest_of_seats };

    ghost right = { one_seat };
}

/// Another claim's seats and numbers go after one's own.
pub(crate) struct Together;

impl Join<Drawn> for Together {
    ghost both = { joined };

    ghost spent = { spent };
}
