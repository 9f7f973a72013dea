//! What one clerk hands another to see.

use crate::desk_rule::Place;
use std::marker::Model;

/// What a clerk knew when it wrote the note: a contract sees a note as that clerk. Another clerk who meets
/// the note has seen as much.
#[derive(Drop)]
pub struct Note {
    pub(crate) seat: Place,
}

impl Model for Note {
    ghost use Rattle.std.specs.Prelude.{◌≡◌, []};
    ghost use Rattle.pb_shared.specs.Clerk.{ClerkView};
    ghost use Rattle.pb_shared.specs.Seats.{clerk_view};
    ghost use Rattle.pb_shared.specs.declared.seat_view.Role.TheVariants.{Guest};

    ghost Value = { ClerkView };

    ghost view = { λ n. clerk_view n.seat.table_id n.seat.me };

    ghost invariant = { λ n. (n.seat.me.0.role ≡ Guest) × (n.seat.me.1 ≡ []) };
}
