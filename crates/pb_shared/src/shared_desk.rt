//! A desk that several clerks share.

use crate::desk_rule::DeskTable;
use std::marker::Model;

mod finish;
mod lock;
mod look;
mod notes;
mod serve;
mod share;

/// A desk that clerks in several threads share.
///
/// A contract sees which shared desk it is, the desk as it was when it was shared, and the number of clerks.
/// Each call that takes a clerk or a note has the condition that this desk made it. No call waits: each tries
/// the lock at most as often as it says.
#[derive(Drop)]
pub struct SharedDesk {
    table: DeskTable,
}

impl Model for SharedDesk {
    ghost use Rattle.pb_shared.specs.Clerk.{SharedView};
    ghost use Rattle.pb_shared.specs.Inner.Seats.{IsTable};

    ghost Value = { SharedView };

    ghost view = { λ d. record {
      id = d.table.shared.table_id;
      start = d.table.shared.key.desk.value;
      clerks = d.table.shared.key.clerks;
    } };

    ghost invariant = { λ d. IsTable d.table.shared.table_id d.table.shared.key };
}
