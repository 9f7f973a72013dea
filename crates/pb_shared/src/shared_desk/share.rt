//! The start of a shared desk.

ghost use Rattle.std.specs.Prelude.{◌≡◌, ◌⊎◌, ◌<◌, ℕ, All, IfOk, IfErr, OnOk, Some, length, slice_get};
ghost use Rattle.pb_shared.specs.Clerk.{AreClerks, new_sheet};
ghost use Rattle.pb_shared.specs.Inner.Seats.{IsLaid};

use super::SharedDesk;
use crate::clerk::Clerk;
use crate::desk_rule::{Deal, DeskTable, Place};
use crate::seat_view::About;
use crate::share_fault::ShareFault;
use atomic_table::{Refused, Table};
use pb_desk::desk::{Desk, MOST_CLERKS};
use std::alloc::Global;
use std::snapshot::Snapshot;

impl SharedDesk {
    /// Shares a desk among this many clerks, 1 to `MOST_CLERKS`. They have the numbers from 0 on, in the
    /// list's order, and have seen the desk's journal.
    pub fn share(
        alloc: Global,
        desk: Desk,
        clerks: u32,
    ) -> Result<(SharedDesk, Vec<Clerk>), ShareFault>
        ensures ok { IfOk result (λ shared. (shared.0.start ≡ desk) × (shared.0.clerks ≡ clerks)
            × ((length shared.1.items ≡ shared.0.clerks)
            × ((i : ℕ) → i < shared.0.clerks → slice_get shared.1.items i
            ≡ Some (record { desk = shared.0; sheet = new_sheet shared.0.start.journal i })))) }
        ensures own { IfOk result (λ shared. All (λ clerk. clerk.desk ≡ shared.0) shared.1.items) }
        ensures range { OnOk result (AreClerks clerks) }
        ensures err { IfErr result (λ fault.
            ((fault ≡ ShareFault.ClerkCount desk) × ¬ AreClerks clerks)
            ⊎ ((fault ≡ ShareFault.NoMemory desk) × AreClerks clerks)) }
    {
        if clerks == 0 || clerks > MOST_CLERKS {
            return Err(ShareFault::ClerkCount(desk));
        }
        let Ok(mut seated) = Vec::with_capacity(alloc, clerks as usize) else {
            return Err(ShareFault::NoMemory(desk));
        };
        let (table, mut stock) = match lay_table(alloc, desk, clerks) {
            Ok(laid) => laid,
            Err(desk) => return Err(ShareFault::NoMemory(desk)),
        };
        for number in 0..clerks {
            let seat = table.shared.split_seat::<Deal>(&mut stock);
            seated.push_reserved(Clerk { number, seat });
        }
        Ok((SharedDesk { table }, seated))
    }
}

/// A table with the desk in its slot, and its first seat, which has all clerks in stock. Without memory the
/// desk comes back.
fn lay_table(alloc: Global, desk: Desk, clerks: u32) -> Result<(DeskTable, Place), Desk>
    requires { AreClerks clerks }
    ensures ok { IfOk result (λ laid.
        IsLaid desk clerks laid.0.shared.table_id laid.0.shared.key laid.1.table_id laid.1.me) }
    ensures err { IfErr result (λ back. back ≡ desk) }
{
    let Ok(mut slots) = Vec::with_capacity(alloc, 1) else {
        return Err(desk);
    };
    let about = About {
        desk: Snapshot::of(&desk),
        clerks,
    };
    // The room is a u32.
    let _room = desk.room();
    let entries = u64::from(desk.entries());
    slots.push_reserved(Some(desk));
    match Table::new(alloc, &[0, entries], slots, &about) {
        Ok(laid) => Ok(laid),
        Err(Refused { mut slots }) => Err(slots.pop().unwrap().unwrap()),
    }
}
