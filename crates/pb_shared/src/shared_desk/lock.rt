//! The steps under the lock. Between them the seat of a clerk is not idle.

ghost use Rattle.std.specs.Prelude.{◌≡◌, ◌≤◌, length, IfOk, IfErr, []};
ghost use Rattle.pb_desk.specs.Replay.{IsLegal};
ghost use Rattle.pb_shared.specs.Inner.Plays.{freed, published};
ghost use Rattle.pb_shared.specs.Inner.Seats.{HasWon, HasLost, IsIdle, IsOut, IsDeskOf, HasServed};

use super::SharedDesk;
use crate::busy::Busy;
use crate::desk_rule::{FRONT, Free, LOCK, Lock, Place, Publish, SLOT};
use pb_desk::desk::Desk;

impl SharedDesk {
    /// Tries the lock once, and takes the desk out if it was free.
    pub(super) fn take_desk(&self, seat: &mut Place, number: u32) -> Result<Desk, Busy>
        requires own { seat.old.table_id ≡ self.now.id }
        requires idle { IsIdle number seat.old.me }
        ensures same { (seat.new.table_id ≡ seat.old.table_id) × (seat.new.id ≡ seat.old.id) }
        ensures ok { IfOk result (λ desk. HasWon seat.old.me desk seat.new.me) }
        ensures err { IfErr result (λ busy. HasLost seat.old.me busy.0 seat.new.me) }
    {
        let word = u64::from(number) + 1;
        let found = self
            .table
            .shared
            .compare_exchange::<Lock>(seat, LOCK, 0, word);
        if found != 0 {
            return Err(Busy((found - 1) as u32));
        }
        Ok(self.table.shared.exchange(seat, SLOT, None).unwrap())
    }

    /// Brings the desk back as it was, and frees the lock.
    pub(super) fn bring_back(&self, seat: &mut Place, desk: Desk)
        requires own { seat.old.table_id ≡ self.now.id }
        requires out { IsOut seat.old.me }
        requires desk { IsDeskOf seat.old.me desk seat.old.me.0.sheet.seen }
        ensures same { (seat.new.table_id ≡ seat.old.table_id) × (seat.new.id ≡ seat.old.id) }
        ensures freed { seat.new.me ≡ (freed seat.old.me.0, []) }
    {
        drop(self.table.shared.exchange(seat, SLOT, Some(desk)));
        self.table.shared.store::<Free>(seat, LOCK, 0);
    }

    /// Brings the desk back with one entry more and publishes that entry, then frees the lock.
    pub(super) fn publish(&self, seat: &mut Place, desk: Desk)
        requires own { seat.old.table_id ≡ self.now.id }
        requires out { IsOut seat.old.me }
        requires desk { HasServed seat.old.me desk }
        ensures same { (seat.new.table_id ≡ seat.old.table_id) × (seat.new.id ≡ seat.old.id) }
        ensures freed { seat.new.me ≡ (freed (published seat.old.me.0 desk.journal), []) }
        ensures stands { IsLegal desk.opening desk.journal × (length desk.journal ≤ desk.room) }
    {
        let entries = u64::from(desk.entries());
        drop(self.table.shared.exchange(seat, SLOT, Some(desk)));
        self.table.shared.store::<Publish>(seat, FRONT, entries);
        self.table.shared.store::<Free>(seat, LOCK, 0);
    }
}
