//! Looks at a shared desk, under its lock and without it.

ghost use Rattle.std.specs.Prelude.{◌≡◌, IfOk, IfErr, OnOk};
ghost use Rattle.std.specs.Fn.{FnOnceReturnsAt};
ghost use Rattle.pb_shared.specs.Clerk.{Reads, Sees};
ghost use Rattle.pb_shared.specs.Refusal.{Refuses};
ghost use Rattle.pb_shared.specs.declared.shared_fault.SharedFault.TheVariants as fault;

use super::SharedDesk;
use crate::busy::Busy;
use crate::clerk::Clerk;
use crate::desk_rule::{FRONT, Read};
use pb_desk::desk::Desk;

impl SharedDesk {
    /// Lends the desk to `f` under the lock, if the lock is won by one exchange, and answers what `f`
    /// answers. The clerk has then seen that desk's journal. Nothing is appended.
    pub fn look<T, F: FnOnce(&Desk) -> T>(&self, clerk: &mut Clerk, f: F) -> Result<T, Busy>
        requires own { clerk.old.desk ≡ self.now }
        requires f { F.IsAlwaysCallable f }
        ensures same { clerk.new.desk ≡ clerk.old.desk }
        ensures seen { OnOk result (Sees 1 self.now clerk.old.sheet clerk.new.sheet) }
        ensures answer { IfOk result (λ answer.
            FnOnceReturnsAt F.FnOnce f (record self.now.start { journal = clerk.new.sheet.seen }) answer) }
        ensures err { IfErr result (λ busy. Refuses 1 self.now clerk.old.sheet
            (fault.Busy busy.0) clerk.new.sheet) }
    {
        let desk = self.take_desk(&mut clerk.seat, clerk.number)?;
        let answer = f(&desk);
        self.bring_back(&mut clerk.seat, desk);
        Ok(answer)
    }

    /// The number of entries that stand, by one load without the lock. The clerk has then seen them.
    pub fn front(&self, clerk: &mut Clerk) -> u32
        requires own { clerk.old.desk ≡ self.now }
        ensures same { clerk.new.desk ≡ clerk.old.desk }
        ensures front { Reads self.now clerk.old.sheet result clerk.new.sheet }
    {
        self.table.shared.load::<Read>(&mut clerk.seat, FRONT) as u32
    }
}
