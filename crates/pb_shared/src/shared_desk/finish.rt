//! The end of a shared desk: clerks come back, and the desk does.

ghost use Rattle.std.specs.Prelude.{◌≡◌, ◌<◌, ℕ, map, All, Contains, IfOk, IfErr, IsOk};
ghost use Rattle.pb_shared.specs.Clerk.{IsAnothers, IsMergeOf};

use super::SharedDesk;
use crate::clerk::Clerk;
use crate::desk_rule::{HandBack, LOCK, SLOT, Visit};
use crate::unfinished::Unfinished;
use pb_desk::desk::Desk;

impl SharedDesk {
    /// Takes clerks back and gives the desk, with the opening and the room that it had. Its journal begins
    /// with what each of these clerks has seen, and past the start it has their own entries in their order.
    ///
    /// Unfinished comes only where a clerk who is not among these holds the lock, so never where all clerks
    /// are handed back; then the journal past the start is a merge of their own lists.
    pub fn finish(self, mut clerks: Vec<Clerk>) -> Result<Desk, Unfinished>
        requires own { All (λ clerk. clerk.desk ≡ self) clerks.items }
        ensures ok { IfOk result (λ desk.
            (desk ≡ record self.start { journal = desk.journal })
            × IsMergeOf self clerks.items desk.journal) }
        ensures err { IfErr result (λ fault. IsAnothers self (map (λ c. c.sheet) clerks.items) fault.0) }
        ensures all { ((number : ℕ) → number < self.clerks
            → Contains (map (λ c. c.sheet.number) clerks.items) number) → IsOk result }
    {
        let SharedDesk { table } = self;
        let (_word, mut seat) = table.shared.load_new_seat::<Visit>(LOCK);
        while let Some(clerk) = clerks.pop() {
            let Clerk {
                number: _,
                seat: theirs,
            } = clerk;
            table.shared.join_seat::<HandBack>(&mut seat, theirs);
        }
        drop(clerks);
        let mut closed = table.close_with(seat);
        let word = closed.word(LOCK);
        let slot = closed.take(SLOT);
        closed.free();
        if word != 0 {
            drop(slot);
            return Err(Unfinished(word));
        }
        Ok(slot.unwrap())
    }
}
