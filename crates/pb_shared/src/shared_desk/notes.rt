//! Notes from clerk to clerk.

ghost use Rattle.std.specs.Prelude.{◌≡◌, length};
ghost use Rattle.pb_shared.specs.Clerk.{Begins, Reads};

use super::SharedDesk;
use crate::clerk::Clerk;
use crate::desk_rule::{FRONT, Read, Tell, Write};
use crate::note::Note;

impl SharedDesk {
    /// A note of what this clerk knows, for another clerk to meet. It may also be dropped.
    pub fn note(&self, clerk: &mut Clerk) -> Note
        requires own { clerk.old.desk ≡ self.now }
        ensures note { result ≡ clerk.old }
        ensures same { clerk.new ≡ clerk.old }
    {
        Note {
            seat: self.table.shared.split_seat::<Write>(&mut clerk.seat),
        }
    }

    /// Lets the clerk see what the note has, by one load of the front word: what it has then seen begins with
    /// what it had seen, and with what the note has.
    pub fn meet(&self, clerk: &mut Clerk, note: Note)
        requires own { clerk.old.desk ≡ self.now }
        requires note { note.desk ≡ self.now }
        ensures same { clerk.new.desk ≡ clerk.old.desk }
        ensures clerk { Reads self.now clerk.old.sheet (length clerk.new.sheet.seen) clerk.new.sheet }
        ensures note { Begins note.sheet.seen clerk.new.sheet.seen }
    {
        let Note { seat } = note;
        self.table.shared.join_seat::<Tell>(&mut clerk.seat, seat);
        self.table.shared.load::<Read>(&mut clerk.seat, FRONT);
    }
}
