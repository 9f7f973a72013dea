//! What a witness keeps of the records of a .pb file that it was shown.

use crate::heads::{OddHead, odd_head_of, section_of};
use crate::keys::Keys;
use crate::prelude::*;
use crate::swallowed::swallows_head;

/// What the records say that were shown so far.
#[derive(Clone, Copy)]
pub struct Seen {
    /// The rows of META that gave the keys that the count uses.
    pub keys: Keys,
    /// The first row of META or PROJECTS, whichever is read, that seems to be meant as a head.
    pub odd_head: Option<OddHead>,
    /// The first row of META or PROJECTS, whichever is read, that has a head or a row of META in a field in
    /// quotes.
    pub swallowing: Option<Mark>,
    /// The last record that is not blank.
    pub last: Mark,
    /// The last row of column names, and how many it has.
    pub names: Mark,
    pub columns: usize,
    /// The row of column names of PROJECTS.
    pub project_names: Mark,
}

impl Seen {
    /// Nothing was shown yet.
    pub fn nothing() -> Seen {
        Seen {
            keys: Keys::none(),
            odd_head: None,
            swallowing: None,
            last: Mark::start(),
            names: Mark::start(),
            columns: 0,
            project_names: Mark::start(),
        }
    }

    /// Takes a record that the reader accepts.
    pub fn take(&mut self, record: &ByteRecord, mark: Mark, part: Part) {
        match part {
            Part::Other => return,
            Part::Head(_) => {
                self.odd_head = None;
                self.swallowing = None;
            }
            Part::Key => {
                self.take_head(record, mark);
                let _ = self.keys.take(text_at(record, 0), mark);
            }
            Part::Project(_) => self.take_head(record, mark),
            Part::Names(section) => {
                if matches!(section, Section::Projects) {
                    self.project_names = mark;
                }
                self.names = mark;
                self.columns = record.len();
            }
            Part::Vote(_) => {}
        }
        self.last = mark;
    }

    /// Takes the record that the reader refuses at this stage.
    pub fn leave_out(&mut self, record: &ByteRecord, mark: Mark, stage: &Stage) {
        self.last = mark;
        match section_of(stage) {
            Section::Votes => {}
            Section::Meta | Section::Projects => self.take_head(record, mark),
        }
    }

    /// Keeps where the first row stands that seems to be meant as a head, and the first that has one in it.
    fn take_head(&mut self, record: &ByteRecord, mark: Mark) {
        if self.swallowing.is_none() && swallows_head(record) {
            self.swallowing = Some(mark);
        }
        if self.odd_head.is_none() {
            self.odd_head = odd_head_of(record, mark);
        }
    }
}
