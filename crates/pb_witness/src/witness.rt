//! Who looks on while a .pb file is read, and keeps what words need of what the reader refuses.

use crate::faulty_record::{FaultyRecord, piece_of};
use crate::prelude::*;
use crate::unknown::UnknownIds;
use pb_read::{MOST_FAULTS, Refusal, VoteColumns, Watch, check_pb};
use pb_seen::amounts::has_thousands_mark;
use pb_seen::changed::is_nothing;
use pb_seen::ids::Ids;
use pb_seen::rows::VoteRows;
use pb_seen::seen::Seen;

/// Looks on while a .pb file is read, and keeps what words need of the first 1,000 records that are refused.
#[derive(Drop)]
pub struct Witness {
    alloc: Global,
    pub seen: Seen,
    pub ids: Ids,
    /// The ids that no project has.
    pub unknown: UnknownIds,
    /// The rows of VOTES.
    pub rows: VoteRows,
    pub refused: Vec<FaultyRecord>,
    /// Whether an amount has three digits behind a mark, which may separate thousands.
    pub has_thousands: bool,
    /// Whether all was kept: no memory was refused.
    pub is_whole: bool,
}

impl Witness {
    /// Nothing was shown yet.
    pub fn new(alloc: Global) -> Witness {
        Witness {
            alloc,
            seen: Seen::nothing(),
            ids: Ids::new(alloc),
            unknown: UnknownIds::new(alloc),
            rows: VoteRows::new(alloc),
            refused: Vec::new(alloc),
            has_thousands: false,
            is_whole: true,
        }
    }

    /// Looks on while a text is checked once more, if it is a file.
    pub fn look_again<R: Files>(&mut self, text: &Text<'_, R>) {
        let Some(file) = text.open_at(0) else {
            return;
        };
        match check_pb(text.alloc, file, self) {
            Ok(checked) => drop(checked),
            Err(_) => self.is_whole = false,
        }
    }

    /// Whether no vote names a project of the file, although all of its projects are accepted.
    pub(crate) fn is_of_other_projects(&self) -> bool {
        let is_none = !self.rows.names_project && self.ids.left_out.len() == 0;
        is_none && self.unknown.found.len() > 1
    }

    /// Takes a record that is accepted, and begins here.
    pub fn take(&mut self, record: &ByteRecord, mark: Mark, part: Part) {
        self.seen.take(record, mark, part);
        if let Part::Vote(columns) = part {
            self.rows.take(bytes_at(record, columns.vote), mark);
            if !self.rows.names_project {
                self.rows.names_project = !text_at(record, columns.vote).is_empty();
            }
            return;
        }
        if self.ids.take(record, mark, part).is_err() {
            self.is_whole = false;
        }
        self.has_thousands |= match part {
            Part::Project(columns) => has_thousands_mark(text_at(record, columns.cost)),
            Part::Key => has_thousands_mark(text_at(record, 1)),
            _ => false,
        };
    }

    /// Takes a record that is refused.
    fn keep(
        &mut self,
        record: &ByteRecord,
        refusal: Refusal,
        stage: &Stage,
    ) -> Result<(), AllocError> {
        let mark = Mark::of(record, u64::from(refusal.fault.at));
        self.refused.push(FaultyRecord {
            refusal,
            record: record.clone()?,
            mark,
            stage: *stage,
            seen: self.seen,
        })?;
        self.seen.leave_out(record, mark, stage);
        self.ids.leave_out(record, mark, stage)
    }

    /// Counts a row of VOTES that is refused.
    fn count(
        &mut self,
        record: &ByteRecord,
        refusal: Refusal,
        columns: &VoteColumns,
    ) -> Result<(), AllocError> {
        self.rows.refused = self.rows.refused.saturating_add(1);
        let vote = text_at(record, columns.vote);
        self.rows.see(vote.as_bytes());
        match (refusal.fault.kind, refusal.piece, refusal.earlier) {
            (ReadKind::UnknownProject, Some(piece), _) => {
                let (mut is_kept, mut is_none) = (false, true);
                self.rows.has_comma |= vote.contains(',');
                for piece in vote.split(',') {
                    let piece = piece.trim();
                    is_none &= piece.is_empty() || is_nothing(piece);
                    if let Some(place) = self.ids.projects.place(piece) {
                        is_kept = true;
                        self.rows.names_project = true;
                        self.rows.name(place)?;
                    }
                }
                let is_emptied = !is_kept && !is_none;
                self.rows.emptied = self.rows.emptied.saturating_add(u64::from(is_emptied));
                let id = piece_of(vote, piece);
                let mark = Mark::of(record, u64::from(refusal.fault.at));
                self.unknown.take(self.alloc, id, vote, mark)
            }
            (ReadKind::RepeatedVoter, _, Some(place)) => {
                let project = self.ids.projects.place(vote);
                self.rows.repeat(place, vote, project)
            }
            _ => Ok(()),
        }
    }
}

impl Watch for Witness {
    fn see(&mut self, record: &ByteRecord, at: u32, part: Part, _election: &Election) {
        self.take(record, Mark::of(record, u64::from(at)), part);
    }

    fn refuse(&mut self, record: &ByteRecord, refusal: Refusal, stage: &Stage) {
        let counted = match stage {
            Stage::InVotes(columns) => self.count(record, refusal, columns),
            _ => Ok(()),
        };
        self.is_whole &= counted.is_ok();
        if self.refused.len() < MOST_FAULTS && self.keep(record, refusal, stage).is_err() {
            self.is_whole = false;
        }
    }

    fn end(&mut self, election: &Election) {
        self.rows.end(election);
        if self.unknown.votes > 0 && self.rows.name_all(election).is_err() {
            self.is_whole = false;
        }
    }
}
