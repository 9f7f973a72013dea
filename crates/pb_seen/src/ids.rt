//! The ids of a file's projects, as far as a witness was shown them.

use crate::changed::{last_word, plain};
use crate::fields::has_lines;
use crate::prelude::*;
use crate::swallowed::{later_lines, name_with_id};

/// The ids of projects, each with where its first row stands.
#[derive(Drop)]
pub struct Ids {
    alloc: Global,
    pub projects: Firsts,
    /// Their names, in plain form, and the place of the column that has them.
    pub names: Firsts,
    name: Option<usize>,
    /// The last column name and the first id, if the first row stands behind the column names.
    behind_names: String,
    /// The projects that were left out.
    pub left_out: Firsts,
    /// The ids of rows that a quotation mark swallowed, each with where the row begins that has them in a
    /// field.
    pub swallowed: Firsts,
    /// The pieces of ids that have a comma.
    pub pieces: Firsts,
}

impl Ids {
    /// No id yet.
    pub fn new(alloc: Global) -> Ids {
        Ids {
            alloc,
            projects: Firsts::new(alloc),
            names: Firsts::new(alloc),
            name: None,
            behind_names: String::new(alloc),
            left_out: Firsts::new(alloc),
            swallowed: Firsts::new(alloc),
            pieces: Firsts::new(alloc),
        }
    }

    /// Keeps the id of a project that the reader accepts.
    pub fn take(&mut self, record: &ByteRecord, mark: Mark, part: Part) -> Result<(), AllocError> {
        match part {
            Part::Names(Section::Projects) => {
                self.name = column_of(record, "name");
                self.behind_names
                    .push_str(name_with_id(record, &self.projects))
            }
            Part::Project(columns) => {
                self.keep_swallowed(record, mark)?;
                let name = plain(self.alloc, text_at(record, self.name.unwrap_or(usize::MAX)))?;
                self.names.keep(self.alloc, name.as_str(), mark)?;
                self.keep_project(text_at(record, columns.id), mark)
            }
            _ => Ok(()),
        }
    }

    /// Keeps the first fields of rows that stand in a field of this one.
    fn keep_swallowed(&mut self, record: &ByteRecord, mark: Mark) -> Result<(), AllocError> {
        if !has_lines(record) {
            return Ok(());
        }
        for place in 0..record.len() {
            for line in later_lines(record, place).split('\n') {
                if let Some((id, _)) = line.split_once(';') {
                    self.swallowed.keep(self.alloc, id.trim(), mark)?;
                }
            }
        }
        Ok(())
    }

    /// Keeps the id of a project that is left out, and those of the rows in it.
    pub fn leave_out(
        &mut self,
        record: &ByteRecord,
        mark: Mark,
        stage: &Stage,
    ) -> Result<(), AllocError> {
        match stage {
            Stage::InProjects(columns) => {
                self.keep_swallowed(record, mark)?;
                if let Some((id, _)) = raw_text(record, 0).split_once(';') {
                    self.swallowed.keep(self.alloc, id.trim(), mark)?;
                }
                if let Some((id, _)) = raw_text(record, 0).split_once('\t') {
                    self.left_out.keep(self.alloc, id.trim(), mark)?;
                }
                self.left_out
                    .keep(self.alloc, text_at(record, columns.id), mark)
            }
            _ => Ok(()),
        }
    }

    /// Whether an id is that of a row which stands behind the column names.
    pub fn are_behind_names(&self, id: &str) -> bool {
        !id.is_empty() && self.behind_names.as_str().ends_with(id)
    }

    fn keep_project(&mut self, id: &str, mark: Mark) -> Result<(), AllocError> {
        self.projects.keep(self.alloc, id, mark)?;
        if id.contains(',') {
            for piece in id.split(',') {
                self.pieces.keep(self.alloc, piece.trim(), mark)?;
            }
        }
        Ok(())
    }

    /// Whether a text names projects alone.
    pub fn are_all(&self, vote: &str) -> bool {
        vote.split(',').all(|piece| piece.trim().is_empty() || self.projects.has(piece.trim()))
    }

    /// Whether a piece of a text names a project.
    pub fn have_one(&self, vote: &str) -> bool {
        vote.split(',').any(|piece| self.projects.has(piece.trim()))
    }

    /// Whether column names are ids of several projects, or end in them.
    pub fn are_columns(&self, names: &ByteRecord) -> bool {
        let has = |name: &str| self.projects.has(name) || self.projects.has(last_word(name));
        let is_id = |place: &usize| has(text_at(names, *place));
        (0..names.len()).filter(is_id).count() > 1
    }

    /// Whether a piece of a vote is ids of projects that this character separates; a blank stands for all
    /// white space.
    pub fn are_apart_by(&self, piece: &str, mark: char) -> bool {
        let mut count = 0u64;
        for id in piece.split(|c: char| c == mark || (mark == ' ' && c.is_whitespace())) {
            let id = id.trim();
            if id.is_empty() {
                continue;
            }
            if !self.projects.has(id) {
                return false;
            }
            count = count.saturating_add(1);
        }
        count > 1
    }
}
