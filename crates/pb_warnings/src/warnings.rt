//! Warnings of what is accepted in a .pb file, and probably not meant.

ghost use Rattle.std.specs.Prelude.{◌≡◌, Option};

use crate::prelude::*;
use crate::vote_oddities::VoteOddities;
use pb_core::no_memory::NoMemory;
use pb_oddities::columns::places_of;
use pb_project_oddities::meta_oddities::MetaOddities;
use pb_project_oddities::project_oddities::ProjectOddities;
use pb_read::{Compare, Heed, MetaKey, Refusal, Warn, Warning, WarningRow, Watch};
use pb_seen::swallowed::swallows_row;
use pb_witness::witness::Witness;

/// Looks on while a file is read, and collects warnings: all of them for a check, and what can change the
/// result for a count.
#[derive(Drop)]
pub struct Warnings {
    alloc: Global,
    found: Oddities,
    meta: MetaOddities,
    projects: Option<ProjectOddities>,
    votes: Option<VoteOddities>,
    /// How many rows VOTES and PROJECTS have, those that are left out too.
    rows: (u64, u64),
    /// Whether a record was refused: then what the file claims of the result is not compared.
    has_fault: bool,
    /// Whether the file has ended, and may end there.
    has_ended: bool,
    /// Whether a warning refuses the file of a count.
    is_strict: bool,
    /// The first warning, once the file has ended and may end there.
    first: Option<Warning>,
    /// What words need of what is refused.
    pub witness: Witness,
}

impl Warnings {
    /// For a check. Nothing was seen yet.
    pub fn of_check(alloc: Global) -> Warnings {
        Warnings::new(alloc, Oddities::of_check(alloc), false)
    }

    /// For a count. Nothing was seen yet; where it is strict a warning refuses the file.
    pub fn of_count(alloc: Global, is_strict: bool) -> Warnings {
        Warnings::new(alloc, Oddities::of_count(alloc), is_strict)
    }

    fn new(alloc: Global, found: Oddities, is_strict: bool) -> Warnings {
        Warnings {
            alloc,
            found,
            meta: MetaOddities::new(alloc),
            projects: None,
            votes: None,
            rows: (0, 0),
            has_fault: false,
            has_ended: false,
            is_strict,
            first: None,
            witness: Witness::new(alloc),
        }
    }

    /// What was found, once the file has ended and may end there, where anything was, or a text that no count
    /// reads.
    pub fn found(&self) -> Option<&Oddities> {
        let is_some = self.first.is_some() || !self.found.unread.is_empty();
        (self.has_ended && is_some).then_some(&self.found)
    }

    /// The rule that META names and where, once the file has ended and may end there.
    pub fn rule(&self) -> Option<(&str, Mark)> {
        self.meta.rule().filter(|_| self.has_ended)
    }

    /// Counts a row of VOTES or of PROJECTS.
    fn count(&mut self, is_vote: bool, is_project: bool) {
        self.rows.0 = self.rows.0.saturating_add(u64::from(is_vote));
        self.rows.1 = self.rows.1.saturating_add(u64::from(is_project));
    }

    /// Takes a record that is accepted.
    fn take(
        &mut self,
        row: &ByteRecord,
        mark: Mark,
        part: Part,
        election: &Election,
    ) -> Result<(), AllocError> {
        let names = self.names_of(part);
        let found = &mut self.found;
        if swallows_row(row, part, names, &self.witness.ids.projects) {
            found.take(Odd::of_row(Oddity::SwallowedRows, mark, part));
        }
        match part {
            Part::Other | Part::Head(_) => Ok(()),
            Part::Names(section) => self.take_names(row, mark, section, election),
            Part::Key => self.meta.take(row, mark, &self.witness.seen.keys, found),
            Part::Project(_) | Part::Vote(_) => {
                let row = Row {
                    record: row,
                    mark,
                    part,
                    election,
                    projects: &self.witness.ids.projects,
                    names: &self.witness.ids.names,
                    limits: &self.meta.limits,
                    district: self.meta.district.as_str(),
                    currency: self.meta.currency.as_str(),
                    ballot: last_ballot(election),
                };
                match (part, &mut self.projects, &mut self.votes) {
                    (Part::Project(_), Some(projects), _) => projects.take(&row, found),
                    (Part::Vote(_), _, Some(votes)) => votes.take(&row, found),
                    _ => Ok(()),
                }
            }
        }
    }

    /// How many column names the section of a row has; 0 where it has none that count.
    fn names_of(&self, part: Part) -> usize {
        match (part, &self.projects, &self.votes) {
            (Part::Project(_), Some(projects), _) => projects.names,
            (Part::Vote(_), _, Some(votes)) => votes.names,
            _ => 0,
        }
    }

    /// Takes a section's row of column names. After META its budget is known.
    fn take_names(
        &mut self,
        names: &ByteRecord,
        mark: Mark,
        section: Section,
        election: &Election,
    ) -> Result<(), AllocError> {
        let found = &mut self.found;
        match section {
            Section::Meta => {
                self.meta.take_names(names);
                if MetaKey::of(text_at(names, 0)).is_some() {
                    found.take(Odd::of_key(Oddity::SwallowedRows, mark).in_form(1));
                }
            }
            Section::Projects => {
                self.meta.end_meta(found);
                take_repeated(names, mark, [Column::ProjectId, Column::Cost], found);
                let fewest = self.meta.fewest;
                let ids = &self.witness.ids.projects;
                self.projects = Some(ProjectOddities::of(self.alloc, names, mark, fewest, ids)?);
            }
            Section::Votes => {
                if let Some(projects) = &self.projects {
                    projects.end_rows(election, found)?;
                }
                take_repeated(names, mark, [Column::VoterId, Column::Vote], found);
                let projects = &self.witness.ids.projects;
                self.votes = Some(VoteOddities::of(self.alloc, names, mark, projects)?);
            }
        }
        Ok(())
    }

    /// Takes the end of the file, whose accepted rows give this election.
    fn take_end(&mut self, election: &Election) -> Result<(), AllocError> {
        let found = &mut self.found;
        found.has_no_votes = self.rows.0 == 0;
        found.refuses_votes = self.witness.rows.refused > 0;
        found.voters = election.voters().len() as u64;
        if let Some(projects) = &self.projects {
            let has_districts = projects.has_districts();
            self.meta.end(election, self.rows, has_districts, found)?;
            let ids = &self.witness.ids.projects;
            projects.end(election, self.has_fault, ids, found)?;
        }
        match &mut self.votes {
            Some(votes) => {
                let witness = &self.witness;
                votes.end(election, (&witness.rows, &witness.ids.projects), found)
            }
            None => Ok(()),
        }
    }
}

/// The places of the projects that the last ballot approves.
fn last_ballot(election: &Election) -> &[u32] {
    match election.voters().last() {
        Some(voter) => voter.ballot.places(),
        None => &[],
    }
}

/// Takes a row of column names, which is odd for each of these that stands in it twice.
fn take_repeated(row: &ByteRecord, mark: Mark, needed: [Column; 2], found: &mut Oddities) {
    let (_, ids) = places_of(row, needed[0]);
    let (_, others) = places_of(row, needed[1]);
    let are_beside = needed[0] == Column::VoterId && ids > 1 && others > 1;
    for column in needed {
        let (last, count) = places_of(row, column);
        if count > 1 {
            let odd = Odd::of_column(Oddity::RepeatedColumn, mark, last).by(count);
            found.take(odd.in_form(usize::from(are_beside)));
        }
    }
}

impl Watch for Warnings {
    fn see(&mut self, record: &ByteRecord, at: u32, part: Part, election: &Election) {
        let mark = Mark::of(record, u64::from(at));
        self.count(
            matches!(part, Part::Vote(_)),
            matches!(part, Part::Project(_)),
        );
        if self.take(record, mark, part, election).is_err() {
            self.found.fail();
        }
        self.witness.take(record, mark, part);
    }

    fn refuse(&mut self, record: &ByteRecord, refusal: Refusal, stage: &Stage) {
        self.has_fault = true;
        self.witness.refuse(record, refusal, stage);
        self.count(
            matches!(stage, Stage::InVotes(_)),
            matches!(stage, Stage::InProjects(_)),
        );
    }

    fn end(&mut self, election: &Election) {
        self.witness.end(election);
        if self.take_end(election).is_err() {
            self.found.fail();
        }
        self.has_ended = true;
        self.first = self.found.first();
    }
}

impl Warn for Warnings {
    ghost use Rattle.std.specs.Prelude.{⊤};

    ghost warns = { λ _ _. ⊤ };

    fn warnings(&mut self) -> Result<Vec<WarningRow>, NoMemory> {
        if self.has_ended {
            self.found.rows()
        } else {
            Ok(Vec::new(self.alloc))
        }
    }
}

impl Compare for Warnings {
    ghost use Rattle.std.specs.Prelude.{⊤};

    ghost has_compared = { λ _ _. ⊤ };

    fn warnings_beside(&mut self, winners: &[u32]) -> Result<Vec<WarningRow>, NoMemory> {
        if let Some(projects) = &mut self.projects {
            projects.compare(winners, &mut self.found);
        }
        self.first = self.found.first();
        self.warnings()
    }
}

impl Heed for Warnings {
    ghost use Rattle.std.specs.Prelude.{None, if◌then◌else◌};

    ghost refused_for = { λ warnings. if warnings.is_strict then warnings.first else None };

    fn refusal(&self) -> Option<Warning> {
        if self.is_strict { self.first } else { None }
    }
}
