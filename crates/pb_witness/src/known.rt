//! What is known of a file in which a record was refused.

use crate::cause::{Cause, are_shifted, cause_of};
use crate::elsewhere::elsewhere;
use crate::faulty_record::FaultyRecord;
use crate::prelude::*;
use crate::projects::Projects;
use crate::unknown::{Unknown, Votes};
use crate::voters::{FirstRows, first_rows};
use crate::witness::Witness;
use pb_read::Refusal;
use pb_seen::changed::{has_time, is_nothing, is_shortened};

/// What is found in a file when it is read again.
#[derive(Drop)]
pub struct ReadAgain {
    /// Where the first rows of the voters stand whose ids are repeated.
    voters: FirstRows,
    pub projects: Projects,
    /// Why each id is unknown, in the order of the witness.
    causes: Vec<FoundCause>,
    /// How many votes META says there are.
    claimed: Option<u32>,
    /// If each row names one project, a further column that differs between the rows of a voter.
    pub varying: Option<usize>,
    /// Whether each row with the id of an earlier one is the same as that.
    pub are_copies: bool,
    /// The place of another column of PROJECTS that has all ids that no project has.
    pub elsewhere: Option<usize>,
}

/// Why an id is unknown.
#[derive(Clone, Copy)]
pub struct FoundCause {
    pub cause: Cause,
    /// The place of the project that the cause is about.
    pub project: Option<u32>,
    /// The votes that are refused for this cause.
    pub votes: Votes,
}

/// What is known of a file in which a record was refused.
#[derive(Clone, Copy)]
pub struct Known<'i> {
    pub witness: &'i Witness,
    pub again: &'i ReadAgain,
}

/// Why a row has the id of an earlier one.
#[derive(Clone, Copy, PartialEq, Eq)]
pub enum Repeat {
    /// The file has marks of a merge conflict.
    Conflict,
    /// A spreadsheet shortened the ids.
    Shortened,
    /// The id says that there is none.
    Nothing,
    /// Each row names one project, for all that is known of a voter, or for a person each.
    ByProject,
    Apart,
    /// META counts all rows as votes, or many rows have one id.
    OtherPeople,
    OneId,
    /// The rows are the same.
    Copy,
    /// The rows of a voter have different times.
    Times,
    Unknown,
}

impl Repeat {
    /// How many reasons there are.
    pub const COUNT: usize = 10;

    /// Whether the reason is one for all rows of VOTES, and not for each of them.
    pub fn is_shared(&self) -> bool {
        !matches!(self, Repeat::Copy | Repeat::Times | Repeat::Unknown)
    }
}

impl ReadAgain {
    /// Reads a text again, if it is a file, as far as what was refused asks for it.
    pub fn of<R: Files>(text: &Text<'_, R>, witness: &Witness) -> Result<ReadAgain, AllocError> {
        let projects = Projects::of(text, witness)?;
        let claimed = if witness.rows.voters_repeated > 0 {
            text.number_of("num_votes")
        } else {
            None
        };
        let causes = causes_of(text, witness, &projects)?;
        let voters = first_rows(text, witness)?;
        let are_copies = are_copies(text, &voters, witness);
        let is_by_project = witness.rows.is_by_project();
        let mut refused = witness.refused.iter().filter(|_| is_by_project);
        let varying = refused.find_map(|faulty| varying(text, &voters, faulty));
        Ok(ReadAgain {
            voters,
            projects,
            causes,
            claimed,
            varying,
            are_copies,
            elsewhere: elsewhere(text, witness)?,
        })
    }
}

impl Known<'_> {
    /// Where the earlier row with the same id stands, where the fault is about one.
    pub fn earlier(&self, refusal: &Refusal) -> Option<Mark> {
        let place = refusal.earlier?;
        match refusal.fault.kind {
            ReadKind::RepeatedVoter => self.again.voters.mark(place),
            _ => self.witness.ids.projects.mark_at(place),
        }
    }

    /// Why votes name this id, which no project has.
    pub fn cause_of(&self, id: &str) -> Option<FoundCause> {
        let place = self.witness.unknown.place(id)?;
        self.again.causes.get(place as usize).copied()
    }

    /// How many ids are unknown for this cause.
    pub fn ids_for(&self, cause: Cause) -> usize {
        let causes = self.again.causes.iter();
        causes.filter(|found| found.cause == cause).count()
    }

    /// Why a row has the id of an earlier one.
    pub fn repeat_of<R: Files>(&self, text: &Text<'_, R>, faulty: &FaultyRecord) -> Repeat {
        let rows = &self.witness.rows;
        let is_voter = faulty.kind() == ReadKind::RepeatedVoter;
        if self.witness.refused.iter().any(|other| other.is_conflict()) {
            Repeat::Conflict
        } else if is_shortened(faulty.id()) {
            Repeat::Shortened
        } else if is_nothing(faulty.id()) {
            Repeat::Nothing
        } else if is_voter && rows.is_by_project() {
            let is_apart = rows.name_twice() || rows.begin_anew() || self.again.varying.is_some();
            if is_apart {
                Repeat::Apart
            } else {
                Repeat::ByProject
            }
        } else if is_voter && !self.again.are_copies && self.claims_all() {
            Repeat::OtherPeople
        } else if is_voter && rows.voters_repeated == 1 && rows.rows_repeated > 2 {
            Repeat::OneId
        } else {
            self.beside_earlier(text, faulty)
        }
    }

    /// Whether META says that there are as many votes as rows.
    fn claims_all(&self) -> bool {
        self.again.claimed.map(u64::from) == Some(self.witness.rows.count())
    }

    /// The rows among the first that are refused which repeat a voter's id for this reason.
    pub fn repeated_for<R: Files>(&self, text: &Text<'_, R>, repeat: Repeat) -> Votes {
        let mut votes = Votes::none();
        for faulty in self.witness.refused.as_slice() {
            let is_voter = faulty.kind() == ReadKind::RepeatedVoter;
            if is_voter && self.repeat_of(text, faulty) == repeat {
                votes.take(faulty.mark);
            }
        }
        votes
    }

    /// Why a row has the id of an earlier one, by what stands in both.
    fn beside_earlier<R: Files>(&self, text: &Text<'_, R>, faulty: &FaultyRecord) -> Repeat {
        let mark = self.earlier(&faulty.refusal);
        let Some(earlier) = mark.and_then(|mark| text.row_at(mark)) else {
            return Repeat::Unknown;
        };
        let (row, earlier) = (&faulty.record, &earlier);
        let mut is_same = earlier.len() == row.len();
        let mut has_times = false;
        for place in 0..row.len() {
            let differs = bytes_at(earlier, place) != bytes_at(row, place);
            is_same &= !differs;
            let are_times = has_time(text_at(earlier, place)) && has_time(text_at(row, place));
            has_times |= differs && are_times;
        }
        match faulty.kind() {
            _ if is_same => Repeat::Copy,
            ReadKind::RepeatedVoter if has_times => Repeat::Times,
            _ => Repeat::Unknown,
        }
    }
}

/// Whether each of the first rows that are refused for a voter's repeated id is the same as the first row of the voter.
fn are_copies<R: Files>(text: &Text<'_, R>, voters: &FirstRows, witness: &Witness) -> bool {
    let is_copy = |faulty: &FaultyRecord| {
        let mark = faulty.refusal.earlier.and_then(|place| voters.mark(place));
        let first = mark.and_then(|mark| text.row_at(mark));
        first.is_some_and(|first| first.as_slice() == faulty.record.as_slice()
            && first.len() == faulty.record.len())
    };
    let mut refused = witness.refused.iter();
    refused.all(|faulty| faulty.kind() != ReadKind::RepeatedVoter || is_copy(faulty))
}

/// The place of a further column in which a row differs from the first row of its voter, times aside.
fn varying<R: Files>(
    text: &Text<'_, R>,
    voters: &FirstRows,
    faulty: &FaultyRecord,
) -> Option<usize> {
    let (id, vote) = faulty.places();
    let first = text.row_at(voters.mark(faulty.refusal.earlier?)?)?;
    let differs = |place: usize| {
        let (one, other) = (text_at(&first, place), faulty.at(place));
        one != other && !(has_time(one) && has_time(other))
    };
    let is_voter = faulty.kind() == ReadKind::RepeatedVoter;
    (0..faulty.record.len()).find(|place| {
        is_voter && *place != id && *place != vote && differs(*place)
    })
}

/// Why each id is unknown, with the votes that are refused for the same cause.
fn causes_of<R: Files>(
    text: &Text<'_, R>,
    witness: &Witness,
    projects: &Projects,
) -> Result<Vec<FoundCause>, AllocError> {
    let mut causes: Vec<FoundCause> = Vec::new(text.alloc);
    let ids = witness.unknown.found.as_slice();
    let names = text.row_at(witness.seen.names).filter(|_| !ids.is_empty());
    let has_columns = names.is_some_and(|names| witness.ids.are_columns(&names));
    let (mut has_cause, is_other) = (false, witness.is_of_other_projects());
    let are_shifted = are_shifted(witness, projects);
    for unknown in ids {
        let (mut cause, project) = cause_of(unknown, witness, projects, (has_columns, is_other))?;
        let is_above = projects.are_below(unknown.id.as_str());
        let is_short = unknown.id.len() <= projects.longest.saturating_add(1);
        let is_open = matches!(cause, Cause::Unknown | Cause::Near)
            || (cause == Cause::Together && is_short);
        if are_shifted && is_open && (ids.len() == 1 || is_above) {
            cause = Cause::Shifted;
        }
        has_cause |= !matches!(cause, Cause::OtherElection | Cause::Unknown);
        causes.push(FoundCause {
            cause,
            project,
            votes: unknown.votes,
        })?;
    }
    // What could be of another election has another cause where other ids have one.
    for (found, unknown) in causes.iter_mut().zip(ids) {
        if has_cause && found.cause == Cause::OtherElection {
            found.cause = cause_of(unknown, witness, projects, (has_columns, false))?.0;
        }
    }
    for place in 0..causes.len() {
        let cause = causes.get(place).map(|found| found.cause);
        let votes = votes_of(causes.as_slice(), ids, cause);
        if let Some(found) = causes
            .get_mut(place)
            .filter(|found| found.cause.is_shared())
        {
            found.votes = votes;
        }
    }
    Ok(causes)
}

/// The votes that are refused for this cause.
fn votes_of(causes: &[FoundCause], unknown: &[Unknown], cause: Option<Cause>) -> Votes {
    let mut votes = Votes::none();
    for (found, unknown) in causes.iter().zip(unknown) {
        if Some(found.cause) == cause {
            votes.join(&unknown.votes);
        }
    }
    votes
}
