//! The rows of PROJECTS, read again for what an unknown id may mean.

use crate::prelude::*;
use crate::records::TextRecords;
use crate::witness::Witness;
use pb_seen::amounts::order_of;
use pb_seen::changed::{form_of, has_digit, is_date, is_digits, is_power, plain, with_digits};

/// The place that a text has which several projects share.
const SHARED: u32 = u32::MAX;

/// A project's row.
#[derive(Drop)]
pub struct ProjectIdRow {
    pub id: String,
    pub mark: Mark,
}

/// By what a project is found.
#[derive(Clone, Copy, PartialEq, Eq)]
pub(crate) enum By {
    /// Its id in plain form; the same with digits in place of letters that look like them, and without the
    /// letters before its number.
    Id,
    Digits,
    Number,
    /// Its name in plain form, and a word of it that is an unknown id.
    Name,
    Mention,
    /// The form of its id, exact and not.
    Exact,
    Form,
}

/// The projects that were accepted.
#[derive(Drop)]
pub struct Projects {
    alloc: Global,
    rows: Vec<ProjectIdRow>,
    /// The places of the projects by all of these texts.
    places: IdTable,
    /// The number of bytes of the longest id.
    pub(crate) longest: usize,
    /// The place of the first whose id a spreadsheet seems to have changed.
    pub(crate) changed: Option<u32>,
    /// Whether each id has a digit; whether they differ by their numbers alone, and the greatest of these.
    pub(crate) have_digits: bool,
    pub(crate) are_numbered: bool,
    most: u64,
}

impl Projects {
    /// The projects of a text, if it is a file; none if no vote names an unknown id.
    pub fn of<R: Files>(text: &Text<'_, R>, witness: &Witness) -> Result<Projects, AllocError> {
        let mut projects = Projects {
            alloc: text.alloc,
            rows: Vec::new(text.alloc),
            places: IdTable::new(text.alloc),
            longest: 0,
            changed: None,
            have_digits: true,
            are_numbered: true,
            most: 0,
        };
        if witness.unknown.votes == 0 {
            return Ok(projects);
        }
        if let Some(mut records) = text.record_at(witness.seen.project_names) {
            let taken = projects.take_all(&mut records, witness);
            drop(records);
            taken?;
        }
        Ok(projects)
    }

    /// Takes the rows up to those of VOTES.
    fn take_all<F: Read>(
        &mut self,
        records: &mut TextRecords<F>,
        witness: &Witness,
    ) -> Result<(), AllocError> {
        let id = column_of(&records.last, Column::ProjectId.name()).unwrap_or(0);
        let name = column_of(&records.last, "name").unwrap_or(usize::MAX);
        for _ in records.at.saturating_add(1)..witness.seen.names.at {
            if !records.advance() {
                return Ok(());
            }
            let mark = records.mark();
            let first = witness.ids.projects.mark(text_at(&records.last, id));
            if first.is_some_and(|first| first.at == mark.at) {
                let texts = (text_at(&records.last, id), text_at(&records.last, name));
                self.take(texts, mark, witness)?;
            }
        }
        Ok(())
    }

    /// Takes a project with this id and name.
    fn take(
        &mut self,
        (id, name): (&str, &str),
        mark: Mark,
        witness: &Witness,
    ) -> Result<(), AllocError> {
        let place = u32::try_from(self.rows.len()).unwrap_or(u32::MAX);
        self.longest = self.longest.max(id.len());
        self.have_digits &= has_digit(id);
        self.are_numbered &= self.has_front(order_of(id).0) && has_digit(id);
        self.most = self.most.max(order_of(id).1);
        if (is_date(id, true) || is_power(id)) && !witness.rows.is_named(place) {
            self.changed = self.changed.or(Some(place));
        }
        for by in [By::Id, By::Digits, By::Exact, By::Form] {
            self.note(by, id, place)?;
        }
        let number = id.trim_start_matches(|c: char| !c.is_ascii_digit());
        if number.len() < id.len() && is_digits(number) {
            self.note(By::Number, number, place)?;
        }
        if !name.is_empty() {
            self.note(By::Name, name, place)?;
        }
        // A vote is cut at the commas of a name.
        for part in name.split(',').filter(|part| part.len() < name.len()) {
            self.note(By::Name, part, place)?;
        }
        for word in name.split(|c: char| c.is_whitespace() || "()[],;:/+".contains(c)) {
            if witness.unknown.place(word).is_some() {
                self.note(By::Mention, word, place)?;
            }
        }
        let id = String::from_str(self.alloc, id)?;
        self.rows.push(ProjectIdRow { id, mark })?;
        Ok(())
    }

    /// Keeps the place of a project by a text of it. Of several with one id or name none's is kept.
    fn note(&mut self, by: By, text: &str, place: u32) -> Result<(), AllocError> {
        let key = self.key(by, text)?;
        let is_one = !matches!(by, By::Mention | By::Exact | By::Form);
        let is_shared = is_one && self.places.get(key.as_str()).is_some();
        let place = if is_shared { SHARED } else { place };
        let _ = self.places.insert(self.alloc, key.as_str(), place)?;
        Ok(())
    }

    /// What stands in the table for a text by which a project is found.
    fn key(&self, by: By, text: &str) -> Result<String, AllocError> {
        let alloc = self.alloc;
        let (begin, rest) = match by {
            By::Id => ("id ", plain(alloc, text)?),
            By::Digits => ("digits ", plain(alloc, with_digits(alloc, text)?.as_str())?),
            By::Number => ("number ", plain(alloc, text)?),
            By::Name => ("name ", plain(alloc, text)?),
            By::Mention => ("mention ", String::from_str(alloc, text)?),
            By::Exact => ("exact ", form_of(alloc, text, true)?),
            By::Form => ("form ", form_of(alloc, text, false)?),
        };
        let mut key = String::from_str(alloc, begin)?;
        key.push_str(rest.as_str())?;
        Ok(key)
    }

    /// The place of a project that is found by this; of several with one id or name a place that is none's.
    /// By its number it is found only if the text is digits.
    pub(crate) fn find(&self, by: By, text: &str) -> Result<Option<u32>, AllocError> {
        if by == By::Number && !is_digits(text) {
            return Ok(None);
        }
        Ok(self.places.get(self.key(by, text)?.as_str()))
    }

    /// Whether an id of a project has the form of this one, exactly or nearly.
    pub(crate) fn has_form(&self, id: &str, is_exact: bool) -> Result<bool, AllocError> {
        let by = if is_exact { By::Exact } else { By::Form };
        let is_short = is_exact || id.len() <= self.longest.saturating_add(1);
        Ok(is_short && self.find(by, id)?.is_some())
    }

    /// The project at this place.
    pub fn row(&self, place: u32) -> Option<&ProjectIdRow> {
        self.rows.get(place as usize)
    }

    /// The place of the first project whose id is this one and more, of which the next is no digit; or has it
    /// between signs.
    pub(crate) fn begun(&self, id: &str) -> Option<u32> {
        let is_more = |rest: &str| rest.starts_with(|c: char| !c.is_ascii_digit());
        let place = self.rows.iter().position(|row| {
            let own = row.id.as_str();
            let mut parts = own.split(|c: char| !c.is_alphanumeric());
            own.strip_prefix(id).is_some_and(is_more) || parts.any(|part| part == id)
        })?;
        u32::try_from(place).ok().filter(|_| has_digit(id))
    }

    /// Whether the first id has this text before its number, if there is one.
    fn has_front(&self, front: &str) -> bool {
        let first = self.rows.first();
        first.is_none_or(|first| order_of(first.id.as_str()).0 == front)
    }

    /// Whether an id has a greater number than all of these, if they differ by their numbers alone.
    pub(crate) fn are_below(&self, id: &str) -> bool {
        let (front, number) = order_of(id);
        self.are_numbered && self.has_front(front) && has_digit(id) && number > self.most
    }

    /// Whether an id ends in 0 behind something else.
    pub fn end_in_zero(&self) -> bool {
        self.rows
            .iter()
            .any(|row| row.id.len() > 1 && row.id.ends_with('0'))
    }

    /// Whether no id has this character.
    pub(crate) fn lacks(&self, c: char) -> bool {
        !self.rows.iter().any(|row| row.id.contains(c))
    }
}
