//! Where each of some ids stood first.

use crate::prelude::*;

/// Ids, each with where it stood first.
#[derive(Drop)]
pub struct Firsts {
    /// The ids, each with its place in `marks`.
    places: IdTable,
    marks: Vec<Mark>,
}

impl Firsts {
    /// No id yet.
    pub fn new(alloc: Global) -> Firsts {
        Firsts {
            places: IdTable::new(alloc),
            marks: Vec::new(alloc),
        }
    }

    /// How many ids are there.
    pub fn len(&self) -> usize {
        self.marks.len()
    }

    /// Whether an id is there.
    pub fn has(&self, id: &str) -> bool {
        self.place(id).is_some()
    }

    /// How many others came before an id, if it is there.
    pub fn place(&self, id: &str) -> Option<u32> {
        self.places.get(id)
    }

    /// Where an id stood first.
    pub fn mark(&self, id: &str) -> Option<Mark> {
        self.marks.get(self.place(id)? as usize).copied()
    }

    /// Where the id stands that came first after this many others.
    pub fn mark_at(&self, place: u32) -> Option<Mark> {
        self.marks.get(place as usize).copied()
    }

    /// Keeps where an id stands, unless it stood before.
    pub fn keep(&mut self, alloc: Global, id: &str, mark: Mark) -> Result<(), AllocError> {
        if self.has(id) {
            return Ok(());
        }
        let place = u32::try_from(self.marks.len()).unwrap_or(u32::MAX);
        self.places.insert(alloc, id, place)?;
        self.marks.push(mark)?;
        Ok(())
    }
}

/// The first id that stands twice among the ids of a vote, which commas separate; the empty text if there is
/// none, or memory is refused.
pub fn twice_in(alloc: Global, vote: &str) -> &str {
    let mut before = IdTable::new(alloc);
    for piece in vote.split(',') {
        let id = piece.trim();
        if !id.is_empty() && !matches!(before.insert(alloc, id, 0), Ok(None)) {
            return id;
        }
    }
    ""
}

/// Whether a text names a project that is none of these, if it names projects alone.
pub fn names_other(text: &str, ballot: &[u32], projects: &Firsts) -> Option<bool> {
    let mut has_other = false;
    for piece in text.split(',') {
        let place = projects.place(piece.trim())?;
        has_other |= ballot.binary_search(&place).is_err();
    }
    Some(has_other)
}
