//! Names of projects in a column of VOTES beside the vote: whether it names the same.

use crate::behind_vote::{OF_VOTES, holds_none};
use crate::prelude::*;
use pb_oddities::column_kinds::OF_VOTERS;
use pb_seen::changed::{has_part, is_one_of, plain};

/// The fewest fields with names by which a column has names, and how many are read for that.
const FEWEST: u64 = 4;

const MANY: u64 = 1_000;

/// What a text says of projects, beside the vote of its row.
#[derive(Clone, Copy)]
pub struct Named {
    /// Whether it names a project that the vote names, and another one, by name or id.
    pub has_own: bool,
    pub has_other: bool,
    /// Whether it is names of projects alone, and where the first of these stands.
    are_names: bool,
    first: Option<u64>,
    is_empty: bool,
}

impl Named {
    /// What this text of a row says; nothing where memory is refused.
    pub fn of(alloc: Global, row: &Row<'_>, text: &str) -> Named {
        let mut named = Named {
            has_own: false,
            has_other: false,
            are_names: true,
            first: None,
            is_empty: text.is_empty(),
        };
        if !named.take_name(alloc, row, text) {
            for piece in text.split(|c: char| ",;|\n".contains(c)) {
                if !named.take_name(alloc, row, piece) {
                    named.take_ids(row, piece);
                }
            }
        }
        named
    }

    /// Takes a text that is the name of a project, and answers whether it is.
    fn take_name(&mut self, alloc: Global, row: &Row<'_>, text: &str) -> bool {
        let name = plain(alloc, text);
        let mark = match &name {
            Ok(name) if !name.is_empty() => row.names.mark(name.as_str()),
            _ => None,
        };
        self.first = self.first.or(mark.map(|mark| mark.at));
        self.take_some(row, mark)
    }

    /// Takes the ids of projects that are words of a text.
    fn take_ids(&mut self, row: &Row<'_>, text: &str) {
        self.are_names = false;
        for word in text.split(|c: char| !c.is_alphanumeric() && c != '-' && c != '_') {
            let _ = self.take_some(row, row.projects.mark(word));
        }
    }

    /// Takes the project whose row begins here, if there is one, and answers whether there is.
    fn take_some(&mut self, row: &Row<'_>, mark: Option<Mark>) -> bool {
        let Some(mark) = mark else {
            return false;
        };
        let is_it = |place: &u32| row
            .projects
            .mark_at(*place)
            .is_some_and(|own| own.at == mark.at);
        let is_own = row.ballot().iter().any(is_it);
        self.has_own |= is_own;
        self.has_other |= !is_own;
        true
    }
}

/// A column beside the vote, as far as it has names of projects.
#[derive(Clone, Copy)]
pub struct Choices {
    /// Whether its name says that it holds votes.
    is_called: bool,
    /// Whether it may hold names of those projects that the vote should name.
    pub is_open: bool,
    /// How many fields have a text, and how many names alone; how many of these the vote names too.
    filled: u64,
    named: u64,
    agree: u64,
    /// The first project that it names, and whether another field begins with another one.
    first: Option<u64>,
    differ: bool,
    /// The first row in which it names a project that the vote does not, measured by how many there are.
    other: Option<Odd>,
}

impl Choices {
    /// Those of a column of this name; none was read.
    pub fn of(name: &str) -> Choices {
        Choices {
            is_called: has_part(OF_VOTES, name),
            is_open: !holds_none(name) && !is_one_of(OF_VOTERS, name),
            filled: 0,
            named: 0,
            agree: 0,
            first: None,
            differ: false,
            other: None,
        }
    }

    /// Takes a row with such a text, which is odd where the vote does not name a project of it. Where projects share a
    /// name, nothing is said.
    pub fn take(&mut self, row: &Row<'_>, named: &Named, odd: Odd) {
        self.is_open &= row.names.len() == row.projects.len();
        if !self.is_open || named.is_empty {
            return;
        }
        self.filled = self.filled.saturating_add(1);
        if named.are_names {
            self.named = self.named.saturating_add(1);
            self.first = self.first.or(named.first);
            self.differ |= self.first != named.first;
            if named.has_other {
                self.other = Some(odd.in_form(4).behind(self.other));
            } else {
                self.agree = self.agree.saturating_add(1);
            }
        }
        self.is_open = self.filled < MANY || self.are_names();
    }

    /// Whether nine in ten of its fields are names.
    fn are_names(&self) -> bool {
        self.named.saturating_mul(10) >= self.filled.saturating_mul(9)
    }

    /// The first row whose vote does not name a project of the column, if these should be the same: a quarter of the
    /// votes names them, or the column's name says that it holds votes.
    pub fn other_than_votes(&self) -> Option<Odd> {
        let are_same = self.is_called || self.agree.saturating_mul(4) >= self.named;
        let is_shown = self.named >= FEWEST && self.differ && self.are_names();
        let limit = Some(self.named);
        let other = self.other.filter(|_| self.is_open && is_shown && are_same)?;
        Some(Odd { limit, ..other })
    }
}
