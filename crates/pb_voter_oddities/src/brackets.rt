//! Voters' ids in brackets, where others have none: by brackets somebody may have struck rows out.

use crate::prelude::*;

/// The fewest of them.
const FEWEST: u64 = 2;

/// The ids in brackets.
#[derive(Clone, Copy, Default)]
pub struct Brackets {
    /// The first row with one, measured by how many there are.
    first: Option<Odd>,
}

impl Brackets {
    /// Takes a row with an id of these bytes.
    pub fn take(&mut self, row: &Row<'_>, id: &[u8]) {
        if is_in_brackets(id) {
            let odd = row.odd(Oddity::NoteRows).in_form(10);
            self.first = Some(odd.at(odd.id_place).behind(self.first));
        }
    }

    /// The first row with an id in brackets, if there are two or more, at most half of all, and no other id has a bracket.
    pub fn odd(&self, election: &Election) -> Option<Odd> {
        let voters = election.voters();
        let is_few = |odd: &Odd| {
            odd.number >= FEWEST && odd.number.saturating_mul(2) <= voters.len() as u64
        };
        let odd = self.first.filter(is_few)?;
        let has_none = |id: &str| is_in_brackets(id.as_bytes()) || !id.contains(is_bracket);
        voters
            .iter()
            .all(|voter| has_none(voter.id.text()))
            .then_some(odd)
    }
}

/// Whether bytes stand in brackets.
fn is_in_brackets(id: &[u8]) -> bool {
    let are_pair = matches!(
        (id.first(), id.last()),
        (Some(b'('), Some(b')'))
            | (Some(b'['), Some(b']'))
            | (Some(b'{'), Some(b'}'))
            | (Some(b'<'), Some(b'>'))
    );
    are_pair && id.len() > 2
}

/// Whether a character is a bracket.
fn is_bracket(c: char) -> bool {
    "()[]{}".contains(c)
}
