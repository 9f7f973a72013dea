//! Rows of VOTES that belong to another row, by their ids or by where they stand: it is cancelled, or they are the back
//! side or another sheet of its ballot.

use crate::pairs::take_pairs;
use crate::prelude::*;
use pb_oddities::kept::kept_in;
use pb_seen::changed::{has_digit, is_one_of};

/// The fewest letters of a word behind an id, and in how many rows.
const FEWEST_LETTERS: usize = 3;

const FEWEST_WORDS: u64 = 2;

/// Words behind the id of one who votes for another; and behind one whose row may replace the other.
const PROXIES: &str = "proxy|delegate|vollmacht|procuration|delega|delegado";

const CORRECTED: &str =
    "corrected|correction|replaced|replacement|revised|updated|changed|amended|new|second|korrigiert|neu|poprawiony|corrigé|corregido";

/// The forms of a row with the vote of the one that its id names, and with another vote.
const SAME_VOTE: usize = 6;

const OTHER_VOTE: usize = 15;

/// The fewest back sides, and the fewest ballots of several sheets.
const FEWEST_BACKS: u64 = 4;

const FEWEST_SHEETS: u64 = 5;

/// The place of no sheet.
const NONE: u32 = u32::MAX;

/// The rows of VOTES that may belong to another.
#[derive(Drop)]
pub struct Parts {
    alloc: Global,
    /// The rows with a word behind their ids: the place of the voter among all, and the row.
    worded: Vec<(u32, Odd)>,
    /// The first rows without a vote among the first, third and further rows, and among the others, each measured by how
    /// many there are.
    first_blank: Option<Odd>,
    second_blank: Option<Odd>,
}

impl Parts {
    /// No row yet.
    pub fn new(alloc: Global) -> Parts {
        Parts {
            alloc,
            worded: Vec::new(alloc),
            first_blank: None,
            second_blank: None,
        }
    }

    /// Takes a row that is accepted, with an id of these bytes.
    pub fn take(&mut self, row: &Row<'_>, id: &[u8]) -> Result<(), AllocError> {
        let place = row.election.voters().len().saturating_sub(1);
        if row.ballot().is_empty() {
            let odd = row.odd(Oddity::NoteRows).in_form(7);
            if place % 2 == 0 {
                self.first_blank = Some(odd.behind(self.first_blank));
            } else {
                self.second_blank = Some(odd.behind(self.second_blank));
            }
        }
        let may_be = id.last().is_some_and(|byte| !byte.is_ascii_digit());
        if may_be && apart(row.id()).is_some() {
            let place = u32::try_from(place).unwrap_or(u32::MAX);
            self.worded.push((place, row.odd(Oddity::NoteRows)))?;
        }
        Ok(())
    }

    /// Takes the end of the file, whose accepted rows give this election, and the first of which is odd so.
    pub fn end(
        &self,
        election: &Election,
        first: Option<Odd>,
        found: &mut Oddities,
    ) -> Result<(), AllocError> {
        found.take_some(self.backs(election.voters().len() as u64));
        if self.worded.len() as u64 >= FEWEST_WORDS {
            self.take_worded(election, found)?;
        }
        if let (Some(odd), Some(sheets)) = (first, sheets(self.alloc, election)?) {
            found.take(odd.as_a(Oddity::HiddenCharacter).in_form(2).by(sheets));
        }
        match first {
            Some(odd) => take_pairs(self.alloc, election, odd, found),
            None => Ok(()),
        }
    }

    /// The first of the rows that may be back sides: each second row has no vote, and most others have one.
    fn backs(&self, voters: u64) -> Option<Odd> {
        let firsts = voters.saturating_add(1) / 2;
        let seconds = voters / 2;
        let (one, other) = (self.first_blank, self.second_blank);
        let (ones, others) = (
            one.map_or(0, |odd| odd.number),
            other.map_or(0, |odd| odd.number),
        );
        if others == seconds && others >= FEWEST_BACKS && ones.saturating_mul(4) <= firsts {
            other
        } else if ones == firsts && ones >= FEWEST_BACKS && others.saturating_mul(4) <= seconds {
            one
        } else {
            None
        }
    }

    /// Takes the rows that have another voter's id with a word behind it, once a word: if all of them have the other one's
    /// vote, they may cancel it; if the word says so, they may replace it.
    fn take_worded(&self, election: &Election, found: &mut Oddities) -> Result<(), AllocError> {
        let voters = election.voters();
        let places = places_of(self.alloc, election)?;
        let mut words = IdTable::new(self.alloc);
        let mut firsts: Vec<(Odd, bool)> = Vec::new(self.alloc);
        for (place, odd) in &self.worded {
            let Some(voter) = voters.get(*place as usize) else {
                continue;
            };
            let (own, word) = apart(voter.id.text()).unwrap_or(("", ""));
            let is_corrected = is_one_of(CORRECTED, word);
            let Some(other) = voters.get(places.get(own).unwrap_or(NONE) as usize) else {
                continue;
            };
            let ballot = voter.ballot.places();
            let is_same = are_same(ballot, other.ballot.places());
            let is_told = !ballot.is_empty() && (is_same || is_corrected);
            let form = if is_same { SAME_VOTE } else { OTHER_VOTE };
            let odd = odd.in_form(form);
            let next = u32::try_from(firsts.len()).unwrap_or(NONE);
            let before = kept_in(&mut words, self.alloc, word, next)?;
            if before.is_none() {
                firsts.push((odd.behind(None), is_told))?;
            } else if let Some(first) = firsts.get_mut(before.unwrap_or(NONE) as usize) {
                let form = first.0.form.max(form);
                let odd = odd.behind(Some(first.0)).in_form(form);
                *first = (odd, first.1 && is_told);
            }
        }
        for (odd, are_all) in &firsts {
            if *are_all && odd.number >= FEWEST_WORDS {
                found.take(*odd);
            }
        }
        drop(firsts);
        drop(places);
        drop(words);
        Ok(())
    }
}

/// The place of each voter, by the id.
fn places_of(alloc: Global, election: &Election) -> Result<IdTable, AllocError> {
    let mut places = IdTable::new(alloc);
    for (place, voter) in election.voters().iter().enumerate() {
        let place = u32::try_from(place).unwrap_or(u32::MAX);
        let _ = places.insert(alloc, voter.id.text(), place)?;
    }
    Ok(places)
}

/// Whether two ballots approve the same projects.
pub fn are_same(one: &[u32], other: &[u32]) -> bool {
    one.len() == other.len() && one.iter().zip(other).all(|(one, other)| one == other)
}

/// An id that stands before a sign and a word, and this word.
fn apart(id: &str) -> Option<(&str, &str)> {
    let bare = id.strip_suffix(")").unwrap_or(id);
    let front = bare.trim_end_matches(|c: char| c.is_alphabetic());
    let word = bare.strip_prefix(front)?;
    let own = front.trim_end_matches(|c: char| "-_ /.(".contains(c));
    let is_own = !own.is_empty() && own.len() < front.len() && !own.contains('@');
    let is_word = word.len() >= FEWEST_LETTERS && !is_one_of(PROXIES, word);
    (is_own && is_word).then_some((own, word))
}

/// What stands before a sign and one letter or digit at the end of an id, and these.
pub fn sheet_of(id: &str) -> Option<(&str, &str)> {
    let end = id.len().checked_sub(2)?;
    let (sign, last) = (id.as_bytes().get(end)?, id.as_bytes().last()?);
    if sign.is_ascii_alphanumeric() || !last.is_ascii_alphanumeric() {
        return None;
    }
    let (stem, sheet) = (id.get(..end)?, id.get(end..)?);
    has_digit(stem).then_some((stem, sheet))
}

/// How many ballots there are if each voter's id ends in the number of a sheet: each ballot has all sheets, two or more, and no
/// project is named on two of them, but two or more on each. As one block for each end the rows may be of wards.
fn sheets(alloc: Global, election: &Election) -> Result<Option<u64>, AllocError> {
    let (mut stems, mut ends) = (IdTable::new(alloc), IdTable::new(alloc));
    let (mut ballots, mut kinds, mut blocks, mut above) = (0u64, 0u32, 0u32, NONE);
    let mut owners = Vec::new(alloc);
    owners.resize(election.projects().len(), NONE)?;
    let mut are_sheets = true;
    for voter in election.voters() {
        let Some((stem, end)) = sheet_of(voter.id.text()) else {
            are_sheets = false;
            break;
        };
        let is_new = stems.insert(alloc, stem, 0)?.is_none();
        ballots = ballots.saturating_add(u64::from(is_new));
        let sheet = kept_in(&mut ends, alloc, end, kinds)?;
        kinds = kinds.saturating_add(u32::from(sheet.is_none()));
        let sheet = sheet.unwrap_or(kinds.saturating_sub(1));
        blocks = blocks.saturating_add(u32::from(sheet != above));
        above = sheet;
        are_sheets &= are_of(sheet, voter.ballot.places(), &mut owners);
        if !are_sheets {
            break;
        }
    }
    let all = ballots.saturating_mul(u64::from(kinds));
    let are_all = are_sheets && all == election.voters().len() as u64 && kinds > 1;
    let has_two = |sheet: u32| owners.iter().filter(|owner| **owner == sheet).count() > 1;
    let are_named = are_all && blocks > kinds && (0..kinds).all(has_two);
    drop(owners);
    Ok((are_named && ballots >= FEWEST_SHEETS).then_some(ballots))
}

/// Whether all these projects are of this sheet, as far as another was not named before: then they are of it.
fn are_of(sheet: u32, ballot: &[u32], owners: &mut Vec<u32>) -> bool {
    for place in ballot {
        if let Some(owner) = owners.get_mut(*place as usize) {
            if *owner != NONE && *owner != sheet {
                return false;
            }
            *owner = sheet;
        }
    }
    true
}
