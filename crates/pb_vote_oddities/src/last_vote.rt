//! The last row of VOTES where it has a vote: whether it may be a total or a note, and whether the file may
//! be cut off in it.

use crate::prelude::*;
use pb_oddities::totals::has_total;
use pb_read::MetaKey;
use pb_seen::amounts::whole_number;
use pb_seen::changed::has_digit;

/// The fewest voters above a row that is no voter.
const FEWEST: usize = 2;

/// The fewest votes that are cut at a length, and how long these are at least, in bytes.
const FEWEST_CUT: u64 = 3;

const SHORTEST_CUT: usize = 8;

/// What is known of the last row of VOTES so far.
#[derive(Clone, Copy, Default)]
pub struct LastVote {
    /// Whether there is one.
    is_there: bool,
    /// Whether it has a text beside its id and its vote, and whether the first row has one.
    has_more: bool,
    first_has_more: bool,
    /// Whether it ends behind a comma.
    is_cut: bool,
    /// The first vote that does, measured by how many do; how long, in bytes, the last of these is, and the longest vote.
    open: Option<Odd>,
    open_length: usize,
    longest: usize,
    /// Whether these differ in length, or one names as many projects as it may; and whether a vote ends in an id.
    are_whole: bool,
    has_end: bool,
}

impl LastVote {
    /// Takes the next row.
    pub fn take(&mut self, row: &Row<'_>, (id, vote): (&[u8], &[u8])) {
        self.has_more = row.record.as_slice().len() > id.len().saturating_add(vote.len());
        self.first_has_more |= !self.is_there && self.has_more;
        self.is_there = true;
        let is_end = row.places().1.saturating_add(1) == row.record.len();
        let is_open = vote.last() == Some(&b',');
        self.is_cut = is_open && is_end;
        self.longest = self.longest.max(vote.len());
        if is_open {
            self.take_open(row, vote.len());
        } else {
            self.has_end |= !vote.is_empty();
        }
    }

    /// Takes a row whose vote is so long, and ends behind a comma.
    fn take_open(&mut self, row: &Row<'_>, length: usize) {
        let most = row.election.max_length().unwrap_or(u32::MAX);
        let is_full = row.ballot().len() as u64 >= u64::from(most);
        self.are_whole |= is_full || (self.open.is_some() && self.open_length != length);
        self.open_length = length;
        let odd = row.odd(Oddity::VotesMissing).in_form(8);
        self.open = Some(odd.behind(self.open));
    }

    /// The first of a few votes that end behind a comma, where all of these are as long as the longest vote.
    fn cut(&self) -> Option<Odd> {
        let is_longest = self.open_length >= self.longest.max(SHORTEST_CUT);
        let are_cut = is_longest && self.has_end && !self.are_whole;
        self.open.filter(|odd| are_cut && odd.number >= FEWEST_CUT)
    }

    /// Takes the end of the file, whose accepted rows give this election; the last may be odd.
    pub fn end(&self, election: &Election, odd: Option<Odd>, found: &mut Oddities) {
        let Some(odd) = odd else {
            return;
        };
        if self.is_cut && self.open.is_some_and(|odd| odd.number == 1) {
            found.take(odd.as_a(Oddity::VotesMissing).in_form(3));
        }
        found.take_some(self.cut());
        if !found.has_number && is_end_of_sheet(odd.mark.line) {
            found.take(odd.as_a(Oddity::VotesMissing).in_form(4));
        }
        if self.is_note(election) {
            found.take(odd.as_a(Oddity::FooterRow).in_form(3));
        }
    }

    /// Whether the last row has a vote and is probably no voter: its id is unlike those above, and it has a
    /// word for a total, or its vote is the number of voters or projects, or its other fields are empty.
    fn is_note(&self, election: &Election) -> bool {
        let Some((last, above)) = election.voters().split_last() else {
            return false;
        };
        let id = last.id.text();
        let (is_total, is_spaced, is_word) = (has_total(id), has_space(id), !has_digit(id));
        let may_be = !id.is_empty()
            && MetaKey::of(id).is_none()
            && (is_total || is_spaced || is_word);
        if above.len() < FEWEST || last.ballot.places().is_empty() || !may_be {
            return false;
        }
        let (mut has_totals, mut has_spaces, mut has_words) = (false, false, false);
        for voter in above {
            let other = voter.id.text();
            has_totals |= is_total && has_total(other);
            has_spaces |= has_space(other);
            has_words |= !has_digit(other);
        }
        let is_number = is_number_of(election, last.ballot.places(), above.len());
        let is_bare = self.first_has_more && !self.has_more;
        let is_unlike = is_spaced && !has_spaces && (is_number || is_bare);
        (is_total && !has_totals) || is_unlike || (is_word && !has_words && is_number)
    }
}

/// Whether a spreadsheet's sheet ends on this line, or on the next one.
fn is_end_of_sheet(line: u64) -> bool {
    matches!(line, 65_535 | 65_536 | 1_048_575 | 1_048_576)
}

/// Whether a vote names one project alone, by the number of the voters above it or of all projects.
fn is_number_of(election: &Election, vote: &[u32], above: usize) -> bool {
    let projects = election.projects();
    let number = match vote {
        [place] => projects
            .get(*place as usize)
            .and_then(|project| whole_number(project.id())),
        _ => None,
    };
    number.is_some_and(|number| number == above as u64 || number == projects.len() as u64)
}

/// Whether a text has white space in it.
pub fn has_space(text: &str) -> bool {
    text.contains(|c: char| c.is_whitespace())
}
