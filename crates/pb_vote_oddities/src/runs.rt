//! What votes show that follow each other: a form that was not cleared, and a cell that was copied downwards.

use crate::prelude::*;
use pb_oddities::chance::is_no_chance;
use pb_seen::amounts::comes_next;
use pb_seen::changed::has_digit;

/// The fewest rows that go on so, one behind the other.
const FEWEST: u64 = 3;

/// Rows that go on from the row above in one way.
#[derive(Clone, Copy, Default)]
struct Series {
    /// How many there are, and how many at most stand one behind the other.
    all: u64,
    longest: u64,
    /// The first of those just above, measured by how many there are.
    open: Option<Odd>,
    /// The first of all that are enough, measured by how many there are.
    found: Option<Odd>,
}

impl Series {
    /// Takes a row that goes on.
    fn take(&mut self, odd: Odd) {
        let open = odd.behind(self.open);
        self.open = Some(open);
        self.all = self.all.saturating_add(1);
        self.longest = self.longest.max(open.number);
        if open.number >= FEWEST {
            let first = self.found.unwrap_or(open.by(0));
            let more = if open.number == FEWEST { FEWEST } else { 1 };
            self.found = Some(first.by(first.number.saturating_add(more)));
        }
    }

    /// The first that are enough, if the chance is less than one in a thousand that so many stand one behind the other,
    /// where as many of these rows go on by chance as go on elsewhere, or one in so many.
    fn no_chance(self, rows: u64, one_in: u64) -> Option<Odd> {
        let odd = self.found?;
        let elsewhere = self.all.saturating_sub(odd.number);
        let part = if elsewhere.saturating_mul(one_in) < rows {
            (1, one_in)
        } else {
            (elsewhere, rows)
        };
        let is_odd = is_no_chance(rows.saturating_mul(1_000), part, self.longest);
        is_odd.then_some(odd)
    }
}

/// The rows of VOTES that go on from the row above.
#[derive(Drop)]
pub struct Runs {
    /// How many rows there are.
    rows: u64,
    /// The vote above, as long as the votes are in order: then it shows nothing that they go on.
    before: String,
    are_sorted: bool,
    /// Whether the votes are in the order of their projects in the file: then it shows nothing either.
    are_placed: bool,
    /// The votes that have all projects of the vote above, and more; and those in which one id is the next one.
    grown: Series,
    counted: Series,
    /// Whether each of the latter names one project.
    are_single: bool,
}

impl Runs {
    /// No row yet.
    pub fn new(alloc: Global) -> Runs {
        Runs {
            rows: 0,
            before: String::new(alloc),
            are_sorted: true,
            are_placed: true,
            grown: Series::default(),
            counted: Series::default(),
            are_single: true,
        }
    }

    /// Takes a row that is accepted.
    pub fn take(&mut self, row: &Row<'_>) -> Result<(), AllocError> {
        self.rows = self.rows.saturating_add(1);
        if self.are_sorted {
            self.are_sorted = are_in_order(self.before.as_str(), row.value());
            self.before.clear();
            self.before.push_str(row.value())?;
        }
        let (ballot, voters) = (row.ballot(), row.election.voters());
        let above = voters.get(voters.len().saturating_sub(2));
        let before = above.map_or(ballot, |voter| voter.ballot.places());
        self.are_placed = self.are_placed && are_placed_in_order(before, ballot);
        if grows(before, ballot) {
            self.grown.take(row.odd(Oddity::TwiceInVote).in_form(1));
        } else {
            self.grown.open = None;
        }
        if counts_on(before, ballot, row.election) {
            self.are_single &= ballot.len() == 1;
            self.counted.take(row.odd(Oddity::TwiceInVote).in_form(2));
        } else {
            self.counted.open = None;
        }
        Ok(())
    }

    /// Takes the end of the file, which has so many projects. Of votes for one project the next is by chance the next in
    /// number as often as any other.
    pub fn end(&self, projects: usize, found: &mut Oddities) {
        if !self.are_sorted && !self.are_placed {
            let one_in = if self.are_single {
                projects as u64
            } else {
                u64::MAX
            };
            found.take_some(self.grown.no_chance(self.rows, u64::MAX));
            found.take_some(self.counted.no_chance(self.rows, one_in));
        }
    }
}

/// Whether two texts are in order.
fn are_in_order(one: &str, other: &str) -> bool {
    for (byte, next) in one.as_bytes().iter().zip(other.as_bytes()) {
        if byte != next {
            return byte < next;
        }
    }
    one.len() <= other.len()
}

/// Whether two ballots are in order, by the places of their projects.
fn are_placed_in_order(one: &[u32], other: &[u32]) -> bool {
    for (place, next) in one.iter().zip(other) {
        if place != next {
            return place < next;
        }
    }
    one.len() <= other.len()
}

/// Whether a ballot has all projects of the one above, and more.
fn grows(before: &[u32], ballot: &[u32]) -> bool {
    let has = |place: &u32| ballot.binary_search(place).is_ok();
    !before.is_empty() && before.len() < ballot.len() && before.iter().all(has)
}

/// Whether a ballot has one project in place of one above, next to it by its place and by the number in its id.
fn counts_on(before: &[u32], ballot: &[u32], election: &Election) -> bool {
    // Most ballots differ from the one above by their first projects already.
    let may_be = match (before, ballot) {
        ([one, ..], [other, ..]) => *one <= *other && *other <= one.saturating_add(1),
        _ => false,
    };
    if !may_be || before.len() != ballot.len() {
        return false;
    }
    let mut next = None;
    for (one, other) in before.iter().zip(ballot) {
        if one != other {
            if next.is_some() || *other != one.saturating_add(1) {
                return false;
            }
            next = Some(*other);
        }
    }
    let Some(place) = next else {
        return false;
    };
    let id = id_at(election, place);
    has_digit(id) && comes_next(id, id_at(election, place.saturating_sub(1)))
}

/// The id of the project at this place.
fn id_at(election: &Election, place: u32) -> &str {
    let project = election.projects().get(place as usize);
    project.map_or("", |project| project.id())
}
