//! What is odd in PROJECTS.

use crate::approvals::Approvals;
use crate::begun::take_begun;
use crate::carried_forward::ProjectsAbove;
use crate::prelude::*;
use crate::sums::{largest_in_thousands, may_be_sum, sum_of_costs};
use crate::twins::Twins;
use crate::value_columns::ValueColumns;
use crate::withdrawn::says_withdrawn;
use pb_oddities::columns::FurtherColumns;
use pb_oddities::entities::take_entity;
use pb_oddities::names_row::NamesRow;
use pb_oddities::totals::has_total;
use pb_oddities::unread::Unread;
use pb_seen::amounts::{has_decimals, has_thousands_mark, whole_number};
use pb_seen::changed::{begins, has_digit, is_digits, is_one_of, is_power};
use pb_seen::fields::{has_byte, has_lines};
use pb_seen::firsts::names_other;

/// The fewest projects above a last one that is their sum by its cost alone.
const MANY: usize = 4;

/// The fewest costs that count on, from this one on, in hundredths, and of how many projects they are one at least.
const FEWEST_COUNTED: u64 = 3;

const LEAST_COUNTED: u64 = 10_000;

const PART_COUNTED: u64 = 25;

/// The fewest voters of whom somebody should approve a project.
const FEWEST_VOTERS: usize = 3;

/// What columns are called that name a part of the city.
const DISTRICTS: &str = "district|subdistrict|neighborhood|subunit";

/// What columns are called that say where a project is.
const PLACES: &str =
    "street|address|location|place|site|ulica|adres|lokalizacja|strasse|straße|adresse|standort|ort|rue|lieu|calle|direccion|\
    dirección|ubicacion|ubicación|via|indirizzo|luogo|misto|místo|lokalita";

/// What the name of an answer is that stands for no project, or how it begins.
const NO_PROJECT: &str =
    "none|nothing|no project|abstain|abstention|blank|keines|keiner|enthaltung|żaden|żadne|zaden|aucun|ninguno|\
    nessuno|žádný";

const NO_PROJECTS: &str = "none of |against all|neither of ";

/// What the name of an answer is that stands for all projects.
const ALL_PROJECTS: &str =
    "all|all of the above|all of these|all projects|every project|alle|alle projekte|alle genannten|wszystkie|wszystkie projekty|\
    wszystkie powyższe|tous|tous les projets|todos|todas|todos los proyectos|tutti|tutti i progetti|všechny|všechny projekty";

/// What the name of a test is, or how it begins.
const TESTS: &str =
    "test|testing|test project|testprojekt|dummy|dummy project|placeholder|sample project|example project|xxx|tbd";

const OF_TESTS: &str =
    "test project |asdf|qwerty|lorem ipsum|do not publish|do not count|delete me";

/// What is kept of a project.
#[derive(Clone, Copy)]
struct CheckedProject {
    /// Its row, as one that may be odd.
    odd: Odd,
    /// What it says in the columns `votes` and `selected`: nothing, a whole number, or something else.
    votes: Option<Option<u64>>,
    selected: Option<Option<u64>>,
    /// Whether its id or its name says that it is a total.
    is_total: bool,
    /// Whether the count elects or adds it with which `selected` is compared.
    is_winner: bool,
}

/// What is odd in PROJECTS, as its rows are read.
#[derive(Drop)]
pub struct ProjectOddities {
    alloc: Global,
    /// How many column names there are, and where their row begins.
    pub names: usize,
    header: Mark,
    first_row: NamesRow,
    /// The places of the columns with names, and of those that claim a result.
    name: Option<usize>,
    votes: Option<usize>,
    selected: Option<usize>,
    /// The first column that names a part of the city, and the first that says where a project is.
    district: Option<usize>,
    place: Option<usize>,
    /// The fewest ballots that have to approve a project, where META says so.
    fewest: Option<u64>,
    twins: Twins,
    further: FurtherColumns,
    values: ValueColumns,
    unread: Unread,
    /// The first project whose name says that it is withdrawn, measured by how many there are.
    withdrawn: Option<Odd>,
    /// The same of those whose name alone is that of an answer for none: several have no name.
    none: Option<Odd>,
    accepted: Vec<CheckedProject>,
}

impl ProjectOddities {
    /// Nothing was read yet but the row of column names, which begins here.
    pub fn of(
        alloc: Global,
        names: &ByteRecord,
        header: Mark,
        fewest: Option<u64>,
        projects: &Firsts,
    ) -> Result<ProjectOddities, AllocError> {
        let is_of_district = |place: &usize| is_one_of(DISTRICTS, text_at(names, *place));
        let is_of_place = |place: &usize| is_one_of(PLACES, text_at(names, *place));
        Ok(ProjectOddities {
            alloc,
            names: names.len(),
            header,
            first_row: NamesRow::of(names, header, Section::Projects, projects),
            name: column_of(names, "name"),
            votes: column_of(names, "votes"),
            selected: column_of(names, "selected"),
            district: (0..names.len()).find(is_of_district),
            place: (0..names.len()).find(is_of_place),
            fewest,
            twins: Twins::new(alloc),
            further: FurtherColumns::of(alloc, names, header, Section::Projects)?,
            values: ValueColumns::of(alloc, names, header)?,
            unread: Unread::of(alloc, names, header, Section::Projects)?,
            withdrawn: None,
            none: None,
            accepted: Vec::new(alloc),
        })
    }

    /// Takes a row that is accepted.
    pub fn take(&mut self, row: &Row<'_>, found: &mut Oddities) -> Result<(), AllocError> {
        found.has_decimals |= has_decimals(row.value());
        if has_thousands_mark(row.value()) {
            found.take(row.odd(Oddity::ThousandsMark));
        }
        self.take_thousands(row, found);
        if row.has_key(row.bytes().0) {
            found.take(row.odd(Oddity::FooterRow).in_form(5));
        }
        self.take_cut(row, found);
        take_entity(row, (self.names, self.header), found);
        self.first_row.take(row.record);
        let name = row.at(self.name.unwrap_or(usize::MAX));
        let district = row.at(self.district.unwrap_or(usize::MAX));
        let place = row.at(self.place.unwrap_or(usize::MAX));
        self.twins.take(row, name, (district, place), found)?;
        self.values.take(row)?;
        self.unread.take(row);
        if says_withdrawn(name) {
            let odd = row.odd(Oddity::ValidColumn).in_form(3);
            let odd = odd.at(self.name.unwrap_or(usize::MAX));
            self.withdrawn = Some(odd.behind(self.withdrawn));
        }
        self.take_name(name, row.odd(Oddity::FooterRow), found);
        self.further.take(row, found)?;
        self.accepted.push(CheckedProject {
            odd: row.odd(Oddity::FooterRow),
            votes: claimed(row, self.votes),
            selected: claimed(row, self.selected),
            is_total: has_total(row.id()) || has_total(name),
            is_winner: false,
        })?;
        Ok(())
    }

    /// Takes a row, which is odd so if its cost has three digits at most, and the name behind it just three.
    fn take_thousands(&self, row: &Row<'_>, found: &mut Oddities) {
        let odd = row.odd(Oddity::ThousandsMark).in_form(1);
        let behind = odd.value_place.saturating_add(1);
        let (cost, name) = (row.value(), row.at(behind));
        let are_digits = is_digits(cost) && is_digits(name);
        if self.name == Some(behind) && are_digits && cost.len() <= 3 && name.len() == 3 {
            found.take(odd.at(behind));
        }
    }

    /// Takes the name of a project, which is odd so if it is that of an answer for none or of a test.
    fn take_name(&mut self, name: &str, odd: Odd, found: &mut Oddities) {
        if is_one_of(NO_PROJECT, name) {
            self.none = Some(odd.in_form(9).behind(self.none));
        } else if begins_as(NO_PROJECTS, name) {
            found.take(odd.in_form(9));
        } else if is_one_of(ALL_PROJECTS, name) {
            found.take(odd.in_form(12));
        } else if is_one_of(TESTS, name) || begins_as(OF_TESTS, name) {
            found.take(odd.in_form(10));
        }
    }

    /// Takes a row, which is odd so if it has a text behind its columns, or a field like a vote.
    fn take_cut(&self, row: &Row<'_>, found: &mut Oddities) {
        let odd = row.odd(Oddity::CutName);
        let is_long = (self.names..row.record.len()).any(|place| !row.at(place).is_empty());
        // Of rows that a quotation mark swallowed there is another word.
        if is_long && (!has_lines(row.record) || self.name.is_some()) {
            found.take(odd.by(self.names as u64));
        }
        for place in 0..row.record.len() {
            let is_other = place != odd.id_place && place != odd.value_place;
            if !is_other || !has_byte(bytes_at(row.record, place), b',') {
                continue;
            }
            let value = row.at(place);
            if Money::read(value).is_err() && names_other(value, &[], row.projects).is_some() {
                found.take(odd.in_form(1).at(place));
            }
        }
    }

    /// Whether a column names a part of the city.
    pub fn has_districts(&self) -> bool {
        self.district.is_some()
    }

    /// Takes the end of PROJECTS, whose accepted rows give this election.
    pub fn end_rows(&self, election: &Election, found: &mut Oddities) -> Result<(), AllocError> {
        found.take_some(self.withdrawn);
        found.take_some(self.none.filter(|odd| odd.number == 1));
        self.first_row.end(found);
        self.further.end(found);
        self.unread.end(found)
    }

    /// Takes the end of a file that has a fault or not, whose accepted rows give this election.
    pub fn end(
        &self,
        election: &Election,
        has_fault: bool,
        projects: &Firsts,
        found: &mut Oddities,
    ) -> Result<(), AllocError> {
        self.take_total(election, found);
        self.take_costs(election, found);
        self.take_in_thousands(election, found)?;
        let compares = self.votes.is_some() && !has_fault;
        let approvals = Approvals::of(self.alloc, election)?;
        let supporters = approvals.all.as_slice();
        if !found.refuses_votes {
            self.twins.end(supporters, found);
            self.values.end(election, supporters, found);
            self.take_carried(election, supporters, found);
        }
        let form = if self.has_other_ids(supporters) { 2 } else { 0 };
        let rows = self.accepted.iter().zip(election.projects());
        for (place, ((row, project), number)) in rows.zip(supporters).enumerate() {
            take_comma(row.odd, project.id(), projects, found);
            take_begun(row.odd, place, election, projects, found);
            if project.cost().0 > election.budget().0 {
                found.take(row.odd.as_a(Oddity::OverBudget));
            }
            if *number == 0 && !found.refuses_votes {
                found.take(row.odd.as_a(Oddity::NoSupporter));
            }
            if !found.refuses_votes && approvals.are_lost(place, project.id(), projects) {
                let odd = row.odd.as_a(Oddity::RepeatedKey).in_form(4);
                found.take(odd.at(row.odd.id_place));
            }
            let odd = row.odd.as_a(Oddity::VotesOf).by(*number);
            if compares && row.votes.is_some_and(|votes| votes != Some(*number)) {
                found.take(odd.at(self.votes.unwrap_or(0)).in_form(form));
            }
            if *number < self.fewest.unwrap_or(0) && !has_fault {
                found.take(Odd {
                    limit: self.fewest,
                    ..odd.in_form(1)
                });
            }
        }
        drop(approvals);
        Ok(())
    }

    /// Whether the numbers of votes that projects claim have the sum of these, but stand at other projects.
    fn has_other_ids(&self, supporters: &[u64]) -> bool {
        let (mut said, mut sum, mut differ) = (0u64, 0u64, 0u64);
        for (row, number) in self.accepted.iter().zip(supporters) {
            let votes = row.votes.unwrap_or(None).unwrap_or(0);
            said = said.saturating_add(votes);
            sum = sum.saturating_add(*number);
            differ = differ.saturating_add(u64::from(votes != *number));
        }
        said == sum && differ > 2
    }

    /// Takes costs that are at most a hundredth of every other one, of five or more (of three below 1, and a thousandth), as
    /// where one is in thousands or stands for none; and those that each are 1 above the one before, as a cell that was
    /// copied downwards counts on.
    fn take_costs(&self, election: &Election, found: &mut Oddities) {
        let count = self.accepted.len() as u64;
        let (mut least, mut next, mut cheapest) = (u64::MAX, u64::MAX, None);
        let (mut before, mut open, mut counted) = (0u64, None, None);
        for (row, project) in self.accepted.iter().zip(election.projects()) {
            let cost = project.cost().0;
            if cost < least {
                (next, least, cheapest) = (least, cost, Some(row.odd.behind(None)));
            } else if cost == least {
                cheapest = Some(row.odd.behind(cheapest));
            } else {
                next = next.min(cost);
            }
            let goes_on = before >= LEAST_COUNTED && cost == before.saturating_add(100);
            open = goes_on.then_some(row.odd.behind(open));
            let are_enough = |odd: &Odd| {
                odd.number >= FEWEST_COUNTED && odd.number.saturating_mul(PART_COUNTED) >= count
            };
            counted = counted.or(open.filter(are_enough));
            before = cost;
        }
        let is_far = |times: u64| least.saturating_mul(times) <= next;
        let is_least = |odd: &Odd| {
            let are_few = odd.number.saturating_mul(2) < count;
            let is_answer = count > 2 && least < 100 && is_far(1_000);
            are_few && (is_answer || (count > MANY as u64 && is_far(100)))
        };
        let cheapest = cheapest.filter(|odd| is_least(odd) && !found.tells_of(*odd));
        found.take_some(cheapest.map(|odd| odd.in_form(6)));
        found.take_some(counted.map(|odd| odd.in_form(8)));
    }

    /// Takes the costs that are probably in thousands, where others are not.
    fn take_in_thousands(
        &self,
        election: &Election,
        found: &mut Oddities,
    ) -> Result<(), AllocError> {
        let largest = largest_in_thousands(self.alloc, election.projects())?;
        let mut first = None;
        for (row, project) in self.accepted.iter().zip(election.projects()) {
            if largest.is_some_and(|largest| project.cost().0 <= largest) {
                first = Some(row.odd.as_a(Oddity::ThousandsMark).in_form(2).behind(first));
            }
        }
        let first = first.filter(|odd: &Odd| !found.tells_of(odd.as_a(Oddity::FooterRow)));
        found.take_some(first);
        Ok(())
    }

    /// Takes the first or the last row if it is probably a total.
    fn take_total(&self, election: &Election, found: &mut Oddities) {
        let (Some(first), Some(last)) = (self.accepted.first(), self.accepted.last()) else {
            return;
        };
        if let Some((project, above)) = election.projects().split_last() {
            let cost = project.cost().0;
            if cost > election.budget().0 && may_be_sum(above, cost) {
                return found.take(last.odd);
            }
        }
        let place = self.accepted.len().saturating_sub(1);
        let fewest = if last.is_total { 2 } else { MANY };
        if place >= fewest && is_sum(election, place) {
            found.take(last.odd);
        } else if place >= 2 && first.is_total && is_sum(election, 0) {
            found.take(first.odd.in_form(2));
        } else if place >= 2 && is_total(election) {
            found.take(last.odd.in_form(4));
        }
    }

    /// Takes the rows that are sums of the projects above, unless they are totals.
    fn take_carried(&self, election: &Election, supporters: &[u64], found: &mut Oddities) {
        let mut above = ProjectsAbove::default();
        let rows = self.accepted.iter().zip(election.projects());
        for ((row, project), number) in rows.zip(supporters) {
            let is_sum = above.is_sum(project.cost().0, *number);
            if is_sum && election.voters().len() >= FEWEST_VOTERS && !found.tells_of(row.odd) {
                found.take(row.odd.in_form(7));
            }
        }
    }

    /// Compares what the column `selected` says with a count that elects or adds the projects at these
    /// places. Only 0 and 1 claim something.
    pub fn compare(&mut self, winners: &[u32], found: &mut Oddities) {
        for winner in winners {
            if let Some(row) = self.accepted.get_mut(*winner as usize) {
                row.is_winner = true;
            }
        }
        let place = self.selected.unwrap_or(0);
        for row in &self.accepted {
            let number = u64::from(row.is_winner);
            match row.selected {
                Some(Some(said)) if said.saturating_add(number) == 1 => {
                    found.take(row.odd.as_a(Oddity::SelectedOf).at(place).by(number))
                }
                _ => {}
            }
        }
    }
}

/// What a row says in a column, where there is one; the empty field claims nothing.
fn claimed(row: &Row<'_>, column: Option<usize>) -> Option<Option<u64>> {
    let value = row.at(column?);
    (!value.is_empty()).then_some(whole_number(value))
}

/// Takes a project whose id has a comma; a count is told only where votes for it count for others.
fn take_comma(odd: Odd, id: &str, projects: &Firsts, found: &mut Oddities) {
    let are_others = names_other(id, &[], projects).is_some();
    let form = if is_power(id) {
        2
    } else {
        usize::from(are_others)
    };
    if id.contains(',') && (are_others || found.is_of_check()) {
        found.take(odd.as_a(Oddity::CommaInId).in_form(form));
    }
}

/// Whether a name begins as one of these does.
fn begins_as(words: &str, name: &str) -> bool {
    words.split('|').any(|start| begins(name, start))
}

/// Whether the project at this place costs as much as all others together, and no ballot approves it.
fn is_sum(election: &Election, place: usize) -> bool {
    let sum = sum_of_costs(election);
    let project = election.projects().get(place);
    let cost = project.map_or(0, |project| project.cost().0);
    cost == sum.saturating_sub(cost) && !is_named(election, place)
}

/// Whether the last project's id alone is a word, for a total, and no ballot approves it.
fn is_total(election: &Election) -> bool {
    let projects = election.projects();
    let above = projects.len().saturating_sub(1);
    for (place, project) in projects.iter().enumerate() {
        let (id, is_last) = (project.id(), place == above);
        let is_word = id.len() > 2 && !has_digit(id);
        if has_total(id) != is_last || is_word != is_last {
            return false;
        }
    }
    !is_named(election, above)
}

/// Whether a ballot approves the project at this place.
fn is_named(election: &Election, place: usize) -> bool {
    let place = u32::try_from(place).unwrap_or(u32::MAX);
    let mut voters = election.voters().iter();
    voters.any(|voter| voter.ballot.places().contains(&place))
}
