//! What is odd in VOTES.

use crate::prelude::*;
use pb_ids::IdTable;
use pb_oddities::columns::FurtherColumns;
use pb_oddities::entities::take_entity;
use pb_oddities::names_row::NamesRow;
use pb_oddities::totals::has_total;
use pb_oddities::unread::Unread;
use pb_seen::amounts::whole_number;
use pb_seen::changed::{form_of, has_digit, has_one_of, is_digits};
use pb_seen::fields::has_byte;
use pb_seen::firsts::names_other;
use pb_seen::rows::VoteRows;
use pb_vote_oddities::behind_vote::BehindVote;
use pb_vote_oddities::beside_vote::BesideVote;
use pb_vote_oddities::last_vote::{LastVote, has_space};
use pb_vote_oddities::out_of_order::OutOfOrder;
use pb_vote_oddities::rankings::Rankings;
use pb_vote_oddities::runs::Runs;
use pb_vote_oddities::ticked::Ticked;
use pb_vote_oddities::twice_in_vote::TwiceInVote;
use pb_voter_oddities::alike::AlikeVoters;
use pb_voter_oddities::brackets::Brackets;
use pb_voter_oddities::copies::Copies;
use pb_voter_oddities::one_each::OneEach;
use pb_voter_oddities::parts::Parts;
use pb_voter_oddities::persons::Persons;
use pb_voter_oddities::phones::Phones;
use pb_voter_oddities::proxies::Proxies;
use pb_voter_oddities::same_voters::SameVoters;
use pb_voter_oddities::turnout::take_turnout;
use pb_voter_oddities::void_ids::VoidIds;
use pb_voter_oddities::voter_lists::ends_in_projects;

/// What stands in place of an id below a list that was signed.
const SIGNED: &str = "signed|signature|podpis|unterschrift";

/// The form of a row whose id is the ids of projects.
const IDS_FOR_A_VOTER: usize = 7;

/// The fewest rows whose number a last row has.
const FEWEST_ROWS: u64 = 5;

/// The fewest rows of VOTES of which one should name a project.
const FEWEST: u64 = 3;

/// What is odd in VOTES, as its rows are read.
#[derive(Drop)]
pub struct VoteOddities {
    alloc: Global,
    /// Where the row of column names begins, and how many there are.
    header: Mark,
    pub names: usize,
    first_row: NamesRow,
    further: FurtherColumns,
    behind: BehindVote,
    beside: BesideVote,
    unread: Unread,
    runs: Runs,
    ticked: Ticked,
    twice: TwiceInVote,
    copies: Copies,
    parts: Parts,
    phones: Phones,
    proxies: Proxies,
    same: SameVoters,
    alike: AlikeVoters,
    one_each: OneEach,
    persons: Persons,
    void_ids: VoidIds,
    /// The first row with a vote whose id is a list of projects, measured by how many there are.
    exchanged: Option<Odd>,
    brackets: Brackets,
    /// Where the last row begins, and what it is.
    last_row: Option<(Mark, Part)>,
    /// How many ballots approve nothing, and how many of them come behind the last that approves something.
    empty: u64,
    last_empty: u64,
    /// The first of these last ones, and the first whose id looks like a note, with how many there are.
    first_empty: Option<Odd>,
    /// Whether it has a text beside its id.
    first_has_more: bool,
    first_note: Option<Odd>,
    /// The first row whose id begins as what programs leave out, measured by how many there are.
    left_out: Option<Odd>,
    rankings: Rankings,
    last: LastVote,
    order: OutOfOrder,
}

impl VoteOddities {
    /// Nothing was read yet but the row of column names, which begins here.
    pub fn of(
        alloc: Global,
        names: &ByteRecord,
        header: Mark,
        projects: &Firsts,
    ) -> Result<VoteOddities, AllocError> {
        Ok(VoteOddities {
            alloc,
            header,
            names: names.len(),
            first_row: NamesRow::of(names, header, Section::Votes, projects),
            further: FurtherColumns::of(alloc, names, header, Section::Votes)?,
            behind: BehindVote::of(alloc, names, header, projects)?,
            beside: BesideVote::of(alloc, names, header)?,
            unread: Unread::of(alloc, names, header, Section::Votes)?,
            runs: Runs::new(alloc),
            ticked: Ticked::default(),
            twice: TwiceInVote::new(alloc),
            copies: Copies::new(alloc),
            parts: Parts::new(alloc),
            phones: Phones::new(alloc),
            proxies: Proxies::of(alloc, names, header)?,
            same: SameVoters::new(alloc),
            alike: AlikeVoters::new(alloc),
            one_each: OneEach::of(alloc, names, header)?,
            persons: Persons::of(alloc, names, header),
            void_ids: VoidIds::new(),
            exchanged: None,
            brackets: Brackets::default(),
            last_row: None,
            empty: 0,
            last_empty: 0,
            first_empty: None,
            first_has_more: false,
            first_note: None,
            left_out: None,
            rankings: Rankings::new(alloc),
            last: LastVote::default(),
            order: OutOfOrder::default(),
        })
    }

    /// Takes a row that is accepted.
    pub fn take(&mut self, row: &Row<'_>, found: &mut Oddities) -> Result<(), AllocError> {
        let (id, vote) = row.bytes();
        let length = row.ballot().len();
        self.take_length(row, length as u64, found);
        if row.has_key(id) {
            found.take(row.odd(Oddity::FooterRow).in_form(5));
        }
        take_entity(row, (self.names, self.header), found);
        self.last.take(row, (id, vote));
        self.order.take(row, vote);
        self.ticked.take(row);
        if self.rankings.asks(length, row.election.projects().len()) {
            self.rankings.take(row.value())?;
        }
        self.twice.take(row, vote, found)?;
        self.last_row = Some((row.mark, row.part));
        self.first_row.take(row.record);
        self.beside.take(row);
        if self.unread.are_open {
            self.unread.take(row);
        }
        self.take_id(row, id, found)?;
        self.take_others(row, id)?;
        let is_long = row.record.len() > self.names;
        if is_long {
            self.take_surplus(row, found);
        }
        if is_long || self.behind.is_open {
            self.behind.take(row);
        }
        if self.further.are_open {
            self.further.take(row, found)?;
        }
        Ok(())
    }

    /// Takes what a row shows that follows another one, or belongs to it, or to a voter without a row.
    fn take_others(&mut self, row: &Row<'_>, id: &[u8]) -> Result<(), AllocError> {
        if has_byte(id, b',') {
            self.take_list(row);
        } else {
            self.runs.take(row)?;
        }
        if self.copies.is_open() {
            self.copies.take(row, id)?;
        }
        let ends_in_digit = id.last().is_some_and(|byte| byte.is_ascii_digit());
        if !ends_in_digit || row.ballot().is_empty() {
            self.parts.take(row, id)?;
        }
        if matches!(id.first(), Some(b'+' | b'0')) {
            self.phones.take(row, id)?;
        }
        if self.proxies.are_open {
            self.proxies.take(row)?;
        }
        if self.one_each.is_open {
            self.one_each.take(row)?;
        }
        if self.persons.is_open {
            self.persons.take(row)?;
        }
        Ok(())
    }

    /// Takes a row whose id has a comma: it may be the vote.
    fn take_list(&mut self, row: &Row<'_>) {
        if names_other(row.id(), &[], row.projects).is_some() && !row.ballot().is_empty() {
            let odd = row.odd(Oddity::IdBehindVote).in_form(IDS_FOR_A_VOTER);
            self.exchanged = Some(odd.at(odd.id_place).behind(self.exchanged));
        }
    }

    /// Takes the id of a row, which may be that of another row, of several voters, or of none.
    fn take_id(
        &mut self,
        row: &Row<'_>,
        id: &[u8],
        found: &mut Oddities,
    ) -> Result<(), AllocError> {
        let is_plain = is_plain_end(id.first()) && is_plain_end(id.last());
        self.same.take(row, (id, is_plain))?;
        self.alike.take(row, id)?;
        self.void_ids.take(row, id);
        if !is_plain && id.len() > 1 && is_of_signs(id) {
            let odd = row.odd(Oddity::NoteRows).in_form(8);
            found.take(odd.at(odd.id_place));
            return Ok(());
        }
        if !is_plain {
            self.brackets.take(row, id);
        }
        let is_begun = matches!(id.first(), Some(b'#' | b'/'));
        if is_begun && (id.starts_with(b"#") || id.starts_with(b"//")) {
            let odd = row.odd(Oddity::NoteRows).in_form(2);
            self.left_out = Some(odd.behind(self.left_out));
        }
        Ok(())
    }

    /// Takes a row with more fields than there are column names: with ids of projects, or with other texts.
    fn take_surplus(&self, row: &Row<'_>, found: &mut Oddities) {
        let is_vote = |place: usize| names_other(row.at(place), &[], row.projects).is_some();
        let is_text = |place: usize| !row.at(place).is_empty();
        let has_vote = (self.names..row.record.len()).any(is_vote);
        if !(self.names..row.record.len()).any(is_text) {
            return;
        }
        let form = if has_vote { 0 } else { 2 };
        let odd = row.odd(Oddity::SurplusFields).named_in(self.header);
        found.take(odd.by(self.names as u64).in_form(form));
    }

    /// Takes a ballot of this length, which may be none, more than META allows, or less than it asks for.
    fn take_length(&mut self, row: &Row<'_>, length: u64, found: &mut Oddities) {
        let limit = row.election.max_length().map(u64::from);
        found.has_no_length = row.limits.min_length.unwrap_or(0) > limit.unwrap_or(u64::MAX);
        let is_long = length > limit.unwrap_or(u64::MAX);
        if is_long {
            let odd = row.odd(Oddity::TooLongBallot).by(length);
            found.take(Odd { limit, ..odd });
        }
        if length == 0 {
            return self.take_nothing(row, found);
        }
        self.last_empty = 0;
        let limit = row.limits.min_length;
        if length < limit.unwrap_or(0) {
            let odd = row.odd(Oddity::TooShortBallot).by(length);
            found.take(Odd { limit, ..odd });
        } else if !is_long && row.limits.are_of_costs() {
            take_cost(row, found);
        }
    }

    /// Takes a row whose ballot approves nothing.
    fn take_nothing(&mut self, row: &Row<'_>, found: &mut Oddities) {
        let odd = row.odd(Oddity::EmptyBallot);
        let odd = self.behind.with_stray(self.alloc, row, odd);
        let limit = row.limits.min_length;
        if limit.unwrap_or(0) > 0 {
            let odd = odd.as_a(Oddity::TooShortBallot);
            found.take(Odd { limit, ..odd });
        } else if odd.form == 0 && row.limits.are_of_costs() {
            take_cost(row, found);
        }
        found.take(odd);
        self.beside.are_last &= odd.form == 0;
        self.take_empty(row, odd);
    }

    /// Takes a row without a vote, which may be a note if it has an id alone, or one like a note.
    fn take_empty(&mut self, row: &Row<'_>, odd: Odd) {
        self.empty = self.empty.saturating_add(1);
        let is_note = is_note_id(row.id());
        let has_more = row.has_more();
        if odd.form > 0 || (!is_note && has_more) {
            self.last_empty = 0;
            return;
        }
        self.last_empty = self.last_empty.saturating_add(1);
        if self.last_empty == 1 {
            self.first_empty = Some(odd);
            self.first_has_more = has_more;
        }
        if is_note {
            self.first_note = Some(odd.behind(self.first_note));
        }
    }

    /// Takes the end of the file, whose accepted rows give this election with these projects.
    pub fn end(
        &mut self,
        election: &Election,
        (rows, projects): (&VoteRows, &Firsts),
        found: &mut Oddities,
    ) -> Result<(), AllocError> {
        let voters = election.voters().len() as u64;
        let are_few = |odd: &Odd| odd.number.saturating_mul(2) <= voters;
        found.take_some(self.left_out.filter(are_few));
        self.end_blank(election, found)?;
        let last = self
            .last_row
            .map(|(mark, part)| Odd::of_row(Oddity::FooterRow, mark, part));
        self.last.end(election, last, found);
        let are_none = self.empty == voters && (rows.refused == 0 || rows.are_blank());
        if are_none && voters >= FEWEST && !election.projects().is_empty() {
            found.take_some(last.map(|odd| without_votes(odd, election, projects)));
        }
        let are_projects = ends_in_projects(self.alloc, election, projects)?;
        let projects = election.projects().len() as u64;
        if let (Some(odd), true) = (last, are_projects && !found.has(Oddity::NoteRows)) {
            found.take(odd.as_a(Oddity::NoteRows).in_form(3).by(projects));
        }
        if let (Some(odd), true) = (last, self.rankings.are_rankings(projects)) {
            let odd = Odd::of_column(Oddity::VotesWithPoints, self.header, odd.value_place);
            found.take(odd.in_form(1).by(projects));
        }
        self.end_others(election, (rows, last), found)?;
        self.first_row.end(found);
        self.further.end(found);
        self.behind.end(self.alloc, &self.beside, found)?;
        self.unread.end(found)?;
        self.one_each.end(found);
        if let Some(odd) = last {
            self.alike.end(election, odd, found)?;
        }
        self.same.end(election, last, found)
    }

    /// Takes what rows show that follow each other, or belong to others; the last is odd so.
    fn end_others(
        &self,
        election: &Election,
        (rows, last): (&VoteRows, Option<Odd>),
        found: &mut Oddities,
    ) -> Result<(), AllocError> {
        let projects = election.projects().len();
        self.twice.end(found);
        found.take_some(self.order.odd());
        self.runs.end(projects, found);
        found.take_some(self.ticked.ticked(projects));
        found.take_some(self.brackets.odd(election));
        take_turnout(election, last, found);
        self.copies.end(last, found)?;
        found.take_some(self.beside.filled_down(election));
        let first = match (last, rows.first) {
            (Some(odd), Some(mark)) => Some(Odd { mark, ..odd }),
            _ => None,
        };
        self.parts.end(election, first, found)?;
        let voters = election.voters().len() as u64;
        let void = self.void_ids.odd(voters);
        let is_told = void.is_some_and(|odd| found.tells_of(odd));
        found.take_some(void.filter(|_| !is_told));
        found.take_some(self.void_ids.pair(voters));
        found.take_some(self.void_ids.total(voters));
        found.take_some(self.void_ids.bundle(voters));
        found.take_some(self.exchanged);
        found.take_some(self.persons.odd());
        self.phones.end(election, found)?;
        self.proxies.end(election, found)
    }

    /// Takes the rows without a vote that are probably no voters.
    fn end_blank(&self, election: &Election, found: &mut Oddities) -> Result<(), AllocError> {
        let may_be = self.last_empty > 0 && self.last_empty == self.empty;
        let are_last = may_be && self.are_notes(election)?;
        let is_voter = self.first_has_more && have_spaces(election);
        if let (Some(odd), true) = (self.first_empty, are_last && !is_voter) {
            if self.empty == 1 {
                found.take(odd.as_a(Oddity::FooterRow).in_form(1));
            } else if self.empty < election.voters().len() as u64 {
                found.take(odd.as_a(Oddity::NoteRows).by(self.empty));
            }
        }
        let is_note = |_: &Odd| !are_last && !have_spaces(election);
        let note = self.first_note.filter(is_note);
        found.take_some(note.map(|odd| odd.as_a(Oddity::NoteRows).in_form(1)));
        let is_told = are_last || note.is_some();
        found.take_some(self.beside.prepared().filter(|_| !is_told));
        Ok(())
    }

    /// Whether the ids of the last rows, which have no vote, look like notes, or at least not like those of
    /// the voters above; or these rows are more than those above.
    fn are_notes(&self, election: &Election) -> Result<bool, AllocError> {
        let voters = election.voters();
        let count = usize::try_from(self.last_empty).unwrap_or(usize::MAX);
        let above = voters.len().saturating_sub(count);
        let mut forms = IdTable::new(self.alloc);
        for (place, voter) in voters.iter().enumerate() {
            let id = voter.id.text();
            let is_last = place >= above;
            let is_note = is_last && is_note_id(id);
            let form = form_of(self.alloc, id, false)?;
            if !is_last {
                let _ = forms.insert(self.alloc, form.as_str(), 0)?;
            } else if !is_note && forms.get(form.as_str()).is_some() {
                return Ok(count > above || is_number_of_rows(election, above, id));
            }
        }
        Ok(true)
    }
}

/// The last row of a file in which no vote names a project, odd for that, and for how many voters have ids of projects.
fn without_votes(last: Odd, election: &Election, projects: &Firsts) -> Odd {
    let voters = election.voters();
    let is_project = |id: &str| !is_digits(id) && projects.has(id);
    let ids = voters.iter().filter(|voter| is_project(voter.id.text()));
    let count = ids.count() as u64;
    let odd = last.as_a(Oddity::VotesMissing).by(voters.len() as u64);
    Odd {
        form: if count > 0 { 6 } else { 5 },
        limit: Some(count),
        ..odd
    }
}

/// Takes a row whose projects cost more together than META allows, or less than it asks for.
fn take_cost(row: &Row<'_>, found: &mut Oddities) {
    let (least, most) = (row.limits.min_cost, row.limits.max_cost);
    let mut cost = 0u64;
    for place in row.ballot() {
        if let Some(project) = row.election.projects().get(*place as usize) {
            cost = cost.saturating_add(project.cost().0);
        }
    }
    let (odd, limit) = if cost > most.unwrap_or(u64::MAX) {
        (row.odd(Oddity::TooLongBallot).in_form(1), most)
    } else if cost < least.unwrap_or(0) {
        (row.odd(Oddity::TooShortBallot).in_form(2), least)
    } else {
        return;
    };
    found.costly = found.costly.saturating_add(1);
    found.take(Odd {
        limit,
        ..odd.by(cost)
    });
}

/// Whether a byte at an end of an id is a letter or a digit of ASCII, if there is one.
fn is_plain_end(byte: Option<&u8>) -> bool {
    match byte {
        Some(byte) => byte.is_ascii_alphanumeric(),
        None => true,
    }
}

/// Whether bytes are signs of ASCII alone.
fn is_of_signs(bytes: &[u8]) -> bool {
    bytes.iter().all(|byte| byte.is_ascii_punctuation())
}

/// Whether an id has white space in it, or a word for a total, or one for a signature and no digit.
fn is_note_id(id: &str) -> bool {
    has_space(id) || has_total(id) || (has_one_of(SIGNED, id) && !has_digit(id))
}

/// Whether the id of the last row is how many there are above, and they are not numbered up to it: no id of
/// theirs is as long, or the number before it.
fn is_number_of_rows(election: &Election, above: usize, id: &str) -> bool {
    let (number, mut voters) = (above as u64, election.voters().iter().take(above));
    let is_like = |other: &str| {
        other.len() == id.len() || whole_number(other) == Some(number.saturating_sub(1))
    };
    number >= FEWEST_ROWS
        && whole_number(id) == Some(number)
        && above.saturating_add(1) == election.voters().len()
        && !voters.any(|voter| is_like(voter.id.text()))
}

/// Whether the id of a voter with a vote has white space in it.
fn have_spaces(election: &Election) -> bool {
    let mut voters = election.voters().iter();
    voters.any(|voter| !voter.ballot.places().is_empty() && has_space(voter.id.text()))
}
