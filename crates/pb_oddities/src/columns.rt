//! Columns of PROJECTS and VOTES that no count reads, and that may say what should count.

use crate::column_kinds::{FAILED, Has, NUMBERS, PASSED, POINTS, says_not_counted};
use crate::prelude::*;
use crate::row::{Limits, NEAR, NEXT, day_of};
use pb_seen::changed::{has_word, is_digits, is_one_of};

/// The fewest dates of votes that META excludes.
const FEWEST_DATES: u64 = 5;

/// The fewest rows that all name one other district than META.
const FEWEST_VOTERS: u64 = 8;

/// The forms of an oddity by a district that all rows have, and META has not, and by a currency.
const OTHER_DISTRICT: usize = 12;

const OTHER_CURRENCY: usize = 13;

/// How many columns of a section are looked at: an office's sheet has fewer.
pub const MOST_COLUMNS: usize = 100;

/// What a column says of rows that count, or do not.
const STATES: &str =
    "valid|invalid|yes|no|1|0|true|false|accepted|rejected|refused|approved|withdrawn|cancelled|\
    canceled|deleted|removed|counted|not counted|void|ok|eligible|ineligible|disqualified|duplicate|\
    blank|spoiled|spoilt|tak|nie|ja|nein|oui|non|si|ano|ne|nee|y|n|t|f|x|wahr|falsch|prawda|fałsz|falsz|\
    vrai|faux|vero|falso|not approved|not accepted|feasible|unfeasible|infeasible|not feasible|positive|\
    negative|pozytywna|negatywna|missing|preview|survey preview|spam|passed|failed|not ok|+|ważny|nieważny|ważna|nieważna|\
    gültig|ungültig|platný|neplatný|válido|inválido|anulado|nulo|valide|invalide|annulé|nul|valido|annullato|geldig|ongeldig";

/// What stands in a database's column of bits, which are bytes and no digits; and the form of an oddity by them.
const BITS: &str = "\u{0}|\u{1}";

const OF_BITS: usize = 7;

/// The form of an oddity by a date before or behind those of most votes.
const OUTSIDE: usize = 8;

/// Words for currencies, and for how many of them an amount is.
const UNITS: &str =
    "pln|zl|zł|złoty|złotych|eur|euro|euros|usd|gbp|chf|czk|kč|huf|ft|forint|ron|lei|bgn|sek|nok|dkk|kr|\
    kronor|isk|uah|rub|try|cad|aud|jpy|cny|inr|brl|dollar|dollars|pound|pounds|franc|francs|€|$|£|in|of|cent|\
    cents|grosz|grosze|groszy|hundred|hundreds|thousand|thousands|million|millions|mln|mio|tys|tsd|tausend|\
    tis|tisíc|mille|k€|keur|kpln|kusd|kczk|khuf|teur|tpln|t€";

/// A column that no count reads.
#[derive(Drop)]
struct FurtherColumn {
    place: usize,
    has: Has,
    /// Whether something may be said of it, by all that was read.
    is_open: bool,
    /// How many of its values were looked at, how many of them are others than the cost, or far from META's dates, and how
    /// many are within these, or META's district.
    count: u64,
    other: u64,
    within: u64,
    /// The first row, and what it says; and the first with another unit, or a date or district that META excludes, measured by
    /// how many there are.
    first: Option<Odd>,
    value: String,
    further: Option<Odd>,
}

/// The columns of a section that no count reads.
#[derive(Drop)]
pub struct FurtherColumns {
    alloc: Global,
    /// Where the row of column names begins.
    header: Mark,
    all: Vec<FurtherColumn>,
    /// Whether something may be said of one of them.
    pub are_open: bool,
}

impl FurtherColumns {
    /// Those among the column names of a section, which begin here.
    pub fn of(
        alloc: Global,
        names: &ByteRecord,
        header: Mark,
        section: Section,
    ) -> Result<FurtherColumns, AllocError> {
        let mut columns = FurtherColumns {
            alloc,
            header,
            all: Vec::new(alloc),
            are_open: false,
        };
        if matches!(section, Section::Votes) {
            for (number, name) in NUMBERS.split('|').enumerate() {
                let has = if number < POINTS {
                    Has::Points
                } else {
                    Has::Ballots
                };
                columns.push(column_of(names, name), Some(has))?;
            }
        }
        for place in 0..names.len().min(MOST_COLUMNS) {
            columns.push(Some(place), Has::by(text_at(names, place), section))?;
        }
        Ok(columns)
    }

    /// Adds the column at this place with these values, if both are known.
    fn push(&mut self, place: Option<usize>, has: Option<Has>) -> Result<(), AllocError> {
        let (Some(place), Some(has)) = (place, has) else {
            return Ok(());
        };
        self.are_open = true;
        self.all.push(FurtherColumn {
            place,
            has,
            is_open: true,
            count: 0,
            other: 0,
            within: 0,
            first: None,
            value: String::new(self.alloc),
            further: None,
        })?;
        Ok(())
    }

    /// Takes a row, which is odd so where it is the first of a column that says what should count.
    pub fn take(&mut self, row: &Row<'_>, found: &mut Oddities) -> Result<(), AllocError> {
        self.are_open = false;
        for column in self.all.iter_mut() {
            if column.is_open {
                column.take(row, self.header, found)?;
                self.are_open |= column.is_open;
            }
        }
        Ok(())
    }

    /// Takes the end of the section.
    pub fn end(&self, found: &mut Oddities) {
        for column in &self.all {
            let is_mixed = column.other > 0 && column.other < column.count;
            if column.has == Has::Costs && column.is_open && is_mixed {
                let odd = Odd::of_column(Oddity::RepeatedColumn, self.header, column.place);
                found.take(odd.in_form(2).by(column.other))
            }
            let further = column.further.filter(|_| column.is_open);
            found.take_some(further.and_then(|odd| column.told(odd)));
        }
    }
}

impl FurtherColumn {
    /// Takes a row below the column names, which begin here.
    fn take(
        &mut self,
        row: &Row<'_>,
        header: Mark,
        found: &mut Oddities,
    ) -> Result<(), AllocError> {
        let (value, place) = (row.at(self.place), self.place);
        let is_vote = matches!(row.part, Part::Vote(_));
        let odd = row.odd(Oddity::ValidColumn).named_in(header).at(place);
        let odd = odd.in_form(self.has.form(is_vote));
        let of_column = |oddity: Oddity| Odd::of_column(oddity, header, place);
        match self.has {
            Has::Points if value.contains(',') && has_points(value) => {
                self.tell(of_column(Oddity::VotesWithPoints), found)
            }
            Has::Points => {
                return self.take_state(value, of_column(Oddity::VotesWithPoints), found);
            }
            Has::Units if is_answer(value) => return self.take_state(value, odd.in_form(0), found),
            Has::Units if !is_money(value) => self.is_open = value.is_empty(),
            Has::Ballots if is_number(value, row.ballot().len() as u64) => {
                self.tell(of_column(Oddity::SeveralBallots), found)
            }
            Has::Ballots => {}
            Has::Currencies if value.is_empty() => {}
            Has::Currencies if self.first.is_none() && differs(row.currency, value) => {
                self.tell(odd.in_form(OTHER_CURRENCY), found)
            }
            Has::Valid
            | Has::ValidOrMore
            | Has::Rounds
            | Has::Currencies
            | Has::Units
            | Has::Notes => {
                return self.take_state(value, odd, found);
            }
            Has::Costs => self.take_cost(value, Money::read(row.value()).ok()),
            Has::Dates => self.take_date(value, row.limits, odd),
            Has::Districts if row.district.is_empty() => self.is_open = false,
            Has::Districts if value.eq_ignore_ascii_case(row.district) => {
                self.within = self.within.saturating_add(1);
            }
            Has::Districts if value.is_empty() || has_word(value, row.district) => {}
            Has::Districts => return self.take_district(value, is_vote, odd),
        }
        Ok(())
    }

    /// Says of the column that it is odd so, once.
    fn tell(&mut self, odd: Odd, found: &mut Oddities) {
        self.is_open = false;
        found.take(odd);
    }

    /// Takes a value that says something of its row, which is odd so if it differs from the first.
    fn take_state(
        &mut self,
        value: &str,
        odd: Odd,
        found: &mut Oddities,
    ) -> Result<(), AllocError> {
        match self.first {
            None => {
                self.first = Some(odd);
                return self.value.push_str(value);
            }
            Some(first) if self.is_other(value) => {
                let before = Some(first.mark);
                let odd = self.of_bits(Odd { before, ..odd }, value);
                if self.has != Has::Units {
                    self.tell(odd, found);
                } else if self.further.is_none() {
                    self.further = Some(odd);
                }
            }
            Some(_) => {}
        }
        Ok(())
    }

    /// A row that is odd for this value, of a column of bits if both it and the first row's are one.
    fn of_bits(&self, odd: Odd, value: &str) -> Odd {
        let are_bits = is_one_of(BITS, value) && is_one_of(BITS, self.value.as_str());
        if are_bits && odd.oddity == Oddity::ValidColumn {
            odd.in_form(OF_BITS)
        } else {
            odd
        }
    }

    /// Whether a value says something else of a row than the section's first row has.
    fn is_other(&self, value: &str) -> bool {
        let first = self.value.as_str();
        let is_number = |text: &str| is_digits(text) && !is_one_of("0|1", text);
        let says = |text: &str| is_one_of(STATES, text) || is_one_of(BITS, text);
        let is_state = says(value) || says(first);
        let differs = !value.eq_ignore_ascii_case(first);
        match self.has {
            Has::Units => differs && is_one_of(PASSED, value) == is_one_of(FAILED, first),
            Has::Notes => says_not_counted(value) != says_not_counted(first),
            Has::Currencies | Has::Rounds => differs,
            Has::Points => differs && (has_points(value) || has_points(first)),
            Has::ValidOrMore => differs && is_state && !is_number(value) && !is_number(first),
            _ => differs && (is_state || value.is_empty() != first.is_empty()),
        }
    }

    /// Takes a value that may be the date of a vote, which META may exclude.
    fn take_date(&mut self, value: &str, limits: &Limits, odd: Odd) {
        let (day, before) = (day_of(value), limits.dates);
        let is_outside = |days: u64| day.is_some_and(|day| limits.exclude(day, days));
        self.is_open = before.is_some() && (day.is_some() || value.is_empty());
        self.count = self.count.saturating_add(1);
        self.other = self.other.saturating_add(u64::from(is_outside(NEAR)));
        if is_outside(NEXT) {
            self.further = Some(Odd { before, ..odd }.behind(self.further));
        } else {
            self.within = self.within.saturating_add(u64::from(day.is_some()));
        }
    }

    /// Takes a district that is not META's; whether all voters have the same one is seen where there are several.
    fn take_district(&mut self, value: &str, is_vote: bool, odd: Odd) -> Result<(), AllocError> {
        if self.further.is_none() && is_vote {
            self.value.push_str(value)?;
        }
        let is_same = value.eq_ignore_ascii_case(self.value.as_str());
        self.other = self.other.saturating_add(u64::from(!is_same));
        self.further = Some(odd.behind(self.further));
        Ok(())
    }

    /// The first row with another value, as odd so if three others for each such are what they should be, or if nearly all dates
    /// are far from META's.
    fn told(&self, odd: Odd) -> Option<Odd> {
        let are_far = self.within == 0
            && self.other == odd.number
            && self.other >= FEWEST_DATES
            && self.other.saturating_mul(10) >= self.count.saturating_mul(9);
        let are_most = self.within >= odd.number.saturating_mul(3);
        let is_other = self.within == 0 && self.other == 0 && odd.number >= FEWEST_VOTERS;
        match self.has {
            Has::Units => Some(odd),
            Has::Dates if are_far => Some(odd),
            Has::Dates if are_most && self.within >= FEWEST_DATES => Some(odd.in_form(OUTSIDE)),
            Has::Districts if are_most => Some(odd),
            Has::Districts if is_other => Some(odd.in_form(OTHER_DISTRICT)),
            _ => None,
        }
    }

    /// Takes a value beside this cost; where it is empty the cost was not changed.
    fn take_cost(&mut self, value: &str, cost: Option<Money>) {
        let amount = Money::read(value).ok();
        let is_other = !value.is_empty() && amount != cost;
        self.is_open = amount.is_some() || value.is_empty();
        self.count = self.count.saturating_add(1);
        self.other = self.other.saturating_add(u64::from(is_other));
    }
}

/// The last place of a column's name, and how often it stands in a row.
pub fn places_of(row: &ByteRecord, column: Column) -> (usize, u64) {
    let (mut last, mut count) = (0usize, 0u64);
    for place in 0..row.len() {
        if text_at(row, place).eq_ignore_ascii_case(column.name()) {
            last = place;
            count = count.saturating_add(1);
        }
    }
    (last, count)
}

/// Whether a value is a currency or says of how many an amount is: each of its words is one for that.
pub fn is_money(value: &str) -> bool {
    let mut words = value.split(|c: char| c.is_whitespace() || "().,/".contains(c));
    !value.is_empty() && words.all(|word| word.is_empty() || is_one_of(UNITS, word))
}

/// Whether META names a currency, and a row another one.
fn differs(currency: &str, value: &str) -> bool {
    !currency.is_empty() && !value.eq_ignore_ascii_case(currency)
}

/// Whether a value is the answer of a check.
fn is_answer(value: &str) -> bool {
    is_one_of(PASSED, value) || is_one_of(FAILED, value)
}

/// Whether a value of a column of points says that not each project has one.
fn has_points(value: &str) -> bool {
    value
        .split(',')
        .any(|piece| !matches!(piece.trim(), "" | "1"))
}

/// Whether a value says that a row is not one ballot, and not how many projects its vote names.
fn is_number(value: &str, projects: u64) -> bool {
    let hundredths = Money::read(value).map_or(100, |amount| amount.0);
    hundredths != 100 && hundredths != projects.saturating_mul(100)
}
