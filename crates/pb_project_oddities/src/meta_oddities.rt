//! What in META can change a result, and what META says that other warnings rest on.

use crate::prelude::*;
use crate::sums::{is_below_costs, is_below_most, may_be_sum, sum_below_budget};
use pb_core::money_fault::MoneyFault;
use pb_core::project::Project;
use pb_oddities::column_kinds::{DISTRICT, LATER};
use pb_oddities::columns::is_money;
use pb_oddities::row::{Limits, day_of, year_of};
use pb_oddities::unread::UnreadKeys;
use pb_read::MetaKey;
use pb_seen::amounts::{has_decimals, has_thousands_mark, whole_number};
use pb_seen::changed::{begins, has_digit, has_one_of, has_part, has_word, is_one_of};
use pb_seen::keys::Keys;
use std::mem;

/// Words in a key beside `budget` that make it no budget of a district or category, as one for each person.
const NO_DISTRICT: &str =
    "total|overall|whole|city|max|maximum|min|minimum|average|project|spent|used|unused|left|\
    leftover|remaining|rest|reserve|available|previous|last|next|year|final|id|phase|code|number|no|\
    version|share|edition|eur|euro|usd|gbp|pln|chf|czk|huf|ron|bgn|sek|nok|dkk|isk|uah|rub|try|cad|aud|\
    jpy|cny|krw|inr|brl|mxn|zar|capita|resident|inhabitant|person|head|citizen|household|voter|pupil";

/// What META's third column is called if it has values of keys.
const VALUES: &str =
    "value|values|new|new value|new_value|corrected|correction|changed|amended|final|budget|amount";

/// The usual keys of how many rows there are; and these beside others.
const USUAL: &str = "num_votes|num_projects";

const VOTES: &str = "num_votes|num_vote|numvotes|number_of_votes|no_of_votes|number_votes";

const PROJECTS: &str =
    "num_projects|num_project|numprojects|number_of_projects|no_of_projects|number_projects";

/// How `max_length` and `min_length` are misspelled; or written with signs at their ends.
const MISSPELLED: &str =
    "max_lenght|max_lengh|max_lengt|max_lenth|max_legth|max_leght|max_lenghth|max_lengths|max_len|\
    maxlength|maxlenght|max-length|max length|min_lenght|min_lengh|min_lengt|min_lenth|min_legth|\
    min_leght|min_lenghth|min_lengths|min_len|minlength|minlenght|min-length|min length|\
    max_length|min_length";

/// Parts of a key that says how many projects a ballot may name.
const OF_MOST: &str = "max|limit|per_";

const OF_BALLOTS: &str = "choice|vote|project|select|approv";

/// A number of rows that a row of META says.
#[derive(Clone, Copy)]
struct ClaimedNumber {
    /// Where its record begins.
    mark: Mark,
    /// None where the value is no whole number; the largest `u64` for one above every amount.
    number: Option<u64>,
    /// Whether the key is the usual one.
    is_usual: bool,
}

/// What META says; of a repeated key the last value counts.
#[derive(Drop)]
pub struct MetaOddities {
    alloc: Global,
    votes: Option<ClaimedNumber>,
    projects: Option<ClaimedNumber>,
    pub limits: Limits,
    /// Whether the third column has a name by which it holds no values of keys.
    third_is_other: bool,
    /// The fewest ballots that have to approve a project, where META says so.
    pub fewest: Option<u64>,
    /// The district that the file is of, and the currency of its amounts; empty if META names none.
    pub district: String,
    pub currency: String,
    /// The value of `rule`; empty if there is none.
    rule: String,
    rule_mark: Mark,
    /// The row of the budget, and whether three digits stand behind its mark.
    budget: Mark,
    has_thousands: bool,
    /// Whether only rows without a key have come since.
    is_below_budget: bool,
    /// The first row of a budget beside it, measured by how many there are, and whether one is of each
    /// district.
    further: Option<Odd>,
    has_budget_per: bool,
    /// The row of a later budget, by its key, with its hundredths, and its year or the largest number: the latest.
    later: Option<Odd>,
    unread: UnreadKeys,
    /// The row that may be meant for `max_length`, by its key, with what it allows.
    most: Option<Odd>,
}

impl MetaOddities {
    /// META has said nothing yet.
    pub fn new(alloc: Global) -> MetaOddities {
        MetaOddities {
            alloc,
            votes: None,
            projects: None,
            limits: Limits::default(),
            third_is_other: false,
            fewest: None,
            district: String::new(alloc),
            currency: String::new(alloc),
            rule: String::new(alloc),
            rule_mark: Mark::start(),
            budget: Mark::start(),
            has_thousands: false,
            is_below_budget: false,
            further: None,
            has_budget_per: false,
            later: None,
            unread: UnreadKeys::new(alloc),
            most: None,
        }
    }

    /// The rule that META names, and where, if it does.
    pub fn rule(&self) -> Option<(&str, Mark)> {
        let rule = self.rule.as_str();
        (!rule.is_empty()).then_some((rule, self.rule_mark))
    }

    /// Takes META's row of column names.
    pub fn take_names(&mut self, names: &ByteRecord) {
        let third = text_at(names, 2);
        let is_value = is_one_of(VALUES, third) || whole_number(third).is_some();
        self.third_is_other = !third.is_empty() && !is_value;
    }

    /// Takes a row of META, which begins here; the rows before it gave these keys.
    pub fn take(
        &mut self,
        row: &ByteRecord,
        mark: Mark,
        keys: &Keys,
        found: &mut Oddities,
    ) -> Result<(), AllocError> {
        let (key, value) = (text_at(row, 0), text_at(row, 1));
        self.is_below_budget &= key.is_empty();
        if self.is_below_budget && is_like_amount(value) {
            found.take(Odd::of_key(Oddity::RepeatedKey, mark).in_form(6));
        } else if let Some(used) = MetaKey::of(key) {
            if let Some(given) = keys.given(used) {
                let before = Some(given.last);
                let odd = Odd::of_key(Oddity::RepeatedKey, mark);
                found.take(Odd { before, ..odd });
            }
            if used == MetaKey::Budget {
                let has_third = row.len() > 2 && !self.third_is_other;
                if has_third && Money::read(text_at(row, 2)).is_ok() {
                    found.take(Odd::of_key(Oddity::SurplusFields, mark).in_form(1).at(2));
                }
                self.budget = mark;
                self.is_below_budget = true;
                self.has_thousands = has_thousands_mark(value);
                found.has_decimals |= has_decimals(value);
            }
        } else if !self.takes_limit((key, value), mark) {
            self.take_other((key, value), mark, found)?;
        }
        Ok(())
    }

    /// Takes a key that says what a ballot or a winner needs, and answers whether it is one.
    fn takes_limit(&mut self, (key, value): (&str, &str), mark: Mark) -> bool {
        let is_it = |word: &str| key.eq_ignore_ascii_case(word);
        if is_it("min_length") {
            self.limits.min_length = whole_number(value);
        } else if is_it("min_sum_cost") {
            self.limits.min_cost = hundredths(value);
        } else if is_it("max_sum_cost") {
            self.limits.max_cost = hundredths(value);
        } else if is_it("date_begin") {
            self.limits.begin = day_of(value);
            self.limits.dates = Some(mark);
        } else if is_it("date_end") {
            self.limits.end = day_of(value);
            self.limits.dates = Some(mark);
        } else if is_it("min_project_score_threshold") {
            self.fewest = whole_number(value);
        } else {
            return false;
        }
        true
    }

    /// Takes another key that the count does not use.
    fn take_other(
        &mut self,
        (key, value): (&str, &str),
        mark: Mark,
        found: &mut Oddities,
    ) -> Result<(), AllocError> {
        if is_one_of(VOTES, key) {
            self.votes = claim_of(self.votes, key, value, mark);
        } else if is_one_of(PROJECTS, key) {
            self.projects = claim_of(self.projects, key, value, mark);
        } else if is_misspelled(key) {
            found.take(Odd::of_key(Oddity::RepeatedKey, mark).in_form(2));
        } else if value.is_empty() && has_used_key(key) {
            found.take(Odd::of_key(Oddity::RepeatedKey, mark).in_form(9));
        } else if key.eq_ignore_ascii_case("rule") {
            put_in_place(self.alloc, &mut self.rule, value)?;
            self.rule_mark = mark;
        } else {
            if is_one_of(DISTRICT, key) {
                put_in_place(self.alloc, &mut self.district, value)?;
            } else if key.eq_ignore_ascii_case("currency") {
                put_in_place(self.alloc, &mut self.currency, value)?;
            }
            self.take_further(key, value, mark);
            if is_of_length(key) {
                let odd = Odd::of_key(Oddity::RepeatedKey, mark).in_form(5);
                let limit = whole_number(value).filter(|number| matches!(*number, 1..=99));
                self.most = Some(Odd { limit, ..odd });
            }
            self.unread.take((key, value), mark)?;
        }
        Ok(())
    }

    /// Takes a key that may be a budget beside the one that is counted.
    fn take_further(&mut self, key: &str, value: &str, mark: Mark) {
        if let (Some(year), Some(amount)) = (year_of_later(key), hundredths(value)) {
            let odd = Odd::of_key(Oddity::RepeatedKey, mark).in_form(7).by(amount);
            let is_last = self.later.is_none_or(|odd| odd.limit <= Some(year));
            if is_last {
                let limit = Some(year);
                self.later = Some(Odd { limit, ..odd });
            }
            return;
        }
        let is_per = begins(key, "budget_per_") && !value.is_empty();
        let is_meant = is_per || (is_of_budget(key) && are_amounts(value));
        if !is_meant || is_of_no_district(key) {
            return;
        }
        self.has_budget_per |= is_per;
        let odd = Odd::of_key(Oddity::DistrictBudgets, mark);
        self.further = Some(odd.behind(self.further));
    }

    /// Takes the end of META: now its budget is known.
    pub fn end_meta(&mut self, found: &mut Oddities) {
        if self.has_thousands {
            found.take(Odd::of_key(Oddity::ThousandsMark, self.budget));
        }
    }

    /// Takes the end of the file, with so many rows of VOTES and of PROJECTS.
    pub fn end(
        &self,
        election: &Election,
        rows: (u64, u64),
        has_districts: bool,
        found: &mut Oddities,
    ) -> Result<(), AllocError> {
        let (approvals, is_whole) = (approvals_of(election), !found.refuses_votes);
        let may_be = |claim: &ClaimedNumber| {
            claim.is_usual || (is_whole && claim.number != Some(approvals))
        };
        let votes = self.votes.filter(may_be);
        found.has_number = votes.is_some();
        take_broken(Oddity::VotesMissing, votes, rows.0, found);
        take_broken(Oddity::ProjectsMissing, self.projects, rows.1, found);
        let below = Odd::of_key(Oddity::BudgetBelowCosts, self.budget);
        if is_below_costs(election) {
            found.take(below);
        } else if is_below_most(election) {
            found.take(below.in_form(1));
        } else if let Some((sum, form)) = sum_below_budget(election) {
            found.take(below.as_a(Oddity::BudgetAboveCosts).in_form(form).by(sum));
        } else if may_be_sum(election.projects(), election.budget().0) {
            found.take(below.as_a(Oddity::BudgetAboveCosts).in_form(2));
        }
        let are_of_parts = self.has_budget_per || has_districts;
        let further = self.further.filter(|odd| are_of_parts || odd.number > 1);
        found.take_some(further.map(|odd| odd.by(0)));
        let day = self.limits.begin.or(self.limits.end).unwrap_or(u64::MAX);
        let is_later = |odd: &Odd| {
            odd.number != election.budget().0 && odd.limit >= Some(year_of(day))
        };
        found.take_some(self.later.filter(is_later));
        found.take_some(self.most.and_then(|odd| broken_by_few(odd, election)));
        self.unread.end(election, found)
    }
}

/// Takes a claim that is of other than so many rows.
fn take_broken(oddity: Oddity, claim: Option<ClaimedNumber>, count: u64, found: &mut Oddities) {
    let Some(claim) = claim else {
        return;
    };
    let form = match claim.number {
        Some(said) if said == count => return,
        Some(said) => usize::from(said < count),
        None => 2,
    };
    found.take(Odd {
        limit: claim.number,
        ..Odd::of_key(oddity, claim.mark).by(count).in_form(form)
    });
}

/// The row of a key that may be meant for `max_length`, if this is not there, and some ballots name more projects, but
/// at most a quarter of all.
fn broken_by_few(odd: Odd, election: &Election) -> Option<Odd> {
    let limit = odd.limit?;
    let voters = election.voters();
    let names_more = |length: usize| length as u64 > limit;
    let more = voters
        .iter()
        .filter(|voter| names_more(voter.ballot.places().len()))
        .count();
    let are_few = more > 0 && more.saturating_mul(4) <= voters.len();
    (are_few && election.max_length().is_none()).then_some(odd.by(more as u64))
}

/// Whether a field begins with a key that counts use, and has another sign than `;` and a value behind it.
fn has_used_key(field: &str) -> bool {
    MetaKey::ALL.iter().any(|key| {
        let behind = field.get(key.text().len()..).unwrap_or("");
        let value = behind.trim_start();
        let is_apart = value.len() < behind.len()
            && value.starts_with(|c: char| c.is_ascii_digit());
        begins(field, key.text()) && (is_apart || value.starts_with(|c: char| "=:;,".contains(c)))
    })
}

/// Whether a key that is neither may be `max_length` or `min_length`.
fn is_misspelled(key: &str) -> bool {
    is_one_of(MISSPELLED, key.trim_matches(|c: char| !c.is_alphanumeric()))
}

/// Whether a key seems to say how many projects a ballot may name.
fn is_of_length(key: &str) -> bool {
    has_part(OF_MOST, key) && has_part(OF_BALLOTS, key) && !has_word(key, "min")
}

/// Whether a key has `budget` at its start or its end.
fn is_of_budget(key: &str) -> bool {
    let (bytes, word) = (key.as_bytes(), "budget");
    let rest = bytes.len().saturating_sub(word.len());
    begins(key, word) || bytes[rest..].eq_ignore_ascii_case(word.as_bytes())
}

/// Whether a key has a word, or the number of a year, that makes it no budget of a district.
fn is_of_no_district(key: &str) -> bool {
    let is_year = |word: &str| matches!(whole_number(word), Some(1900..=2100));
    has_one_of(NO_DISTRICT, key) || key.split(|c: char| !c.is_alphanumeric()).any(is_year)
}

/// The year in a key that has only `budget` and this, or a word such as `new` for one that replaces an earlier budget: then
/// the largest number.
fn year_of_later(key: &str) -> Option<u64> {
    let mut year = None;
    for word in key.split(|c: char| !c.is_alphanumeric()) {
        let said = whole_number(word).filter(|year| matches!(*year, 1900..=2100));
        year = match said {
            _ if word.eq_ignore_ascii_case("budget") => year,
            None if is_one_of(LATER, word) => Some(u64::MAX),
            Some(_) => year.max(said),
            None => return None,
        };
    }
    year
}

/// Whether a value is amounts, with `,` between them.
fn are_amounts(value: &str) -> bool {
    value
        .split(',')
        .all(|piece| Money::read(piece.trim()).is_ok())
}

/// Whether a value is digits with marks of an amount between them, and perhaps a currency behind them.
fn is_like_amount(value: &str) -> bool {
    let is_of_number = |c: char| c.is_ascii_digit() || c.is_whitespace() || ".,'".contains(c);
    let number = value.trim_end_matches(|c: char| !is_of_number(c));
    let unit = value.get(number.len()..).unwrap_or("");
    let is_amount = has_digit(number) && number.chars().all(is_of_number);
    is_amount && (unit.is_empty() || is_money(unit))
}

/// What is claimed after a value of this key, whose record begins here. An empty value claims nothing; that
/// of an unusual key claims something only if it is a whole number, and the usual key does not.
fn claim_of(
    before: Option<ClaimedNumber>,
    key: &str,
    value: &str,
    mark: Mark,
) -> Option<ClaimedNumber> {
    let is_usual = is_one_of(USUAL, key);
    let number = match Money::read(value) {
        Err(MoneyFault::MoneyTooLarge) => Some(u64::MAX),
        _ => whole_number(value),
    };
    match before {
        Some(claim) if !is_usual && claim.is_usual => before,
        _ if value.is_empty() || (!is_usual && number.is_none()) => None,
        _ => Some(ClaimedNumber {
            mark,
            number,
            is_usual,
        }),
    }
}

/// How many approvals all ballots have.
fn approvals_of(election: &Election) -> u64 {
    let lengths = election
        .voters()
        .iter()
        .map(|voter| voter.ballot.places().len());
    lengths.fold(0, |sum: u64, length| sum.saturating_add(length as u64))
}

/// The hundredths of the amount that a value is; none if it is no amount or 0, which sets no limit.
fn hundredths(value: &str) -> Option<u64> {
    let Money(hundredths) = Money::read(value).ok()?;
    (hundredths > 0).then_some(hundredths)
}

/// Puts a text in place of another.
fn put_in_place(alloc: Global, text: &mut String, other: &str) -> Result<(), AllocError> {
    drop(mem::replace(text, String::from_str(alloc, other)?));
    Ok(())
}
