//! Columns of PROJECTS whose values votes may name in place of the ids.

use crate::prelude::*;
use pb_oddities::columns::MOST_COLUMNS;
use pb_seen::amounts::whole_number;
use pb_seen::changed::{has_one_of, has_word, is_digits, is_one_of};

/// The fewest ids that votes name, and the longest value that may be one, in bytes.
const FEWEST: usize = 3;

const LONGEST: usize = 20;

/// Words in the name of a column that may have the ids of the projects, and of one that has none.
const IDS: &str = "id|ids|no|nr|number|code|ballot";

/// Words that may stand before the number of a project in its name.
const NUMBERS: &str = "no|nr|number|project|projekt";

/// Words in the name of a column that may have ids of projects which exclude each other, and of one that may not.
const OF_OTHERS: &str =
    "excludes|excluded|exclusive|alternative|alternatives|conflict|conflicts|into|replaces|replaced|instead|requires|depends|\
    variant";

const OF_NO_OTHERS: &str = "comment|parent|related|group|order";

const NO_IDS: &str = "of|related|parent|order|rank|score|vote|votes|page|district";

/// Words in the name of a column that may have a part of the budget for each row.
const BUDGETS: &str =
    "budget|budgets|limit|pool|allocation|envelope|amount|fund|funds|quota|share|available";

/// A column of PROJECTS, with its values.
#[derive(Drop)]
struct ValueColumn {
    place: usize,
    /// Whether it has the names, of which what may be the number on the ballot is the value.
    is_name: bool,
    values: IdTable,
    /// Whether its name may be that of ids, and of those on the ballot paper, which may number the rows.
    may_be_ids: bool,
    is_of_ballot: bool,
    may_be_budgets: bool,
    /// Whether its name is of projects that exclude each other, and whether its values may name other projects.
    is_of_others: bool,
    may_be_others: bool,
    /// How many different values it has, in how many rows another than the id, in how many of these none, and in how many the
    /// row's number.
    count: usize,
    other: usize,
    empty: usize,
    numbered: usize,
    /// The first row with an amount, and the sum of different amounts, in hundredths.
    first: Option<Odd>,
    sum: u64,
}

/// The columns of PROJECTS beside the id and the cost.
#[derive(Drop)]
pub struct ValueColumns {
    alloc: Global,
    /// Where the row of column names begins.
    header: Mark,
    columns: Vec<ValueColumn>,
}

impl ValueColumns {
    /// Those with these names, which begin here.
    pub fn of(alloc: Global, names: &ByteRecord, header: Mark) -> Result<ValueColumns, AllocError> {
        let read = [Column::ProjectId.name(), Column::Cost.name()];
        let mut columns = Vec::new(alloc);
        for place in 0..names.len().min(MOST_COLUMNS) {
            let name = text_at(names, place);
            if !read.iter().any(|read| name.eq_ignore_ascii_case(read)) {
                let values = IdTable::new(alloc);
                let is_name = name.eq_ignore_ascii_case("name");
                columns.push(ValueColumn {
                    place,
                    is_name,
                    values,
                    may_be_ids: is_name || (has_one_of(IDS, name) && !has_one_of(NO_IDS, name)),
                    is_of_ballot: is_name || has_word(name, "ballot"),
                    may_be_budgets: has_one_of(BUDGETS, name),
                    is_of_others: has_one_of(OF_OTHERS, name),
                    may_be_others: !is_name && !has_one_of(OF_NO_OTHERS, name),
                    count: 0,
                    other: 0,
                    empty: 0,
                    numbered: 0,
                    first: None,
                    sum: 0,
                })?;
            }
        }
        Ok(ValueColumns {
            alloc,
            header,
            columns,
        })
    }

    /// Takes a row that is accepted.
    pub fn take(&mut self, row: &Row<'_>) -> Result<(), AllocError> {
        for column in self.columns.iter_mut() {
            let value = row.at(column.place);
            let value = if column.is_name {
                number_of(value)
            } else {
                value
            };
            column.may_be_others &= value.len() <= LONGEST;
            let is_new = value.len() <= LONGEST
                && column.values.insert(self.alloc, value, 0)?.is_none();
            let is_number = whole_number(value) == Some(row.election.projects().len() as u64);
            let amount = Money::read(value).ok().filter(|_| is_new);
            if let Some(amount) = amount {
                let odd = row
                    .odd(Oddity::DistrictBudgets)
                    .in_form(1)
                    .named_in(self.header);
                column.first = column.first.or(Some(odd.at(column.place)));
                column.sum = column.sum.saturating_add(amount.0);
            }
            column.count = column.count.saturating_add(usize::from(is_new));
            column.other = column.other.saturating_add(usize::from(value != row.id()));
            column.empty = column.empty.saturating_add(usize::from(value.is_empty()));
            column.numbered = column.numbered.saturating_add(usize::from(is_number));
        }
        Ok(())
    }

    /// Takes the end of the file, in which so many ballots approve each project. A column is odd that has each id
    /// that votes name, if nobody approves some projects; or all ids, in another order, and not the rows' numbers (under a
    /// name that may be of ids, or if they are not of digits alone);
    /// or that names other projects alone; or whose different amounts, by its name of budgets, are together the budget.
    pub fn end(&self, election: &Election, supporters: &[u64], found: &mut Oddities) {
        let all = supporters.len();
        let without = supporters.iter().filter(|count| **count == 0).count();
        if all.saturating_sub(without) < FEWEST {
            return;
        }
        let budget = election.budget().0;
        let mut ids = election.projects().iter();
        let are_words = ids.any(|project| !is_digits(project.id()));
        for column in &self.columns {
            let may_be = column.may_be_budgets && budget > 0;
            let are_parts = may_be && column.count > 1 && column.count < all;
            found.take_some(column.first.filter(|_| are_parts && column.sum == budget));
            let mut rows = election.projects().iter().zip(supporters);
            let has = |id: &str| column.values.get(id).is_some();
            let has_all = rows.all(|(project, count)| (without > 0 && *count == 0)
                || has(project.id()));
            let may_be = column.may_be_ids || are_words;
            let is_order = may_be && column.count == all && column.other > 0;
            let is_number = column.numbered == all && !column.is_of_ballot;
            let odd = Odd::of_column(Oddity::RepeatedColumn, self.header, column.place);
            if has_all && without > 0 && column.other > 0 && !column.is_name {
                found.take(odd.in_form(4).by(without as u64));
            } else if has_all && is_order && !is_number {
                found.take(odd.in_form(if column.is_name { 6 } else { 5 }));
            } else if column.may_be_others && column.names_others(election) {
                found.take(odd.as_a(Oddity::ValidColumn).in_form(11));
            }
        }
    }
}

impl ValueColumn {
    /// Whether its values are ids of projects alone, and not only the row's own: any ids, by its name, or such as are not of
    /// digits alone.
    fn names_others(&self, election: &Election) -> bool {
        let is_named = |id: &str| self.values.get(id).is_some();
        let may_be = |id: &str| self.is_of_others || !is_digits(id);
        let projects = election.projects().iter();
        let named = projects.filter(|project| may_be(project.id()) && is_named(project.id()));
        let values = self.count.saturating_sub(usize::from(self.empty > 0));
        self.other > self.empty && named.count() == values
    }
}

/// The first word of a name, or the one behind such as `No.`, without signs, which may be a number on the ballot.
fn number_of(name: &str) -> &str {
    let mut words = name
        .split(|c: char| c.is_whitespace() || ".:)#(".contains(c))
        .filter(|word| !word.is_empty() && !is_one_of(NUMBERS, word));
    words.next().unwrap_or("")
}
