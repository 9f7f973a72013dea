//! The row of a project, by how it ended.

ghost use Rattle.std.specs.Prelude.{◌≡◌, ◌<◌, [], ◌∷◌, OnOk, codes, length};
ghost use Rattle.std.specs.Option.{option_map_or};
ghost use Rattle.pb_page.specs.Content.{fill, said, text};
ghost use Rattle.pb_page.specs.Inner.Counted.{lacking, project_of, went_as};
ghost use Rattle.pb_page.specs.Inner.Grown.{Grows};
ghost use Rattle.pb_page.specs.Page.{category_name, category_of, cells, ended_row, row_at};
ghost use Rattle.pb_page.specs.declared.keys.TheConstants as key;
ghost use Rattle.pb_price.specs.Price.{HasPayers};
ghost use Rattle.pb_price.specs.Supporters.{support_in};
ghost use Rattle.pb_reasons.specs.declared.project_reason.Won.{Won};

use crate::counted_in::{counted_in, hundredths_in, price_in};
use crate::facts::Facts;
use crate::forms::bar;
use crate::keys;
use crate::language::Language;
use crate::markup::{Value, rounded};
use crate::place::Place;
use crate::put::{put, put_own};
use crate::rule::short_key;
use crate::sentences::say;
use crate::templates::{
    ADDED, OTHER, OTHER_CLOSING, OTHER_OPENING, PASSED_OVER, ROW_CATEGORY, ROW_CLOSING,
    ROW_OPENING, WINNER,
};
use crate::went::{paid_of, put_went};
use pb_core::money::Money;
use pb_core::no_memory::NoMemory;
use pb_reasons::{Added, CountedElection, Ending, Lost, MoneyPaid, MoneyTeller, Won};

/// A project, as its row has it.
#[derive(Clone, Copy)]
pub struct ProjectRow<'a> {
    pub id: &'a str,
    pub name: &'a str,
    pub cost: Money,
    /// How many voters chose it.
    pub votes: u32,
    /// The budget of the election.
    pub budget: Money,
    /// The count itself.
    pub count: &'a CountedElection,
    /// The key of what stands above what projects were short; none where nobody has a share, or nobody voted.
    pub short: Option<u16>,
}

/// The row of the project at this place.
pub(crate) fn put_row(
    page: &mut Vec<u8>,
    facts: &Facts,
    money: &MoneyTeller,
    place: u32,
) -> Result<(), NoMemory>
    requires { place < length money.now.election.projects }
    ensures { OnOk result (Grows page.old.items page.new.items (row_at facts.now money.now place)) }
{
    let count = money.count();
    let election = count.election();
    let projects = election.projects();
    let project = &projects[place as usize];
    let reason = count.project(place);
    let paid = paid_of(*page.allocator(), money, place, &reason)?;
    let row = ProjectRow {
        id: project.id(),
        name: project.name(),
        cost: project.cost(),
        votes: reason.votes,
        budget: election.budget(),
        count,
        short: short_key(count),
    };
    let names = [Value::Small(count.place(place)), Value::Text(row.id)];
    put(page, &facts.language, ROW_OPENING, &names)?;
    put_ended(page, &facts.language, &row, &reason.ending, &paid)?;
    put_category(page, facts, count.place(place))?;
    put_own(page, ROW_CLOSING)
}

/// The cells of a project that ended so, up to that of its category.
fn put_ended<'a>(
    page: &mut Vec<u8>,
    language: &Language<'a>,
    row: &ProjectRow<'a>,
    ending: &Ending,
    paid: &Option<MoneyPaid>,
) -> Result<(), NoMemory>
    requires { (won : Won) → ending.now ≡ Ending.Won won → HasPayers
        (support_in row.now.count.now.rule.options.grain row.now.count.now.election) won.exact }
    ensures { OnOk result (Grows page.old.items page.new.items (ended_row language.now row.now.count.now row.now.short row.now.budget
        (project_of row.now) row.now.votes (went_as language.now row.now.count.now paid.now) ending.now)) }
{
    match ending {
        Ending::Won(won) => put_elected(page, language, row, won),
        Ending::Added(added) => put_added(page, language, row, added),
        Ending::Lost(lost) => put_lost(page, language, row, lost, paid),
    }
}

/// Those of an elected project.
fn put_elected<'a>(
    page: &mut Vec<u8>,
    language: &Language<'a>,
    row: &ProjectRow<'a>,
    won: &Won,
) -> Result<(), NoMemory>
    requires { HasPayers (support_in row.now.count.now.rule.options.grain row.now.count.now.election) won.now.exact }
    ensures { OnOk result (Grows page.old.items page.new.items (ended_row language.now row.now.count.now
        row.now.short row.now.budget (project_of row.now) row.now.votes (λ left. []) (Ending.Won won.now))) }
{
    let group = language.costs.group;
    let price = price_in(row.count, won.exact);
    let cells = [
        Value::Said(keys::ROUND),
        Value::Small(won.round),
        Value::Grouped(won.round as u64, group),
        Value::Text(row.id),
        Value::Text(row.name),
        Value::Number(bar(row.cost, row.budget)),
        Value::Said(keys::COST),
        Value::Amount(row.cost),
        Value::Shown(row.cost, language.costs),
        Value::Said(keys::VOTES),
        Value::Small(row.votes),
        Value::Grouped(row.votes as u64, group),
        Value::Said(keys::PRICE),
        Value::Exact(price.amount, price.divisor),
        Value::Hundredths(rounded(&price), language.amounts),
        Value::Said(keys::IN_FULL),
        Value::Small(won.in_full),
        Value::Grouped(won.in_full as u64, group),
    ];
    put(page, language, WINNER, &cells)
}

/// Those of an added project.
fn put_added<'a>(
    page: &mut Vec<u8>,
    language: &Language<'a>,
    row: &ProjectRow<'a>,
    added: &Added,
) -> Result<(), NoMemory>
    ensures { OnOk result (Grows page.old.items page.new.items (ended_row language.now row.now.count.now
        row.now.short row.now.budget (project_of row.now) row.now.votes (λ left. []) (Ending.Added added.now))) }
{
    let group = language.costs.group;
    let cells = [
        Value::Said(keys::NUMBER),
        Value::Number(added.number),
        Value::Grouped(added.number, group),
        Value::Text(row.id),
        Value::Text(row.name),
        Value::Number(bar(row.cost, row.budget)),
        Value::Said(keys::COST),
        Value::Amount(row.cost),
        Value::Shown(row.cost, language.costs),
        Value::Said(keys::VOTES),
        Value::Small(row.votes),
        Value::Grouped(row.votes as u64, group),
    ];
    put(page, language, ADDED, &cells)
}

/// Those of a project that did not win: with what its supporters have left, where voters have shares.
fn put_lost<'a>(
    page: &mut Vec<u8>,
    language: &Language<'a>,
    row: &ProjectRow<'a>,
    lost: &Lost,
    paid: &Option<MoneyPaid>,
) -> Result<(), NoMemory>
    ensures { OnOk result (Grows page.old.items page.new.items (ended_row language.now row.now.count.now row.now.short row.now.budget
        (project_of row.now) row.now.votes (went_as language.now row.now.count.now paid.now) (Ending.Lost lost.now))) }
{
    match row.short {
        Some(short) => {
            let left = hundredths_in(row.count, false, lost.left);
            let head = [
                Value::Text(row.id),
                Value::Text(row.name),
                Value::Number(bar(left, row.cost)),
            ];
            put(page, language, OTHER_OPENING, &head)?;
            put_went(page, language, row.count, paid, lost.left)?;
            put_lacking(page, language, row, short, lost)
        }
        None => put_passed_over(page, language, row),
    }
}

/// What stands behind where the money went: the cells, with this above what was missing.
fn put_lacking<'a>(
    page: &mut Vec<u8>,
    language: &Language<'a>,
    row: &ProjectRow<'a>,
    short: u16,
    lost: &Lost,
) -> Result<(), NoMemory>
    ensures { OnOk result (Grows page.old.items page.new.items
        (lacking language.now row.now.count.now short (project_of row.now) row.now.votes lost.now)) }
{
    let left = counted_in(row.count, false, lost.left);
    let missing = counted_in(row.count, true, lost.missing);
    let cells = [
        Value::Said(keys::COST),
        Value::Amount(row.cost),
        Value::Shown(row.cost, language.costs),
        Value::Said(keys::VOTES),
        Value::Small(row.votes),
        Value::Grouped(row.votes as u64, language.costs.group),
        Value::Said(keys::LEFT),
        Value::Exact(left.amount, left.divisor),
        Value::Hundredths(rounded(&left), language.amounts),
        Value::Said(short),
        Value::Exact(missing.amount, missing.divisor),
    ];
    put(page, language, OTHER, &cells)?;
    let shown = hundredths_in(row.count, true, lost.missing);
    let said = Place::Shown(shown, language.amounts);
    say(page, language, keys::SHORT, &[said])?;
    put_own(page, OTHER_CLOSING)
}

/// The cells of a project that did not win, where nobody has a share.
fn put_passed_over<'a>(
    page: &mut Vec<u8>,
    language: &Language<'a>,
    row: &ProjectRow<'a>,
) -> Result<(), NoMemory>
    ensures { OnOk result (Grows page.old.items page.new.items
        (cells language.now (project_of row.now) row.now.votes [])) }
{
    let cells = [
        Value::Text(row.id),
        Value::Text(row.name),
        Value::Said(keys::COST),
        Value::Amount(row.cost),
        Value::Shown(row.cost, language.costs),
        Value::Said(keys::VOTES),
        Value::Small(row.votes),
        Value::Grouped(row.votes as u64, language.costs.group),
    ];
    put(page, language, PASSED_OVER, &cells)
}

/// The cell of the category of the project at this place, where there are categories.
#[tactic(auto, using(crate::proofs::Grown::none))]
fn put_category(page: &mut Vec<u8>, facts: &Facts, place: u32) -> Result<(), NoMemory>
    ensures { OnOk result (Grows page.old.items page.new.items (option_map_or (λ g.
        fill (codes "<td role='cell' data-label='~'><bdi dir='auto'>~</bdi></td>")
        (said facts.now.language key.CATEGORY ∷ text (category_name g (category_of g place)) ∷ [])) facts.now.categories [])) }
{
    match &facts.categories {
        Some(categories) => {
            let name = categories.name(categories.of(place));
            let cell = [Value::Said(keys::CATEGORY), Value::Text(name)];
            put(page, &facts.language, ROW_CATEGORY, &cell)
        }
        None => Ok(()),
    }
}
