//! The money by category.

ghost use Rattle.std.specs.Prelude.{◌≡◌, ◌<◌, ◌^◌, ◌==◌, IfOk, OnOk, flat_map, if◌then◌else◌, length, map};
ghost use Rattle.std.specs.List.{range_with_len};
ghost use Rattle.pb_page.specs.Content.{section};
ghost use Rattle.pb_page.specs.Inner.Grown.{Grows};
ghost use Rattle.pb_page.specs.Inner.Counted.{in_category};
ghost use Rattle.pb_page.specs.Page.{categories, category_name, category_row};
ghost use Rattle.pb_page.specs.Words.{sentence};
ghost use Rattle.pb_page.specs.declared.keys.TheConstants as key;
ghost use Rattle.pb_reasons.specs.Counted.{winners_of};

use crate::categories::Categories;
use crate::facts::Facts;
use crate::forms::bar;
use crate::in_category::InCategory;
use crate::keys;
use crate::language::Language;
use crate::markup::Value;
use crate::put::{put, put_own};
use crate::templates::{CATEGORIES_OPENING, CATEGORY, TABLE_CLOSING};
use pb_core::money::Money;
use pb_core::no_memory::NoMemory;
use pb_reasons::CountedElection;
use std::alloc::Global;

/// The winners of each category and their money, where the facts have categories; otherwise nothing.
#[tactic(auto, using(crate::proofs::Grown::none), unfolding(crate::specs::Page::categories))]
pub(crate) fn put_categories(
    page: &mut Vec<u8>,
    facts: &Facts,
    count: &CountedElection,
) -> Result<(), NoMemory>
    ensures { OnOk result (Grows page.old.items page.new.items
        (flat_map (section facts.now.language) (categories facts.now count.now))) }
{
    match &facts.categories {
        Some(categories) => {
            let language = &facts.language;
            let heads = [
                Value::Said(keys::CATEGORIES_HEADING),
                Value::Said(keys::CATEGORIES_CAPTION),
                Value::Said(keys::CATEGORY),
                Value::Said(keys::CATEGORY_WON),
                Value::Said(keys::CATEGORY_COST),
            ];
            put(page, language, CATEGORIES_OPENING, &heads)?;
            put_rows(page, language, count, categories)?;
            put_own(page, TABLE_CLOSING)
        }
        None => Ok(()),
    }
}

/// A row for each category.
fn put_rows<'a>(
    page: &mut Vec<u8>,
    language: &Language<'a>,
    count: &CountedElection,
    categories: &Categories<'a>,
) -> Result<(), NoMemory>
    ensures { OnOk result (Grows page.old.items page.new.items
        (flat_map (category_row language.now count.now categories.now)
        (range_with_len 0 (length categories.now.names.now)))) }
{
    let budget = count.election().budget();
    let sums = add_up(*page.allocator(), count, categories, count.winners())?;
    for number in 0..sums.len() {
        let sum = sums[number];
        let cells = [
            Value::Text(name_of(&*language, categories, number)),
            Value::Number(bar(sum.cost, budget)),
            Value::Said(keys::CATEGORY_WON),
            Value::Number(sum.winners),
            Value::Grouped(sum.winners, language.costs.group),
            Value::Said(keys::CATEGORY_COST),
            Value::Amount(sum.cost),
            Value::Shown(sum.cost, language.costs),
        ];
        put(page, &*language, CATEGORY, &cells)?;
    }
    Ok(())
}

/// What a category is called: its text, or that it is none.
fn name_of<'a>(language: &Language<'a>, categories: &Categories<'a>, number: usize) -> &'a str
    ensures { result.now ≡ (if length (category_name categories.now number) == 0
        then sentence language.now.words key.NO_CATEGORY else category_name categories.now number) }
{
    let name = categories.name(number);
    if name.is_empty() {
        language.text(keys::NO_CATEGORY)
    } else {
        name
    }
}

/// What each category has of the winners, which are at these places.
fn add_up(
    alloc: Global,
    count: &CountedElection,
    categories: &Categories,
    winners: &[u32],
) -> Result<Vec<InCategory>, NoMemory>
    requires winners { winners.now ≡ winners_of count.now.counted }
    requires few { length winners.now < 2 ^ 64 }
    ensures { IfOk result (λ sums. sums.items ≡
        map (in_category count.now categories.now winners.now)
        (range_with_len 0 (length categories.now.names.now))) }
{
    let projects = count.election().projects();
    let nothing = InCategory {
        winners: 0,
        cost: Money(0),
    };
    let mut sums = vec![in alloc; nothing; categories.names.len()]?;
    for place in winners {
        let project = &projects[*place as usize];
        let cost = project.cost();
        let number = categories.of(count.place(*place));
        if number < sums.len() {
            let sum = sums[number];
            sums[number] = sum.with(cost);
        }
    }
    Ok(sums)
}
