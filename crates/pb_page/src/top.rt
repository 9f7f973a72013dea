//! The sentences on the whole, and the picture of the budget.

ghost use Rattle.std.specs.Prelude.{◌≡◌, ◌+◌, ◌<◌, ◌^◌, ◌==◌, All, OnOk, codes, if◌then◌else◌, length, sum_by};
ghost use Rattle.pb_page.specs.Content.{section};
ghost use Rattle.pb_page.specs.Inner.Counted.{picture_said, result_said, spent_said, voted_said};
ghost use Rattle.pb_page.specs.Inner.Grown.{Grows};
ghost use Rattle.pb_page.specs.Page.{blocks, budget, summary};
ghost use Rattle.pb_page.specs.declared.keys.TheConstants as key;
ghost use Rattle.pb_price.specs.Supporters.{cost_at, support_of};
ghost use Rattle.pb_reasons.specs.Counted.{winners_of};
ghost use Rattle.pb_rounds.specs.RuleNames.{by_grain};

use crate::figures::Figures;
use crate::forms::{bar, called};
use crate::keys;
use crate::language::Language;
use crate::markup::{Divided, Value};
use crate::place::Place;
use crate::put::{put, put_own};
use crate::sentences::say;
use crate::templates::{
    BLOCKS_CLOSING, BLOCKS_OPENING, BUDGET_CLOSING, BUDGET_OPENING, BUDGET_PART, LEAD,
    LEAD_CLOSING, LEAD_NEXT, NOTHING,
};
use pb_core::election::Election;
use pb_core::money::Money;
use pb_core::no_memory::NoMemory;
use pb_price::Grain;
use pb_reasons::CountedElection;

/// Who voted on what, how many won, and what was spent.
pub(crate) fn put_summary(
    page: &mut Vec<u8>,
    language: &Language,
    count: &CountedElection,
) -> Result<(), NoMemory>
    ensures { OnOk result (Grows page.old.items page.new.items (summary language.now count.now)) }
{
    let figures = Figures::of(count);
    put_own(page, LEAD)?;
    say_voted(page, language, &figures)?;
    put_own(page, LEAD_NEXT)?;
    put_result(page, language, &figures)?;
    put_own(page, LEAD_CLOSING)
}

/// Who voted, on what.
fn say_voted(page: &mut Vec<u8>, language: &Language, figures: &Figures) -> Result<(), NoMemory>
    ensures { OnOk result (Grows page.old.items page.new.items (voted_said language.now figures.now)) }
{
    let places = [
        Place::Number("voters", figures.voters),
        Place::Number("projects", figures.projects),
        Place::Amount("budget", figures.budget, language.costs),
        Place::Noun(keys::PEOPLE, figures.voters),
        Place::Noun(keys::TOPICS, figures.projects),
    ];
    say(page, language, keys::VOTED, &places)
}

/// How many won, and what was spent; or that no project won.
fn put_result(page: &mut Vec<u8>, language: &Language, figures: &Figures) -> Result<(), NoMemory>
    ensures { OnOk result (Grows page.old.items page.new.items (result_said language.now figures.now)) }
{
    if figures.won == 0 {
        let values = [
            Value::Number(figures.won),
            Value::Amount(figures.spent),
            Value::Text(surplus_name(figures.grain)),
            Value::Amount(figures.surplus),
        ];
        put(page, language, NOTHING, &values)?;
        let left = Place::Amount("left", figures.left, language.costs);
        return say(page, language, keys::NONE_WON, &[left]);
    }
    let places = [
        Place::Number("won", figures.won),
        Place::Amount("spent", figures.spent, language.costs),
        Place::Amount("left", figures.left, language.costs),
        Place::Noun(keys::WINNERS, figures.won),
    ];
    say(page, language, keys::WON, &places)
}

/// The picture of the budget.
pub(crate) fn put_budget(
    page: &mut Vec<u8>,
    language: &Language,
    count: &CountedElection,
) -> Result<(), NoMemory>
    ensures { OnOk result (Grows page.old.items page.new.items (section language.now (budget language.now count.now))) }
{
    let figures = Figures::of(count);
    put(
        page,
        language,
        BUDGET_OPENING,
        &[Value::Said(keys::BUDGET_HEADING)],
    )?;
    say_picture(page, language, &figures)?;
    put_own(page, BLOCKS_OPENING)?;
    put_blocks(page, language, count)?;
    put_own(page, BLOCKS_CLOSING)?;
    say_spent(page, language, &figures)?;
    put_own(page, BUDGET_CLOSING)
}

/// What it says to those who can't see it.
fn say_picture(page: &mut Vec<u8>, language: &Language, figures: &Figures) -> Result<(), NoMemory>
    ensures { OnOk result (Grows page.old.items page.new.items (picture_said language.now figures.now)) }
{
    let places = [
        Place::Shown(figures.budget, language.costs),
        Place::Shown(figures.spent, language.costs),
        Place::Shown(figures.left, language.costs),
    ];
    say(page, language, keys::PICTURE, &places)
}

/// What was spent, left, and paid beyond the costs; or that there is nothing to see.
fn say_spent(page: &mut Vec<u8>, language: &Language, figures: &Figures) -> Result<(), NoMemory>
    ensures { OnOk result (Grows page.old.items page.new.items (spent_said language.now figures.now)) }
{
    let surplus = Divided {
        amount: u128::from(figures.surplus.0),
        divisor: figures.parts,
        is_up: true,
    };
    let places = [
        Place::Amount("spent", figures.spent, language.costs),
        Place::Amount("left", figures.left, language.costs),
        Place::Parted(surplus_name(figures.grain), surplus, language.amounts),
    ];
    say(page, language, caption_key(figures), &places)
}

/// The key of what is said below the picture.
fn caption_key(figures: &Figures) -> u16
    ensures { result ≡ (if figures.now.won == 0 then key.BUDGET_NONE
        else if figures.now.by_votes then key.BUDGET_BY_VOTES
        else by_grain figures.now.grain key.BUDGET_CAPTION key.BUDGET_FINE) }
{
    if figures.won == 0 {
        keys::BUDGET_NONE
    } else if figures.by_votes {
        keys::BUDGET_BY_VOTES
    } else {
        match figures.grain {
            Grain::Hundredths => keys::BUDGET_CAPTION,
            Grain::Fine => keys::BUDGET_FINE,
        }
    }
}

/// What is paid beyond the costs of the elected, or is left uncovered of them, by its name.
fn surplus_name(grain: Grain) -> &'static str
    ensures { result.now ≡ by_grain grain (codes "surplus") (codes "uncovered") }
{
    match grain {
        Grain::Hundredths => "surplus",
        Grain::Fine => "uncovered",
    }
}

/// A block for each of the winners, one beside the other.
fn put_blocks(
    page: &mut Vec<u8>,
    language: &Language,
    count: &CountedElection,
) -> Result<(), NoMemory>
    ensures { OnOk result (Grows page.old.items page.new.items
        (blocks language.now.costs count.now.election 0 (winners_of count.now.counted))) }
{
    put_blocks_at(page, language, count.election(), count.winners())
}

/// A block for each of the winners at these places.
fn put_blocks_at<'a>(
    page: &mut Vec<u8>,
    language: &Language<'a>,
    election: &'a Election,
    winners: &[u32],
) -> Result<(), NoMemory>
    requires known { All (λ place. place < length election.now.projects) winners.now }
    requires fits { sum_by (cost_at (support_of election.now)) winners.now < 2 ^ 64 }
    ensures { OnOk result (Grows page.old.items page.new.items
        (blocks language.now.costs election.now 0 winners.now)) }
{
    let budget = election.budget();
    let projects = election.projects();
    let mut before = Money(0);
    for place in winners {
        let project = &projects[*place as usize];
        let cost = project.cost();
        let values = [
            Value::Number(bar(before, budget)),
            Value::Number(bar(cost, budget)),
            Value::Text(called(project)),
            Value::Shown(cost, language.costs),
            Value::Text(project.id()),
        ];
        put(page, &*language, BUDGET_PART, &values)?;
        before = together(before, cost);
    }
    Ok(())
}

/// The sum of two amounts.
fn together(one: Money, other: Money) -> Money
    requires { one + other < 2 ^ 64 }
    ensures { result ≡ one + other }
{
    Money(one.0 + other.0)
}
