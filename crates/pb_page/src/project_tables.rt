//! The tables of projects: the elected, the added, and the others.

ghost use Rattle.std.specs.Prelude.{◌≡◌, ◌<◌, [], All, OnOk, codes, flat_map, if◌then◌else◌, length, true};
ghost use Rattle.std.specs.Option.{option_map_or};
ghost use Rattle.pb_page.specs.Content.{column, section};
ghost use Rattle.pb_page.specs.Inner.Counted.{lost_row, others_opening};
ghost use Rattle.pb_page.specs.Inner.Grown.{Grows};
ghost use Rattle.pb_page.specs.Page.{added_apart, others, row_at, winners};
ghost use Rattle.pb_page.specs.declared.keys.TheConstants as key;
ghost use Rattle.pb_reasons.specs.CountedElection.{in_file};
ghost use Rattle.pb_rounds.specs.Count.{no_shares};
ghost use Rattle.pb_rounds.specs.RuleNames.{fills_up};

use crate::facts::Facts;
use crate::keys;
use crate::language::Language;
use crate::markup::Value;
use crate::project_row::put_row;
use crate::put::{put, put_own};
use crate::rule::{by_ties, has_no_shares, short_key};
use crate::templates::{
    ADDED_OPENING, HEAD_CATEGORY, HEAD_CLOSING, NONE_LOST, NONE_WON, OTHERS_OPENING,
    PASSED_OVER_OPENING, TABLE_CLOSING, WINNERS_OPENING, WON_BY_VOTES_OPENING,
};
use pb_core::no_memory::NoMemory;
use pb_reasons::MoneyTeller;
use pb_rounds::outcome::{Elected, Outcome};
use pb_rounds::rule::FillUp;

/// The winners: the elected, in order of election, or where votes alone decide the added.
pub(crate) fn put_winners(
    page: &mut Vec<u8>,
    facts: &Facts,
    money: &MoneyTeller,
) -> Result<(), NoMemory>
    ensures { OnOk result (Grows page.old.items page.new.items
        (section facts.now.language (winners facts.now money.now))) }
{
    let count = money.count();
    let rule = count.rule();
    if has_no_shares(&rule) {
        return put_won_by_votes(page, facts, money);
    }
    let elected = elected_of(count.outcome());
    if elected.is_empty() {
        let none = Value::Said(no_winners(rule.fill_up));
        let said = [Value::Said(keys::WINNERS_HEADING), none];
        return put(page, &facts.language, NONE_WON, &said);
    }
    let heads = [
        Value::Said(keys::WINNERS_HEADING),
        Value::Said(keys::WINNERS_CAPTION),
        Value::Said(keys::ROUND),
        Value::Said(keys::PROJECT),
        Value::Said(keys::COST),
        Value::Said(keys::VOTES),
        Value::Said(keys::PRICE),
        Value::Said(keys::IN_FULL),
    ];
    put(page, &facts.language, WINNERS_OPENING, &heads)?;
    put_head_category(page, facts)?;
    put_own(page, HEAD_CLOSING)?;
    put_elected_rows(page, facts, money, elected)?;
    put_own(page, TABLE_CLOSING)
}

/// The winners where nobody has a share: those that are added, in their order.
fn put_won_by_votes(page: &mut Vec<u8>, facts: &Facts, money: &MoneyTeller) -> Result<(), NoMemory>
    requires { no_shares money.now.rule.options.completion ≡ true }
    ensures { OnOk result (Grows page.old.items page.new.items
        (section facts.now.language (winners facts.now money.now))) }
{
    let count = money.count();
    let winners = count.added();
    if winners.is_empty() {
        let said = [
            Value::Said(keys::WINNERS_HEADING),
            Value::Said(keys::NO_WINNERS),
        ];
        return put(page, &facts.language, NONE_WON, &said);
    }
    // What is true of every count is true of the places of the added.
    let _election = count.election();
    let caption = by_ties(&count.rule(), keys::BY_MOST_VOTES, keys::BY_MOST_VOTES_TIED);
    let heads = [
        Value::Said(keys::WINNERS_HEADING),
        Value::Said(caption),
        Value::Said(keys::NUMBER),
        Value::Said(keys::PROJECT),
        Value::Said(keys::COST),
        Value::Said(keys::VOTES),
    ];
    put(page, &facts.language, WON_BY_VOTES_OPENING, &heads)?;
    put_head_category(page, facts)?;
    put_own(page, HEAD_CLOSING)?;
    put_added_rows(page, facts, money, winners)?;
    put_own(page, TABLE_CLOSING)
}

/// The key of what is said where nothing is elected.
fn no_winners(fill_up: FillUp) -> u16
    ensures { result ≡ (if fills_up fill_up then key.NO_ELECTED else key.NO_WINNERS) }
{
    if fill_up.fills_up() {
        keys::NO_ELECTED
    } else {
        keys::NO_WINNERS
    }
}

/// The elected of this outcome.
fn elected_of(outcome: &Outcome) -> &[Elected]
    ensures { result.now ≡ outcome.now.elected }
{
    outcome.elected.as_slice()
}

/// A row for each of the elected.
fn put_elected_rows(
    page: &mut Vec<u8>,
    facts: &Facts,
    money: &MoneyTeller,
    elected: &[Elected],
) -> Result<(), NoMemory>
    requires { All (λ w. w.place < length money.now.election.projects) elected.now }
    ensures { OnOk result (Grows page.old.items page.new.items
        (flat_map (λ w. row_at facts.now money.now w.place) elected.now)) }
{
    for winner in elected {
        put_row(page, facts, money, winner.place)?;
    }
    Ok(())
}

/// The added projects, in their order; nothing where there are none, or they are the winners alone.
#[tactic(auto, using(crate::proofs::Grown::none), unfolding(crate::specs::Page::added_apart))]
pub(crate) fn put_added(
    page: &mut Vec<u8>,
    facts: &Facts,
    money: &MoneyTeller,
) -> Result<(), NoMemory>
    ensures { OnOk result (Grows page.old.items page.new.items
        (flat_map (section facts.now.language) (added_apart facts.now money.now))) }
{
    let count = money.count();
    if has_no_shares(&count.rule()) {
        return Ok(());
    }
    let places = count.added();
    if places.is_empty() {
        return Ok(());
    }
    // What is true of every count is true of the places of the added.
    let _election = count.election();
    let caption = by_ties(&count.rule(), keys::ADDED_CAPTION, keys::ADDED_CAPTION_TIED);
    let heads = [
        Value::Said(keys::ADDED_HEADING),
        Value::Said(caption),
        Value::Said(keys::NUMBER),
        Value::Said(keys::PROJECT),
        Value::Said(keys::COST),
        Value::Said(keys::VOTES),
    ];
    put(page, &facts.language, ADDED_OPENING, &heads)?;
    put_head_category(page, facts)?;
    put_own(page, HEAD_CLOSING)?;
    put_added_rows(page, facts, money, places)?;
    put_own(page, TABLE_CLOSING)
}

/// A row for each of the added.
fn put_added_rows(
    page: &mut Vec<u8>,
    facts: &Facts,
    money: &MoneyTeller,
    places: &[u32],
) -> Result<(), NoMemory>
    requires { All (λ place. place < length money.now.election.projects) places.now }
    ensures { OnOk result (Grows page.old.items page.new.items
        (flat_map (row_at facts.now money.now) places.now)) }
{
    for place in places {
        put_row(page, facts, money, *place)?;
    }
    Ok(())
}

/// The projects that did not win, in the order of the file.
pub(crate) fn put_others(
    page: &mut Vec<u8>,
    facts: &Facts,
    money: &MoneyTeller,
) -> Result<(), NoMemory>
    ensures { OnOk result (Grows page.old.items page.new.items
        (section facts.now.language (others facts.now money.now))) }
{
    let count = money.count();
    let winners = count.winners();
    let projects = count.election().projects();
    if winners.len() == projects.len() {
        let said = [
            Value::Said(keys::OTHERS_HEADING),
            Value::Said(keys::NO_OTHERS),
        ];
        return put(page, &facts.language, NONE_LOST, &said);
    }
    put_others_opening(page, &facts.language, short_key(count))?;
    put_head_category(page, facts)?;
    put_own(page, HEAD_CLOSING)?;
    put_lost_rows(page, facts, money)?;
    put_own(page, TABLE_CLOSING)
}

/// The head of their table, where this stands above what they were short.
fn put_others_opening(
    page: &mut Vec<u8>,
    language: &Language,
    short: Option<u16>,
) -> Result<(), NoMemory>
    ensures { OnOk result (Grows page.old.items page.new.items (others_opening language.now short)) }
{
    match short {
        Some(short) => {
            let heads = [
                Value::Said(keys::OTHERS_HEADING),
                Value::Said(keys::OTHERS_CAPTION),
                Value::Said(keys::PROJECT),
                Value::Said(keys::COST),
                Value::Said(keys::VOTES),
                Value::Said(keys::LEFT),
                Value::Said(short),
            ];
            put(page, language, OTHERS_OPENING, &heads)
        }
        None => {
            let heads = [
                Value::Said(keys::OTHERS_HEADING),
                Value::Said(keys::PASSED_OVER),
                Value::Said(keys::PROJECT),
                Value::Said(keys::COST),
                Value::Said(keys::VOTES),
            ];
            put(page, language, PASSED_OVER_OPENING, &heads)
        }
    }
}

/// A row for each project that did not win.
fn put_lost_rows(page: &mut Vec<u8>, facts: &Facts, money: &MoneyTeller) -> Result<(), NoMemory>
    ensures { OnOk result (Grows page.old.items page.new.items
        (flat_map (lost_row facts.now money.now) (in_file money.now))) }
{
    let count = money.count();
    let election = count.election();
    let projects = election.projects();
    for place in 0..projects.len() {
        put_row_of_lost(page, facts, money, count.position(place as u32))?;
    }
    Ok(())
}

/// The row of the project at this place, if it did not win.
#[tactic(auto, using(crate::proofs::Grown::none))]
fn put_row_of_lost(
    page: &mut Vec<u8>,
    facts: &Facts,
    money: &MoneyTeller,
    place: u32,
) -> Result<(), NoMemory>
    requires { place < length money.now.election.projects }
    ensures { OnOk result (Grows page.old.items page.new.items (lost_row facts.now money.now place)) }
{
    if money.count().has_won(place) {
        return Ok(());
    }
    put_row(page, facts, money, place)
}

/// The head of the column of categories, where there are some.
#[tactic(auto, using(crate::proofs::Grown::none))]
fn put_head_category(page: &mut Vec<u8>, facts: &Facts) -> Result<(), NoMemory>
    ensures { OnOk result (Grows page.old.items page.new.items (option_map_or (λ g.
        column facts.now.language (codes " class='category'") key.CATEGORY) facts.now.categories [])) }
{
    match &facts.categories {
        Some(_) => put(
            page,
            &facts.language,
            HEAD_CATEGORY,
            &[Value::Said(keys::CATEGORY)],
        ),
        None => Ok(()),
    }
}
