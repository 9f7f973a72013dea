//! The pairs of equal projects that the rule for ties separated.

ghost use Rattle.std.specs.Prelude.{◌≡◌, ◌∷◌, [], OnOk, flat_map, if◌then◌else◌, slice_index};
ghost use Rattle.pb_page.specs.Content.{item, say};
ghost use Rattle.pb_page.specs.Inner.Counted.{equals, ties_listed};
ghost use Rattle.pb_page.specs.Inner.Grown.{Grows};
ghost use Rattle.pb_page.specs.Inner.Value.{at_place, code};
ghost use Rattle.pb_page.specs.Page.{linked, project_at, tie, ties};
ghost use Rattle.pb_page.specs.declared.keys.TheConstants as key;
ghost use Rattle.pb_page.specs.declared.language.Language.{Language};
ghost use Rattle.pb_reasons.specs.AllTies.{answered_ties};
ghost use Rattle.pb_rounds.specs.Count.{no_shares};
ghost use Rattle.pb_rounds.specs.RuleNames.{by_measure, by_ties, ties_name};

use crate::keys;
use crate::language::Language;
use crate::markup::Value;
use crate::place::Place;
use crate::put::{put, put_own};
use crate::rule::{by_ties, has_no_shares};
use crate::sentences::say_item;
use crate::templates::{LIST_CLOSING, TIES_OPENING};
use pb_core::election::Election;
use pb_core::no_memory::NoMemory;
use pb_reasons::{CountedElection, ToldTie, answered_ties};
use pb_rounds::measure::Measure;
use pb_rounds::rule::Rule;
use pb_rounds::tie_rule::TieRule;

/// The rule for ties, where that is not the order of the file alone, and the ties of a count, where there are some.
pub(crate) fn put_ties(
    page: &mut Vec<u8>,
    language: &Language,
    count: &CountedElection,
) -> Result<(), NoMemory>
    ensures { OnOk result (Grows page.old.items page.new.items (ties language.now count.now)) }
{
    put_equals(page, language, &count.rule())?;
    let told = answered_ties(*page.allocator(), count)?;
    let put = put_list(page, language, count, told.as_slice());
    drop(told);
    put
}

/// By which rule equal projects come, where that is not the order of the file alone.
#[tactic(auto, using(crate::proofs::Grown::none))]
fn put_equals(page: &mut Vec<u8>, language: &Language, rule: &Rule) -> Result<(), NoMemory>
    ensures { OnOk result (Grows page.old.items page.new.items (equals language.now rule.now)) }
{
    if rule.ties.is_file() {
        return Ok(());
    }
    name_equals(page, language, &rule.ties)
}

/// The same, of another rule for ties.
fn name_equals(page: &mut Vec<u8>, language: &Language, ties: &TieRule) -> Result<(), NoMemory>
    ensures { OnOk result (Grows page.old.items page.new.items
        (item (say language.now key.EQUALS (code (ties_name ties.now) ∷ [])))) }
{
    let name = ties.text(*page.allocator())?;
    let put = say_equals(page, language, name.as_str());
    drop(name);
    put
}

/// The same, where it has this name.
fn say_equals(page: &mut Vec<u8>, language: &Language, ties: &str) -> Result<(), NoMemory>
    ensures { OnOk result (Grows page.old.items page.new.items
        (item (say language.now key.EQUALS (code ties.now ∷ [])))) }
{
    say_item(page, language, keys::EQUALS, &[Place::Code(ties)])
}

/// The ties, where these are they; nothing where there are none.
fn put_list(
    page: &mut Vec<u8>,
    language: &Language,
    count: &CountedElection,
    told: &[ToldTie],
) -> Result<(), NoMemory>
    requires { told.now ≡ answered_ties count.now }
    ensures { OnOk result (Grows page.old.items page.new.items (ties_listed language.now count.now)) }
{
    if told.is_empty() {
        return Ok(());
    }
    let said = by_ties(&count.rule(), keys::TIES, keys::TIES_TIED);
    put(page, language, TIES_OPENING, &[Value::Said(said)])?;
    put_each(page, language, count, told)?;
    put_own(page, LIST_CLOSING)
}

/// One after the other.
fn put_each(
    page: &mut Vec<u8>,
    language: &Language,
    count: &CountedElection,
    told: &[ToldTie],
) -> Result<(), NoMemory>
    ensures { OnOk result (Grows page.old.items page.new.items
        (flat_map (tie language.now count.now) told.now)) }
{
    for tie in told {
        put_tie(page, language, count, tie)?;
    }
    Ok(())
}

/// A tie, of a round or of filling up.
fn put_tie(
    page: &mut Vec<u8>,
    language: &Language,
    count: &CountedElection,
    told: &ToldTie,
) -> Result<(), NoMemory>
    ensures { OnOk result (Grows page.old.items page.new.items (tie language.now count.now told.now)) }
{
    let tie = told.tie;
    let (place, next) = (tie.winner, tie.other);
    let winner = project_place(count, place);
    let other = project_place(count, next);
    match tie.round {
        Some(round) => {
            let key = key_of(&count.rule());
            let places = [Place::Number("round", round as u64), winner, other];
            say_item(page, language, key, &places)
        }
        None => say_item(page, language, added_key(&count.rule()), &[winner, other]),
    }
}

/// The key of the sentence on a tie in a round.
fn key_of(rule: &Rule) -> u16
    ensures { result ≡ by_measure rule.now.options.measure
        (by_ties rule.now.ties key.TIE_BY_VOTES key.TIE_BY_VOTES_TIED)
        (by_ties rule.now.ties key.TIE_BY_COST key.TIE_BY_COST_TIED) }
{
    match rule.options.measure {
        Measure::Votes => by_ties(rule, keys::TIE_BY_VOTES, keys::TIE_BY_VOTES_TIED),
        Measure::Cost => by_ties(rule, keys::TIE_BY_COST, keys::TIE_BY_COST_TIED),
    }
}

/// The key of the sentence on a tie by votes: where nobody has a share, nothing is added to what is elected.
fn added_key(rule: &Rule) -> u16
    ensures { result ≡ (if no_shares rule.now.options.completion
        then by_ties rule.now.ties key.TIE_WON key.TIE_WON_TIED
        else by_ties rule.now.ties key.TIE_ADDED key.TIE_ADDED_TIED) }
{
    if has_no_shares(rule) {
        by_ties(rule, keys::TIE_WON, keys::TIE_WON_TIED)
    } else {
        by_ties(rule, keys::TIE_ADDED, keys::TIE_ADDED_TIED)
    }
}

/// The project at this place of the election, as a sentence names it: by its place in the file, its id and its
/// name.
pub(crate) fn project_place(count: &CountedElection, place: u32) -> Place<'_>
    ensures { (l : Language) → at_place l result ≡ linked count.now place }
{
    let election = count.election();
    Place::Project(
        place_at(count.order().places(), place),
        id_at(election, place),
        name_at(election, place),
    )
}

/// The place in the file of the project at this place of the election; 0 where there is none.
fn place_at(order: &[u32], place: u32) -> u32
    ensures { result ≡ slice_index order.now place }
{
    match order.get(place as usize) {
        Some(place) => *place,
        None => 0,
    }
}

/// The id of the project at this place; nothing where there is none.
pub(crate) fn id_at(election: &Election, place: u32) -> &str
    ensures { result.now ≡ (project_at election.now place).id }
{
    match election.projects().get(place as usize) {
        Some(project) => project.id(),
        None => "",
    }
}

/// The name of the project at this place; nothing where there is none.
pub(crate) fn name_at(election: &Election, place: u32) -> &str
    ensures { result.now ≡ (project_at election.now place).name }
{
    match election.projects().get(place as usize) {
        Some(project) => project.name(),
        None => "",
    }
}
