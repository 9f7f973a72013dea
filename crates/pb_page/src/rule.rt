//! How it was counted, sentence by sentence.

ghost use Rattle.std.specs.Prelude.{◌≡◌, ◌==◌, [], None, OnOk, Some, if◌then◌else◌, true};
ghost use Rattle.pb_page.specs.Content.{item, said, section};
ghost use Rattle.pb_page.specs.Inner.Counted.{filled_up, rounds_said, rounds_told, share_said};
ghost use Rattle.pb_page.specs.Inner.Grown.{Grows};
ghost use Rattle.pb_page.specs.Page.{by_raises, rule, short_key};
ghost use Rattle.pb_page.specs.declared.keys.TheConstants as key;
ghost use Rattle.pb_reasons.specs.declared.raise_end.RaiseEnd.{RaiseEnd};
ghost use Rattle.pb_rounds.specs.Count.{no_shares};
ghost use Rattle.pb_rounds.specs.RuleNames.{by_completion, by_grain, by_measure, by_ties};

use crate::counted_in::counted_in;
use crate::ended::Ended;
use crate::keys;
use crate::language::Language;
use crate::markup::{Divided, Value};
use crate::place::Place;
use crate::put::{put, put_own};
use crate::raises_ended::put_end;
use crate::sentences::say_item;
use crate::templates::{ITEM, LIST_OPENING, RULE_CLOSING, RULE_OPENING};
use crate::ties::put_ties;
use crate::works::put_works;
use pb_core::money::Money;
use pb_core::no_memory::NoMemory;
use pb_price::Grain;
use pb_reasons::CountedElection;
use pb_rounds::measure::Measure;
use pb_rounds::options::Completion;
use pb_rounds::outcome::Outcome;
use pb_rounds::rule::{FillUp, Rule};

/// How it was counted, why the raises ended, and the ties.
pub(crate) fn put_rule(
    page: &mut Vec<u8>,
    language: &Language,
    ended: &Ended,
) -> Result<(), NoMemory>
    ensures { OnOk result (Grows page.old.items page.new.items (section language.now
        (rule language.now ended.now.count.now ended.now.end.now))) }
{
    let count = ended.count;
    let rule = count.rule();
    if has_no_shares(&rule) {
        return put_by_votes(page, language, count);
    }
    let heading = [Value::Said(keys::RULE_HEADING)];
    put(page, language, RULE_OPENING, &heading)?;
    put_works(page, language, count)?;
    put_own(page, LIST_OPENING)?;
    put_voted(page, language, ended)?;
    put_item(page, language, method_key(&rule))?;
    put_filled_up(page, language, &rule)?;
    put_fine(page, language, rule.options.grain)?;
    put_ties(page, language, count)?;
    put_own(page, RULE_CLOSING)
}

/// The same where nobody has a share.
fn put_by_votes(
    page: &mut Vec<u8>,
    language: &Language,
    count: &CountedElection,
) -> Result<(), NoMemory>
    requires { no_shares count.now.rule.options.completion ≡ true }
    ensures { (end : RaiseEnd) → OnOk result (Grows page.old.items page.new.items (section language.now
        (rule language.now count.now end))) }
{
    let heading = [Value::Said(keys::RULE_HEADING)];
    put(page, language, RULE_OPENING, &heading)?;
    put_own(page, LIST_OPENING)?;
    let rule = count.rule();
    let said = by_ties(&rule, keys::MOST_VOTES_FIRST, keys::MOST_VOTES_TIED);
    put_item(page, language, said)?;
    put_ties(page, language, count)?;
    put_own(page, RULE_CLOSING)
}

/// How the projects were elected; nothing where nobody voted.
fn put_voted(page: &mut Vec<u8>, language: &Language, ended: &Ended) -> Result<(), NoMemory>
    ensures { OnOk result (Grows page.old.items page.new.items
        (rounds_told language.now ended.now.count.now ended.now.end.now)) }
{
    if ended.count.election().voters().is_empty() {
        return Ok(());
    }
    put_rounds(page, language, ended)
}

/// The same where somebody voted: the share, the rounds, the raises, and why these ended.
fn put_rounds(page: &mut Vec<u8>, language: &Language, ended: &Ended) -> Result<(), NoMemory>
    ensures { OnOk result (Grows page.old.items page.new.items
        (rounds_said language.now ended.now.count.now ended.now.end.now)) }
{
    let count = ended.count;
    let rule = count.rule();
    let share = counted_in(count, false, share_of(count.outcome()));
    let raised = raised_by(count.outcome());
    put_share(page, language, &rule, share, raised)?;
    put_item(page, language, keys::SUPPORTERS)?;
    put_item(page, language, order_key(&rule))?;
    put_item(page, language, raises_key(&rule, raised))?;
    put_end(page, language, ended)
}

/// Whether nobody has a share by this rule.
pub(crate) fn has_no_shares(rule: &Rule) -> bool
    ensures { result ≡ no_shares rule.now.options.completion }
{
    match rule.options.completion {
        Completion::NoShares => true,
        Completion::Plain | Completion::Add1 => false,
    }
}

/// Everyone's share in this outcome.
fn share_of(outcome: &Outcome) -> Money
    ensures { result ≡ outcome.now.share }
{
    outcome.share
}

/// How many raises led to this outcome.
fn raised_by(outcome: &Outcome) -> u32
    ensures { result ≡ outcome.now.raised }
{
    outcome.raised
}

/// How the share came about.
fn put_share(
    page: &mut Vec<u8>,
    language: &Language,
    rule: &Rule,
    share: Divided,
    raised: u32,
) -> Result<(), NoMemory>
    ensures { OnOk result (Grows page.old.items page.new.items (share_said language.now
        (by_raises rule.now key.SHARE_UNRAISED key.SHARE) rule.now.options.step share raised)) }
{
    let raises = u64::from(raised);
    let places = [
        Place::Parted("share", share, language.amounts),
        Place::Number("raises", raises),
        Place::Nameless(rule.options.step, language.amounts),
        Place::Noun(keys::TIMES, raises),
    ];
    say_item(page, language, share_key(rule), &places)
}

/// The key of the sentence on that.
fn share_key(rule: &Rule) -> u16
    ensures { result ≡ by_raises rule.now key.SHARE_UNRAISED key.SHARE }
{
    match (rule.options.completion, rule.fill_up) {
        (Completion::Plain | Completion::NoShares, FillUp::Nothing | FillUp::MostVotes) => {
            keys::SHARE_UNRAISED
        }
        (Completion::Add1, FillUp::Nothing | FillUp::MostVotes) => keys::SHARE,
    }
}

/// A sentence of the list.
pub(crate) fn put_item(page: &mut Vec<u8>, language: &Language, key: u16) -> Result<(), NoMemory>
    ensures { OnOk result (Grows page.old.items page.new.items (item (said language.now key))) }
{
    put(page, language, ITEM, &[Value::Said(key)])
}

/// The key of the sentence on which project is elected first.
fn order_key(rule: &Rule) -> u16
    ensures { result ≡ by_measure rule.now.options.measure (by_ties rule.now.ties key.BY_VOTES key.BY_VOTES_TIED)
        (by_ties rule.now.ties key.BY_COST key.BY_COST_TIED) }
{
    match rule.options.measure {
        Measure::Votes => by_ties(rule, keys::BY_VOTES, keys::BY_VOTES_TIED),
        Measure::Cost => by_ties(rule, keys::BY_COST, keys::BY_COST_TIED),
    }
}

/// The first of two keys where the file alone decides ties, else the second.
pub(crate) fn by_ties(rule: &Rule, by_file: u16, other: u16) -> u16
    ensures { result ≡ by_ties rule.now.ties by_file other }
{
    if rule.ties.is_file() { by_file } else { other }
}

/// The key of the sentence on the raises, or on what is done where there are none.
fn raises_key(rule: &Rule, raised: u32) -> u16
    ensures { result ≡ by_completion rule.now.options.completion rule.now.fill_up key.PLAIN
        (if raised == 0 then key.UNRAISED else key.RAISED) (by_ties rule.now.ties key.FILLED_UP key.FILLED_UP_TIED)
        (if raised == 0 then key.UNRAISED else key.RAISED) }
{
    match (rule.options.completion, rule.fill_up) {
        (Completion::Plain | Completion::NoShares, FillUp::Nothing) => keys::PLAIN,
        (Completion::Plain | Completion::NoShares, FillUp::MostVotes) => {
            by_ties(rule, keys::FILLED_UP, keys::FILLED_UP_TIED)
        }
        (Completion::Add1, FillUp::Nothing | FillUp::MostVotes) => {
            if raised == 0 {
                keys::UNRAISED
            } else {
                keys::RAISED
            }
        }
    }
}

/// The key of what stands above what projects were short; none where nobody voted, or nobody has a share.
pub(crate) fn short_key(count: &CountedElection) -> Option<u16>
    ensures { result ≡ short_key count.now }
{
    if count.election().voters().is_empty() {
        return None;
    }
    short_by(&count.rule())
}

/// The same by a rule, where somebody voted.
fn short_by(rule: &Rule) -> Option<u16>
    ensures { result ≡ (if no_shares rule.now.options.completion then None
        else Some (by_raises rule.now key.MISSING key.LEFT_SHORT)) }
{
    match (rule.options.completion, rule.fill_up) {
        (Completion::NoShares, FillUp::Nothing | FillUp::MostVotes) => None,
        (Completion::Plain, FillUp::Nothing | FillUp::MostVotes) => Some(keys::MISSING),
        (Completion::Add1, FillUp::Nothing | FillUp::MostVotes) => Some(keys::LEFT_SHORT),
    }
}

/// The key of the sentence on what the rule is called.
fn method_key(rule: &Rule) -> u16
    ensures { result ≡ by_completion rule.now.options.completion rule.now.fill_up key.METHOD_PLAIN
        key.METHOD_ADD1 key.METHOD_FILLED key.METHOD_ADD1 }
{
    match (rule.options.completion, rule.fill_up) {
        (Completion::Plain | Completion::NoShares, FillUp::Nothing) => keys::METHOD_PLAIN,
        (Completion::Plain | Completion::NoShares, FillUp::MostVotes) => keys::METHOD_FILLED,
        (Completion::Add1, FillUp::Nothing | FillUp::MostVotes) => keys::METHOD_ADD1,
    }
}

/// How money was counted, where it is fine.
#[tactic(auto, using(crate::proofs::Grown::none))]
fn put_fine(page: &mut Vec<u8>, language: &Language, grain: Grain) -> Result<(), NoMemory>
    ensures { OnOk result (Grows page.old.items page.new.items
        (by_grain grain [] (item (said language.now key.FINE_MONEY)))) }
{
    match grain {
        Grain::Hundredths => Ok(()),
        Grain::Fine => put_item(page, language, keys::FINE_MONEY),
    }
}

/// How what the raises left was filled up, where it was.
#[tactic(auto, using(crate::proofs::Grown::none))]
fn put_filled_up(page: &mut Vec<u8>, language: &Language, rule: &Rule) -> Result<(), NoMemory>
    ensures { OnOk result (Grows page.old.items page.new.items (filled_up language.now rule.now)) }
{
    match (rule.options.completion, rule.fill_up) {
        (Completion::Add1, FillUp::MostVotes) => {
            let said = by_ties(rule, keys::FILLED_UP, keys::FILLED_UP_TIED);
            put_item(page, language, said)
        }
        _ => Ok(()),
    }
}
