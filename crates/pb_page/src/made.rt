//! The page of an outcome.

ghost use Rattle.std.specs.Prelude.{◌≡◌, IfOk, OnOk};
ghost use Rattle.pb_page.specs.Inner.Contents.{sections};
ghost use Rattle.pb_page.specs.Inner.Grown.{Grows};
ghost use Rattle.pb_page.specs.Page.{IsPage, parts};
ghost use Rattle.pb_reasons.specs.RaiseEnd.{IsRaiseEnd};

use crate::by_category::put_categories;
use crate::check::put_check;
use crate::compared::put_besides;
use crate::contents::put_contents;
use crate::decided::put_decided;
use crate::ended::Ended;
use crate::facts::Facts;
use crate::keys;
use crate::markup::Value;
use crate::project_tables::{put_added, put_others, put_winners};
use crate::put::{put, put_own};
use crate::rule::put_rule;
use crate::style::{META, STYLE};
use crate::templates::{CLOSING, HEAD_OPENING, MAIN, TITLE, TOP};
use crate::top::{put_budget, put_summary};
use crate::voters::put_voters;
use pb_core::gate::Gate;
use pb_core::no_memory::NoMemory;
use pb_reasons::{CountedElection, MoneyTeller, RaiseEnd};
use std::alloc::Global;
use std::thread::Threads;

/// The page of a counted election: an HTML document that needs no other file, and runs no script.
///
/// Its contract says each byte: which elements it has, and which number, row and sentence of the count is in which.
/// Nothing in it is markup but the program's own, whatever texts the election and the facts have. Where the raises
/// ended before the outcome was exhausted, the method is run once more, by as many workers as count: the page says
/// what one raise more would elect.
pub fn page_of<R: Threads + Sync, G: Gate>(
    rt: &R,
    alloc: Global,
    gate: &G,
    count: &CountedElection,
    facts: &Facts,
) -> Result<Vec<u8>, NoMemory>
    ensures { IfOk result (λ text. IsPage count.now facts.now text.items) }
{
    let end = RaiseEnd::of(rt, alloc, count, gate)?;
    let page = page_ended(alloc, count, facts, &end);
    drop(end);
    page
}

/// The page of a count whose raises ended so.
fn page_ended(
    alloc: Global,
    count: &CountedElection,
    facts: &Facts,
    end: &RaiseEnd,
) -> Result<Vec<u8>, NoMemory>
    requires { IsRaiseEnd count.now.election count.now.rule.options count.now.counted.outcome end.now }
    ensures { IfOk result (λ text. IsPage count.now facts.now text.items) }
{
    // What is true of every count is true of the places of the elected.
    let _election = count.election();
    let money = MoneyTeller::of(alloc, count)?;
    let mut page = Vec::new(alloc);
    let ended = Ended { count, end };
    put_all(&mut page, facts, &money, &ended)?;
    Ok(page)
}

/// All parts of a page.
fn put_all(
    page: &mut Vec<u8>,
    facts: &Facts,
    money: &MoneyTeller,
    ended: &Ended,
) -> Result<(), NoMemory>
    requires { money.now ≡ ended.now.count.now }
    ensures { OnOk result (Grows page.old.items page.new.items
        (parts facts.now ended.now.count.now ended.now.end.now)) }
{
    let count = ended.count;
    let language = &facts.language;
    let title = facts.title;
    let values = [
        Value::Text(language.text(keys::LANG)),
        Value::Text(language.text(keys::DIR)),
    ];
    put(page, language, HEAD_OPENING, &values)?;
    put_own(page, META)?;
    put(page, language, TITLE, &[Value::Text(title)])?;
    put_own(page, STYLE)?;
    put(page, language, TOP, &[Value::Text(title)])?;
    put_summary(page, language, count)?;
    put_contents(page, facts, count)?;
    put_own(page, MAIN)?;
    put_sections(page, facts, money, ended)?;
    put_own(page, CLOSING)
}

/// Its sections, one after the other.
fn put_sections(
    page: &mut Vec<u8>,
    facts: &Facts,
    money: &MoneyTeller,
    ended: &Ended,
) -> Result<(), NoMemory>
    requires { money.now ≡ ended.now.count.now }
    ensures { OnOk result (Grows page.old.items page.new.items
        (sections facts.now ended.now.count.now ended.now.end.now)) }
{
    let count = ended.count;
    let language = &facts.language;
    put_budget(page, language, count)?;
    put_winners(page, facts, money)?;
    put_added(page, facts, money)?;
    put_others(page, facts, money)?;
    put_categories(page, facts, count)?;
    put_voters(page, language, count)?;
    put_besides(page, facts, count)?;
    let rule = count.rule();
    put_decided(page, facts, &rule)?;
    put_rule(page, language, ended)?;
    put_check(page, facts, &rule)
}
