//! The count beside most votes first.

ghost use Rattle.std.specs.Prelude.{◌≡◌, ◌<◌, ◌^◌, OnOk, flat_map};
ghost use Rattle.pb_page.specs.Content.{section};
ghost use Rattle.pb_page.specs.Inner.Counted.{both_only, compared};
ghost use Rattle.pb_page.specs.Inner.Grown.{Grows};
ghost use Rattle.pb_page.specs.Page.{besides, compared_row};
ghost use Rattle.pb_reasons.specs.BesideVotes.{elected_by_votes};

use crate::elected_only::put_only;
use crate::facts::Facts;
use crate::keys;
use crate::language::Language;
use crate::markup::Value;
use crate::projects_at::ProjectsAt;
use crate::put::{put, put_own};
use crate::templates::{COMPARED_OPENING, COMPARED_ROW, ROWS_CLOSING, SECTION_CLOSING};
use pb_core::money::Money;
use pb_core::no_memory::NoMemory;
use pb_reasons::{CountedElection, RuleRow, compare_with_votes, elected_by_votes};

/// Both rules, where the facts ask for them; otherwise nothing.
#[tactic(auto, using(crate::proofs::Grown::none), unfolding(crate::specs::Page::besides))]
pub(crate) fn put_besides(
    page: &mut Vec<u8>,
    facts: &Facts,
    count: &CountedElection,
) -> Result<(), NoMemory>
    ensures { OnOk result (Grows page.old.items page.new.items
        (flat_map (section facts.now.language) (besides facts.now count.now))) }
{
    if !facts.compares {
        return Ok(());
    }
    let other = elected_by_votes(*page.allocator(), count)?;
    let put = put_compared(page, &facts.language, count, other.as_slice());
    drop(other);
    put
}

/// Both rules, where most votes first elects these.
fn put_compared(
    page: &mut Vec<u8>,
    language: &Language,
    count: &CountedElection,
    other: &[u32],
) -> Result<(), NoMemory>
    requires { other.now ≡ elected_by_votes count.now.election }
    ensures { OnOk result (Grows page.old.items page.new.items (compared language.now count.now)) }
{
    // What is true of every count bounds what the winners of both rules cost.
    let _election = count.election();
    let rules = compare_with_votes(*page.allocator(), count)?;
    let heads = [
        Value::Said(keys::COMPARED_HEADING),
        Value::Said(keys::COMPARED_CAPTION),
        Value::Said(keys::COMPARED_RULE),
        Value::Said(keys::COMPARED_WON),
        Value::Said(keys::COMPARED_COST),
        Value::Said(keys::WITHOUT),
        Value::Said(keys::MORE),
    ];
    put(page, language, COMPARED_OPENING, &heads)?;
    put_row(page, language, keys::EQUAL_SHARES, &rules.own)?;
    put_row(page, language, keys::MOST_VOTES, &rules.other)?;
    put_own(page, ROWS_CLOSING)?;
    put_others(page, language, count, other)?;
    put_own(page, SECTION_CLOSING)
}

/// Those that only this count elects, and those that only most votes first elects, which are these.
fn put_others(
    page: &mut Vec<u8>,
    language: &Language,
    count: &CountedElection,
    other: &[u32],
) -> Result<(), NoMemory>
    requires { other.now ≡ elected_by_votes count.now.election }
    ensures { OnOk result (Grows page.old.items page.new.items (both_only language.now count.now)) }
{
    // What is true of every count is true of its winners.
    let _election = count.election();
    let by_shares = ProjectsAt {
        count,
        places: count.winners(),
    };
    let by_votes = ProjectsAt {
        count,
        places: other,
    };
    put_only(page, language, keys::ONLY_BY_SHARES, &by_shares, other)?;
    put_only(
        page,
        language,
        keys::ONLY_BY_VOTES,
        &by_votes,
        by_shares.places,
    )
}

/// The row of a rule.
fn put_row(
    page: &mut Vec<u8>,
    language: &Language,
    rule: u16,
    row: &RuleRow,
) -> Result<(), NoMemory>
    requires { row.now.spent < 2 ^ 64 }
    ensures { OnOk result (Grows page.old.items page.new.items (compared_row language.now rule row.now)) }
{
    let spent = Money(row.spent as u64);
    let projects = row.projects as u64;
    let group = language.costs.group;
    let cells = [
        Value::Said(rule),
        Value::Said(keys::COMPARED_WON),
        Value::Number(projects),
        Value::Grouped(projects, group),
        Value::Said(keys::COMPARED_COST),
        Value::Amount(spent),
        Value::Shown(spent, language.costs),
        Value::Said(keys::WITHOUT),
        Value::Small(row.without),
        Value::Grouped(row.without as u64, group),
        Value::Said(keys::MORE),
        Value::Small(row.more_choices),
        Value::Grouped(row.more_choices as u64, group),
    ];
    put(page, language, COMPARED_ROW, &cells)
}
