//! The contents of a page: links to its sections.

ghost use Rattle.std.specs.Prelude.{◌≡◌, OnOk, true};
ghost use Rattle.pb_page.specs.Inner.Contents.{contents, has_added, link_to};
ghost use Rattle.pb_page.specs.Inner.Grown.{Grows};

use crate::facts::Facts;
use crate::keys;
use crate::language::Language;
use crate::markup::Value;
use crate::put::{put, put_own};
use crate::rule::has_no_shares;
use crate::templates::{CONTENTS_CLOSING, CONTENTS_LINK, CONTENTS_OPENING};
use pb_core::no_memory::NoMemory;
use pb_reasons::CountedElection;

/// A link to each section that the page has.
pub(crate) fn put_contents(
    page: &mut Vec<u8>,
    facts: &Facts,
    count: &CountedElection,
) -> Result<(), NoMemory>
    ensures { OnOk result (Grows page.old.items page.new.items (contents facts.now count.now)) }
{
    let language = &facts.language;
    let has_added = has_added(count);
    let has_categories = facts.categories.is_some();
    let is_decided = facts.decided.is_some();
    let called = [Value::Said(keys::CONTENTS)];
    put(page, language, CONTENTS_OPENING, &called)?;
    put_link(page, language, "budget", keys::BUDGET_HEADING)?;
    put_link(page, language, "winners", keys::WINNERS_HEADING)?;
    put_link_where(page, language, has_added, "added", keys::ADDED_HEADING)?;
    put_link(page, language, "others", keys::OTHERS_HEADING)?;
    put_link_where(
        page,
        language,
        has_categories,
        "categories",
        keys::CATEGORIES_HEADING,
    )?;
    put_link(page, language, "voters", keys::VOTERS_HEADING)?;
    put_link_where(
        page,
        language,
        facts.compares,
        "compared",
        keys::COMPARED_HEADING,
    )?;
    put_link_where(page, language, is_decided, "decided", keys::DECIDED_HEADING)?;
    put_link(page, language, "rule", keys::RULE_HEADING)?;
    put_link(page, language, "check", keys::CHECK_HEADING)?;
    put_own(page, CONTENTS_CLOSING)
}

/// Whether the page has a section of added projects.
fn has_added(count: &CountedElection) -> bool
    ensures { result ≡ has_added count.now }
{
    if has_no_shares(&count.rule()) {
        return false;
    }
    !count.added().is_empty()
}

/// A link to the section of this name, by its heading.
fn put_link(
    page: &mut Vec<u8>,
    language: &Language,
    name: &'static str,
    heading: u16,
) -> Result<(), NoMemory>
    ensures { OnOk result (Grows page.old.items page.new.items
        (link_to language.now true name.now heading)) }
{
    let values = [Value::Text(name), Value::Said(heading)];
    put(page, language, CONTENTS_LINK, &values)
}

/// The same where the page has that section.
#[tactic(auto, using(crate::proofs::Grown::none))]
fn put_link_where(
    page: &mut Vec<u8>,
    language: &Language,
    is_there: bool,
    name: &'static str,
    heading: u16,
) -> Result<(), NoMemory>
    ensures { OnOk result (Grows page.old.items page.new.items
        (link_to language.now is_there name.now heading)) }
{
    if is_there {
        return put_link(page, language, name, heading);
    }
    Ok(())
}
