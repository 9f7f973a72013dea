//! Which of two rules applies.

ghost use Rattle.std.specs.Prelude.{◌≡◌, ◌++◌, ◌∷◌, [], IfOk, OnOk, Some, codes, flat_map, if◌then◌else◌, string_bytes};
ghost use Rattle.pb_page.specs.Content.{fill, section, text};
ghost use Rattle.pb_page.specs.Inner.Decided.{decided_said, decision_given};
ghost use Rattle.pb_page.specs.Inner.Grown.{Grows};
ghost use Rattle.pb_page.specs.Page.{decided, decider};
ghost use Rattle.pb_page.specs.declared.keys.TheConstants as key;
ghost use Rattle.pb_rounds.specs.RuleNames.{profile_name};

use crate::facts::{Decided, Facts};
use crate::keys;
use crate::language::Language;
use crate::markup::Value;
use crate::place::Place;
use crate::put::{put, put_own};
use crate::sentences::say_paragraph;
use crate::templates::{DECIDED_OPENING, DECIDED_OPTIONS, SECTION_CLOSING};
use pb_core::no_memory::NoMemory;
use pb_rounds::rule::Rule;
use std::alloc::Global;

/// What two rules are called, and the one of them that applies.
#[derive(Clone, Copy)]
struct RuleNames<'a> {
    given: &'a str,
    other: &'a str,
    applies: &'a str,
}

/// Which rule applies, where the facts say that this one does because it was decided; otherwise nothing.
#[tactic(auto, using(crate::proofs::Grown::none), unfolding(crate::specs::Page::decided))]
pub(crate) fn put_decided(page: &mut Vec<u8>, facts: &Facts, rule: &Rule) -> Result<(), NoMemory>
    ensures { OnOk result (Grows page.old.items page.new.items
        (flat_map (section facts.now.language) (decided facts.now rule.now))) }
{
    match &facts.decided {
        Some(decided) => put_decision(page, &facts.language, decided, rule),
        None => Ok(()),
    }
}

/// The section where this was decided, and this rule applies.
fn put_decision(
    page: &mut Vec<u8>,
    language: &Language,
    decided: &Decided,
    rule: &Rule,
) -> Result<(), NoMemory>
    ensures { OnOk result (Grows page.old.items page.new.items (decided_said language.now decided.now
        (profile_name decided.now.rule ++ (codes "/decide=" ++ decider decided.now)) (profile_name decided.now.other) (profile_name rule.now))) }
{
    let alloc = *page.allocator();
    let given = given_name(alloc, decided)?;
    let other = decided.other.profile(alloc)?;
    let applies = rule.profile(alloc)?;
    let names = RuleNames {
        given: given.as_str(),
        other: other.as_str(),
        applies: applies.as_str(),
    };
    let put = put_named(page, language, decided, &names);
    drop(given);
    drop(other);
    drop(applies);
    put
}

/// The same, where the rules are called so.
fn put_named(
    page: &mut Vec<u8>,
    language: &Language,
    decided: &Decided,
    names: &RuleNames<'_>,
) -> Result<(), NoMemory>
    ensures { OnOk result (Grows page.old.items page.new.items (decided_said language.now decided.now
        names.now.given.now names.now.other.now names.now.applies.now)) }
{
    let heading = [Value::Said(keys::DECIDED_HEADING)];
    put(page, language, DECIDED_OPENING, &heading)?;
    let places = [
        Place::Code(names.given),
        Place::Code(names.other),
        Place::Number("decided_own", u64::from(decided.own)),
        Place::Number("decided_other", u64::from(decided.others)),
        Place::Code(names.applies),
    ];
    say_paragraph(page, language, decided_key(decided), &places)?;
    put_own(page, SECTION_CLOSING)
}

/// The key of the sentence on which rule applies.
fn decided_key(decided: &Decided) -> u16
    ensures { result ≡ (if decided.now.by_worth then key.DECIDED_BY_WORTH else key.DECIDED_BY_CHOICES) }
{
    if decided.by_worth {
        keys::DECIDED_BY_WORTH
    } else {
        keys::DECIDED_BY_CHOICES
    }
}

/// The name of the rule that was given, with what decides.
fn given_name(alloc: Global, decided: &Decided) -> Result<String, NoMemory>
    ensures { IfOk result (λ text. string_bytes text
        ≡ profile_name decided.now.rule ++ (codes "/decide=" ++ decider decided.now)) }
{
    let name = decided.rule.profile(alloc)?;
    let by = decider(decided);
    let text = format!(in alloc; "{name}/decide={by}");
    drop(name);
    Ok(text?)
}

/// By what it is judged which voters have more, as the option for that calls it.
fn decider(decided: &Decided) -> &'static str
    ensures { result.now ≡ decider decided.now }
{
    if decided.by_worth { "worth" } else { "choices" }
}

/// The options by which it was decided, if it was.
#[tactic(auto, using(crate::proofs::Grown::none))]
pub(crate) fn put_decision_options(
    page: &mut Vec<u8>,
    language: &Language,
    decided: &Option<Decided>,
) -> Result<(), NoMemory>
    ensures { OnOk result (Grows page.old.items page.new.items (decision_given decided.now)) }
{
    match decided {
        Some(decided) => put_options(page, language, decided),
        None => Ok(()),
    }
}

/// The options by which this was decided.
fn put_options(page: &mut Vec<u8>, language: &Language, decided: &Decided) -> Result<(), NoMemory>
    ensures { OnOk result (Grows page.old.items page.new.items (decision_given (Some decided.now))) }
{
    let other = decided.other.profile(*page.allocator())?;
    let put = put_option_texts(page, language, decider(decided), other.as_str());
    drop(other);
    put
}

/// The same, where what decides and the other rule are called so.
fn put_option_texts(
    page: &mut Vec<u8>,
    language: &Language,
    by: &str,
    other: &str,
) -> Result<(), NoMemory>
    ensures { OnOk result (Grows page.old.items page.new.items
        (fill (codes " --decide ~ --beside ~") (text by.now ∷ text other.now ∷ []))) }
{
    put(
        page,
        language,
        DECIDED_OPTIONS,
        &[Value::Text(by), Value::Text(other)],
    )
}
