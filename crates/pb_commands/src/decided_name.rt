//! The names of the rules of a count that is decided between two.

ghost use Rattle.std.specs.Prelude.{◌≡◌, ◌++◌, ◌∷◌, [], IfOk, None, OnOk, Some, codes, if◌then◌else◌, string_bytes};
ghost use Rattle.std.specs.List.{join_with_byte};
ghost use Rattle.std.specs.Option.{option_map_or};
ghost use Rattle.std.specs.Str.{bytes_eq};
ghost use Rattle.pb_commands.specs.Decided.{by_of, names_of};
ghost use Rattle.pb_rounds.specs.RuleNames.{profile_name, ties_name};
ghost use Rattle.pb_rows.specs.Writing.{text_of_row};

use crate::decide::{Decide, DecidedBy};
use crate::report::put_row;
use pb_core::no_memory::NoMemory;
use pb_rounds::rule::Rule;
use pb_rows::RowsWriter;
use std::alloc::Global;

/// The rule of a count, and how it is decided whether another one applies, if that is asked.
#[derive(Clone, Copy)]
pub struct CountedBy<'a> {
    pub rule: &'a Rule,
    pub decide: Option<Decide>,
}

/// Puts a row that names the rule of a count.
pub(crate) fn put_names(
    alloc: Global,
    rows: &mut RowsWriter,
    by: &CountedBy,
) -> Result<(), NoMemory>
    ensures { OnOk result (rows.new.text ≡ rows.old.text
        ++ text_of_row (codes "rule" ∷ names_of by.now.rule.now by.now.decide)) }
{
    match &by.decide {
        None => put_name(alloc, rows, by.rule),
        Some(decide) => put_decided_names(alloc, rows, by.rule, decide),
    }
}

/// Puts a row with the name of this rule.
fn put_name(alloc: Global, rows: &mut RowsWriter, rule: &Rule) -> Result<(), NoMemory>
    ensures { OnOk result (rows.new.text
        ≡ rows.old.text ++ text_of_row (codes "rule" ∷ names_of rule.now None)) }
{
    let name = rule.profile(alloc)?;
    let put = put_row(rows, &["rule", name.as_str()]);
    drop(name);
    put
}

/// Puts a row with the names of a rule and of the one that may apply in its place.
fn put_decided_names(
    alloc: Global,
    rows: &mut RowsWriter,
    rule: &Rule,
    decide: &Decide,
) -> Result<(), NoMemory>
    ensures { OnOk result (rows.new.text ≡ rows.old.text
        ++ text_of_row (codes "rule" ∷ names_of rule.now (Some decide.now))) }
{
    let name = name_with_decision(alloc, rule, decide.by)?;
    let other = other_name(alloc, rule, decide)?;
    match &other {
        Some(other) => put_row(rows, &["rule", name.as_str(), other.as_str()]),
        None => put_row(rows, &["rule", name.as_str()]),
    }
}

/// How an export says that it was decided.
pub(crate) fn decided_words(alloc: Global, rule: &Rule, decide: &Decide) -> Result<String, NoMemory>
    ensures { IfOk result (λ text. string_bytes text
        ≡ codes "Decided by " ++ join_with_byte 32 (names_of rule.now (Some decide.now))) }
{
    let name = name_with_decision(alloc, rule, decide.by)?;
    let words = match &other_name(alloc, rule, decide)? {
        Some(other) => format!(in alloc; "Decided by {name} {other}"),
        None => format!(in alloc; "Decided by {name}"),
    };
    drop(name);
    Ok(words?)
}

/// The name of a rule, and behind it what decides whether another one applies.
fn name_with_decision(alloc: Global, rule: &Rule, by: DecidedBy) -> Result<String, NoMemory>
    ensures { IfOk result (λ text. string_bytes text
        ≡ profile_name rule.now ++ (codes "/decide=" ++ (by_of by).0)) }
{
    let name = rule.profile(alloc)?;
    let by = by.name();
    let text = format!(in alloc; "{name}/decide={by}");
    drop(name);
    Ok(text?)
}

/// The name of the other rule, if it is not most votes first with the same ties.
fn other_name(alloc: Global, rule: &Rule, decide: &Decide) -> Result<Option<String>, NoMemory>
    ensures { IfOk result (λ name. option_map_or (λ name. string_bytes name ∷ []) name []
        ≡ (if bytes_eq (profile_name decide.now.other) (codes "MV/ties=" ++ ties_name rule.now.ties) then []
        else profile_name decide.now.other ∷ [])) }
{
    let other = decide.other.profile(alloc)?;
    let ties = rule.ties.text(alloc)?;
    let usual = format!(in alloc; "MV/ties={ties}")?;
    if other.as_str() == usual.as_str() {
        return Ok(None);
    }
    Ok(Some(other))
}
