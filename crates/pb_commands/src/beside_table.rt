//! The tables of two rules: what the winners by each are to the ballots, and which projects these are.

ghost use Rattle.std.specs.Prelude.{◌≡◌, ◌++◌, IfOk, OnOk, false, if◌then◌else◌, string_bytes, true};
ghost use Rattle.pb_rows.specs.declared.field.Field.TheVariants.{Number};
ghost use Rattle.pb_commands.specs.Beside.{beside_text, called};

use crate::report::whole;
use crate::rules_table::{put_columns, put_rule};
use pb_core::election::Election;
use pb_core::no_memory::NoMemory;
use pb_price::supporters::Supporters;
use pb_reasons::{Winners, compare};
use pb_rounds::options::Completion;
use pb_rounds::rule::Rule;
use pb_rows::{Field, RowsWriter};
use std::alloc::Global;

/// Two rules, and who wins by each, by the places in the file.
#[derive(Clone, Copy)]
pub(crate) struct Sides<'a> {
    pub(crate) rule: &'a Rule,
    pub(crate) winners: &'a [u32],
    pub(crate) other: &'a Rule,
    pub(crate) others: &'a [u32],
}

/// Both rules compared on this election, as text: by rule, or by project.
pub(crate) fn text_of_sides(
    alloc: Global,
    election: &Election,
    sides: &Sides,
    by_project: bool,
) -> Result<Vec<u8>, NoMemory>
    ensures { IfOk result (λ text. text.items ≡ beside_text by_project election.now
        sides.now.rule.now sides.now.other.now sides.now.winners.now sides.now.others.now) }
{
    let mut rows = RowsWriter::start(alloc);
    match put_sides(&mut rows, alloc, election, sides, by_project) {
        Ok(()) => whole(rows),
        Err(refused) => {
            drop(rows);
            Err(refused)
        }
    }
}

/// Writes them, by rule or by project.
fn put_sides(
    rows: &mut RowsWriter,
    alloc: Global,
    election: &Election,
    sides: &Sides,
    by_project: bool,
) -> Result<(), NoMemory>
    ensures { OnOk result (rows.new.text ≡ rows.old.text ++ beside_text by_project election.now
        sides.now.rule.now sides.now.other.now sides.now.winners.now sides.now.others.now) }
{
    if by_project {
        put_by_project(rows, alloc, election, sides)
    } else {
        put_by_rule(rows, alloc, election, sides)
    }
}

/// Writes the columns, and a row for each rule.
fn put_by_rule(
    rows: &mut RowsWriter,
    alloc: Global,
    election: &Election,
    sides: &Sides,
) -> Result<(), NoMemory>
    ensures { OnOk result (rows.new.text ≡ rows.old.text ++ beside_text false election.now
        sides.now.rule.now sides.now.other.now sides.now.winners.now sides.now.others.now) }
{
    let rules = compare(alloc, election, sides.winners, sides.others)?;
    let own = called(alloc, sides.rule, sides.other, "equal shares", "most votes")?;
    let other = called(alloc, sides.other, sides.rule, "equal shares", "most votes")?;
    put_columns(rows)?;
    put_rule(rows, own.as_str(), rules.own)?;
    put_rule(rows, other.as_str(), rules.other)
}

/// Writes the columns, and a row for each project in file order.
fn put_by_project(
    rows: &mut RowsWriter,
    alloc: Global,
    election: &Election,
    sides: &Sides,
) -> Result<(), NoMemory>
    ensures { OnOk result (rows.new.text ≡ rows.old.text ++ beside_text true election.now
        sides.now.rule.now sides.now.other.now sides.now.winners.now sides.now.others.now) }
{
    let own = called(alloc, sides.rule, sides.other, "equal_shares", "most_votes")?;
    let other = called(alloc, sides.other, sides.rule, "equal_shares", "most_votes")?;
    rows.put_row(&[
        "place",
        "project_id",
        "name",
        "cost",
        "votes",
        own.as_str(),
        other.as_str(),
    ])?;
    let supporters = Supporters::build(alloc, election)?;
    let winners = Winners::of(alloc, election, sides.winners)?;
    let others = Winners::of(alloc, election, sides.others)?;
    let projects = election.projects();
    for place in 0..projects.len() {
        let project = &projects[place];
        let fields = [
            Field::number(place as u32),
            Field::Text(project.id()),
            Field::Text(project.name()),
            Field::amount(project.cost()),
            Field::Number(supporters.of(place as u32).len() as u64),
            flag(winners.has(place as u32)),
            flag(others.has(place as u32)),
        ];
        rows.put_fields(&fields)?;
    }
    Ok(())
}

/// The field of a flag: 1 or 0.
pub(crate) fn flag(is_set: bool) -> Field<'static>
    ensures { result ≡ Number (if is_set then 1 else 0) }
{
    Field::number(u32::from(is_set))
}

/// What a rule is called beside another: by its method, or, where that is the other's too, by its name.
fn called(
    alloc: Global,
    rule: &Rule,
    other: &Rule,
    shares: &str,
    votes: &str,
) -> Result<String, NoMemory>
    ensures { IfOk result (λ name. string_bytes name ≡ called shares.now votes.now rule.now other.now) }
{
    match (rule.options.completion, other.options.completion) {
        (Completion::NoShares, Completion::NoShares) => rule.profile(alloc),
        (Completion::NoShares, Completion::Plain | Completion::Add1) => {
            Ok(String::from_str(alloc, votes)?)
        }
        (Completion::Plain | Completion::Add1, Completion::NoShares) => {
            Ok(String::from_str(alloc, shares)?)
        }
        (Completion::Plain | Completion::Add1, Completion::Plain | Completion::Add1) => {
            rule.profile(alloc)
        }
    }
}
