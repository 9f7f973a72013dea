//! The table of projects: who won and why, who lost and by how much.

ghost use Rattle.std.specs.Prelude.{◌≡◌, ◌<◌, ◌≤◌, ◌++◌, ◌∷◌, ℕ, [], OnOk, drop, length};
ghost use Rattle.pb_price.specs.Price.{HasPayers};
ghost use Rattle.pb_price.specs.Supporters.{support_in};
ghost use Rattle.pb_reasons.specs.CountedElection.{CountedElectionView};
ghost use Rattle.pb_reasons.specs.Reasons.{project_reason};
ghost use Rattle.pb_reasons.specs.declared.project_reason.Ending.TheVariants as kind;
ghost use Rattle.pb_reasons.specs.declared.project_reason.Won.{Won};
ghost use Rattle.pb_rows.specs.Tables.{field_text};
ghost use Rattle.pb_rows.specs.Writing.{text_of_row};
ghost use Rattle.pb_commands.specs.Tables.{table_of};
ghost use Rattle.pb_commands.specs.declared.table.Table.TheVariants.{Projects};
ghost use Rattle.pb_commands.specs.Inner.Tables.{all_columns, columns_of, row_of};

use crate::in_units::{in_units, price_in_units};
use pb_core::no_memory::NoMemory;
use pb_reasons::{CountedElection, Ending};
use pb_rounds::rule::FillUp;
use pb_rows::{Field, RowsWriter};

/// Writes the columns, and a row for each project in file order.
pub(crate) fn put_projects(rows: &mut RowsWriter, count: &CountedElection) -> Result<(), NoMemory>
    ensures { OnOk result (rows.new.text ≡ rows.old.text ++ table_of Projects count.now) }
{
    let names = [
        "place",
        "project_id",
        "name",
        "cost",
        "votes",
        "round",
        "price",
        "collected",
        "in_full",
        "left",
        "missing",
        "added",
    ];
    let projects = count.election().projects();
    let width = width(count.rule().fill_up);
    rows.put_row(&names[..width])?;
    for place in 0..projects.len() {
        put_project(rows, width, count, count.position(place as u32))?;
    }
    Ok(())
}

/// How many columns there are: the last is one where an outcome is filled up.
fn width(fill_up: FillUp) -> usize
    ensures width { (x : CountedElectionView) → fill_up ≡ x.counted.fill_up
        → result ≡ length (columns_of Projects x) }
    ensures most { result ≤ 12 }
{
    match fill_up {
        FillUp::Nothing => 11,
        FillUp::MostVotes => 12,
    }
}

/// Writes so many fields of the project at this place of the election.
fn put_project(
    rows: &mut RowsWriter,
    width: usize,
    count: &CountedElection,
    place: u32,
) -> Result<(), NoMemory>
    requires known { place < length count.now.election.projects }
    requires width { width ≡ length (columns_of Projects count.now) }
    requires most { width ≤ 12 }
    ensures { OnOk result (rows.new.text ≡ rows.old.text ++ text_of_row
        (row_of (columns_of Projects count.now) place)) }
{
    let project = &count.election().projects()[place as usize];
    let reason = count.project(place);
    let said = said_of(count, reason.ending);
    let fields = [
        Field::number(count.place(place)),
        Field::Text(project.id()),
        Field::Text(project.name()),
        Field::amount(project.cost()),
        Field::number(reason.votes),
        said.round,
        said.price,
        said.collected,
        said.in_full,
        said.left,
        said.missing,
        said.added,
    ];
    rows.put_fields(&fields[..width])?;
    Ok(())
}

/// The fields on how a project ended; those of another ending are empty.
#[derive(Clone, Copy)]
struct EndingFields {
    round: Field<'static>,
    price: Field<'static>,
    collected: Field<'static>,
    in_full: Field<'static>,
    left: Field<'static>,
    missing: Field<'static>,
    added: Field<'static>,
}

/// No field.
const NOTHING: EndingFields = EndingFields {
    round: Field::Empty,
    price: Field::Empty,
    collected: Field::Empty,
    in_full: Field::Empty,
    left: Field::Empty,
    missing: Field::Empty,
    added: Field::Empty,
};

/// The fields on how a project ended.
fn said_of(count: &CountedElection, ending: Ending) -> EndingFields
    requires { (won : Won) → ending ≡ kind.Won won
        → HasPayers (support_in count.now.rule.options.grain count.now.election) won.exact }
    ensures { (place : ℕ)
        → ending ≡ (project_reason count.now.rule.options.grain count.now.election count.now.counted place).ending
        → field_text result.round ∷ field_text result.price ∷ field_text result.collected
        ∷ field_text result.in_full ∷ field_text result.left ∷ field_text result.missing
        ∷ field_text result.added ∷ [] ≡ drop 5 (row_of (all_columns count.now) place) }
{
    match ending {
        Ending::Won(won) => EndingFields {
            round: Field::number(won.round),
            price: price_in_units(count, won.exact),
            collected: in_units(count, won.collected),
            in_full: Field::number(won.in_full),
            ..NOTHING
        },
        Ending::Added(added) => EndingFields {
            added: Field::Number(added.number),
            ..NOTHING
        },
        Ending::Lost(lost) => EndingFields {
            left: in_units(count, lost.left),
            missing: in_units(count, lost.missing),
            ..NOTHING
        },
    }
}
