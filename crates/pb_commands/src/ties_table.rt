//! The table of all ties: which equal projects the rule for ties separated.

ghost use Rattle.std.specs.Prelude.{◌≡◌, ◌++◌, [], IfErr, IfOk, OnOk, codes, decimal, if◌then◌else◌, map};
ghost use Rattle.std.specs.Prelude.{string_bytes};
ghost use Rattle.std.specs.Option.{option_map_or};
ghost use Rattle.pb_core.specs.Election.{ElectionView, project_ids};
ghost use Rattle.pb_reasons.specs.CountedElection.{IsCountIn};
ghost use Rattle.pb_rounds.specs.declared.rule.Rule.{Rule};
ghost use Rattle.pb_rows.specs.Tables.{field_text, table_text};
ghost use Rattle.pb_rows.specs.Writing.{text_of_row};
ghost use Rattle.pb_commands.specs.AllTies.{IsTiesOf, tie_columns};
ghost use Rattle.pb_commands.specs.Inner.AllTies.{AreUntold};
ghost use Rattle.pb_commands.specs.Inner.Tables.{row_of};

use crate::beside_table::flag;
use crate::counting::Counting;
use crate::losers_table::{id_at, ids_of};
use crate::report::whole;
use pb_core::gate::Gate;
use pb_core::no_memory::NoMemory;
use pb_faults::AppFault;
use pb_reasons::{CountedElection, TieRow, ToldTies, all_ties};
use pb_rows::{Field, RowsWriter};
use std::alloc::Global;
use std::thread::Threads;

/// All ties of a count, as text.
pub(crate) fn ties_text<T: Threads + Sync, G: Gate>(
    counting: &Counting<T, G>,
    count: CountedElection,
) -> Result<Vec<u8>, AppFault>
    ensures ok { IfOk result (λ text. (rule : Rule) (e : ElectionView) → IsCountIn rule e count
        → IsTiesOf rule e text.items) }
    ensures fault { IfErr result (AreUntold count) }
{
    let alloc = counting.alloc;
    let ids = match ids_of(alloc, count.election()) {
        Ok(ids) => ids,
        Err(_) => {
            drop(count);
            return Err(AppFault::Memory);
        }
    };
    match all_ties(counting.rt, alloc, counting.gate, count) {
        Ok(Some(ties)) => match table_of(alloc, ids.as_slice(), &ties) {
            Ok(text) => Ok(text),
            Err(_) => Err(AppFault::Memory),
        },
        Ok(None) => Err(AppFault::TooManyRuns),
        Err(_) => Err(AppFault::Memory),
    }
}

/// Ties as text, below the columns.
fn table_of(alloc: Global, ids: &[String], ties: &ToldTies) -> Result<Vec<u8>, NoMemory>
    ensures { IfOk result (λ text. text.items
        ≡ table_text (tie_columns (map string_bytes ids.now)) ties.now.rows.items
        ++ (if ties.now.is_whole then [] else codes "more;;;;;\n")) }
{
    let mut rows = RowsWriter::start(alloc);
    put_ties(&mut rows, ids, ties)?;
    whole(rows)
}

/// Writes the columns, a row for each tie, and one that says whether there are more.
fn put_ties(rows: &mut RowsWriter, ids: &[String], ties: &ToldTies) -> Result<(), NoMemory>
    ensures { OnOk result (rows.new.text ≡ rows.old.text
        ++ (table_text (tie_columns (map string_bytes ids.now)) ties.now.rows.items
        ++ (if ties.now.is_whole then [] else codes "more;;;;;\n"))) }
{
    put_rows(rows, ids, ties.rows.as_slice())?;
    put_more(rows, ties.is_whole)?;
    Ok(())
}

/// Writes the columns, and a row for each of these ties.
fn put_rows(rows: &mut RowsWriter, ids: &[String], ties: &[TieRow]) -> Result<(), NoMemory>
    ensures { OnOk result (rows.new.text ≡ rows.old.text
        ++ table_text (tie_columns (map string_bytes ids.now)) ties.now) }
{
    rows.put_row(&["run", "stage", "round", "chosen", "other", "changes"])?;
    for row in ties {
        put_tie(rows, ids, row)?;
    }
    Ok(())
}

/// Writes a row that says that there are more ties, unless these are all.
fn put_more(rows: &mut RowsWriter, is_whole: bool) -> Result<(), NoMemory>
    ensures { OnOk result (rows.new.text
        ≡ rows.old.text ++ (if is_whole then [] else codes "more;;;;;\n")) }
{
    if !is_whole {
        rows.put_row(&["more", "", "", "", "", ""])?;
    }
    Ok(())
}

/// Writes the row of a tie.
fn put_tie(rows: &mut RowsWriter, ids: &[String], row: &TieRow) -> Result<(), NoMemory>
    ensures { OnOk result (rows.new.text ≡ rows.old.text
        ++ text_of_row (row_of (tie_columns (map string_bytes ids.now)) row.now)) }
{
    let told = row.told;
    let fields = [
        Field::Number(u64::from(told.run)),
        stage_field(told.tie.round),
        Field::Number(told.number as u64),
        Field::Text(id_at(ids, told.tie.winner)),
        Field::Text(id_at(ids, told.tie.other)),
        changes_field(row.changes),
    ];
    rows.put_fields(&fields)?;
    Ok(())
}

/// The field that says whether a tie was in a round, which has this number, or in filling up.
fn stage_field(round: Option<usize>) -> Field<'static>
    ensures { field_text result ≡ option_map_or (λ _. codes "round") round (codes "added") }
{
    match round {
        Some(_) => Field::Text("round"),
        None => Field::Text("added"),
    }
}

/// The field that says whether others win; empty where it is not known.
fn changes_field(changes: Option<bool>) -> Field<'static>
    ensures { field_text result ≡ option_map_or (λ changes. decimal (if changes then 1 else 0)) changes [] }
{
    match changes {
        Some(changes) => flag(changes),
        None => Field::Empty,
    }
}
