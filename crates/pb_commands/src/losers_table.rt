//! What would have made the losers with most votes win, as a table.

ghost use Rattle.std.specs.Prelude.{◌≡◌, ◌≢◌, ◌++◌, [], IfErr, IfOk, List, OnOk, decimal, map, slice_index_or};
ghost use Rattle.std.specs.Prelude.{string_bytes};
ghost use Rattle.std.specs.Option.{option_map_or};
ghost use Rattle.pb_core.specs.Election.{project_ids};
ghost use Rattle.pb_core.specs.MoneyText.{money_text};
ghost use Rattle.pb_rows.specs.Tables.{field_text, table_text};
ghost use Rattle.pb_rows.specs.Writing.{text_of_row};
ghost use Rattle.pb_commands.specs.Losers.{loser_columns, winning};
ghost use Rattle.pb_commands.specs.Inner.Tables.{row_of};
ghost use Rattle.pb_reasons.specs.CountedElection.{IsFaultIn};
ghost use Rattle.pb_reasons.specs.Losers.{AreFound};
ghost use Rattle.pb_reasons.specs.WhatIf.{wins};
ghost use Rattle.pb_reasons.specs.declared.changes.loser.Loser.{Loser};

use crate::counting::Counting;
use crate::report::whole;
use pb_core::election::Election;
use pb_core::gate::Gate;
use pb_core::no_memory::NoMemory;
use pb_reasons::{Loser, ProjectGate, Recounts, Row, Verdict, what_if_losers};
use pb_rounds::count_fault::CountFault;
use pb_rows::{Field, RowsWriter};
use std::alloc::Global;
use std::thread::Threads;

/// What would have made each of the losers with most votes win, at most this many, as text: the highest cost and
/// the fewest further voters with which a search found it.
pub fn losers_text<T: Threads + Sync, G: Gate + ProjectGate>(
    counting: &Counting<T, G>,
    election: Election,
    first: usize,
) -> Result<Vec<u8>, CountFault>
    ensures ok { IfOk result (λ text. (found : List Loser) × AreFound election counting.now.rule.now first found
        × (text.items ≡ table_text (loser_columns (project_ids election)) found)) }
    ensures fault { IfErr result (λ fault. fault ≢ CountFault.NoMemory
        → IsFaultIn counting.now.rule.now election fault) }
{
    let recounts = Recounts {
        rt: counting.rt,
        alloc: counting.alloc,
        gate: counting.gate,
        rule: *counting.rule,
    };
    match ids_of(counting.alloc, &election) {
        Ok(ids) => {
            let text = text_by_ids(&recounts, election, first, ids.as_slice());
            drop(ids);
            text
        }
        Err(_) => {
            drop(election);
            Err(CountFault::NoMemory)
        }
    }
}

/// The same, where these are the ids of the projects, in the order of the file.
fn text_by_ids<T: Threads + Sync, G: Gate + ProjectGate>(
    recounts: &Recounts<T, G>,
    election: Election,
    first: usize,
    ids: &[String],
) -> Result<Vec<u8>, CountFault>
    ensures ok { IfOk result (λ text. (found : List Loser) × AreFound election recounts.now.rule first found
        × (text.items ≡ table_text (loser_columns (map string_bytes ids.now)) found)) }
    ensures fault { IfErr result (λ fault. fault ≢ CountFault.NoMemory
        → IsFaultIn recounts.now.rule election fault) }
{
    let alloc = recounts.alloc;
    let found = match what_if_losers(recounts, election, first) {
        Ok(found) => found,
        Err(fault) => return Err(fault),
    };
    match table_of(alloc, ids, found.as_slice()) {
        Ok(text) => Ok(text),
        Err(_) => Err(CountFault::NoMemory),
    }
}

/// The ids of an election's projects, in their order.
pub(crate) fn ids_of(alloc: Global, election: &Election) -> Result<Vec<String>, NoMemory>
    ensures { IfOk result (λ ids. map string_bytes ids.items ≡ project_ids election.now) }
{
    let mut ids = Vec::new(alloc);
    for project in election.projects() {
        ids.push(String::from_str(alloc, project.id())?)?;
    }
    Ok(ids)
}

/// What is found of losers as text, below the columns.
fn table_of(alloc: Global, ids: &[String], losers: &[Loser]) -> Result<Vec<u8>, NoMemory>
    ensures { IfOk result (λ text. text.items
        ≡ table_text (loser_columns (map string_bytes ids.now)) losers.now) }
{
    let mut rows = RowsWriter::start(alloc);
    put_losers(&mut rows, ids, losers)?;
    whole(rows)
}

/// Writes the columns, and a row for each of these losers.
fn put_losers(rows: &mut RowsWriter, ids: &[String], losers: &[Loser]) -> Result<(), NoMemory>
    ensures { OnOk result (rows.new.text ≡ rows.old.text
        ++ table_text (loser_columns (map string_bytes ids.now)) losers.now) }
{
    rows.put_row(&["project_id", "won", "cost", "voters"])?;
    for loser in losers {
        put_loser(rows, ids, loser)?;
    }
    Ok(())
}

/// Writes the row of a loser.
fn put_loser(rows: &mut RowsWriter, ids: &[String], loser: &Loser) -> Result<(), NoMemory>
    ensures { OnOk result (rows.new.text ≡ rows.old.text
        ++ text_of_row (row_of (loser_columns (map string_bytes ids.now)) loser.now)) }
{
    let (cost, voters) = (loser.found.cost, loser.found.voters);
    let fields = [
        Field::Text(id_at(ids, loser.place)),
        Field::Text("0"),
        cost_field(winning(cost.second, cost.first)),
        voters_field(winning(voters.first, voters.second)),
    ];
    rows.put_fields(&fields)?;
    Ok(())
}

/// The id at this place; none is empty.
pub(crate) fn id_at(ids: &[String], place: u32) -> &str
    ensures { result.now ≡ slice_index_or (map string_bytes ids.now) place [] }
{
    match ids.get(place as usize) {
        Some(id) => id.as_str(),
        None => "",
    }
}

/// The value of the first of two rows at which the project wins, if it does at one.
fn winning(one: Row, other: Row) -> Option<u64>
    ensures { result ≡ winning one other }
{
    if is_won(one.verdict) {
        Some(one.value)
    } else if is_won(other.verdict) {
        Some(other.value)
    } else {
        None
    }
}

/// Whether a verdict is that the project wins.
fn is_won(verdict: Verdict) -> bool
    ensures { result ≡ wins verdict }
{
    match verdict {
        Verdict::Won => true,
        _ => false,
    }
}

/// The field of a cost, in hundredths; empty where there is none.
fn cost_field(cost: Option<u64>) -> Field<'static>
    ensures { field_text result ≡ option_map_or money_text cost [] }
{
    match cost {
        Some(cost) => Field::Amount(u128::from(cost)),
        None => Field::Empty,
    }
}

/// The field of a number of further voters; empty where there is none.
fn voters_field(further: Option<u64>) -> Field<'static>
    ensures { field_text result ≡ option_map_or decimal further [] }
{
    match further {
        Some(further) => Field::Number(further),
        None => Field::Empty,
    }
}
