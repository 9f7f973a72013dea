//! What would have made a project win, as text.

ghost use Rattle.std.specs.Prelude.{◌≡◌, ◌≢◌, ◌↔◌, ◌<◌, ◌≤◌, ◌++◌, ◌∷◌, [], ℕ, Contains, IfErr, IfOk, IfSome};
ghost use Rattle.std.specs.Prelude.{IsTrue, List, None, OnOk, Some, length, map, slice_get};
ghost use Rattle.pb_core.specs.Election.{most_voters, project_ids};
ghost use Rattle.pb_rounds.specs.declared.count_fault.CountFault.TheVariants.{NoMemory};
ghost use Rattle.pb_rows.specs.Tables.{table_text};
ghost use Rattle.pb_rows.specs.Writing.{text_of_row, text_of_rows};
ghost use Rattle.pb_commands.specs.WhatIf.{IsWhatIfText, WhatIfRefuses, found_rows};
ghost use Rattle.pb_commands.specs.WhatIf.{what_if_columns};
ghost use Rattle.pb_commands.specs.Inner.Tables.{row_of};
ghost use Rattle.pb_commands.specs.Inner.WhatIf.{most_of};
ghost use Rattle.pb_commands.specs.declared.what_if_rows.Changes.TheVariants.{Searched, One};
ghost use Rattle.pb_reasons.specs.WhatIf.{CanBe, seen};
ghost use Rattle.pb_reasons.specs.declared.changes.change.Change.TheVariants.{Cost, Voters};

use crate::counting::Counting;
use crate::report::whole;
use pb_core::election::{Election, MOST_VOTERS};
use pb_core::gate::Gate;
use pb_core::money::Money;
use pb_core::names::name_at;
use pb_core::no_memory::NoMemory;
use pb_reasons::{Change, Found, Question, Recount, Row, WhatIf, one_change, what_if};
use pb_rounds::count_fault::CountFault;
use pb_rows::{Field, RowsWriter};
use std::alloc::Global;
use std::thread::Threads;

/// What the count of a changed election says, as rows have it, in the order of `Verdict`.
pub(crate) const VERDICTS: [&str; 3] = ["0", "1", "refused"];

/// Which changes of an election are counted.
#[derive(Clone, Copy)]
pub enum Changes {
    /// Costs and numbers of further voters are searched.
    Searched,
    /// This one alone: a cost in hundredths, or a number of further voters.
    One(Change, u64),
}

/// Why no changed election is counted.
#[derive(Clone, Copy, Debug, PartialEq, Eq)]
pub enum WhatIfFault {
    /// No project has the id that is asked about.
    NoProject,
    /// The cost is 0, or the value is above this: the largest cost of a file, or how many further voters an
    /// election can have.
    OutOfRange(u64),
    /// The count of the election as it is, is refused; or that of a changed one is, for another reason than
    /// its raises.
    Count(CountFault),
}

/// What would have made the project with this id win, or lose, as text: each row of a whole count by the
/// rule.
pub fn what_if_text<T: Threads + Sync, G: Gate>(
    counting: &Counting<T, G>,
    election: Election,
    project: &str,
    changes: Changes,
) -> Result<Vec<u8>, WhatIfFault>
    ensures ok { IfOk result (λ text. (place : ℕ)
        × (slice_get (project_ids election) place ≡ Some project.now)
        × IsWhatIfText election (record { rule = counting.now.rule.now; place = place }) changes text.items) }
    ensures fault { IfErr result (WhatIfRefuses election counting.now.rule.now project.now changes) }
{
    let Some(place) = place_of(&election, project) else {
        drop(election);
        return Err(WhatIfFault::NoProject);
    };
    let question = Question {
        rule: *counting.rule,
        place,
    };
    let recount = Recount {
        rt: counting.rt,
        alloc: counting.alloc,
        gate: counting.gate,
        question,
    };
    match changes {
        Changes::Searched => searched_text(&recount, election),
        Changes::One(change, value) => one_text(&recount, election, change, value),
    }
}

/// What a search finds, as text.
fn searched_text<T: Threads + Sync, G: Gate>(
    recount: &Recount<T, G>,
    election: Election,
) -> Result<Vec<u8>, WhatIfFault>
    requires known { recount.now.question.place < length election.projects }
    ensures ok { IfOk result (λ text. IsWhatIfText election recount.now.question Searched text.items) }
    ensures fault { (id : List ℕ)
        → IfErr result (WhatIfRefuses election recount.now.question.rule id Searched) }
{
    let alloc = recount.alloc;
    let found = match what_if(recount, election) {
        Ok(found) => found,
        Err(fault) => return Err(WhatIfFault::Count(fault)),
    };
    match found_text(alloc, &found) {
        Ok(text) => Ok(text),
        Err(_) => Err(WhatIfFault::Count(CountFault::NoMemory)),
    }
}

/// What the count of one changed election says, as text.
fn one_text<T: Threads + Sync, G: Gate>(
    recount: &Recount<T, G>,
    election: Election,
    change: Change,
    value: u64,
) -> Result<Vec<u8>, WhatIfFault>
    requires known { recount.now.question.place < length election.projects }
    ensures ok { IfOk result (λ text. IsWhatIfText election recount.now.question
        (One change value) text.items) }
    ensures fault { (id : List ℕ)
        → IfErr result (WhatIfRefuses election recount.now.question.rule id (One change value)) }
{
    let alloc = recount.alloc;
    if !can_be(&election, change, value) {
        let most = most_of(&election, change);
        drop(election);
        return Err(WhatIfFault::OutOfRange(most));
    }
    let row = match one_change(recount, election, change, value) {
        Ok(row) => row,
        Err(fault) => return Err(WhatIfFault::Count(fault)),
    };
    match row_text(alloc, change, row) {
        Ok(text) => Ok(text),
        Err(_) => Err(WhatIfFault::Count(CountFault::NoMemory)),
    }
}

/// Whether an election can be changed so.
fn can_be(election: &Election, change: Change, value: u64) -> bool
    ensures { IsTrue result ↔ CanBe (seen election.now) change value }
{
    let most = most_of(election, change);
    match change {
        Change::Cost => 0 < value && value <= most,
        Change::Voters => value <= most,
    }
}

/// The largest cost of a file, or how many further voters the election can have.
fn most_of(election: &Election, change: Change) -> u64
    ensures most { result ≡ most_of election.now change }
    ensures few { length election.now.voters ≤ most_voters }
{
    let voters = election.voters().len();
    match change {
        Change::Cost => Money::LARGEST.0,
        Change::Voters => (MOST_VOTERS - voters) as u64,
    }
}

/// The place of the project with this id.
fn place_of(election: &Election, id: &str) -> Option<u32>
    ensures known { IfSome result (λ place. place < length election.now.projects) }
    ensures named { IfSome result (λ place. slice_get (project_ids election.now) place ≡ Some id.now) }
    ensures nobody { result ≡ None → ¬ Contains (project_ids election.now) id.now }
{
    let projects = election.projects();
    for place in 0..projects.len() {
        if projects[place].id() == id {
            return Some(place as u32);
        }
    }
    None
}

/// What a search finds as text: the columns, and the rows, those of the cost first.
fn found_text(alloc: Global, found: &WhatIf) -> Result<Vec<u8>, NoMemory>
    ensures { IfOk result (λ text. text.items ≡ table_text what_if_columns
        (found_rows Cost found.now.cost ++ found_rows Voters found.now.voters)) }
{
    let mut rows = RowsWriter::start(alloc);
    rows.put_row(&["change", "value", "won"])?;
    put_found(&mut rows, Change::Cost, &found.cost)?;
    put_found(&mut rows, Change::Voters, &found.voters)?;
    whole(rows)
}

/// One row as text, below the columns.
fn row_text(alloc: Global, change: Change, row: Row) -> Result<Vec<u8>, NoMemory>
    ensures { IfOk result (λ text. text.items ≡ table_text what_if_columns ((change, row) ∷ [])) }
{
    let mut rows = RowsWriter::start(alloc);
    rows.put_row(&["change", "value", "won"])?;
    put_one(&mut rows, change, row)?;
    whole(rows)
}

/// Writes the two rows of one kind of change, or the one where its range is one value.
fn put_found(rows: &mut RowsWriter, change: Change, found: &Found) -> Result<(), NoMemory>
    ensures { OnOk result (rows.new.text ≡ rows.old.text
        ++ text_of_rows (map (row_of what_if_columns) (found_rows change found.now))) }
{
    put_one(rows, change, found.first)?;
    if found.first.value == found.second.value {
        return Ok(());
    }
    put_one(rows, change, found.second)
}

/// Writes a row: a cost as an amount, a number of voters as a number.
fn put_one(rows: &mut RowsWriter, change: Change, row: Row) -> Result<(), NoMemory>
    ensures { OnOk result (rows.new.text
        ≡ rows.old.text ++ text_of_row (row_of what_if_columns (change, row))) }
{
    let verdict = Field::Text(name_at(&VERDICTS, row.verdict as usize));
    match change {
        Change::Cost => {
            rows.put_fields(&[
                Field::Text("cost"),
                Field::Amount(u128::from(row.value)),
                verdict,
            ])?
        }
        Change::Voters => {
            rows.put_fields(&[Field::Text("voters"), Field::Number(row.value), verdict])?
        }
    }
    Ok(())
}
