//! The report of a count.

ghost use Rattle.std.specs.Prelude.{◌≡◌, ◌<◌, ◌++◌, All, IfOk, OnOk, codes, length, map};
ghost use Rattle.pb_price.specs.Price.{HasPayers};
ghost use Rattle.pb_price.specs.Supporters.{support_in};
ghost use Rattle.pb_reasons.specs.Totals.{totals_of};
ghost use Rattle.pb_rounds.specs.RuleNames.{by_grain};
ghost use Rattle.pb_rows.specs.Writing.{text_of_row, text_of_rows};
ghost use Rattle.pb_commands.specs.Report.{report_of};
ghost use Rattle.pb_commands.specs.Inner.Report.{added_row, closing_rows, elected_row, opening_rows};

use crate::in_units::{in_units, price_in_units};
use pb_core::no_memory::NoMemory;
use pb_price::Grain;
use pb_reasons::CountedElection;
use pb_rounds::outcome::Elected;
use pb_rows::{Field, RowsWriter};

/// The text of these rows.
pub(crate) fn whole(rows: RowsWriter) -> Result<Vec<u8>, NoMemory>
    ensures { IfOk result (λ text. text.items ≡ rows.text) }
{
    match rows.finish() {
        Ok(text) => Ok(text),
        Err(_) => Err(NoMemory),
    }
}

/// Writes a row of these fields.
pub(crate) fn put_row(rows: &mut RowsWriter, fields: &[&str]) -> Result<(), NoMemory>
    ensures { OnOk result (rows.new.text
        ≡ rows.old.text ++ text_of_row (map (λ field. field.now) fields.now)) }
{
    rows.put_row(fields)?;
    Ok(())
}

/// Writes the report of a count after the rows that stand there.
///
/// It fails only where memory is refused, and then no text comes of the rows.
pub(crate) fn put_report(rows: &mut RowsWriter, count: &CountedElection) -> Result<(), NoMemory>
    ensures { OnOk result (rows.new.text ≡ rows.old.text ++ report_of count.now) }
{
    let outcome = count.outcome();
    put_opening(rows, count)?;
    put_elected(rows, count, outcome.elected.as_slice())?;
    put_added(rows, count, count.added())?;
    put_closing(rows, count)
}

/// The rows above the elected projects.
fn put_opening(rows: &mut RowsWriter, count: &CountedElection) -> Result<(), NoMemory>
    ensures { OnOk result (rows.new.text ≡ rows.old.text ++ text_of_rows (opening_rows count.now)) }
{
    let election = count.election();
    let outcome = count.outcome();
    let voters = election.voters().len() as u64;
    rows.put_fields(&[Field::Text("budget"), Field::amount(election.budget())])?;
    rows.put_fields(&[Field::Text("voters"), Field::Number(voters)])?;
    rows.put_fields(&[Field::Text("share"), in_units(count, outcome.share)])?;
    rows.put_fields(&[Field::Text("raises"), Field::number(outcome.raised)])?;
    Ok(())
}

/// One row for each elected project.
fn put_elected(
    rows: &mut RowsWriter,
    count: &CountedElection,
    elected: &[Elected],
) -> Result<(), NoMemory>
    requires known { All (λ w. w.place < length count.now.election.projects) elected.now }
    requires payers { All
        (λ w. HasPayers (support_in count.now.rule.options.grain count.now.election) w.exact) elected.now }
    ensures { OnOk result (rows.new.text ≡ rows.old.text
        ++ text_of_rows (map (elected_row count.now) elected.now)) }
{
    let projects = count.election().projects();
    for winner in elected {
        let project = &projects[winner.place as usize];
        let price = price_in_units(count, winner.exact);
        rows.put_fields(&[
            Field::Text("elected"),
            Field::Text(project.id()),
            Field::amount(project.cost()),
            price,
        ])?;
    }
    Ok(())
}

/// One row for each added project.
fn put_added(rows: &mut RowsWriter, count: &CountedElection, added: &[u32]) -> Result<(), NoMemory>
    requires { All (λ place. place < length count.now.election.projects) added.now }
    ensures { OnOk result (rows.new.text ≡ rows.old.text
        ++ text_of_rows (map (added_row count.now.election) added.now)) }
{
    let projects = count.election().projects();
    let supporters = count.supporters();
    for place in added {
        let project = &projects[*place as usize];
        let votes = supporters.of(*place).len();
        rows.put_fields(&[
            Field::Text("added"),
            Field::Text(project.id()),
            Field::amount(project.cost()),
            Field::Number(votes as u64),
        ])?;
    }
    Ok(())
}

/// The sums below.
fn put_closing(rows: &mut RowsWriter, count: &CountedElection) -> Result<(), NoMemory>
    ensures { OnOk result (rows.new.text ≡ rows.old.text
        ++ text_of_rows (closing_rows count.now
        (totals_of count.now.rule.options.grain count.now.election count.now.counted))) }
{
    let totals = count.totals();
    let name = rounded(count.rule().options.grain);
    rows.put_fields(&[Field::Text("spent"), Field::amount(totals.spent)])?;
    rows.put_fields(&[Field::Text(name), in_units(count, totals.surplus)])?;
    Ok(())
}

/// The name of what rounding comes to.
fn rounded(grain: Grain) -> &'static str
    ensures { result.now ≡ by_grain grain (codes "surplus") (codes "uncovered") }
{
    match grain {
        Grain::Hundredths => "surplus",
        Grain::Fine => "uncovered",
    }
}
