//! The rows of the table of rules.

ghost use Rattle.std.specs.Prelude.{◌≡◌, ◌++◌, [], OnOk};
ghost use Rattle.pb_rows.specs.Tables.{table_text};
ghost use Rattle.pb_rows.specs.Writing.{text_of_row};
ghost use Rattle.pb_commands.specs.Tables.{rule_columns};
ghost use Rattle.pb_commands.specs.Inner.Tables.{row_of};

use pb_core::no_memory::NoMemory;
use pb_reasons::RuleRow;
use pb_rows::{Field, RowsWriter};

/// Writes the columns of rules.
pub(crate) fn put_columns(rows: &mut RowsWriter) -> Result<(), NoMemory>
    ensures { OnOk result (rows.new.text ≡ rows.old.text ++ table_text rule_columns []) }
{
    rows.put_row(&[
        "rule",
        "projects",
        "spent",
        "left",
        "without",
        "choices",
        "worth",
        "more_choices",
        "more_worth",
    ])?;
    Ok(())
}

/// Writes the row of a rule.
pub(crate) fn put_rule(rows: &mut RowsWriter, rule: &str, row: RuleRow) -> Result<(), NoMemory>
    ensures { OnOk result (rows.new.text
        ≡ rows.old.text ++ text_of_row (row_of rule_columns (rule.now, row))) }
{
    let fields = [
        Field::Text(rule),
        Field::Number(row.projects as u64),
        Field::Amount(row.spent),
        Field::Amount(row.left),
        Field::number(row.without),
        Field::Number(row.choices),
        Field::Amount(row.worth),
        Field::number(row.more_choices),
        Field::number(row.more_worth),
    ];
    rows.put_fields(&fields)?;
    Ok(())
}
