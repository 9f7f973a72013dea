//! The row of a desk.

ghost use Rattle.std.specs.Prelude.{◌≡◌, ◌++◌, OnOk, codes, if◌then◌else◌};
ghost use Rattle.pb_rows.specs.Writing.{text_of_row};
ghost use Rattle.pb_faults.specs.DeskRow.{entries_row};

use itoa::Buffer;
use pb_core::no_memory::NoMemory;
use pb_desk::Desk;
use pb_rows::RowsWriter;

/// Writes the row of a desk: how many entries its journal has, and whether it is shut.
pub fn put_entries(rows: &mut RowsWriter, desk: &Desk) -> Result<(), NoMemory>
    ensures { OnOk result (rows.new.text ≡ rows.old.text ++ text_of_row (entries_row desk.now)) }
{
    let mut digits = Buffer::new();
    let state = state_of(desk.is_shut());
    rows.put_row(&["entries", digits.format(desk.entries()), state])?;
    Ok(())
}

/// Whether a desk is shut, as its row says it.
fn state_of(is_shut: bool) -> &'static str
    ensures { result.now ≡ (if is_shut then codes "shut" else codes "open") }
{
    if is_shut { "shut" } else { "open" }
}
