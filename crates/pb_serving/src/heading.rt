//! What a run of `serve` says before the first answer.

ghost use Rattle.std.specs.Prelude.{◌≡◌, ◌++◌, IfOk, OnOk};
ghost use Rattle.pb_serving.specs.Answered.{heading};

use itoa::Buffer;
use pb_core::no_memory::NoMemory;
use pb_desk::Desk;
use pb_faults::put_entries;
use pb_rows::RowsWriter;
use std::alloc::Global;

/// How many bytes were cut off the journal, where there were any, and the row of its desk.
pub(crate) fn heading(alloc: Global, torn: usize, desk: &Desk) -> Result<Vec<u8>, NoMemory>
    ensures { IfOk result (λ text. text.items ≡ heading torn desk.now) }
{
    let mut rows = RowsWriter::start(alloc);
    let put = put_heading(&mut rows, torn, desk);
    if put.is_err() {
        drop(rows);
        return Err(NoMemory);
    }
    let text = rows.finish()?;
    Ok(text)
}

/// Puts what is said first behind the rows that stand there.
fn put_heading(rows: &mut RowsWriter, torn: usize, desk: &Desk) -> Result<(), NoMemory>
    ensures { OnOk result (rows.new.text ≡ rows.old.text ++ heading torn desk.now) }
{
    if torn > 0 {
        let mut digits = Buffer::new();
        rows.put_row(&["torn", digits.format(torn)])?;
    }
    put_entries(rows, desk)
}
