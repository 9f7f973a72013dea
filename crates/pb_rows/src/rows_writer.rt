//! Rows, written as text.

ghost use Rattle.std.specs.Prelude.{◌≡◌, ◌++◌, [], false, map, true, IfOk, IsErr, OnErr, OnOk};
ghost use Rattle.pb_rows.specs.Inner.Writing.{IsAtRowStart, written_by};
ghost use Rattle.pb_rows.specs.Tables.{field_text};
ghost use Rattle.pb_rows.specs.Writing.{text_of_row};

use crate::field::{Field, set_text};
use csv::{Writer, WriterBuilder};
use std::alloc::{AllocError, Global};
use std::marker::Model;

/// A text that grows by rows: `;` between two fields, quotes where a field needs them, and `\n`
/// after each row.
///
/// A contract sees its `text` so far, and whether it `is_whole`: no row of it was refused. One that
/// was may stand there in part.
#[derive(Drop)]
pub struct RowsWriter {
    writer: Writer<Vec<u8>>,
    is_whole: bool,
    /// The text of a field, whose memory the next field uses again.
    field: String,
}

impl Model for RowsWriter {
    ghost use Rattle.std.specs.Prelude.{◌≡◌, ◌++◌, true};
    ghost use Rattle.csv.specs.Writing.{writer_pending, writer_under};
    ghost use Rattle.pb_rows.specs.Inner.Writing.{IsAtRowStart};
    ghost use Rattle.pb_rows.specs.Writing.{RowsView};

    ghost Value = { RowsView };

    ghost view = { λ s. record {
      text = (writer_under s.writer).items ++ writer_pending s.writer;
      is_whole = s.is_whole;
    } };

    ghost invariant = { λ s. s.is_whole ≡ true → IsAtRowStart s.writer };
}

impl RowsWriter {
    /// A text of no row.
    pub fn start(alloc: Global) -> RowsWriter
        ensures text { result.text ≡ [] }
        ensures whole { result.is_whole ≡ true }
    {
        let writer = WriterBuilder::new()
            .delimiter(b';')
            .flexible(true)
            .from_writer(Vec::new(alloc));
        RowsWriter {
            writer,
            is_whole: true,
            field: String::new(alloc),
        }
    }

    /// Writes a row of these fields.
    ///
    /// It fails only where memory is refused. The row may then stand there in part, so each later
    /// call fails too, `finish` among them.
    pub fn put_row(&mut self, fields: &[&str]) -> Result<(), AllocError>
        ensures text { OnOk result (self.new.text
            ≡ self.old.text ++ text_of_row (map (λ field. field.now) fields.now)) }
        ensures whole { OnOk result (self.new.is_whole ≡ true) }
        ensures stops { OnErr result (self.new.is_whole ≡ false) }
        ensures stopped { self.old.is_whole ≡ false → IsErr result }
    {
        if !self.is_whole {
            return Err(AllocError);
        }
        self.is_whole = false;
        write_row(&mut self.writer, fields)?;
        self.is_whole = true;
        Ok(())
    }

    /// Writes a row of these fields, and fails as `put_row` does.
    pub fn put_fields(&mut self, fields: &[Field]) -> Result<(), AllocError>
        ensures text { OnOk result (self.new.text
            ≡ self.old.text ++ text_of_row (map field_text fields.now)) }
        ensures whole { OnOk result (self.new.is_whole ≡ true) }
        ensures stops { OnErr result (self.new.is_whole ≡ false) }
        ensures stopped { self.old.is_whole ≡ false → IsErr result }
    {
        if !self.is_whole {
            return Err(AllocError);
        }
        self.is_whole = false;
        write_fields(&mut self.writer, &mut self.field, fields)?;
        self.is_whole = true;
        Ok(())
    }

    /// The text of all rows. It fails only where memory is refused, here or at an earlier call.
    pub fn finish(self) -> Result<Vec<u8>, AllocError>
        ensures text { IfOk result (λ text. text.items ≡ self.text) }
        ensures stopped { self.is_whole ≡ false → IsErr result }
    {
        if !self.is_whole {
            return Err(AllocError);
        }
        match self.writer.into_inner() {
            Ok(text) => Ok(text),
            Err(_) => Err(AllocError),
        }
    }
}

/// Writes one row with a writer that stands at the start of one, and leaves it at the next.
fn write_row(writer: &mut Writer<Vec<u8>>, fields: &[&str]) -> Result<(), AllocError>
    requires { IsAtRowStart writer.old }
    ensures next { OnOk result (IsAtRowStart writer.new) }
    ensures text { OnOk result (written_by writer.new (λ text. text.items)
        ≡ written_by writer.old (λ text. text.items)
        ++ text_of_row (map (λ field. field.now) fields.now)) }
{
    for field in fields {
        if let Err(_) = writer.write_field(field.as_bytes()) {
            return Err(AllocError);
        }
    }
    if let Err(_) = writer.end_record() {
        return Err(AllocError);
    }
    Ok(())
}

/// Writes one row of fields with a writer that stands at the start of one, and leaves it at the next; what
/// `text` held is gone.
fn write_fields(
    writer: &mut Writer<Vec<u8>>,
    text: &mut String,
    fields: &[Field],
) -> Result<(), AllocError>
    requires { IsAtRowStart writer.old }
    ensures next { OnOk result (IsAtRowStart writer.new) }
    ensures text { OnOk result (written_by writer.new (λ text. text.items)
        ≡ written_by writer.old (λ text. text.items) ++ text_of_row (map field_text fields.now)) }
{
    for field in fields {
        set_text(text, *field)?;
        if let Err(_) = writer.write_field(text.as_bytes()) {
            return Err(AllocError);
        }
    }
    if let Err(_) = writer.end_record() {
        return Err(AllocError);
    }
    Ok(())
}
