//! What the program says of a fault: one line, and the status that it ends with.

ghost use Rattle.std.specs.Prelude.{◌≡◌, ◌++◌, ◌∷◌, ◌==◌, [], OnOk, codes, decimal, if◌then◌else◌, map};
ghost use Rattle.std.specs.Io.KnownBytes.{Appends};
ghost use Rattle.pb_faults.specs.Fault.{line, merged, number_of, told, told_at};
ghost use Rattle.pb_script.specs.ScriptReading.{fault_of_row};

use crate::fault::AppFault;
use crate::run_text::RunText;
use crate::serving_fault::ServingFault;
use itoa::Buffer;
use pb_rounds::count_fault::CountFault;
use pb_script::{RollFault, RowRefusal};
use std::io;
use std::io::Write;

/// What was read, or its count, is refused.
pub(crate) const REFUSED: u8 = 1;
/// The arguments of the command line are refused.
pub const BAD_ARGUMENTS: u8 = 2;
/// A device failed, memory was refused, or another run has the journal.
pub(crate) const NO_DEVICE: u8 = 3;

impl AppFault {
    /// Writes the fault's line. It needs no memory, and fails only where the writer does; then some of
    /// the line may have gone out.
    pub fn write_line<W: Write>(&self, writer: &mut W) -> io::Result<()>
        ensures { OnOk result (Appends (W.contents writer.old) (W.contents writer.new)
            (line (told (merged self.now)).1)) }
    {
        match self.merged() {
            AppFault::Read(fault) => {
                let at = u64::from(fault.at);
                write_at(writer, "read", fault.number(), fault.name(), at)
            }
            AppFault::Script(fault) => {
                let at = u64::from(fault.at());
                write_at(writer, "script", fault.number(), fault.name(), at)
            }
            AppFault::ClerkCount => write_fields(writer, &["clerks", "1", "ClerkCount"]),
            AppFault::Audit(fault) => {
                let row = fault.at().unwrap_or(0);
                write_at(writer, "audit", fault.number(), fault.name(), row)
            }
            AppFault::OtherFile => write_fields(writer, &["other-file"]),
            AppFault::OpenDesk => write_fields(writer, &["open-desk"]),
            AppFault::Count(fault) => {
                write_numbered(writer, "count", fault.number(), fault.name())
            }
            AppFault::TooManyRuns => write_fields(writer, &["ties", "1", "TooManyRuns"]),
            AppFault::Export(fault) => {
                write_numbered(writer, "export", fault.number(), fault.name())
            }
            AppFault::Open(text) => write_of_text(writer, "open", text),
            AppFault::Write | AppFault::Serving(ServingFault::Output) => {
                write_fields(writer, &["write"])
            }
            AppFault::Memory => write_fields(writer, &["memory"]),
            AppFault::Warned(warning) => {
                write_named(writer, "warning", warning.oddity.name(), warning.at)
            }
            AppFault::Roll(fault) => write_roll(writer, fault),
            AppFault::Serving(ServingFault::Spelling) => write_fields(writer, &["spelling"]),
            AppFault::Serving(ServingFault::Moved) => write_fields(writer, &["moved", "2"]),
            AppFault::Serving(ServingFault::Locked(text)) => write_of_text(writer, "locked", text),
        }
    }

    /// The status that the program then ends with: 1 where what it read or its count is refused, 2 where
    /// the arguments are, 3 where a device failed or memory was refused.
    pub fn status(&self) -> u8
        ensures { result ≡ (told (merged self.now)).0 }
    {
        match self.merged() {
            AppFault::Read(fault) => read_status(fault.number()),
            AppFault::Script(fault) => read_status(fault.number()),
            AppFault::ClerkCount => BAD_ARGUMENTS,
            AppFault::Audit(fault) => read_status(fault.number()),
            AppFault::OtherFile
            | AppFault::OpenDesk
            | AppFault::Count(CountFault::RaisesSpent | CountFault::TooFine)
            | AppFault::TooManyRuns
            | AppFault::Export(_)
            | AppFault::Warned(_)
            | AppFault::Serving(ServingFault::Spelling) => REFUSED,
            AppFault::Count(_) => BAD_ARGUMENTS,
            AppFault::Roll(RollFault::NotText(_) | RollFault::TooManyIds(_)) => REFUSED,
            AppFault::Roll(_)
            | AppFault::Open(_)
            | AppFault::Write
            | AppFault::Memory
            | AppFault::Serving(
                ServingFault::Moved | ServingFault::Locked(_) | ServingFault::Output,
            ) => NO_DEVICE,
        }
    }
}

/// The status where a file, a script or a journal has the fault with this number: 1 is a reader that failed.
fn read_status(number: u32) -> u8
    ensures { result ≡ (if number == 1 then 3 else 1) }
{
    if number == 1 { NO_DEVICE } else { REFUSED }
}

/// The status of a run that has answered all its rows, of which so many were refused. Each of these has its
/// line already.
pub fn rows_status(refused: u64) -> u8
    ensures { result ≡ (if refused == 0 then 0 else 1) }
{
    if refused == 0 { 0 } else { REFUSED }
}

/// Writes the line of a row of a script that is refused for this. The rows have their numbers from 1.
pub fn write_refused_row<W: Write>(writer: &mut W, why: RowRefusal, row: u64) -> io::Result<()>
    ensures { OnOk result (Appends (W.contents writer.old) (W.contents writer.new)
        (line (told (AppFault.Script (fault_of_row why row))).1)) }
{
    match why {
        RowRefusal::Bad => write_at(writer, "script", 2, "BadRow", row),
        RowRefusal::UnknownId => write_at(writer, "script", 5, "UnknownId", row),
        RowRefusal::NotOnRoll => write_at(writer, "script", 6, "NotOnRoll", row),
        RowRefusal::TooFew => write_at(writer, "script", 7, "TooFew", row),
        RowRefusal::FromFile => write_at(writer, "script", 8, "FromFile", row),
        RowRefusal::NoShut => write_at(writer, "script", 9, "NoShut", row),
    }
}

/// Writes the line of the fault with this number and name in this record or row.
fn write_at<W: Write>(
    writer: &mut W,
    what: &str,
    number: u32,
    name: &str,
    at: u64,
) -> io::Result<()>
    ensures { OnOk result (Appends (W.contents writer.old) (W.contents writer.new)
        (line (told_at what.now (number, name.now) at).1)) }
{
    let mut number_digits = Buffer::new();
    let mut at_digits = Buffer::new();
    let number = number_digits.format(number);
    write_fields(writer, &[what, number, name, at_digits.format(at)])
}

/// Writes the line of the fault with this number and name, which is of no record or row.
fn write_numbered<W: Write>(writer: &mut W, what: &str, number: u32, name: &str) -> io::Result<()>
    ensures { OnOk result (Appends (W.contents writer.old) (W.contents writer.new)
        (line (what.now ∷ decimal number ∷ name.now ∷ []))) }
{
    let mut digits = Buffer::new();
    write_fields(writer, &[what, digits.format(number), name])
}

/// Writes the line of a voters' roll with this fault.
fn write_roll<W: Write>(writer: &mut W, fault: RollFault) -> io::Result<()>
    ensures { OnOk result (Appends (W.contents writer.old) (W.contents writer.new)
        (line (told (AppFault.Roll fault)).1)) }
{
    match fault {
        RollFault::ReadFailed(row) => write_named(writer, "roll", "ReadFailed", u64::from(row)),
        RollFault::NotText(row) => write_named(writer, "roll", "NotText", u64::from(row)),
        RollFault::TooManyIds(row) => write_named(writer, "roll", "TooManyIds", u64::from(row)),
        RollFault::NoMemory => write_fields(writer, &["memory"]),
    }
}

/// Writes the line of what befell this text.
fn write_of_text<W: Write>(writer: &mut W, what: &str, text: RunText) -> io::Result<()>
    ensures { OnOk result (Appends (W.contents writer.old) (W.contents writer.new)
        (line (what.now ∷ decimal (number_of text) ∷ []))) }
{
    let mut digits = Buffer::new();
    write_fields(writer, &[what, digits.format(text.number())])
}

/// Writes the line of what has this name, in this record.
pub(crate) fn write_named<W: Write>(
    writer: &mut W,
    what: &str,
    name: &str,
    at: u64,
) -> io::Result<()>
    ensures { OnOk result (Appends (W.contents writer.old) (W.contents writer.new)
        (line (what.now ∷ name.now ∷ decimal at ∷ []))) }
{
    let mut digits = Buffer::new();
    write_fields(writer, &[what, name, digits.format(at)])
}

/// Writes the line of these fields.
pub(crate) fn write_fields<W: Write>(writer: &mut W, fields: &[&str]) -> io::Result<()>
    ensures { OnOk result (Appends (W.contents writer.old) (W.contents writer.new)
        (line (map (λ field. field.now) fields.now))) }
{
    writer.write_all(b"fault")?;
    for field in fields {
        write_field(writer, field)?;
    }
    writer.write_all(b"\n")
}

/// Writes a field of a line, with the `;` before it.
fn write_field<W: Write>(writer: &mut W, field: &str) -> io::Result<()>
    ensures { OnOk result (Appends (W.contents writer.old) (W.contents writer.new)
        (codes ";" ++ field.now)) }
{
    writer.write_all(b";")?;
    writer.write_all(field.as_bytes())
}
