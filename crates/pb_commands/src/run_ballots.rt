//! The command `ballots`: the ballots that a journal leaves on the desk of a file.

ghost use Rattle.std.specs.Prelude.{◌≡◌, ◌≢◌, IfErr, None, Some};
ghost use Rattle.std.specs.Option.{option_copied};
ghost use Rattle.pb_desk.specs.Desk.{DeskView};
ghost use Rattle.pb_commands.specs.Ballots.{ballots_table};
ghost use Rattle.pb_commands.specs.Audited.{IsDeskOf};
ghost use Rattle.pb_commands.specs.Closed.{LeavesNone};
ghost use Rattle.pb_commands.specs.Ends.{Runs};

use crate::ballots_table::ballots_text;
use crate::inputs::audited_desk;
use pb_faults::{AppFault, write_out};
use pb_read::NoWatch;
use std::alloc::Global;
use std::io::{Read, Write};

/// Reads a .pb file and a journal, audits the journal, and writes the ballots that the desk has after its
/// last entry: a row for each, or for that of this voter alone. The desk may be open.
///
/// The file is refused before the journal, and nothing is written but the whole table. Where the fault is
/// `Write` some of it may have gone out; on any other fault the writer is as it was. No warning refuses the
/// file.
pub fn run_ballots<P: Read + Drop, J: Read + Drop, W: Write>(
    alloc: Global,
    file: P,
    journal: J,
    voter: Option<&str>,
    writer: &mut W,
) -> Result<(), AppFault>
    ensures runs { Runs (λ bytes rows text. (d : DeskView) × IsDeskOf bytes rows d
        × (text ≡ ballots_table (option_copied voter.entry) d))
        (λ bytes rows. LeavesNone bytes (Some rows)) (P.remaining file) (J.remaining journal) (None, None, None)
        W.contents writer.old writer.new result }

    // An open desk is not refused.
    ensures any { IfErr result (λ fault. fault ≢ AppFault.OpenDesk) }
{
    let desk = audited_desk(alloc, file, journal, &mut NoWatch)?;
    let made = ballots_text(alloc, &desk, voter);
    drop(desk);
    let text = made?;
    write_out(writer, text.as_slice(), AppFault::Write)
}
