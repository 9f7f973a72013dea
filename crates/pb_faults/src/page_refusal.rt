//! What the program says of a published page that is not the one that it makes: one line, and the status that
//! it ends with.

ghost use Rattle.std.specs.Prelude.{◌≡◌, ◌∷◌, [], OnOk, codes, decimal};
ghost use Rattle.std.specs.Io.KnownBytes.{Appends};
ghost use Rattle.pb_faults.specs.Fault.{line};

use crate::fault_line::{REFUSED, write_fields};
use itoa::Buffer;
use std::io;
use std::io::Write;

/// A published page that is not the one that was made.
#[derive(Clone, Copy)]
pub struct PageRefusal {
    /// The first line that differs, from 1.
    pub line: u64,
}

impl PageRefusal {
    /// Writes the fault's line. It needs no memory, and fails only where the writer does; then some of the
    /// line may have gone out.
    pub fn write_line<W: Write>(&self, writer: &mut W) -> io::Result<()>
        ensures { OnOk result (Appends (W.contents writer.old) (W.contents writer.new)
            (line (codes "page" ∷ codes "1" ∷ codes "Differs" ∷ decimal self.now.line ∷ []))) }
    {
        let mut digits = Buffer::new();
        write_fields(writer, &["page", "1", "Differs", digits.format(self.line)])
    }

    /// The status that the program then ends with.
    pub fn status(&self) -> u8
        ensures { result ≡ 1 }
    {
        REFUSED
    }
}
