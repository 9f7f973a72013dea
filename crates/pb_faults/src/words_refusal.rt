//! What the program says of a refused file of words: one line, and the status that it ends with.

ghost use Rattle.std.specs.Prelude.{◌≡◌, OnOk};
ghost use Rattle.std.specs.Io.KnownBytes.{Appends};
ghost use Rattle.pb_faults.specs.Fault.{line, told_words};

use crate::fault_line::{NO_DEVICE, REFUSED, write_fields, write_named};
use std::io;
use std::io::Write;

/// Where a file with the words of a page is at fault.
#[derive(Clone, Copy)]
pub enum WordsPlace {
    /// In the line with this number, from 1.
    Line(u32),
    /// It lacks this key, or has no use for it.
    Key(&'static str),
    /// It could not be read.
    Nowhere,
}

/// Why a file with the words of a page is refused: the fault's name, and its place.
#[derive(Clone, Copy)]
pub struct WordsRefusal {
    pub name: &'static str,
    pub place: WordsPlace,
}

impl WordsRefusal {
    /// Writes the fault's line. It needs no memory, and fails only where the writer does; then some of the
    /// line may have gone out.
    pub fn write_line<W: Write>(&self, writer: &mut W) -> io::Result<()>
        ensures { OnOk result (Appends (W.contents writer.old) (W.contents writer.new)
            (line (told_words self.now.name.now self.now.place).1)) }
    {
        match self.place {
            WordsPlace::Line(number) => write_named(writer, "words", self.name, u64::from(number)),
            WordsPlace::Key(key) => write_fields(writer, &["words", self.name, key]),
            WordsPlace::Nowhere => write_fields(writer, &["words", self.name]),
        }
    }

    /// The status that the program then ends with: 3 where the file could not be read, and else 1.
    pub fn status(&self) -> u8
        ensures { result ≡ (told_words self.now.name.now self.now.place).0 }
    {
        match self.place {
            WordsPlace::Line(_) | WordsPlace::Key(_) => REFUSED,
            WordsPlace::Nowhere => NO_DEVICE,
        }
    }
}
