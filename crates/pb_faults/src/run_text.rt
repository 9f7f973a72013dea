//! The texts of a run.

ghost use Rattle.std.specs.Prelude.{◌≡◌};
ghost use Rattle.pb_faults.specs.Fault.{number_of};

use std::fmt;

/// A text that a run reads, or the one that it writes.
#[derive(Clone, Copy, PartialEq, Eq, Debug)]
pub enum RunText {
    /// The .pb file.
    File,
    /// The rows of requests.
    Script,
    Journal,
    /// The voters' roll.
    Roll,
    /// What a page says.
    Words,
    /// The published page that is compared with the one that is made.
    Page,
    /// The result.
    Output,
}

impl RunText {
    /// Its number in fault lines, which is that of its place on the command line, from 1.
    pub fn number(self) -> u32
        ensures { result ≡ number_of self }
    {
        match self {
            RunText::File => 1,
            RunText::Script | RunText::Journal => 2,
            RunText::Roll | RunText::Words | RunText::Output => 3,
            RunText::Page => 4,
        }
    }
}

impl fmt::Display for RunText {
    fn fmt<W: fmt::Write>(&self, f: &mut fmt::Formatter<W>) -> fmt::Result {
        write!(f, "{}", self.number())
    }
}
