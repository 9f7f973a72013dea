//! Why an election is not exported.

use pb_core::names::name_at;
use thiserror::Error;

/// The names of `ExportFault`, in the order of its variants.
pub const NAMES: [&str; 4] = ["SectionWord", "CommaInId", "OfNoFile", "NoMemory"];

/// Why an election is not exported: no `.pb` file would be read back as it.
#[derive(Clone, Copy, Debug, PartialEq, Eq, Error)]
pub enum ExportFault {
    /// An id is META, PROJECTS or VOTES in any case: its row would be a section's head.
    #[error("an id is the name of a section")]
    SectionWord,
    /// A ballot approves a project whose id has a comma, which no vote can name.
    #[error("a ballot approves a project whose id has a comma")]
    CommaInId,
    /// A project's id or name has white space at its ends, or the limit on a ballot's length is above 10,000.
    /// No file stands for such an election.
    #[error("no file stands for such an election")]
    OfNoFile,
    /// Out of memory.
    #[error("out of memory")]
    NoMemory,
}

impl ExportFault {
    ghost use Rattle.std.specs.Prelude.{◌≡◌};
    ghost use Rattle.pb_core.specs.Numbered.{numbered};
    ghost use Rattle.pb_export.specs.contracts.export_fault.ExportFault.{the_type};

    /// The fault's number.
    pub fn number(&self) -> u32
        ensures { result ≡ (numbered the_type NAMES self.now).0 }
    {
        *self as u32 + 1
    }

    /// The fault's name.
    pub fn name(&self) -> &'static str
        ensures { result.now ≡ (numbered the_type NAMES self.now).1 }
    {
        name_at(&NAMES, *self as usize)
    }
}
