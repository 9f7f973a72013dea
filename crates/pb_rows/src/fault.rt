//! Why a record could not be read.

ghost use Rattle.std.specs.Prelude.{◌≡◌};
ghost use Rattle.csv.specs.Reading.{error_kind};
ghost use Rattle.pb_rows.specs.Inner.Reading.{fault_of_kind};

use csv::ErrorKind;
use thiserror::Error;

/// Why the next record of a text could not be read.
#[derive(Clone, Copy, PartialEq, Eq, Debug, Error)]
pub enum RecordsFault {
    /// The reader underneath failed.
    #[error("the reader failed")]
    ReadFailed,
    /// A field of the record is not UTF-8.
    #[error("a field is not UTF-8")]
    NotText,
    /// Memory was refused.
    #[error("out of memory")]
    NoMemory,
}

impl RecordsFault {
    /// What an error of csv stands for. The ones that a reader of records of any length never answers
    /// count as its failure.
    #[cold]
    pub(crate) fn of(error: csv::Error) -> RecordsFault
        ensures { result ≡ fault_of_kind (error_kind error) }
    {
        match error.kind() {
            ErrorKind::Utf8 { .. } => RecordsFault::NotText,
            ErrorKind::OutOfMemory => RecordsFault::NoMemory,
            _ => RecordsFault::ReadFailed,
        }
    }
}
