//! When a file was changed last.

use std::fs::{File, Metadata};
use std::io::Result;
use std::os::unix::fs::MetadataExt;

/// How many bytes a file has, and when it was changed last.
#[derive(Clone, Copy, PartialEq, Eq)]
pub(crate) struct Stamp {
    pub(crate) size: u64,
    seconds: i64,
    nanoseconds: i64,
}

impl Stamp {
    /// That of an open file.
    pub(crate) fn of(file: &File) -> Result<Stamp> {
        Ok(Stamp::from(&file.metadata()?))
    }

    /// That which the system tells of a file.
    pub(crate) fn from(about: &Metadata) -> Stamp {
        Stamp {
            size: about.size(),
            seconds: about.mtime(),
            nanoseconds: about.mtime_nsec(),
        }
    }
}
