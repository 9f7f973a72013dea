//! Which file a path leads to.

use pb_command_line::TextSource;
use std::fs;
use std::io::{ErrorKind, Result};
use std::os::unix::fs::MetadataExt;
use std::rt::Files;

/// What standard input is to the system.
pub(crate) const INPUT: &str = "/dev/stdin";

/// A file, by its device and its number there.
#[derive(Clone, Copy, PartialEq, Eq)]
pub(crate) struct FileId {
    device: u64,
    number: u64,
    /// It is no folder, device or pipe.
    pub(crate) is_plain: bool,
}

impl FileId {
    /// The file that a path leads to, over links, where there is one.
    pub(crate) fn at<R: Files>(rt: &R, path: &str) -> Result<Option<FileId>> {
        match fs::metadata(rt, path) {
            Ok(metadata) => Ok(Some(FileId {
                device: metadata.dev(),
                number: metadata.ino(),
                is_plain: metadata.is_file(),
            })),
            Err(error) if error.kind() == ErrorKind::OutOfMemory => Err(error),
            // Whoever opens it is told why.
            Err(_) => Ok(None),
        }
    }

    /// Whether a text is read from this file; standard input is none where it is a terminal or a pipe.
    pub(crate) fn has_text<R: Files>(self, rt: &R, text: &TextSource<'_>) -> Result<bool> {
        match text {
            TextSource::Input => Ok(self.is_plain && FileId::at(rt, INPUT)? == Some(self)),
            TextSource::File(path) => Ok(FileId::at(rt, path)? == Some(self)),
        }
    }
}
