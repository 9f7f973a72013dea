//! The texts that the command line names: standard input, or files.

use pb_command_line::TextSource;
use pb_faults::{AppFault, RunText};
use std::io::{Read, Result};
use std::rt::Files;
use std::{fs, io};

/// A reader of standard input, or of a file.
#[derive(Drop)]
pub enum TextReader<R: Files + Input> {
    Input(R::Reader),
    File(R::File),
}

impl<R: Files + Input> Read for TextReader<R> {
    fn read(&mut self, buf: &mut [u8]) -> Result<usize> {
        match self {
            TextReader::Input(reader) => reader.read(buf),
            TextReader::File(file) => file.read(buf),
        }
    }
}

/// Opens this text.
pub(crate) fn open<R: Files + Input>(
    rt: &R,
    source: &TextSource<'_>,
    text: RunText,
) -> std::result::Result<TextReader<R>, AppFault> {
    match source {
        TextSource::Input => Ok(TextReader::Input(rt.reader())),
        TextSource::File(path) => Ok(TextReader::File(open_file(rt, path, text)?)),
    }
}

/// Reads this text whole. One that can't be read is told as one that can't be opened.
pub fn read_text<R: Files + Input + AllocGlobal>(
    rt: &R,
    source: &TextSource<'_>,
    text: RunText,
) -> std::result::Result<Vec<u8>, AppFault> {
    let mut reader = open(rt, source, text)?;
    let mut bytes = Vec::new(rt.alloc());
    let read = reader.read_to_end(&mut bytes);
    drop(reader);
    match read {
        Ok(_) => Ok(bytes),
        Err(error) => {
            drop(bytes);
            if error.kind() == io::ErrorKind::OutOfMemory {
                Err(AppFault::Memory)
            } else {
                Err(AppFault::Open(text))
            }
        }
    }
}

/// Opens a .pb file, and this text behind it.
pub fn open_both<R: Files + Input>(
    rt: &R,
    first: &TextSource<'_>,
    second: &TextSource<'_>,
    text: RunText,
) -> std::result::Result<(TextReader<R>, TextReader<R>), AppFault> {
    let first = open(rt, first, RunText::File)?;
    match open(rt, second, text) {
        Ok(second) => Ok((first, second)),
        Err(fault) => {
            drop(first);
            Err(fault)
        }
    }
}

/// Opens the file that has this text.
pub fn open_file<R: Files>(
    rt: &R,
    path: &str,
    text: RunText,
) -> std::result::Result<R::File, AppFault> {
    match fs::open(rt, path) {
        Ok(file) => Ok(file),
        Err(error) if error.kind() == io::ErrorKind::OutOfMemory => Err(AppFault::Memory),
        Err(_) => Err(AppFault::Open(text)),
    }
}
