//! What stands beside a journal.

use crate::file_id::{FileId, INPUT};
use pb_command_line::TextSource;
use std::fmt::Display;
use std::fs;
use std::io::{ErrorKind, Result};
use std::path::Path;
use std::rt::Files;

/// The ends of the names of the files that belong to a journal: those of the clerks' window, and those of the
/// program, the last of which may have a number behind it.
const ENDS: &[&str] = &[".window", ".torn", ".file", ".kept"];

/// So many files with a number are looked for.
const MOST_KEPT: u32 = 10_000;

/// Whether a path is one of the names of the files that belong to a journal, or leads to a file that has one. The journal may be named by a link, or be standard input.
pub(crate) fn stands_beside<R: Files + AllocGlobal>(
    rt: &R,
    path: &str,
    journal: &TextSource<'_>,
) -> Result<bool> {
    let journal = journal.path().unwrap_or(INPUT);
    let target = FileId::at(rt, path)?;
    if is_beside(rt, path, target, journal)? {
        return Ok(true);
    }
    match fs::canonicalize(rt, journal) {
        Ok(own) => {
            let is_beside_own = is_beside(rt, path, target, own.as_str());
            drop(own);
            is_beside_own
        }
        Err(error) if error.kind() == ErrorKind::OutOfMemory => Err(error),
        // It is a pipe, or can't be read, which the run tells.
        Err(_) => Ok(false),
    }
}

/// Whether a path, which leads to the file `target`, is one of the names beside the journal with this path.
fn is_beside<R: Files + AllocGlobal>(
    rt: &R,
    path: &str,
    target: Option<FileId>,
    journal: &str,
) -> Result<bool> {
    if has_such_name(path, journal) && is_same_folder(rt, path, journal)? {
        return Ok(true);
    }
    match target {
        Some(target) => is_linked(rt, target, journal),
        None => Ok(false),
    }
}

/// Whether the name at the end of a path is that of a file that belongs to a journal.
fn has_such_name(path: &str, journal: &str) -> bool {
    let names = (Path::new(path).file_name(), Path::new(journal).file_name());
    let (Some(name), Some(journal)) = names else {
        return false;
    };
    let Some(end) = name.strip_prefix(journal) else {
        return false;
    };
    match end.strip_prefix(".kept") {
        Some(number) => number.bytes().all(|byte| byte.is_ascii_digit()),
        None => ENDS.contains(&end),
    }
}

/// Whether two paths are of one folder.
fn is_same_folder<R: Files>(rt: &R, path: &str, other: &str) -> Result<bool> {
    let folder = FileId::at(rt, folder_of(path))?;
    Ok(folder.is_some() && folder == FileId::at(rt, folder_of(other))?)
}

/// The folder of a path.
pub(crate) fn folder_of(path: &str) -> &str {
    match Path::new(path).parent() {
        Some(folder) if folder.as_str() != "" => folder.as_str(),
        _ => ".",
    }
}

/// Whether a file has one of the names of the files that belong to a journal.
fn is_linked<R: Files + AllocGlobal>(rt: &R, target: FileId, journal: &str) -> Result<bool> {
    for end in ENDS {
        if named(rt, journal, end, "")? == Some(target) {
            return Ok(true);
        }
    }
    for number in 1..MOST_KEPT {
        match named(rt, journal, ".kept", number)? {
            Some(id) if id == target => return Ok(true),
            Some(_) => {}
            None => return Ok(false),
        }
    }
    Ok(false)
}

/// The file beside a journal whose name has this end and this number, or an empty text in its place.
fn named<R: Files + AllocGlobal, N: Display + Copy>(
    rt: &R,
    journal: &str,
    end: &str,
    number: N,
) -> Result<Option<FileId>> {
    let path = format!(in rt.alloc(); "{journal}{end}{number}")?;
    let id = FileId::at(rt, path.as_str());
    drop(path);
    id
}
