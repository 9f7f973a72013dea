//! What a result never replaces.

use crate::beside::stands_beside;
use crate::file_id::FileId;
use crate::journal_start::{LOOKED_AT, begins_as_journal};
use pb_command_line::{Task, TextSource};
use std::alloc::Global;
use std::fs;
use std::fs::{File, TryLockError};
use std::io::{Read, Result};
use std::rt::Files;

/// Why a result does not go to the path that is named for it.
#[derive(Clone, Copy)]
pub(crate) enum Bar<'a> {
    /// It leads to this text, which the run reads.
    IsRead(TextSource<'a>),
    /// It leads to what stands beside this journal, which the run reads.
    IsBeside(TextSource<'a>),
    /// A journal stands there, and the result is none.
    IsJournal,
    /// A run serves the journal that stands there.
    IsServed,
}

/// What bars the result of a task from a path, as files stand now. An error is a call of the system that has
/// failed: what can't be looked at is not replaced.
pub(crate) fn bar_of<'a, R: Files<File = File> + AllocGlobal>(
    rt: &R,
    task: &Task<'a>,
    path: &str,
) -> Result<Option<Bar<'a>>> {
    let target = FileId::at(rt, path)?;
    if let Some(target) = target {
        if let Some(text) = text_of(rt, task, target)? {
            return Ok(Some(Bar::IsRead(text)));
        }
    }
    if let Some(journal) = task.journal() {
        if stands_beside(rt, path, &journal)? {
            return Ok(Some(Bar::IsBeside(journal)));
        }
    }
    match target {
        Some(target) if target.is_plain => bar_of_file(rt, task, path),
        _ => Ok(None),
    }
}

/// The text of a task that is read from this file, where one is.
fn text_of<'a, R: Files>(
    rt: &R,
    task: &Task<'a>,
    target: FileId,
) -> Result<Option<TextSource<'a>>> {
    let (file, second) = task.texts();
    let third = task.third().map(TextSource::File);
    for text in &[Some(file), second, third, task.published()] {
        if let Some(text) = text {
            if target.has_text(rt, text)? {
                return Ok(Some(*text));
            }
        }
    }
    Ok(None)
}

/// What bars the result of a task from the file with this path, which may be a journal.
fn bar_of_file<'a, R: Files<File = File> + AllocGlobal>(
    rt: &R,
    task: &Task<'_>,
    path: &str,
) -> Result<Option<Bar<'a>>> {
    let file = fs::open(rt, path)?;
    // Nobody serves a file whose system has no locks.
    if let Err(TryLockError::WouldBlock) = file.try_lock_shared() {
        drop(file);
        return Ok(Some(Bar::IsServed));
    }
    if task.makes_journal() {
        drop(file);
        return Ok(None);
    }
    let is_journal = is_journal(rt.alloc(), file)?;
    Ok(is_journal.then_some(Bar::IsJournal))
}

/// Whether a file begins as a journal does.
fn is_journal(alloc: Global, file: File) -> Result<bool> {
    let mut reader = file.take(LOOKED_AT as u64);
    let mut start = Vec::new(alloc);
    let read = reader.read_to_end(&mut start);
    drop(reader);
    let begins = match read {
        Ok(_) => begins_as_journal(alloc, &start),
        Err(error) => Err(error),
    };
    drop(start);
    begins
}
