//! Why a desk that stands on a journal is not opened, or ends early.

use crate::run_refusal::{End, RunRefusal};
use pb_durable::FileChange;
use pb_durable::file_device::{FileFailure, FileFault};
use pb_durable::moved::kept_path;
use pb_faults::{AppFault, RunText, ServingFault};
use pb_words::Said;
use pb_words::serve_words::{
    changed_words, lost_words, moved_words, overwritten_words, unkept_text_words, unkept_words,
    unopened_words,
};
use std::alloc::Global;
use std::io;

/// Why a journal was not opened.
pub fn unopened(alloc: Global, journal: &str, fault: &FileFault) -> RunRefusal {
    match fault {
        FileFault::Locked => RunRefusal::Fault(AppFault::Serving(ServingFault::Locked(
            RunText::Journal,
        ))),
        FileFault::Open(error) => {
            let words = unopened_words(alloc, journal, error);
            RunRefusal::of_call(error, AppFault::Open(RunText::Journal), words)
        }
        FileFault::Device(error) => {
            let words = unkept_words(alloc, journal, "", error);
            RunRefusal::Told(End::Fault(AppFault::Write), words)
        }
    }
}

/// Why a run has ended early, where the journal may have failed. Where somebody has changed the journal while
/// its desk was open, this became of its text.
pub fn ended(
    alloc: Global,
    journal: &str,
    fault: AppFault,
    why: Option<FileFailure>,
    kept: Option<io::Result<u32>>,
) -> RunRefusal {
    match (fault, why) {
        (AppFault::Write, Some(FileFailure::Failed(error))) => {
            let words = unkept_words(alloc, journal, "", &error);
            RunRefusal::Told(End::Fault(fault), words)
        }
        (AppFault::Write, Some(FileFailure::Changed(change))) => RunRefusal::Told(
            End::Fault(AppFault::Serving(ServingFault::Moved)),
            change_words(alloc, journal, change, kept),
        ),
        (fault, _) => RunRefusal::Fault(fault),
    }
}

/// Words where somebody has moved the journal with this path or written over it, and this became of its text.
fn change_words(
    alloc: Global,
    path: &str,
    change: FileChange,
    kept: Option<io::Result<u32>>,
) -> Said {
    match (change, kept) {
        (_, None) => changed_words(alloc, path),
        (FileChange::Moved, Some(Err(reason))) => lost_words(alloc, path, &reason),
        (FileChange::Overwritten, Some(Err(reason))) => unkept_text_words(alloc, path, &reason),
        (change, Some(Ok(number))) => {
            let beside = kept_path(alloc, path, number)?;
            let words = match change {
                FileChange::Moved => moved_words(alloc, path, beside.as_str()),
                FileChange::Overwritten => overwritten_words(alloc, path, beside.as_str()),
            };
            drop(beside);
            words
        }
    }
}
