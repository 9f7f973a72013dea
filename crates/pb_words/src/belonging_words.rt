//! Words for a journal and the file that it belongs to.

use crate::prelude::*;
use std::io::Error;

/// The end of the name of the file beside a journal.
const FILE: &str = ".file";

/// Words for a journal that belongs to another file than the one with this path, as this text of the file
/// beside it says.
pub fn other_file_words(alloc: Global, file: Option<&str>, journal: &str, text: &[u8]) -> Said {
    let (journal, beside) = (Name(Some(journal)), Beside(journal, FILE));
    let start = text.iter().take(64);
    if start.filter(|byte| byte.is_ascii_hexdigit()).count() == 64 {
        return said(
            alloc,
            "{} was made with another .pb file: the SHA-256 of {} differs from the one noted in {}.\nThe journal names each project only by its position in the .pb file (0, 1, ..). In another file, the same position may be another project. Run the command again with the .pb file with which the desk was opened.\nIf you want to use {}, give `--other-file`. Do so only if all projects of the old file are in it, in the same order. Their names and costs may differ. New projects may only come after the old ones.\n",
            &[journal, Name(file), beside, Name(file)],
        );
    }
    said(
        alloc,
        "{} should begin with the SHA-256 of the .pb file, but it does not. So the program can't tell to which .pb file {} belongs.\nGet {} from last evening's copy.\n",
        &[beside, journal, beside],
    )
}

/// Words for a journal with entries beside which nothing stood, and that now belongs to the file with this
/// digest.
pub fn adopted_words(alloc: Global, journal: &str, digest: &str) -> Said {
    said(
        alloc,
        "{} was missing, so the program can't tell to which .pb file {} belongs.\nThe program has now created it. It says that the journal belongs to the .pb file of this command, whose SHA-256 is {}.\nCompare this with the SHA-256 that you noted when the desk was opened. If they differ, stop, and find the right .pb file.\n",
        &[Beside(journal, FILE), Name(Some(journal)), Own(digest)],
    )
}

/// Words for the file beside a journal, which could not be read, for this reason.
pub fn unread_file_words(alloc: Global, journal: &str, reason: &Error) -> Said {
    let remedy =
        "This file says to which .pb file the journal belongs. Get permission to read it, or get it from last evening's copy.\n";
    failed(alloc, Beside(journal, FILE), Some(reason), "", remedy)
}
