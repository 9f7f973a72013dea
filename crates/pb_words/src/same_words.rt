//! What is said of a published page that is not the page of a count, or was not read.

use crate::prelude::*;

/// Words for a published page that could not be read from standard input.
pub fn unread_input_words(alloc: Global) -> Said {
    let words =
        "standard input: reading failed.\nCheck the disk or the connection, then run again.\n";
    said(alloc, words, &[])
}

/// Words for the published page with this path, which first differs in this line, at this character of it.
pub fn differs_words(alloc: Global, path: Option<&str>, line: u64, column: u64) -> Said {
    said(
        alloc,
        "{}: this is not the page of this count: line {} differs, from character {} on.\nGive all options that the page was made with, also --words. If it still differs, it was changed, or made from other files or by another version of the program.\n",
        &[Name(path), Number(line), Number(column)],
    )
}
