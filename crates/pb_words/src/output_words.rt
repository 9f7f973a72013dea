//! Words for a result that does not go to the path that was named for it.

use crate::prelude::*;

/// Words for a path that leads to a text that the run reads; one without a path is standard input.
pub fn read_output_words(alloc: Global, path: &str, text: Option<&str>) -> Said {
    let form = match text {
        Some(_) =>
            "error: --output {} would replace {}, which this run reads.\nName another file.\n",
        None =>
            "error: --output {} would replace the file that this run reads as {}.\nName another file.\n",
    };
    said(alloc, form, &[Name(Some(path)), Name(text)])
}

/// Words for a path that leads to what stands beside a journal that the run reads; one without a path is
/// standard input.
pub fn beside_output_words(alloc: Global, path: &str, journal: Option<&str>) -> Said {
    said(
        alloc,
        "error: --output {}: this is the name of a file that belongs to the journal {}.\nName another file.\n",
        &[Name(Some(path)), Name(journal)],
    )
}

/// Words for a path at which a journal stands, where the result is none.
pub fn journal_output_words(alloc: Global, path: &str) -> Said {
    said(
        alloc,
        "error: --output {} would replace a journal. Only `pb_app desk` may do that.\nName another file, or move the journal away first.\n",
        &[Name(Some(path))],
    )
}

/// Words for a path at which a journal stands that a run serves.
pub fn served_output_words(alloc: Global, path: &str) -> Said {
    said(
        alloc,
        "--output {} would replace a journal that `pb_app serve` is using.\nName another file.\n",
        &[Name(Some(path))],
    )
}
