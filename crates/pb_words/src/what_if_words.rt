//! Words for a question about changed elections that has no answer.

use crate::prelude::*;

/// Words for an id that no project has; a file without a path is standard input.
pub fn no_project_words(alloc: Global, id: &str, file: Option<&str>) -> Said {
    said(
        alloc,
        "error: --project {}: no project of {} has this id.\n`pb_app projects` lists the ids, in the column project_id.\n",
        &[Quoted(id), Name(file)],
    )
}

/// Words for more further voters than the election can have.
pub fn too_many_voters_words(alloc: Global, most: u64) -> Said {
    said(
        alloc,
        "error: --voters: an election has at most 1000000 voters, so this one can have at most {} further ones.\n",
        &[Number(most)],
    )
}

/// Words for a cost that no project can have.
pub fn no_cost_words(alloc: Global) -> Said {
    said(
        alloc,
        "error: --cost takes an amount above 0, at most 10000000000000.\n",
        &[],
    )
}
