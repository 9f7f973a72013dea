//! Ids that a .pb file can't have, or that no vote of one can name.

use crate::prelude::*;
use pb_read::read_pb;
use pb_seen::heads::is_head;

/// The first voter of a journal, if it is a file that can be read again, whose id is the name of a section.
pub fn voter_like_a_heading<R: Files>(journal: &Text<'_, R>) -> Result<Option<String>, AllocError> {
    let is_so = |row: &ByteRecord| is_head(text_at(row, 3));
    let Some((row, _)) = journal.find(Mark::start(), is_so) else {
        return Ok(None);
    };
    Ok(Some(String::from_str(journal.alloc, text_at(&row, 3))?))
}

/// The id of the only project of a .pb file, if it is a file that can be read again, whose id has a comma.
pub fn project_with_comma<R: Files>(file: &Text<'_, R>) -> Result<Option<String>, AllocError> {
    let Some(reader) = file.open_at(0) else {
        return Ok(None);
    };
    let Ok(election) = read_pb(file.alloc, reader) else {
        return Ok(None);
    };
    let mut found = election
        .projects()
        .iter()
        .filter(|project| project.id().contains(','));
    let id = match (found.next(), found.next()) {
        (Some(only), None) => Some(String::from_str(file.alloc, only.id())?),
        _ => None,
    };
    Ok(id)
}
