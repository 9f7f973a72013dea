//! The place that a text was given in a table.

use crate::prelude::*;

/// The place that a text has in a table; where it has none it is given this one.
pub fn kept_in(
    table: &mut IdTable,
    alloc: Global,
    text: &str,
    place: u32,
) -> Result<Option<u32>, AllocError> {
    let kept = table.get(text);
    if kept.is_none() {
        let _ = table.insert(alloc, text, place)?;
    }
    Ok(kept)
}
