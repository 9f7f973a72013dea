//! META's head where it comes late.

use crate::prelude::*;
use pb_seen::heads::is_head;

/// Where META's head stands behind the record with this mark, and whether another head is before it.
pub fn late_meta<R: Files>(text: &Text<'_, R>, first: Mark) -> Option<(Mark, bool)> {
    let (head, mark) = text.find(first, |row| is_head(text_at(row, 0)))?;
    let is_meta = |row: &ByteRecord| text_at(row, 0).eq_ignore_ascii_case("META");
    if is_meta(&head) {
        return Some((mark, false));
    }
    Some((text.find(mark, is_meta)?.1, true))
}
