//! Rows of column names that are two, and lists of projects among the votes.

use crate::faulty_record::FaultyRecord;
use crate::prelude::*;
use crate::witness::Witness;
use pb_seen::changed::differ_in_form;
use pb_seen::ids::Ids;

impl FaultyRecord {
    /// Whether the row below these column names has no first field, and ids of projects in several others.
    pub fn has_names_below<R: Files>(&self, text: &Text<'_, R>, ids: &Ids) -> bool {
        let below = text.row_behind(self.mark);
        below.is_some_and(|row| text_at(&row, 0).is_empty() && ids.are_columns(&row))
    }

    /// Whether it is a row of VOTES that may stand in a list of projects: it and a row beside it have ids of
    /// projects, and the first row that is accepted has an id of another form.
    pub fn is_listed<R: Files>(&self, text: &Text<'_, R>, witness: &Witness) -> bool {
        let (ids, id) = (&witness.ids.projects, self.places().0);
        let has = |row: Option<ByteRecord>| row.is_some_and(|row| ids.has(text_at(&row, id)));
        let first = witness.rows.first.and_then(|mark| text.row_at(mark));
        let is_other = first.is_some_and(|row| {
            matches!(
                differ_in_form(text.alloc, self.id(), text_at(&row, id)),
                Ok(true)
            )
        });
        ids.has(self.id())
            && is_other
            && (has(text.row_behind(self.mark)) || has(text.row_at(self.seen.last)))
    }
}
