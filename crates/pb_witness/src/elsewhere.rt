//! Where in a file something else stands that explains a fault: unknown ids in another column, rows that are
//! missing between others, amounts that lost a mark.

use crate::faulty_record::FaultyRecord;
use crate::known::Known;
use crate::prelude::*;
use crate::records::TextRecords;
use crate::witness::Witness;
use pb_seen::amounts::order_of;
use pb_seen::changed::has_thousandths;

/// The fewest unknown ids that all stand in one column.
const FEWEST: usize = 2;

/// What an amount is below, in hundredths, that may have lost its thousands.
const SMALL: u64 = 100_000;

/// The place of a column of PROJECTS that has all ids that no project has, if they are several.
pub(crate) fn elsewhere<R: Files>(
    text: &Text<'_, R>,
    witness: &Witness,
) -> Result<Option<usize>, AllocError> {
    let start = witness.seen.project_names;
    if witness.unknown.found.len() < FEWEST {
        return Ok(None);
    }
    let Some(mut records) = text.record_at(start) else {
        return Ok(None);
    };
    let found = column_with_all(text.alloc, &mut records, witness);
    drop(records);
    found
}

/// The place of a column that has all unknown ids in the rows before VOTES' column names.
fn column_with_all<F: Read>(
    alloc: Global,
    records: &mut TextRecords<F>,
    witness: &Witness,
) -> Result<Option<usize>, AllocError> {
    let own = column_of(&records.last, Column::ProjectId.name()).unwrap_or(0);
    let mut counts = Vec::new(alloc);
    counts.resize(records.last.len(), 0usize)?;
    for _ in records.at.saturating_add(1)..witness.seen.names.at {
        if !records.advance() {
            break;
        }
        for (place, count) in counts.iter_mut().enumerate() {
            let id = text_at(&records.last, place);
            let is_one = place != own && witness.unknown.place(id).is_some();
            *count = count.saturating_add(usize::from(is_one));
        }
    }
    let all = witness.unknown.found.len();
    let found = counts.iter().position(|count| *count >= all);
    drop(counts);
    Ok(found)
}

/// The first cost below 1000 without three digits behind a mark, and where it stands, as far as PROJECTS can be
/// read again from a fault of a cost or of META on.
pub fn small_amount<R: Files>(text: &Text<'_, R>, faulty: &FaultyRecord) -> Option<(String, Mark)> {
    let (names, start) = if faulty.is_of_projects() {
        (
            text.row_at(faulty.seen.project_names)?,
            faulty.seen.project_names,
        )
    } else {
        text.find(faulty.mark, |_| true)?
    };
    let cost = column_of(&names, Column::Cost.name())?;
    let is_small = |value: &str| {
        Money::read(value).is_ok_and(|amount| amount.0 < SMALL && amount.0 > 0)
            && !has_thousandths(value)
    };
    let is_head = |row: &ByteRecord| text_at(row, 0).eq_ignore_ascii_case("VOTES");
    let (row, mark) = text.find(start, |row| is_head(row) || is_small(text_at(row, cost)))?;
    if is_head(&row) {
        return None;
    }
    Some((
        String::from_str(text.alloc, text_at(&row, cost)).ok()?,
        mark,
    ))
}

impl Known<'_> {
    /// The rows above and below this row and those behind it that repeat voters' ids, if just as many ids are missing
    /// between those of the two.
    pub fn pasted_over<R: Files>(
        &self,
        text: &Text<'_, R>,
        faulty: &FaultyRecord,
    ) -> Option<(ByteRecord, ByteRecord)> {
        let mut last = faulty.mark;
        for other in self.witness.refused.as_slice() {
            let is_next = other.mark.at == last.at.saturating_add(1);
            if is_next && other.kind() == ReadKind::RepeatedVoter {
                last = other.mark;
            }
        }
        let (above, below) = (text.row_at(faulty.seen.last)?, text.row_behind(last)?);
        let id = faulty.places().0;
        let (front, number) = order_of(text_at(&above, id));
        let (other, next) = order_of(text_at(&below, id));
        let rows = last.at.saturating_sub(faulty.mark.at).saturating_add(2);
        let is_gap = front == other && next == number.saturating_add(rows);
        is_gap.then_some((above, below))
    }
}
