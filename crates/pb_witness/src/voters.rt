//! Where the first rows of the voters stand whose ids are repeated.

use crate::faulty_record::FaultyRecord;
use crate::prelude::*;
use crate::records::TextRecords;
use crate::witness::Witness;
use pb_seen::fields::is_blank;

/// Where the rows of some voters stand.
#[derive(Drop)]
pub struct FirstRows {
    /// The places of these voters among all, from 0, rising.
    places: Vec<u32>,
    /// Where their rows begin, as far as they were found.
    marks: Vec<Mark>,
}

impl FirstRows {
    /// Where the row of the voter at this place stands, if it was found.
    pub fn mark(&self, place: u32) -> Option<Mark> {
        let found = self.places.binary_search(&place).ok()?;
        self.marks.get(found).copied()
    }

    /// Takes where the row of the voter at this place stands, and answers whether more are looked for.
    fn take(&mut self, place: u32, mark: Mark) -> Result<bool, AllocError> {
        if self.places.get(self.marks.len()) == Some(&place) {
            self.marks.push(mark)?;
        }
        Ok(self.marks.len() < self.places.len())
    }
}

/// Finds where the first rows of the voters stand whose ids are repeated, if the text is a file. A witness
/// keeps no mark of each voter, so the rows of VOTES are read again up to the last of them.
pub fn first_rows<R: Files>(
    text: &Text<'_, R>,
    witness: &Witness,
) -> Result<FirstRows, AllocError> {
    let mut rows = FirstRows {
        places: repeated(text.alloc, witness.refused.as_slice())?,
        marks: Vec::new(text.alloc),
    };
    if rows.places.is_empty() {
        return Ok(rows);
    }
    if let Some(mut records) = text.record_at(witness.seen.names) {
        let found = find(&mut records, witness.refused.as_slice(), &mut rows);
        drop(records);
        found?;
    }
    Ok(rows)
}

/// The places of the voters whose ids are repeated, rising and each once.
fn repeated(alloc: Global, refused: &[FaultyRecord]) -> Result<Vec<u32>, AllocError> {
    let mut places = Vec::new(alloc);
    for row in refused {
        if let (ReadKind::RepeatedVoter, Some(place)) = (row.kind(), row.refusal.earlier) {
            places.push(place)?;
        }
    }
    places.sort_unstable();
    places.dedup();
    Ok(places)
}

/// Finds the rows: those of VOTES that are neither blank nor refused are of the voters, in their order.
fn find<F: Read>(
    records: &mut TextRecords<F>,
    refused: &[FaultyRecord],
    rows: &mut FirstRows,
) -> Result<(), AllocError> {
    let mut place = 0u32;
    for row in refused {
        if !matches!(row.stage, Stage::InVotes(_)) {
            continue;
        }
        for _ in records.at.saturating_add(1)..row.mark.at {
            if !records.advance() {
                return Ok(());
            }
            if !is_blank(&records.last) {
                if !rows.take(place, records.mark())? {
                    return Ok(());
                }
                place = place.saturating_add(1);
            }
        }
        let _ = records.advance();
    }
    Ok(())
}
