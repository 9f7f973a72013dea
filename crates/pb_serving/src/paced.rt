//! Standard input, handed out a row at a time.

ghost use Rattle.std.specs.Prelude.{◌<◌, ◌≤◌, length};

use crate::rows_at_hand::RowsAtHand;
use pb_durable::row_position::RowPosition;
use std::cell::Cell;

mod handing;

/// Whether a whole row is at hand.
#[derive(Drop)]
pub struct AtHand(pub(crate) Cell<bool>);

impl AtHand {
    pub fn new() -> AtHand {
        AtHand(Cell::new(false))
    }
}

impl RowsAtHand for AtHand {
    fn has_row(&self) -> bool {
        self.0.get()
    }
}

/// A reader that hands out a row at a time, and tells whether the next one is at hand. What it reads is what
/// the reader underneath reads at once, so it waits for no row while one is there. A contract sees what it
/// has left, where it sees that of the reader underneath.
#[derive(Drop)]
pub struct Paced<'a, P> {
    pub(crate) reader: P,
    pub(crate) at_hand: &'a AtHand,
    /// What was read and not yet handed out stands from `start` to `end`.
    pub(crate) chunk: Vec<u8>,
    pub(crate) start: usize,
    pub(crate) end: usize,
    /// Where the next byte stands.
    pub(crate) place: RowPosition,
    ghost ordered: { start ≤ end },
    ghost in_range: { end ≤ length chunk.items },
    ghost some: { 0 < length chunk.items },
}
