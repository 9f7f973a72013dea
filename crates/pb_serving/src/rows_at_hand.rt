//! Whether a row is at hand.

/// Whether the reader of requests has a row at hand.
pub trait RowsAtHand {
    /// Whether a whole row is at hand, so that reading it waits for nobody. No is always right, and slow.
    fn has_row(&self) -> bool;
}

/// Of a text that is all there.
#[derive(Clone, Copy, Debug)]
pub struct Always;

impl RowsAtHand for Always {
    fn has_row(&self) -> bool {
        true
    }
}
