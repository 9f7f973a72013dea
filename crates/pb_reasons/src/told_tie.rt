//! A pair of equal projects that the rule for ties separated, as the table of all ties has it.

use crate::tie::Tie;

/// A pair of equal projects that the rule for ties separated.
#[derive(Clone, Copy)]
pub struct ToldTie {
    /// After how many raises.
    pub run: u32,
    /// The number of the round, or of the added project, from 1.
    pub number: usize,
    pub tie: Tie,
}

/// A row of the table of all ties.
#[derive(Clone, Copy)]
pub struct TieRow {
    pub told: ToldTie,
    /// Whether others win where just these two are exchanged, or the count is refused; none where that was not
    /// counted.
    pub changes: Option<bool>,
}

/// All pairs of equal projects that the rule for ties separated, as far as they are told.
#[derive(Drop)]
pub struct ToldTies {
    pub rows: Vec<TieRow>,
    /// There are no others.
    pub is_whole: bool,
}
