//! What a search finds.

use crate::changes::change::Row;

/// What a search of one kind of change finds: two rows, the smaller value first, or the same one twice where
/// its range is one value. If only one of the two wins, they are one step apart; if both win, or neither does, they
/// are the ends of the range. A count that is refused does not win.
#[derive(Clone, Copy)]
pub struct Found {
    pub first: Row,
    pub second: Row,
}

/// What is found of a project's cost and of further voters.
#[derive(Clone, Copy)]
pub struct WhatIf {
    pub cost: Found,
    pub voters: Found,
}
