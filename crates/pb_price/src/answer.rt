//! The answer to a worker's piece of work.

use crate::amount_each::Price;

/// The price of one piece's project.
#[derive(Clone, Copy)]
pub(crate) struct Answer {
    pub(crate) piece: u32,
    pub(crate) price: Option<Price>,
}
