//! What a ballot has of the winners.

/// What a ballot has of the winners.
#[derive(Clone, Copy)]
pub(crate) struct Content {
    /// How many of its choices are among them.
    pub choices: u32,
    /// What these cost, in hundredths.
    pub worth: u128,
}
