//! What a run of `serve` goes by.

use pb_script::Admission;

/// What a run of `serve` goes by, beside its desk and the rows that come in.
#[derive(Drop)]
pub struct Session<'a, P, N> {
    /// How many bytes were cut off the journal when it was opened, which is said first.
    pub torn: usize,
    /// Whether the next row is at hand.
    pub pace: &'a P,
    /// Which requests are admitted.
    pub admission: &'a Admission,
    /// Who hears of the rows that are refused, and of the answers to the others.
    pub notice: &'a N,
}
