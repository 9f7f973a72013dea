//! How many rows each rule of a desk has refused.

/// How many rows each rule of a desk has refused.
#[derive(Clone, Copy, Default)]
pub struct RuleCounts {
    /// Those with an id that no project has.
    pub unknown_id: u64,
    /// Those for a voter who is not on the roll.
    pub not_on_roll: u64,
    /// Those with too few projects.
    pub too_few: u64,
    /// Those for a voter whose ballot came with the file.
    pub from_file: u64,
    /// Those that shut the desk.
    pub no_shut: u64,
}

impl RuleCounts {
    /// No row yet.
    pub fn new() -> RuleCounts {
        RuleCounts::default()
    }

    /// How many rows they have refused together.
    pub fn all(&self) -> u64 {
        let desk = self.from_file.saturating_add(self.no_shut);
        let ballot = self.unknown_id.saturating_add(self.too_few);
        ballot.saturating_add(self.not_on_roll).saturating_add(desk)
    }
}
