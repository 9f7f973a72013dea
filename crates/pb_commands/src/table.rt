//! What a run writes of a count.

/// What a run writes of a count: its report, or a table.
#[derive(Clone, Copy)]
pub enum Table {
    /// What was counted, who won and at which price, and what is spent.
    Report,
    /// Who won and why, and who lost and by how much: a row for each project.
    Projects,
    /// Who paid: a row for each voter.
    Voters,
    /// What a supporter of each project that lost had spent: a row for each of these.
    Fairness,
}
