//! Changes of an election, and what their counts say.

/// What is changed of an election, for the sake of one project.
#[derive(Clone, Copy)]
pub enum Change {
    /// The project's cost, in hundredths.
    Cost,
    /// How many further voters there are, who approve the project alone, with ids that nobody has.
    Voters,
}

/// What the count of a changed election says of the project.
#[derive(Clone, Copy)]
pub enum Verdict {
    /// The count neither elects nor adds it.
    Lost,
    /// The count elects or adds it.
    Won,
    /// The count is refused, as its raises are spent.
    Refused,
}

/// A value that is changed, and what the count of the election so changed says.
#[derive(Clone, Copy)]
pub struct Row {
    /// The cost, in hundredths, or the number of further voters.
    pub value: u64,
    pub verdict: Verdict,
}
