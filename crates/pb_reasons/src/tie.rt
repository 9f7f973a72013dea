//! A tie.

/// A tie that the order of the projects decided. In a round: two projects whose prices were as good as each other, of
/// which the round elected one. In filling up by votes: two projects with as many votes and the same cost, of which one
/// was added first.
#[derive(Clone, Copy)]
pub struct Tie {
    /// The number of the round, from 1; none in filling up.
    pub round: Option<usize>,
    /// The place in the election of the project that was elected or added.
    pub winner: u32,
    /// The place of the other project.
    pub other: u32,
}
