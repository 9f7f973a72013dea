//! Most votes first: projects in the order of their votes, each where it still fits, from an empty list or
//! after others.

mod candidate;
pub mod filling_up;
pub mod laws;

pub use filling_up::most_votes_first;
