//! What is asked of changed elections.

use pb_rounds::rule::Rule;

/// What is asked of changed elections: whether a count by this rule elects or adds one project.
#[derive(Clone, Copy)]
pub struct Question {
    pub rule: Rule,
    /// The project's place in the file, from 0.
    pub place: u32,
}
