//! What an exported file tells beside the election; readers pass over it.

use crate::further::Further;

/// What an exported file tells beside the election; readers pass over it.
#[derive(Clone, Copy)]
pub struct Told<'a> {
    /// The rule, by Pabulib's word for it.
    pub rule: &'a str,
    /// The rule and its options, in words.
    pub comment: &'a str,
    /// How many ballots approve each project.
    pub votes: &'a [u32],
    /// Whether each project is elected.
    pub selected: &'a [bool],
    /// Further keys and columns.
    pub further: &'a Further,
}
