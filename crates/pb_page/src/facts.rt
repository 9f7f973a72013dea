//! What a page says beside the outcome.

use crate::categories::Categories;
use crate::language::Language;
use pb_rounds::rule::Rule;

/// A text that was read.
#[derive(Clone, Copy)]
pub struct ReadText<'a> {
    /// The name of its file.
    pub name: &'a str,
    /// The SHA-256 of its bytes, in hexadecimal.
    pub digest: &'a str,
}

/// How it was decided which of two rules applies.
#[derive(Clone, Copy)]
pub struct Decided {
    /// The rule that was given.
    pub rule: Rule,
    /// The one that may apply in its place.
    pub other: Rule,
    /// Voters have more by what the winners among their choices cost, and not by how many these are.
    pub by_worth: bool,
    /// How many voters have more by the rule.
    pub own: u32,
    /// How many have more by the other one.
    pub others: u32,
}

/// What a page says beside the outcome.
#[derive(Clone, Copy)]
pub struct Facts<'a> {
    /// What was voted on.
    pub title: &'a str,
    /// The file that was counted.
    pub file: ReadText<'a>,
    /// The journal that left the ballots, if there is one.
    pub journal: Option<ReadText<'a>>,
    /// Where the files lie that are published beside the page, if they do.
    pub files: Option<&'a str>,
    /// Where a page lies that recounts in a browser, if one does.
    pub recount: Option<&'a str>,
    /// The page also has the comparison with most votes first.
    pub compares: bool,
    /// How it was decided by which rule the outcome is, if it was.
    pub decided: Option<Decided>,
    /// The categories of the projects, if they have any.
    pub categories: Option<Categories<'a>>,
    /// The program that makes the page: its name and its version.
    pub program: &'a str,
    /// What the page says, and how it shows amounts.
    pub language: Language<'a>,
}
