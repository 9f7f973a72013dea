//! The sentences of a count that was decided between two rules.

use crate::table::SentenceEntry;

/// What stands at the places of the sentence that decides.
const PLACES: &[&str] = &["rule", "other", "own", "others", "applies"];

/// These sentences.
pub(crate) const DECIDED: &[SentenceEntry] = &[
    SentenceEntry {
        key: "decided.heading",
        numbers: &[],
        nouns: &[],
        english: "Which rule applies",
    },
    SentenceEntry {
        key: "decided.by_choices",
        numbers: PLACES,
        nouns: &[],
        english: "The rule of this vote is {rule}, so the ballots were also counted by {other}. Voters with more winners among their choices: {own} by the first rule, {others} by the other one. The other one applies only if its number is larger. So {applies} applies, and this page shows its result.",
    },
    SentenceEntry {
        key: "decided.by_worth",
        numbers: PLACES,
        nouns: &[],
        english: "The rule of this vote is {rule}, so the ballots were also counted by {other}. Voters whose winning choices cost more together: {own} by the first rule, {others} by the other one. The other one applies only if its number is larger. So {applies} applies, and this page shows its result.",
    },
];
