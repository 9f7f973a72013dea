//! What a run tells of what it read, beside its result.

use pb_read::ReadFault;
use pb_rounds::rule::Rule;
use pb_script::EntryCounts;
use pb_warnings::warnings::Warnings;
use pb_witness::rule_counts::RuleCounts;
use std::alloc::Global;

/// What a run tells of what it read, beside its result.
#[derive(Drop)]
pub(crate) struct Notes {
    /// The rule of the count.
    pub(crate) rule: Rule,
    /// The other rule by which the ballots are counted too, if one is named, or may apply.
    pub(crate) beside: Option<Rule>,
    /// The entries of the journal that was written or audited.
    pub(crate) entries: EntryCounts,
    /// How many rows of `serve` were refused, for whatever reason.
    pub(crate) refused: u64,
    /// How many of them each rule has refused.
    pub(crate) by_rule: RuleCounts,
    /// The voter whose ballot was asked for has none.
    pub(crate) has_no_ballot: bool,
    /// The faults of a file that was checked.
    pub(crate) faults: Vec<ReadFault>,
    /// What was seen of the .pb file, and its warnings.
    pub(crate) seen: Warnings,
    /// Which keys that Pabulib asks for an exported file lacks.
    pub(crate) lacking: [bool; 6],
}

impl Notes {
    /// Nothing yet; this is the rule that is asked for, and these are the warnings for the task.
    pub(crate) fn new(alloc: Global, rule: Rule, seen: Warnings) -> Notes {
        Notes {
            rule,
            beside: None,
            entries: EntryCounts::new(),
            refused: 0,
            by_rule: RuleCounts::new(),
            has_no_ballot: false,
            faults: Vec::new(alloc),
            seen,
            lacking: [false; 6],
        }
    }

    /// How many rows of `serve` were not of the form.
    pub(crate) fn bad_rows(&self) -> u64 {
        self.refused.saturating_sub(self.by_rule.all())
    }
}
