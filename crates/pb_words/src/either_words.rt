//! Words for counts by two rules, of which one was refused.

use crate::count_words::{Deciding, count_words, put_raises};
use crate::prelude::*;
use pb_rounds::count_fault::CountFault;
use pb_rounds::options::{Completion, CountOptions, LARGEST_STEP};

/// Which of two counts was refused, as far as the fault and their options say it.
#[derive(Clone, Copy)]
pub enum OfTwo {
    /// The count by the rule that is given.
    Own,
    /// The count by the other rule.
    Other,
    /// The one or the other.
    Either,
}

impl OfTwo {
    /// Which one was refused so, of two with these options.
    pub fn of(fault: CountFault, options: &CountOptions, other: &CountOptions) -> OfTwo {
        match fault {
            CountFault::RaisesSpent => match (raises_shares(options), raises_shares(other)) {
                (true, true) => OfTwo::Either,
                (false, true) => OfTwo::Other,
                (_, false) => OfTwo::Own,
            },
            CountFault::StepRange if has_step(options) => OfTwo::Other,
            _ => OfTwo::Own,
        }
    }
}

/// Whether shares are raised.
fn raises_shares(options: &CountOptions) -> bool {
    matches!(options.completion, Completion::Add1)
}

/// Whether the step is in its range.
fn has_step(options: &CountOptions) -> bool {
    options.step.0 >= 1 && options.step.0 <= LARGEST_STEP.0
}

/// Words for counts of the .pb file with this path by two rules, with these options, of which one was refused; no path
/// is standard input.
pub fn either_count_words(
    alloc: Global,
    path: Option<&str>,
    fault: CountFault,
    options: &CountOptions,
    other: &CountOptions,
) -> Said {
    let mut out = WordsWriter::new(alloc);
    match (OfTwo::of(fault, options, other), fault) {
        (OfTwo::Either, _) => out.fill(
            "{}: one of the two counts is not finished after {}, so there is no result. \
            You can allow more raises with `--raises`, or take a rule with a larger step.\n",
            &[Name(path), Count(u64::from(options.max_raises), "raise")],
        ),
        (OfTwo::Other, CountFault::RaisesSpent) => out.fill(
            "{}: the count by the other rule is not finished after {} of {}, so there is no result.\n",
            &[
                Name(path),
                Count(u64::from(other.max_raises), "raise"),
                Amount(other.step.0),
            ],
        ),
        (OfTwo::Other, _) => out.fill(
            "The other rule has a step of {}. Name a rule with a step from 0.01 to 10000000.00.\n",
            &[Amount(other.step.0)],
        ),
        (OfTwo::Own, _) => {
            drop(out);
            return count_words(alloc, path, fault, options);
        }
    }
    out.finish()
}

/// Words for what to do about raises that were spent by the other rule: what is known of more raises.
pub fn other_spent_words(alloc: Global, deciding: Deciding) -> Said {
    let mut out = WordsWriter::new(alloc);
    out.put("First see what the rules of your vote say about the number of raises.\n");
    put_raises(&mut out, deciding);
    out.finish()
}
