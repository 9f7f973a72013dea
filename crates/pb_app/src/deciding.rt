//! The comparison step that the command line asks for.

use pb_command_line::{Asked, Decider};
use pb_commands::{Decide, DecidedBy};
use pb_rounds::rule::Rule;

/// Which other rule may apply, and what decides, if that is asked.
pub(crate) fn decide_of(asked: &Asked<'_>) -> Option<Decide> {
    decide_by(asked.decides)
}

/// The same, by what decides and the other rule.
pub(crate) fn decide_by(decides: Option<(Decider, Rule)>) -> Option<Decide> {
    let (decider, other) = decides?;
    let by = match decider {
        Decider::Choices => DecidedBy::Choices,
        Decider::Worth => DecidedBy::Worth,
    };
    Some(Decide { other, by })
}
