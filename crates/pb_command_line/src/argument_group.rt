//! Arguments that stand together in the help of a command.

use crate::argument::Argument;
use crate::arguments::{of_count, of_result};

/// Arguments that stand together in the help of a command.
#[derive(Clone, Copy)]
pub(crate) enum ArgumentGroup {
    /// These, which the command names itself.
    Own(&'static [Argument]),
    /// The options of a count.
    OfCount,
    /// The options of a command that prints the result of a count.
    OfResult,
}

impl ArgumentGroup {
    /// The arguments, in the order in which the help lists them.
    pub(crate) fn arguments(&self) -> &'static [Argument] {
        match *self {
            ArgumentGroup::Own(arguments) => arguments,
            ArgumentGroup::OfCount => of_count(),
            ArgumentGroup::OfResult => of_result(),
        }
    }
}
