//! What is refused, and what its fault is about.

ghost use Rattle.std.specs.Prelude.{◌≡◌};
ghost use Rattle.pb_read.specs.Inner.Progresses.{no_value};

use crate::column::Column;
use crate::fault::ReadFault;

/// A record that is refused, or the end of a file that may not end there.
#[derive(Clone, Copy)]
pub struct Refusal {
    /// Why, and at which record.
    pub fault: ReadFault,
    /// The column of the value that is refused, if it is for one.
    pub column: Option<Column>,
    /// Of `UnknownProject` the place, from 0, of the first piece that is no project's id, among the pieces into
    /// which commas cut the vote.
    pub piece: Option<usize>,
    /// Of `RepeatedProject` and `RepeatedVoter` the place, from 0, of the earlier project or voter.
    pub earlier: Option<u32>,
}

impl Refusal {
    /// A refusal for no value.
    pub(crate) fn of(fault: ReadFault) -> Refusal
        ensures { result ≡ no_value fault }
    {
        Refusal {
            fault,
            column: None,
            piece: None,
            earlier: None,
        }
    }

    /// A refusal of the value in this column.
    pub(crate) fn at(fault: ReadFault, column: Column) -> Refusal
        ensures { result ≡ record { fault = fault; column = Some column; piece = None; earlier = None } }
    {
        Refusal {
            fault,
            column: Some(column),
            piece: None,
            earlier: None,
        }
    }
}
