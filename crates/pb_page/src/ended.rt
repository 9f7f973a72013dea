//! A count whose raises ended.

ghost use Rattle.pb_page.specs.Inner.Counted.{KnowsPlaces};

use pb_reasons::{CountedElection, RaiseEnd};

/// A counted election, and why its raises ended.
#[derive(Clone, Copy)]
pub struct Ended<'a> {
    pub count: &'a CountedElection,
    pub end: &'a RaiseEnd,
    /// What one raise more would change is of projects that the election has.
    ghost known: { KnowsPlaces count.now.election end.now },
}
