//! What a shared desk comes to once its clerks are back.

use pb_core::election::Election;
use pb_core::order::ProjectOrder;
use pb_desk::desk::Desk;
use pb_rounds::outcome::Outcome;

/// The count of a shut desk's ballots.
#[derive(Drop)]
pub struct DeskCount {
    /// How many entries the desk's journal has.
    pub entries: u32,
    /// The election that the desk leaves: the one that it opened with, with the ballots that stand. Its
    /// projects stand in the order in which ties take them.
    pub election: Election,
    /// This order, by their places in the election that the desk opened with.
    pub order: ProjectOrder,
    /// Who is elected in it.
    pub outcome: Outcome,
}

/// What a desk comes to.
#[derive(Drop)]
pub enum Closing {
    /// The desk is not shut. Here it is, as it was.
    Open(Desk),
    /// The desk is shut, and the ballots that its journal leaves are counted.
    Counted(DeskCount),
}
