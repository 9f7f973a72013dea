//! What a seat at the table knows. No value of these types but `About` is ever made: they are what proofs
//! say of a seat.

use pb_core::entry::Entry;
use pb_desk::desk::Desk;
use std::collections::LinkedList;
use std::snapshot::Snapshot;

/// Which desk was shared, as it was then, and among how many clerks. The rule of the table reads it.
#[derive(Drop)]
pub struct About {
    pub desk: Snapshot<Desk>,
    pub clerks: u32,
}

/// What the seat is for.
pub enum Role {
    /// The clerks from the sheet's number on, who have no seat of their own yet.
    Stock,
    /// One clerk.
    Clerk,
    /// A note, or whoever takes the clerks back.
    Guest,
    /// Nobody: what it knew is kept by another seat.
    Spent,
}

/// What a clerk knows: its number, the entries that it has seen, its own entries since the desk was shared,
/// the lock words that its exchanges found, and the front words that its loads found.
pub struct Sheet {
    pub number: u32,
    pub seen: LinkedList<Entry>,
    pub mine: LinkedList<Entry>,
    pub found: LinkedList<u64>,
    pub read: LinkedList<u64>,
}

/// What a seat knows.
pub struct SeatView {
    pub role: Role,
    pub about: About,
    pub sheet: Sheet,
    /// Whether it has won the lock.
    pub holds: bool,
    /// Whether it has won the lock and brought the desk back.
    pub home: bool,
    /// What a note has told it, until it loads the front word.
    pub told: LinkedList<Entry>,
    /// The sheets of the clerks that were handed back to it.
    pub returned: LinkedList<Sheet>,
}
