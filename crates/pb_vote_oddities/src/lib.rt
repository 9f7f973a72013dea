//! What is odd in votes, and in columns beside them.
//!
//! Nothing but that each call returns is proved of this, and no result can change by it.
#![tactic(auto)]

pub mod behind_vote;
pub mod beside_vote;
pub mod choices;
pub mod crosses;
pub mod filled_down;
pub mod last_vote;
pub mod out_of_order;
mod prelude;
pub mod rankings;
pub mod runs;
pub mod ticked;
pub mod twice_in_vote;
