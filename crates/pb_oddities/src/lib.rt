//! What is accepted in a .pb file and probably not meant: what was found, and what its columns may have.
//!
//! Nothing but that each call returns is proved of this, and that of each kind the first record taken stays. No result can
//! change by it.
#![tactic(auto)]

pub mod chance;
pub mod column_kinds;
pub mod columns;
pub mod entities;
pub mod kept;
pub mod names_row;
pub mod oddities;
mod prelude;
pub mod row;
pub mod totals;
pub mod unread;
