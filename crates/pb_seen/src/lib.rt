//! What is kept of the records of a .pb file while pb_read reads it, and how their texts differ.
//!
//! What looks on, and what speaks of a record later, keeps it here: where rows stand, which ids there are, which rows are
//! meant as heads. Nothing but that each call returns is proved of this, and no result can change by it.
#![tactic(auto)]

pub mod amounts;
pub mod changed;
pub mod fields;
pub mod firsts;
pub mod heads;
pub mod ids;
pub mod keys;
pub mod mark;
mod prelude;
pub mod rows;
pub mod seen;
pub mod swallowed;
