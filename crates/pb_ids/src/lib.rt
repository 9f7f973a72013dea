//! A table of ids with their places, guarded against ids that were chosen to collide.
#![tactic(auto)]

mod crowd;
mod id_table;
mod kept_ids;

pub use id_table::IdTable;
