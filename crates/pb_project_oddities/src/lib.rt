//! What is odd in META and PROJECTS.
//!
//! Nothing but that each call returns is proved of this, and no result can change by it.
#![tactic(auto)]

pub mod approvals;
pub mod begun;
pub mod carried_forward;
pub mod meta_oddities;
mod prelude;
pub mod project_oddities;
pub mod sums;
pub mod twins;
pub mod value_columns;
pub mod withdrawn;
