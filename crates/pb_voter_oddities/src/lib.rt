//! What is odd in the ids of voters, and in rows that belong together.
//!
//! Nothing but that each call returns is proved of this, and no result can change by it.
#![tactic(auto)]

pub mod alike;
pub mod brackets;
pub mod copies;
pub mod one_each;
pub mod pairs;
pub mod parts;
pub mod persons;
pub mod phones;
mod prelude;
pub mod proxies;
pub mod same_voters;
pub mod turnout;
pub mod void_ids;
pub mod voter_lists;
