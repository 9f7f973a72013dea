//! Who supports each project, and the price of a project at what is left to its supporters.
#![tactic(auto)]

mod all_prices;
pub mod amount_each;
mod answer;
mod base;
mod claims;
mod common_rest;
mod gathering;
pub mod grain;
pub mod laws;
pub mod pieces;
pub mod price;
mod price_fault;
mod steps;
pub mod supporters;
pub mod tally;
mod voter_list;
mod worker;

pub use all_prices::{is_worker_count, price_all, price_pieces};
pub use amount_each::Price;
pub use common_rest::price_at_share;
pub use grain::Grain;
pub use pb_core::gate::{Gate, NoGate};
pub use pieces::Pieces;
pub use price_fault::PriceFault;
pub use steps::next_bound;
pub use supporters::Supporters;
pub use tally::Tally;
