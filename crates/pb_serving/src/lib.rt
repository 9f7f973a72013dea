//! The command `serve`: a desk that stands on a device, and answers requests as they come in.
//!
//! A row of the input is answered by its journal row once that is durable, or by a fault's line where it has
//! not the form; answers come in the order of the rows, and what is at hand is served together.
#![tactic(auto)]

mod batch;
mod heading;
pub mod laws;
mod paced;
mod refused_rows;
pub mod rows_at_hand;
pub mod run_serve;
mod session;

pub use paced::{AtHand, Paced};
pub use refused_rows::RefusedRows;
pub use rows_at_hand::{Always, RowsAtHand};
pub use session::Session;
