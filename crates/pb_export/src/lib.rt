//! Elections as `.pb` files: what is written is read back as the same election.
#![tactic(auto)]

mod amount;
mod behind;
pub mod carried;
pub mod export_fault;
pub mod further;
pub mod further_keys;
pub mod laws;
mod readable;
pub mod text_row;
pub mod told;
pub mod write_pb;

pub use carried::{Carried, Carry};
pub use export_fault::ExportFault;
pub use further::Further;
pub use further_keys::{FurtherKey, FurtherKeys};
pub use text_row::TextRow;
pub use told::Told;
