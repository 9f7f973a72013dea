//! What several commands say alike: the line of each fault, with the status that the program then ends with,
//! the row of a desk, and how a text goes out.
#![tactic(auto)]

mod desk_row;
pub mod fault;
mod fault_line;
pub mod laws;
mod page_refusal;
pub mod run_text;
mod serving_fault;
mod words_refusal;
mod writing;

pub use desk_row::put_entries;
pub use fault::AppFault;
pub use fault_line::{BAD_ARGUMENTS, rows_status, write_refused_row};
pub use page_refusal::PageRefusal;
pub use run_text::RunText;
pub use serving_fault::ServingFault;
pub use words_refusal::{WordsPlace, WordsRefusal};
pub use writing::write_out;
