//! A script and its serving: the requests of a run's clerks, read, served side by side on one desk, and
//! written as the text of its journal. The same rows are read one at a time where they are served as they
//! come in.
#![tactic(auto)]

pub mod admission;
pub mod entry_counts;
pub mod file_voters;
pub mod laws;
pub mod request_rows;
mod requests;
pub mod roll;
mod script;
pub mod script_fault;
pub mod script_run;
pub mod serve_fault;
pub mod serve_script;

pub use admission::{Admission, NoNotice, Notice, RowRefusal};
pub use entry_counts::EntryCounts;
pub use file_voters::voters_of;
pub use request_rows::{RequestRows, RowsFault};
pub use roll::{RollFault, read_roll, read_roll_records};
pub use script::ScriptRow;
pub use script_fault::ScriptFault;
pub use script_run::ScriptRun;
pub use serve_fault::ServeFault;
pub use serve_script::{ROOM, ServedScript};
