//! What the program reads from and writes to: standard input or files, digested as they are read and shown as
//! they come, and the file that gets a result whole or not at all.
#![tactic(auto)]

mod answered_rows;
mod bar;
mod beside;
mod digested;
mod file_id;
mod journal;
mod journal_failure;
mod journal_start;
mod kinship;
mod line_count;
mod linked;
mod output;
mod part_file;
mod progress_line;
mod run_refusal;
mod text_reader;
mod torn_file;
mod typing;

pub use digested::{Digested, Hex};
pub use journal::{FileText, JournalText, open_alone, open_with_journal};
pub use journal_failure::{ended, unopened};
pub use kinship::Kinship;
pub use line_count::LineCount;
pub use linked::behind_link;
pub use output::Output;
pub use progress_line::{ProgressLine, Shown, open_shown};
pub use run_refusal::{End, RunRefusal};
pub use text_reader::{TextReader, open_both, open_file, read_text};
pub use torn_file::TornFile;
pub use typing::{Telling, TypedReader, Typing};
