//! Words for people beside a fault's line: where it stands, what stands there and which rule it breaks, and
//! what to do.
//!
//! Words are made after a run has failed, so no result can change by them. What they speak of was seen by
//! pb_witness while the texts were read, or is found there when they are looked at again; of standard input
//! words say what the fault alone says. All text from outside goes through `Words`, so no word puts a control
//! character into a terminal. Nothing but that each call returns is proved of a word.
#![tactic(auto)]

pub mod answer_words;
pub mod belonging_words;
mod case;
mod code_words;
mod command_words;
pub mod count_words;
pub mod either_words;
pub mod export_words;
mod faulty_record;
mod file_words;
pub mod journal_words;
mod looks;
pub mod mark_words;
mod meta_words;
pub mod output_words;
pub mod page_words;
mod prelude;
pub mod prompts;
mod read_rules;
pub mod read_texts;
pub mod read_words;
mod record_words;
pub mod refused_words;
mod repeated_words;
pub mod row_causes;
mod row_words;
pub mod same_words;
mod saying;
pub mod script_words;
mod section;
pub mod serve_words;
pub mod tally_words;
mod unknown_texts;
mod unknown_words;
pub mod what_if_words;
mod words;

pub use file_words::{NO_MEMORY, mistaken_words, open_words, unread_words, write_words};
pub use saying::{say, say_words};
pub use words::{PlaceholderValue, Said, WordsWriter, for_terminal, said};
