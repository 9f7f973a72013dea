//! Warnings of what is accepted in a .pb file and probably not meant: `Warnings` look on while pb_read reads it, and collect
//! them; `warning_words` says what each is, where, and what to do.
//!
//! Nothing but that each call returns is proved of this. No result can change by it but by `--strict`, which refuses a file for
//! a warning.
#![tactic(auto)]

mod later_texts;
mod prelude;
mod shared_texts;
mod vote_oddities;
mod warning_texts;
pub mod warning_words;
pub mod warnings;
