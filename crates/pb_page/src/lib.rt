//! The page of a result, which people look at: who won, who did not and by how much, what the voters got, how
//! it was counted, and how to check it. What it says is in a table of sentences, which another language can
//! have.
#![tactic(auto)]

mod by_category;
mod categories;
mod check;
mod compared;
mod contents;
mod counted_in;
mod decided;
mod decided_sentences;
mod elected_only;
mod ended;
mod facts;
mod figures;
mod forms;
mod histogram;
mod in_category;
mod keys;
mod language;
mod made;
pub mod markup;
mod picture;
mod place;
mod project_row;
mod project_tables;
mod projects_at;
mod put;
mod raises_ended;
mod rule;
mod sentence;
mod sentences;
mod speech;
mod style;
mod table;
mod templates;
mod ties;
mod top;
mod voters;
mod went;
mod words_fault;
mod works;

pub use categories::Categories;
pub use facts::{Decided, Facts, ReadText};
pub use language::Language;
pub use made::page_of;
pub use markup::{Form, Plural, Words};
pub use speech::Speech;
pub use table::{SentenceEntry, entries, entry_at};
pub use words_fault::{WordsFault, WordsKey, WordsLine};
