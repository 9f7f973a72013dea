//! What was seen of the texts that a run reads, and is found when they are looked at again.
//!
//! While pb_read reads a .pb file, a `Witness` looks on and keeps what words need of what is refused.
//! After a run has failed, a text that is a file is looked at again: where a record begins, which quotation
//! mark is open, what the proved desk answers. Nothing but that each call returns is proved of this, apart from
//! the categories that `PageNotes` keeps, and no result can change by it.
#![tactic(auto)]

pub mod audited;
pub mod cause;
pub mod desk_answer;
pub mod elsewhere;
pub mod failures;
pub mod faulty_record;
pub mod known;
pub mod last_rows;
pub mod late_meta;
mod moved_cells;
pub mod page_notes;
mod prelude;
pub mod projects;
pub mod quote;
pub mod records;
pub mod rule_counts;
pub mod text;
pub mod unknown;
pub mod unwritable;
pub mod voters;
pub mod witness;
