//! The reader of Pabulib's .pb files: META, PROJECTS and VOTES of an approval election.
#![tactic(auto)]

mod blame;
mod check;
mod column;
mod columns;
mod draft;
pub mod fault;
mod laws;
mod length;
mod meta;
mod meta_key;
mod progress;
mod project_ids;
mod read;
mod refusal;
mod row;
mod section;
mod vote;
pub mod warning;
mod watch;

pub use check::{Checked, MOST_FAULTS, check_pb, check_pb_records};
pub use column::Column;
pub use columns::{ProjectColumns, VoteColumns};
pub use fault::{ReadFault, ReadKind};
pub use laws::{
    a_vote_names_places, first_listed, max_length_is_what_its_text_names, names_say_what_they_name,
    one_answer,
};
pub use meta_key::MetaKey;
pub use progress::Stage;
pub use project_ids::ProjectIds;
pub use read::{MOST_RECORDS, read_pb, read_pb_records, read_pb_watched};
pub use refusal::Refusal;
pub use section::Section;
pub use warning::{Oddity, Warning, WarningRow};
pub use watch::{Compare, Heed, NoWatch, Part, Warn, Watch};
