//! The three sections of a file.

use crate::row::{Row, is_word};
use pb_core::names::name_at;

/// The names of sections, in the order of `Section`.
pub const NAMES: [&str; 3] = ["META", "PROJECTS", "VOTES"];

/// A section of a file, in the order in which sections come.
#[derive(Clone, Copy)]
pub enum Section {
    Meta,
    Projects,
    Votes,
}

impl Section {
    ghost use Rattle.std.specs.Prelude.{◌≡◌};
    ghost use Rattle.pb_core.specs.Numbered.{numbered};
    ghost use Rattle.pb_read.specs.Rows.{head_of};
    ghost use Rattle.pb_read.specs.contracts.section.Section.{the_type};

    /// The section's name, as its head has it.
    pub(crate) fn name(self) -> &'static str
        ensures { result.now ≡ (numbered the_type NAMES self).1 }
    {
        name_at(&NAMES, self as usize)
    }

    #[tactic(auto, unfolding(crate::specs::Rows::head_of))]
    /// The section whose head a record is: its first field decides.
    pub(crate) fn headed_by(row: &Row) -> Option<Section>
        ensures { result ≡ head_of row.now }
    {
        let word = row.field(0);
        if is_word(Section::Meta.name(), word) {
            Some(Section::Meta)
        } else if is_word(Section::Projects.name(), word) {
            Some(Section::Projects)
        } else if is_word(Section::Votes.name(), word) {
            Some(Section::Votes)
        } else {
            None
        }
    }
}
