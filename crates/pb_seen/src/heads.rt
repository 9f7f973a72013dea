//! The heads of a .pb file's sections, and rows that seem to be meant as one.

use crate::changed::{is_hidden, is_one_of};
use crate::fields::joined;
use crate::prelude::*;

/// A row that seems to be meant as the head of a section, and is none.
#[derive(Clone, Copy)]
pub struct OddHead {
    /// The section that it seems to begin.
    pub section: Section,
    /// Where the row begins.
    pub mark: Mark,
    /// Whether column names follow in the same row.
    pub has_names: bool,
}

/// The columns that PROJECTS and VOTES need.
const COLUMNS: [Column; 4] = [
    Column::ProjectId,
    Column::Cost,
    Column::VoterId,
    Column::Vote,
];

/// The sections, in their order.
const SECTIONS: [Section; 3] = [Section::Meta, Section::Projects, Section::Votes];

/// The head of a section.
pub fn head_of(section: Section) -> &'static str {
    match section {
        Section::Meta => "META",
        Section::Projects => "PROJECTS",
        Section::Votes => "VOTES",
    }
}

/// Whether a word is a section's head.
pub fn is_head(word: &str) -> bool {
    SECTIONS
        .iter()
        .any(|section| word.eq_ignore_ascii_case(head_of(*section)))
}

/// The section that is read at a stage.
pub fn section_of(stage: &Stage) -> Section {
    match stage {
        Stage::Start | Stage::InMeta(_) => Section::Meta,
        Stage::Header(section) => *section,
        Stage::InProjects(_) => Section::Projects,
        Stage::InVotes(_) => Section::Votes,
    }
}

/// Whether a word is a column that a section needs.
pub fn is_column(word: &str) -> bool {
    let is_it = |column: &Column| word.eq_ignore_ascii_case(column.name());
    is_one_of("key|value", word) || COLUMNS.iter().any(is_it)
}

/// The head that a record seems to be meant as, where it is none: punctuation stands beside a section's name,
/// or a column's name behind it.
pub fn odd_head_of(record: &ByteRecord, mark: Mark) -> Option<OddHead> {
    if joined(record).is_some() {
        return None;
    }
    let field = text_at(record, 0);
    let (word, has_names) = match field.split_once(' ') {
        Some((word, rest)) if is_column(rest.trim()) => (word, true),
        _ => (field, false),
    };
    let is_beside = |c: char| c.is_ascii_punctuation()
        || c.is_whitespace()
        || is_hidden(u32::from(c));
    let name = word.trim_matches(is_beside);
    if name.len() == field.len() || field.starts_with('>') {
        return None;
    }
    let is_it = |section: &&Section| name.eq_ignore_ascii_case(head_of(**section));
    let section = *SECTIONS.iter().find(is_it)?;
    Some(OddHead {
        section,
        mark,
        has_names,
    })
}
