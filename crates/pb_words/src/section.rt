//! What things are called in the sections of a .pb file, and what is missing in one.

use pb_read::{Column, Section, Stage};

/// What things are called in a section.
#[derive(Clone, Copy)]
pub(crate) struct Names {
    /// What its rows are.
    pub(crate) subject: &'static str,
    /// What to do where it has no row of column names, and where that lacks a column.
    pub(crate) add_header: &'static str,
    pub(crate) add_column: &'static str,
}

const META: &Names = &Names {
    subject: "key",
    add_header: "Add it below the heading META, for example `key;value`.\n",
    add_column: "",
};

const PROJECTS: &Names = &Names {
    subject: "project",
    add_header: "Add it below the heading PROJECTS, for example `project_id;cost`.\n",
    add_column: "PROJECTS needs columns with the names `project_id` and `cost`. If one of these is there by another name, correct the name. If this row is a project, add the row of column names above it. If columns stand below each other, or as rows, or a cost among the names, get the table again.\n",
};

const VOTES: &Names = &Names {
    subject: "voter",
    add_header: "Add it below the heading VOTES, for example `voter_id;vote`.\n",
    add_column: "VOTES needs columns with the names `voter_id` and `vote`. If one of these is there by another name, correct the name. If this row is a vote, add the row of column names above it. If no column has ids of voters, and each row is one ballot, add a column `voter_id` with the numbers of the rows. If columns stand below each other, or as rows, or a vote among the names, get the table again.\n",
};

/// What is said of a section that is missing, and of one without a row of column names.
const NO_SECTION: &str = "there is no section {}.\n";

pub(crate) const NO_NAMES: &str = "{} has no row of column names.\n";

/// What things are called in a section.
pub(crate) fn names_of(section: Section) -> &'static Names {
    match section {
        Section::Meta => META,
        Section::Projects => PROJECTS,
        Section::Votes => VOTES,
    }
}

/// The column that a row of the section lacks: the other one, where it has that of the ids.
pub(crate) fn missing(section: Section, has_id: bool) -> &'static str {
    let column = match (section, has_id) {
        (Section::Votes, true) => Column::Vote,
        (Section::Votes, false) => Column::VoterId,
        (_, true) => Column::Cost,
        (_, false) => Column::ProjectId,
    };
    column.name()
}

/// What is wrong with this head of a section at a stage where it is refused, with the head in place of `{}`,
/// and what to do.
pub(crate) fn wrong_head(stage: &Stage, head: &str) -> (&'static str, &'static str) {
    match stage {
        Stage::Start => (
            ": there is no heading META above {}.\n",
            "If the beginning of the file is missing, get the whole file again. If not, put the sections in this order: META, PROJECTS, VOTES.\n",
        ),
        Stage::InMeta(_) if !head.eq_ignore_ascii_case("META") => (
            ": there is no heading PROJECTS above {}.\n",
            "Write it above the projects, or correct its spelling, or put the sections in this order: META, PROJECTS, VOTES.\n",
        ),
        _ => (
            ": {} begins a section that the file has already.\n",
            if head.eq_ignore_ascii_case("META") {
                "Each section may come only once. If PROJECTS below is the same, these are more votes of one election: move them below the votes above, in the order of the columns there, and delete the rest. If the file has two elections, put each into a file of its own.\n"
            } else {
                "Each section may come only once. If these rows belong to this election, move them below the section's first rows, in the order of the columns there, without the heading and the column names. If they belong to another, put that into a file of its own.\n"
            },
        ),
    }
}

/// What to do where the file ends too early.
pub(crate) fn end_remedy(stage: &Stage) -> &'static str {
    match stage {
        Stage::Header(section) => names_of(*section).add_header,
        Stage::InProjects(_) => {
            "Get the whole file again: it may be cut off. If there are no votes yet, add two lines at the end: VOTES, and `voter_id;vote`.\n"
        }
        _ => {
            "Get the whole file again: it may be cut off. If it is whole, write the heading PROJECTS above the projects, and VOTES above the votes.\n"
        }
    }
}

/// What is missing where the file ends, of the section that is answered beside it.
pub(crate) fn due_at_end(stage: &Stage) -> (&'static str, Section) {
    match stage {
        Stage::Header(section) => (NO_NAMES, *section),
        Stage::Start => (NO_SECTION, Section::Meta),
        Stage::InMeta(_) => (NO_SECTION, Section::Projects),
        Stage::InProjects(_) | Stage::InVotes(_) => (NO_SECTION, Section::Votes),
    }
}
