//! The columns of a file that a count reads.

ghost use Rattle.std.specs.Prelude.{◌≡◌};
ghost use Rattle.pb_read.specs.Inner.Fields.{column_name};

use crate::meta_key::MetaKey;

/// A value of a file that a count reads: of META by its key, of PROJECTS and VOTES by its column. This is the
/// one table of these columns: whoever needs the name of one asks here.
#[derive(Clone, Copy, PartialEq, Eq)]
pub enum Column {
    /// The value of this key.
    Key(MetaKey),
    /// A project's id.
    ProjectId,
    /// A project's cost.
    Cost,
    /// A voter's id.
    VoterId,
    /// The projects that a voter approves.
    Vote,
}

impl Column {
    /// The key or the column's name, as a file writes it.
    pub fn name(&self) -> &'static str {
        self.text()
    }

    /// The same, for the reader.
    pub(crate) fn text(&self) -> &'static str
        ensures { result.now ≡ column_name self.now }
    {
        match self {
            Column::Key(key) => key.text(),
            Column::ProjectId => "project_id",
            Column::Cost => "cost",
            Column::VoterId => "voter_id",
            Column::Vote => "vote",
        }
    }
}
