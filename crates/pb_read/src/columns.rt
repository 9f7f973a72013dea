//! Where the columns of PROJECTS and VOTES stand.

use crate::column::Column;
use crate::fault::ReadKind;
use crate::row::Row;
use pb_core::money::Money;
use pb_core::voter_id::VoterId;
use std::alloc::Global;

/// The places of the columns of PROJECTS, from 0.
#[derive(Clone, Copy)]
pub struct ProjectColumns {
    pub id: usize,
    pub cost: usize,
    pub name: Option<usize>,
}

/// The places of the columns of VOTES, from 0.
#[derive(Clone, Copy)]
pub struct VoteColumns {
    pub voter: usize,
    pub vote: usize,
}

impl ProjectColumns {
    ghost use Rattle.std.specs.Prelude.{◌≡◌, IfErr, IfOk};
    ghost use Rattle.pb_core.specs.Election.{ElectionView};
    ghost use Rattle.pb_read.specs.Inner.Drafts.{HasProject};
    ghost use Rattle.pb_read.specs.Inner.Machine.{Explains, project_row_checks};
    ghost use Rattle.pb_read.specs.Inner.Fields.{name_field};
    ghost use Rattle.pb_read.specs.Columns.{project_columns};

    /// The columns that a header row of PROJECTS names: `project_id` and `cost` are needed.
    pub(crate) fn of(header: &Row) -> Option<ProjectColumns>
        ensures { result ≡ project_columns header.now }
    {
        let id = header.column(Column::ProjectId.text())?;
        let cost = header.column(Column::Cost.text())?;
        let name = header.column("name");
        Some(ProjectColumns { id, cost, name })
    }

    /// The id and the cost of the project in a row, or why it has none.
    pub(crate) fn id_and_cost<'r>(&self, row: &'r Row) -> Result<(&'r str, Money), ReadKind>
        ensures ok { IfOk result (λ found. HasProject self.now row.now found.0.now found.1) }
        ensures err { IfErr result (λ kind.
            (e : ElectionView) → Explains kind (project_row_checks self.now row.now e)) }
    {
        if !row.has_fields(self.id, self.cost) {
            return Err(ReadKind::MissingField);
        }
        let cost = match Money::read(row.field(self.cost)) {
            Ok(cost) => cost,
            Err(fault) => return Err(ReadKind::of_money(fault)),
        };
        if cost.0 == 0 {
            return Err(ReadKind::ZeroCost);
        }
        let id = row.field(self.id);
        if id.is_empty() {
            return Err(ReadKind::EmptyId);
        }
        Ok((id, cost))
    }

    /// The name in a row: empty where there is no such column, or the row ends before it.
    pub(crate) fn name<'r>(&self, row: &'r Row) -> &'r str
        ensures { result.now ≡ name_field self.now row.now }
    {
        match self.name {
            Some(place) => row.field(place),
            None => "",
        }
    }
}

impl VoteColumns {
    ghost use Rattle.std.specs.Prelude.{◌≡◌, IfErr, IfOk};
    ghost use Rattle.pb_core.specs.Election.{ElectionView};
    ghost use Rattle.pb_read.specs.Inner.Drafts.{HasVoter};
    ghost use Rattle.pb_read.specs.Inner.Machine.{Explains, vote_row_checks};
    ghost use Rattle.pb_read.specs.Columns.{vote_columns};

    /// The columns that a header row of VOTES names: `voter_id` and `vote`, both needed.
    pub(crate) fn of(header: &Row) -> Option<VoteColumns>
        ensures { result ≡ vote_columns header.now }
    {
        let voter = header.column(Column::VoterId.text())?;
        let vote = header.column(Column::Vote.text())?;
        Some(VoteColumns { voter, vote })
    }

    /// The voter's id in a row, or why it has none.
    pub(crate) fn voter_id(&self, alloc: Global, row: &Row) -> Result<VoterId, ReadKind>
        ensures ok { IfOk result (HasVoter self.now row.now) }
        ensures err { IfErr result (λ kind.
            (e : ElectionView) → Explains kind (vote_row_checks self.now row.now e)) }
    {
        if !row.has_fields(self.voter, self.vote) {
            return Err(ReadKind::MissingField);
        }
        let Some(id) = VoterId::new(alloc, row.field(self.voter))? else {
            return Err(ReadKind::EmptyId);
        };
        Ok(id)
    }
}
