//! What the fault of a row is about.

ghost use Rattle.std.specs.Prelude.{◌≡◌, ◌≢◌, ◌==◌, position};
ghost use Rattle.std.specs.List.{slice_split};
ghost use Rattle.pb_read.specs.Inner.Ids.{is_unknown};
ghost use Rattle.pb_read.specs.Inner.Progresses.{IsReady, amount_column, place_of};
ghost use Rattle.pb_read.specs.Refusals.{is_of_amount, refusal_of};
ghost use Rattle.pb_read.specs.declared.fault.ReadKind.TheVariants.{NoMemory};

use crate::column::Column;
use crate::fault::{ReadFault, ReadKind};
use crate::meta_key::MetaKey;
use crate::progress::{Progress, Stage};
use crate::refusal::Refusal;
use crate::row::Row;
use pb_ids::IdTable;

impl Progress {
    /// What the fault of this row is about, which is refused here.
    pub(crate) fn refusal(&self, row: &Row, fault: ReadFault) -> Refusal
        requires { fault.kind ≢ NoMemory → IsReady self.now }
        ensures { result ≡ refusal_of (place_of self.now) row.now fault }
    {
        match (fault.kind, self.stage) {
            (ReadKind::VoteType, _) => Refusal::at(fault, Column::Key(MetaKey::VoteType)),
            (ReadKind::BadLength, _) => Refusal::at(fault, Column::Key(MetaKey::MaxLength)),
            (ReadKind::EmptyId, Stage::InProjects(_)) => Refusal::at(fault, Column::ProjectId),
            (ReadKind::EmptyId, Stage::InVotes(_)) => Refusal::at(fault, Column::VoterId),
            (ReadKind::RepeatedProject, Stage::InProjects(columns)) => Refusal {
                earlier: self.draft.project_ids.get(row.field(columns.id)),
                ..Refusal::at(fault, Column::ProjectId)
            },
            (ReadKind::RepeatedVoter, Stage::InVotes(columns)) => Refusal {
                earlier: self.draft.voter_ids.get(row.field(columns.voter)),
                ..Refusal::at(fault, Column::VoterId)
            },
            (ReadKind::UnknownProject, Stage::InVotes(columns)) => Refusal {
                piece: unknown_piece(&self.draft.project_ids, row.field(columns.vote)),
                ..Refusal::at(fault, Column::Vote)
            },
            (kind, stage) if is_of_amount(kind) => Refusal::at(fault, amount_column(stage)),
            _ => Refusal::of(fault),
        }
    }
}

/// Whether a fault of this kind refuses an amount.
fn is_of_amount(kind: ReadKind) -> bool
    ensures { result ≡ is_of_amount kind }
{
    let number = kind.number();
    11 <= number && number <= 14
}

/// The column of an amount: META's budget at the end of META, and otherwise a project's cost.
fn amount_column(stage: Stage) -> Column
    ensures { result ≡ amount_column stage }
{
    match stage {
        Stage::InMeta(_) => Column::Key(MetaKey::Budget),
        _ => Column::Cost,
    }
}

/// The place, from 0, of the first piece of a vote between commas that is neither empty nor an id.
fn unknown_piece(known: &IdTable, vote: &str) -> Option<usize>
    ensures { result ≡ position (is_unknown known.now) (slice_split (λ b. b == 44) vote.now) }
{
    vote.split(',').position(|piece| is_unknown(known, piece))
}

/// Whether a piece of a vote is neither empty nor an id.
fn is_unknown(known: &IdTable, piece: &str) -> bool
    ensures { result ≡ is_unknown known.now piece.now }
{
    let id = piece.trim();
    !id.is_empty() && known.get(id).is_none()
}
