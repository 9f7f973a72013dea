//! The table of fairness: what a supporter of each project that lost had spent.

ghost use Rattle.std.specs.Prelude.{◌≡◌, ◌<◌, ◌++◌, ◌&&◌, OnOk, length, nat_lt, not};
ghost use Rattle.pb_price.specs.Supporters.{support_in, support_of};
ghost use Rattle.pb_reasons.specs.Counted.{winners_of};
ghost use Rattle.pb_reasons.specs.Fairness.{spent};
ghost use Rattle.pb_rounds.specs.MostVotes.{is_taken, votes_at};
ghost use Rattle.pb_rows.specs.Writing.{text_of_row};
ghost use Rattle.pb_commands.specs.Tables.{table_of};
ghost use Rattle.pb_commands.specs.declared.table.Table.TheVariants.{Fairness};
ghost use Rattle.pb_commands.specs.Inner.Tables.{columns_of, row_of};

use crate::in_units::in_units;
use pb_core::no_memory::NoMemory;
use pb_reasons::{CountedElection, most_spent, needed};
use pb_rows::{Field, RowsWriter};
use std::alloc::Global;

/// Writes the columns, and a row for each project with supporters that is neither elected nor added, in the
/// order of the file.
pub(crate) fn put_fairness(
    rows: &mut RowsWriter,
    alloc: Global,
    count: &CountedElection,
) -> Result<(), NoMemory>
    ensures { OnOk result (rows.new.text ≡ rows.old.text ++ table_of Fairness count.now) }
{
    rows.put_row(&["project_id", "votes", "share", "needed", "spent"])?;
    let spent = most_spent(alloc, count)?;
    for position in 0..count.election().projects().len() {
        let place = count.position(position as u32);
        if has_lost(count, place) {
            put_loser(rows, count, place, spent[place as usize])?;
        }
    }
    Ok(())
}

/// Whether the project at this place has supporters, and is neither elected nor added.
fn has_lost(count: &CountedElection, place: u32) -> bool
    requires { place < length count.now.election.projects }
    ensures { result ≡ (nat_lt 0 (votes_at (support_of count.now.election) place)
        && not (is_taken (winners_of count.now.counted) place)) }
{
    let votes = count.supporters().of(place).len();
    votes > 0 && !count.has_won(place)
}

/// Writes the row of the project at this place, one of whose supporters spent so much.
fn put_loser(
    rows: &mut RowsWriter,
    count: &CountedElection,
    place: u32,
    most: u128,
) -> Result<(), NoMemory>
    requires known { place < length count.now.election.projects }
    requires supported { 0 < votes_at (support_of count.now.election) place }
    requires most { most ≡ spent count.now.rule.options.measure
        (support_in count.now.rule.options.grain count.now.election) count.now.counted.outcome place }
    ensures { OnOk result (rows.new.text
        ≡ rows.old.text ++ text_of_row (row_of (columns_of Fairness count.now) place)) }
{
    let project = &count.election().projects()[place as usize];
    let supporters = count.supporters();
    let outcome = count.outcome();
    let fields = [
        Field::Text(project.id()),
        Field::Number(supporters.of(place).len() as u64),
        in_units(count, outcome.share),
        in_units(count, needed(supporters, place)),
        Field::Exact(most, count.parts()),
    ];
    rows.put_fields(&fields)?;
    Ok(())
}
