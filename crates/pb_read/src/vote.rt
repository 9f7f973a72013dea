//! The projects that a vote names.

ghost use Rattle.std.specs.Prelude.{◌≡◌, List, ℕ, IfOk, true};
ghost use Rattle.pb_read.specs.Inner.Ids.{Finds};
ghost use Rattle.pb_read.specs.Inner.Machine.{places_in};
ghost use Rattle.pb_read.specs.Voting.{names_only, pieces_of};

use pb_core::no_memory::NoMemory;
use pb_ids::IdTable;

/// Puts the places of the ids that a vote names into `places`, in the order in which it names them, and
/// answers whether it names no others.
pub(crate) fn find_places(
    known: &IdTable,
    vote: &str,
    places: &mut Vec<u32>,
) -> Result<bool, NoMemory>
    ensures known { IfOk result (λ all.
        (ids : List (List ℕ)) → Finds known.now ids → all ≡ names_only ids vote.now) }
    ensures places { IfOk result (λ all.
        (ids : List (List ℕ)) → Finds known.now ids → all ≡ true →
        places.new.items ≡ places_in ids (pieces_of vote.now)) }
{
    places.clear();
    for piece in vote.split(',') {
        let id = piece.trim();
        if id.is_empty() {
            continue;
        }
        let Some(place) = known.get(id) else {
            return Ok(false);
        };
        places.push(place)?;
    }
    Ok(true)
}
