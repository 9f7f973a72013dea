//! The rows of the input that are served together.

ghost use Rattle.std.specs.Prelude.{◌≡◌, ◌<◌, ◌≤◌, ◌+◌, [], length, None};
ghost use Rattle.pb_script.specs.RowsView.{HasFailed, HasGiven};
ghost use Rattle.pb_serving.specs.Inner.Batch.{refused, IsBatch, IsNextAsk};

use crate::rows_at_hand::RowsAtHand;
use crate::session::Session;
use pb_durable::ClerkRequest;
use pb_script::{Admission, Notice, RequestRows, RowRefusal, RowsFault, ScriptRow};
use std::alloc::Global;
use std::io::Read;

/// The most rows that are served together.
const MOST_ROWS: usize = 4096;

/// Why a batch ends.
#[derive(Clone, Copy)]
pub(crate) enum BatchEnd {
    /// It is large enough, or no further row is at hand.
    More,
    /// The row behind it is refused for this.
    Refused(RowRefusal),
    /// No row is left.
    Over,
    /// The reader failed at the row behind it.
    ReadFailed,
    /// Memory was refused before the row behind it was given.
    NoMemory,
}

/// Reads the next rows that are served together into `asks`, and says why there are no more of them. Also
/// where it ends by a fault, what was read before is to be served.
pub(crate) fn next_batch<R: Read, P: RowsAtHand, N: Notice>(
    alloc: Global,
    rows: &mut RequestRows<R>,
    session: &Session<'_, P, N>,
    asks: &mut Vec<ClerkRequest>,
) -> BatchEnd
    requires { asks.old.items ≡ [] }
    ensures few { length asks.new.items ≤ 4096 }
    ensures batch { IsBatch session.now.admission.now rows.old.left rows.new.left asks.new.items result }
    ensures given { HasGiven rows.old rows.new (length asks.new.items + refused result) }
    ensures blame { result ≡ BatchEnd.ReadFailed → HasFailed rows.new }
    ensures told { ¬ HasFailed rows.old → HasFailed rows.new → result ≡ BatchEnd.ReadFailed }
    ensures over { result ≡ BatchEnd.Over → rows.new.fault ≡ None }
    ensures some { result ≡ BatchEnd.More → 0 < length asks.new.items }
{
    for _ in 0..MOST_ROWS {
        // A row is taken only where there is room for it.
        if asks.reserve(1).is_err() {
            return BatchEnd::NoMemory;
        }
        match next_ask(alloc, rows, session.admission, session.notice) {
            Ok(ask) => asks.push_reserved(ask),
            Err(end) => return end,
        }
        if !session.pace.has_row() {
            break;
        }
    }
    BatchEnd::More
}

/// Reads what the next row asks, or why the batch ends before it.
fn next_ask<R: Read, N: Notice>(
    alloc: Global,
    rows: &mut RequestRows<R>,
    admission: &Admission,
    notice: &N,
) -> Result<ClerkRequest, BatchEnd>
    ensures { IsNextAsk admission.now rows.old rows.new result }
{
    match rows.next(alloc, admission, notice) {
        Ok(Some(Ok(ScriptRow { clerk, request }))) => Ok(ClerkRequest { clerk, request }),
        Ok(Some(Err(why))) => Err(BatchEnd::Refused(why)),
        Ok(None) => Err(BatchEnd::Over),
        Err(RowsFault::ReadFailed) => Err(BatchEnd::ReadFailed),
        Err(RowsFault::NoMemory) => Err(BatchEnd::NoMemory),
    }
}
