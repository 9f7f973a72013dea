//! What is read for a count: a file, or a file and the journal of its shut desk.

ghost use Rattle.std.specs.Prelude.{◌≡◌, ◌≢◌, IfErr, IfOk, None, Some, true};
ghost use Rattle.pb_desk.specs.Desk.{closed_election, standing_of};
ghost use Rattle.pb_commands.specs.Audited.{IsDeskOf};
ghost use Rattle.pb_commands.specs.Closed.{Leaves, LeavesNone};
ghost use Rattle.pb_commands.specs.Ends.{Ends, IfBothKnown, known};
ghost use Rattle.pb_commands.specs.Inner.Inputs.{as_run};

use crate::input_fault::InputFault;
use pb_core::election::Election;
use pb_desk::{Desk, IntoFault, audit};
use pb_faults::AppFault;
use pb_read::{Heed, read_pb_watched};
use pb_script::ROOM;
use std::alloc::Global;
use std::io::Read;

/// What is read for a count.
#[derive(Drop)]
pub struct Inputs<P, J> {
    /// The .pb file.
    pub file: P,
    /// The journal whose shut desk leaves the ballots. Without one they are the file's own.
    pub journal: Option<J>,
}

/// Reads the election that is counted.
///
/// The file is refused before the journal, and the journal before an open desk. Who looks on while the file
/// is read may refuse it for a warning, before the journal is judged.
pub fn election_of<P: Read + Drop, J: Read + Drop, H: Heed>(
    alloc: Global,
    inputs: Inputs<P, J>,
    watch: &mut H,
) -> Result<Election, AppFault>
    ensures ok { IfOk result (λ e. IfBothKnown (P.remaining inputs.file) (known J.remaining inputs.journal)
        (λ bytes journal. Leaves bytes journal e)) }
    ensures ends { Ends Leaves LeavesNone (P.remaining inputs.file) (known J.remaining inputs.journal)
        (H.refused_for watch.new, H.shown watch.old, H.shown watch.new) result }
    ensures reads { IfErr result (λ fault. fault ≢ AppFault.Write) }
{
    let Inputs { file, journal } = inputs;
    let Some(journal) = journal else {
        return Ok(own_election(alloc, file, watch)?);
    };
    let desk = audited_desk(alloc, file, journal, watch)?;
    if desk.is_shut() {
        left_by(desk)
    } else {
        drop(desk);
        Err(AppFault::OpenDesk)
    }
}

/// Reads a .pb file: the election with its own ballots.
pub(crate) fn own_election<P: Read + Drop, H: Heed>(
    alloc: Global,
    file: P,
    watch: &mut H,
) -> Result<Election, InputFault>
    ensures ok { IfOk result (λ e. IfBothKnown (P.remaining file) (Some None)
        (λ bytes journal. Leaves bytes journal e)) }
    ensures ends { Ends Leaves LeavesNone (P.remaining file) (Some None)
        (H.refused_for watch.new, H.shown watch.old, H.shown watch.new) (as_run result) }
{
    let election = match read_pb_watched(alloc, file, watch) {
        Ok(election) => election,
        Err(fault) => return Err(InputFault::File(fault)),
    };
    if let Some(warning) = watch.refusal() {
        drop(election);
        return Err(InputFault::Warned(warning));
    }
    Ok(election)
}

/// Reads a .pb file and a journal, and audits the journal: the desk with this journal.
pub(crate) fn audited_desk<P: Read + Drop, J: Read + Drop, H: Heed>(
    alloc: Global,
    file: P,
    journal: J,
    watch: &mut H,
) -> Result<Desk, InputFault>
    ensures ok { IfOk result (λ d. IfBothKnown (P.remaining file) (J.remaining journal) (λ bytes rows.
        IsDeskOf bytes rows d)) }
    ensures ends { Ends IsDeskOf (λ bytes rows. LeavesNone bytes (Some rows)) (P.remaining file)
        (J.remaining journal) (H.refused_for watch.new, H.shown watch.old, H.shown watch.new) (as_run result) }
{
    let election = match own_election(alloc, file, watch) {
        Ok(election) => election,
        Err(fault) => return Err(fault),
    };
    match audit(alloc, election, ROOM, journal) {
        Ok(desk) => Ok(desk),
        Err(fault) => Err(InputFault::Journal(fault)),
    }
}

/// The election whose ballots a shut desk leaves.
pub(crate) fn left_by(desk: Desk) -> Result<Election, AppFault>
    requires { (standing_of desk).is_shut ≡ true }
    ensures ok { IfOk result (λ e. e ≡ closed_election desk) }
    ensures fault { IfErr result (λ fault. fault ≡ AppFault.Memory) }
{
    match desk.into_election() {
        Ok(election) => Ok(election),
        Err(IntoFault::NoMemory(desk)) => {
            drop(desk);
            Err(AppFault::Memory)
        }
        Err(IntoFault::NotShut(_)) => unreachable!(),
    }
}
