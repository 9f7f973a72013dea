//! The command `desk`: a script's requests, served by the clerks of one desk.

ghost use Rattle.std.specs.Prelude.{◌≡◌, false, IfOk, List, None, OnOk, Some};
ghost use Rattle.std.specs.Io.KnownBytes.{Appends};
ghost use Rattle.pb_core.specs.Election.{project_ids};
ghost use Rattle.pb_core.specs.Request.{EntryView};
ghost use Rattle.pb_desk.specs.Rows.{journal_text};
ghost use Rattle.pb_desk.specs.declared.version.Version.TheVariants.{Two};
ghost use Rattle.pb_script.specs.Admission.{open_to_all};
ghost use Rattle.pb_script.specs.EntryCounts.{counts_of};
ghost use Rattle.pb_commands.specs.DeskRun.{DeskRefuses, DeskWrites, admission_on};
ghost use Rattle.pb_commands.specs.Inner.DeskRun.{unserved};
ghost use Rattle.pb_commands.specs.Ends.{IfBothKnown, Runs};

use crate::inputs::own_election;
use pb_core::election::Election;
use pb_core::gate::Gate;
use pb_core::no_memory::NoMemory;
use pb_faults::{AppFault, write_out};
use pb_read::{NoWatch, ProjectIds};
use pb_script::serve_script::serve_admitted;
use pb_script::{
    Admission, EntryCounts, NoNotice, Notice, ScriptRun, ServeFault, ServedScript, voters_of,
};
use std::alloc::Global;
use std::io::{Read, Write};
use std::thread::Threads;

/// Which requests a desk admits, before its election is known.
#[derive(Drop)]
pub struct Rules {
    /// Rows name projects by the ids of the election's projects.
    pub by_id: bool,
    /// No request is for a voter of the election.
    pub keeps_file: bool,
    /// What is admitted but for these.
    pub admission: Admission,
}

/// Reads a .pb file and a script, lets this many clerks serve the script's requests on one desk, side by
/// side, and writes the desk's journal.
///
/// Each clerk serves its own rows in their order, by at most 100,000 tries of the lock for each. One who
/// finds the desk busy all that time stops; what the clerks leave over is served after all of them have
/// stopped, clerks in rising number. Where the run `shuts` the desk, clerk 0 asks for that in one last entry,
/// after all of these, so that nobody's ballot comes after it. Before the first try of a row the gate is
/// called with the clerk's number and the row's place among the clerk's own rows, from 0.
///
/// The file is refused before the script, and the script before the number of clerks, 1 to 64. Nothing is
/// written but the whole journal. Where the fault is `Write` some of it may have gone out; on any other fault
/// the writer is as it was. No warning refuses the file.
pub fn run_desk<T: Threads + Sync, P: Read + Drop, S: Read + Drop, G: Gate, W: Write>(
    rt: &T,
    alloc: Global,
    file: P,
    script: S,
    clerks: u32,
    shuts: bool,
    gate: &G,
    writer: &mut W,
) -> Result<(), AppFault>
    ensures { Runs (λ bytes rows. DeskWrites
        (record { by_id = false; keeps_file = false; admission = open_to_all }) bytes rows clerks shuts)
        (λ _ rows. DeskRefuses (record { by_id = false; keeps_file = false; admission = open_to_all }) rows clerks)
        (P.remaining file) (S.remaining script) (None, None, None) W.contents writer.old writer.new result }
{
    let open = Rules {
        by_id: false,
        keeps_file: false,
        admission: Admission::open(),
    };
    let mut counts = EntryCounts::new();
    run_admitted_desk(
        rt,
        alloc,
        file,
        script,
        clerks,
        shuts,
        gate,
        open,
        &NoNotice,
        &mut counts,
        writer,
    )
}

/// Serves as `run_desk` does, the requests that these rules admit. A row that they refuse refuses the script,
/// and is told to `notice`. `counts` gets the entries of the journal that is written.
pub fn run_admitted_desk<
    T: Threads + Sync,
    P: Read + Drop,
    S: Read + Drop,
    G: Gate,
    N: Notice,
    W: Write,
>(
    rt: &T,
    alloc: Global,
    file: P,
    script: S,
    clerks: u32,
    shuts: bool,
    gate: &G,
    rules: Rules,
    notice: &N,
    counts: &mut EntryCounts,
    writer: &mut W,
) -> Result<(), AppFault>
    ensures runs { Runs (λ bytes rows. DeskWrites rules bytes rows clerks shuts)
        (λ _ rows. DeskRefuses rules rows clerks)
        (P.remaining file) (S.remaining script) (None, None, None) W.contents writer.old writer.new result }

    // The counts are those of the journal that is written, which also where the writer does not tell its bytes is
    // one that file and script allow.
    ensures counts { OnOk result ((journal : List EntryView) × (counts.new.counts ≡ counts_of journal)
        × Appends (W.contents writer.old) (W.contents writer.new) (journal_text Two journal)
        × IfBothKnown (P.remaining file) (S.remaining script)
        (λ bytes rows. DeskWrites rules bytes rows clerks shuts (journal_text Two journal))) }
{
    let election = match own_election(alloc, file, &mut NoWatch) {
        Ok(election) => election,
        Err(fault) => {
            drop(rules);
            return Err(AppFault::from(fault));
        }
    };
    let admission = match admission_of(alloc, rules, &election) {
        Ok(admission) => admission,
        Err(_) => {
            drop(election);
            return Err(AppFault::Memory);
        }
    };
    let run = ScriptRun {
        clerks,
        shuts,
        admission: &admission,
        gate,
        notice,
    };
    let served = serve_admitted(rt, alloc, election, script, &run);
    drop(admission);
    let text = match served {
        Ok(
            ServedScript {
                text,
                counts: served,
            },
        ) => {
            *counts = served;
            text
        }
        Err(fault) => return Err(unserved(fault)),
    };
    write_out(writer, text.as_slice(), AppFault::Write)
}

/// What these rules admit on the desk of this election.
pub fn admission_of(alloc: Global, rules: Rules, election: &Election) -> Result<Admission, NoMemory>
    ensures { IfOk result (λ admission. admission ≡ admission_on rules election.now) }
{
    let Rules {
        by_id,
        keeps_file,
        admission,
    } = rules;
    let named = if by_id {
        name_by_id(alloc, admission, election)?
    } else {
        admission
    };
    if !keeps_file {
        return Ok(named);
    }
    match voters_of(alloc, election) {
        Ok(voters) => Ok(named.keeping(voters)),
        Err(refused) => {
            drop(named);
            Err(refused)
        }
    }
}

/// What is admitted, where rows name projects by the ids of this election.
fn name_by_id(
    alloc: Global,
    admission: Admission,
    election: &Election,
) -> Result<Admission, NoMemory>
    ensures { IfOk result (λ named. named ≡ record admission { ids = Some (project_ids election.now) }) }
{
    match ProjectIds::of(alloc, election) {
        Ok(ids) => Ok(admission.by_ids(ids)),
        Err(refused) => {
            drop(admission);
            Err(refused)
        }
    }
}

/// A script that is not served, as a run answers it.
fn unserved(fault: ServeFault) -> AppFault
    ensures { result ≡ unserved fault }
{
    match fault {
        ServeFault::Script(fault) => AppFault::Script(fault).merged(),
        ServeFault::ClerkCount => AppFault::ClerkCount,
    }
}
