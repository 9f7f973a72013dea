//! The command `serve`: a desk that stands on a file.

use crate::admitted::{RowNotice, rules_of};
use crate::command_run::CommandRun;
use crate::notes::Notes;
use crate::system::System;
use pb_command_line::{Admits, ServeRun};
use pb_commands::AppFault;
use pb_commands::run_desk::admission_of;
use pb_core::election::Election;
use pb_core::project::Project;
use pb_durable::file_device::{FileDevice, FileFailure, FileFault};
use pb_durable::moved::keep_text;
use pb_durable::{Belonging, Device, DurableDesk, FileChange, JournalFile, OpenedDesk};
use pb_faults::RunText;
use pb_read::read_pb_watched;
use pb_rows::read_number;
use pb_script::{Admission, ROOM, RequestRows, RowRefusal};
use pb_serving::run_serve::{ServedRows, run_serve};
use pb_serving::{AtHand, Paced, RefusedRows, Session};
use pb_streams::{
    Digested, RunRefusal, TornFile, TypedReader, behind_link, ended, open_file, unopened,
};
use pb_witness::rule_counts::RuleCounts;
use pb_witness::witness::Witness;
use pb_words::refused_words::like_a_place_words;
use pb_words::say_words;
use std::alloc::Global;
use std::cell::Cell;
use std::io;
use std::io::{Error, ErrorKind, Write};

/// What a run of `serve` stands on: the journal's path, which requests are admitted, and who hears of those
/// that are not.
#[derive(Drop)]
struct Serving<'a, 'r, R> {
    run: &'r CommandRun<'a, R>,
    rt: &'a R,
    alloc: Global,
    /// No link.
    journal: &'r str,
    admission: &'r Admission,
    notice: RowNotice<'a, R>,
}

/// Serves the requests of standard input on the desk of a .pb file, which stands on a journal. FILE and the
/// roll are read before the journal is opened or made.
pub(crate) fn serve<'a, R: System, W: Write>(
    run: &CommandRun<'a, R>,
    asked: &ServeRun<'a>,
    writer: &mut W,
    notes: &mut Notes,
) -> Result<(), RunRefusal> {
    let (election, admission) = read_both(run, asked, &mut notes.seen.witness)?;
    let rt = run.counting.rt;
    let own = match behind_link(rt, asked.journal) {
        Ok(own) => own,
        Err(error) => {
            drop(election);
            drop(admission);
            return Err(unopened(rt.alloc(), asked.journal, &FileFault::Open(error)));
        }
    };
    let serving = Serving {
        run,
        rt,
        alloc: run.counting.alloc,
        journal: match &own {
            Some(own) => own.as_str(),
            None => asked.journal,
        },
        admission: &admission,
        notice: RowNotice::new(run),
    };
    let served = serve_journal(&serving, election, writer);
    drop(serving);
    drop(own);
    drop(admission);
    let ServedRows { refused, counts } = served?;
    notes.refused = refused.all;
    notes.by_rule = by_rule(&refused);
    notes.entries = counts;
    Ok(())
}

/// How many rows each rule has refused; one that does not have the form of a row breaks none of them.
fn by_rule(refused: &RefusedRows) -> RuleCounts {
    RuleCounts {
        unknown_id: refused.of(RowRefusal::UnknownId),
        not_on_roll: refused.of(RowRefusal::NotOnRoll),
        too_few: refused.of(RowRefusal::TooFew),
        from_file: refused.of(RowRefusal::FromFile),
        no_shut: refused.of(RowRefusal::NoShut),
    }
}

/// The election of the .pb file, and which requests are admitted on its desk.
fn read_both<'a, R: System>(
    run: &CommandRun<'a, R>,
    asked: &ServeRun<'a>,
    witness: &mut Witness,
) -> Result<(Election, Admission), AppFault> {
    let alloc = run.counting.alloc;
    let rt = run.counting.rt;
    let file = Digested::new(
        open_file(rt, asked.file, RunText::File)?,
        Some(&run.kinship.file),
    );
    let election = read_pb_watched(alloc, file, witness)?;
    match admission_on(rt, &asked.admits, &election) {
        Ok(admission) => Ok((election, admission)),
        Err(fault) => {
            drop(election);
            Err(fault)
        }
    }
}

/// Which requests are admitted on the desk of this election.
fn admission_on<R: System>(
    rt: &R,
    admits: &Admits<'_>,
    election: &Election,
) -> Result<Admission, AppFault> {
    let rules = rules_of(rt, admits)?;
    Ok(admission_of(rt.alloc(), rules, election)?)
}

/// Serves the desk of an election on its journal.
fn serve_journal<R: System, W: Write>(
    serving: &Serving<'_, '_, R>,
    election: Election,
    writer: &mut W,
) -> Result<ServedRows, RunRefusal> {
    let failure = Cell::new(None);
    match FileDevice::open(serving.rt, serving.journal, &failure) {
        Ok(device) => serve_device(serving, election, device, writer),
        Err(fault) => {
            drop(election);
            Err(unopened(serving.alloc, serving.journal, &fault))
        }
    }
}

/// Serves the desk of an election whose journal stands on a device, if it belongs to the .pb file that was
/// read.
fn serve_device<R: System, W: Write>(
    serving: &Serving<'_, '_, R>,
    election: Election,
    mut device: FileDevice<'_, R>,
    writer: &mut W,
) -> Result<ServedRows, RunRefusal> {
    let belonging = match seen_on(serving, &mut device) {
        Ok(belonging) => belonging,
        Err(refusal) => {
            drop(device);
            drop(election);
            return Err(refusal);
        }
    };
    let failure = device.failure();
    let (desk, torn) = open_on(serving, election, device)?;
    let kinship = serving.run.kinship;
    if let Err(refusal) = kinship.keep_belonging(serving.rt, serving.journal, belonging) {
        drop(desk);
        return Err(refusal);
    }
    serve_desk(serving, desk, torn, failure, writer)
}

/// What the journal on a device says of the .pb file that was read. One without an entry gets to belong to
/// it, before it has a byte more.
fn seen_on<R: System>(
    serving: &Serving<'_, '_, R>,
    device: &mut FileDevice<'_, R>,
) -> Result<Belonging, RunRefusal> {
    let bytes = match device.read(serving.alloc) {
        Ok(bytes) => bytes,
        Err(fault) => {
            let why = device.failure().get();
            return Err(ended(
                serving.alloc,
                serving.journal,
                AppFault::from(fault),
                why,
                None,
            ));
        }
    };
    let belonging = serving
        .run
        .kinship
        .belonging_for_desk(serving.rt, serving.journal, bytes.as_slice());
    drop(bytes);
    belonging
}

/// Says the first id that is itself a number below the number of projects, where rows name projects by their
/// places: a place and an id are then easily confused.
fn say_like_a_place<R: System>(rt: &R, projects: &[Project]) {
    for project in projects {
        let is_place = match read_number(project.id()) {
            Some(number) => (number as usize) < projects.len(),
            None => false,
        };
        if is_place {
            return say_words(rt, like_a_place_words(rt.alloc(), project.id()));
        }
    }
}

/// Opens the desk of an election on a device. Answers how many bytes were cut off, too.
fn open_on<'d, R: System>(
    serving: &Serving<'_, '_, R>,
    election: Election,
    device: FileDevice<'d, R>,
) -> Result<(DurableDesk<FileDevice<'d, R>>, usize), RunRefusal> {
    let alloc = serving.alloc;
    let mut file = JournalFile::on(alloc, device);
    let mut beside = TornFile::new(serving.rt, serving.journal);
    match pb_durable::open(alloc, &mut file, election, ROOM, &mut beside) {
        Ok(OpenedDesk { desk, torn }) => Ok((DurableDesk::on(desk, file), torn)),
        Err(fault) => {
            let mut device = file.into_device();
            let why = device.failure().get();
            // No desk has the text of a journal that was moved before it was opened.
            let kept = match why {
                Some(FileFailure::Changed(FileChange::Moved)) => Some(device.keep_moved()),
                _ => None,
            };
            drop(device);
            match (AppFault::from(fault), beside.refusal()) {
                (AppFault::Write, Some(refusal)) => Err(refusal),
                (fault, _) => Err(ended(alloc, serving.journal, fault, why, kept)),
            }
        }
    }
}

/// Serves the requests of standard input on a desk that was opened. Where somebody has moved its journal or
/// written over it, its text is kept.
fn serve_desk<R: System, W: Write>(
    serving: &Serving<'_, '_, R>,
    mut desk: DurableDesk<FileDevice<'_, R>>,
    torn: usize,
    failure: &Cell<Option<FileFailure>>,
    writer: &mut W,
) -> Result<ServedRows, RunRefusal> {
    let served = match serve_rows(serving, &mut desk, torn, writer) {
        Ok(served) => Ok(served),
        Err(fault) => {
            let why = failure.get();
            let kept = match why {
                Some(FileFailure::Changed(_)) => Some(keep_text_of(serving, &desk)),
                _ => None,
            };
            Err(ended(serving.alloc, serving.journal, fault, why, kept))
        }
    };
    drop(desk);
    served
}

/// Keeps the text of a desk's journal in a new file beside the journal, up to the last request that was
/// answered. Answers the file's number.
fn keep_text_of<R: System>(
    serving: &Serving<'_, '_, R>,
    desk: &DurableDesk<FileDevice<'_, R>>,
) -> io::Result<u32> {
    let Ok(text) = desk.durable_text(serving.alloc) else {
        return Err(Error::from(ErrorKind::OutOfMemory));
    };
    let kept = keep_text(serving.rt, serving.alloc, serving.journal, text.as_slice());
    drop(text);
    kept
}

/// Serves the requests of standard input.
fn serve_rows<R: System, W: Write>(
    serving: &Serving<'_, '_, R>,
    desk: &mut DurableDesk<FileDevice<'_, R>>,
    torn: usize,
    writer: &mut W,
) -> Result<ServedRows, AppFault> {
    let (rt, alloc, typing) = (serving.rt, serving.alloc, serving.run.typing);
    if !typing.by_id() {
        say_like_a_place(rt, desk.desk().projects());
    }
    typing.opens(desk.desk().is_shut());
    let at_hand = AtHand::new();
    let Ok(input) = Paced::new(alloc, TypedReader::new(rt, typing), &at_hand) else {
        return Err(AppFault::Memory);
    };
    let mut rows = RequestRows::new(alloc, input);
    let session = Session {
        torn,
        pace: &at_hand,
        admission: serving.admission,
        notice: &serving.notice,
    };
    let served = run_serve(alloc, desk, &mut rows, &session, writer);
    drop(rows);
    served
}
