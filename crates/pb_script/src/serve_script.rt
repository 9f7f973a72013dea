//! The clerks of a script at work: each serves its own requests, side by side with the others.

ghost use Rattle.std.specs.Prelude.{◌≡◌, ◌+◌, ◌<◌, ◌≤◌, ℕ, List, [], All, length, map, IfErr, IfOk, IfSome};
ghost use Rattle.std.specs.Prelude.{IsErrOf, OnOk, Some};
ghost use Rattle.pb_shared.specs.Inner.Desk.{desk_with};
ghost use Rattle.pb_core.specs.Request.{asked, EntryView};
ghost use Rattle.pb_desk.specs.Replay.{IsLegal, most_clerks};
ghost use Rattle.pb_desk.specs.Rows.{journal_text};
ghost use Rattle.pb_desk.specs.declared.version.Version.TheVariants.{Two};
ghost use Rattle.pb_rows.specs.Reading.{records_of};
ghost use Rattle.pb_shared.specs.Clerk.{AreClerks};
ghost use Rattle.pb_shared.specs.Inner.Newcomers.{AreNewcomers};
ghost use Rattle.pb_read.specs.StandsFor.{most_records};
ghost use Rattle.pb_script.specs.EntryCounts.{counts_of};
ghost use Rattle.pb_script.specs.Served.{IsServeFault, IsServed};
ghost use Rattle.pb_script.specs.Serving.{program_room};
ghost use Rattle.pb_script.specs.Inner.Script.{clerks_within};
ghost use Rattle.pb_script.specs.Inner.Serving.{AppendsFor, AreCounts, HasServed, ServesAll, ServesUpTo};
ghost use Rattle.pb_script.specs.Inner.Serving.{AreBack, IsServingFault, list_of, opening_of, unshared};
ghost use Rattle.pb_script.specs.Inner.Serving.{ShutAtEnd};

use crate::admission::Notice;
use crate::entry_counts::EntryCounts;
use crate::requests::Requests;
use crate::script::read_lists;
use crate::script_fault::ScriptFault;
use crate::script_run::ScriptRun;
use crate::serve_fault::ServeFault;
use pb_core::election::Election;
use pb_core::gate::Gate;
use pb_core::no_memory::NoMemory;
use pb_core::request::Request;
use pb_desk::desk::Desk;
use pb_desk::desk_fault::DeskFault;
use pb_rows::{Records, RecordsFault};
use pb_shared::clerk::Clerk;
use pb_shared::share_fault::ShareFault;
use pb_shared::shared_desk::SharedDesk;
use pb_shared::shared_fault::SharedFault;
use std::alloc::Global;
use std::io::Read;
use std::thread::{Threads, map_vec};

/// The most entries that the journal of a desk of the program has.
pub const ROOM: u32 = 4_294_967_295;

/// How many times a clerk tries the lock for one request, offering the processor after each lost try. It is
/// enough for a holder without a processor to get one, and for a large journal to grow.
const TRIES: u32 = 100_000;

/// What comes of a script that is served.
#[derive(Drop)]
pub struct ServedScript {
    /// The text of the desk's journal.
    pub text: Vec<u8>,
    /// Its entries.
    pub counts: EntryCounts,
}

/// What the clerks of a shared desk are to do: each serves its own requests, and the gate is called before
/// each.
#[derive(Drop)]
struct Work<'a, G> {
    /// The requests of each clerk, by its number.
    lists: &'a [Requests],
    gate: &'a G,
    ghost few: { All (λ list. length list ≤ most_records) lists.now },
}

/// A clerk back from its work.
#[derive(Drop)]
struct Returned {
    clerk: Clerk,
    /// How many of its requests it served.
    served: u32,
    /// Whether it stopped because memory was refused.
    is_out_of_memory: bool,
}

/// Serves a clerk's requests in their order. It stops at the first that finds the desk busy, or that
/// memory is refused for.
fn serve_own<G: Gate>(shared: &SharedDesk, clerk: Clerk, work: &Work<'_, G>) -> Returned
    requires own { clerk.desk ≡ shared.now }
    requires fresh { clerk.sheet.mine ≡ [] }
    requires one_each { length work.now.lists.now ≡ shared.now.clerks }
    ensures { HasServed shared.now clerk.sheet.number (list_of work.now.lists.now clerk.sheet.number)
        result.clerk result.served }
{
    let mut clerk = clerk;
    let number = clerk.number();
    let mut served = 0u32;
    let mut is_out_of_memory = false;
    for request in work.lists[number as usize].as_slice() {
        work.gate.at(number, served);
        match shared.serve_within(&mut clerk, request, TRIES) {
            Ok(_) => served += 1,
            Err(SharedFault::NoMemory) => {
                is_out_of_memory = true;
                break;
            }
            // Another clerk holds the desk. Its journal is never full: see `serve_rest`.
            Err(_) => break,
        }
    }
    Returned {
        clerk,
        served,
        is_out_of_memory,
    }
}

/// Serves these requests of a clerk, one after the other. There is room for them.
fn serve_for(desk: &mut Desk, clerk: u32, requests: &[Request]) -> Result<(), NoMemory>
    requires clerk { clerk < most_clerks }
    requires room { length desk.old.journal + length requests.now ≤ desk.old.room }
    ensures opening { desk.new.opening ≡ desk.old.opening }
    ensures room { desk.new.room ≡ desk.old.room }
    ensures appends { OnOk result
        (AppendsFor clerk (map asked requests.now) desk.old.journal desk.new.journal) }
{
    for request in requests {
        match desk.serve(clerk, request) {
            Ok(_) => {}
            Err(DeskFault::NoMemory) => return Err(NoMemory),
            Err(DeskFault::JournalFull) => unreachable!(),
        }
    }
    Ok(())
}

/// Serves what the clerks left over, clerks in rising number: of each clerk's requests this many were
/// served. A desk of the program has room for all that 64 clerks ask in a script.
fn serve_rest(desk: &mut Desk, lists: &[Requests], served: &[u32]) -> Result<(), NoMemory>
    requires few { length lists.now ≤ most_clerks }
    requires few_each { All (λ list. length list ≤ most_records) lists.now }
    requires room { desk.old.room ≡ program_room }
    requires counts { AreCounts lists.now served.now }
    requires so_far { ServesUpTo 0 lists.now served.now desk.old.journal }
    ensures opening { desk.new.opening ≡ desk.old.opening }
    ensures room { desk.new.room ≡ desk.old.room }
    ensures all { OnOk result (ServesAll lists.now desk.new.journal) }
{
    for (clerk, list) in lists.iter().enumerate() {
        let left = &list.as_slice()[served[clerk] as usize..];
        serve_for(desk, clerk as u32, left)?;
    }
    Ok(())
}

/// The clerks who are back, and how many requests each of them served. Out of memory, where one of them was.
fn taken_back(alloc: Global, back: Vec<Returned>) -> Result<(Vec<Clerk>, Vec<u32>), NoMemory>
    ensures { IfOk result (λ both. (both.0.items ≡ map (λ r. r.clerk) back.items)
        × (both.1.items ≡ map (λ r. r.served) back.items)) }
{
    let mut clerks = Vec::new(alloc);
    let mut served = Vec::new(alloc);
    for returned in back {
        if returned.is_out_of_memory {
            return Err(NoMemory);
        }
        clerks.push(returned.clerk)?;
        served.push(returned.served)?;
    }
    Ok((clerks, served))
}

/// All clerks serve their requests, each in a thread of its own where one can be made. They are back in the
/// order of their numbers. Out of memory, where one of them was.
fn serve_together<T: Threads + Sync, G: Gate>(
    rt: &T,
    alloc: Global,
    shared: &SharedDesk,
    clerks: Vec<Clerk>,
    work: &Work<'_, G>,
) -> Result<(Vec<Clerk>, Vec<u32>), NoMemory>
    requires fresh { AreNewcomers shared.now clerks.items }
    requires one_each { length work.now.lists.now ≡ shared.now.clerks }
    ensures { IfOk result (λ both. AreBack shared.now work.now.lists.now both.0.items both.1.items) }
{
    let back = map_vec(
        rt,
        clerks,
        &|clerk: Clerk| -> Returned
            requires { (clerk.desk ≡ shared.now) × (clerk.sheet.mine ≡ [])
                × (length work.now.lists.now ≡ shared.now.clerks) }
            ensures { HasServed shared.entry.now clerk.sheet.number
                (list_of work.entry.now.lists.now clerk.sheet.number) result.clerk result.served }
        { serve_own(shared, clerk, work) },
    )?;
    taken_back(alloc, back)
}

/// These clerks of a shared desk serve the requests of a script, and it is closed. What they leave over is
/// served after them, clerks in rising number.
fn serve_shared<T: Threads + Sync, G: Gate>(
    rt: &T,
    alloc: Global,
    shared: SharedDesk,
    clerks: Vec<Clerk>,
    work: &Work<'_, G>,
) -> Result<Desk, NoMemory>
    requires empty { shared.start.journal ≡ [] }
    requires room { shared.start.room ≡ program_room }
    requires fresh { AreNewcomers shared clerks.items }
    requires range { shared.clerks ≤ most_clerks }
    requires one_each { length work.now.lists.now ≡ shared.clerks }
    ensures start { IfOk result (λ desk. desk ≡ desk_with shared.start desk.journal) }
    ensures serves { IfOk result (λ desk. ServesAll work.now.lists.now desk.journal) }
{
    let Ok((clerks, served)) = serve_together(rt, alloc, &shared, clerks, work) else {
        drop(shared);
        return Err(NoMemory);
    };
    let mut desk = shared.finish(clerks).unwrap();
    let rest = serve_rest(&mut desk, work.lists, served.as_slice());
    drop(served);
    match rest {
        Ok(()) => Ok(desk),
        Err(refused) => {
            drop(desk);
            Err(refused)
        }
    }
}

/// A desk after its run, which shuts it or not: clerk 0 asks for that.
fn ended(desk: Desk, shuts: bool) -> Result<Desk, NoMemory>
    requires { length desk.journal < desk.room }
    ensures opening { IfOk result (λ end. end.opening ≡ desk.opening) }
    ensures room { IfOk result (λ end. end.room ≡ desk.room) }
    ensures journal { IfOk result (λ end.
        ShutAtEnd shuts (λ journal. journal ≡ desk.journal) end.journal) }
{
    let mut desk = desk;
    if !shuts {
        return Ok(desk);
    }
    match desk.serve(0, &Request::Shut) {
        Ok(_) => Ok(desk),
        Err(DeskFault::NoMemory) => {
            drop(desk);
            Err(NoMemory)
        }
        Err(DeskFault::JournalFull) => unreachable!(),
    }
}

/// Why no requests are served, where the desk was not shared.
fn unshared(fault: ShareFault) -> ServeFault
    ensures { result ≡ unshared fault }
{
    let answer = match &fault {
        ShareFault::ClerkCount(_) => ServeFault::ClerkCount,
        ShareFault::NoMemory(_) => ServeFault::Script(ScriptFault::NoMemory),
    };
    drop(fault);
    answer
}

/// This many clerks serve the requests of a script on a shared desk of this election.
fn serve_all<T: Threads + Sync, G: Gate>(
    rt: &T,
    alloc: Global,
    election: Election,
    clerks: u32,
    work: &Work<'_, G>,
) -> Result<Desk, ServeFault>
    requires one_each { length work.now.lists.now ≡ clerks_within clerks }
    ensures opening { IfOk result (λ desk. desk.opening ≡ opening_of election) }
    ensures room { IfOk result (λ desk. desk.room ≡ program_room) }
    ensures serves { IfOk result (λ desk. ServesAll work.now.lists.now desk.journal) }
    ensures clerks { OnOk result (AreClerks clerks) }
    ensures err { IfErr result (IsServingFault clerks) }
{
    let Ok(desk) = Desk::start(alloc, election, ROOM) else {
        return Err(ServeFault::Script(ScriptFault::NoMemory));
    };
    let (shared, fresh) = match SharedDesk::share(alloc, desk, clerks) {
        Ok(both) => both,
        Err(fault) => return Err(unshared(fault)),
    };
    Ok(serve_shared(rt, alloc, shared, fresh, work)?)
}

/// The text of a desk's journal, and its entries.
fn written(alloc: Global, desk: Desk) -> Result<ServedScript, NoMemory>
    ensures legal { IfOk result (λ served. IsLegal desk.opening desk.journal) }
    ensures fits { IfOk result (λ served. length desk.journal ≤ desk.room) }
    ensures text { IfOk result (λ served. served.text.items ≡ journal_text desk.opening.version desk.journal) }
    ensures counts { IfOk result (λ served. served.counts.counts ≡ counts_of desk.journal) }
{
    let text = desk.journal_text(alloc);
    let counts = EntryCounts::of(&desk, 0);
    drop(desk);
    match text {
        Ok(text) => Ok(ServedScript { text, counts }),
        Err(_) => Err(NoMemory),
    }
}

/// Serves the records of a script, none of which was read, as `serve_admitted` does. Where it blames the
/// reader, the reader has failed.
pub fn serve_records<T: Threads + Sync, S: Read, G: Gate, N: Notice>(
    rt: &T,
    alloc: Global,
    election: Election,
    records: &mut Records<S>,
    run: &ScriptRun<'_, G, N>,
) -> Result<ServedScript, ServeFault>
    ensures ok { IfOk result (λ served. IfSome records.old.left (λ rows.
        IsServed run.now.admission.now election run.now.clerks run.now.shuts rows served.text.items)) }
    ensures counts { IfOk result (λ served. (journal : List EntryView)
        × (served.text.items ≡ journal_text Two journal) × (served.counts.counts ≡ counts_of journal)) }
    ensures fault { IfErr result (λ fault. IfSome records.old.left (λ rows.
        IsServeFault run.now.admission.now run.now.clerks rows fault)) }
    ensures blame { (row : ℕ) → IsErrOf result (ServeFault.Script (ScriptFault.ReadFailed row)) →
        records.new.fault ≡ Some RecordsFault.ReadFailed }
{
    let lists = match read_lists(alloc, records, run) {
        Ok(lists) => lists,
        Err(fault) => {
            drop(election);
            return Err(ServeFault::Script(fault));
        }
    };
    let work = Work {
        lists: lists.as_slice(),
        gate: run.gate,
    };
    let served = serve_all(rt, alloc, election, run.clerks, &work);
    drop(lists);
    let desk = ended(served?, run.shuts)?;
    Ok(written(alloc, desk)?)
}

/// Reads a script, serves the requests that are admitted on a shared desk of this election, and makes the
/// text of its journal.
///
/// Each clerk serves its own rows in their order, by at most 100,000 tries of the lock for each. One who
/// finds the desk busy all that time stops; what the clerks leave over is served after all of them have
/// stopped, clerks in rising number. Where the run `shuts` the desk, clerk 0 asks for that in one last entry,
/// after all of these. Before the first try of a row the gate is called with the clerk's number and the row's
/// place among the clerk's own rows, from 0.
///
/// A row that is refused refuses the script, and is told to `notice`. The script is refused before the number
/// of clerks.
pub fn serve_admitted<T: Threads + Sync, S: Read + Drop, G: Gate, N: Notice>(
    rt: &T,
    alloc: Global,
    election: Election,
    script: S,
    run: &ScriptRun<'_, G, N>,
) -> Result<ServedScript, ServeFault>
    // Where the script's bytes are known, the text is that of a journal that they and the number of clerks
    // allow,
    ensures ok { IfOk result (λ served. IfSome (S.remaining script) (λ bytes.
        IsServed run.now.admission.now election run.now.clerks run.now.shuts
        (records_of bytes) served.text.items)) }

    // the counts are those of the journal's entries,
    ensures counts { IfOk result (λ served. (journal : List EntryView)
        × (served.text.items ≡ journal_text Two journal) × (served.counts.counts ≡ counts_of journal)) }

    // and they decide which fault comes.
    ensures fault { IfErr result (λ fault. IfSome (S.remaining script) (λ bytes.
        IsServeFault run.now.admission.now run.now.clerks (records_of bytes) fault)) }
{
    let mut records = Records::new(alloc, script);
    let served = serve_records(rt, alloc, election, &mut records, run);
    drop(records);
    served
}
