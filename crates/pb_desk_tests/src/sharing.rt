//! The shared desk, on one thread. What the answers have to be is the one-clerk desk's table, worked by hand.

ghost use Rattle.std.specs.Prelude.{◌≡◌, ◌<◌, All};

use crate::checks::same;
use crate::elections::voter_id;
use crate::serving::{desk_with_room, has_text, is_served, request};
use pb_core::answer::Answer;
use pb_core::request::Request;
use pb_desk::desk::Desk;
use pb_shared::busy::Busy;
use pb_shared::clerk::Clerk;
use pb_shared::share_fault::ShareFault;
use pb_shared::shared_desk::SharedDesk;
use pb_shared::shared_fault::SharedFault;
use std::alloc::Global;
use std::process::Abort;
use std::sync::atomic::AtomicU32;
use std::sync::atomic::Ordering::SeqCst;

/// What a clerk is answered.
type Said = Result<Answer, SharedFault>;

/// The desk, shared among these clerks.
fn share(rt: &impl Abort, alloc: Global, desk: Desk, clerks: u32) -> (SharedDesk, Vec<Clerk>)
    ensures { All (λ clerk. clerk.desk ≡ result.0) result.1.items }
{
    SharedDesk::share(alloc, desk, clerks).expect(rt, "shared")
}

/// What the clerk is answered, by one try or by this many.
fn serve(
    rt: &impl Abort,
    shared: &SharedDesk,
    clerk: &mut Clerk,
    request: &Request,
    tries: u32,
) -> Said
    requires { clerk.old.desk ≡ shared.now }
    ensures { clerk.new.desk ≡ shared.now }
{
    if tries == 1 {
        return shared.serve(clerk, request);
    }
    assert!(rt; 0 < tries);
    shared.serve_within(clerk, request, tries)
}

/// The last clerk of the list.
fn last_of(rt: &impl Abort, shared: &SharedDesk, clerks: &mut Vec<Clerk>) -> Clerk
    requires { All (λ clerk. clerk.desk ≡ shared.now) clerks.old.items }
    ensures clerk { result.desk ≡ shared.now }
    ensures left { All (λ clerk. clerk.desk ≡ shared.now) clerks.new.items }
{
    let _ = shared;
    clerks.pop().expect(rt, "a clerk")
}

/// Takes these clerks back, and the desk has this text as its journal.
fn finishes(
    rt: &impl Abort,
    alloc: Global,
    shared: SharedDesk,
    clerks: Vec<Clerk>,
    text: &str,
) -> Desk
    requires { All (λ clerk. clerk.desk ≡ shared) clerks.items }
{
    let desk = shared.finish(clerks).expect(rt, "a desk");
    has_text(rt, alloc, &desk, text);
    desk
}

/// A word, a voter and places, by how many tries, and what is answered.
struct Row(&'static str, &'static str, &'static [u32], u32, Said);

/// The clerk asks this, and is answered so.
fn asks(rt: &impl Abort, alloc: Global, shared: &SharedDesk, clerk: &mut Clerk, row: &Row)
    requires { clerk.old.desk ≡ shared.now }
    ensures { clerk.new.desk ≡ shared.now }
{
    let Row(word, id, places, tries, said) = row;
    let request = request(rt, alloc, word, id, places);
    same(rt, serve(rt, shared, clerk, &request, *tries), *said, word);
    drop(request);
}

/// The number of a clerk, and what that clerk asks.
#[derive(Drop)]
struct Step<'a>(usize, &'a Row);

/// The clerk with this number asks this.
fn asks_by(
    rt: &impl Abort,
    alloc: Global,
    shared: &SharedDesk,
    clerks: &mut Vec<Clerk>,
    step: &Step,
)
    requires { All (λ clerk. clerk.desk ≡ shared.now) clerks.old.items }
    ensures { All (λ clerk. clerk.desk ≡ shared.now) clerks.new.items }
{
    let Step(number, row) = step;
    assert!(rt; *number < clerks.len());
    asks(rt, alloc, shared, &mut clerks[*number], row);
}

/// The clerk with this number reads this many entries from the front word.
fn reads(rt: &impl Abort, shared: &SharedDesk, clerks: &mut Vec<Clerk>, number: usize, entries: u32)
    requires { All (λ clerk. clerk.desk ≡ shared.now) clerks.old.items }
    ensures { All (λ clerk. clerk.desk ≡ shared.now) clerks.new.items }
{
    assert!(rt; number < clerks.len());
    let front = shared.front(&mut clerks[number]);
    same(rt, front, entries, "the front word");
}

/// The clerks ask in turn.
fn ask_in_turn(
    rt: &impl Abort,
    alloc: Global,
    shared: &SharedDesk,
    clerks: &mut Vec<Clerk>,
    steps: &[Step],
)
    requires { All (λ clerk. clerk.desk ≡ shared.now) clerks.old.items }
    ensures { All (λ clerk. clerk.desk ≡ shared.now) clerks.new.items }
{
    for step in steps {
        asks_by(rt, alloc, shared, clerks, step);
    }
}

/// What a request is answered where the journal is full.
const IS_FULL: Said = Err(SharedFault::JournalFull);

const CAST_ANN: Row = Row("cast", "ann", &[0], 1, Ok(Answer::Done));

const CAST_BOB: Row = Row("cast", "bob", &[0], 1, Ok(Answer::Done));

const REPLACE_ANN: Row = Row("replace", "ann", &[1], 1, Ok(Answer::Done));

const SHUT: Row = Row("shut", "", &[], 1, Ok(Answer::Done));

const SHUT_AGAIN: Row = Row("shut", "", &[], 1, Ok(Answer::DeskShut));

const FIVE: &[Step<'static>] = &[
    Step(0, &CAST_ANN),
    Step(0, &Row("cast", "ann", &[1], 1, Ok(Answer::AlreadyCast))),
    Step(0, &Row("replace", "ann", &[0, 1], 1, Ok(Answer::Done))),
    Step(0, &Row("withdraw", "ann", &[], 1, Ok(Answer::Done))),
    Step(0, &Row("replace", "ann", &[0], 1, Ok(Answer::NoBallot))),
];

const AFTER_SHUT: &[Step<'static>] = &[
    Step(0, &SHUT),
    Step(0, &Row("cast", "ann", &[0], 1, Ok(Answer::DeskShut))),
    Step(0, &SHUT_AGAIN),
];

const FULL: &[Step<'static>] = &[
    Step(0, &SHUT),
    Step(0, &SHUT_AGAIN),
    Step(0, &Row("shut", "", &[], 1, IS_FULL)),
];

const UNKNOWN: &[Step<'static>] = &[Step(
    0,
    &Row("cast", "ann", &[0, 2, 9], 1, Ok(Answer::UnknownPlace(2))),
)];

/// Two clerks fill a journal of two entries. Neither is then served, by one try or by more.
const FILLED: &[Step<'static>] = &[
    Step(0, &SHUT),
    Step(1, &SHUT_AGAIN),
    Step(1, &Row("shut", "", &[], 1, IS_FULL)),
    Step(0, &Row("shut", "", &[], 3, IS_FULL)),
];

/// A full journal is told to whoever asks, and the lock is free after it.
const NO_ROOM: &[Step<'static>] = &[
    Step(0, &CAST_ANN),
    Step(1, &Row("cast", "bob", &[0], 1, IS_FULL)),
    Step(1, &Row("withdraw", "ann", &[], 1, IS_FULL)),
    Step(0, &Row("cast", "bob", &[0], 1, IS_FULL)),
    Step(0, &Row("withdraw", "ann", &[], 1, IS_FULL)),
];

/// The room of a desk, what two clerks ask, the number of entries that each then reads from the front word,
/// and the journal.
struct Served(u32, &'static [Step<'static>], u32, &'static str);

const SERVED: &[Served] = &[
    Served(
        10,
        FIVE,
        5,
        "journal;2\n1;0;cast;ann;0;done\n2;0;cast;ann;1;already-cast\n3;0;replace;ann;0,1;done\n4;0;withdraw;ann;;done\n5;0;replace;ann;0;no-ballot\n",
    ),
    Served(
        10,
        AFTER_SHUT,
        3,
        "journal;2\n1;0;shut;;;done\n2;0;cast;ann;0;desk-shut\n3;0;shut;;;desk-shut\n",
    ),
    Served(
        2,
        FULL,
        2,
        "journal;2\n1;0;shut;;;done\n2;0;shut;;;desk-shut\n",
    ),
    Served(
        10,
        UNKNOWN,
        1,
        "journal;2\n1;0;cast;ann;0,2,9;unknown-place 2\n",
    ),
    Served(
        2,
        FILLED,
        2,
        "journal;2\n1;0;shut;;;done\n2;1;shut;;;desk-shut\n",
    ),
    Served(1, NO_ROOM, 1, "journal;2\n1;0;cast;ann;0;done\n"),
];

/// Two clerks of a new desk ask in turn, and are then handed back.
fn serves(rt: &impl Abort, alloc: Global, served: &Served) {
    let Served(room, steps, entries, text) = served;
    let (shared, mut clerks) = share(rt, alloc, desk_with_room(rt, alloc, *room), 2);
    ask_in_turn(rt, alloc, &shared, &mut clerks, steps);
    reads(rt, &shared, &mut clerks, 0, *entries);
    reads(rt, &shared, &mut clerks, 1, *entries);
    drop(finishes(rt, alloc, shared, clerks, text));
}

#[test]
fn clerks_are_served_as_by_the_desk(rt: HostRuntime) {
    for served in SERVED {
        serves(&rt, rt.alloc(), served);
    }
}

/// One try, and then five for another voter, while clerk 0 has the desk.
const TURNED_AWAY: [Row; 2] = [
    Row("cast", "ann", &[0], 1, Err(SharedFault::Busy(0))),
    Row("cast", "bob", &[1], 5, Err(SharedFault::Busy(0))),
];

/// The same, afterwards.
const NOT_TURNED_AWAY: [Row; 2] = [
    Row("cast", "ann", &[0], 1, Ok(Answer::Done)),
    Row("cast", "bob", &[1], 5, Ok(Answer::Done)),
];

/// The clerk asks both.
fn tries(rt: &impl Abort, alloc: Global, shared: &SharedDesk, clerk: &mut Clerk, rows: &[Row; 2])
    requires { clerk.old.desk ≡ shared.now }
    ensures { clerk.new.desk ≡ shared.now }
{
    asks(rt, alloc, shared, clerk, &rows[0]);
    asks(rt, alloc, shared, clerk, &rows[1]);
}

/// While clerk 0 has the desk, the clerk's look is turned away, and nothing is lent.
fn looks_in_vain(rt: &impl Abort, shared: &SharedDesk, clerk: &mut Clerk)
    requires { clerk.old.desk ≡ shared.now }
    ensures { clerk.new.desk ≡ shared.now }
{
    let called = AtomicU32::new(0);
    let looked = shared.look(clerk, |_desk| called.fetch_add(1, SeqCst));
    same(rt, looked, Err(Busy(0)), "a look");
    same(rt, called.load(SeqCst), 0, "a look that is turned away");
}

/// While clerk 0 has the desk, this clerk is turned away, and nothing is appended.
fn is_turned_away(
    rt: &impl Abort,
    alloc: Global,
    shared: &SharedDesk,
    desk: &Desk,
    other: Clerk,
) -> Clerk
    requires { other.desk ≡ shared.now }
    ensures { result.desk ≡ shared.now }
{
    let mut other = other;
    tries(rt, alloc, shared, &mut other, &TURNED_AWAY);
    looks_in_vain(rt, shared, &mut other);
    same(rt, desk.entries(), 0, "entries while a clerk looks");
    other
}

/// Clerk 0 looks, while the other is turned away.
fn looks(
    rt: &impl Abort,
    alloc: Global,
    shared: &SharedDesk,
    clerks: &mut Vec<Clerk>,
    other: Clerk,
) -> Clerk
    requires clerks { All (λ clerk. clerk.desk ≡ shared.now) clerks.old.items }
    requires other { other.desk ≡ shared.now }
    ensures clerks { All (λ clerk. clerk.desk ≡ shared.now) clerks.new.items }
    ensures other { result.desk ≡ shared.now }
{
    assert!(rt; 0 < clerks.len());
    let clerk = &mut clerks[0];
    let looked = shared.look(clerk, |desk| is_turned_away(rt, alloc, shared, desk, other));
    looked.expect(rt, "the lock")
}

/// While one clerk looks, another is turned away. Afterwards it is served.
#[test]
fn a_clerk_who_looks_turns_others_away(rt: HostRuntime) {
    let alloc = rt.alloc();
    let (shared, mut clerks) = share(&rt, alloc, desk_with_room(&rt, alloc, 10), 2);
    let other = last_of(&rt, &shared, &mut clerks);
    let mut other = looks(&rt, alloc, &shared, &mut clerks, other);
    tries(&rt, alloc, &shared, &mut other, &NOT_TURNED_AWAY);
    drop(other);
    let text = "journal;2\n1;1;cast;ann;0;done\n2;1;cast;bob;1;done\n";
    drop(finishes(&rt, alloc, shared, clerks, text));
}

/// A look of clerk 0 that answers the desk's room as an error.
fn looks_at_the_room(rt: &impl Abort, shared: &SharedDesk, clerks: &mut Vec<Clerk>, room: u32)
    requires { All (λ clerk. clerk.desk ≡ shared.now) clerks.old.items }
    ensures { All (λ clerk. clerk.desk ≡ shared.now) clerks.new.items }
{
    assert!(rt; 0 < clerks.len());
    let clerk = &mut clerks[0];
    let looked: Result<Result<(), u32>, Busy> = shared.look(clerk, |desk| Err(desk.room()));
    same(rt, looked, Ok(Err(room)), "a look");
}

/// Clerk 0 meets a note of clerk 1. Another note is dropped.
fn a_note_is_met(rt: &impl Abort, shared: &SharedDesk, clerks: &mut Vec<Clerk>)
    requires { All (λ clerk. clerk.desk ≡ shared.now) clerks.old.items }
    ensures { All (λ clerk. clerk.desk ≡ shared.now) clerks.new.items }
{
    assert!(rt; 1 < clerks.len());
    let note = shared.note(&mut clerks[1]);
    shared.meet(&mut clerks[0], note);
    drop(shared.note(&mut clerks[1]));
}

/// A note that another clerk meets takes nothing away, and one that nobody met may be dropped. A look that
/// answers an error leaves the lock free.
#[test]
fn a_note_may_be_met_or_dropped(rt: HostRuntime) {
    let alloc = rt.alloc();
    let (shared, mut clerks) = share(&rt, alloc, desk_with_room(&rt, alloc, 10), 2);
    looks_at_the_room(&rt, &shared, &mut clerks, 10);
    asks_by(&rt, alloc, &shared, &mut clerks, &Step(1, &CAST_ANN));
    a_note_is_met(&rt, &shared, &mut clerks);
    reads(&rt, &shared, &mut clerks, 0, 1);
    asks_by(&rt, alloc, &shared, &mut clerks, &Step(0, &CAST_BOB));
    drop(clerks);
    let text = "journal;2\n1;1;cast;ann;0;done\n2;0;cast;bob;0;done\n";
    drop(finishes(&rt, alloc, shared, Vec::new(alloc), text));
}

/// The number of entries, and whether ann's ballot has place 1 alone.
fn seen_of(rt: &impl Abort, alloc: Global, desk: &Desk) -> (u32, bool) {
    let ann = voter_id(rt, alloc, "ann");
    let ballot = desk.ballot_of(&ann).expect(rt, "a ballot");
    (desk.entries(), ballot.places() == [1].as_slice())
}

/// Clerk 0 sees two entries, and the ballot with place 1 that ann has.
fn looks_at_ann(rt: &impl Abort, alloc: Global, shared: &SharedDesk, clerks: &mut Vec<Clerk>)
    requires { All (λ clerk. clerk.desk ≡ shared.now) clerks.old.items }
    ensures { All (λ clerk. clerk.desk ≡ shared.now) clerks.new.items }
{
    assert!(rt; 0 < clerks.len());
    let looked = shared.look(&mut clerks[0], |desk| seen_of(rt, alloc, desk));
    same(rt, looked, Ok((2, true)), "what is seen");
}

/// The clerks have the numbers from 0.
fn are_numbered(rt: &impl Abort, clerks: &[Clerk]) {
    for (i, clerk) in clerks.iter().enumerate() {
        same(rt, clerk.number() as usize, i, "a number");
    }
}

/// What nobody's ballot needs: it is answered all the same, by one try or by three.
const ALONE: [Row; 2] = [
    Row("withdraw", "ann", &[], 1, Ok(Answer::NoBallot)),
    Row("withdraw", "ann", &[], 3, Ok(Answer::NoBallot)),
];

/// Each clerk is served twice while nobody else asks.
fn each_asks(rt: &impl Abort, alloc: Global, shared: &SharedDesk, clerks: &mut Vec<Clerk>)
    requires { All (λ clerk. clerk.desk ≡ shared.now) clerks.old.items }
    ensures { All (λ clerk. clerk.desk ≡ shared.now) clerks.new.items }
{
    let mut entries = 0u32;
    for number in 0..64 {
        asks_by(rt, alloc, shared, clerks, &Step(number, &ALONE[0]));
        asks_by(rt, alloc, shared, clerks, &Step(number, &ALONE[1]));
        entries = entries.saturating_add(2);
        reads(rt, shared, clerks, number, entries);
    }
}

/// Each of 64 clerks is served alone. Whoever reads the front word again reads what another has served since.
#[test]
fn each_clerk_is_served_alone(rt: HostRuntime) {
    let alloc = rt.alloc();
    let (shared, mut clerks) = share(&rt, alloc, desk_with_room(&rt, alloc, 1000), 64);
    each_asks(&rt, alloc, &shared, &mut clerks);
    reads(&rt, &shared, &mut clerks, 5, 128);
    asks_by(&rt, alloc, &shared, &mut clerks, &Step(9, &CAST_ANN));
    reads(&rt, &shared, &mut clerks, 5, 129);
    reads(&rt, &shared, &mut clerks, 5, 129);
    drop(clerks);
    drop(shared);
}

/// What one clerk wrote another reads, by the desk and by the front word, also one that has made no call
/// before.
#[test]
fn clerks_read_what_others_wrote(rt: HostRuntime) {
    let alloc = rt.alloc();
    let (shared, mut clerks) = share(&rt, alloc, desk_with_room(&rt, alloc, 10), 3);
    are_numbered(&rt, clerks.as_slice());
    asks_by(&rt, alloc, &shared, &mut clerks, &Step(0, &CAST_ANN));
    asks_by(&rt, alloc, &shared, &mut clerks, &Step(1, &REPLACE_ANN));
    looks_at_ann(&rt, alloc, &shared, &mut clerks);
    reads(&rt, &shared, &mut clerks, 0, 2);
    reads(&rt, &shared, &mut clerks, 2, 2);
    drop(clerks);
    drop(shared);
}

/// A desk on which clerk 5 has served one request.
fn desk_in_use(rt: &impl Abort, alloc: Global) -> Desk {
    let mut desk = desk_with_room(rt, alloc, 10);
    let ann = request(rt, alloc, "cast", "ann", &[0]);
    is_served(rt, &mut desk, 5, &ann, Ok(Answer::Done));
    drop(ann);
    desk
}

/// The desk that a call to share it with a wrong number of clerks hands back.
fn handed_back(rt: &impl Abort, fault: ShareFault) -> Desk {
    same(rt, fault.number(), 1, "a fault");
    match fault {
        ShareFault::ClerkCount(desk) => desk,
        ShareFault::NoMemory(desk) => desk,
    }
}

/// The desk can't be shared among this many clerks, and comes back with its entry.
fn is_not_shared(rt: &impl Abort, alloc: Global, desk: Desk, clerks: u32) -> Desk {
    let shared = SharedDesk::share(alloc, desk, clerks);
    let desk = handed_back(rt, shared.err().expect(rt, "a fault"));
    same(rt, desk.entries(), 1, "a desk handed back");
    desk
}

/// A desk is shared among 1 to 64. Clerks need not be handed back: where none holds the lock, `finish` gives
/// the desk. It isn't shut.
#[test]
fn a_desk_comes_back_without_its_clerks(rt: HostRuntime) {
    let alloc = rt.alloc();
    let desk = is_not_shared(&rt, alloc, desk_in_use(&rt, alloc), 0);
    let desk = is_not_shared(&rt, alloc, desk, 65);
    let (shared, clerks) = share(&rt, alloc, desk, 64);
    drop(clerks);
    let text = "journal;2\n1;5;cast;ann;0;done\n";
    let desk = finishes(&rt, alloc, shared, Vec::new(alloc), text);
    let fault = desk.into_election().err().expect(&rt, "a fault");
    same(&rt, fault.number(), 1, "not shut");
    drop(fault);
}

/// The desk leaves an election of this many voters.
fn leaves_voters(rt: &impl Abort, desk: Desk, voters: usize) {
    let election = desk.into_election().expect(rt, "an election");
    same(rt, election.voters().len(), voters, "voters");
    drop(election);
}

/// A desk that clerks have shut gives its election.
#[test]
fn a_shut_desk_comes_back(rt: HostRuntime) {
    let alloc = rt.alloc();
    let (shared, mut clerks) = share(&rt, alloc, desk_in_use(&rt, alloc), 1);
    asks_by(&rt, alloc, &shared, &mut clerks, &Step(0, &SHUT));
    let text = "journal;2\n1;5;cast;ann;0;done\n2;0;shut;;;done\n";
    leaves_voters(&rt, finishes(&rt, alloc, shared, clerks, text), 4);
}
