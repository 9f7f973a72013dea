//! Desks that serve: a refused call leaves the journal and every ballot as they were.

use crate::checks::{are, same};
use crate::elections::{id, one_voter};
use crate::walk::{Call, Heap, refused, walk};
use pb_core::{Answer, Ballot, Election, NoMemory, Request};
use pb_desk::{Desk, DeskFault, IntoFault, StartFault};
use std::process::Abort;

/// The calls whose allocations are refused.
enum DeskCall {
    Start,
    Cast,
    Replace,
    Withdraw,
    Unknown,
    Take,
    Leave,
}

impl Call for DeskCall {
    fn run<R: Abort>(&self, rt: &R, heap: Heap<'_>, nth: u64) -> Result<bool, NoMemory> {
        match self {
            DeskCall::Start => started(rt, heap, nth),
            DeskCall::Cast => served(rt, heap, nth, cast(rt, heap, 0), CAST),
            DeskCall::Replace => served(rt, heap, nth, replace(rt, heap), REPLACED),
            DeskCall::Withdraw => served(rt, heap, nth, withdraw(rt, heap), WITHDRAWN),
            DeskCall::Unknown => served(rt, heap, nth, cast(rt, heap, 9), UNKNOWN),
            DeskCall::Take => taken(rt, heap, nth),
            DeskCall::Leave => left(rt, heap, nth),
        }
    }
}

/// What a request is answered, and how many ballots there are then.
type Said = (Result<Answer, DeskFault>, u32);

const CAST: Said = (Ok(Answer::Done), 2);

const REPLACED: Said = (Ok(Answer::Done), 1);

const WITHDRAWN: Said = (Ok(Answer::Done), 0);

const UNKNOWN: Said = (Ok(Answer::UnknownPlace(9)), 1);

/// A ballot of ann's for this place.
fn cast<'a>(rt: &impl Abort, heap: Heap<'a>, place: u32) -> Request<Heap<'a>> {
    let ballot = Ballot::of(heap, &[place]).expect(rt, "memory");
    Request::Cast(id(rt, heap, "ann"), ballot)
}

fn replace<'a>(rt: &impl Abort, heap: Heap<'a>) -> Request<Heap<'a>> {
    let ballot = Ballot::of(heap, &[]).expect(rt, "memory");
    Request::Replace(id(rt, heap, "v1"), ballot)
}

fn withdraw<'a>(rt: &impl Abort, heap: Heap<'a>) -> Request<Heap<'a>> {
    Request::Withdraw(id(rt, heap, "v1"))
}

/// A desk opened on one voter, with room for two entries.
fn desk<'a>(rt: &impl Abort, heap: Heap<'a>) -> Desk<Heap<'a>> {
    starts(heap, one_voter(rt, heap)).ok().expect(rt, "a desk")
}

/// Opens a desk on this election.
fn starts<'a>(
    heap: Heap<'a>,
    election: Election<Heap<'a>>,
) -> Result<Desk<Heap<'a>>, StartFault<Heap<'a>>> {
    Desk::start(heap, election, 2)
}

/// Whether the desk is as it was opened: no entry, and one ballot, v1's for project 0.
fn is_as_opened(desk: &Desk<Heap<'_>>) -> bool {
    let has_its_ballot = match desk.ballot_at(0) {
        Some((voter, ballot)) => voter.text() == "v1" && are(ballot.places(), &[0]),
        None => false,
    };
    has_its_ballot && desk.ballots() == 1 && desk.entries() == 0 && !desk.is_shut()
}

/// Whether a desk is as it was opened.
fn opens(desk: Desk<Heap<'_>>) -> bool {
    let is_as_opened = is_as_opened(&desk);
    drop(desk);
    is_as_opened
}

fn started(rt: &impl Abort, heap: Heap<'_>, nth: u64) -> Result<bool, NoMemory> {
    let election = one_voter(rt, heap);
    heap.refuse(nth);
    match starts(heap, election) {
        Ok(desk) => Ok(opens(desk)),
        Err(StartFault::NoMemory(election)) => started_again(rt, heap, election),
    }
}

/// An election that was handed back opens a desk as ever.
fn started_again<'a>(
    rt: &impl Abort,
    heap: Heap<'a>,
    election: Election<Heap<'a>>,
) -> Result<bool, NoMemory> {
    refused(opens(starts(heap, election).ok().expect(rt, "a desk")))
}

/// The request is answered so; or memory is refused, and it is so when it is made again.
fn served<'a>(
    rt: &impl Abort,
    heap: Heap<'a>,
    nth: u64,
    request: Request<Heap<'a>>,
    wanted: Said,
) -> Result<bool, NoMemory> {
    let mut desk = desk(rt, heap);
    heap.refuse(nth);
    let answer = is_served(&mut desk, &request, wanted);
    drop(desk);
    drop(request);
    answer
}

/// Whether the desk answers so and has an entry; or memory is refused, the desk is as it was opened, and then
/// answers so.
fn is_served<'a>(
    desk: &mut Desk<Heap<'a>>,
    request: &Request<Heap<'a>>,
    wanted: Said,
) -> Result<bool, NoMemory> {
    let said = serves(desk, request);
    if said.0 == Err(DeskFault::NoMemory) {
        let was_as_opened = is_as_opened(desk);
        let again = serves(desk, request);
        return refused(was_as_opened && again == wanted);
    }
    Ok(said == wanted && desk.entries() == 1)
}

/// A ballot is cast by value; or memory is refused, the desk is as it was opened, and then takes another
/// request.
fn taken(rt: &impl Abort, heap: Heap<'_>, nth: u64) -> Result<bool, NoMemory> {
    let mut desk = desk(rt, heap);
    let request = cast(rt, heap, 0);
    heap.refuse(nth);
    let answer = desk.take(0, request);
    let is_as_ever = (answer, desk.ballots()) == CAST && desk.entries() == 1;
    let was_as_opened = is_as_opened(&desk);
    if answer == Err(DeskFault::NoMemory) {
        let again = desk.take(0, cast(rt, heap, 0));
        let said = (again, desk.ballots());
        drop(desk);
        return refused(was_as_opened && said == CAST);
    }
    drop(desk);
    Ok(is_as_ever)
}

/// What clerk 0 is answered.
fn serves<'a>(desk: &mut Desk<Heap<'a>>, request: &Request<Heap<'a>>) -> Said {
    let answer = desk.serve(0, request);
    (answer, desk.ballots())
}

/// The election of a desk that is shut.
fn leaves<'a>(desk: Desk<Heap<'a>>) -> Result<Election<Heap<'a>>, IntoFault<Heap<'a>>> {
    desk.into_election()
}

/// A desk with its one ballot, that is shut.
fn shut_desk<'a>(rt: &impl Abort, heap: Heap<'a>) -> Desk<Heap<'a>> {
    let mut desk = desk(rt, heap);
    same(
        rt,
        serves(&mut desk, &Request::Shut),
        (Ok(Answer::Done), 1),
        1,
    );
    desk
}

fn left(rt: &impl Abort, heap: Heap<'_>, nth: u64) -> Result<bool, NoMemory> {
    let desk = shut_desk(rt, heap);
    heap.refuse(nth);
    match leaves(desk) {
        Ok(election) => Ok(has_one_voter(election)),
        Err(fault) => left_again(fault),
    }
}

/// Whether the election has one voter.
fn has_one_voter(election: Election<Heap<'_>>) -> bool {
    let has_one = election.voters().len() == 1;
    drop(election);
    has_one
}

/// The desk that was handed back.
fn handed_back<'a>(fault: IntoFault<Heap<'a>>) -> Desk<Heap<'a>> {
    match fault {
        IntoFault::NotShut(desk) => desk,
        IntoFault::NoMemory(desk) => desk,
    }
}

/// Whether the desk leaves an election of one voter.
fn leaves_one_voter(desk: Desk<Heap<'_>>) -> bool {
    match leaves(desk) {
        Ok(election) => has_one_voter(election),
        Err(fault) => {
            drop(fault);
            false
        }
    }
}

/// A desk that was handed back, since memory was refused, still has its ballot and its entry, and then leaves
/// its election.
fn left_again(fault: IntoFault<Heap<'_>>) -> Result<bool, NoMemory> {
    let is_memory = fault.number() == 2;
    let desk = handed_back(fault);
    let is_whole = is_memory && desk.ballots() == 1 && desk.entries() == 1;
    let has_one = leaves_one_voter(desk);
    refused(is_whole && has_one)
}

const CALLS: &[DeskCall] = &[
    DeskCall::Start,
    DeskCall::Cast,
    DeskCall::Replace,
    DeskCall::Withdraw,
    DeskCall::Unknown,
    DeskCall::Take,
    DeskCall::Leave,
];

#[test]
fn calls_of_a_desk_end_or_it_stays_as_it_was(rt: HostRuntime) {
    for call in CALLS {
        walk(&rt, rt.alloc(), call);
    }
}
