//! The one-clerk desk: its answers, its ballots and its journal's text.

use crate::checks::{same, shows};
use crate::elections::{add_limit, ballot, show_ballot, shown, three_voters, voter_id};
use pb_core::answer::Answer;
use pb_core::election::Election;
use pb_core::request::Request;
use pb_desk::{Desk, DeskFault, IntoFault};
use std::alloc::Global;
use std::process::Abort;

pub(crate) fn desk_with_room(rt: &impl Abort, alloc: Global, room: u32) -> Desk {
    Desk::start(alloc, three_voters(rt, alloc), room).expect(rt, "a desk")
}

/// What is asked by this word, for this voter and with these places.
pub(crate) fn request(
    rt: &impl Abort,
    alloc: Global,
    word: &str,
    id: &str,
    places: &[u32],
) -> Request {
    match word {
        "shut" => Request::Shut,
        "withdraw" => Request::Withdraw(voter_id(rt, alloc, id)),
        "cast" => Request::Cast(voter_id(rt, alloc, id), ballot(rt, alloc, places)),
        _ => Request::Replace(voter_id(rt, alloc, id), ballot(rt, alloc, places)),
    }
}

/// A word, a voter and places, and what is answered.
pub(crate) struct Row(
    pub(crate) &'static str,
    pub(crate) &'static str,
    pub(crate) &'static [u32],
    pub(crate) Answer,
);

/// The clerk asks this, and is answered so.
pub(crate) fn is_served(
    rt: &impl Abort,
    desk: &mut Desk,
    clerk: u32,
    request: &Request,
    said: Result<Answer, DeskFault>,
) {
    assert!(rt; clerk < 64);
    same(rt, desk.serve(clerk, request), said, "a request");
}

/// Clerk 0 asks each of these in turn, and gets these answers.
pub(crate) fn asks(rt: &impl Abort, alloc: Global, desk: &mut Desk, rows: &[Row]) {
    for Row(word, id, places, answer) in rows {
        let request = request(rt, alloc, word, id, places);
        is_served(rt, desk, 0, &request, Ok(*answer));
        drop(request);
    }
}

/// Clerk 0 asks this, and it is done.
pub(crate) fn is_done(rt: &impl Abort, desk: &mut Desk, request: Request) {
    is_served(rt, desk, 0, &request, Ok(Answer::Done));
    drop(request);
}

pub(crate) fn text_of(rt: &impl Abort, alloc: Global, desk: &Desk) -> Vec<u8> {
    let mut text = Vec::new(alloc);
    desk.write_journal(alloc, &mut text).expect(rt, "a journal");
    text
}

pub(crate) fn has_text(rt: &impl Abort, alloc: Global, desk: &Desk, wanted: &str) {
    let text = text_of(rt, alloc, desk);
    same(rt, text.as_slice(), wanted.as_bytes(), "a journal");
}

/// Shows the ballot at this place, which is its voter's.
fn show_ballot_at(rt: &impl Abort, text: &mut String, desk: &Desk, i: u32) {
    let (id, ballot) = desk.ballot_at(i).expect(rt, "a ballot");
    show_ballot(rt, text, id, ballot);
    let found = desk.ballot_of(id).expect(rt, "the same ballot");
    same(rt, found.places(), ballot.places(), "the same ballot");
}

/// The desk has these ballots, in this order.
pub(crate) fn has_ballots(rt: &impl Abort, alloc: Global, desk: &Desk, wanted: &str) {
    let mut text = String::new(alloc);
    for i in 0..desk.ballots() {
        show_ballot_at(rt, &mut text, desk, i);
    }
    same(rt, text.as_str(), wanted, "ballots");
}

/// Cast, cast again, replace.
const THREE: &[Row] = &[
    Row("cast", "ann", &[0], Answer::Done),
    Row("cast", "ann", &[1], Answer::AlreadyCast),
    Row("replace", "ann", &[0, 1], Answer::Done),
];

/// The same, then withdraw, and replace what is gone.
const FIVE: &[Row] = &[
    Row("cast", "ann", &[0], Answer::Done),
    Row("cast", "ann", &[1], Answer::AlreadyCast),
    Row("replace", "ann", &[0, 1], Answer::Done),
    Row("withdraw", "ann", &[], Answer::Done),
    Row("replace", "ann", &[0], Answer::NoBallot),
];

const AFTER_SHUT: &[Row] = &[
    Row("shut", "", &[], Answer::Done),
    Row("cast", "ann", &[0], Answer::DeskShut),
    Row("shut", "", &[], Answer::DeskShut),
];

/// The first unknown place is named.
const UNKNOWN: &[Row] = &[Row("cast", "ann", &[0, 2, 9], Answer::UnknownPlace(2))];

/// A withdrawal closes up.
const CLOSING_UP: &[Row] = &[
    Row("withdraw", "v1", &[], Answer::Done),
    Row("cast", "v1", &[1], Answer::Done),
    Row("replace", "v2", &[0], Answer::Done),
];

const WITHDRAWN: &[Row] = &[
    Row("withdraw", "v3", &[], Answer::Done),
    Row("shut", "", &[], Answer::Done),
];

const SHUT_TWICE: &[Row] = &[
    Row("shut", "", &[], Answer::Done),
    Row("shut", "", &[], Answer::DeskShut),
];

const MOVED: &[Row] = &[
    Row("withdraw", "v1", &[], Answer::Done),
    Row("cast", "v1", &[1], Answer::Done),
];

const MOVED_AND_SHUT: &[Row] = &[
    Row("withdraw", "v1", &[], Answer::Done),
    Row("cast", "v1", &[1], Answer::Done),
    Row("shut", "", &[], Answer::Done),
];

/// What is asked of a new desk of the three voters, and what it then has.
struct Served {
    /// The limit on a ballot's length.
    limit: Option<u32>,
    room: u32,
    rows: &'static [Row],
    ballots: &'static str,
    journal: &'static str,
    /// The election that a shut desk leaves.
    left: Option<&'static str>,
}

const SERVED: &[Served] = &[
    Served {
        limit: None,
        room: 10,
        rows: THREE,
        ballots: "v1 0;v2 0 1;v3 1;ann 0 1;",
        journal: "journal;2\n1;0;cast;ann;0;done\n2;0;cast;ann;1;already-cast\n3;0;replace;ann;0,1;done\n",
        left: None,
    },
    Served {
        limit: None,
        room: 10,
        rows: FIVE,
        ballots: "v1 0;v2 0 1;v3 1;",
        journal: "journal;2\n1;0;cast;ann;0;done\n2;0;cast;ann;1;already-cast\n3;0;replace;ann;0,1;done\n4;0;withdraw;ann;;done\n5;0;replace;ann;0;no-ballot\n",
        left: None,
    },
    Served {
        limit: None,
        room: 10,
        rows: AFTER_SHUT,
        ballots: "v1 0;v2 0 1;v3 1;",
        journal: "journal;2\n1;0;shut;;;done\n2;0;cast;ann;0;desk-shut\n3;0;shut;;;desk-shut\n",
        left: Some("10000;a,,3000;b,,6000;|v1 0;v2 0 1;v3 1;"),
    },
    Served {
        limit: None,
        room: 10,
        rows: UNKNOWN,
        ballots: "v1 0;v2 0 1;v3 1;",
        journal: "journal;2\n1;0;cast;ann;0,2,9;unknown-place 2\n",
        left: None,
    },
    Served {
        limit: None,
        room: 10,
        rows: CLOSING_UP,
        ballots: "v2 0;v3 1;v1 1;",
        journal: "journal;2\n1;0;withdraw;v1;;done\n2;0;cast;v1;1;done\n3;0;replace;v2;0;done\n",
        left: None,
    },
    Served {
        limit: None,
        room: 10,
        rows: WITHDRAWN,
        ballots: "v1 0;v2 0 1;",
        journal: "journal;2\n1;0;withdraw;v3;;done\n2;0;shut;;;done\n",
        left: Some("10000;a,,3000;b,,6000;|v1 0;v2 0 1;"),
    },
    Served {
        limit: None,
        room: 2,
        rows: SHUT_TWICE,
        ballots: "v1 0;v2 0 1;v3 1;",
        journal: "journal;2\n1;0;shut;;;done\n2;0;shut;;;desk-shut\n",
        left: Some("10000;a,,3000;b,,6000;|v1 0;v2 0 1;v3 1;"),
    },
    Served {
        limit: None,
        room: 10,
        rows: MOVED,
        ballots: "v2 0 1;v3 1;v1 1;",
        journal: "journal;2\n1;0;withdraw;v1;;done\n2;0;cast;v1;1;done\n",
        left: None,
    },
    Served {
        limit: Some(1),
        room: 10,
        rows: MOVED_AND_SHUT,
        ballots: "v2 0 1;v3 1;v1 1;",
        journal: "journal;2\n1;0;withdraw;v1;;done\n2;0;cast;v1;1;done\n3;0;shut;;;done\n",
        left: Some("10000;a,,3000;b,,6000;|v2 0 1;v3 1;v1 1;"),
    },
];

/// The answer of the entry with this number, if there is one.
fn answer_of(desk: &Desk, number: u32) -> Option<Answer> {
    match desk.entry(number) {
        Some(entry) => Some(entry.answer),
        None => None,
    }
}

/// The desk has an entry for each row and this room, its entries have the numbers from one, and where it is
/// full it serves nothing more.
fn has_entries(rt: &impl Abort, desk: &mut Desk, rows: &[Row], room: u32) {
    let entries = desk.entries();
    same(
        rt,
        (entries as usize, desk.room()),
        (rows.len(), room),
        "entries, room",
    );
    let last = rows.last().expect(rt, "a row").3;
    same(rt, answer_of(desk, 0), None, "before the first entry");
    same(rt, answer_of(desk, entries), Some(last), "the last entry");
    same(
        rt,
        answer_of(desk, entries.wrapping_add(1)),
        None,
        "after the last entry",
    );
    if entries == room {
        is_served(rt, desk, 0, &Request::Shut, Err(DeskFault::JournalFull));
        let taken = desk.take(0, Request::Shut);
        same(rt, taken, Err(DeskFault::JournalFull), "a request");
    }
}

/// The election that a desk leaves is this one, with this limit.
fn is_left(rt: &impl Abort, alloc: Global, election: Election, limit: Option<u32>, wanted: &str) {
    same(rt, election.max_length(), limit, "the limit");
    let text = shown(rt, alloc, &election);
    same(rt, text.as_str(), wanted, "the election");
    drop(election);
}

/// A desk that is not shut comes back with this journal.
fn comes_back(rt: &impl Abort, alloc: Global, fault: IntoFault, text: &str) {
    same(rt, fault.number(), 1, "not shut");
    shows(rt, alloc, &fault, "the desk is not shut");
    let desk = match fault {
        IntoFault::NotShut(desk) => desk,
        IntoFault::NoMemory(desk) => desk,
    };
    has_text(rt, alloc, &desk, text);
    drop(desk);
}

/// A desk that is shut leaves its election, and one that is not comes back as it was.
fn leaves(rt: &impl Abort, alloc: Global, desk: Desk, served: &Served) {
    same(rt, desk.is_shut(), served.left.is_some(), served.journal);
    match desk.into_election() {
        Ok(election) => {
            let left = served.left.expect(rt, "shut");
            is_left(rt, alloc, election, served.limit, left);
        }
        Err(fault) => comes_back(rt, alloc, fault, served.journal),
    }
}

fn serves(rt: &impl Abort, alloc: Global, served: &Served) {
    let election = add_limit(three_voters(rt, alloc), served.limit);
    let mut desk = Desk::start(alloc, election, served.room).expect(rt, "a desk");
    same(rt, desk.is_shut(), false, "a new desk");
    asks(rt, alloc, &mut desk, served.rows);
    has_entries(rt, &mut desk, served.rows, served.room);
    has_ballots(rt, alloc, &desk, served.ballots);
    has_text(rt, alloc, &desk, served.journal);
    leaves(rt, alloc, desk, served);
}

#[test]
fn serves_requests(rt: HostRuntime) {
    for served in SERVED {
        serves(&rt, rt.alloc(), served);
    }
}
