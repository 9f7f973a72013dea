//! Audits as the library shows them: the room, a reader that fails, and what an audited desk says and
//! answers. Which journals are accepted, and the faults of the others, the cases of `crates/pb_app` show.

use crate::checks::same;
use crate::elections::{add_limit, shown, three_voters};
use crate::serving::{Row, asks, has_text};
use pb_core::answer::Answer;
use pb_core::devices::FailsAfter;
use pb_core::election::Election;
use pb_desk::{AuditFault, AuditRefused, Desk, NoAuditWatch, Version, audit, audit_or_hand_back};
use std::alloc::Global;
use std::io::Read;
use std::process::Abort;

/// The journal of the five requests of one clerk for one voter.
const FIVE_ROWS: &str =
    "1;0;cast;ann;0;done\n2;0;cast;ann;1;already-cast\n3;0;replace;ann;0,1;done\n4;0;withdraw;ann;;done\n5;0;replace;ann;0;no-ballot\n";

/// How many entries the journal has that a reader gives, or its fault.
fn entries_of<R: Read + Drop>(
    rt: &impl Abort,
    alloc: Global,
    room: u32,
    reader: R,
) -> Result<u32, AuditFault> {
    let audited = audit(alloc, three_voters(rt, alloc), room, reader);
    let answer = match &audited {
        Ok(desk) => Ok(desk.entries()),
        Err(fault) => Err(*fault),
    };
    drop(audited);
    answer
}

/// Texts, the room, and what an audit answers.
const ROOMS: &[(&str, u32, Result<u32, AuditFault>)] = &[
    ("", 0, Ok(0)),
    (FIVE_ROWS, 10, Ok(5)),
    (FIVE_ROWS, 5, Ok(5)),
    (FIVE_ROWS, 4, Err(AuditFault::JournalFull(5))),
];

#[test]
fn a_journal_fits_the_room(rt: HostRuntime) {
    for (text, room, wanted) in ROOMS {
        let found = entries_of(&rt, rt.alloc(), *room, text.as_bytes());
        same(&rt, found, *wanted, text);
    }
}

/// What a reader gives before it fails, and the row at which that is told.
const FAILURES: &[(&str, u64)] = &[
    ("", 1),
    ("journ", 1),
    ("journal;2", 1),
    ("journal;2\n1;0;ca", 1),
    ("1;0;cast;ann;0;done\n2;0;ca", 2),
];

#[test]
fn a_failed_reader_is_named(rt: HostRuntime) {
    for (text, row) in FAILURES {
        let found = entries_of(&rt, rt.alloc(), 10, FailsAfter::new(text.as_bytes()));
        same(&rt, found, Err(AuditFault::ReadFailed(*row)), text);
    }
}

/// A cast of two places.
const LONG: &[Row] = &[Row("cast", "eve", &[0, 1], Answer::Done)];

/// The same, where one place is the limit.
const TOO_LONG: &[Row] = &[Row("cast", "eve", &[0, 1], Answer::TooLong)];

/// The answers of a desk whose limit is one place.
const AT_MOST_ONE: &str =
    "journal;2\n1;0;cast;ann;0,1;too-long\n2;0;cast;ann;0,5;unknown-place 5\n3;0;cast;v1;0,1;too-long\n4;0;cast;v1;0;already-cast\n";

/// A text that an audit accepts where the limit is one place, which version 1 does not know; what its desk
/// then has, and what it answers.
struct Accepted {
    text: &'static str,
    version: Version,
    entries: u32,
    written: &'static str,
    rows: &'static [Row],
}

const ACCEPTED: &[Accepted] = &[
    Accepted {
        text: "",
        version: Version::One,
        entries: 0,
        written: "",
        rows: LONG,
    },
    Accepted {
        text: FIVE_ROWS,
        version: Version::One,
        entries: 5,
        written: FIVE_ROWS,
        rows: LONG,
    },
    Accepted {
        text: "journal;2",
        version: Version::Two,
        entries: 0,
        written: "journal;2\n",
        rows: TOO_LONG,
    },
    Accepted {
        text: "\"journal\";2\n1;0;withdraw;v1;;done\n",
        version: Version::Two,
        entries: 1,
        written: "journal;2\n1;0;withdraw;v1;;done\n",
        rows: TOO_LONG,
    },
    Accepted {
        text: AT_MOST_ONE,
        version: Version::Two,
        entries: 4,
        written: AT_MOST_ONE,
        rows: TOO_LONG,
    },
];

/// The audited desk has what it should, and goes on to serve.
fn goes_on(rt: &impl Abort, alloc: Global, accepted: &Accepted) {
    let election = add_limit(three_voters(rt, alloc), Some(1));
    let audited = audit(alloc, election, 10, accepted.text.as_bytes());
    let mut desk = audited.expect(rt, "accepted");
    same(rt, desk.version(), accepted.version, "the version");
    same(rt, desk.entries(), accepted.entries, "the entries");
    has_text(rt, alloc, &desk, accepted.written);
    asks(rt, alloc, &mut desk, accepted.rows);
    drop(desk);
}

#[test]
fn an_audited_desk_goes_on(rt: HostRuntime) {
    for accepted in ACCEPTED {
        goes_on(&rt, rt.alloc(), accepted);
    }
}

/// A journal that withdraws a ballot.
const WITHDRAWN: &str = "1;0;withdraw;v1;;done\n";

/// The same, and a row more, whose answer is wrong.
const WITHDRAWN_TWICE: &str = "1;0;withdraw;v1;;done\n2;0;withdraw;v1;;done\n";

/// The three voters and their ballots, as `shown` shows them.
const AS_OPENED: &str = "10000;a,,3000;b,,6000;|v1 0;v2 0 1;v3 1;";

/// It is the election of the three voters.
fn is_as_opened(rt: &impl Abort, alloc: Global, election: &Election) {
    let found = shown(rt, alloc, election);
    same(rt, found.as_str(), AS_OPENED, "the election");
    drop(found);
}

/// The audit of a journal, which hands the election back where it refuses it.
fn handed_back(alloc: Global, election: Election, text: &str) -> Result<Desk, AuditRefused> {
    audit_or_hand_back(alloc, election, 10, text.as_bytes(), &mut NoAuditWatch)
}

#[test]
fn a_refused_audit_hands_the_election_back(rt: HostRuntime) {
    let election = three_voters(&rt, rt.alloc());
    let audited = handed_back(rt.alloc(), election, WITHDRAWN_TWICE);
    let AuditRefused { fault, election } = audited.err().expect(&rt, "refused");
    same(&rt, fault, AuditFault::WrongAnswer(2), WITHDRAWN_TWICE);
    is_as_opened(&rt, rt.alloc(), &election);
    drop(election);
}

#[test]
fn a_desk_hands_its_opening_back(rt: HostRuntime) {
    let election = three_voters(&rt, rt.alloc());
    let audited = handed_back(rt.alloc(), election, WITHDRAWN);
    let desk = audited.expect(&rt, "accepted");
    same(&rt, desk.ballots(), 2, WITHDRAWN);
    let election = desk.into_opening();
    is_as_opened(&rt, rt.alloc(), &election);
    drop(election);
}
