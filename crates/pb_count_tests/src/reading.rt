//! Files as the library shows them: names and limits. What else a file may say, its faults, and the largest files, the
//! cases of `crates/pb_app` show.

use crate::checks::{same, tells};
use crate::elections::{read, shown};
use pb_core::election::Election;
use pb_read::{ReadFault, ReadKind, read_pb};
use std::alloc::Global;
use std::process::Abort;

/// What the reader answered: the election, or the fault's number and record.
fn said(rt: &impl Abort, alloc: Global, answer: &Result<Election, ReadFault>) -> String {
    match answer {
        Ok(election) => shown(rt, alloc, election),
        Err(fault) => { format!(in alloc; "{} {}", fault.number(), fault.at).expect(rt, "memory") }
    }
}

/// The reader answers so to this file.
fn answers(rt: &impl Abort, alloc: Global, file: &str, wanted: &str) {
    let answer = read_pb(alloc, file.as_bytes());
    let said = said(rt, alloc, &answer);
    same(rt, said.as_str(), wanted, "a file");
    drop(said);
    drop(answer);
}

/// A file as a city publishes it.
const CITY: &str =
    "\u{feff}META\r\nkey;value\r\nbudget;5000,00\r\nvote_type;approval\r\nPROJECTS\r\nname;cost;project_id\r\n\"Park; north\";\"1200,50\";a\r\nLibrary;300;b\r\nVOTES\r\nvote;age;voter_id\r\n\"b,a,b\";34;v1\r\n";

/// Columns in any order, quotes, fields that nothing names, and no line end at the end.
const COLUMNS: &str =
    "META\nk;v\nbudget;3\nvote_type;approval\nPROJECTS\nname;project_id;cost\n\"x;\n\"\"y\"\"\";c;1,20\n; a,b ;2\n x ;d;3\nVOTES\nage;vote;x;voter_id\n3;\"d,c\";;w\n4;;;\"1\"\"2\"";

/// A budget of nothing, the largest cost, a project that no vote can name, and ballots that approve nothing.
const RARE: &str =
    "META\nkey;value\nbudget;0\nvote_type;approval\nPROJECTS\nproject_id;cost\na;10000000000000.00\nb;60\n\"x,y\";7\nc;8\nVOTES\nvoter_id;vote\nv1;a\nv2;\nv3;b,c\nv4;\" , \"\n";

/// A column that is not the name, though it is one elsewhere; then rows that end before the name, and after
/// it.
const TITLES: &str =
    "META\nk;v\nbudget;1\nvote_type;approval\nPROJECTS\nproject_id;cost;title\na;1;A\nVOTES\nvoter_id;vote\nv;a\n";

const SHORT: &str =
    "META\nk;v\nbudget;1\nvote_type;approval\nPROJECTS\nproject_id;cost;Name\na;1\nb;2;\nc;3; C ;D\nVOTES\nvoter_id;vote\nv;a\n";

/// Files, and the election of each.
const FILES: &[(&str, &str)] = &[
    (CITY, "500000;a,Park; north,120050;b,Library,30000;|v1 0 1;"),
    (COLUMNS, "300;c,x;\n\"y\",120;a,b,,200;d,x,300;|w 0 2;1\"2;"),
    (
        RARE,
        "0;a,,1000000000000000;b,,6000;x,y,,700;c,,800;|v1 0;v2;v3 1 3;v4;",
    ),
    (TITLES, "100;a,,100;|v 0;"),
    (SHORT, "100;a,,100;b,,200;c,C,300;|v 0;"),
];

#[test]
fn reads_whole_elections(rt: HostRuntime) {
    for (file, wanted) in FILES {
        answers(&rt, rt.alloc(), file, wanted);
    }
}

/// Values of max_length, and the limit.
const LIMITS: &[(&str, Option<u32>)] = &[
    ("2", Some(2)),
    ("2.0", Some(2)),
    ("2,00", Some(2)),
    ("007.0", Some(7)),
    ("0", Some(0)),
    (" 1 ", Some(1)),
    ("10000", Some(10_000)),
    ("10000,000", Some(10_000)),
    ("", None),
    ("10001", None),
    ("99999999999999999999", None),
    ("99999999999999999999.0", None),
    ("two\nmax_length;3", Some(3)),
    ("3\nMAX_Length", None),
    ("3\nmax_lengths;1", Some(3)),
];

#[test]
fn reads_the_limit_on_a_ballot(rt: HostRuntime) {
    for (value, wanted) in LIMITS {
        let file = format!(in rt.alloc();
            "META\nk;v\nbudget;1\nvote_type;approval\nmax_length;{value}\nPROJECTS\nproject_id;cost\nVOTES\nvoter_id;vote\n"
        ).expect(&rt, "memory");
        let election = read(&rt, rt.alloc(), file.as_str());
        same(&rt, election.max_length(), *wanted, value);
        drop(election);
        drop(file);
    }
}

/// A text and this many lines more: before the number, from 0, and after it.
fn with_lines(
    rt: &impl Abort,
    alloc: Global,
    text: &str,
    lines: u32,
    ends: (&str, &str),
) -> String {
    let mut whole = String::from_str(alloc, text).expect(rt, "memory");
    let (before, after) = ends;
    for i in 0..lines {
        write!(whole, "{before}{i}{after}").expect(rt, "memory");
    }
    whole
}

/// The kinds, and what a fault of each at record 7 says of itself.
const KINDS: &[(ReadKind, &str)] = &[
    (
        ReadKind::ReadFailed,
        "1 ReadFailed: record 7: the reader failed",
    ),
    (
        ReadKind::NotText,
        "2 NotText: record 7: a field is not UTF-8",
    ),
    (
        ReadKind::TooManyRecords,
        "3 TooManyRecords: record 7: too many records",
    ),
    (
        ReadKind::NoSection,
        "4 NoSection: record 7: a section is missing",
    ),
    (
        ReadKind::SectionOrder,
        "5 SectionOrder: record 7: a section out of order",
    ),
    (
        ReadKind::NoHeader,
        "6 NoHeader: record 7: a section has no header row",
    ),
    (
        ReadKind::MissingColumn,
        "7 MissingColumn: record 7: a needed column is missing",
    ),
    (
        ReadKind::MissingField,
        "8 MissingField: record 7: a needed field is missing",
    ),
    (
        ReadKind::MissingKey,
        "9 MissingKey: record 7: a needed key of META is missing",
    ),
    (
        ReadKind::VoteType,
        "10 VoteType: record 7: the vote type is not approval",
    ),
    (
        ReadKind::BadMoney,
        "11 BadMoney: record 7: an amount is malformed",
    ),
    (
        ReadKind::MoneyTooFine,
        "12 MoneyTooFine: record 7: an amount is finer than a hundredth",
    ),
    (
        ReadKind::MoneyTooLarge,
        "13 MoneyTooLarge: record 7: an amount is too large",
    ),
    (
        ReadKind::ZeroCost,
        "14 ZeroCost: record 7: a project costs nothing",
    ),
    (ReadKind::EmptyId, "15 EmptyId: record 7: an id is empty"),
    (
        ReadKind::RepeatedProject,
        "16 RepeatedProject: record 7: a project's id is repeated",
    ),
    (
        ReadKind::RepeatedVoter,
        "17 RepeatedVoter: record 7: a voter's id is repeated",
    ),
    (
        ReadKind::UnknownProject,
        "18 UnknownProject: record 7: a vote names an unknown project",
    ),
    (
        ReadKind::TooManyProjects,
        "19 TooManyProjects: record 7: too many projects",
    ),
    (
        ReadKind::TooManyVoters,
        "20 TooManyVoters: record 7: too many voters",
    ),
    (ReadKind::NoMemory, "21 NoMemory: record 7: out of memory"),
    (
        ReadKind::BadLength,
        "22 BadLength: record 7: the limit on a ballot's length is malformed",
    ),
];

#[test]
fn numbers_and_names_the_kinds(rt: HostRuntime) {
    for (kind, wanted) in KINDS {
        let fault = ReadFault { kind: *kind, at: 7 };
        tells(
            &rt,
            rt.alloc(),
            (kind.number(), kind.name()),
            &fault,
            wanted,
        );
        same(
            &rt,
            (fault.number(), fault.name()),
            (kind.number(), kind.name()),
            wanted,
        );
    }
}

/// A text in which each `@` is the id, and each `+` many fields more.
fn written(rt: &impl Abort, alloc: Global, text: &str, id: &str, more: &str) -> String {
    let mut whole = String::new(alloc);
    for letter in text.chars() {
        match letter {
            '@' => whole.push_str(id).expect(rt, "memory"),
            '+' => whole.push_str(more).expect(rt, "memory"),
            _ => whole.push(letter).expect(rt, "memory"),
        }
    }
    whole
}

const LONG: &str =
    "META+\nkey;value+\nbudget;1+\nvote_type;approval\nPROJECTS+\nproject_id;cost+\n@;2+\n@x;3\nVOTES+\nvoter_id+;vote\nv@+;@x\n";

/// Ids of 4,890 bytes, and records of a thousand fields and more.
#[test]
fn reads_what_is_long(rt: HostRuntime) {
    let alloc = rt.alloc();
    let id = with_lines(&rt, alloc, "", 1_000, ("id", ""));
    let more = with_lines(&rt, alloc, "", 1_000, (";more ", ""));
    let (id, more) = (id.as_str(), more.as_str());
    let file = written(&rt, alloc, LONG, id, more);
    let wanted = written(&rt, alloc, "100;@,,200;@x,,300;|v@ 1;", id, "");
    answers(&rt, alloc, file.as_str(), wanted.as_str());
}
