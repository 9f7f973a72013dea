//! A journal that is cut or damaged, whose reader fails, or whose writer fails.

use crate::checks::{are, same};
use crate::files::{first, three_voters, whole_lines};
use crate::walk::{Call, Heap, walk};
use pb_core::devices::{FailsAfter, FailsAt, TakesNone, TakesOne};
use pb_core::{Answer, NoMemory, Request};
use pb_desk::audit;
use pb_desk::audit_fault::AuditFault;
use pb_desk::desk::Desk;
use pb_desk::write_fault::WriteFault;
use std::alloc::Global;
use std::io::{Read, Write};
use std::process::Abort;

/// Five requests of clerk 0 for the voter ann.
const FIVE_ROWS: &str =
    "1;0;cast;ann;0;done\n2;0;cast;ann;1;already-cast\n3;0;replace;ann;0,1;done\n4;0;withdraw;ann;;done\n5;0;replace;ann;0;no-ballot\n";

/// The same rows, the answer of each in turn replaced by `voter-limit`, and that row.
const WRONG_ANSWERS: &[(&str, u64)] = &[
    (
        "1;0;cast;ann;0;voter-limit\n2;0;cast;ann;1;already-cast\n3;0;replace;ann;0,1;done\n4;0;withdraw;ann;;done\n5;0;replace;ann;0;no-ballot\n",
        1,
    ),
    (
        "1;0;cast;ann;0;done\n2;0;cast;ann;1;voter-limit\n3;0;replace;ann;0,1;done\n4;0;withdraw;ann;;done\n5;0;replace;ann;0;no-ballot\n",
        2,
    ),
    (
        "1;0;cast;ann;0;done\n2;0;cast;ann;1;already-cast\n3;0;replace;ann;0,1;voter-limit\n4;0;withdraw;ann;;done\n5;0;replace;ann;0;no-ballot\n",
        3,
    ),
    (
        "1;0;cast;ann;0;done\n2;0;cast;ann;1;already-cast\n3;0;replace;ann;0,1;done\n4;0;withdraw;ann;;voter-limit\n5;0;replace;ann;0;no-ballot\n",
        4,
    ),
    (
        "1;0;cast;ann;0;done\n2;0;cast;ann;1;already-cast\n3;0;replace;ann;0,1;done\n4;0;withdraw;ann;;done\n5;0;replace;ann;0;voter-limit\n",
        5,
    ),
];

/// The same rows, each in turn exchanged with the next, and the first of the two places.
const EXCHANGED: &[(&str, u64)] = &[
    (
        "2;0;cast;ann;1;already-cast\n1;0;cast;ann;0;done\n3;0;replace;ann;0,1;done\n4;0;withdraw;ann;;done\n5;0;replace;ann;0;no-ballot\n",
        1,
    ),
    (
        "1;0;cast;ann;0;done\n3;0;replace;ann;0,1;done\n2;0;cast;ann;1;already-cast\n4;0;withdraw;ann;;done\n5;0;replace;ann;0;no-ballot\n",
        2,
    ),
    (
        "1;0;cast;ann;0;done\n2;0;cast;ann;1;already-cast\n4;0;withdraw;ann;;done\n3;0;replace;ann;0,1;done\n5;0;replace;ann;0;no-ballot\n",
        3,
    ),
    (
        "1;0;cast;ann;0;done\n2;0;cast;ann;1;already-cast\n3;0;replace;ann;0,1;done\n5;0;replace;ann;0;no-ballot\n4;0;withdraw;ann;;done\n",
        4,
    ),
];

/// How many entries the journal has that a reader gives, or its fault.
fn audited<R: Read + Drop>(rt: &impl Abort, alloc: Global, reader: R) -> Result<u32, AuditFault> {
    let audited = audit(alloc, three_voters(rt, alloc), 10, reader);
    let answer = match &audited {
        Ok(desk) => Ok(desk.entries()),
        Err(fault) => Err(*fault),
    };
    drop(audited);
    answer
}

/// What an audit answers to the first bytes of the five rows, this many: the rows so far, or the row that is
/// cut.
fn cut_at(bytes: &[u8], size: usize) -> Result<u32, AuditFault> {
    let lines = whole_lines(bytes);
    if bytes.is_empty() || bytes.ends_with(b"\n") {
        return Ok(lines);
    }
    if FIVE_ROWS.as_bytes().get(size) == Some(&b'\n') {
        return Ok(lines.wrapping_add(1));
    }
    Err(AuditFault::BadRow(u64::from(lines.wrapping_add(1))))
}

#[test]
fn a_cut_row_is_a_bad_row(rt: HostRuntime) {
    for size in 0..=FIVE_ROWS.len() {
        let bytes = first(&rt, FIVE_ROWS, size);
        let found = audited(&rt, rt.alloc(), bytes);
        same(&rt, found, cut_at(bytes, size), size);
    }
}

#[test]
fn a_reader_that_fails_is_told_at_the_row(rt: HostRuntime) {
    for size in 0..=FIVE_ROWS.len() {
        let bytes = first(&rt, FIVE_ROWS, size);
        let row = u64::from(whole_lines(bytes).wrapping_add(1));
        let found = audited(&rt, rt.alloc(), FailsAfter::new(bytes));
        same(&rt, found, Err(AuditFault::ReadFailed(row)), size);
    }
}

/// An audit of these rows names the row with this number so.
fn is_told(rt: &impl Abort, alloc: Global, text: &str, wanted: AuditFault, row: u64) {
    let found = audited(rt, alloc, text.as_bytes());
    same(rt, found, Err(wanted), row as usize);
}

#[test]
fn damage_is_told_at_its_row(rt: HostRuntime) {
    let alloc = rt.alloc();
    for (text, row) in WRONG_ANSWERS {
        is_told(&rt, alloc, text, AuditFault::WrongAnswer(*row), *row);
    }
    for (text, row) in EXCHANGED {
        is_told(&rt, alloc, text, AuditFault::WrongNumber(*row), *row);
    }
}

/// The journal of a desk that clerk 7 has shut.
const SHUT: &[u8] = b"journal;2\n1;7;shut;;;done\n";

/// A desk with that journal.
fn shut_desk(rt: &impl Abort, alloc: Global) -> Desk {
    let started = Desk::start(alloc, three_voters(rt, alloc), 10);
    let mut desk = started.ok().expect(rt, "a desk");
    same(rt, desk.serve(7, &Request::Shut), Ok(Answer::Done), 1);
    desk
}

/// Writing to this writer ends so.
fn writes_so<W: Write>(
    rt: &impl Abort,
    alloc: Global,
    desk: &Desk,
    writer: &mut W,
    wanted: Result<(), WriteFault>,
) {
    same(rt, desk.write_journal(alloc, writer), wanted, 1);
}

/// Writing fails at a writer that takes this many writes.
fn fails_after(rt: &impl Abort, alloc: Global, desk: &Desk, writes: u32) {
    let mut writer = FailsAt::new(Vec::new(alloc), writes);
    writes_so(rt, alloc, desk, &mut writer, Err(WriteFault::WriteFailed));
    drop(writer);
}

/// A writer that takes two writes takes the journal.
fn takes_two(rt: &impl Abort, alloc: Global, desk: &Desk) {
    let mut writer = FailsAt::new(Vec::new(alloc), 2);
    writes_so(rt, alloc, desk, &mut writer, Ok(()));
    let taken = writer.into_inner();
    same(rt, taken.as_slice(), SHUT, 2);
    drop(taken);
}

/// The journal is one write. It fails, or the flush after it does; and a writer that takes two takes both.
#[test]
fn a_writer_that_fails_is_told(rt: HostRuntime) {
    let alloc = rt.alloc();
    let desk = shut_desk(&rt, alloc);
    fails_after(&rt, alloc, &desk, 0);
    fails_after(&rt, alloc, &desk, 1);
    takes_two(&rt, alloc, &desk);
    let failed = Err(WriteFault::WriteFailed);
    writes_so(&rt, alloc, &desk, &mut TakesNone, failed);
    drop(desk);
}

/// What a writer that takes one byte at a time has got.
fn taken_one_by_one(rt: &impl Abort, alloc: Global, desk: &Desk) -> Vec<u8> {
    let mut one = TakesOne::new(Vec::new(alloc));
    writes_so(rt, alloc, desk, &mut one, Ok(()));
    one.into_inner()
}

#[test]
fn a_writer_that_takes_little_gets_it_all(rt: HostRuntime) {
    let alloc = rt.alloc();
    let desk = shut_desk(&rt, alloc);
    let mut ample = Vec::new(alloc);
    writes_so(&rt, alloc, &desk, &mut ample, Ok(()));
    same(&rt, ample.as_slice(), SHUT, 0);
    drop(ample);
    let taken = taken_one_by_one(&rt, alloc, &desk);
    same(&rt, taken.as_slice(), SHUT, 1);
    drop(taken);
    drop(desk);
}

/// A journal of one row goes into a writer in memory, whose allocations are refused.
#[derive(Drop)]
struct Written<'a> {
    alloc: Global,
    desk: &'a Desk,
}

impl<'a> Call for Written<'a> {
    fn run<R: Abort>(&self, _rt: &R, heap: Heap<'_>, nth: u64) -> Result<bool, NoMemory> {
        let mut writer = Vec::new(heap);
        heap.refuse(nth);
        match self.desk.write_journal(self.alloc, &mut writer) {
            Ok(()) => Ok(are(writer.as_slice(), SHUT)),
            Err(WriteFault::NoMemory) => Err(NoMemory),
            Err(WriteFault::WriteFailed) => Ok(false),
        }
    }
}

#[test]
fn a_writer_without_room_is_out_of_memory(rt: HostRuntime) {
    let alloc = rt.alloc();
    let desk = shut_desk(&rt, alloc);
    let written = Written { alloc, desk: &desk };
    walk(&rt, alloc, &written);
    drop(desk);
}
