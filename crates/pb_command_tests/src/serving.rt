//! Requests that are answered as they come in: when the answers leave, and how often the journal is synced;
//! and a device in memory, where memory suffices.

ghost use Rattle.std.specs.Prelude.{[]};

use crate::checks::{THREE_VOTERS, same};
use crate::memory_device::MemoryDevice;
use pb_commands::{AppFault, ServingFault};
use pb_core::answer::Answer;
use pb_core::devices::{FailsAfter, FailsAt};
use pb_durable::{Device, DeviceFault, DurableDesk, JournalFile, OpenedDesk, open};
use pb_read::read_pb;
use pb_script::{Admission, NoNotice, Notice, RequestRows, RowRefusal, ScriptFault};
use pb_serving::run_serve::run_serve;
use pb_serving::{Always, RowsAtHand, Session};
use std::alloc::Global;
use std::cell::Cell;
use std::io::{Read, Result, Write};
use std::process::Abort;

/// A row of each kind: one that is done, one that has not the form, and one that is refused.
const ROWS: [&str; 3] = ["0;cast;v4;0\n", "0;cast\n", "0;cast;v4;1\n"];

/// Rows that are all at hand, and what is said of them.
const AT_HAND: &str = "0;cast;v4;0\n1;cast;v5;1\n0;cast;v4;1\n";

const ANSWERS: &str =
    "torn;7\nentries;0;open\n1;0;cast;v4;0;done\n2;1;cast;v5;1;done\n3;0;cast;v4;1;already-cast\n";

/// Journals of one row that lacks its line end, and what else stands there; and how many bytes of it are cut
/// off.
const UNENDED: [(&str, usize); 8] = [
    ("journal;2\n1;0;cast;v4;0;done", 0),
    ("journal;2\n1;0;cast;v4;0;done\0", 1),
    ("journal;2\n1;0;cast;v4;0;done\"", 1),
    ("journal;2\n1;0;cast;v4;0;done\r", 1),
    ("journal;2\n1;0;cast;v4;0;done;", 1),
    ("1;0;cast;v4;0;donee", 1),
    ("journal;2\n1;0;cast;v4;9;unknown-place 91", 1),
    ("journal;2\n1;0;cast;v4;91;unknown-place 91", 0),
];

/// What both ends of a run see.
#[derive(Drop)]
struct Seen {
    /// How many rows were typed.
    typed: Cell<usize>,
    /// How many lines were flushed.
    shown: Cell<usize>,
    /// Whether a row was waited for while an answer was held back.
    late: Cell<bool>,
    /// How often the journal was synced.
    syncs: Cell<usize>,
}

impl Seen {
    fn new() -> Seen {
        Seen {
            typed: Cell::new(0),
            shown: Cell::new(0),
            late: Cell::new(false),
            syncs: Cell::new(0),
        }
    }
}

/// A clerk who waits for the answer to each row.
#[derive(Drop)]
struct Clerk<'a> {
    seen: &'a Seen,
    /// What is typed and not yet read.
    rest: &'static [u8],
}

impl Read for Clerk<'_> {
    fn read(&mut self, buf: &mut [u8]) -> Result<usize> {
        if self.rest.is_empty() {
            let typed = self.seen.typed.get();
            // The first line is that of the desk.
            if self.seen.shown.get() != typed.wrapping_add(1) {
                self.seen.late.set(true);
            }
            let Some(row) = ROWS.get(typed) else {
                return Ok(0);
            };
            self.seen.typed.set(typed.wrapping_add(1));
            self.rest = row.as_bytes();
        }
        let (first, rest) = self.rest.split_at(self.rest.len().min(buf.len()));
        buf[..first.len()].copy_from_slice(first);
        self.rest = rest;
        Ok(first.len())
    }
}

/// The pace of a clerk who types a row at a time.
struct Never;

impl RowsAtHand for Never {
    fn has_row(&self) -> bool {
        false
    }
}

/// Whoever hears of the rows of a run.
#[derive(Drop)]
struct Heard {
    /// How many answers there were, and the last of them.
    answers: Cell<u32>,
    last: Cell<Option<Answer>>,
    /// The last row that was refused.
    refused: Cell<Option<u64>>,
}

impl Heard {
    fn new() -> Heard {
        Heard {
            answers: Cell::new(0),
            last: Cell::new(None),
            refused: Cell::new(None),
        }
    }
}

impl Notice for Heard {
    fn refused(&self, row: u64, _why: RowRefusal, _unknown: &str) {
        self.refused.set(Some(row));
    }

    fn answered(&self, answer: Answer) {
        self.answers.set(self.answers.get().wrapping_add(1));
        self.last.set(Some(answer));
    }
}

/// A screen that shows lines once they are flushed.
#[derive(Drop)]
struct Screen<'a> {
    seen: &'a Seen,
    lines: usize,
}

impl Write for Screen<'_> {
    fn write(&mut self, buf: &[u8]) -> Result<usize> {
        for byte in buf {
            if *byte == b'\n' {
                self.lines = self.lines.wrapping_add(1);
            }
        }
        Ok(buf.len())
    }

    fn flush(&mut self) -> Result<()> {
        self.seen.shown.set(self.lines);
        Ok(())
    }
}

/// A disk that counts its syncs, and claims nothing.
#[derive(Drop)]
struct Disk<'a> {
    seen: &'a Seen,
    bytes: Vec<u8>,
}

impl Device for Disk<'_> {
    ghost tells = { ⊥ };

    ghost seen = { λ _. [] };

    ghost may_leave = { λ _ _. ⊥ };

    ghost moment = { λ _. 0 };

    ghost left_since = { λ _ _ _. ⊥ };

    ghost failures = { λ _. 0 };

    ghost counts_now = { λ d t c le now. now };

    ghost only_now = { λ d c left. left };

    fn read(&mut self, alloc: Global) -> std::result::Result<Vec<u8>, DeviceFault> {
        Ok(self.bytes.to_vec(alloc)?)
    }

    fn write_at(&mut self, at: usize, bytes: &[u8]) -> std::result::Result<(), DeviceFault> {
        let mut place = at;
        for byte in bytes {
            match self.bytes.get_mut(place) {
                Some(old) => *old = *byte,
                None => self.bytes.push(*byte)?,
            }
            place = place.wrapping_add(1);
        }
        Ok(())
    }

    fn cut(&mut self, len: usize) -> std::result::Result<(), DeviceFault> {
        self.bytes.truncate(len);
        Ok(())
    }

    fn sync(&mut self) -> std::result::Result<(), DeviceFault> {
        self.seen.syncs.set(self.seen.syncs.get().wrapping_add(1));
        Ok(())
    }
}

/// The desk of the three voters on a disk with these bytes, and how many of them were cut off.
fn opened<'a>(
    rt: &impl Abort,
    alloc: Global,
    seen: &'a Seen,
    bytes: &str,
) -> (DurableDesk<Disk<'a>>, usize) {
    let bytes = bytes.as_bytes().to_vec(alloc).expect(rt, "memory");
    let mut file = JournalFile::on(alloc, Disk { seen, bytes });
    let election = read_pb(alloc, THREE_VOTERS.as_bytes()).expect(rt, "an election");
    let mut beside = Vec::new(alloc);
    let found = open(alloc, &mut file, election, 10, &mut beside).expect(rt, "a journal");
    let OpenedDesk { desk, torn } = found;
    same(rt, beside.len(), torn, "bytes kept beside");
    drop(beside);
    (DurableDesk::on(desk, file), torn)
}

/// Serves the rows of this input on a desk that is open to all; nobody listens.
fn served<R: Read + Drop, P: RowsAtHand, W: Write>(
    alloc: Global,
    opened: (DurableDesk<Disk<'_>>, usize),
    input: R,
    pace: &P,
    writer: &mut W,
) -> std::result::Result<u64, AppFault> {
    served_to(alloc, opened, input, (pace, &NoNotice), writer)
}

/// Serves the rows of this input on a desk that is open to all, and tells the notice.
fn served_to<R: Read + Drop, P: RowsAtHand, N: Notice, W: Write>(
    alloc: Global,
    (mut desk, torn): (DurableDesk<Disk<'_>>, usize),
    input: R,
    (pace, notice): (&P, &N),
    writer: &mut W,
) -> std::result::Result<u64, AppFault> {
    let admission = Admission::open();
    let mut rows = RequestRows::new(alloc, input);
    let session = Session {
        torn,
        pace,
        admission: &admission,
        notice,
    };
    let ended = run_serve(alloc, &mut desk, &mut rows, &session, writer);
    let ended = ended.map(|served| served.refused.all);
    drop(rows);
    drop(admission);
    drop(desk);
    ended
}

/// Each row is waited for only once all before it are answered on the screen.
#[test]
fn no_answer_is_held_back(rt: HostRuntime) {
    let seen = Seen::new();
    let opened = opened(&rt, rt.alloc(), &seen, "");
    let mut screen = Screen {
        seen: &seen,
        lines: 0,
    };
    let clerk = Clerk {
        seen: &seen,
        rest: b"",
    };
    let bad_rows = served(rt.alloc(), opened, clerk, &Never, &mut screen);
    same(&rt, bad_rows, Ok(1), "rows not of the form");
    same(&rt, seen.late.get(), false, "a row waited for");
    same(&rt, seen.shown.get(), 4, "lines");
}

/// What is at hand is served together: two syncs for all of it, and one where the journal is closed.
#[test]
fn rows_at_hand_share_their_syncs(rt: HostRuntime) {
    let seen = Seen::new();
    let opened = opened(&rt, rt.alloc(), &seen, "journal;2\n\ngarbage");
    seen.syncs.set(0);
    let mut text = Vec::new(rt.alloc());
    let bad_rows = served(rt.alloc(), opened, AT_HAND.as_bytes(), &Always, &mut text);
    same(&rt, bad_rows, Ok(0), "rows not of the form");
    same(&rt, seen.syncs.get(), 3, "syncs");
    same(&rt, text.as_slice() == ANSWERS.as_bytes(), true, "answers");
    drop(text);
}

/// Whoever listens is told each answer, and the number of each row that is refused.
#[test]
fn answers_are_told(rt: HostRuntime) {
    let seen = Seen::new();
    let opened = opened(&rt, rt.alloc(), &seen, "");
    let notice = Heard::new();
    let mut text = Vec::new(rt.alloc());
    let input = "0;cast;v4;0\n0;cast\n1;cast;v5;1\n0;cast;v4;1\n";
    let both = (&Always, &notice);
    let bad_rows = served_to(rt.alloc(), opened, input.as_bytes(), both, &mut text);
    same(&rt, bad_rows, Ok(1), "rows not of the form");
    same(&rt, notice.answers.get(), 3, "answers");
    let last = notice.last.get();
    same(&rt, last, Some(Answer::AlreadyCast), "the last answer");
    same(&rt, notice.refused.get(), Some(2), "the row refused");
    drop(notice);
    drop(text);
}

/// Where the answers don't leave the writer, none of them is told.
#[test]
fn what_is_not_written_is_not_told(rt: HostRuntime) {
    let seen = Seen::new();
    let opened = opened(&rt, rt.alloc(), &seen, "");
    let notice = Heard::new();
    // The row of the desk is one write, the answers are the other, and the flush behind them fails.
    let mut writer = FailsAt::new(Vec::new(rt.alloc()), 2);
    let both = (&Always, &notice);
    let ended = served_to(rt.alloc(), opened, AT_HAND.as_bytes(), both, &mut writer);
    same(
        &rt,
        ended,
        Err(AppFault::Serving(ServingFault::Output)),
        "the fault",
    );
    same(&rt, notice.answers.get(), 0, "answers");
    drop(writer);
    drop(notice);
}

/// Where the input fails, all rows before are answered, and the fault has the number of the next.
#[test]
fn rows_before_a_failed_read_are_answered(rt: HostRuntime) {
    let seen = Seen::new();
    let opened = opened(&rt, rt.alloc(), &seen, "journal;2\n\ngarbage");
    let mut text = Vec::new(rt.alloc());
    let input = FailsAfter::new(AT_HAND.as_bytes());
    let ended = served(rt.alloc(), opened, input, &Always, &mut text);
    let fault = AppFault::Script(ScriptFault::ReadFailed(4));
    same(&rt, ended, Err(fault), "the fault");
    same(&rt, text.as_slice() == ANSWERS.as_bytes(), true, "answers");
    drop(text);
}

/// Where a last row lacks its line end, at most one byte in its place is cut off, and the row stands.
#[test]
fn a_last_row_gets_its_line_end(rt: HostRuntime) {
    let seen = Seen::new();
    for (bytes, cut_off) in UNENDED {
        let (desk, torn) = opened(&rt, rt.alloc(), &seen, bytes);
        same(&rt, torn, cut_off, "bytes cut off");
        same(&rt, desk.desk().entries(), 1, "entries");
        drop(desk);
    }
}

/// A device in memory has what was written and cut, where memory suffices.
#[test]
fn a_device_in_memory_has_its_bytes(rt: HostRuntime) {
    let bytes = b"journal".to_vec(rt.alloc()).expect(&rt, "memory");
    let mut device = MemoryDevice::new(rt.alloc(), bytes).expect(&rt, "memory");
    same(&rt, device.write_at(0, b"day"), Ok(()), "a write");
    let len = device.bytes().len().min(5);
    same(&rt, device.cut(len), Ok(()), "a cut");
    same(&rt, device.sync(), Ok(()), "a sync");
    let read = device.read(rt.alloc()).expect(&rt, "memory");
    same(
        &rt,
        read.as_slice() == b"dayrn".as_slice(),
        true,
        "bytes that are read",
    );
    same(&rt, device.bytes() == b"dayrn".as_slice(), true, "bytes");
    drop(read);
}
