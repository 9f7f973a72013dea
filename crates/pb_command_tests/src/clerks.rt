//! Clerks side by side: whichever of two is held, the other is served.

use crate::checks::{THREE_VOTERS, same};
use pb_commands::run_desk::run_desk;
use pb_core::gate::Gate;
use std::alloc::Global;
use std::process::Abort;
use std::sync::atomic::Ordering::SeqCst;
use std::sync::atomic::{AtomicBool, AtomicU32};
use std::thread::{Threads, yield_now};

/// Each of two clerks casts twice, for voters of its own.
const SCRIPT: &str = "0;cast;0-0;0\n1;cast;1-0;0\n0;cast;0-1;0\n1;cast;1-1;0\n";

/// Holds a clerk at its first row until the other has come to its second, for a bounded number of turns.
#[derive(Drop)]
struct Holding {
    held: u32,
    came: AtomicBool,
}

impl Gate for Holding {
    fn at(&self, worker: u32, piece: u32) {
        if worker != self.held {
            if piece == 1 {
                self.came.store(true, SeqCst);
            }
            return;
        }
        if piece > 0 {
            return;
        }
        for _ in 0..10_000_000 {
            if self.came.load(SeqCst) {
                return;
            }
            yield_now();
        }
    }
}

/// The journal of this script, which two clerks serve.
fn journal_of<R: Threads + Sync + Abort, G: Gate>(
    rt: &R,
    alloc: Global,
    script: &str,
    gate: &G,
) -> Vec<u8> {
    let mut journal = Vec::new(alloc);
    let (file, script) = (THREE_VOTERS.as_bytes(), script.as_bytes());
    let ran = run_desk(rt, alloc, file, script, 2, false, gate, &mut journal);
    same(rt, ran, Ok(()), "a desk");
    journal
}

/// Holds each of two clerks at its row until the other has come to its own, for a bounded number of turns.
#[derive(Drop)]
struct Meeting {
    /// 1 for clerk 0 and 2 for clerk 1, each at its first row: so 3 for both.
    came: AtomicU32,
    met: AtomicU32,
}

impl Gate for Meeting {
    fn at(&self, clerk: u32, row: u32) {
        self.came.fetch_add(
            clerk.wrapping_add(1).wrapping_add(row.wrapping_mul(100)),
            SeqCst,
        );
        for _ in 0..10_000_000 {
            if self.came.load(SeqCst) == 3 {
                self.met.fetch_add(1, SeqCst);
                return;
            }
            yield_now();
        }
    }
}

/// A row of each of two clerks: neither was served before the other had come to its own.
#[test]
fn clerks_meet(rt: HostRuntime) {
    let gate = Meeting {
        came: AtomicU32::new(0),
        met: AtomicU32::new(0),
    };
    let journal = journal_of(&rt, rt.alloc(), "0;shut;;\n1;shut;;\n", &gate);
    same(&rt, gate.met.load(SeqCst), 2, "clerks who met");
    drop(journal);
}

/// While this clerk is held at its first row, the other is served its own.
fn serves_the_other<R: Threads + Sync + Abort>(rt: &R, alloc: Global, held: u32, first: &str) {
    let gate = Holding {
        held,
        came: AtomicBool::new(false),
    };
    let journal = journal_of(rt, alloc, SCRIPT, &gate);
    same(rt, journal.starts_with(first.as_bytes()), true, first);
    drop(journal);
}

#[test]
fn clerks_work_side_by_side(rt: HostRuntime) {
    serves_the_other(&rt, rt.alloc(), 0, "journal;2\n1;1;cast;1-0;0;done\n");
    serves_the_other(&rt, rt.alloc(), 1, "journal;2\n1;0;cast;0-0;0;done\n");
}
