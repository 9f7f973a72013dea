//! A gate at which workers wait for each other, and which records who came.

use crate::checks::same;
use pb_core::gate::Gate;
use std::process::Abort;
use std::sync::atomic::Ordering::SeqCst;
use std::sync::atomic::{AtomicU32, AtomicU64};
use std::thread::yield_now;

/// Holds each worker at each piece until so many have come, for a bounded number of turns.
#[derive(Drop)]
pub(crate) struct Crowd {
    size: u32,
    came: AtomicU32,
    /// How many of those who came saw so many there.
    met: AtomicU32,
    /// The sum of 2^worker, and that of 2^piece, over all who came, less whole multiples of 2^64.
    workers: AtomicU64,
    pieces: AtomicU64,
}

impl Crowd {
    /// A gate for a crowd of this size.
    pub(crate) fn of(size: u32) -> Crowd {
        Crowd {
            size,
            came: AtomicU32::new(0),
            met: AtomicU32::new(0),
            workers: AtomicU64::new(0),
            pieces: AtomicU64::new(0),
        }
    }

    /// All who came met.
    pub(crate) fn has_met(&self, rt: &impl Abort) {
        same(rt, self.met.load(SeqCst), self.came.load(SeqCst), "who met");
    }

    /// Each worker came with one piece, and each piece came once, where each has the number of a bit here.
    pub(crate) fn was_of(&self, rt: &impl Abort, numbers: u64) {
        same(rt, self.came.load(SeqCst), self.size, "who came");
        same(rt, self.workers.load(SeqCst), numbers, "workers");
        same(rt, self.pieces.load(SeqCst), numbers, "pieces");
    }
}

impl Gate for Crowd {
    fn at(&self, worker: u32, piece: u32) {
        self.workers.fetch_add(1u64.wrapping_shl(worker), SeqCst);
        self.pieces.fetch_add(1u64.wrapping_shl(piece), SeqCst);
        self.came.fetch_add(1, SeqCst);
        for _ in 0..10_000_000 {
            if self.came.load(SeqCst) >= self.size {
                self.met.fetch_add(1, SeqCst);
                return;
            }
            yield_now();
        }
    }
}
