//! What is told how far work has come.

use crate::money::Money;

/// Told how far work has come, while it is done: a test can hold a worker there, and a program can show what
/// it is told.
pub trait Gate: Sync {
    /// The worker has this piece of work, and has not done it yet. Both are numbered from 0.
    fn at(&self, worker: u32, piece: u32);

    /// The outcome after so many raises is tried next, at this share in hundredths. The thread that counts
    /// says so.
    fn raised(&self, _raises: u32, _share: Money) {}
}

/// The gate that lets every worker through at once.
#[derive(Clone, Copy, Debug)]
pub struct NoGate;

impl Gate for NoGate {
    fn at(&self, _worker: u32, _piece: u32) {}
}
