//! The machine that a run is on.

use std::fs::File;
use std::rt::{Clock, Files};
use std::thread::Threads;

/// All that a run asks of the machine.
pub(crate) trait System: Files<File = File>
    + Input
    + Print
    + Eprint
    + Clock
    + AllocGlobal
    + Threads
    + Sync {}

impl<R> System for R
where
    R: Files<File = File> + Input + Print + Eprint + Clock + AllocGlobal + Threads + Sync,
{}
