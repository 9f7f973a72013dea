//! The file that is kept beside a journal with what was cut off it.

ghost use Rattle.std.specs.Prelude.{[]};

use crate::run_refusal::{End, RunRefusal};
use pb_durable::file_device::{fault_of, keep_beside};
use pb_durable::{Beside, DeviceFault};
use pb_faults::AppFault;
use pb_words::say_words;
use pb_words::serve_words::{torn_words, unkept_words};
use std::fs::File;
use std::io::Error;
use std::rt::Files;

/// The end of its name, behind the journal's.
const TORN: &str = ".torn";

/// The file that is kept beside a journal with what was cut off it.
#[derive(Drop)]
pub struct TornFile<'a, R> {
    rt: &'a R,
    /// The path of the journal.
    journal: &'a str,
    /// Why it was not kept.
    failure: Option<Error>,
}

impl<'a, R: AllocGlobal> TornFile<'a, R> {
    /// Nothing was cut off yet.
    pub fn new(rt: &'a R, journal: &'a str) -> TornFile<'a, R> {
        TornFile {
            rt,
            journal,
            failure: None,
        }
    }

    /// Why the run ends where it was not kept.
    pub fn refusal(&self) -> Option<RunRefusal> {
        let error = self.failure?;
        let words = unkept_words(self.rt.alloc(), self.journal, TORN, &error);
        Some(RunRefusal::Told(End::Fault(AppFault::Write), words))
    }
}

impl<R: Files<File = File> + Eprint + AllocGlobal> Beside for TornFile<'_, R> {
    ghost tells = { ⊥ };

    ghost kept = { λ _. [] };

    fn keep(&mut self, bytes: &[u8]) -> Result<(), DeviceFault> {
        let alloc = self.rt.alloc();
        let path = format!(in alloc; "{}{TORN}", self.journal)?;
        let kept = keep_beside(self.rt, alloc, self.journal, path.as_str(), bytes);
        if kept.is_ok() && !bytes.is_empty() {
            say_words(self.rt, torn_words(alloc, path.as_str(), bytes));
        }
        drop(path);
        match kept {
            Ok(()) => Ok(()),
            Err(error) => {
                self.failure = Some(error);
                Err(fault_of(&error))
            }
        }
    }
}
