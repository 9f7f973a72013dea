//! How far reading and counting have come, shown in one line of standard error that is rewritten.

use crate::text_reader::{TextReader, open};
use pb_command_line::TextSource;
use pb_core::gate::Gate;
use pb_core::money::Money;
use pb_faults::{AppFault, RunText};
use pb_reasons::ProjectGate;
use std::io::{Read, Result};
use std::rt::{Clock, Files};
use std::sync::atomic::AtomicU64;
use std::sync::atomic::Ordering::Relaxed;
use std::time::Instant;

/// After so many milliseconds the line is shown, and then as often.
const PAUSE: u64 = 1_000;

/// How far reading and counting have come. Nothing is shown of what takes less than a second.
#[derive(Drop)]
pub struct ProgressLine<'a, R> {
    /// The machine that the work is on.
    pub rt: &'a R,
    /// When the work began; none where nothing is shown.
    start: Option<Instant>,
    lines: AtomicU64,
    /// The milliseconds after the start at which the line was shown last.
    shown: AtomicU64,
    /// How many searches for projects have begun, and of how many; 0 where it is none of several.
    project: AtomicU64,
    projects: AtomicU64,
}

impl<'a, R: Eprint + Clock> ProgressLine<'a, R> {
    /// The work begins.
    pub fn new(rt: &'a R, shows: bool) -> ProgressLine<'a, R> {
        ProgressLine {
            rt,
            start: if shows { Instant::now(rt).ok() } else { None },
            lines: AtomicU64::new(0),
            shown: AtomicU64::new(0),
            project: AtomicU64::new(0),
            projects: AtomicU64::new(0),
        }
    }

    /// Takes bytes that were read; none are the end of a text.
    fn take(&self, bytes: &[u8]) {
        if self.start.is_none() {
            return;
        }
        let ends = bytes.iter().filter(|byte| **byte == b'\n').count() as u64;
        let lines = self.lines.load(Relaxed).saturating_add(ends);
        self.lines.store(lines, Relaxed);
        if self.is_due() {
            let _ = eprint!(self.rt; "\r{:40}\r{lines} lines read", "");
        }
    }

    /// Whether the line is to be shown again, as it is from now on.
    fn is_due(&self) -> bool {
        let Some(start) = self.start else {
            return false;
        };
        let Ok(elapsed) = start.elapsed(self.rt) else {
            return false;
        };
        let now = elapsed.as_secs().saturating_mul(1_000);
        if now < self.shown.load(Relaxed).saturating_add(PAUSE) {
            return false;
        }
        self.shown.store(now, Relaxed);
        true
    }

    /// Takes the line away.
    pub fn clear(&self) {
        if self.shown.load(Relaxed) > 0 {
            let _ = eprint!(self.rt; "\r{:40}\r", "");
        }
    }
}

impl<R: Eprint + Clock + Sync> Gate for ProgressLine<'_, R> {
    fn at(&self, _worker: u32, _piece: u32) {}

    fn raised(&self, raises: u32, share: Money) {
        if !self.is_due() {
            return;
        }
        let (whole, hundredths) = (share.0 / 100, share.0 % 100);
        let (project, projects) = (self.project.load(Relaxed), self.projects.load(Relaxed));
        let _ = if projects > 0 {
            eprint!(self.rt;
                "\r{:40}\rproject {project} of {projects}: {raises} raises",
                ""
            )
        } else {
            eprint!(self.rt;
                "\r{:40}\r{raises} raises, share {whole}.{hundredths:02}",
                ""
            )
        };
    }
}

impl<R> ProjectGate for ProgressLine<'_, R> {
    fn begins(&self, projects: usize) {
        self.project.fetch_add(1, Relaxed);
        self.projects.store(projects as u64, Relaxed);
    }
}

/// A reader of which it is shown how much has come.
#[derive(Drop)]
pub struct Shown<'a, R, P> {
    reader: P,
    progress: &'a ProgressLine<'a, R>,
}

impl<'a, R, P> Shown<'a, R, P> {
    pub fn new(reader: P, progress: &'a ProgressLine<'a, R>) -> Shown<'a, R, P> {
        Shown { reader, progress }
    }
}

impl<R: Eprint + Clock, P: Read> Read for Shown<'_, R, P> {
    fn read(&mut self, buf: &mut [u8]) -> Result<usize> {
        let count = self.reader.read(buf)?;
        if count <= buf.len() {
            self.progress.take(&buf[..count]);
        }
        Ok(count)
    }
}

/// Opens a .pb file; it is shown how much of it has come.
pub fn open_shown<'a, R: Files + Input>(
    progress: &'a ProgressLine<'a, R>,
    source: &TextSource<'_>,
) -> std::result::Result<Shown<'a, R, TextReader<R>>, AppFault> {
    let file = open(progress.rt, source, RunText::File)?;
    Ok(Shown::new(file, progress))
}
