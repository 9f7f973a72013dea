//! Where a result goes: to standard output, or to a file that gets it whole or not at all.

use crate::bar::{Bar, bar_of};
use crate::part_file::PartFile;
use crate::run_refusal::{End, RunRefusal};
use pb_command_line::Asked;
use pb_faults::{AppFault, RunText, ServingFault};
use pb_words::for_terminal;
use pb_words::output_words::{
    beside_output_words, journal_output_words, read_output_words, served_output_words,
};
use std::fs::{File, OpenOptions};
use std::io::{Error, ErrorKind, Result, Write};
use std::rt::Files;
use std::{fs, io};

/// An open file that a result is written to.
#[derive(Drop)]
enum Opened {
    /// One beside the file that it replaces.
    Part(PartFile<File>),
    /// A device or a pipe, which is written as it is.
    Device(File),
}

/// A writer of a result. A file is opened at the first write: a run that is refused writes nothing, and
/// leaves no file. A terminal gets no control character to obey.
#[derive(Drop)]
pub struct Output<'a, R> {
    rt: &'a R,
    /// What the run was asked for: its output is the path of the file that gets the result, none is standard
    /// output.
    asked: &'a Asked<'a>,
    /// Whether the result goes to a terminal.
    is_terminal: bool,
    opened: Option<Opened>,
    /// Why a write failed.
    pub failure: Option<Error>,
}

impl<'a, R: Files<File = File> + Print + AllocGlobal> Output<'a, R> {
    /// The result of what is asked for; standard output may be a terminal.
    pub fn new(rt: &'a R, asked: &'a Asked<'a>, is_terminal: bool) -> Output<'a, R> {
        Output {
            rt,
            asked,
            is_terminal: is_terminal && asked.output.is_none(),
            opened: None,
            failure: None,
        }
    }

    /// Looks at what the result would replace.
    pub fn look(&mut self) -> std::result::Result<(), RunRefusal> {
        match self.asked.output {
            Some(path) => self.look_at(path),
            None => Ok(()),
        }
    }

    /// Looks at what a result at this path would replace.
    fn look_at(&mut self, path: &str) -> std::result::Result<(), RunRefusal> {
        match bar_of(self.rt, &self.asked.task, path) {
            Ok(None) => Ok(()),
            Ok(Some(bar)) => Err(self.barred(bar)),
            Err(error) => Err(self.failed(error)),
        }
    }

    /// The result would replace what it never does.
    fn barred(&self, bar: Bar<'_>) -> RunRefusal {
        let (alloc, path) = (self.rt.alloc(), self.asked.output.unwrap_or("-"));
        let words = match bar {
            Bar::IsRead(text) => read_output_words(alloc, path, text.path()),
            Bar::IsBeside(journal) => beside_output_words(alloc, path, journal.path()),
            Bar::IsJournal => journal_output_words(alloc, path),
            Bar::IsServed => {
                let fault = AppFault::Serving(ServingFault::Locked(RunText::Output));
                return RunRefusal::Told(End::Fault(fault), served_output_words(alloc, path));
            }
        };
        RunRefusal::Told(End::Arguments, words)
    }

    /// A call on the file of the result has failed.
    fn failed(&mut self, error: Error) -> RunRefusal {
        if error.kind() == ErrorKind::OutOfMemory {
            return RunRefusal::Fault(AppFault::Memory);
        }
        self.failure = Some(error);
        RunRefusal::Fault(AppFault::Write)
    }

    /// Writes some of these bytes to where they go.
    fn write_some(&mut self, buf: &[u8]) -> Result<usize> {
        let Some(path) = self.asked.output else {
            return self.rt.write_some(buf);
        };
        if self.opened.is_none() {
            self.opened = Some(open(self.rt, path, self.asked.task.pairs_ids())?);
        }
        match &mut self.opened {
            Some(Opened::Part(part)) => part.file.write(buf),
            Some(Opened::Device(file)) => file.write(buf),
            None => Ok(0),
        }
    }

    /// Writes a text to a terminal in the place of so many bytes.
    fn write_shown(&self, text: &str, count: usize) -> Result<usize> {
        io::writer(self.rt).write_all(text.as_bytes())?;
        Ok(count)
    }

    /// Puts a whole result in the place of an older one, also an empty one. What it replaces is looked at
    /// before.
    pub fn finish(&mut self) -> std::result::Result<(), RunRefusal> {
        let Some(path) = self.asked.output else {
            return Ok(());
        };
        let opened = match self.opened.take() {
            Some(opened) => Ok(opened),
            None => open(self.rt, path, self.asked.task.pairs_ids()),
        };
        match opened {
            Ok(Opened::Part(part)) => self.put_in_place(part),
            Ok(Opened::Device(file)) => {
                drop(file);
                Ok(())
            }
            Err(error) => Err(self.failed(error)),
        }
    }

    /// Sees that a file is on its device, and gives it the name of the one that it replaces, if nothing bars
    /// it.
    fn put_in_place(&mut self, part: PartFile<File>) -> std::result::Result<(), RunRefusal> {
        let allowed = match part.sync() {
            Ok(()) => self.look_at(part.target()),
            Err(error) => Err(self.failed(error)),
        };
        if allowed.is_err() {
            part.give_up(self.rt);
            return allowed;
        }
        match part.place(self.rt) {
            Ok(()) => Ok(()),
            Err(error) => Err(self.failed(error)),
        }
    }

    /// Takes away what was written of a result that did not become whole.
    pub fn give_up(&mut self) {
        match self.opened.take() {
            Some(Opened::Part(part)) => part.give_up(self.rt),
            Some(Opened::Device(file)) => drop(file),
            None => {}
        }
    }
}

impl<R: Files<File = File> + Print + AllocGlobal> Write for Output<'_, R> {
    fn write(&mut self, buf: &[u8]) -> Result<usize> {
        let shown = if self.is_terminal {
            for_terminal(self.rt.alloc(), buf)?
        } else {
            None
        };
        let written = match &shown {
            Some(text) => self.write_shown(text.as_str(), buf.len()),
            None => self.write_some(buf),
        };
        drop(shown);
        match written {
            Ok(count) => Ok(count.min(buf.len())),
            Err(error) => {
                self.failure = Some(error);
                Err(Error::from(error.kind()))
            }
        }
    }

    fn flush(&mut self) -> Result<()> {
        Ok(())
    }
}

/// Opens a file beside the one with this path, or the device that has it.
fn open<R: Files<File = File> + AllocGlobal>(
    rt: &R,
    path: &str,
    for_owner: bool,
) -> Result<Opened> {
    let target = match fs::metadata(rt, path) {
        Ok(metadata) if metadata.is_dir() => return Err(Error::from(ErrorKind::IsADirectory)),
        Ok(metadata) if metadata.is_file() => fs::canonicalize(rt, path)?.into_string(),
        Ok(_) => return Ok(Opened::Device(OpenOptions::new().write(true).open(rt, path)?)),
        Err(error) if error.kind() == ErrorKind::NotFound => String::from_str(rt.alloc(), path)?,
        Err(error) => return Err(error),
    };
    let part = PartFile::make(rt, rt.alloc(), target, for_owner)?;
    Ok(Opened::Part(part))
}
