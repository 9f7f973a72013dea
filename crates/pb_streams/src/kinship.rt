//! Which .pb file a journal belongs to.

use crate::digested::Hex;
use crate::linked::behind_link;
use crate::run_refusal::RunRefusal;
use pb_core::no_memory::NoMemory;
use pb_durable::file_beside::{name_file, read_file_beside};
use pb_durable::{Belonging, belonging_of};
use pb_faults::{AppFault, RunText};
use pb_words::belonging_words::{adopted_words, unread_file_words};
use pb_words::say_words;
use pb_words::serve_words::unkept_words;
use std::cell::Cell;
use std::fs::File;
use std::io;
use std::io::{Error, ErrorKind};
use std::rt::Files;

/// What a run sees of the .pb file and the journal that it reads.
#[derive(Drop)]
pub struct Kinship {
    /// The digest of the .pb file, once it is read.
    pub file: Cell<Option<Hex>>,
    /// The digest of the journal, once it is read, where it is asked for.
    pub journal: Cell<Option<Hex>>,
    /// Why the journal is not read, where it is not.
    pub refusal: Cell<Option<RunRefusal>>,
    /// Whether a journal of another .pb file is read all the same.
    takes_other: bool,
    /// Whether the digests of all that is read are asked for.
    pub(crate) digests: bool,
}

impl Kinship {
    /// Nothing is seen yet.
    pub fn new(takes_other: bool, digests: bool) -> Kinship {
        Kinship {
            file: Cell::new(None),
            journal: Cell::new(None),
            refusal: Cell::new(None),
            takes_other,
            digests,
        }
    }

    /// What the journal with this path and these bytes, and what stands beside it, say of the .pb file that was
    /// read. A journal that belongs to another file is refused, unless it is asked for.
    pub(crate) fn belonging<R: Files<File = File> + AllocGlobal>(
        &self,
        rt: &R,
        path: &str,
        journal: &[u8],
    ) -> Result<Belonging, RunRefusal> {
        let alloc = rt.alloc();
        let beside = beside(rt, path)?;
        let belonging = match self.file.get() {
            Some(digest) => {
                let text = beside.as_ref().map(|text| text.as_slice());
                belonging_of(alloc, journal, text, digest.digits())
            }
            // A file that was accepted was read to its end.
            None => Ok(Belonging::Other),
        };
        drop(beside);
        match belonging {
            Ok(Belonging::Other) if !self.takes_other => Err(RunRefusal::Fault(
                AppFault::OtherFile,
            )),
            Ok(belonging) => Ok(belonging),
            Err(NoMemory) => Err(RunRefusal::Fault(AppFault::Memory)),
        }
    }

    /// The same of the journal of a desk that is to be opened. One without an entry gets to belong to the
    /// .pb file, before it has a byte more.
    pub fn belonging_for_desk<R: Files<File = File> + AllocGlobal>(
        &self,
        rt: &R,
        path: &str,
        journal: &[u8],
    ) -> Result<Belonging, RunRefusal> {
        let belonging = self.belonging(rt, path, journal)?;
        if belonging == Belonging::New {
            self.name_file(rt, path, &[])?;
        }
        Ok(belonging)
    }

    /// Has it stand beside the journal with this path, whose desk was opened, that it belongs to the .pb
    /// file.
    pub fn keep_belonging<R: Files<File = File> + Eprint + AllocGlobal>(
        &self,
        rt: &R,
        path: &str,
        belonging: Belonging,
    ) -> Result<(), RunRefusal> {
        let alloc = rt.alloc();
        match belonging {
            Belonging::New | Belonging::Same => Ok(()),
            Belonging::Unnamed => {
                self.name_file(rt, path, &[])?;
                if let Some(digest) = self.file.get() {
                    say_words(rt, adopted_words(alloc, path, digest.text()));
                }
                Ok(())
            }
            Belonging::Other => {
                let former = match read_file_beside(rt, alloc, path) {
                    Ok(former) => former.unwrap_or(Vec::new(alloc)),
                    Err(error) => return Err(unread_beside(rt, path, &error)),
                };
                let named = self.name_file(rt, path, former.as_slice());
                drop(former);
                named
            }
        }
    }

    /// Puts the digest of the .pb file beside the journal with this path, above what stood there.
    fn name_file<R: Files<File = File> + AllocGlobal>(
        &self,
        rt: &R,
        path: &str,
        former: &[u8],
    ) -> Result<(), RunRefusal> {
        let alloc = rt.alloc();
        let Some(digest) = self.file.get() else {
            return Err(RunRefusal::Fault(AppFault::OtherFile));
        };
        match name_file(rt, alloc, path, digest.digits(), former) {
            Ok(()) => Ok(()),
            Err(error) => {
                let words = unkept_words(alloc, path, ".file", &error);
                Err(RunRefusal::of_call(&error, AppFault::Write, words))
            }
        }
    }

    /// Fails reading the journal, for this reason.
    pub(crate) fn refuse(&self, refusal: RunRefusal) -> io::Result<()> {
        self.refusal.set(Some(refusal));
        Err(Error::from(ErrorKind::Other))
    }
}

/// The bytes of the file beside the journal with this path, which may be a link.
fn beside<R: Files<File = File> + AllocGlobal>(
    rt: &R,
    path: &str,
) -> Result<Option<Vec<u8>>, RunRefusal> {
    let own = match behind_link(rt, path) {
        Ok(own) => own,
        Err(error) => return Err(unread_beside(rt, path, &error)),
    };
    let journal = match &own {
        Some(own) => own.as_str(),
        None => path,
    };
    let read = match read_file_beside(rt, rt.alloc(), journal) {
        Ok(beside) => Ok(beside),
        Err(error) => Err(unread_beside(rt, journal, &error)),
    };
    drop(own);
    read
}

/// The file beside the journal with this path could not be read, for this reason.
fn unread_beside<R: AllocGlobal>(rt: &R, journal: &str, reason: &Error) -> RunRefusal {
    let words = unread_file_words(rt.alloc(), journal, reason);
    RunRefusal::of_call(reason, AppFault::Open(RunText::Journal), words)
}
