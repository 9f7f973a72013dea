//! A file that is written beside the one that it replaces, and then gets that one's name.

use crate::beside::folder_of;
use std::alloc::Global;
use std::fs;
use std::fs::{OpenFile, OpenOptions, Permissions};
use std::io::{Error, ErrorKind, Result};
use std::os::unix::fs::{OpenOptionsExt, PermissionsExt};
use std::rt::Files;

/// How many names are tried for the file beside.
const MOST_NAMES: u32 = 100;

/// The permissions of what pairs ids with ballots: its owner may read and write it.
const OWNER_ALONE: u32 = 0o600;

/// The permissions that a new file has, but for those that the umask takes away.
const FOR_ALL: u32 = 0o666;

/// A new file, and the paths of it and of the file that it is to replace.
#[derive(Drop)]
pub(crate) struct PartFile<F> {
    pub(crate) file: F,
    part: String,
    target: String,
}

impl<F: OpenFile + Drop> PartFile<F> {
    /// Makes a file beside the one with this path. It has the permissions of that one; where there is none,
    /// it is for its owner alone, if that is asked for, whatever the umask.
    pub(crate) fn make<R: Files<File = F>>(
        rt: &R,
        alloc: Global,
        target: String,
        for_owner: bool,
    ) -> Result<PartFile<F>> {
        let older = match fs::metadata(rt, target.as_str()) {
            Ok(metadata) => Some(metadata.permissions()),
            Err(_) => None,
        };
        // Nobody else reads what is to have the permissions of another file.
        let mode = if for_owner || older.is_some() {
            OWNER_ALONE
        } else {
            FOR_ALL
        };
        let (file, part) = create(rt, alloc, target.as_str(), mode)?;
        if let Some(older) = older {
            let _ = file.set_permissions(older);
        } else if for_owner {
            let _ = file.set_permissions(Permissions::from_mode(OWNER_ALONE));
        }
        Ok(PartFile { file, part, target })
    }

    /// The path of the file that it is to replace.
    pub(crate) fn target(&self) -> &str {
        self.target.as_str()
    }

    /// Sees that the bytes are on their device.
    pub(crate) fn sync(&self) -> Result<()> {
        self.file.sync_all()
    }

    /// Gives the file the name of the one that it replaces, and sees that the name is on its device.
    pub(crate) fn place<R: Files<File = F>>(self, rt: &R) -> Result<()> {
        let PartFile { file, part, target } = self;
        drop(file);
        let placed = fs::rename(rt, part.as_str(), target.as_str());
        match placed {
            Ok(()) => sync_folder(rt, target.as_str()),
            Err(_) => {
                let _ = fs::remove_file(rt, part.as_str());
            }
        }
        drop(part);
        drop(target);
        placed
    }

    /// Takes the file away.
    pub(crate) fn give_up<R: Files<File = F>>(self, rt: &R) {
        let _ = fs::remove_file(rt, self.part.as_str());
        drop(self);
    }
}

/// Makes a new file whose name is that of the target and `.partN`, N the first number that is free.
fn create<R: Files>(rt: &R, alloc: Global, target: &str, mode: u32) -> Result<(R::File, String)> {
    for number in 0..MOST_NAMES {
        let part = format!(in alloc; "{target}.part{number}")?;
        match OpenOptions::new()
            .write(true)
            .create_new(true)
            .mode(mode)
            .open(rt, part.as_str())
        {
            Ok(file) => return Ok((file, part)),
            Err(error) if error.kind() == ErrorKind::AlreadyExists => drop(part),
            Err(error) => {
                drop(part);
                return Err(error);
            }
        }
    }
    Err(Error::from(ErrorKind::AlreadyExists))
}

/// Sees that a new name is on its device, where the system lets a folder be opened for that.
fn sync_folder<R: Files>(rt: &R, target: &str) {
    if let Ok(file) = fs::open(rt, folder_of(target)) {
        let _ = file.sync_all();
        drop(file);
    }
}
