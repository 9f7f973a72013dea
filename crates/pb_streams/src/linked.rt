//! Where a link to a journal leads.

use std::fs;
use std::io::Result;
use std::path::PathBuf;
use std::rt::Files;

/// The path of the file to which a journal's path leads, if that is a link. What belongs to a journal stands beside
/// this file, whatever the link is called.
pub fn behind_link<R: Files + AllocGlobal>(rt: &R, journal: &str) -> Result<Option<PathBuf>> {
    match fs::symlink_metadata(rt, journal) {
        Ok(about) if about.is_symlink() => Ok(Some(fs::canonicalize(rt, journal)?)),
        // Where it is not there, or can't be seen, opening it tells.
        _ => Ok(None),
    }
}
