//! Why a file can't be opened or read, which is tried once more for the system's reason.

use std::fs;
use std::io::{Error, Read};
use std::rt::Files;

/// Whether a path names a folder.
pub fn is_folder<R: Files>(rt: &R, path: &str) -> bool {
    fs::metadata(rt, path).is_ok_and(|metadata| metadata.is_dir())
}

/// Why the file with this path cannot be opened; none where it can.
pub fn opening_failure<R: Files>(rt: &R, path: &str) -> Option<Error> {
    fs::open(rt, path).err()
}

/// Why the file with this path cannot be read to its end; none where it can.
pub fn reading_failure<R: Files>(rt: &R, path: &str) -> Option<Error> {
    match fs::open(rt, path) {
        Ok(mut file) => {
            let failure = read_all(&mut file);
            drop(file);
            failure
        }
        Err(error) => Some(error),
    }
}

fn read_all<F: Read>(file: &mut F) -> Option<Error> {
    let mut buffer = [0u8; 4096];
    for _ in 0..u64::MAX {
        match file.read(&mut buffer) {
            Ok(0) => return None,
            Ok(_) => {}
            Err(error) => return Some(error),
        }
    }
    None
}
