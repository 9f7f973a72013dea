//! A reader whose bytes are digested as they go by.

use sha2::{Digest, Sha256};
use std::cell::Cell;
use std::io::{Read, Result};
use std::mem;

/// The digits of hexadecimal.
const DIGITS: &[u8; 16] = b"0123456789abcdef";

/// A reader that leaves the digest of all its bytes, as they were read, in a cell once it is at its end. It
/// digests nothing where it has no cell.
#[derive(Drop)]
pub struct Digested<'a, P> {
    reader: P,
    hasher: Sha256,
    digest: Option<&'a Cell<Option<Hex>>>,
}

impl<'a, P> Digested<'a, P> {
    pub fn new(reader: P, digest: Option<&'a Cell<Option<Hex>>>) -> Digested<'a, P> {
        Digested {
            reader,
            hasher: Sha256::new(),
            digest,
        }
    }
}

impl<P: Read> Read for Digested<'_, P> {
    fn read(&mut self, buf: &mut [u8]) -> Result<usize> {
        let count = self.reader.read(buf)?;
        let Some(digest) = self.digest else {
            return Ok(count);
        };
        if count == 0 && !buf.is_empty() && digest.get().is_none() {
            let hasher = mem::replace(&mut self.hasher, Sha256::new());
            digest.set(Some(Hex::of(hasher)));
        }
        if count <= buf.len() {
            self.hasher.update(&buf[..count]);
        }
        Ok(count)
    }
}

/// A digest in hexadecimal, by small letters.
#[derive(Clone, Copy)]
pub struct Hex([u8; 64]);

impl Hex {
    /// The digest that a hasher has.
    pub fn of(hasher: Sha256) -> Hex {
        let digest = hasher.finalize();
        let mut digits = [0u8; 64];
        for at in 0..32usize {
            let byte = digest[at];
            digits[2 * at] = DIGITS[usize::from(byte >> 4)];
            digits[2 * at + 1] = DIGITS[usize::from(byte & 15)];
        }
        Hex(digits)
    }

    /// Its digits, as bytes.
    pub fn digits(&self) -> &[u8] {
        &self.0
    }

    /// Its digits.
    pub fn text(&self) -> &str {
        str::from_utf8(&self.0).unwrap_or("")
    }
}
