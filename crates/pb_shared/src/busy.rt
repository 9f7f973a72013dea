//! What a call answers where another clerk holds the lock.

use thiserror::Error;

/// The clerk with this number held the lock, so nothing was done.
#[derive(Clone, Copy, Debug, PartialEq, Eq, Error)]
#[error("clerk {0} holds the lock")]
pub struct Busy(pub u32);
