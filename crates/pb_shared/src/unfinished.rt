//! What is left where a clerk did not come back.

use thiserror::Error;

/// A clerk who was not handed back holds the lock, whose word this is: the clerk's number and 1. The desk is
/// given up.
#[derive(Clone, Copy, Debug, PartialEq, Eq, Error)]
#[error("the lock word is {0}")]
pub struct Unfinished(pub u64);
