//! The rows of META that gave the keys that the desk or the count uses.

use crate::mark::Mark;
use pb_read::MetaKey;

/// The rows of META that gave a key: the first, and the last, which counts.
#[derive(Clone, Copy)]
pub struct Given {
    pub first: Mark,
    pub last: Mark,
}

/// How many these keys are.
const COUNT: usize = MetaKey::ALL.len();

/// The rows of META that gave the keys that the desk or the count uses.
#[derive(Clone, Copy)]
pub struct Keys {
    /// The rows of each key, in the order in which `MetaKey` declares them.
    given: [Option<Given>; COUNT],
}

impl Keys {
    /// No key was given yet.
    pub fn none() -> Keys {
        Keys {
            given: [None; COUNT],
        }
    }

    /// Takes a row of META with this key, and answers where it stood last, if it is one of these and
    /// repeated.
    pub fn take(&mut self, key: &str, mark: Mark) -> Option<Mark> {
        let key = MetaKey::of(key)?;
        let before = self.given(key);
        let first = before.map_or(mark, |given| given.first);
        self.given[key as usize] = Some(Given { first, last: mark });
        Some(before?.last)
    }

    /// The rows that gave this key.
    pub fn given(&self, key: MetaKey) -> Option<Given> {
        self.given[key as usize]
    }
}
