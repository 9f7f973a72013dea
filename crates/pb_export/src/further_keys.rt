//! Further keys of META.

ghost use Rattle.std.specs.Prelude.{◌≡◌, ◌≤◌, [], length};

use pb_core::no_memory::NoMemory;
use std::alloc::Global;
use std::marker::Model;
use std::mem;

/// The most further keys of META that are kept.
const MOST_KEYS: usize = 900_000;

/// A further key of META. A contract sees its name and its value.
#[derive(Drop)]
pub struct FurtherKey {
    pub name: String,
    pub value: String,
}

impl Model for FurtherKey {
    ghost use Rattle.std.specs.Prelude.{ℕ, List, string_bytes};

    ghost Value = { List ℕ × List ℕ };

    ghost view = { λ key. (string_bytes key.name, string_bytes key.value) };
}

/// Further keys of META, in their order: 900,000 at most.
#[derive(Drop)]
pub struct FurtherKeys {
    keys: Vec<FurtherKey>,
}

impl Model for FurtherKeys {
    ghost use Rattle.std.specs.Prelude.{◌≤◌, ℕ, List, length};

    ghost Value = { List (List ℕ × List ℕ) };

    ghost view = { λ k. k.keys.items };

    ghost invariant = { λ k. length k.keys.items ≤ 900000 };
}

impl FurtherKeys {
    /// No keys.
    pub(crate) fn none(alloc: Global) -> FurtherKeys
        ensures { result ≡ [] }
    {
        FurtherKeys {
            keys: Vec::new(alloc),
        }
    }

    /// Keeps this key behind the others, if there are not too many.
    pub(crate) fn push(&mut self, key: FurtherKey) -> Result<(), NoMemory> {
        if self.keys.len() < MOST_KEYS {
            self.keys.push(key)?;
        } else {
            drop(key);
        }
        Ok(())
    }

    /// The place that the next key gets, if it is kept.
    pub(crate) fn next_place(&self) -> u32 {
        u32::try_from(self.keys.len()).unwrap_or(u32::MAX)
    }

    /// Gives the key at this place another value, if one is kept there.
    pub(crate) fn set(&mut self, place: u32, value: String) {
        match self.keys.get_mut(place as usize) {
            Some(key) => drop(mem::replace(&mut key.value, value)),
            None => drop(value),
        }
    }

    /// The keys.
    pub(crate) fn keys(&self) -> &[FurtherKey]
        ensures keys { result.now ≡ self.now }
        ensures few { length self.now ≤ 900000 }
    {
        self.keys.as_slice()
    }
}
