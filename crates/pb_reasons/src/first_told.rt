//! The rows of ties that are told.

ghost use Rattle.std.specs.Prelude.{◌≡◌, ◌++◌, ◌∷◌, [], ◌≤◌, OnOk, length, take, true};

use crate::told_tie::ToldTie;
use pb_core::no_memory::NoMemory;

/// The rows that are told: so many, from the first.
#[derive(Drop)]
pub(crate) struct FirstTold<const MOST: usize> {
    pub rows: Vec<ToldTie>,
    ghost few: { length rows.items ≤ MOST },
}

impl<const MOST: usize> FirstTold<MOST> {
    /// Whether as many are told as are told at most.
    pub(crate) fn is_full(&self) -> bool
        ensures { result ≡ true → length self.now.rows.items ≡ MOST }
    {
        self.rows.len() >= MOST
    }

    /// Puts a row behind the others, unless as many are told as are told at most.
    pub(crate) fn tell(&mut self, row: ToldTie) -> Result<(), NoMemory>
        ensures { OnOk result (self.new.rows.items ≡ take MOST (self.old.rows.items ++ row ∷ [])) }
    {
        if self.rows.len() < MOST {
            self.rows.push(row)?;
        }
        Ok(())
    }
}
