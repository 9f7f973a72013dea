//! The texts that are voters' ids.

ghost use Rattle.std.specs.Prelude.{◌≡◌, ◌≢◌, ℕ, List, [], string_bytes, IfOk, MatchOption};
ghost use Rattle.std.specs.Str.{trim};
ghost use Rattle.pb_core.specs.Ballot.{IsVoterId};

use crate::no_memory::NoMemory;
use std::alloc::{Allocator, Global};
use std::marker::Model;

/// A voter's id: a text that is not empty and has no white space at its ends.
#[derive(Drop)]
pub struct VoterId<A: Allocator = Global> {
    text: String<A>,
}

impl<A: Allocator> Model for VoterId<A> {
    ghost Value = { List ℕ };

    ghost view = { λ v. string_bytes v.text };

    ghost invariant = { λ v. IsVoterId (string_bytes v.text) };
}

impl<A: Allocator> VoterId<A> {
    /// The id that a text has once white space at its ends is taken off; `None` where nothing is left.
    pub fn new(alloc: A, text: &str) -> Result<Option<VoterId<A>>, NoMemory>
        ensures { IfOk result (λ found. MatchOption found (trim text.now ≡ [])
            (λ id. (trim text.now ≢ []) × (id ≡ trim text.now))) }
    {
        let trimmed = text.trim();
        if trimmed.is_empty() {
            return Ok(None);
        }
        let text = String::from_str(alloc, trimmed)?;
        Ok(Some(VoterId { text }))
    }

    /// The same id, in memory of its own.
    pub fn copy<B: Allocator>(&self, alloc: B) -> Result<VoterId<B>, NoMemory>
        ensures { IfOk result (λ id. id ≡ self.now) }
    {
        let text = String::from_str(alloc, self.text())?;
        Ok(VoterId { text })
    }

    /// The id as text.
    pub fn text(&self) -> &str
        ensures text { result.now ≡ self.now }
        ensures is_id { IsVoterId self.now }
    {
        self.text.as_str()
    }
}
