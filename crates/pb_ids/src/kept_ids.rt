//! Where ids and their places are kept.

ghost use Rattle.std.specs.Prelude.{◌≡◌, List, ℕ, None, Some, IfOk, OnErr, OnOk, if◌then◌else◌};
ghost use Rattle.std.specs.Str.{bytes_eq};
ghost use Rattle.pb_ids.specs.Inner.Kept.{IsFew, code_of, found, has_code, hashed};

use crate::crowd::{Crowd, start_of};
use indexmap::IndexMap;
use std::alloc::{AllocError, Allocator};
use std::collections::BTreeMap;
use std::hash::{BuildHasher, BuildHasherDefault, FoldHasher};

/// How ids are hashed: with a fixed seed.
type Hasher = BuildHasherDefault<FoldHasher>;

/// Ids with their places. One of at most eight bytes is found by a number made of its bytes, which is
/// read in one go; a longer one by its text. Both are kept by hash. The hash has a fixed seed, so ids can
/// be chosen that crowd a region of its table; those that find no room there are kept in order.
#[derive(Drop)]
pub(crate) struct KeptIds<A: Allocator> {
    pub(crate) short: IndexMap<u64, u32, Hasher, A>,
    pub(crate) long: IndexMap<String<A>, u32, Hasher, A>,
    pub(crate) crowded: BTreeMap<String<A>, u32, A>,
    short_crowd: Crowd<A>,
    long_crowd: Crowd<A>,
}

impl<A: Allocator> KeptIds<A> {
    /// No ids yet.
    pub(crate) fn new(alloc: A) -> KeptIds<A>
    where
        A: Copy,
        ensures none { (text : List ℕ) → found result text ≡ None }
        ensures few { IsFew result }
    {
        KeptIds {
            short: IndexMap::new(alloc),
            long: IndexMap::new(alloc),
            crowded: BTreeMap::new(alloc),
            short_crowd: Crowd::new(alloc),
            long_crowd: Crowd::new(alloc),
        }
    }

    /// The place of an id, where it is among these.
    #[inline(always)]
    pub(crate) fn get(&self, id: &str) -> Option<u32>
        ensures { result ≡ found self.now id.now }
    {
        if self.crowded.is_empty() {
            return self.hashed(id);
        }
        match self.crowded.get(id) {
            Some(place) => Some(*place),
            None => self.hashed(id),
        }
    }

    /// The place of an id that is kept by hash.
    #[inline(always)]
    fn hashed(&self, id: &str) -> Option<u32>
        ensures { result ≡ hashed self.now id.now }
    {
        match code_of(id) {
            Some(code) => self.short.get(&code).copied(),
            None => self.long.get(id).copied(),
        }
    }

    /// Gives an id this place, new or not, and answers the place that it had.
    pub(crate) fn insert(
        &mut self,
        alloc: A,
        id: &str,
        place: u32,
    ) -> Result<Option<u32>, AllocError>
    where
        A: Copy,
        ensures before { IfOk result (λ before. before ≡ found self.old id.now) }
        ensures places { OnOk result ((text : List ℕ) →
            found self.new text ≡ (if bytes_eq id.now text then Some place else found self.old text)) }
        ensures err { OnErr result ((text : List ℕ) → found self.new text ≡ found self.old text) }
        ensures few { IsFew self.old → IsFew self.new }
    {
        if self.crowded.get(id).is_some() {
            return self.insert_crowded(alloc, id, place);
        }
        let hasher = Hasher::new();
        if let Some(code) = code_of(id) {
            let start = start_of(hasher.hash_one(code));
            let len = self.short.len();
            if !self.short_crowd.has_room(start, len)? {
                return self.insert_crowded(alloc, id, place);
            }
            let before = self.short.insert(code, place)?;
            self.short_crowd.count(start, len, before);
            return Ok(before);
        }
        let start = start_of(hasher.hash_one(id));
        let len = self.long.len();
        if !self.long_crowd.has_room(start, len)? {
            return self.insert_crowded(alloc, id, place);
        }
        let text = String::from_str(alloc, id)?;
        let before = self.long.insert(text, place)?;
        self.long_crowd.count(start, len, before);
        Ok(before)
    }

    /// Stores a place for an id that its table has no room for, or that is kept in order already.
    fn insert_crowded(&mut self, alloc: A, id: &str, place: u32) -> Result<Option<u32>, AllocError>
    where
        A: Copy,
        ensures before { IfOk result (λ before. before ≡ found self.old id.now) }
        ensures places { OnOk result ((text : List ℕ) →
            found self.new text ≡ (if bytes_eq id.now text then Some place else found self.old text)) }
        ensures err { OnErr result ((text : List ℕ) → found self.new text ≡ found self.old text) }
        ensures few { IsFew self.old → IsFew self.new }
    {
        let before = self.get(id);
        let text = String::from_str(alloc, id)?;
        self.crowded.insert(text, place)?;
        Ok(before)
    }
}

/// The number of a text of at most eight bytes, none of them 255 (which no text has).
fn code_of(id: &str) -> Option<u64>
    ensures { result ≡ (if has_code id.now then Some (code_of id.now) else None) }
{
    let bytes = id.as_bytes();
    if bytes.len() > 8 {
        return None;
    }
    let mut code = 0;
    for byte in bytes {
        if *byte == u8::MAX {
            return None;
        }
        code = 256 * code + u64::from(*byte) + 1;
    }
    Some(code)
}
