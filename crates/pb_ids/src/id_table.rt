//! A table of ids.

ghost use Rattle.std.specs.Prelude.{◌≡◌, IfOk, OnErr, OnOk};
ghost use Rattle.std.specs.FinMap as map;
ghost use Rattle.pb_ids.specs.Inner.Kept.{IsFew, found};
ghost use Rattle.pb_ids.specs.Inner.Places.{Shows, Shows-prop};

use crate::kept_ids::KeptIds;
use std::alloc::{AllocError, Allocator, Global};
use std::marker::Model;

/// A table of ids, each with a place. A contract sees a map from their texts to their places.
///
/// Whoever chose the ids, none takes long to find: those that collide in a hash table are kept in order.
#[derive(Drop)]
pub struct IdTable<A: Allocator = Global> {
    kept: KeptIds<A>,
    ghost shown: { Shows (found kept) } by { Shows-prop (found kept) },
    ghost few: { IsFew kept },
}

impl<A: Allocator> Model for IdTable<A> {
    ghost use Rattle.std.specs.Prelude.{ℕ};
    ghost use Rattle.std.specs.Coded.{coded_list, coded_ℕ};
    ghost use Rattle.std.specs.FinMap as map;
    ghost use Rattle.std.specs.Cmp.Lexicographic.{slice_cmp};
    ghost use Rattle.std.specs.Ordering.{nat_cmp};

    ghost Value = { map.FinMap (slice_cmp nat_cmp) ℕ };

    ghost coded = { map.code (coded_list coded_ℕ) coded_ℕ };

    ghost view = { λ t. t.shown.0 };
}

impl<A: Allocator> IdTable<A> {
    /// No ids yet.
    pub fn new(alloc: A) -> IdTable<A>
    where
        A: Copy,
        ensures { result ≡ map.empty }
    {
        IdTable {
            kept: KeptIds::new(alloc),
        }
    }

    /// The place of an id, where it has one.
    #[inline(always)]
    pub fn get(&self, id: &str) -> Option<u32>
        ensures { result ≡ map.get self.now id.now }
    {
        self.kept.get(id)
    }

    /// Gives an id this place, new or not, and answers the place that it had. Where memory is refused, the
    /// table stays as it was.
    pub fn insert(&mut self, alloc: A, id: &str, place: u32) -> Result<Option<u32>, AllocError>
    where
        A: Copy,
        ensures before { IfOk result (λ before. before ≡ map.get self.old id.now) }
        ensures ok { OnOk result (self.new ≡ map.insert self.old id.now place) }
        ensures err { OnErr result (self.new ≡ self.old) }
    {
        self.kept.insert(alloc, id, place)
    }
}
