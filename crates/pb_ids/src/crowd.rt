//! How crowded the places of a hash table are.

ghost use Rattle.std.specs.Prelude.{◌≡◌, ◌<◌, ◌≤◌, ℕ, true, IfOk, MatchOption};
ghost use Rattle.pb_ids.specs.Inner.Crowd.{IsTable, has_lane, region_of};
ghost use Rattle.pb_ids.specs.Inner.Kept.{most_hashed};

use std::alloc::{AllocError, Allocator};

/// An `IndexMap` keeps its entries in groups of twelve lanes. A hash says at which group its search
/// starts, and where that is full it goes on to the next. It has twice as many groups once there are
/// more than nine entries for each.
const LOAD: usize = 9;

/// How many groups are counted together: a region.
const REGION: usize = 32;

/// How many searches may start in a region: eleven for each of its groups.
const ROOM: u32 = 352;

/// The binary logarithm of the fewest groups of a table that is counted.
const FEWEST_BITS: u32 = 5;

/// The binary logarithm of the most groups of a table, of 1,179,648 entries. It gets no more entries.
const MOST_BITS: u32 = 17;

/// Counts for each region of a table, and of each larger table that it may become, how many entries'
/// searches start there. Each region then has a lane free in twelve, so no entry lies more than two
/// regions after the start of its search, and no search in vain passes more than twelve, whoever chose
/// the keys. Keys that nobody chose leave room almost surely.
#[derive(Drop)]
pub(crate) struct Crowd<A: Allocator> {
    counts: Vec<u32, A>,
}

impl<A: Allocator> Crowd<A> {
    /// Nothing was counted yet.
    pub(crate) fn new(alloc: A) -> Crowd<A> {
        Crowd {
            counts: Vec::new(alloc),
        }
    }

    /// Whether a table of `len` entries has room for an entry whose search starts here: its region has, and
    /// the table has fewer than 1,179,648 entries.
    pub(crate) fn has_room(&mut self, start: usize, len: usize) -> Result<bool, AllocError>
        ensures few { IfOk result (λ room. room ≡ true → len < most_hashed) }
        ensures room { IfOk result (λ room. (bits : ℕ) → IsTable bits len
            → room ≡ has_lane self.new.counts.items (region_of start bits)) }
    {
        if self.counts.is_empty() {
            self.counts.resize(2 * (1 << MOST_BITS) / REGION, 0)?;
        }
        match bits_of(len) {
            Some(bits) => Ok(self.has_lane(region_of(start, bits))),
            None => Ok(false),
        }
    }

    /// Whether there is room for one search more to start in this region.
    fn has_lane(&self, region: usize) -> bool
        ensures { result ≡ has_lane self.now.counts.items region }
    {
        match self.counts.get(region) {
            Some(count) => *count < ROOM,
            None => true,
        }
    }

    /// Counts an entry whose search starts here for a table of `len` entries, and for each larger one; not
    /// again where it had a place before.
    pub(crate) fn count(&mut self, start: usize, len: usize, before: Option<u32>) {
        if before.is_some() {
            return;
        }
        for bits in FEWEST_BITS..MOST_BITS + 1 {
            let region = region_of(start, bits);
            if 1usize << bits > len / LOAD && region < self.counts.len() {
                self.counts[region] = self.counts[region].saturating_add(1);
            }
        }
    }
}

/// The binary logarithm of the groups of a table of `len` entries; none where it gets no entry more.
fn bits_of(len: usize) -> Option<u32>
    ensures { MatchOption result (most_hashed ≤ len) (λ bits. IsTable bits len) }
{
    for bits in FEWEST_BITS..MOST_BITS + 1 {
        if 1usize << bits > len / LOAD {
            return Some(bits);
        }
    }
    None
}

/// Where the search for an entry of this hash starts, but for the number of groups.
pub(crate) fn start_of(hash: u64) -> usize {
    ((hash ^ (hash >> 32)) & 0xFFFF_FFFF) as usize
}

/// The region where a search starts in a table of `2 ^ bits` groups. Those of all tables are numbered on, the
/// smaller tables first.
fn region_of(start: usize, bits: u32) -> usize
    requires { bits < 63 }
    ensures { result ≡ region_of start bits }
{
    let groups = 1usize << bits;
    groups / REGION + start % groups / REGION
}
